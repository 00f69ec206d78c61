ghost use Rattle.std.specs.Prelude.{◌≡◌};
ghost use Rattle.command_codec.specs.Control.{front_of};

use cam_field::{Cam, Ident};
use command_prologue::CommandPrologue;
use vrt_fields::FieldSet;
use vrt_header::Prologue;

/// A command: fields to set or to ask for, and how.
#[derive(Clone, Copy, Debug, PartialEq, Eq)]
pub struct Control {
    pub prologue: Prologue,
    /// The control and acknowledge mode word.
    pub cam: Cam,
    /// The message identifier.
    pub message: u32,
    /// The identity of the controllee.
    pub controllee: Ident,
    /// The identity of the controller.
    pub controller: Ident,
    /// CIF0: the bits of the fields that the command names.
    pub asked: u32,
    /// Their values. None exactly for a query, which ends behind CIF0 and names a field there.
    pub fields: Option<FieldSet>,
}

impl Control {
    /// What stands in front of CIF0: the prologue, the mode word, the message identifier and the
    /// identities.
    pub fn front(&self) -> CommandPrologue
        ensures { result ≡ front_of self.now }
    {
        CommandPrologue {
            prologue: self.prologue,
            cam: self.cam,
            message: self.message,
            controllee: self.controllee,
            controller: self.controller,
        }
    }
}
