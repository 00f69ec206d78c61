ghost use Rattle.std.specs.Prelude.{◌≡◌};
ghost use Rattle.command_codec.specs.Cancel.{front_of};

use cam_field::{Cam, Ident};
use command_prologue::CommandPrologue;
use vrt_header::Prologue;

/// A cancellation of fields of a command that waits for its time.
#[derive(Clone, Copy, Debug, PartialEq, Eq)]
pub struct Cancel {
    pub prologue: Prologue,
    /// The control and acknowledge mode word.
    pub cam: Cam,
    /// The message identifier of the command.
    pub message: u32,
    /// The identity of the controllee.
    pub controllee: Ident,
    /// The identity of the controller.
    pub controller: Ident,
    /// CIF0: the bits of the fields to cancel.
    pub named: u32,
}

impl Cancel {
    /// What stands in front of CIF0: the prologue, the mode word, the message identifier and the
    /// identities.
    pub fn front(&self) -> CommandPrologue
        ensures { result ≡ front_of self.now }
    {
        CommandPrologue {
            prologue: self.prologue,
            cam: self.cam,
            message: self.message,
            controllee: self.controllee,
            controller: self.controller,
        }
    }
}
