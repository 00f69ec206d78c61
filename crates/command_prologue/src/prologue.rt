ghost use Rattle.std.specs.Prelude.{◌≡◌, ◌≤◌};
ghost use Rattle.command_prologue.specs.CommandPrologue.{command_words};

use crate::mode::{identities_size, prologue_size};
use cam_field::{Cam, Ident};
use vrt_header::Prologue;

/// What stands in front of the content of a command, a cancellation or an acknowledgement.
#[derive(Clone, Copy, Debug, PartialEq, Eq)]
pub struct CommandPrologue {
    pub prologue: Prologue,
    /// The control and acknowledge mode word.
    pub cam: Cam,
    /// The message identifier, which an acknowledgement has from its command.
    pub message: u32,
    /// The identity of the controllee, where bit 31 of the mode word announces one.
    pub controllee: Ident,
    /// The identity of the controller, where bit 29 of the mode word announces one.
    pub controller: Ident,
}

impl CommandPrologue {
    /// How many words it takes, 6 to 17.
    #[inline]
    pub fn words(&self) -> usize
        ensures number { result ≡ command_words self.now }
        ensures most { result ≤ 17 }
    {
        prologue_size(self.prologue.header.timed) + 2 + identities_size(&self.cam)
    }
}
