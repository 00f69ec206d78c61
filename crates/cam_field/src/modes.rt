ghost use Rattle.std.specs.Prelude.{◌≡◌, IfSome, Some};
ghost use Rattle.cam_field.specs.Cam.{action_code, timing_code};
ghost use Rattle.cam_field.specs.declared.modes.Action.{Action};
ghost use Rattle.cam_field.specs.declared.modes.Timing.{Timing};

/// The kinds of packet that have a CAM word.
#[derive(Clone, Copy, Debug, PartialEq, Eq)]
pub enum Role {
    /// A command.
    Control,
    /// A cancellation of a command.
    Cancel,
    /// An acknowledgement of a command.
    Ack,
}

/// What is to be done with the fields of a command.
#[derive(Clone, Copy, Debug, PartialEq, Eq)]
pub enum Action {
    /// Nothing.
    None,
    /// Nothing, but what an execution would do is told.
    DryRun,
    /// They are set.
    Execute,
}

/// When a command is executed.
#[derive(Clone, Copy, Debug, PartialEq, Eq)]
pub enum Timing {
    /// At once, whatever the packet's stamp.
    Now,
    /// At the packet's stamp, and never where that has passed.
    At,
    /// At the packet's stamp, or at once where that has passed.
    AtOrNow,
}

impl Action {
    /// The action of this code, where it has one.
    pub(crate) fn of_code(code: u32) -> Option<Action>
        ensures found { IfSome result (λ action. code ≡ action_code action) }
        ensures only { (action : Action) → code ≡ action_code action → result ≡ Some action }
    {
        match code {
            0 => Some(Action::None),
            1 => Some(Action::DryRun),
            2 => Some(Action::Execute),
            _ => None,
        }
    }

    /// The code of the action.
    pub(crate) fn code(self) -> u32
        ensures { result ≡ action_code self }
    {
        match self {
            Action::None => 0,
            Action::DryRun => 1,
            Action::Execute => 2,
        }
    }
}

impl Timing {
    /// The timing of this code, where it has one.
    pub(crate) fn of_code(code: u32) -> Option<Timing>
        ensures found { IfSome result (λ timing. code ≡ timing_code timing) }
        ensures only { (timing : Timing) → code ≡ timing_code timing → result ≡ Some timing }
    {
        match code {
            0 => Some(Timing::Now),
            1 => Some(Timing::At),
            2 => Some(Timing::AtOrNow),
            _ => None,
        }
    }

    /// The code of the timing.
    pub(crate) fn code(self) -> u32
        ensures { result ≡ timing_code self }
    {
        match self {
            Timing::Now => 0,
            Timing::At => 1,
            Timing::AtOrNow => 2,
        }
    }
}
