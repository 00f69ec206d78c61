ghost use Rattle.std.specs.Prelude.{◌≡◌, ◌≢◌, ◌↔◌, IsTrue, IfSome, IfNone};
ghost use Rattle.release_form.specs.Refusals.{refusal_number};
ghost use Rattle.release_form.specs.declared.refusal.Refusal.TheVariants.{Late};

/// Why a frame is refused.
#[derive(Clone, Copy, Debug, PartialEq, Eq)]
pub enum Refusal {
    /// Its datagram has more bytes than a packet may have; told with its length.
    TooLarge,
    /// Its datagram is no packet; told with the word at which it is refused.
    Malformed,
    /// A data packet, a context or a version of a stream without a route; told with the stream.
    NoRoute,
    /// A packet that is not above what was released; told with the last released stamp.
    Late,
    /// A packet that its window holds.
    Repeat,
    /// A packet with the stamp of another one in its window; told with the count of that one.
    Conflict,
    /// A command for another controllee.
    NotAddressed,
    /// A command that is another one under a key that is kept; told with the first word that
    /// differs.
    Reused,
    /// A command that can't be scheduled, since 64 are; told with their number.
    ScheduleFull,
    /// An acknowledgement.
    Answer,
}

impl Refusal {
    /// The number that a record has for it: 1 to 10, in this order.
    pub fn number(self) -> u8
        ensures { result ≡ refusal_number self }
    {
        match self {
            Refusal::TooLarge => 1,
            Refusal::Malformed => 2,
            Refusal::NoRoute => 3,
            Refusal::Late => 4,
            Refusal::Repeat => 5,
            Refusal::Conflict => 6,
            Refusal::NotAddressed => 7,
            Refusal::Reused => 8,
            Refusal::ScheduleFull => 9,
            Refusal::Answer => 10,
        }
    }

    /// The refusal with this number. `None` exactly where there is none.
    pub fn of_number(number: u32) -> Option<Refusal>
        ensures found { IfSome result (λ refusal. refusal_number refusal ≡ number) }
        ensures none { IfNone result ((refusal : Refusal) → refusal_number refusal ≢ number) }
    {
        match number {
            1 => Some(Refusal::TooLarge),
            2 => Some(Refusal::Malformed),
            3 => Some(Refusal::NoRoute),
            4 => Some(Refusal::Late),
            5 => Some(Refusal::Repeat),
            6 => Some(Refusal::Conflict),
            7 => Some(Refusal::NotAddressed),
            8 => Some(Refusal::Reused),
            9 => Some(Refusal::ScheduleFull),
            10 => Some(Refusal::Answer),
            _ => None,
        }
    }

    // Whether the frame is told with a stamp.
    pub(crate) fn is_late(self) -> bool
        ensures { IsTrue result ↔ (self ≡ Late) }
    {
        matches!(self, Refusal::Late)
    }
}
