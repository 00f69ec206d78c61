ghost use Rattle.std.specs.Prelude.{◌≡◌, IfSome, IfNone};
ghost use Rattle.sample_binder.specs.declared.reason.Reason.{Reason};
ghost use Rattle.sample_binder.specs.Reasons.{IsReason, number_of, detail_of};

/// Why a sample is not bound to a context.
#[derive(Clone, Copy, Debug, PartialEq, Eq)]
pub enum Reason {
    /// It was captured before the first context.
    BeforeFirst,
    /// So many contexts, from 1 to 15, were lost between the one before it and the one after it.
    ContextLost(u8),
    /// It could wait no longer for a later context, since too many data packets waited.
    PendingFull,
    /// It was captured before the first context that is kept, and earlier ones are no longer kept.
    TimelineFull,
    /// The stream ended before a later context came.
    Ended,
    /// Its context has another sample rate or payload format than that of its packet's first
    /// sample.
    FormatChanged,
    /// The payload of its packet does not divide into samples of its context's item size.
    Shape,
}

impl Reason {
    /// Its number: 1 to 7.
    pub fn number(self) -> u32
        ensures { result ≡ number_of self }
    {
        match self {
            Reason::BeforeFirst => 1,
            Reason::ContextLost(_) => 2,
            Reason::PendingFull => 3,
            Reason::TimelineFull => 4,
            Reason::Ended => 5,
            Reason::FormatChanged => 6,
            Reason::Shape => 7,
        }
    }

    /// The detail beside its number: how many contexts were lost, and 0 where none is said to be.
    pub fn detail(self) -> u32
        ensures { result ≡ detail_of self }
    {
        match self {
            Reason::ContextLost(lost) => u32::from(lost),
            _ => 0,
        }
    }

    /// The reason with this number and detail. `None` exactly where there is none: the numbers are
    /// 1 to 7, and the detail of 2 is 1 to 15, that of the others 0.
    pub fn of(number: u32, detail: u32) -> Option<Reason>
        ensures found { IfSome result (λ reason. IsReason reason number detail) }
        ensures none { IfNone result ((reason : Reason) → ¬ IsReason reason number detail) }
    {
        if number == 2 {
            return context_lost(detail);
        }
        if detail != 0 {
            return None;
        }
        plain_reason(number)
    }
}

// So many contexts were lost.
fn context_lost(lost: u32) -> Option<Reason>
    ensures found { IfSome result (λ reason. IsReason reason 2 lost) }
    ensures none { IfNone result ((reason : Reason) → ¬ IsReason reason 2 lost) }
{
    if lost == 0 || lost > 15 {
        return None;
    }
    Some(Reason::ContextLost(lost as u8))
}

// The reason with this number, where there is no detail.
fn plain_reason(number: u32) -> Option<Reason>
    ensures found { IfSome result (λ reason. IsReason reason number 0) }
    ensures none { IfNone result ((reason : Reason) → ¬ IsReason reason number 0) }
{
    match number {
        1 => Some(Reason::BeforeFirst),
        3 => Some(Reason::PendingFull),
        4 => Some(Reason::TimelineFull),
        5 => Some(Reason::Ended),
        6 => Some(Reason::FormatChanged),
        7 => Some(Reason::Shape),
        _ => None,
    }
}
