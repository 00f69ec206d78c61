ghost use Rattle.std.specs.Prelude.{◌≡◌};
ghost use Rattle.context_timeline.specs.Looks.{mark_of};
ghost use Rattle.sample_binder.specs.Runs.{same_sampling, label_by, reason_by, same_reason, same_label};

use crate::reason::Reason;
use crate::sampling::rate_of;
use context_timeline::Look;
use vrt_fields::FORMAT_WORD;

/// What is known of one sample.
#[derive(Clone, Copy)]
pub enum Label {
    /// The context of this number is in force.
    Bound {
        /// Its number among all contexts that were released, from 0.
        place: u64,
        /// The words of its fields.
        fields: [u32; 19],
    },
    /// No context is given.
    Uncertain(Reason),
}

// What is known of a sample of whose moment this is said, in a packet whose first sample has a
// context with the fields `first`. Where the moment is open, it is uncertain for the reason `why`.
pub(crate) fn label_of(first: &[u32; 19], why: Reason, look: Look<'_>) -> Label
    ensures { result ≡ label_by first.now why (mark_of look.entry) }
{
    match look {
        Look::Bound { place, fields } => {
            if has_same_sampling(first, fields) {
                Label::Bound {
                    place,
                    fields: *fields,
                }
            } else {
                Label::Uncertain(Reason::FormatChanged)
            }
        }
        _ => Label::Uncertain(reason_of(why, look)),
    }
}

// Why a sample of whose moment this is said is not bound, where it is not.
pub(crate) fn reason_of(why: Reason, look: Look<'_>) -> Reason
    ensures { result ≡ reason_by why (mark_of look.entry) }
{
    match look {
        Look::Open => why,
        Look::BeforeFirst => Reason::BeforeFirst,
        Look::TimelineFull => Reason::TimelineFull,
        Look::Lost(lost) => Reason::ContextLost(lost),
        Look::Bound { .. } => Reason::FormatChanged,
    }
}

// Whether the sample rates and the payload formats of two contexts are the same.
pub(crate) fn has_same_sampling(a: &[u32; 19], b: &[u32; 19]) -> bool
    ensures { result ≡ same_sampling a.now b.now }
{
    rate_of(a) == rate_of(b)
        && a[FORMAT_WORD] == b[FORMAT_WORD]
        && a[FORMAT_WORD + 1] == b[FORMAT_WORD + 1]
}

// Whether two samples belong into one stretch.
pub(crate) fn is_same(a: &Label, b: &Label) -> bool
    ensures { result ≡ same_label a.now b.now }
{
    match a {
        Label::Bound { place, .. } => match b {
            Label::Bound { place: other, .. } => *place == *other,
            Label::Uncertain(_) => false,
        },
        Label::Uncertain(reason) => match b {
            Label::Bound { .. } => false,
            Label::Uncertain(other) => is_same_reason(reason, other),
        },
    }
}

fn is_same_reason(a: &Reason, b: &Reason) -> bool
    ensures { result ≡ same_reason a.now b.now }
{
    a == b
}
