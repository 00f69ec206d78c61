ghost use Rattle.std.specs.Prelude.{◌≡◌};
ghost use Rattle.context_timeline.specs.Looks.{mark_of};

use crate::mark::Mark;

/// What the contexts of a stream say of a moment, as a `Mark` says it, but the fields are lent.
#[derive(Clone, Copy, Debug, PartialEq, Eq)]
pub enum Look<'a> {
    /// As `Mark::Open`.
    Open,
    /// As `Mark::BeforeFirst`.
    BeforeFirst,
    /// As `Mark::TimelineFull`.
    TimelineFull,
    /// As `Mark::Lost`.
    Lost(u8),
    /// A context is in force.
    Bound {
        /// Its number among all contexts that were added, from 0.
        place: u64,
        /// The words of its twelve fields.
        fields: &'a [u32; 19],
    },
}

impl Look<'_> {
    /// The mark that says the same.
    #[inline]
    pub fn mark(&self) -> Mark
        ensures { result ≡ mark_of self.now }
    {
        match *self {
            Look::Open => Mark::Open,
            Look::BeforeFirst => Mark::BeforeFirst,
            Look::TimelineFull => Mark::TimelineFull,
            Look::Lost(lost) => Mark::Lost(lost),
            Look::Bound { place, fields } => Mark::Bound {
                place,
                fields: *fields,
            },
        }
    }
}
