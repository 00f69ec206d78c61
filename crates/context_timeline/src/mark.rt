/// What the contexts of a stream say of a moment.
#[derive(Clone, Copy, Debug, PartialEq, Eq)]
pub enum Mark {
    /// The moment is not below the last context's stamp, or there is no context yet: a later context
    /// may still be in force then.
    Open,
    /// The moment is before the first context.
    BeforeFirst,
    /// The moment is before the first context that is kept, and earlier ones are no longer kept.
    TimelineFull,
    /// So many contexts were lost between the one before the moment and the one after it, and one of
    /// them may have been in force.
    Lost(u8),
    /// A context is in force.
    Bound {
        /// Its number among all contexts that were added, from 0.
        place: u64,
        /// The words of its twelve fields.
        fields: [u32; 19],
    },
}
