use vrt_time::Stamp;

/// What a timeline keeps of a context.
#[derive(Clone, Copy, Debug, PartialEq, Eq)]
pub struct TimedContext {
    /// The stamp from which on it is in force.
    pub stamp: Stamp,
    /// Its change indicator: whether a field differs from the context before.
    pub changed: bool,
    /// The words of its twelve fields.
    pub fields: [u32; 19],
    /// The number of contexts lost before it.
    pub lost: u8,
}
