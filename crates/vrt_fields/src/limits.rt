/// How much the binder of a stream keeps.
#[derive(Clone, Copy, Debug, PartialEq, Eq)]
pub struct Limits {
    /// The size of the reorder window for data packets: 0 to 4,096.
    pub data_window: u32,
    /// The size of the reorder window for context packets: 0 to 4,096.
    pub context_window: u32,
    /// How many contexts are kept: 2 to 4,096.
    pub kept: u32,
    /// How many data packets may wait for their contexts: 1 to 1,048,576.
    pub pending: u32,
}
