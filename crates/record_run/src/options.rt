/// What a line of words sets for a run.
#[derive(Clone, Copy, Debug, PartialEq, Eq)]
pub struct Options {
    /// How many bytes are judged at most, 1 to 2^62.
    pub max_bytes: u64,
    /// How many stages work side by side: 1 or 3.
    pub stages: u8,
    /// How many items the ring between two stages holds, 1 to 4,096.
    pub ring: u32,
}
