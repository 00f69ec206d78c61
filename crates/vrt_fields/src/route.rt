/// Where the samples of a stream go: to one port, or to several at once.
#[derive(Clone, Copy, Debug, PartialEq, Eq)]
pub struct Route {
    /// The stream ID.
    pub stream: u32,
    /// The ports: the first `number` of them differ, the others are 0.
    pub ports: [u16; 4],
    /// How many ports: 1 to 4.
    pub number: u8,
}
