/// The record isn't one: the first field that is wrong begins at this offset, or the bytes end
/// there inside the header or a frame.
#[derive(Clone, Copy, Debug, PartialEq, Eq)]
pub struct RecordFault {
    /// The number of bytes in front of it.
    pub offset: u64,
}

/// What has come with a piece.
#[derive(Clone, Copy, Debug, PartialEq, Eq)]
pub enum Event {
    /// Nothing whole: all bytes were taken, and more are needed.
    More,
    /// The header is whole.
    Head,
    /// A frame is whole.
    Frame,
}
