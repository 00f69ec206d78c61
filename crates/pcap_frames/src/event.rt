/// What has come with a piece.
#[derive(Clone, Copy, Debug, PartialEq, Eq)]
pub enum CaptureEvent {
    /// Nothing whole: all bytes were taken, and more are needed.
    More,
    /// The header of the record is whole.
    Head,
    /// The head of the capture file is whole.
    File,
    /// A record of the file is whole.
    Record,
}
