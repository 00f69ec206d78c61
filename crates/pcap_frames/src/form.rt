/// How a capture file tells its numbers, which its magic number says.
#[derive(Clone, Copy, Debug, PartialEq, Eq)]
pub struct FileForm {
    /// Whether the highest byte of a number comes first.
    pub big: bool,
    /// Whether the fractions of a second are nanoseconds, in place of microseconds.
    pub nanos: bool,
}
