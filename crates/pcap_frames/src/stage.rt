use crate::form::FileForm;

/// What comes next.
#[derive(Clone, Copy, Debug, PartialEq, Eq)]
pub(crate) enum Stage {
    /// The header of the record.
    Header,
    /// The head of the capture file.
    FileHead,
    /// Records of a file of this form.
    Records(FileForm),
}
