ghost use Rattle.std.specs.Prelude.{◌≡◌};
ghost use Rattle.record_run.specs.Status.{code_of};

/// How a call of the program ended.
#[derive(Clone, Copy, Debug, PartialEq, Eq)]
pub enum Status {
    /// The record was read to its end, and all was written.
    Done,
    /// The words are no line of the program.
    Usage,
    /// A read failed.
    ReadFault,
    /// A write failed.
    WriteFault,
    /// There was no memory.
    Memory,
    /// The bytes are no record. `offset` is where the fault lies.
    BadRecord { offset: u64 },
    /// The record is longer than what is read.
    TooLong,
}

impl Status {
    /// The exit code of the program.
    pub fn code(self) -> u8
        ensures { result ≡ code_of self }
    {
        match self {
            Status::Done => 0,
            Status::Usage => 2,
            Status::ReadFault => 3,
            Status::WriteFault => 4,
            Status::Memory => 5,
            Status::BadRecord { .. } => 6,
            Status::TooLong => 7,
        }
    }
}
