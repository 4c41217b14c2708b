//! How a run ends.

ghost use Rattle.std.specs.Prelude.{◌≡◌};
ghost use Rattle.line_engine.specs.Status.{code_of};

/// How a run ended.
#[derive(Clone, Copy, Debug, PartialEq, Eq)]
pub enum Status {
    /// Every line, or the whole input, was answered without a fault.
    Done,
    /// Every line, or the whole input, was answered, at least once by a fault.
    Faults,
    /// The arguments were invalid, and the usage line was written.
    Usage,
    /// A read failed.
    ReadFault,
    /// A write failed.
    WriteFault,
    /// There was no memory. A run over lines then ends before it reads or writes.
    NoMemory,
    /// The input has more bytes than the limit.
    TooLong,
}

impl Status {
    /// Returns the exit code of the program: 0 to 6, in the order above.
    pub fn code(self) -> u8
        ensures { result ≡ code_of self }
    {
        match self {
            Status::Done => 0,
            Status::Faults => 1,
            Status::Usage => 2,
            Status::ReadFault => 3,
            Status::WriteFault => 4,
            Status::NoMemory => 5,
            Status::TooLong => 6,
        }
    }
}
