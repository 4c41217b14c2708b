//! How the records of a text ended.

ghost use Rattle.std.specs.Prelude.{◌≡◌};
ghost use Rattle.column_engine.specs.End.{end_status};

use line_engine::Status;

/// Why the run over the records of a text stopped.
#[derive(Clone, Copy, Debug, PartialEq, Eq)]
pub enum Stop {
    /// Every record was answered.
    Done,
    /// A read failed.
    ReadFault,
    /// A write failed.
    WriteFault,
    /// There was no memory.
    NoMemory,
    /// The next record is too long.
    TooLong,
    /// The text ends inside quotes, in the next record.
    Unclosed,
    /// The next record lacks a requested column: it has only this many.
    NoColumn(usize),
    /// The header has no column with a requested name.
    NoName,
}

/// How the records of a text ended.
#[derive(Clone, Copy, Debug, PartialEq, Eq)]
pub struct ColumnEnd {
    /// Why it stopped.
    pub stop: Stop,
    /// How many records were answered, including a header.
    pub answered: u64,
    /// How many fields were refused.
    pub refused: u64,
    /// The number of the first record with a refused field, from 1; 0 if none was refused.
    pub first: u64,
}

impl ColumnEnd {
    /// Returns the status for this end.
    pub fn status(&self) -> Status
        ensures { result ≡ end_status self.now.stop self.now.refused }
    {
        match self.stop {
            Stop::Done if self.refused == 0 => Status::Done,
            Stop::Done => Status::Faults,
            Stop::ReadFault | Stop::Unclosed | Stop::NoColumn(_) | Stop::NoName =>
                Status::ReadFault,
            Stop::WriteFault => Status::WriteFault,
            Stop::NoMemory => Status::NoMemory,
            Stop::TooLong => Status::TooLong,
        }
    }
}
