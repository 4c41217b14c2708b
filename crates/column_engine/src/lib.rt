//! Answers columns of a CSV text by a rule; every other byte stays as it was.
//!
//! Records and fields are cut by their indices in the input, and not by the kit's reader and writer of CSV. These
//! return texts and write them anew: quotes, line ends, blank lines and a byte order mark would be lost, an unclosed
//! quote would take the rest of the input, and a failed read would go unnoticed. Records and fields end where the kit's
//! end (a law says so); a carriage return ends a record, and the line feed after it is an empty line. A reply is quoted
//! if `csv` would quote it, and also if it is empty or begins with byte 239, so that it is never taken for an empty
//! line or a mark.
//!
//! A record without the column, a header without the name and an unclosed quote are failed reads, since the input
//! cannot be read as requested. The records before are answered and written.
#![tactic(auto)]

pub mod answer;
mod begin;
pub mod columns;
mod cutter;
pub mod end;
mod field;
mod fields;
pub mod first;
mod gather;
mod header;
pub mod laws;
pub mod name;
pub mod place;
mod record;
pub mod record_buffer;
pub mod records;
pub mod row;
pub mod rule;
pub mod run;
pub mod skip;
pub mod watch;

pub use answer::ColumnTask;
pub use columns::{Column, Destination, Keeping, MAX_NAME, Range};
pub use end::{ColumnEnd, Stop};
pub use first::{FirstRefused, RefusedField};
pub use record_buffer::{MAX_RECORD, RecordBuffer};
pub use records::Records;
pub use rule::FieldRule;
pub use run::{ColumnRun, run_column};
pub use watch::{FieldPlace, FieldWatch};
