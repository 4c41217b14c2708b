//! Which columns of a text are answered.

ghost use Rattle.std.specs.Prelude.{◌≡◌, ◌-◌, ◌<◌, ◌^◌, IfSome, max};
ghost use Rattle.column_engine.specs.Answers.{first_asked, is_asked, is_within, needed, needed_for};
ghost use Rattle.column_engine.specs.Gathered.{only};

use text_buffer::TextBuffer;

/// The longest name of a new column, in bytes.
pub const MAX_NAME: usize = 1024;

/// Adjacent columns, by their indices from 0.
#[derive(Clone, Copy, Debug, Drop, PartialEq, Eq)]
pub struct Range {
    /// The first column.
    pub from: usize,
    /// The last column, or the greatest number for all columns to the end of a record.
    pub to: usize,
}

/// The columns that an operand requests.
#[derive(Drop)]
pub enum Column {
    /// The columns in this range.
    At(Range),
    /// The first column with this name under a header; without one, the columns that the name is read as.
    Named(String, Option<Range>),
}

/// Where the answers to fields go.
#[derive(Drop)]
pub enum Destination {
    /// Into the fields themselves.
    InPlace,
    /// Into a new last column with this name: the answers for the first requested column.
    NewColumn(TextBuffer<MAX_NAME>),
}

/// What is kept of a field that is answered.
#[derive(Clone, Copy, Debug, Drop, PartialEq, Eq)]
pub struct Keeping {
    /// Whether a field stays as it was if it is refused.
    pub refused: bool,
    /// Whether the answer to a field in quotes is written in quotes even if it needs none, unless the field is refused.
    pub quotes: bool,
}

/// Whether a range contains a column.
fn is_within(column: usize, range: Range) -> bool
    ensures { result ≡ is_within column range }
{
    range.from <= column && column <= range.to
}

/// Whether a column is requested.
pub(crate) fn is_asked(asked: &[Range], column: usize) -> bool
    ensures { result ≡ is_asked asked.now column }
{
    'spans: for at in 0..asked.len() {
        if is_within(column, asked[at]) {
            return true;
        }
    }
    false
}

/// Returns how many fields a record must have for a range.
fn needed_for(range: Range) -> usize
    ensures { result ≡ needed_for range }
{
    if range.to == usize::MAX {
        0
    } else {
        range.to + 1
    }
}

/// Returns the greater of two numbers.
fn greater(a: usize, b: usize) -> usize
    ensures { result ≡ max a b }
{
    if a < b { b } else { a }
}

/// Returns how many fields a record must have.
pub(crate) fn needed(asked: &[Range]) -> usize
    ensures { result ≡ needed asked.now }
{
    let mut most = 0;
    'spans: for at in 0..asked.len() {
        most = greater(most, needed_for(asked[at]));
    }
    most
}

/// Returns the first requested column.
pub(crate) fn first_asked(asked: &[Range]) -> usize
    ensures { result ≡ first_asked asked.now }
{
    match asked {
        [range, ..] => range.from,
        _ => 0,
    }
}

/// Returns the requested column if just one column is requested.
pub(crate) fn only_asked(asked: &[Range]) -> Option<usize>
    ensures one { IfSome result (λ column. asked.now ≡ only column) }
    ensures most { IfSome result (λ column. column < 2 ^ 64 - 1) }
{
    match asked {
        [range] if range.from == range.to && range.to < usize::MAX => Some(range.from),
        _ => None,
    }
}
