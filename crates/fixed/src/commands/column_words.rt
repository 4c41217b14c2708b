//! The requests in the arguments of `fixed column`.

ghost use Rattle.std.specs.Prelude.{◌≡◌, ◌==◌, ◌<◌, ◌+◌, ◌^◌, ◌⊎◌, ◌&&◌, ◌++◌, ◌∷◌, [], Bool, ℕ, not};
ghost use Rattle.std.specs.Prelude.{IfErr, IfOk, List, MatchOption, OnOk, chars, codes, decimal, length};
ghost use Rattle.std.specs.Prelude.{map, unwrap_or};
ghost use Rattle.std.specs.List.{list_all, list_any, slice_split};
ghost use Rattle.column_engine.specs.declared.columns.Column.{Column};
ghost use Rattle.column_engine.specs.declared.columns.Destination.{Destination};
ghost use Rattle.column_engine.specs.declared.columns.Range.{Range};
ghost use Rattle.command_line.specs.Words.{value_of};
ghost use Rattle.command_line.specs.declared.given.Refusal.{Refusal};
ghost use Rattle.fixed.specs.Columns.{AreColumnWords, AreColumnsAsked, AreColumnsOf, IsByName, IsColumnWord};
ghost use Rattle.fixed.specs.Columns.{IsDecimalWord, IsDelimiterWord, IsDestinationAsked, IsFormAsked, IsMarkAsked};
ghost use Rattle.fixed.specs.Columns.{IsOneWord, IsRangeWord, IsThousandsAsked, IsThousandsWord};
ghost use Rattle.fixed.specs.Columns.{IsSpan, IsTableAsked, empty_text, is_separator};
ghost use Rattle.fixed.specs.Settings.{IsCountWord};
ghost use Rattle.fixed.specs.declared.commands.column_words.Table.{Table};
ghost use Rattle.fixed_command.specs.Asked.{IsNamed};
ghost use Rattle.fixed_command.specs.declared.field.Empty.{Empty};
ghost use Rattle.fixed_command.specs.declared.field.FieldForm.{FieldForm};

use crate::commands::column::{
    ALL, DECIMAL, DECIMAL_OUT, DELIMITER, EMPTY, HEADER, INTO, KEEP, SKIP, THOUSANDS,
    THOUSANDS_ANYWHERE, TRIM,
};
use crate::settings::{count_named, count_of, known, value_or};
use column_engine::{Column, Destination, MAX_NAME, Range};
use command_line::given::{Asked, Given, Refusal};
use fixed_command::{Empty, FieldForm};
use std::alloc::{AllocError, Global};
use text_buffer::TextBuffer;

/// Returns the delimiter that a value names.
fn delimiter_named<'a>(word: &'a str) -> Asked<'a, u8>
    ensures value { IfOk result (λ a. IsDelimiterWord word.now a) }
    ensures refused { IfErr result (λ _. (a : ℕ) → ¬ IsDelimiterWord word.now a) }
{
    match word.as_bytes() {
        [b'"' | b'\r' | b'\n'] => Err(Refusal::Word(
            word,
            "is not a delimiter: it is a quote or the end of a line",
        )),
        [delimiter] => Ok(*delimiter),
        b"tab" | b"\\t" => Ok(b'\t'),
        _ => Err(Refusal::Word(word, "is not a delimiter: it is one byte, or tab")),
    }
}

/// Returns the delimiter that the option names, or a comma without the option.
pub fn delimiter_of<'a>(given: &Given<'_, 'a>) -> Asked<'a, u8>
    ensures value { IfOk result (λ a.
        IsDelimiterWord (unwrap_or (value_of given.now (codes "delimiter")) (codes ",")) a) }
    ensures refused { IfErr result (λ _. (a : ℕ)
        → ¬ IsDelimiterWord (unwrap_or (value_of given.now (codes "delimiter")) (codes ",")) a) }
{
    delimiter_named(value_or(given, &DELIMITER, ","))
}

/// Returns how many lines come before the records: a decimal number without a sign or a leading zero; 0 without the
/// option.
pub fn skipped_of<'a>(given: &Given<'_, 'a>) -> Asked<'a, u64>
    ensures value { IfOk result (λ a.
        IsCountWord (unwrap_or (value_of given.now (codes "skip")) (codes "0")) a) }
    ensures refused { IfErr result (λ _. (a : ℕ)
        → ¬ IsCountWord (unwrap_or (value_of given.now (codes "skip")) (codes "0")) a) }
{
    count_of(
        given,
        &SKIP,
        "0",
        "is not a count of lines: it is a number from 0",
    )
}

/// Whether a byte cannot occur in a numeral or is a point.
fn is_separator(byte: u8) -> bool
    ensures { result ≡ is_separator byte }
{
    !byte.is_ascii_alphanumeric() && !matches!(byte, b'+' | b'-' | b'@')
}

/// Returns the byte before a fraction that a value names: a point, or a byte that is neither a blank nor in numerals.
fn decimal_named<'a>(word: &'a str) -> Asked<'a, u8>
    ensures value { IfOk result (λ a. IsDecimalWord word.now a) }
    ensures refused { IfErr result (λ _. (a : ℕ) → ¬ IsDecimalWord word.now a) }
{
    match word.as_bytes() {
        [decimal] if is_separator(*decimal) && !decimal.is_ascii_whitespace() => Ok(*decimal),
        _ => Err(Refusal::Word(
            word,
            "is not a decimal separator: it is one byte, no letter, digit, blank or sign",
        )),
    }
}

/// Returns the byte before a fraction that the option names, or a point without the option.
pub fn decimal_of<'a>(given: &Given<'_, 'a>) -> Asked<'a, u8>
    ensures value { IfOk result (λ a.
        IsDecimalWord (unwrap_or (value_of given.now (codes "decimal")) (codes ".")) a) }
    ensures refused { IfErr result (λ _. (a : ℕ)
        → ¬ IsDecimalWord (unwrap_or (value_of given.now (codes "decimal")) (codes ".")) a) }
{
    decimal_named(value_or(given, &DECIMAL, "."))
}

/// Returns the byte before the fraction of an answer: that of fields without the option.
fn mark_of<'a>(given: &Given<'_, 'a>) -> Asked<'a, u8>
    ensures value { IfOk result (λ a. IsMarkAsked (value_of given.now (codes "decimal-out"))
        (value_of given.now (codes "decimal")) a) }
    ensures refused { IfErr result (λ _. (a : ℕ) → ¬ IsMarkAsked (value_of given.now (codes "decimal-out"))
        (value_of given.now (codes "decimal")) a) }
{
    match given.value(&DECIMAL_OUT) {
        Some(word) => decimal_named(word),
        None => decimal_of(given),
    }
}

/// Whether a text is one character.
fn is_one_character(word: &str) -> bool
    ensures { result ≡ (length (chars word.now) == 1) }
{
    word.chars().count() == 1
}

/// Whether each byte cannot occur in a numeral or is a point.
fn are_separators(bytes: &[u8]) -> bool
    ensures { result ≡ list_all is_separator bytes.now }
{
    bytes.iter().all(|b| is_separator(*b))
}

/// Whether `bytes` contains `byte`.
fn has_byte(bytes: &[u8], byte: u8) -> bool
    ensures { result ≡ list_any (λ b. b == byte) bytes.now }
{
    bytes.iter().any(|b| *b == byte)
}

/// Returns the bytes of the character that separates thousands.
fn thousands_named<'a>(word: &'a str, decimal: u8) -> Asked<'a, &'a [u8]>
    ensures value { IfOk result (λ a. (a.now ≡ word.now) × IsThousandsWord decimal word.now) }
    ensures refused { IfErr result (λ _. ¬ IsThousandsWord decimal word.now) }
{
    if !is_one_character(word) || !are_separators(word.as_bytes()) {
        return Err(Refusal::Word(
            word,
            "does not separate thousands: it is one character, no letter, digit or sign",
        ));
    }
    if has_byte(word.as_bytes(), decimal) {
        return Err(Refusal::Word(
            word,
            "does not separate thousands: it comes before a fraction; see --decimal",
        ));
    }
    Ok(word.as_bytes())
}

/// Returns the separator of thousands from the two options, one of which may be given: its bytes, and whether it stands
/// only between groups.
fn thousands_of<'a>(given: &Given<'_, 'a>, decimal: u8) -> Asked<'a, (&'a [u8], bool)>
    ensures value { IfOk result (λ a. IsThousandsAsked decimal (value_of given.now (codes "thousands"))
        (value_of given.now (codes "thousands-anywhere")) a.0.now a.1) }
    ensures refused { IfErr result (λ _. (a : List ℕ) (has_groups : Bool) → ¬ IsThousandsAsked decimal
        (value_of given.now (codes "thousands")) (value_of given.now (codes "thousands-anywhere")) a has_groups) }
{
    match (given.value(&THOUSANDS), given.value(&THOUSANDS_ANYWHERE)) {
        (Some(_), Some(_)) => Err(Refusal::Word(
            "--thousands",
            "does not go with '--thousands-anywhere'",
        )),
        (Some(word), None) => match thousands_named(word, decimal) {
            Ok(bytes) => Ok((bytes, true)),
            Err(refusal) => Err(refusal),
        },
        (None, Some(word)) => match thousands_named(word, decimal) {
            Ok(bytes) => Ok((bytes, false)),
            Err(refusal) => Err(refusal),
        },
        (None, None) => Ok((&[], false)),
    }
}

/// Returns what to do with an empty field, from a value.
fn empty_named(word: &str) -> Option<Empty>
    ensures { MatchOption result ((a : Empty) → ¬ (word.now ≡ empty_text a)) (λ a. word.now ≡ empty_text a) }
{
    match word {
        "fault" => Some(Empty::Refused),
        "keep" => Some(Empty::Kept),
        "0" => Some(Empty::Zero),
        _ => None,
    }
}

/// Returns what to do with an empty field, from the option. Without it the field is refused.
fn empty_of<'a>(given: &Given<'_, 'a>) -> Asked<'a, Empty>
    ensures value { IfOk result (λ a. IsNamed Empty empty_text Empty.Refused (value_of given.now (codes "empty")) a) }
    ensures refused { IfErr result (λ _. (a : Empty)
        → ¬ IsNamed Empty empty_text Empty.Refused (value_of given.now (codes "empty")) a) }
{
    match given.value(&EMPTY) {
        None => Ok(Empty::Refused),
        Some(word) => known(empty_named(word), given, &EMPTY),
    }
}

/// Returns how a field spells a numeral, from the options.
pub fn form_of<'a>(given: &Given<'_, 'a>) -> Asked<'a, FieldForm<'a>>
    ensures value { IfOk result (λ form. IsFormAsked given.now form) }
    ensures refused { IfErr result (λ _. (form : FieldForm) → ¬ IsFormAsked given.now form) }
{
    let decimal = decimal_of(given)?;
    let mark = mark_of(given)?;
    let (thousands, has_groups) = match thousands_of(given, decimal) {
        Ok(found) => found,
        Err(refusal) => return Err(refusal),
    };
    Ok(FieldForm {
        is_trimmed: given.has(&TRIM),
        decimal,
        thousands,
        has_groups,
        mark,
        empty: empty_of(given)?,
    })
}

/// How the records and fields of a text are read and written.
#[derive(Drop)]
pub struct Table<'a> {
    /// How a field spells a numeral.
    pub form: FieldForm<'a>,
    /// How many lines come before the records.
    pub skipped: u64,
    /// Where the answers go.
    pub destination: Destination,
    /// Whether the first record is a header.
    pub has_header: bool,
    /// Whether a refused field stays unchanged.
    pub is_kept: bool,
    /// The byte between fields.
    pub delimiter: u8,
}

/// Returns how records and fields are read and written, from the options.
pub fn table_of<'a>(given: &Given<'_, 'a>) -> Asked<'a, Table<'a>>
    ensures value { IfOk result (λ table. IsTableAsked given.now table) }
    ensures refused { IfErr result (λ _. (table : Table) → ¬ IsTableAsked given.now table) }
{
    let form = match form_of(given) {
        Ok(form) => form,
        Err(refusal) => return Err(refusal),
    };
    let skipped = skipped_of(given)?;
    let destination = match destination_of(given) {
        Ok(destination) => destination,
        Err(refusal) => return Err(refusal),
    };
    match delimiter_of(given) {
        Ok(delimiter) => Ok(Table {
            form,
            skipped,
            destination,
            has_header: given.has(&HEADER),
            is_kept: given.has(&KEEP),
            delimiter,
        }),
        Err(refusal) => Err(refusal),
    }
}

/// Returns the index of the column that `word` numbers, if it is a number from 1.
fn place_numbered(word: &str) -> Option<usize>
    ensures { MatchOption result ((at : ℕ) → at + 1 < 2 ^ 64 → ¬ (word.now ≡ decimal (at + 1)))
        (λ at. (at + 1 < 2 ^ 64) × (word.now ≡ decimal (at + 1))) }
{
    match count_named(word) {
        Some(number) if number > 0 => Some((number - 1) as usize),
        _ => None,
    }
}

/// Returns the column that `word` numbers, if it is a number from 1.
fn one_numbered(word: &str) -> Option<Range>
    ensures { MatchOption result ((r : Range) → ¬ IsOneWord word.now r) (λ r. IsOneWord word.now r) }
{
    let at = place_numbered(word)?;
    Some(Range { from: at, to: at })
}

/// Returns the columns from the number `first` to the number `last`, if these are in order.
fn span_numbered(first: &str, last: &str) -> Option<Range>
    ensures { MatchOption result ((r : Range) → ¬ IsSpan first.now last.now r) (λ r. IsSpan first.now last.now r) }
{
    let from = place_numbered(first)?;
    let to = place_numbered(last)?;
    if from <= to {
        Some(Range { from, to })
    } else {
        None
    }
}

/// Returns the columns that `word` numbers: one, or a range.
fn range_numbered(word: &str) -> Option<Range>
    ensures { MatchOption result ((r : Range) → ¬ IsRangeWord word.now r) (λ r. IsRangeWord word.now r) }
{
    match word.split_once('-') {
        Some((first, last)) => span_numbered(first, last),
        None => one_numbered(word),
    }
}

/// Returns where the answers go: into a new column if the option names one.
pub fn destination_of<'a>(given: &Given<'_, 'a>) -> Asked<'a, Destination>
    ensures value { IfOk result (λ a. IsDestinationAsked given.now a) }
    ensures refused { IfErr result (λ _. (a : Destination) → ¬ IsDestinationAsked given.now a) }
{
    let name = match given.value(&INTO) {
        Some(name) => name,
        None => return Ok(Destination::InPlace),
    };
    if name.len() > MAX_NAME {
        return Err(Refusal::Word("--into", "takes a name of at most 1024 bytes"));
    }
    if given.has(&ALL) {
        return Err(Refusal::Word(name, "is one new column, and --all are many"));
    }
    let mut text = TextBuffer::new();
    text.push_bytes(name.as_bytes());
    Ok(Destination::NewColumn(text))
}

/// Returns a request for the column with this name, or else for the range that the name is read as.
fn by_name<'a>(alloc: Global, word: &'a str, range: Option<Range>) -> Asked<'a, Column>
    ensures value { IfOk result (λ a. IsByName word.now range a) }
    ensures refused { IfErr result (λ e. e ≡ Refusal.NoMemory) }
{
    match String::from_str(alloc, word) {
        Ok(name) => Ok(Column::Named(name, range)),
        Err(_) => Err(Refusal::NoMemory),
    }
}

/// Returns the one column whose answers go into a new column.
fn source_of<'a>(alloc: Global, word: &'a str, is_name: bool) -> Asked<'a, Column>
    ensures value { IfOk result (λ a. IsColumnWord IsOneWord is_name word.now a) }
    ensures refused { IfErr result (λ e. (e ≡ Refusal.NoMemory)
        ⊎ ((a : Column) → ¬ IsColumnWord IsOneWord is_name word.now a)) }
{
    match one_numbered(word) {
        range if is_name => by_name(alloc, word, range),
        Some(range) => Ok(Column::At(range)),
        None => Err(Refusal::Word(
            word,
            "is not one column: it is a number from 1, or with --header a name",
        )),
    }
}

/// Returns the columns that one item of a list names.
fn column_of<'a>(alloc: Global, word: &'a str, has_header: bool) -> Asked<'a, Column>
    ensures value { IfOk result (λ a. IsColumnWord IsRangeWord has_header word.now a) }
    ensures refused { IfErr result (λ e. (e ≡ Refusal.NoMemory)
        ⊎ ((a : Column) → ¬ IsColumnWord IsRangeWord has_header word.now a)) }
{
    match range_numbered(word) {
        range if has_header => by_name(alloc, word, range),
        Some(range) => Ok(Column::At(range)),
        None => Err(Refusal::Word(
            word,
            "is not a column: it is a number from 1, a range 2-5, or with --header a name",
        )),
    }
}

/// Every column.
const EVERY: Column = Column::At(Range {
    from: 0,
    to: usize::MAX,
});

/// Appends a column to a list.
fn push<'a>(columns: &mut Vec<Column>, column: Column) -> Asked<'a, ()>
    ensures ok { OnOk result (columns.new.items ≡ columns.old.items ++ column ∷ []) }
    ensures refused { IfErr result (λ e. e ≡ Refusal.NoMemory) }
{
    match columns.push(column) {
        Ok(()) => Ok(()),
        Err(_) => Err(Refusal::NoMemory),
    }
}

/// Splits a list at its commas.
fn parts_of<'a>(alloc: Global, words: &'a str) -> Result<Vec<&'a str>, AllocError>
    ensures { IfOk result (λ parts. map (λ s. s.now) parts.items ≡ slice_split (λ b. b == 44) words.now) }
{
    words.split(',').collect(alloc)
}

/// Returns the columns that a list with commas names.
fn listed<'a>(alloc: Global, words: &'a str, has_header: bool) -> Asked<'a, Vec<Column>>
    ensures value { IfOk result (λ a. AreColumnWords has_header (slice_split (λ b. b == 44) words.now) a.items) }
    ensures refused { IfErr result (λ e. (e ≡ Refusal.NoMemory) ⊎ ((a : List Column)
        → ¬ AreColumnWords has_header (slice_split (λ b. b == 44) words.now) a)) }
{
    let mut columns = Vec::new(alloc);
    let parts = match parts_of(alloc, words) {
        Ok(parts) => parts,
        Err(_) => return Err(Refusal::NoMemory),
    };
    'parts: for at in 0..parts.len() {
        let column = match column_of(alloc, parts[at], has_header) {
            Ok(column) => column,
            Err(refusal) => return Err(refusal),
        };
        push(&mut columns, column)?;
    }
    Ok(columns)
}

/// Whether an operand may be the name of a column under a header: it has no comma.
fn is_name(word: &str, has_header: bool) -> bool
    ensures { result ≡ (has_header && not (list_any (λ b. b == 44) word.now)) }
{
    has_header && !has_byte(word.as_bytes(), b',')
}

/// Returns the columns that an operand names: just one if its answers go into a new column.
fn named<'a>(alloc: Global, word: &'a str, is_one: bool, has_header: bool) -> Asked<'a, Vec<Column>>
    ensures value { IfOk result (λ a. AreColumnsOf is_one has_header word.now a.items) }
    ensures refused { IfErr result (λ e. (e ≡ Refusal.NoMemory)
        ⊎ ((a : List Column) → ¬ AreColumnsOf is_one has_header word.now a)) }
{
    if !is_one {
        return listed(alloc, word, has_header);
    }
    let column = match source_of(alloc, word, is_name(word, has_header)) {
        Ok(column) => column,
        Err(refusal) => return Err(refusal),
    };
    let mut columns = Vec::new(alloc);
    push(&mut columns, column)?;
    Ok(columns)
}

/// Returns the requested columns, and the index of the operand after them.
pub fn columns_of<'a>(alloc: Global, given: &Given<'_, 'a>) -> Asked<'a, (Vec<Column>, usize)>
    ensures value { IfOk result (λ a. AreColumnsAsked given.now a.0.items a.1) }
    ensures refused { IfErr result (λ e. (e ≡ Refusal.NoMemory) ⊎ ((columns : List Column) (next : ℕ)
        → ¬ AreColumnsAsked given.now columns next)) }
{
    if given.has(&ALL) {
        let mut columns = Vec::new(alloc);
        push(&mut columns, EVERY)?;
        return Ok((columns, 0));
    }
    let word = given.needed(0, "COLUMNS")?;
    match named(
        alloc,
        word,
        given.value(&INTO).is_some(),
        given.has(&HEADER),
    ) {
        Ok(columns) => Ok((columns, 1)),
        Err(refusal) => Err(refusal),
    }
}
