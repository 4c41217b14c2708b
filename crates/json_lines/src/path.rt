//! Paths: `.` is the whole value of a line, `.name` a member of an object, `[3]` an element of an array and `[]` every
//! element, one after another, as in `.sensor.samples[]`. A name with a point or a bracket stands in quotes: `."a.b"`.

ghost use Rattle.std.specs.Prelude.{◌≡◌, ◌≤◌, ◌<◌, Err, IfOk, IfSome, None, Some, length, map};
ghost use Rattle.std.specs.Char.{is_ascii_digit};
ghost use Rattle.std.specs.List.{prefix_len};
ghost use Rattle.json_lines.specs.Inner.Steps.{IsFirst};
ghost use Rattle.json_lines.specs.Path.{digits_number, first_step, index_step, is_name_byte, is_no_quote, name_step};
ghost use Rattle.json_lines.specs.Path.{path_steps, plain_step, quoted_step, step_of, steps_of};

use std::alloc::Global;

/// A step of a path.
#[derive(Clone, Copy, Drop)]
pub enum Step<'a> {
    /// The member with this name, as it is written between quotes: escapes are not read.
    Member(&'a [u8]),
    /// The element with this number, from 0.
    Element(u32),
    /// Every element.
    Every,
}

/// Why a text is not read as a path.
#[derive(Clone, Copy, Debug, PartialEq, Eq)]
pub enum PathFault {
    /// It is not a path.
    NoPath,
    /// There is no memory for its steps.
    NoMemory,
}

/// Whether a byte may stand in a name without quotes.
fn is_name_byte(byte: u8) -> bool
    ensures { result ≡ is_name_byte byte }
{
    !((byte == b'.' || byte == b'"') || (byte == b'[' || byte == b']'))
}

/// Counts the bytes of the name without quotes at the front of a text.
fn name_length(text: &[u8]) -> usize
    ensures value { result ≡ prefix_len is_name_byte text.now }
    ensures bound { result ≤ length text.now }
{
    let mut at = 0;
    'bytes: while at < text.len() && is_name_byte(text[at]) {
        at += 1;
    }
    at
}

/// Counts the bytes before the first quote.
fn quoted_length(text: &[u8]) -> usize
    ensures value { result ≡ prefix_len is_no_quote text.now }
    ensures bound { result ≤ length text.now }
{
    let mut at = 0;
    'bytes: while at < text.len() && text[at] != b'"' {
        at += 1;
    }
    at
}

/// Counts the digits at the front of a text.
fn digits_length(text: &[u8]) -> usize
    ensures value { result ≡ prefix_len is_ascii_digit text.now }
    ensures bound { result ≤ length text.now }
{
    let mut at = 0;
    'bytes: while at < text.len() && text[at].is_ascii_digit() {
        at += 1;
    }
    at
}

/// Returns the number that at most eight digits spell.
fn number_of(digits: &[u8]) -> u32
    requires { length digits.now ≤ 8 }
    ensures { result ≡ digits_number 0 digits.now }
{
    let mut number = 0u64;
    for digit in digits {
        number = number * 10 + u64::from(digit.saturating_sub(48));
    }
    number as u32
}

/// Returns a step that is a name in quotes, after the first of them, and the text after it.
fn quoted_step(text: &[u8]) -> Option<(Step<'_>, &[u8])>
    ensures first { IsFirst (quoted_step text.now) result }
    ensures short { IfSome result (λ found. length found.1.now ≤ length text.now) }
{
    let count = quoted_length(text);
    if count < text.len() {
        Some((Step::Member(&text[..count]), &text[count + 1..]))
    } else {
        None
    }
}

/// Returns a step that is a name without quotes, and the text after it.
fn plain_step(text: &[u8]) -> Option<(Step<'_>, &[u8])>
    ensures first { IsFirst (plain_step text.now) result }
    ensures short { IfSome result (λ found. length found.1.now ≤ length text.now) }
{
    let count = name_length(text);
    if count == 0 {
        None
    } else {
        Some((Step::Member(&text[..count]), &text[count..]))
    }
}

/// Returns a step that is a name, after its point, and the text after it.
fn name_step(text: &[u8]) -> Option<(Step<'_>, &[u8])>
    ensures first { IsFirst (name_step text.now) result }
    ensures short { IfSome result (λ found. length found.1.now ≤ length text.now) }
{
    if !text.is_empty() && text[0] == b'"' {
        quoted_step(&text[1..])
    } else {
        plain_step(text)
    }
}

/// Returns a step into an array, after its opening bracket, and the text after it.
fn index_step(text: &[u8]) -> Option<(Step<'_>, &[u8])>
    ensures first { IsFirst (index_step text.now) result }
    ensures short { IfSome result (λ found. length found.1.now ≤ length text.now) }
{
    let count = digits_length(text);
    if count > 8 || count >= text.len() || text[count] != b']' {
        return None;
    }
    let rest = &text[count + 1..];
    if count == 0 {
        Some((Step::Every, rest))
    } else {
        Some((Step::Element(number_of(&text[..count])), rest))
    }
}

/// Returns the first step of a text, and the text after it.
fn first_step(text: &[u8]) -> Option<(Step<'_>, &[u8])>
    ensures first { IsFirst (first_step text.now) result }
    ensures short { IfSome result (λ found. length found.1.now < length text.now) }
{
    match text {
        [b'.', rest @ ..] => name_step(rest),
        [b'[', rest @ ..] => index_step(rest),
        _ => None,
    }
}

/// Returns the steps of a text.
fn steps_of<'a>(alloc: Global, text: &'a [u8]) -> Result<Vec<Step<'a>>, PathFault>
    ensures value { IfOk result (λ steps. steps_of (length text.now) text.now ≡ Some (map step_of steps.items)) }
    ensures refused { result ≡ Err PathFault.NoPath → steps_of (length text.now) text.now ≡ None }
{
    let mut steps = Vec::new(alloc);
    let mut rest = text;
    'steps: while !rest.is_empty() {
        let (step, after) = match first_step(rest) {
            None => return Err(PathFault::NoPath),
            Some(first) => first,
        };
        match steps.push(step) {
            Err(_) => return Err(PathFault::NoMemory),
            Ok(()) => rest = after,
        }
    }
    Ok(steps)
}

/// Returns the steps of the path that a text is.
pub fn path_named<'a>(alloc: Global, text: &'a [u8]) -> Result<Vec<Step<'a>>, PathFault>
    ensures value { IfOk result (λ steps. path_steps text.now ≡ Some (map step_of steps.items)) }
    ensures refused { result ≡ Err PathFault.NoPath → path_steps text.now ≡ None }
{
    match text {
        [b'.'] => Ok(Vec::new(alloc)),
        [b'.', b'[', ..] => steps_of(alloc, &text[1..]),
        [b'.', ..] => steps_of(alloc, text),
        _ => Err(PathFault::NoPath),
    }
}
