//! A line of JSON, cut into pieces.

ghost use Rattle.std.specs.Prelude.{◌≡◌, ◌==◌, ◌+◌, ◌≤◌, ◌<◌, drop, false, length};
ghost use Rattle.std.specs.List.{prefix_len};
ghost use Rattle.json.specs.Word.{is_operator, is_space};
ghost use Rattle.json_lines.specs.Pieces.{begins_colon, begins_value, content, head, is_name, is_word_byte};
ghost use Rattle.json_lines.specs.Pieces.{piece_length, string_rest};

/// Whether a byte is a blank.
fn is_space(byte: u8) -> bool
    ensures { result ≡ is_space byte }
{
    (byte == b' ' || byte == b'\t') || (byte == b'\n' || byte == b'\r')
}

/// Whether a byte is one of `{}[]:,`.
fn is_operator(byte: u8) -> bool
    ensures { result ≡ is_operator byte }
{
    matches!(byte, b'{' | b'}' | b'[' | b']' | b':' | b',')
}

/// Whether a byte belongs to a number or to a literal name.
pub(crate) fn is_word_byte(byte: u8) -> bool
    ensures { result ≡ is_word_byte byte }
{
    !(is_operator(byte) || is_space(byte) || byte == b'"')
}

/// Returns where a string ends that goes on at an index.
fn string_end(line: &[u8], from: usize) -> usize
    requires { from ≤ length line.now }
    ensures value { result ≡ from + string_rest false (drop from line.now) }
    ensures bound { result ≤ length line.now }
{
    let mut at = from;
    let mut is_escaped = false;
    'bytes: while at < line.len() {
        let byte = line[at];
        at += 1;
        if is_escaped {
            is_escaped = false;
        } else if byte == b'"' {
            return at;
        } else {
            is_escaped = byte == b'\\';
        }
    }
    at
}

/// Returns where a word ends that goes on at an index.
fn word_end(line: &[u8], from: usize) -> usize
    requires { from ≤ length line.now }
    ensures value { result ≡ from + prefix_len is_word_byte (drop from line.now) }
    ensures bound { result ≤ length line.now }
{
    let mut at = from;
    'bytes: while at < line.len() && is_word_byte(line[at]) {
        at += 1;
    }
    at
}

/// Returns where the piece ends that begins at an index.
pub(crate) fn piece_end(line: &[u8], at: usize) -> usize
    requires { at < length line.now }
    ensures value { result ≡ at + piece_length (drop at line.now) }
    ensures more { at < result }
    ensures bound { result ≤ length line.now }
{
    let byte = line[at];
    if byte == b'"' {
        string_end(line, at + 1)
    } else if is_word_byte(byte) {
        word_end(line, at + 1)
    } else {
        at + 1
    }
}

/// Whether a colon comes next, after any blanks.
pub(crate) fn begins_colon(rest: &[u8]) -> bool
    ensures { result ≡ begins_colon rest.now }
{
    let mut at = 0;
    'bytes: while at < rest.len() && is_space(rest[at]) {
        at += 1;
    }
    at < rest.len() && rest[at] == b':'
}

/// Returns the bytes of a string between its quotes, and another piece as it is.
pub(crate) fn content(piece: &[u8]) -> &[u8]
    ensures value { result.now ≡ content piece.now }
    ensures short { length result.now ≤ length piece.now }
{
    if piece.is_empty() || piece[0] != b'"' {
        return piece;
    }
    let inner = &piece[..piece.len() - 1];
    if inner.is_empty() { inner } else { &inner[1..] }
}

/// Whether a piece is a string.
pub(crate) fn is_string(piece: &[u8]) -> bool
    ensures { result ≡ (head piece.now == 34) }
{
    !piece.is_empty() && piece[0] == b'"'
}

/// Whether a piece is the name of a member.
pub(crate) fn is_name(piece: &[u8], rest: &[u8]) -> bool
    ensures { result ≡ is_name piece.now rest.now }
{
    is_string(piece) && begins_colon(rest)
}

/// Whether a piece begins a value.
pub(crate) fn begins_value(piece: &[u8], rest: &[u8]) -> bool
    ensures { result ≡ begins_value piece.now rest.now }
{
    if piece.is_empty() {
        return false;
    }
    let byte = piece[0];
    if byte == b'"' {
        !begins_colon(rest)
    } else {
        is_word_byte(byte) || byte == b'{' || byte == b'['
    }
}
