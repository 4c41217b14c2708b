//! Counts newlines in bytes.

ghost use Rattle.std.specs.Prelude.{◌≡◌, ◌≤◌, length};
ghost use Rattle.fixed_io.specs.Report.{newlines_of};

/// How many bytes are counted at a time, in a `u8`, so that the compiler compares and counts sixteen of them at once.
const PART: usize = 192;

/// Counts the newlines in at most 192 bytes.
fn newlines_in_part(part: &[u8]) -> u8
    requires { length part.now ≤ 192 }
    ensures { result ≡ newlines_of part.now }
{
    let mut found = 0;
    for byte in part {
        found += u8::from(*byte == b'\n');
    }
    found
}

/// Counts the newlines in `bytes`.
pub fn newlines_in(bytes: &[u8]) -> usize
    ensures { result ≡ newlines_of bytes.now }
{
    let mut total = 0;
    let mut rest = bytes;
    while !rest.is_empty() {
        let (part, after) = rest.split_at(PART.min(rest.len()));
        total += usize::from(newlines_in_part(part));
        rest = after;
    }
    total
}
