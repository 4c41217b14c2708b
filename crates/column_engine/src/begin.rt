//! The beginning of a text, which may be a byte order mark.

ghost use Rattle.std.specs.Prelude.{◌≡◌, ◌≤◌, [], None, IfOk, OnErr, length};
ghost use Rattle.std.specs.Io.KnownBytes.{Consumes, IsAtEnd, Keeps};
ghost use Rattle.line_engine.specs.Failures.{FailsOnlyCounted};
ghost use Rattle.column_engine.specs.Begin.{Begins, IsPartOfMark, given};

use line_engine::{Failed, Output, Source};

/// A byte order mark.
pub(crate) const MARK: [u8; 3] = [0xef, 0xbb, 0xbf];

/// How a text begins.
#[derive(Clone, Copy, Debug, PartialEq, Eq)]
pub enum Start {
    /// With a byte order mark.
    Marked,
    /// With a proper prefix of one, maybe empty; then the text ends.
    Ended,
    /// With a proper prefix of one, maybe empty; then another byte follows.
    Other,
}

/// Reads the next byte, if any.
pub(crate) fn read_byte<S: Source>(source: &mut S) -> Result<Option<u8>, Failed>
    ensures bytes { IfOk result (λ byte. Consumes (S.left source.old) (S.left source.new) (given byte)) }
    ensures end { IfOk result (λ byte. byte ≡ None → IsAtEnd (S.left source.new)) }
    ensures err { OnErr result (Keeps (S.left source.old) (S.left source.new)) }
    ensures failures { FailsOnlyCounted (S.failures source.old) (S.failures source.new) result }
{
    let mut byte = [0u8; 1];
    match source.read(&mut byte) {
        Err(_) => Err(Failed),
        Ok(0) => Ok(None),
        Ok(_) => Ok(Some(byte[0])),
    }
}

/// Reads the first bytes of a text, through the first byte that differs from a byte order mark.
pub(crate) fn read_start<S: Source>(source: &mut S, start: &mut Output) -> Result<Start, Failed>
    requires { start.old ≡ [] }
    ensures taken { Consumes (S.left source.old) (S.left source.new) start.new }
    ensures short { length start.new ≤ 3 }
    ensures begins { IfOk result (λ how. Begins how start.new (S.left source.new)) }
    ensures err { OnErr result (IsPartOfMark start.new) }
    ensures failures { FailsOnlyCounted (S.failures source.old) (S.failures source.new) result }
{
    'bytes: for at in 0..3 {
        match read_byte(source) {
            Err(_) => return Err(Failed),
            Ok(None) => return Ok(Start::Ended),
            Ok(Some(byte)) => {
                start.push(byte);
                if byte != MARK[at] {
                    return Ok(Start::Other);
                }
            }
        }
    }
    Ok(Start::Marked)
}
