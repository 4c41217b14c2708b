//! Passes the lines before the records of a text through.
//!
//! They are read byte by byte, since the bytes after them belong to the records.

ghost use Rattle.std.specs.Prelude.{◌≡◌, ◌==◌, ◌-◌, ◌<◌, [], ◌∷◌, List, ℕ, IfErr, IfOk, OnOk, OnErr};
ghost use Rattle.std.specs.Prelude.{if◌then◌else◌};
ghost use Rattle.line_engine.specs.Failures.{FailsOnlyCounted};
ghost use Rattle.line_engine.specs.Inner.Progress.{Flushes};
ghost use Rattle.column_engine.specs.Run.{HasFailures};
ghost use Rattle.column_engine.specs.Skip.{PassesLines, StopsLines, newlines};

use crate::begin::read_byte;
use crate::end::Stop;
use crate::gather::{flush, put};
use line_engine::{Failed, Output, Sink, Source};

/// The most bytes that are passed through.
pub const MAX_SKIPPED: u64 = 9_223_372_036_854_775_808;

/// Passes a byte through, and writes the line if the byte ends it. Returns how many lines are left.
fn pass_byte<K: Sink>(byte: u8, left: u64, out: &mut Output, sink: &mut K) -> Result<u64, Failed>
    requires { 0 < left }
    ensures ok { IfOk result (λ now. now ≡ (if byte == 10 then left - 1 else left)) }
    ensures gathered { OnOk result (Flushes out.old (byte ∷ []) out.new (K.written sink.old) (K.written sink.new)) }
    ensures plain { OnOk result (newlines out.old ≡ 0 → newlines out.new ≡ 0) }
    ensures err { OnErr result ((held : List ℕ) × Flushes out.old (byte ∷ []) held (K.written sink.old) (K.written
        sink.new)) }
    ensures failures { FailsOnlyCounted (K.failures sink.old) (K.failures sink.new) result }
{
    put(&[byte], out, sink)?;
    if byte != b'\n' {
        return Ok(left);
    }
    flush(out, sink)?;
    Ok(left - 1)
}

/// Passes the first `count` lines of a text through, or the whole text if it has fewer. A line ends with a newline.
pub(crate) fn pass_lines<S: Source, K: Sink>(
    count: u64,
    out: &mut Output,
    source: &mut S,
    sink: &mut K,
) -> Result<(), Stop>
    requires { out.old ≡ [] }
    ensures empty { OnOk result (out.new ≡ []) }
    ensures ok { OnOk result (PassesLines count (S.left source.old) (S.left source.new) (K.written sink.old) (K.written
        sink.new)) }
    ensures err { IfErr result (λ stop. StopsLines stop count (S.left source.old) (S.left source.new) (K.written
        sink.old) (K.written sink.new)) }
    ensures same { OnOk result ((S.failures source.new ≡ S.failures source.old) × (K.failures sink.new ≡ K.failures
        sink.old)) }
    ensures failures { IfErr result (HasFailures (S.failures source.old) (S.failures source.new) (K.failures sink.old)
        (K.failures sink.new)) }
{
    let mut left = count;
    'bytes: for at in 0..MAX_SKIPPED {
        if left == 0 {
            return match flush(out, sink) {
                Err(_) => Err(Stop::WriteFault),
                Ok(()) => Ok(()),
            };
        }
        match read_byte(source) {
            Err(_) => return Err(Stop::ReadFault),
            Ok(None) => return match flush(out, sink) {
                Err(_) => Err(Stop::WriteFault),
                Ok(()) => Ok(()),
            },
            Ok(Some(byte)) => match pass_byte(byte, left, out, sink) {
                Err(_) => return Err(Stop::WriteFault),
                Ok(now) => left = now,
            },
        }
    }
    match flush(out, sink) {
        Err(_) => Err(Stop::WriteFault),
        Ok(()) => Err(Stop::TooLong),
    }
}
