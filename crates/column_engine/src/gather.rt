//! Gathers output before it is written.

ghost use Rattle.std.specs.Prelude.{◌≡◌, ◌≤◌, List, ℕ, [], OnOk, OnErr};
ghost use Rattle.std.specs.Io.KnownBytes.{Appends};
ghost use Rattle.line_engine.specs.Failures.{FailsOnlyCounted};
ghost use Rattle.line_engine.specs.Inner.Progress.{Flushes};
ghost use Rattle.line_engine.specs.Output.{AppendsPrefix};

use line_engine::{Failed, OUTPUT_BUFFER, Output, Sink, write_whole};

/// Writes the gathered bytes.
pub(crate) fn flush<K: Sink>(out: &mut Output, sink: &mut K) -> Result<(), Failed>
    ensures none { OnOk result (out.new ≡ []) }
    ensures ok { OnOk result (Appends (K.written sink.old) (K.written sink.new) out.old) }
    ensures err { OnErr result (AppendsPrefix (K.written sink.old) (K.written sink.new) out.old) }
    ensures failures { FailsOnlyCounted (K.failures sink.old) (K.failures sink.new) result }
{
    write_whole(sink, out.as_bytes())?;
    out.clear();
    Ok(())
}

/// Writes the gathered bytes, then gathers `bytes`, or writes them at once if they exceed the buffer. If a write fails,
/// a prefix of all of it was written.
#[inline(never)]
fn put_behind<K: Sink>(bytes: &[u8], out: &mut Output, sink: &mut K) -> Result<(), Failed>
    ensures ok { OnOk result (Flushes out.old bytes.now out.new (K.written sink.old) (K.written sink.new)) }
    ensures err { OnErr result ((left : List ℕ) × Flushes out.old bytes.now left (K.written sink.old) (K.written
        sink.new)) }
    ensures failures { FailsOnlyCounted (K.failures sink.old) (K.failures sink.new) result }
{
    flush(out, sink)?;
    if bytes.len() <= OUTPUT_BUFFER {
        out.push_bytes(bytes);
        return Ok(());
    }
    write_whole(sink, bytes)
}

/// Gathers `bytes`. If they do not fit, writes the gathered bytes first, and `bytes` at once if they exceed the buffer.
/// If a write fails, a prefix of all of it was written.
#[inline(always)]
pub(crate) fn put<K: Sink>(bytes: &[u8], out: &mut Output, sink: &mut K) -> Result<(), Failed>
    ensures ok { OnOk result (Flushes out.old bytes.now out.new (K.written sink.old) (K.written sink.new)) }
    ensures err { OnErr result ((left : List ℕ) × Flushes out.old bytes.now left (K.written sink.old) (K.written
        sink.new)) }
    ensures failures { FailsOnlyCounted (K.failures sink.old) (K.failures sink.new) result }
{
    if bytes.len() <= out.room() {
        out.push_bytes(bytes);
        return Ok(());
    }
    put_behind(bytes, out, sink)
}

/// Gathers the byte that ends a record, if any.
#[inline(always)]
pub(crate) fn put_end<K: Sink>(end: &[u8], out: &mut Output, sink: &mut K) -> Result<(), Failed>
    ensures ok { OnOk result (Flushes out.old end.now out.new (K.written sink.old) (K.written sink.new)) }
    ensures err { OnErr result ((left : List ℕ) × Flushes out.old end.now left (K.written sink.old) (K.written
        sink.new)) }
    ensures failures { FailsOnlyCounted (K.failures sink.old) (K.failures sink.new) result }
{
    match end {
        [byte] if 0 < out.room() => {
            out.push(*byte);
            Ok(())
        }
        _ => put(end, out, sink),
    }
}
