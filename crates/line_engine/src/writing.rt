//! Writes a whole text, in as many writes as the sink needs.

ghost use Rattle.std.specs.Prelude.{◌≡◌, OnOk, OnErr};
ghost use Rattle.std.specs.Io.KnownBytes.{Appends};
ghost use Rattle.line_engine.specs.Failures.{FailsOnlyCounted};
ghost use Rattle.line_engine.specs.Appended.{AppendsPrefix};
ghost use Rattle.line_engine.specs.Run.{WritesText};

use crate::{Failed, Sink, Status};

/// Writes the whole piece, in as many writes as the sink needs.
pub fn write_whole<K: Sink>(sink: &mut K, piece: &[u8]) -> Result<(), Failed>
    ensures ok { OnOk result (Appends (K.written sink.old) (K.written sink.new) piece.now) }
    ensures err { OnErr result (AppendsPrefix (K.written sink.old) (K.written sink.new) piece.now) }
    ensures failures { FailsOnlyCounted (K.failures sink.old) (K.failures sink.new) result }
{
    let mut rest = piece;
    while !rest.is_empty() {
        let count = sink.write(rest)?;
        rest = &rest[count..];
    }
    Ok(())
}

/// Writes a whole text. Returns the status `ending`, or `WriteFault` if a write failed.
pub fn write_text<K: Sink>(text: &[u8], ending: Status, sink: &mut K) -> Status
    ensures { WritesText text.now ending (K.written sink.old) (K.written sink.new) (K.failures sink.old)
        (K.failures sink.new) result }
{
    match write_whole(sink, text) {
        Ok(()) => ending,
        Err(_) => Status::WriteFault,
    }
}
