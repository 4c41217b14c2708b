//! Both devices of a run, treated as one.

ghost use Rattle.std.specs.Prelude.{◌≡◌, ◌<◌, length, IfOk};
ghost use Rattle.std.specs.Io.{ReadsAtMost, WritesAtMost};
ghost use Rattle.run_engine.specs.Seen.{Reads, Seen, Writes};

use line_engine::{Failed, Sink, Source};

/// Where the bytes of a run come from, and where they go.
pub trait Streams {
    /// What contracts see of both devices: the bytes left and the bytes written, what reads requested, how often each
    /// device failed, and which devices they are.
    ghost seen: { Self → Seen };

    /// Reads the next bytes into the start of the buffer and returns their count, as `Source::read` does.
    fn read(&mut self, buf: &mut [u8]) -> Result<usize, Failed>
        ensures bound { ReadsAtMost result buf.new }
        ensures reads { Reads (seen self.old) (seen self.new) (length buf.old) buf.new result };

    /// Writes a prefix of the piece and returns its length, as `Sink::write` does.
    fn write(&mut self, piece: &[u8]) -> Result<usize, Failed>
        ensures bound { WritesAtMost result piece.now }
        ensures progress { 0 < length piece.now → IfOk result (λ n. 0 < n) }
        ensures writes { Writes (seen self.old) (seen self.new) piece.now result };
}

/// A source and a sink, lent to a run.
#[derive(Drop)]
pub struct Devices<'a, S, K> {
    pub source: &'a mut S,
    pub sink: &'a mut K,
}

impl<'a, S: Source, K: Sink> Streams for Devices<'a, S, K> {
    ghost use Rattle.run_engine.specs.Seen.{seen_of};

    ghost seen = { λ d. seen_of (S.left d.source.now) (S.asked d.source.now) (S.failures d.source.now)
        (K.written d.sink.now) (K.failures d.sink.now) d.source.ghost_name d.sink.ghost_name };

    #[inline]
    fn read(&mut self, buf: &mut [u8]) -> Result<usize, Failed> {
        self.source.read(buf)
    }

    #[inline]
    fn write(&mut self, piece: &[u8]) -> Result<usize, Failed> {
        self.sink.write(piece)
    }
}
