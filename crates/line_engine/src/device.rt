//! Where bytes come from and where they go.

ghost use Rattle.std.specs.Prelude.{◌≡◌, ◌<◌, ◌≤◌, List, ℕ, length, IfOk, Ok};
ghost use Rattle.std.specs.declared.option.Option.{Option};
ghost use Rattle.std.specs.Io.{ReadsAtMost, WritesAtMost};
ghost use Rattle.std.specs.Io.KnownBytes.{ReadConsumes, WriteAppends};
ghost use Rattle.line_engine.specs.Asked.{Asked, HasAsked};
ghost use Rattle.line_engine.specs.Failures.{FailsOnlyCounted};

use thiserror::Error;

/// A read or a write failed: the only error of a source and of a sink.
#[derive(Clone, Copy, Debug, Error, PartialEq, Eq)]
#[error("device failed")]
pub struct Failed;

/// Where bytes come from.
pub trait Source {
    /// The bytes that are left, if the source exposes them.
    ghost left: { Self → Option (List ℕ) };

    /// How many reads have failed; it stays at `u64::MAX`.
    ghost failures: { Self → ℕ };

    /// What its reads have requested, if the source exposes it: how many bytes they gave, the furthest byte requested,
    /// and the longest buffer.
    ghost asked: { Self → Option Asked };

    /// Reads the next bytes into the start of the buffer and returns their count. For a buffer that is not empty, 0
    /// means only the end of the input; for an empty buffer the call changes nothing. `Failed` is returned only if the
    /// count of failures rose or is `u64::MAX`, and then no byte moved. Each call adds the buffer's length and the
    /// count of bytes read to what was requested.
    fn read(&mut self, buf: &mut [u8]) -> Result<usize, Failed>
        ensures bound { ReadsAtMost result buf.new }
        ensures bytes { ReadConsumes (left self.old) (left self.new) result buf.new }
        ensures empty { length buf.old ≡ 0 → result ≡ Ok 0 }
        ensures failures { FailsOnlyCounted (failures self.old) (failures self.new) result }
        ensures asked { HasAsked (asked self.old) (asked self.new) (length buf.old) result };
}

/// Where bytes go.
pub trait Sink {
    /// The bytes written, if the sink exposes them.
    ghost written: { Self → Option (List ℕ) };

    /// How many writes have failed; it stays at `u64::MAX`.
    ghost failures: { Self → ℕ };

    /// Writes a prefix of the piece, at least one byte unless the piece is empty, and returns its length. `Failed` is
    /// returned only if the count of failures rose or is `u64::MAX`, and then no byte moved.
    fn write(&mut self, piece: &[u8]) -> Result<usize, Failed>
        ensures bound { WritesAtMost result piece.now }
        ensures bytes { WriteAppends (written self.old) (written self.new) result piece.now }
        ensures progress { 0 < length piece.now → IfOk result (λ n. 0 < n) }
        ensures failures { FailsOnlyCounted (failures self.old) (failures self.new) result };
}
