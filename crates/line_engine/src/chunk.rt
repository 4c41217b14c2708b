//! One read of an input: how many bytes it requests, and into which part of a chunk.

ghost use Rattle.std.specs.Prelude.{◌≡◌, ◌≤◌, ◌<◌, ◌+◌, ◌^◌, length, take, IfOk, OnErr};
ghost use Rattle.std.specs.Io.KnownBytes.{Consumes, IsAtEnd, Keeps};
ghost use Rattle.line_engine.specs.Asked.{HasAsked, longest_chunk};
ghost use Rattle.line_engine.specs.Failures.{FailsOnlyCounted};

use crate::{Failed, Source};

/// The greatest limit, in bytes, of an input that is read whole, and in a program's arguments.
pub const MAX_LIMIT: u64 = 4_294_967_296;

/// The limit, in bytes, of lines without one: 2^62, more than any input has.
pub const NO_LIMIT: u64 = 4_611_686_018_427_387_904;

/// The most bytes that one read requests.
pub const CHUNK: usize = 4096;

/// Returns how many bytes to request next, after `taken` bytes of the limit.
pub(crate) fn next_room(limit: u64, taken: u64) -> usize
    requires limit { limit ≤ 2 ^ 62 }
    requires taken { taken ≤ limit }
    ensures some { 0 < result }
    ensures chunk { result ≤ longest_chunk }
    ensures within { taken + result ≤ limit + 1 }
{
    (limit + 1 - taken).min(CHUNK as u64) as usize
}

/// Reads at most `most` bytes into the start of a chunk.
pub(crate) fn read_prefix<S: Source>(
    source: &mut S,
    chunk: &mut [u8],
    most: usize,
) -> Result<usize, Failed>
    requires room { most ≤ length chunk.old }
    requires some { 0 < most }
    ensures bound { IfOk result (λ count. count ≤ most) }
    ensures bytes { IfOk result (λ count. Consumes (S.left source.old) (S.left source.new) (take count chunk.new)) }
    ensures end { IfOk result (λ count. count ≡ 0 → IsAtEnd (S.left source.new)) }
    ensures err { OnErr result (Keeps (S.left source.old) (S.left source.new)) }
    ensures failures { FailsOnlyCounted (S.failures source.old) (S.failures source.new) result }
    ensures asked { HasAsked (S.asked source.old) (S.asked source.new) most result }
{
    source.read(&mut chunk[..most])
}
