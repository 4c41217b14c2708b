//! A source and a sink in memory that fail at given calls.

ghost use Rattle.std.specs.Prelude.{◌≡◌, ◌≤◌, ◌<◌, Some, [], length};

use crate::{Failed, Sink, Source};

/// A source over bytes in memory. It exposes the bytes that are left and what its reads have requested.
#[derive(Drop)]
pub struct MemorySource {
    bytes: Vec<u8>,
    at: usize,
    most: usize,
    failing: Vec<u64>,
    call: u64,
    failures: u64,
    furthest: usize,
    longest: usize,
    ghost within: { at ≤ length bytes.items },
    ghost some: { 0 < most },
    ghost asked: { at ≤ furthest },
}

impl MemorySource {
    ghost use Rattle.line_engine.specs.Asked.{nothing_asked};
    ghost use Rattle.line_engine.specs.Memory.{asked_of, bytes_left};

    /// A source of these bytes that returns at most `most` bytes a call, 1 or more, and fails at the calls with the
    /// numbers in `failing`. Calls with a buffer that is not empty are numbered from 0.
    pub fn new(bytes: Vec<u8>, most: usize, failing: Vec<u64>) -> MemorySource
        requires { 1 ≤ most }
        ensures left { bytes_left result ≡ bytes.items }
        ensures most { result.most ≡ most }
        ensures failing { result.failing.items ≡ failing.items }
        ensures call { result.call ≡ 0 }
        ensures failures { result.failures ≡ 0 }
        ensures asked { asked_of result ≡ nothing_asked }
    {
        MemorySource {
            bytes,
            at: 0,
            most,
            failing,
            call: 0,
            failures: 0,
            furthest: 0,
            longest: 0,
        }
    }

    /// Returns the furthest byte that a read has requested: the greatest sum so far of the count of bytes read before
    /// it and its buffer's length. 0 before the first read.
    pub fn furthest(&self) -> usize
        ensures { result ≡ (asked_of self.now).furthest }
    {
        self.furthest
    }

    /// Returns the length in bytes of the longest buffer of a read so far. 0 before the first read.
    pub fn longest(&self) -> usize
        ensures { result ≡ (asked_of self.now).longest }
    {
        self.longest
    }
}

impl Source for MemorySource {
    ghost use Rattle.std.specs.Prelude.{◌==◌, ◌≤◌, min, Ok, Contains, IsErr, if◌then◌else◌};
    ghost use Rattle.std.specs.Io.{ReadsAtMost};
    ghost use Rattle.std.specs.Io.KnownBytes.{ReadConsumes};
    ghost use Rattle.line_engine.specs.Asked.{HasAsked};
    ghost use Rattle.line_engine.specs.Failures.{FailsOnlyCounted};
    ghost use Rattle.line_engine.specs.Memory.{asked_of, bytes_left, next_count, KeepsSourceRules};

    ghost left = { λ s. Some (bytes_left s) };

    ghost failures = { λ s. s.failures };

    ghost asked = { λ s. Some (asked_of s) };

    /// Fails exactly at the given calls. Otherwise it moves as many bytes as the smallest of `most`, the buffer's
    /// length and the count of bytes left. A call with an empty buffer has no number. Each call, even one that fails,
    /// counts in what was requested.
    fn read(&mut self, buf: &mut [u8]) -> Result<usize, Failed>
        ensures bound { ReadsAtMost result buf.new }
        ensures bytes { ReadConsumes (Some (bytes_left self.old)) (Some (bytes_left self.new)) result buf.new }
        ensures empty { length buf.old ≡ 0 → result ≡ Ok 0 }
        ensures failures { FailsOnlyCounted self.old.failures self.new.failures result }
        ensures fails { 0 < length buf.old → Contains self.old.failing.items self.old.call
            → IsErr result × (self.new.failures ≡ next_count self.old.failures) }
        ensures gives { 0 < length buf.old → ¬ Contains self.old.failing.items self.old.call
            → result ≡ Ok (min (min (length buf.old) self.old.most) (length (bytes_left self.old))) }
        ensures call { self.new.call ≡ (if length buf.old == 0 then self.old.call else next_count self.old.call) }
        ensures rules { KeepsSourceRules self.old self.new }
        ensures asked { HasAsked (Some (asked_of self.old)) (Some (asked_of self.new)) (length buf.old) result }
    {
        if buf.is_empty() {
            return Ok(0);
        }
        self.furthest = self.furthest.max(self.at + buf.len());
        self.longest = self.longest.max(buf.len());
        let call = self.call;
        self.call = call.saturating_add(1);
        if self.failing.contains(&call) {
            self.failures = self.failures.saturating_add(1);
            return Err(Failed);
        }
        let left = &self.bytes[self.at..];
        let count = buf.len().min(self.most).min(left.len());
        buf[..count].copy_from_slice(&left[..count]);
        self.at += count;
        Ok(count)
    }
}

/// A sink into memory.
#[derive(Drop)]
pub struct MemorySink {
    room: Vec<u8>,
    len: usize,
    most: usize,
    failing: Vec<u64>,
    call: u64,
    failures: u64,
    ghost within: { len ≤ length room.items },
    ghost some: { 0 < most },
}

impl MemorySink {
    ghost use Rattle.line_engine.specs.Memory.{bytes_written, room_left};

    /// A sink into this room that takes at most `most` bytes a call, 1 or more, and fails at the calls with the numbers
    /// in `failing`. Calls are numbered from 0. It allocates nothing.
    pub fn new(room: Vec<u8>, most: usize, failing: Vec<u64>) -> MemorySink
        requires { 1 ≤ most }
        ensures written { bytes_written result ≡ [] }
        ensures room { room_left result ≡ length room.items }
        ensures most { result.most ≡ most }
        ensures failing { result.failing.items ≡ failing.items }
        ensures call { result.call ≡ 0 }
        ensures failures { result.failures ≡ 0 }
    {
        MemorySink {
            room,
            len: 0,
            most,
            failing,
            call: 0,
            failures: 0,
        }
    }

    /// Returns the bytes written, in order: the filled part of the room.
    pub fn written(&self) -> &[u8]
        ensures { result.now ≡ bytes_written self.now }
    {
        &self.room[..self.len]
    }
}

impl Sink for MemorySink {
    ghost use Rattle.std.specs.Prelude.{◌⊎◌, min, Ok, Contains, IsErr, IfOk};
    ghost use Rattle.std.specs.Io.{WritesAtMost};
    ghost use Rattle.std.specs.Io.KnownBytes.{WriteAppends};
    ghost use Rattle.line_engine.specs.Failures.{FailsOnlyCounted};
    ghost use Rattle.line_engine.specs.Memory.{bytes_written, next_count, room_left, KeepsSinkRules};

    ghost written = { λ s. Some (bytes_written s) };

    ghost failures = { λ s. s.failures };

    /// Fails exactly at the given calls, and if the piece is not empty and the room is full. Otherwise it moves as many
    /// bytes as the smallest of `most`, the piece's length and the room left.
    fn write(&mut self, piece: &[u8]) -> Result<usize, Failed>
        ensures bound { WritesAtMost result piece.now }
        ensures bytes { WriteAppends (Some (bytes_written self.old)) (Some (bytes_written self.new)) result piece.now }
        ensures progress { 0 < length piece.now → IfOk result (λ n. 0 < n) }
        ensures failures { FailsOnlyCounted self.old.failures self.new.failures result }
        ensures fails { Contains self.old.failing.items self.old.call
            ⊎ ((0 < length piece.now) × (room_left self.old ≡ 0))
            → IsErr result × (self.new.failures ≡ next_count self.old.failures) }
        ensures takes { ¬ Contains self.old.failing.items self.old.call
            → (0 < length piece.now → 0 < room_left self.old)
            → result ≡ Ok (min (min (length piece.now) self.old.most) (room_left self.old)) }
        ensures call { self.new.call ≡ next_count self.old.call }
        ensures rules { KeepsSinkRules self.old self.new }
    {
        let call = self.call;
        self.call = call.saturating_add(1);
        let left = self.room.len() - self.len;
        if self.failing.contains(&call) {
            self.failures = self.failures.saturating_add(1);
            return Err(Failed);
        }
        if left == 0 && !piece.is_empty() {
            self.failures = self.failures.saturating_add(1);
            return Err(Failed);
        }
        let count = piece.len().min(self.most).min(left);
        self.room[self.len..self.len + count].copy_from_slice(&piece[..count]);
        self.len += count;
        Ok(count)
    }
}
