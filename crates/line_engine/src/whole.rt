//! An input that is read to its end before anything is written.

ghost use Rattle.std.specs.Prelude.{◌≡◌, ◌≤◌, ◌+◌, ◌++◌, [], List, ℕ, length, IfOk, IsOk, OnErr, OnOk, vec_capacity};
ghost use Rattle.line_engine.specs.Asked.{AskedWithin};
ghost use Rattle.line_engine.specs.Filled.{HasFilled, TakesWithin};

use crate::chunk::{CHUNK, MAX_LIMIT, next_room, read_prefix};
use crate::{NoMemory, Source};
use std::alloc::Global;
use std::marker::Model;

/// The longest input that is read whole without another limit, in bytes.
pub const MAX_WHOLE: u64 = 1_048_576;

/// How many bytes are allocated from the start: one more than `MAX_WHOLE`, so that a longer input is recognized.
pub const WHOLE_BUFFER: usize = 1_048_577;

/// How the reading of a whole input ended.
#[derive(Clone, Copy, Debug, PartialEq, Eq)]
pub enum Filled {
    /// At the end of the input, which is within the limit.
    End,
    /// One byte past the limit.
    TooLong,
    /// At a read that failed.
    ReadFault,
}

/// The bytes of an input. Contracts see the list of these bytes.
#[derive(Drop)]
pub struct Whole {
    bytes: Vec<u8>,
}

impl Model for Whole {
    ghost use Rattle.std.specs.Prelude.{◌≤◌, List, ℕ, vec_capacity};
    ghost use Rattle.line_engine.specs.declared.whole.TheConstants.{WHOLE_BUFFER};

    ghost Value = { List ℕ };

    ghost view = { λ w. w.bytes.items };

    ghost invariant = { λ w. WHOLE_BUFFER ≤ vec_capacity w.bytes };
}

impl Whole {
    /// An empty input, with memory for 1,048,577 bytes.
    pub fn new(alloc: Global) -> Result<Whole, NoMemory>
        ensures { IfOk result (λ w. w ≡ []) }
    {
        match Vec::with_capacity(alloc, WHOLE_BUFFER) {
            Err(_) => Err(NoMemory),
            Ok(bytes) => Ok(Whole { bytes }),
        }
    }

    /// Appends bytes. It allocates nothing if the total is at most 1,048,577 bytes.
    fn append(&mut self, part: &[u8]) -> Result<(), NoMemory>
        ensures ok { OnOk result (self.new ≡ self.old ++ part.now) }
        ensures memory { length self.old + length part.now ≤ WHOLE_BUFFER → IsOk result }
    {
        match self.bytes.reserve(part.len()) {
            Err(_) => Err(NoMemory),
            Ok(()) => {
                self.bytes.extend_from_slice(part).unwrap();
                Ok(())
            }
        }
    }

    /// Reads an input to its end, or to the first byte past the limit, which is in bytes and at most 4,294,967,296.
    ///
    /// Memory is allocated as the input grows past 1,048,577 bytes; if that fails, the result is `NoMemory`. With a
    /// limit of at most 1,048,576 it allocates nothing and cannot fail. Each read requests at most 4,096 bytes, and at
    /// most limit + 1 bytes less those already taken.
    pub fn fill_within<S: Source>(&mut self, limit: u64, source: &mut S) -> Result<Filled, NoMemory>
        requires empty { self.old ≡ [] }
        requires most { limit ≤ 4294967296 }
        ensures ok { IfOk result
            (λ filled. HasFilled limit (S.left source.old) (S.left source.new) (S.failures source.old)
            (S.failures source.new) self.new filled) }
        ensures err { OnErr result (TakesWithin limit (S.left source.old) (S.left source.new)
            × (S.failures source.new ≡ S.failures source.old)) }
        ensures memory { limit ≤ 1048576 → IsOk result }
        ensures asked { AskedWithin limit (S.asked source.old) (S.asked source.new) }
    {
        let mut chunk = [0u8; CHUNK];
        let mut taken = 0u64;
        while taken <= limit {
            let room = next_room(limit, taken);
            match read_prefix(source, &mut chunk, room) {
                Err(_) => return Ok(Filled::ReadFault),
                Ok(0) => return Ok(Filled::End),
                Ok(count) => match self.append(&chunk[..count]) {
                    Err(_) => return Err(NoMemory),
                    Ok(()) => taken += count as u64,
                },
            }
        }
        Ok(Filled::TooLong)
    }

    /// Reads an input of at most 1,048,576 bytes to its end, or to the first byte past that. It allocates nothing.
    pub fn fill<S: Source>(&mut self, source: &mut S) -> Filled
        requires { self.old ≡ [] }
        ensures filled { HasFilled 1048576 (S.left source.old) (S.left source.new) (S.failures source.old)
            (S.failures source.new) self.new result }
        ensures asked { AskedWithin 1048576 (S.asked source.old) (S.asked source.new) }
    {
        match self.fill_within(MAX_WHOLE, source) {
            Ok(filled) => filled,
            Err(_) => unreachable!(),
        }
    }

    /// Returns the bytes.
    pub fn as_bytes(&self) -> &[u8]
        ensures { result.now ≡ self.now }
    {
        self.bytes.as_slice()
    }
}
