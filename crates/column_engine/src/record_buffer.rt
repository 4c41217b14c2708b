//! The bytes of a record.

ghost use Rattle.std.specs.Prelude.{◌≡◌, ◌≤◌, ◌<◌, ◌+◌, ◌↔◌, IsTrue, ◌++◌, [], ◌∷◌, List, ℕ, length, IfOk};
ghost use Rattle.std.specs.Prelude.{vec_capacity};
ghost use Rattle.column_engine.specs.Limits.{longest_record};

use std::alloc::{AllocError, Global};
use std::marker::Model;

/// The longest record in bytes, with its quotes and without the byte that ends it.
pub const MAX_RECORD: usize = 1_048_576;

/// A buffer for at most `MAX_RECORD` bytes.
#[derive(Drop)]
pub struct RecordBuffer {
    bytes: Vec<u8>,
}

impl Model for RecordBuffer {
    ghost Value = { List ℕ };

    ghost view = { λ b. b.bytes.items };

    ghost invariant = { λ b. (longest_record ≤ vec_capacity b.bytes) × (length b.bytes.items ≤ longest_record) };
}

impl RecordBuffer {
    /// An empty buffer. It allocates all the memory that a record will need.
    pub fn new(alloc: Global) -> Result<RecordBuffer, AllocError>
        ensures { IfOk result (λ kept. kept ≡ []) }
    {
        let bytes = Vec::with_capacity(alloc, MAX_RECORD)?;
        Ok(RecordBuffer { bytes })
    }

    /// Appends bytes, which must fit.
    pub fn append(&mut self, part: &[u8])
        requires { length self.old + length part.now ≤ longest_record }
        ensures { self.new ≡ self.old ++ part.now }
    {
        self.bytes.extend_from_slice(part).unwrap();
    }

    /// Appends a byte, which must fit.
    pub fn push(&mut self, byte: u8)
        requires { length self.old < longest_record }
        ensures { self.new ≡ self.old ++ byte ∷ [] }
    {
        self.bytes.push(byte).unwrap();
    }

    /// Returns the number of bytes.
    pub fn len(&self) -> usize
        ensures count { result ≡ length self.now }
        ensures most { result ≤ longest_record }
    {
        self.bytes.len()
    }

    /// Whether the buffer is empty.
    pub fn is_empty(&self) -> bool
        ensures none { IsTrue result ↔ (self.now ≡ []) }
        ensures most { length self.now ≤ longest_record }
    {
        self.bytes.is_empty()
    }

    /// Removes all bytes.
    pub fn clear(&mut self)
        ensures { self.new ≡ [] }
    {
        self.bytes.clear();
    }

    /// The bytes.
    pub fn as_slice(&self) -> &[u8]
        ensures bytes { result.now ≡ self.now }
        ensures most { length self.now ≤ longest_record }
    {
        self.bytes.as_slice()
    }
}
