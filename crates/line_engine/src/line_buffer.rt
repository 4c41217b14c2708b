//! The line that is currently read.

ghost use Rattle.std.specs.Prelude.{◌≡◌, ◌≤◌, ◌↔◌, IsTrue, ◌++◌, [], List, ℕ, length, take, IfOk, vec_capacity};
ghost use Rattle.line_engine.specs.declared.line_buffer.TheConstants.{KEPT};

use std::alloc::{AllocError, Global};
use std::marker::Model;

/// The longest line, in bytes.
pub const MAX_LINE: usize = 1_048_576;

/// How many bytes of a line are kept: one more than `MAX_LINE`, so that a longer line is recognized.
const KEPT: usize = MAX_LINE + 1;

/// The first bytes of a line that has not ended.
#[derive(Drop)]
pub struct LineBuffer {
    bytes: Vec<u8>,
}

impl Model for LineBuffer {
    ghost Value = { List ℕ };

    ghost view = { λ b. b.bytes.items };

    ghost invariant = { λ b. (KEPT ≤ vec_capacity b.bytes) × (length b.bytes.items ≤ KEPT) };
}

impl LineBuffer {
    /// An empty line. It allocates all the memory that the line will need.
    pub fn new(alloc: Global) -> Result<LineBuffer, AllocError>
        ensures { IfOk result (λ line. line ≡ []) }
    {
        let bytes = Vec::with_capacity(alloc, KEPT)?;
        Ok(LineBuffer { bytes })
    }

    /// Appends bytes of the line. Those after the first 1,048,577 are dropped.
    pub fn append(&mut self, part: &[u8])
        ensures { self.new ≡ take KEPT (self.old ++ part.now) }
    {
        let room = KEPT - self.bytes.len();
        let kept = room.min(part.len());
        self.bytes.extend_from_slice(&part[..kept]).unwrap();
    }

    /// Whether the line is empty so far.
    pub fn is_empty(&self) -> bool
        ensures { IsTrue result ↔ (self.now ≡ []) }
    {
        self.bytes.is_empty()
    }

    /// Begins a new line.
    pub fn clear(&mut self)
        ensures { self.new ≡ [] }
    {
        self.bytes.clear();
    }

    /// Returns the bytes that are kept.
    pub fn as_slice(&self) -> &[u8]
        ensures { result.now ≡ self.now }
    {
        self.bytes.as_slice()
    }
}
