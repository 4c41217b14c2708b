//! A word that is not whole.

ghost use Rattle.std.specs.Prelude.{◌≡◌, ◌+◌, ◌<◌, ◌≤◌, ◌++◌, ◌↔◌, [], IsTrue, length};
ghost use Rattle.fixed_pack.specs.Part.{part_of};

use std::marker::Model;
use text_buffer::TextBuffer;

/// The first bytes of a word, but not all. Contracts see them and the size of the whole word: at most 8 bytes.
#[derive(Drop)]
pub struct Part {
    bytes: TextBuffer<8>,
    size: usize,
}

impl Model for Part {
    ghost use Rattle.std.specs.Prelude.{◌<◌, ◌≤◌, length};
    ghost use Rattle.fixed_pack.specs.Part.{PartView, part_of};

    ghost Value = { PartView };

    ghost view = { λ p. part_of p.bytes p.size };

    ghost invariant = { λ p. (length p.bytes < p.size) × (p.size ≤ 8) };
}

impl Part {
    /// Returns no bytes of a word of this size.
    pub fn new(size: usize) -> Part
        requires some { 0 < size }
        requires most { size ≤ 8 }
        ensures { result ≡ part_of [] size }
    {
        Part {
            bytes: TextBuffer::new(),
            size,
        }
    }

    /// Counts the bytes.
    pub fn len(&self) -> usize
        ensures { result ≡ length self.now.bytes }
    {
        self.bytes.len()
    }

    /// Whether there are no bytes.
    #[inline(always)]
    pub fn is_empty(&self) -> bool
        ensures { IsTrue result ↔ (self.now.bytes ≡ []) }
    {
        self.bytes.is_empty()
    }

    /// Counts the bytes that the word lacks.
    #[inline(always)]
    pub fn lacks(&self) -> usize
        ensures value { length self.now.bytes + result ≡ self.now.size }
        ensures some { 0 < result }
        ensures most { self.now.size ≤ 8 }
    {
        self.size - self.bytes.len()
    }

    /// Keeps more bytes. The word is still not whole.
    pub fn keep(&mut self, piece: &[u8])
        requires { length self.old.bytes + length piece.now < self.old.size }
        ensures { self.new ≡ part_of (self.old.bytes ++ piece.now) self.old.size }
    {
        self.bytes.push_bytes(piece);
    }

    /// Takes the whole word, which ends with these bytes.
    pub fn take(&mut self, piece: &[u8]) -> TextBuffer<8>
        requires { length self.old.bytes + length piece.now ≡ self.old.size }
        ensures word { result ≡ self.old.bytes ++ piece.now }
        ensures none { self.new ≡ part_of [] self.old.size }
    {
        let mut word = TextBuffer::new();
        word.push_bytes(self.bytes.as_bytes());
        word.push_bytes(piece);
        self.bytes.clear();
        word
    }
}
