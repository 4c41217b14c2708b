//! A text of bounded length, written in place without an allocation.
//!
//! A `TextBuffer<N>` is an array of `N` bytes and a length. Contracts see it as the list of its bytes, so that each
//! call that appends says exactly what it appended. Clearing it and cutting it back only set the length. `NoMemory` is
//! the error of calls in other crates that allocate.
#![tactic(auto)]

ghost use Rattle.std.specs.Prelude.{◌≡◌, ◌+◌, ◌<◌, ◌≤◌, ◌++◌, ◌↔◌, [], ◌∷◌, length, take, if◌then◌else◌, IsTrue};
ghost use Rattle.std.specs.Str.{IsAscii};

use std::marker::Model;
use std::str;

mod no_memory;

pub use no_memory::NoMemory;

/// A list of at most `N` bytes.
#[derive(Drop)]
pub struct TextBuffer<const N: usize> {
    bytes: [u8; N],
    len: usize,
}

impl<const N: usize> Model for TextBuffer<N> {
    ghost use Rattle.std.specs.Prelude.{List, ℕ, take, ◌≤◌};

    ghost Value = { List ℕ };

    ghost view = { λ t. take t.len t.bytes };

    ghost invariant = { λ t. t.len ≤ N };
}

impl<const N: usize> TextBuffer<N> {
    /// The empty text.
    pub fn new() -> TextBuffer<N>
        ensures { result ≡ [] }
    {
        TextBuffer {
            bytes: [0; N],
            len: 0,
        }
    }

    /// Returns the length in bytes.
    #[inline]
    pub fn len(&self) -> usize
        ensures value { result ≡ length self.now }
        ensures within { result ≤ N }
    {
        self.len
    }

    /// Whether the text is empty.
    #[inline]
    pub fn is_empty(&self) -> bool
        ensures { IsTrue result ↔ (self.now ≡ []) }
    {
        self.len == 0
    }

    /// Returns how many more bytes fit.
    #[inline]
    pub fn room(&self) -> usize
        ensures { length self.now + result ≡ N }
    {
        N - self.len
    }

    /// Appends a byte. There must be room for it.
    #[inline]
    pub fn push(&mut self, byte: u8)
        requires room { length self.old < N }
        ensures { self.new ≡ self.old ++ byte ∷ [] }
    {
        self.bytes[self.len] = byte;
        self.len += 1;
    }

    /// Appends a byte if `is_wanted`, else nothing; either way at the same cost, without a branch. There must be room
    /// for it.
    #[inline]
    pub fn push_if(&mut self, byte: u8, is_wanted: bool)
        requires room { length self.old < N }
        ensures { self.new ≡ self.old ++ (if is_wanted then byte ∷ [] else []) }
    {
        self.bytes[self.len] = byte;
        self.len += is_wanted as usize;
    }

    /// Appends bytes. There must be room for all of them.
    #[inline]
    pub fn push_bytes(&mut self, bytes: &[u8])
        requires room { length self.old + length bytes.now ≤ N }
        ensures { self.new ≡ self.old ++ bytes.now }
    {
        let end = self.len + bytes.len();
        let all = &mut self.bytes[..];
        all[self.len..end].copy_from_slice(bytes);
        self.len = end;
    }

    /// Appends the first `count` of sixteen bytes. There must be room for those; if there is room for sixteen, this is
    /// one write of sixteen bytes and costs the same for each `count`.
    #[inline]
    pub fn push_prefix(&mut self, bytes: [u8; 16], count: usize)
        requires count { count ≤ 16 }
        requires room { length self.old + count ≤ N }
        ensures { self.new ≡ self.old ++ take count bytes }
    {
        if N - self.len < 16 {
            self.push_bytes(&bytes[..count]);
        } else {
            let end = self.len + 16;
            let all = &mut self.bytes[..];
            all[self.len..end].copy_from_slice(&bytes);
            self.len += count;
        }
    }

    /// Returns the bytes.
    #[inline]
    pub fn as_bytes(&self) -> &[u8]
        ensures value { result.now ≡ self.now }
        ensures within { length self.now ≤ N }
    {
        &self.bytes[..self.len]
    }

    /// Returns the text, whose bytes must all be ASCII.
    #[inline]
    pub fn as_ascii_str(&self) -> &str
        requires { IsAscii self.now }
        ensures value { result.now ≡ self.now }
        ensures within { length self.now ≤ N }
    {
        let bytes = self.as_bytes();
        unsafe { str::from_utf8_unchecked(bytes) }
    }

    /// Keeps the first `len` bytes, or all if there are fewer.
    #[inline]
    pub fn truncate(&mut self, len: usize)
        ensures { self.new ≡ take len self.old }
    {
        self.len = self.len.min(len);
    }

    /// Removes every byte; the array is not touched.
    #[inline]
    pub fn clear(&mut self)
        ensures { self.new ≡ [] }
    {
        self.len = 0;
    }
}
