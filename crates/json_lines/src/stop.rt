//! Where a line stops being JSON, for a report.

ghost use Rattle.std.specs.Prelude.{◌≡◌, ◌+◌, ◌-◌, ◌^◌, min};
ghost use Rattle.std.specs.Str.{IsUtf8};
ghost use Rattle.std.specs.Str.Lossy.{utf8_valid_len};

use json::{MAX_DEPTH, Reader, Scratch, Token};
use std::alloc::AllocError;

/// The objects and arrays that are open at a token.
#[derive(Drop)]
struct Nesting {
    /// How many they are.
    depth: usize,
    /// A bit for each, the innermost lowest: whether it is an object.
    kinds: u128,
    /// Whether the name of a member was the last token.
    is_named: bool,
    /// Whether the value of the whole text has ended.
    is_done: bool,
}

impl Nesting {
    /// Whether the innermost open one is an object.
    fn is_object(&self) -> bool {
        self.depth > 0 && self.kinds & 1 == 1
    }

    /// Ends a value. Returns false if none may be here.
    fn take_value(&mut self) -> bool {
        if self.is_done || self.is_object() != self.is_named {
            return false;
        }
        self.is_named = false;
        self.is_done = self.depth == 0;
        true
    }

    /// Opens an object or an array. Returns false if none may be here.
    fn open(&mut self, is_object: bool) -> bool {
        if !self.take_value() || self.depth >= MAX_DEPTH {
            return false;
        }
        self.kinds = self.kinds << 1 | u128::from(is_object);
        self.depth += 1;
        self.is_done = false;
        true
    }

    /// Closes an object or an array. Returns false if it is not the innermost open one, or if a member has no value.
    fn close(&mut self, is_object: bool) -> bool {
        if self.depth == 0 || self.is_named || self.is_object() != is_object {
            return false;
        }
        self.kinds >>= 1;
        self.depth -= 1;
        self.is_done = self.depth == 0;
        true
    }

    /// Takes the name of a member. Returns false if none may be here.
    fn take_name(&mut self) -> bool {
        if self.is_named || !self.is_object() {
            return false;
        }
        self.is_named = true;
        true
    }

    /// Takes a token. Returns false if it may not be here.
    fn takes(&mut self, token: &Token<'_>) -> bool {
        match token {
            Token::Bad => false,
            Token::BeginObject => self.open(true),
            Token::BeginArray => self.open(false),
            Token::EndObject => self.close(true),
            Token::EndArray => self.close(false),
            Token::Key(_) => self.take_name(),
            Token::String(_) | Token::Number(_) | Token::Bool(_) | Token::Null => self.take_value(),
        }
    }
}

/// Returns the index of the first token of a text that may not be there, or where the text ends.
fn stop_of(text: &str, scratch: &mut Scratch) -> Result<usize, AllocError> {
    let mut reader = Reader::new(text, scratch)?;
    let mut nesting = Nesting {
        depth: 0,
        kinds: 0,
        is_named: false,
        is_done: false,
    };
    // Each token has a byte.
    for _ in 0..text.len() {
        let at = reader.offset();
        match reader.next() {
            Some(token) if nesting.takes(&token) => (),
            _ => return Ok(at),
        }
    }
    Ok(text.len())
}

/// Returns the position, from 1, of the byte with this index.
fn position(index: usize) -> u64
    ensures { result ≡ min (index + 1) (2 ^ 64 - 1) }
{
    (index as u64).saturating_add(1)
}

/// Returns the position, from 1, at which a line that is not JSON stops being so: that of the first byte that is not
/// UTF-8, if there is one; 0 if there is no memory.
pub(crate) fn stop_in(line: &[u8], scratch: &mut Scratch) -> u64
    ensures { ¬ IsUtf8 line.now → result ≡ utf8_valid_len line.now + 1 }
{
    match std::str::from_utf8(line) {
        Err(error) => position(error.valid_up_to()),
        Ok(text) => match stop_of(text, scratch) {
            Ok(index) => position(index),
            Err(_) => 0,
        },
    }
}
