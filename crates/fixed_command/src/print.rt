//! Which part of an answer is written.

ghost use Rattle.std.specs.Prelude.{◌≡◌, ◌≤◌, MatchOption};

use fixed_bits::ReadMode;
use std::marker::Model;

/// How many digits are written after the point: at most 64.
#[derive(Clone, Copy, Debug, PartialEq, Eq)]
pub struct Places {
    count: u32,
}

impl Model for Places {
    ghost use Rattle.std.specs.Prelude.{◌≤◌, ℕ};

    ghost Value = { ℕ };

    ghost view = { λ p. p.count };

    ghost inverse = { λ n. record { count = n } };

    ghost invariant = { λ p. p.count ≤ 64 };
}

impl Places {
    /// Returns this many digits. `None` if there are more than 64.
    pub fn new(count: u32) -> Option<Places>
        ensures { MatchOption result (¬ (count ≤ 64)) (λ p. p ≡ count) }
    {
        if count <= 64 {
            Some(Places { count })
        } else {
            None
        }
    }

    /// How many digits.
    pub fn count(self) -> u32
        ensures value { result ≡ self }
        ensures most { result ≤ 64 }
    {
        self.count
    }
}

/// Which part of an answer `TEXT BITS VERDICT` is written.
#[derive(Clone, Copy, Debug, PartialEq, Eq)]
pub enum Print {
    /// The text.
    Text,
    /// The number rounded to this many digits after the point in a mode.
    Places(Places, ReadMode),
    /// The bits in decimal.
    Bits,
    /// The bits in hexadecimal, of the target's width, after `0x`.
    Hex,
    /// The bits in hexadecimal without `0x`, as `$readmemh` reads them.
    Readmemh,
    /// The exact value of the bits.
    Value,
    /// All of it.
    All,
}
