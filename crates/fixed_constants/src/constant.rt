//! Named constants in order.

ghost use Rattle.std.specs.Prelude.{◌≡◌, ◌≤◌, ◌<◌, List, length, slice_get, option_copied, MatchOption};
ghost use Rattle.fixed_bits.specs.Ranges.{IsWide};
ghost use Rattle.fixed_constants.specs.Constants.{ConstantParts, IsFirstNamed, HasName};

use fixed_bits::Format;
use std::marker::Model;

/// A named value of a format.
#[derive(Drop)]
pub struct Constant {
    name: Vec<u8>,
    format: Format,
    bits: i128,
}

impl Model for Constant {
    ghost use Rattle.fixed_constants.specs.Constants.{ConstantParts};
    ghost use Rattle.fixed_bits.specs.Ranges.{IsWide};

    ghost Value = { ConstantParts };

    ghost view = { λ c. record { name = c.name.items; format = c.format; bits = c.bits } };

    ghost invariant = { λ c. IsWide c.bits };
}

impl Constant {
    /// Makes a constant of these parts. The bits are in the range of some format.
    pub(crate) fn new(name: Vec<u8>, format: Format, bits: i128) -> Constant
        requires { IsWide bits }
        ensures { result ≡ record { name = name.items; format = format; bits = bits } }
    {
        Constant { name, format, bits }
    }

    /// Returns the name: 1 to 64 ASCII letters, digits and `_`.
    pub fn name(&self) -> &[u8]
        ensures { result.now ≡ self.now.name }
    {
        self.name.as_slice()
    }

    /// Returns the format.
    pub fn format(&self) -> Format
        ensures { result ≡ self.now.format }
    {
        self.format
    }

    /// Returns the bits: the value is this many ulps of the format.
    pub fn bits(&self) -> i128
        ensures bits { result ≡ self.now.bits }
        ensures wide { IsWide result }
    {
        self.bits
    }
}

/// The constants of a file, in the order of their lines. Contracts see the list of their names, formats and bits.
#[derive(Drop)]
pub struct Constants {
    entries: Vec<Constant>,
}

impl Model for Constants {
    ghost use Rattle.std.specs.Prelude.{List};
    ghost use Rattle.fixed_constants.specs.Constants.{ConstantParts};

    ghost Value = { List ConstantParts };

    ghost view = { λ c. c.entries.items };
}

impl Constants {
    /// The constants in a list.
    pub(crate) fn of(entries: Vec<Constant>) -> Constants
        ensures { result ≡ entries.items }
    {
        Constants { entries }
    }

    /// Returns how many constants there are.
    pub fn len(&self) -> usize
        ensures { result ≡ length self.now }
    {
        self.entries.len()
    }

    /// Returns the constant with this index, from 0. `None`: there are at most `i` constants.
    pub fn get(&self, i: usize) -> Option<&Constant>
        ensures { option_copied result ≡ slice_get self.now i }
    {
        self.entries.get(i)
    }

    /// Returns the constant with this name, if any.
    pub fn find(&self, name: &[u8]) -> Option<&Constant>
        ensures { MatchOption result (¬ HasName name.now self.now) (λ c. IsFirstNamed name.now self.now c.now) }
    {
        for i in 0..self.len() {
            let constant = self.get(i)?;
            if constant.name() == name {
                return Some(constant);
            }
        }
        None
    }
}
