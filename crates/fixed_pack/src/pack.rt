//! Numerals, one a line, packed into words.

ghost use Rattle.std.specs.Prelude.{◌≡◌};
ghost use Rattle.fixed_bits.specs.Ranges.{IsWidth};

use crate::Endian;
use crate::pack_rule::Pack;
use crate::word::{push_word, signed_word, word_length};
use fixed_bits::{Format, Policy, ReadMode};
use fixed_command::without_return;
use fixed_numeral::{ParseFixedError, Radix};
use fixed_show::read_image;
use fixed_steps::Steps;
use line_engine::Output;
use std::sync::ledger::Ledger;

/// How numerals are packed: each into the bits of its number in two's complement, in the fewest bytes that hold the
/// format's width; the bits above the width are zeros. A carriage return at the end of a line is not part of it.
#[derive(Clone, Copy, Debug, PartialEq, Eq)]
pub struct PackSettings {
    /// The radix of the numerals.
    pub radix: Radix,
    /// The format that a numeral is read into.
    pub format: Format,
    /// What to do with a number that is out of range.
    pub policy: Policy,
    /// How a numeral is rounded.
    pub mode: ReadMode,
    /// The order of a word's bytes.
    pub endian: Endian,
}

/// Returns a format's width.
pub(crate) fn width_of(format: Format) -> u32
    ensures value { result ≡ format.width }
    ensures valid { IsWidth format.width }
{
    format.width()
}

impl Pack for PackSettings {
    ghost use Rattle.fixed_pack.specs.Pack.{IsPacked, IsRefused};
    ghost use Rattle.fixed_pack.specs.Lemmas.PackLaws.{kind_one, word_never, word_one};

    type Cause = ParseFixedError;

    ghost Packs = { IsPacked };

    ghost Refuses = { IsRefused };

    #[inline(always)]
    fn pack<L: Ledger>(
        &self,
        line: &[u8],
        out: &mut Output,
        steps: &mut Steps<L>,
    ) -> Result<(), ParseFixedError> {
        let s = self;
        let _width = width_of(s.format);
        match read_image(
            without_return(line),
            s.radix,
            s.format,
            s.policy,
            s.mode,
            steps,
        ) {
            Ok(image) => {
                let word = signed_word(s.format, image.negative, image.magnitude);
                push_word(out, s.endian, word_length(s.format), word);
                Ok(())
            }
            Err(error) => Err(error),
        }
    }

    ghost one_law = { word_one };

    ghost cause_law = { kind_one };

    ghost never_law = { word_never };
}
