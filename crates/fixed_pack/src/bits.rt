//! Words of bits, one a line, packed as those bits.

ghost use Rattle.std.specs.Prelude.{◌≡◌};

use crate::Endian;
use crate::pack::width_of;
use crate::pack_rule::Pack;
use crate::word::{push_word, word_length};
use fixed_bits::Format;
use fixed_command::{without_return, word_of};
use fixed_numeral::Radix;
use fixed_show::{WordFault, read_word};
use fixed_steps::Steps;
use line_engine::Output;
use std::sync::ledger::Ledger;

/// How words of bits are packed: each into its bits, in the fewest bytes that hold the format's width; the bits above
/// the width are zeros. A carriage return at the end of a line is not part of it. The words of a decimal format are
/// those of 64 bits with a sign and no fraction.
#[derive(Clone, Copy, Debug, PartialEq, Eq)]
pub struct PackBits {
    /// The radix of words without a prefix.
    pub radix: Radix,
    /// The format of a word.
    pub format: Format,
    /// The order of a word's bytes.
    pub endian: Endian,
}

impl Pack for PackBits {
    ghost use Rattle.fixed_pack.specs.Bits.{AreBitsPacked, AreBitsRefused};
    ghost use Rattle.fixed_pack.specs.Lemmas.BitsLaws.{bits_cause, bits_never, bits_one};

    type Cause = WordFault;

    ghost Packs = { AreBitsPacked };

    ghost Refuses = { AreBitsRefused };

    #[inline(always)]
    fn pack<L: Ledger>(
        &self,
        line: &[u8],
        out: &mut Output,
        _steps: &mut Steps<L>,
    ) -> Result<(), WordFault> {
        let s = self;
        let _width = width_of(s.format);
        match read_word(without_return(line), s.radix, s.format) {
            Ok(bits) => {
                push_word(
                    out,
                    s.endian,
                    word_length(s.format),
                    word_of(s.format, bits),
                );
                Ok(())
            }
            Err(fault) => Err(fault),
        }
    }

    ghost one_law = { bits_one };

    ghost cause_law = { bits_cause };

    ghost never_law = { bits_never };
}
