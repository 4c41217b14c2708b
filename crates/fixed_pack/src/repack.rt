//! Words of one format written as words of another.

ghost use Rattle.std.specs.Prelude.{◌≡◌, IfOk, IfSome, MatchOption, MatchResult};
ghost use Rattle.fixed_bits.specs.Ranges.{IsInRange};
ghost use Rattle.fixed_convert.specs.Rounded.{IsNotReformatted, IsReformatted};
ghost use Rattle.fixed_pack.specs.Repacked.{HasImage, IsImageless};

use crate::Endian;
use crate::float_words::WordRefusal;
use crate::pack::width_of;
use crate::recode::Recode;
use crate::unpack::frac_of;
use crate::word::{push_word, word_bits, word_length, word_number};
use fixed_bits::{Format, Policy, ReadMode};
use fixed_command::word_of;
use fixed_convert::reformat_mode;
use fixed_steps::Steps;
use line_engine::Output;
use std::sync::ledger::Ledger;

/// How words of one format are written as words of another.
#[derive(Clone, Copy, Debug, PartialEq, Eq)]
pub struct Repack {
    /// The format of a word that is read.
    pub source: Format,
    /// The format of a word that is written.
    pub target: Format,
    /// What to do with a number that is out of the target's range.
    pub policy: Policy,
    /// How a number is rounded on its way to the target.
    pub target_mode: ReadMode,
    /// The order of the bytes of a word that is read.
    pub endian: Endian,
    /// The order of the bytes of a word that is written.
    pub endian_out: Endian,
}

impl Repack {
    /// Returns the image of source bits in the target, and whether the moved number was out of its range.
    #[inline(always)]
    pub fn image(&self, bits: i128) -> Option<(i128, bool)>
        requires { IsInRange self.now.source.signed self.now.source.width bits }
        ensures moved { MatchOption result
            (IsNotReformatted self.now.target_mode self.now.policy self.now.target bits self.now.source.frac)
            (λ r. IsReformatted self.now.target_mode self.now.policy self.now.target bits self.now.source.frac r.0
            r.1) }
        ensures range { IfSome result (λ r. IsInRange self.now.target.signed self.now.target.width r.0) }
    {
        let from = frac_of(self.source);
        reformat_mode(self.target, self.policy, self.target_mode, bits, from)
    }

    /// Returns the image of the number of a source word.
    #[inline(always)]
    fn word_image(&self, number: u64) -> Result<i128, WordRefusal>
        ensures image { MatchResult result (HasImage self.now number) (IsImageless self.now number) }
        ensures range { IfOk result (λ b. IsInRange self.now.target.signed self.now.target.width b) }
    {
        match word_bits(self.source, number) {
            None => Err(WordRefusal::TooWide),
            Some(bits) => match self.image(bits) {
                Some(found) => Ok(found.0),
                None => Err(WordRefusal::Overflow),
            },
        }
    }
}

impl Recode for Repack {
    ghost use Rattle.fixed_pack.specs.Repacked.{IsRepackRefused, IsRepacked};
    ghost use Rattle.fixed_pack.specs.Lemmas.RepackLaws.{refused_one, repacked_never, repacked_one};
    ghost use Rattle.fixed_pack.specs.Word.{word_length};

    type Cause = WordRefusal;

    ghost size = { λ words. word_length words.source.width };

    ghost Recodes = { IsRepacked };

    ghost Refuses = { IsRepackRefused };

    fn count(&self) -> usize {
        word_length(self.source)
    }

    #[inline(always)]
    fn recode<L: Ledger>(
        &self,
        word: &[u8],
        out: &mut Output,
        _steps: &mut Steps<L>,
    ) -> Result<Option<WordRefusal>, WordRefusal> {
        let _width = width_of(self.target);
        match self.word_image(word_number(word, self.endian)) {
            Ok(image) => {
                let number = word_of(self.target, image);
                push_word(out, self.endian_out, word_length(self.target), number);
                Ok(None)
            }
            Err(why) => Err(why),
        }
    }

    ghost one_law = { repacked_one };

    ghost cause_law = { refused_one };

    ghost never_law = { repacked_never };
}
