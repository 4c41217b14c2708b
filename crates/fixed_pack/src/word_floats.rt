//! Words of a format written as floats.

ghost use Rattle.std.specs.Prelude.{◌≡◌, ◌^◌, ◌<◌, ◌≤◌};
ghost use Rattle.fixed_bits.specs.Ranges.{IsInRange};
ghost use Rattle.fixed_float.specs.Nearest.{IsNearestFloat};
ghost use Rattle.fixed_pack.specs.Floats.{IsWordFloat, float_size};
ghost use Rattle.fixed_pack.specs.Recoded.{AreFront};
ghost use Rattle.fixed_pack.specs.Word.{word_length};

use crate::Endian;
use crate::float_words::{WordRefusal, float_length};
use crate::recode::Recode;
use crate::word::{push_word, word_bits, word_length, word_number, words_within};
use fixed_bits::Format;
use fixed_float::{FloatLayout, binary32_of, binary64_of};
use fixed_steps::Steps;
use line_engine::Output;
use std::sync::ledger::Ledger;

/// How words are written as floats.
#[derive(Clone, Copy, Debug, PartialEq, Eq)]
pub struct WordFloats {
    /// The format of a word.
    pub format: Format,
    /// The layout of the written floats.
    pub layout: FloatLayout,
    /// The order of the bytes of a word, and of a float.
    pub endian: Endian,
}

/// Returns the bits of the float nearest to the bits `number` of a format, ties to even.
#[inline(always)]
fn nearest_float(layout: FloatLayout, number: i128, format: Format) -> u64
    requires { IsInRange format.signed format.width number }
    ensures few { result < 256 ^ float_size layout }
    ensures nearest { IsNearestFloat layout number format.frac result }
{
    match layout {
        FloatLayout::Binary32 => u64::from(binary32_of(number, format)),
        FloatLayout::Binary64 => binary64_of(number, format),
    }
}

/// Appends the floats of words from the front of some bytes, up to the first that is too wide. Returns the number of
/// these words. The sizes and the order are those of `words`; a caller that knows them gets a loop of its own.
#[inline(always)]
fn push_floats(
    words: WordFloats,
    size: usize,
    endian: Endian,
    count: usize,
    bytes: &[u8],
    out: &mut Output,
) -> usize
    requires size { size ≡ word_length words.format.width }
    requires some { 0 < size }
    requires most { size ≤ 8 }
    requires endian { endian ≡ words.endian }
    requires count { count ≡ float_size words.layout }
    requires few { count ≤ 8 }
    ensures { AreFront size (IsWordFloat words) bytes.now out.old out.new result }
{
    let most = words_within(bytes.len(), size, out.room());
    let mut left = most;
    let mut rest = bytes;
    while left > 0 {
        let Some(bits) = word_bits(words.format, word_number(&rest[..size], endian)) else {
            return most - left;
        };
        push_word(
            out,
            endian,
            count,
            nearest_float(words.layout, bits, words.format),
        );
        rest = &rest[size..];
        left -= 1;
    }
    most
}

impl Recode for WordFloats {
    ghost use Rattle.fixed_pack.specs.Floats.{IsWordFloat, IsWordRefused};
    ghost use Rattle.fixed_pack.specs.Lemmas.FloatLaws.{width_one, word_float_one, word_never};
    ghost use Rattle.fixed_pack.specs.Word.{word_length};

    type Cause = WordRefusal;

    ghost size = { λ words. word_length words.format.width };

    ghost Recodes = { IsWordFloat };

    ghost Refuses = { IsWordRefused };

    fn count(&self) -> usize {
        word_length(self.format)
    }

    #[inline(always)]
    fn recode<L: Ledger>(
        &self,
        word: &[u8],
        out: &mut Output,
        _steps: &mut Steps<L>,
    ) -> Result<Option<WordRefusal>, WordRefusal> {
        match word_bits(self.format, word_number(word, self.endian)) {
            Some(bits) => {
                let float = nearest_float(self.layout, bits, self.format);
                push_word(out, self.endian, float_length(self.layout), float);
                Ok(None)
            }
            None => Err(WordRefusal::TooWide),
        }
    }

    fn recode_front(&self, bytes: &[u8], out: &mut Output) -> usize {
        let words = *self;
        let size = word_length(words.format);
        match (words.layout, words.endian, size) {
            (FloatLayout::Binary64, Endian::Little, 2) => {
                push_floats(words, 2, Endian::Little, 8, bytes, out)
            }
            (FloatLayout::Binary64, Endian::Little, 4) => {
                push_floats(words, 4, Endian::Little, 8, bytes, out)
            }
            (FloatLayout::Binary64, Endian::Little, 8) => {
                push_floats(words, 8, Endian::Little, 8, bytes, out)
            }
            (layout, endian, _) => push_floats(
                words,
                size,
                endian,
                float_length(layout),
                bytes,
                out,
            ),
        }
    }

    ghost one_law = { word_float_one };

    ghost cause_law = { width_one };

    ghost never_law = { word_never };
}
