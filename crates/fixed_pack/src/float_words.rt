//! Floats read into the words of a format.

ghost use Rattle.std.specs.Prelude.{◌≡◌, ◌↔◌, ◌^◌, ◌<◌, ◌≤◌, ℕ, IfOk, IfSome, IsOk, MatchResult};
ghost use Rattle.fixed_float.specs.Floats.{IsFinite, IsFloatReading};
ghost use Rattle.fixed_float.specs.Kept.{IsGreatestKept};
ghost use Rattle.fixed_float.specs.Short.{IsShortReading};
ghost use Rattle.fixed_pack.specs.Floats.{IsFloatNumber, IsFloatRefused, IsFloatWord, float_size, refusal_text};
ghost use Rattle.fixed_pack.specs.Recoded.{AreFront};
ghost use Rattle.fixed_pack.specs.Word.{word_length};

use crate::Endian;
use crate::recode::Recode;
use crate::word::{push_word, signed_word, word_length, word_number, words_within};
use fixed_bits::{Format, Policy, ReadMode};
use fixed_command::word_of;
use fixed_float::{
    FloatLayout, NotFinite, ShortNumber, greatest_kept, is_kept, read_binary32, read_binary64,
    short_binary32, short_binary64,
};
use fixed_read::ReadNumber;
use fixed_steps::Steps;
use line_engine::Output;
use std::sync::ledger::Ledger;

/// How floats are read into words.
#[derive(Clone, Copy, Debug, PartialEq, Eq)]
pub struct FloatWords {
    /// The layout of the floats.
    pub layout: FloatLayout,
    /// The format that a float is read into.
    pub format: Format,
    /// What to do with a number that is out of range.
    pub policy: Policy,
    /// How a float is rounded.
    pub mode: ReadMode,
    /// The order of the bytes of a float, and of a word.
    pub endian: Endian,
}

/// Why a float or a word is refused.
#[derive(Clone, Copy, Debug, PartialEq, Eq)]
pub enum WordRefusal {
    /// The float is an infinity or a NaN.
    NotFinite,
    /// The number is out of range.
    Overflow,
    /// The word has a bit above the width of its format.
    TooWide,
}

impl WordRefusal {
    /// Returns the message of the refusal.
    pub fn message(self) -> &'static str
        ensures { result.now ≡ refusal_text self }
    {
        match self {
            WordRefusal::NotFinite => "not a finite number",
            WordRefusal::Overflow => "overflow",
            WordRefusal::TooWide => "word is wider than the format",
        }
    }
}

/// Returns the length of a float in bytes.
pub fn float_length(layout: FloatLayout) -> usize
    ensures value { result ≡ float_size layout }
    ensures some { 0 < result }
    ensures most { result ≤ 8 }
{
    match layout {
        FloatLayout::Binary32 => 4,
        FloatLayout::Binary64 => 8,
    }
}

impl FloatWords {
    /// Returns the read number of the float with these bits.
    #[inline(always)]
    pub fn read(&self, bits: u64) -> Result<ReadNumber, NotFinite>
        ensures finite { bits < 256 ^ float_size self.now.layout → IsOk result ↔ IsFinite self.now.layout bits }
        ensures reading { bits < 256 ^ float_size self.now.layout
            → IfOk result (IsFloatReading self.now.mode self.now.layout bits) }
        ensures format { IfOk result (λ found. found.format ≡ self.now.format) }
    {
        match self.layout {
            FloatLayout::Binary32 => read_binary32(
                (bits % (1 << 32)) as u32,
                self.format,
                self.mode,
            ),
            FloatLayout::Binary64 => read_binary64(bits, self.format, self.mode),
        }
    }
}

/// Returns the word of a number read from a float, brought into its format. Most numbers are in the policy's range and
/// are their own images.
#[inline(always)]
fn brought(found: Result<ReadNumber, NotFinite>, floats: &FloatWords) -> Result<u64, WordRefusal>
    requires { IfOk found (λ n. n.format ≡ floats.now.format) }
    ensures { (float : ℕ) → (IsOk found ↔ IsFinite floats.now.layout float)
        → IfOk found (IsFloatReading floats.now.mode floats.now.layout float)
        → MatchResult result (IsFloatNumber floats.now float) (IsFloatRefused floats.now float) }
{
    let found = match found {
        Ok(found) => found,
        Err(_) => return Err(WordRefusal::NotFinite),
    };
    if !found.is_out_of_range_by(floats.policy) {
        return Ok(signed_word(floats.format, found.is_negative(), found.magnitude()));
    }
    match found.image(floats.policy) {
        Some(bits) => Ok(word_of(floats.format, bits)),
        None => Err(WordRefusal::Overflow),
    }
}

/// Returns the number of a float in a format's ulps, if it is short.
#[inline(always)]
fn short_number(
    layout: FloatLayout,
    bits: u64,
    format: Format,
    mode: ReadMode,
) -> Option<ShortNumber>
    ensures { bits < 256 ^ float_size layout → IfSome result (IsShortReading mode layout bits format.frac) }
{
    match layout {
        FloatLayout::Binary32 => short_binary32((bits % (1 << 32)) as u32, format, mode),
        FloatLayout::Binary64 => short_binary64(bits, format, mode),
    }
}

/// Returns the word of a float whose number is short and not changed by any policy. `None`: it is not such a number.
#[inline(always)]
fn quick_word(floats: &FloatWords, greatest: u64, bits: u64) -> Option<u64>
    requires { IsGreatestKept floats.now.format greatest }
    ensures { bits < 256 ^ float_size floats.now.layout → IfSome result (IsFloatNumber floats.now bits) }
{
    let number = short_number(floats.layout, bits, floats.format, floats.mode)?;
    if is_kept(number, floats.format, greatest) {
        Some(signed_word(floats.format, number.negative, number.magnitude))
    } else {
        None
    }
}

/// Appends the words of floats from the front of some bytes, up to the first without a quick word. Returns the number
/// of these floats. The sizes and the order are those of `floats`; a caller that knows them gets a loop of its own.
#[inline(always)]
fn push_quick(
    floats: FloatWords,
    size: usize,
    endian: Endian,
    count: usize,
    bytes: &[u8],
    out: &mut Output,
) -> usize
    requires size { size ≡ float_size floats.layout }
    requires endian { endian ≡ floats.endian }
    requires count { count ≡ word_length floats.format.width }
    requires few { count ≤ 8 }
    ensures { AreFront size (IsFloatWord floats) bytes.now out.old out.new result }
{
    let greatest = greatest_kept(floats.format);
    let most = words_within(bytes.len(), size, out.room());
    let mut left = most;
    let mut rest = bytes;
    while left > 0 {
        let float = word_number(&rest[..size], endian);
        let Some(number) = quick_word(&floats, greatest, float) else {
            return most - left;
        };
        push_word(out, endian, count, number);
        rest = &rest[size..];
        left -= 1;
    }
    most
}

impl Recode for FloatWords {
    ghost use Rattle.fixed_pack.specs.Floats.{IsFloatWord, IsWordNot, float_size};
    ghost use Rattle.fixed_pack.specs.Lemmas.FloatLaws.{float_never, float_word_one, refusal_one};

    type Cause = WordRefusal;

    ghost size = { λ floats. float_size floats.layout };

    ghost Recodes = { IsFloatWord };

    ghost Refuses = { IsWordNot };

    fn count(&self) -> usize {
        float_length(self.layout)
    }

    #[inline(always)]
    fn recode<L: Ledger>(
        &self,
        word: &[u8],
        out: &mut Output,
        _steps: &mut Steps<L>,
    ) -> Result<Option<WordRefusal>, WordRefusal> {
        let found = self.read(word_number(word, self.endian));
        match brought(found, self) {
            Ok(number) => {
                push_word(out, self.endian, word_length(self.format), number);
                Ok(None)
            }
            Err(why) => Err(why),
        }
    }

    fn recode_front(&self, bytes: &[u8], out: &mut Output) -> usize {
        let floats = *self;
        let count = word_length(floats.format);
        match (floats.layout, floats.endian, count) {
            (FloatLayout::Binary64, Endian::Little, 2) => {
                push_quick(floats, 8, Endian::Little, 2, bytes, out)
            }
            (FloatLayout::Binary64, Endian::Little, 4) => {
                push_quick(floats, 8, Endian::Little, 4, bytes, out)
            }
            (FloatLayout::Binary64, Endian::Little, 8) => {
                push_quick(floats, 8, Endian::Little, 8, bytes, out)
            }
            (layout, endian, _) => push_quick(
                floats,
                float_length(layout),
                endian,
                count,
                bytes,
                out,
            ),
        }
    }

    ghost one_law = { float_word_one };

    ghost cause_law = { refusal_one };

    ghost never_law = { float_never };
}
