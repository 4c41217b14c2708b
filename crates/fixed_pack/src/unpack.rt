//! Raw words unpacked into lines.

ghost use Rattle.std.specs.Prelude.{◌≡◌, ◌≢◌, ◌≤◌, ◌<◌, ◌+◌, ◌^◌, true, false, length};
ghost use Rattle.fixed_bits.specs.Formats.{IsFormat};
ghost use Rattle.fixed_bits.specs.Ranges.{IsInRange};
ghost use Rattle.fixed_command.specs.Moved.{HasPushed};
ghost use Rattle.fixed_pack.specs.Inner.Unpacking.{PushesReply};
ghost use Rattle.fixed_pack.specs.Word.{word_length};

use crate::Endian;
use crate::float_words::WordRefusal;
use crate::recode::Recode;
use crate::word::{word_bits, word_length, word_number};
use fixed_bits::{Format, Policy};
use fixed_command::{Print, Settings, push_image};
use fixed_respell::push_fault;
use fixed_show::Shown;
use fixed_steps::Steps;
use fixed_write::push_shortest;
use line_engine::Output;
use std::sync::ledger::Ledger;

/// How words are unpacked: each into the line that answers its text, in hexadecimal after `0x`. A word with more bits
/// than the source, or without an image in the target, is refused, and its line says so.
#[derive(Clone, Copy, Debug, PartialEq, Eq)]
pub struct UnpackRule {
    /// How a word is converted, as its text is. How a line spells a number does not matter.
    pub settings: Settings,
    /// The order of a word's bytes.
    pub endian: Endian,
}

/// Returns a format's fraction length.
pub(crate) fn frac_of(format: Format) -> u32
    ensures value { result ≡ format.frac }
    ensures most { result ≤ 64 }
    ensures valid { IsFormat format.width format.frac }
{
    format.frac()
}

/// Whether bits are their own image: from a format to the same one, except under `Symmetric`.
fn keeps_bits(settings: &Settings) -> bool
    ensures source { result ≡ true → settings.now.source ≡ settings.now.target }
    ensures policy { result ≡ true → settings.now.policy ≢ Policy.Symmetric }
{
    settings.policy != Policy::Symmetric && settings.source == settings.target
}

/// Moves source bits to the target and appends the requested part, or the fault if they have no image there. Returns
/// whether they have none. Bits of a format are their own image in it.
#[inline]
fn push_number<L: Ledger>(
    out: &mut Output,
    settings: &Settings,
    bits: i128,
    steps: &mut Steps<L>,
) -> bool
    requires range { IsInRange settings.now.source.signed settings.now.source.width bits }
    requires room { length out.old + 130 ≤ 8192 }
    ensures { HasPushed settings.now bits false out.old out.new result }
{
    let s = settings;
    let _from = frac_of(s.source);
    let to = frac_of(s.target);
    if let Print::Text = s.print {
        if keeps_bits(s) {
            push_shortest(out, bits, to, steps);
            return false;
        }
    }
    push_image(
        out,
        s,
        &Shown {
            bits,
            overflowed: false,
            is_exact: true,
        },
        steps,
    )
}

/// Appends the reply to the word with this number, without a newline. Returns the reason why it is refused, if it is.
#[inline]
fn push_reply<L: Ledger>(
    settings: &Settings,
    number: u64,
    out: &mut Output,
    steps: &mut Steps<L>,
) -> Option<WordRefusal>
    requires room { length out.old + 192 ≤ 8192 }
    ensures reply { number < 256 ^ word_length settings.now.source.width
        → PushesReply settings.now number out.old out.new result }
    ensures short { length out.new ≤ length out.old + 192 }
{
    let _from = frac_of(settings.source);
    let _to = frac_of(settings.target);
    match word_bits(settings.source, number) {
        Some(bits) => {
            if push_number(out, settings, bits, steps) {
                Some(WordRefusal::Overflow)
            } else {
                None
            }
        }
        None => {
            push_fault(out, WordRefusal::TooWide.message());
            Some(WordRefusal::TooWide)
        }
    }
}

impl Recode for UnpackRule {
    ghost use Rattle.fixed_pack.specs.Unpack.{IsWordLine, count_of};
    ghost use Rattle.fixed_pack.specs.Lemmas.UnpackLaws.{line_one};

    type Cause = WordRefusal;

    ghost size = { count_of };

    ghost Recodes = { IsWordLine };

    ghost Refuses = { λ rule word why. ⊥ };

    fn count(&self) -> usize {
        word_length(self.settings.source)
    }

    #[inline(always)]
    fn recode<L: Ledger>(
        &self,
        word: &[u8],
        out: &mut Output,
        steps: &mut Steps<L>,
    ) -> Result<Option<WordRefusal>, WordRefusal> {
        let cause = push_reply(&self.settings, word_number(word, self.endian), out, steps);
        out.push(b'\n');
        Ok(cause)
    }

    ghost one_law = { line_one };

    ghost cause_law = { λ rule word a b p q. absurd p };

    ghost never_law = { λ rule word made cause why p q. q };
}
