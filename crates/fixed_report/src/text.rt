//! The texts about the numeral with the greatest error, and about the means.

ghost use Rattle.std.specs.Prelude.{◌≡◌, ◌⊎◌, ◌<◌, ◌≤◌, ◌+◌, ◌-◌, ◌*◌, ◌/◌, ◌%◌, ◌^◌, ◌++◌, [], IfNone, IfSome};
ghost use Rattle.std.specs.Prelude.{IsSome, None, length, false, true};
ghost use Rattle.std.specs.Fmt.{sign_text};
ghost use Rattle.fixed_bits.specs.declared.format.Policy.TheVariants.{Checked};
ghost use Rattle.fixed_error.specs.Cut.{cut_parts};
ghost use Rattle.fixed_report.specs.Text.{AreMeanTexts, IsDigitsText, IsGreatestText, greatest_text};
ghost use Rattle.fixed_show.specs.ShowBlock.{HasNoBits};
ghost use Rattle.fixed_show.specs.ShownErrors.{AreShownErrors};
ghost use Rattle.fixed_write.specs.Texts.{fraction_part, last_digits};

use crate::means::SixDigits;
use crate::report::ErrorReport;
use fixed_bits::Policy;
use fixed_show::{ErrorTexts, error_texts};
use fixed_steps::Steps;
use itoa::Buffer;
use std::sync::ledger::Ledger;
use text_buffer::TextBuffer;

/// The greatest length of that text, in bytes.
pub const MAX_GREATEST: usize = 2880;

/// Appends the text of an error at a place. `name` is what places are called.
fn push_greatest(out: &mut TextBuffer<MAX_GREATEST>, name: &[u8], place: u64, said: &ErrorTexts)
    requires empty { out.old ≡ [] }
    requires name { length name.now ≤ 8 }
    ensures { out.new ≡ greatest_text name.now place said.now.error said.now.ulps }
{
    out.push_bytes(b"greatest error in ");
    out.push_bytes(name);
    out.push(b' ');
    let mut digits = Buffer::new();
    out.push_bytes(digits.format(place).as_bytes());
    out.push_bytes(b": ");
    out.push_bytes(said.error.as_bytes());
    out.push_bytes(b", in ulps: ");
    out.push_bytes(said.ulps.as_bytes());
}

/// The most bytes of the text of a mean.
pub const MAX_MEAN: usize = 128;

/// Returns a number without the zeros at the end of its last `places` digits, and how many of these digits are left.
fn trimmed(number: u64, places: u32) -> (u64, u32)
    ensures within { result.1 ≤ places }
    ensures same { result.0 * 10 ^ (places - result.1) ≡ number }
    ensures last { (result.1 ≡ 0) ⊎ (0 < result.0 % 10) }
{
    if places > 0 && number % 10 == 0 {
        trimmed(number / 10, places - 1)
    } else {
        (number, places)
    }
}

/// Returns a number without its last `count` digits.
fn whole_of(number: u64, count: u32) -> u64
    ensures { result ≡ number / 10 ^ count }
{
    if count > 0 {
        whole_of(number / 10, count - 1)
    } else {
        number
    }
}

/// Appends the last `count` digits of a number.
fn push_last(out: &mut TextBuffer<MAX_MEAN>, number: u64, count: u32)
    requires room { length out.old + count ≤ 128 }
    ensures { out.new ≡ out.old ++ last_digits 10 false count number }
{
    if count > 0 {
        push_last(out, number / 10, count - 1);
        out.push(b'0' + (number % 10) as u8);
    }
}

/// Appends `-` if a number is negative.
fn push_sign(out: &mut TextBuffer<MAX_MEAN>, is_negative: bool)
    requires room { length out.old < 128 }
    ensures { out.new ≡ out.old ++ sign_text is_negative }
{
    if is_negative {
        out.push(b'-');
    }
}

/// Appends a point and the last `count` digits of a number, or nothing if `count` is 0.
fn push_fraction(out: &mut TextBuffer<MAX_MEAN>, number: u64, count: u32)
    requires room { length out.old + count < 128 }
    ensures { out.new ≡ out.old ++ fraction_part 10 false count number }
{
    if count > 0 {
        out.push(b'.');
        push_last(out, number, count);
    }
}

/// Returns the text of a number in decimal.
fn six_text(is_negative: bool, value: SixDigits) -> TextBuffer<MAX_MEAN>
    requires { value.places ≤ 90 }
    ensures { IsDigitsText is_negative value result }
{
    let (number, places) = trimmed(value.number, value.places);
    let mut text: TextBuffer<MAX_MEAN> = TextBuffer::new();
    push_sign(&mut text, is_negative);
    let mut digits = Buffer::new();
    text.push_bytes(digits.format(whole_of(number, places)).as_bytes());
    push_fraction(&mut text, number, places);
    text
}

/// The texts of the mean error, and of the root of the mean of the errors' squares.
#[derive(Drop)]
pub struct MeanTexts {
    pub mean: TextBuffer<MAX_MEAN>,
    pub root: TextBuffer<MAX_MEAN>,
}

impl ErrorReport {
    /// Returns the texts of the means of `means`, in decimal without zeros at the end.
    pub fn mean_texts(&self) -> Option<MeanTexts>
        ensures known { IfSome result (λ _. self.now.lost ≡ None) }
        ensures few { IfSome result (λ _. self.now.sums.count < 2 ^ 64 - 1) }
        ensures texts { IfSome result (λ t. AreMeanTexts self.now.sums (cut_parts self.now.radix) t.mean t.root) }
        ensures none { IfNone result (IsSome self.now.lost
            ⊎ ((self.now.sums.count ≡ 0) ⊎ (self.now.sums.count ≡ 2 ^ 64 - 1))) }
    {
        match self.means() {
            Some((mean, root)) => Some(MeanTexts {
                mean: six_text(mean.is_negative, mean.size),
                root: six_text(false, root),
            }),
            None => None,
        }
    }

    /// Returns the place of the numeral with the greatest error, its error, and the same in ulps, as `show` writes
    /// them. `None`: no numeral was in range, or it was lost.
    pub fn greatest<L: Ledger>(&self, steps: &mut Steps<L>) -> Option<(u64, ErrorTexts)>
        ensures kept { IfSome result (λ found. self.now.greatest.is_some ≡ true) }
        ensures known { IfSome result (λ found. self.now.lost ≡ None) }
        ensures place { IfSome result (λ found. found.0 ≡ self.now.greatest.place) }
        ensures texts { IfSome result (λ found. AreShownErrors self.now.mode self.now.radix
            self.now.greatest.numeral.items self.now.format Checked found.1.error found.1.ulps) }
        ensures none { IfNone result (IsSome self.now.lost ⊎ ((self.now.greatest.is_some ≡ false)
            ⊎ HasNoBits self.now.mode self.now.radix self.now.greatest.numeral.items self.now.format Checked)) }
    {
        if self.lost.is_some() {
            return None;
        }
        if !self.greatest.is_some() {
            return None;
        }
        let numeral = self.greatest.numeral();
        match error_texts(
            numeral,
            self.radix,
            self.format,
            Policy::Checked,
            self.mode,
            steps,
        ) {
            Some(said) => Some((self.greatest.place(), said)),
            None => None,
        }
    }

    /// Returns the place of the numeral with the greatest error, after a name for places of at most 8 bytes, its error,
    /// and the same in ulps, as `show` writes them. `None`: no numeral was in range, or it was lost.
    pub fn text<L: Ledger>(
        &self,
        name: &[u8],
        steps: &mut Steps<L>,
    ) -> Option<TextBuffer<MAX_GREATEST>>
        requires name { length name.now ≤ 8 }
        ensures kept { IfSome result (λ text. self.now.greatest.is_some ≡ true) }
        ensures known { IfSome result (λ text. self.now.lost ≡ None) }
        ensures text { IfSome result (λ text. IsGreatestText self.now.mode self.now.radix self.now.format name.now
            self.now.greatest.place self.now.greatest.numeral.items text) }
        ensures none { IfNone result (IsSome self.now.lost ⊎ ((self.now.greatest.is_some ≡ false)
            ⊎ HasNoBits self.now.mode self.now.radix self.now.greatest.numeral.items self.now.format Checked)) }
    {
        match self.greatest(steps) {
            Some((place, said)) => {
                let mut text: TextBuffer<MAX_GREATEST> = TextBuffer::new();
                push_greatest(&mut text, name, place, &said);
                Some(text)
            }
            None => None,
        }
    }
}
