//! The text of a list's greatest error in the chosen format.

ghost use Rattle.std.specs.Prelude.{◌≡◌, ◌≤◌, ◌<◌, ◌+◌, ◌++◌, length};
ghost use Rattle.fixed_show.specs.Blocks.{Appends};
ghost use Rattle.fixed_fit.specs.ErrorWord.{IsSizeText, half_ulp, without_minus};
ghost use Rattle.fixed_fit.specs.Fitting.{Fits};

use fixed_bits::{Format, Policy, ReadMode};
use fixed_error::GreatestError;
use fixed_numeral::Radix;
use fixed_show::push_error_of;
use fixed_steps::Steps;
use std::sync::ledger::Ledger;
use text_buffer::TextBuffer;

/// The greatest length of an error's text in bytes.
const MOST_ERROR: usize = 1380;

/// Returns a text without a leading minus.
fn without_minus(text: &[u8]) -> &[u8]
    ensures { result.now ≡ without_minus text.now }
{
    match text {
        [b'-', rest @ ..] => rest,
        _ => text,
    }
}

/// Appends the size of the error that a numeral has in a format.
pub fn push_size<const N: usize, L: Ledger>(
    out: &mut TextBuffer<N>,
    numeral: &[u8],
    radix: Radix,
    format: Format,
    steps: &mut Steps<L>,
)
    requires fits { Fits radix format.signed format.width format.frac numeral.now }
    requires room { length out.old + 1380 ≤ N }
    ensures size { Appends (IsSizeText radix format numeral.now) 1380 out.old out.new }
    ensures short { length out.new ≤ length out.old + 1380 }
{
    let mut text: TextBuffer<MOST_ERROR> = TextBuffer::new();
    let _is_read = push_error_of(
        numeral,
        radix,
        format,
        Policy::Checked,
        ReadMode::NearestEven,
        &mut text,
        steps,
    );
    out.push_bytes(without_minus(text.as_bytes()));
}

/// Returns half an ulp of 2^-`frac` as a numeral of radix 2.
fn half_ulp(frac: u32) -> TextBuffer<67>
    requires { frac ≤ 64 }
    ensures { result ≡ half_ulp frac }
{
    let mut text: TextBuffer<67> = TextBuffer::new();
    text.push_bytes(b"0.");
    let mut place = 0;
    while place < frac {
        text.push(b'0');
        place += 1;
    }
    text.push(b'1');
    text
}

/// Appends the size of half an ulp of a format.
pub fn push_half<const N: usize, L: Ledger>(
    out: &mut TextBuffer<N>,
    format: Format,
    steps: &mut Steps<L>,
)
    requires room { length out.old + 1380 ≤ N }
    ensures size { Appends (IsSizeText Radix.Bin format (half_ulp format.frac)) 1380 out.old out.new }
    ensures short { length out.new ≤ length out.old + 1380 }
{
    push_size(
        out,
        half_ulp(format.frac()).as_bytes(),
        Radix::Bin,
        format,
        steps,
    );
}
