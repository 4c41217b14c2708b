//! Describes a format.
//!
//! Surviving digits are counted as whole digits and as places after the point. A count of significant digits has no
//! meaning near zero, where a format holds only a few.

ghost use Rattle.std.specs.Prelude.{◌≡◌, ◌+◌, ◌≤◌, ◌<◌, ◌^◌, ◌++◌, pos, length, codes, ◌≤ℤ◌};
ghost use Rattle.fixed_bits.specs.Ranges.{IsWide};
ghost use Rattle.fixed_write.specs.Texts.{IsShortestText, shortest_text};
ghost use Rattle.fixed_show.specs.Blocks.{Appends, line};
ghost use Rattle.fixed_show.specs.FormatBlock.{AreFormatFacts, ArePlaces, AreWholeDigits, IsFormatBlock};
ghost use Rattle.fixed_show.specs.FormatBlock.{IsFormatObject, digits_facts, digits_text, ends_facts};

use crate::form::Form;
use crate::json::{MAX_OBJECT, push_given};
use crate::lines::{
    MAX_BLOCK, frac_of, greatest_of, lowest_of, push_exact_fact, push_fact, push_integer_fact,
    push_shortest_fact,
};
use crate::tool_names::push_names;
use fixed_bits::Format;
use fixed_respell::format_name;
use fixed_steps::Steps;
use fixed_write::{push_integer, push_shortest};
use std::sync::ledger::Ledger;
use text_buffer::TextBuffer;

/// Returns the greatest exponent of a power of ten that is not above a number.
fn decimal_log(number: u128, most: u32) -> u32
    requires some { 0 < number }
    requires below { number < 10 ^ (most + 1) }
    requires most { most ≤ 20 }
    ensures not_above { 10 ^ result ≤ number }
    ensures greatest { number < 10 ^ (result + 1) }
    ensures most { result ≤ most }
{
    if number < 10 {
        0
    } else {
        1 + decimal_log(number / 10, most - 1)
    }
}

/// How many digits after the point survive reading and printing in ulps of 2^-`frac`.
pub(crate) fn places_of(frac: u32) -> u32
    requires { frac ≤ 64 }
    ensures places { ArePlaces frac result }
    ensures small { result ≤ 20 }
{
    decimal_log(1 << frac, 20)
}

/// The greatest `n` for which every whole number of `n` digits is in a range up to `top` ulps of 2^-`frac`.
fn whole_digits_of(top: i128, frac: u32) -> u32
    requires frac { frac ≤ 64 }
    requires low { pos 0 ≤ℤ top }
    requires high { top ≤ℤ pos (2 ^ 64) }
    ensures whole { AreWholeDigits top frac result }
    ensures small { result ≤ 20 }
{
    decimal_log(((top as u128) >> frac) + 1, 20)
}

/// Appends the line that says how many digits survive.
fn push_digits_line<const N: usize>(out: &mut TextBuffer<N>, whole: u32, places: u32)
    requires whole { whole ≤ 20 }
    requires places { places ≤ 20 }
    requires room { length out.old + 81 ≤ N }
    ensures appended { out.new ≡ out.old ++ line (codes "digits    ") (digits_text whole places) }
    ensures short { length out.new ≤ length out.old + 81 }
{
    out.push_bytes(b"digits    ");
    push_integer(out, i128::from(whole));
    out.push_bytes(b" before the point, ");
    push_integer(out, i128::from(places));
    out.push_bytes(b" after it");
    out.push(b'\n');
}

/// Appends the line with the shortest texts of two numbers of ulps of 2^-`frac`.
fn push_shortest_ends<const N: usize, L: Ledger>(
    out: &mut TextBuffer<N>,
    low: i128,
    high: i128,
    frac: u32,
    steps: &mut Steps<L>,
)
    requires low { IsWide low }
    requires high { IsWide high }
    requires frac { frac ≤ 64 }
    requires room { length out.old + 120 ≤ N }
    ensures appended { out.new ≡ out.old ++ line (codes "shortest  ")
        (shortest_text low frac ++ (codes " to " ++ shortest_text high frac)) }
    ensures low { IsShortestText low frac (shortest_text low frac) }
    ensures high { IsShortestText high frac (shortest_text high frac) }
    ensures short { length out.new ≤ length out.old + 120 }
    ensures cost { steps.new ≤ steps.old + 96 }
{
    out.push_bytes(b"shortest  ");
    push_shortest(out, low, frac, steps);
    out.push_bytes(b" to ");
    push_shortest(out, high, frac, steps);
    out.push(b'\n');
}

/// Appends how many digits survive.
fn push_digits<const N: usize>(out: &mut TextBuffer<N>, form: Form, whole: u32, places: u32)
    requires whole { whole ≤ 20 }
    requires places { places ≤ 20 }
    requires room { length out.old + 81 ≤ N }
    ensures appended { out.new ≡ out.old ++ digits_facts form whole places }
    ensures short { length out.new ≤ length out.old + 81 }
{
    match form {
        Form::Lines => push_digits_line(out, whole, places),
        Form::Members => {
            push_integer_fact(out, Form::Members, b"whole", i128::from(whole));
            push_integer_fact(out, Form::Members, b"places", i128::from(places));
        }
    }
}

/// Appends the shortest texts of two numbers of ulps of 2^-`frac`.
fn push_ends<const N: usize, L: Ledger>(
    out: &mut TextBuffer<N>,
    form: Form,
    low: i128,
    high: i128,
    frac: u32,
    steps: &mut Steps<L>,
)
    requires low { IsWide low }
    requires high { IsWide high }
    requires frac { frac ≤ 64 }
    requires room { length out.old + 128 ≤ N }
    ensures appended { out.new ≡ out.old ++ ends_facts form (shortest_text low frac) (shortest_text high frac) }
    ensures low { IsShortestText low frac (shortest_text low frac) }
    ensures high { IsShortestText high frac (shortest_text high frac) }
    ensures short { length out.new ≤ length out.old + 128 }
    ensures cost { steps.new ≤ steps.old + 96 }
{
    match form {
        Form::Lines => push_shortest_ends(out, low, high, frac, steps),
        Form::Members => {
            push_shortest_fact(out, Form::Members, b"low", low, frac, steps);
            push_shortest_fact(out, Form::Members, b"high", high, frac, steps);
        }
    }
}

/// Appends the facts of a format.
fn push_format_facts<const N: usize, L: Ledger>(
    out: &mut TextBuffer<N>,
    form: Form,
    format: Format,
    steps: &mut Steps<L>,
)
    requires room { length out.old + 1200 ≤ N }
    ensures facts { Appends (AreFormatFacts form format) 1200 out.old out.new }
    ensures cost { steps.new ≤ steps.old + 96 }
{
    let frac = frac_of(format);
    let low = lowest_of(format);
    let high = greatest_of(format);
    push_fact(out, form, b"format", format_name(format).as_bytes());
    push_exact_fact(out, form, b"least", low, frac);
    push_exact_fact(out, form, b"greatest", high, frac);
    push_exact_fact(out, form, b"ulp", 1, frac);
    push_digits(out, form, whole_digits_of(high, frac), places_of(frac));
    push_ends(out, form, low, high, frac, steps);
    push_names(out, form, format);
}

/// Appends the block of a format: its name, its least and greatest value and its ulp exactly, how many decimal digits
/// always survive reading and printing, the shortest texts of the two ends, and its names in other tools. There must be
/// room for `MAX_BLOCK` bytes. It takes at most 96 steps.
pub fn format_block<const N: usize, L: Ledger>(
    format: Format,
    out: &mut TextBuffer<N>,
    steps: &mut Steps<L>,
)
    requires room { length out.old + MAX_BLOCK ≤ N }
    ensures block { Appends (IsFormatBlock format) MAX_BLOCK out.old out.new }
    ensures cost { steps.new ≤ steps.old + 96 }
{
    push_format_facts(out, Form::Lines, format, steps);
}

/// Appends the same as a JSON object of at most `MAX_OBJECT` bytes. Its first member, `given`, has the first 768 bytes
/// of a word that names the format.
pub fn format_object<const N: usize, L: Ledger>(
    word: &[u8],
    format: Format,
    out: &mut TextBuffer<N>,
    steps: &mut Steps<L>,
)
    requires room { length out.old + MAX_OBJECT ≤ N }
    ensures object { Appends (IsFormatObject word.now format) MAX_OBJECT out.old out.new }
    ensures cost { steps.new ≤ steps.old + 96 }
{
    push_given(out, word);
    push_format_facts(out, Form::Members, format, steps);
    out.push(b'}');
}
