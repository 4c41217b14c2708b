//! The calls of lower crates that count their steps, each with its own counter.

ghost use Rattle.std.specs.Prelude.{◌≡◌, ◌<◌, ◌≤◌, IfErr, IfOk, MatchResult, drop, length};
ghost use Rattle.fixed_bits.specs.Ranges.{IsWide};
ghost use Rattle.fixed_c.specs.Respell.{IsNotReached};
ghost use Rattle.fixed_numeral.specs.Answer.{IsReadOrRefused};
ghost use Rattle.fixed_numeral.specs.Cause.{HasCause};
ghost use Rattle.fixed_numeral.specs.Leading.{HasNoLeading, IsLeadingNumeral};
ghost use Rattle.fixed_enclose.specs.Enclosure.{IsEnclosed, IsRefusal};
ghost use Rattle.fixed_read.specs.Reading.{IsReading};
ghost use Rattle.fixed_respell.specs.Answer.{IsAnswer};
ghost use Rattle.fixed_respell.specs.Reached.{IsRespelled, is_signed, number_of};
ghost use Rattle.fixed_write.specs.Texts.{IsShortestText};

use fixed_bits::{Format, Policy, ReadMode};
use fixed_enclose::{Enclosure, enclose};
use fixed_numeral::{ParseFixedError, Radix, leading_numeral};
use fixed_read::{ReadNumber, read_ending};
use fixed_respell::{Answer, Respelled, answer, respell_mode};
use fixed_steps::Steps;
use fixed_write::{ShortText, shortest};
use std::marker::Brand;
use std::sync::ledger::{Blank, Ledger};

/// `leading_numeral` over a ledger that no other counter uses.
fn leading_over<L: Ledger>(
    text: &[u8],
    radix: Radix,
    blank: Blank,
) -> Result<usize, ParseFixedError>
    requires name { blank.name ≡ L.name }
    requires parts { blank.parts ≡ L.parts }
    requires backed { 0 < blank.parts }
    ensures { MatchResult result
        (IsLeadingNumeral radix text.now)
        (λ kind. HasNoLeading radix text.now × HasCause radix text.now kind) }
{
    leading_numeral(text, radix, &mut Steps::<L>::new(blank))
}

/// `leading_numeral` with its own counter.
pub fn leading_uncounted(text: &[u8], radix: Radix) -> Result<usize, ParseFixedError>
    ensures { MatchResult result
        (IsLeadingNumeral radix text.now)
        (λ kind. HasNoLeading radix text.now × HasCause radix text.now kind) }
{
    leading_over::<Brand>(text, radix, Blank::new(1))
}

/// `read_ending` over a ledger that no other counter uses.
fn ending_over<L: Ledger>(
    text: &[u8],
    from: usize,
    radix: Radix,
    format: Format,
    mode: ReadMode,
    blank: Blank,
) -> Result<ReadNumber, ParseFixedError>
    requires name { blank.name ≡ L.name }
    requires parts { blank.parts ≡ L.parts }
    requires backed { 0 < blank.parts }
    requires place { from ≤ length text.now }
    ensures reading { IsReadOrRefused radix (drop from text.now) (IsReading mode radix) result }
    ensures format { IfOk result (λ found. found.format ≡ format) }
{
    read_ending(text, from, radix, format, mode, &mut Steps::<L>::new(blank))
}

/// `read_ending` with its own counter.
pub fn ending_uncounted(
    text: &[u8],
    from: usize,
    radix: Radix,
    format: Format,
    mode: ReadMode,
) -> Result<ReadNumber, ParseFixedError>
    requires place { from ≤ length text.now }
    ensures reading { IsReadOrRefused radix (drop from text.now) (IsReading mode radix) result }
    ensures format { IfOk result (λ found. found.format ≡ format) }
{
    ending_over::<Brand>(text, from, radix, format, mode, Blank::new(1))
}

/// `enclose` over a ledger that no other counter uses.
fn enclose_over<L: Ledger>(
    text: &[u8],
    radix: Radix,
    format: Format,
    blank: Blank,
) -> Result<Enclosure, ParseFixedError>
    requires name { blank.name ≡ L.name }
    requires parts { blank.parts ≡ L.parts }
    requires backed { 0 < blank.parts }
    ensures pair { IfOk result (λ e. IsEnclosed radix text.now format e.lo e.hi) }
    ensures refused { IfErr result (λ kind. IsRefusal radix text.now format kind) }
{
    enclose(text, radix, format, &mut Steps::<L>::new(blank))
}

/// `enclose` with its own counter.
pub fn enclose_uncounted(
    text: &[u8],
    radix: Radix,
    format: Format,
) -> Result<Enclosure, ParseFixedError>
    ensures pair { IfOk result (λ e. IsEnclosed radix text.now format e.lo e.hi) }
    ensures refused { IfErr result (λ kind. IsRefusal radix text.now format kind) }
{
    enclose_over::<Brand>(text, radix, format, Blank::new(1))
}

/// `respell_mode` over a ledger that no other counter uses.
fn respell_over<L: Ledger>(
    text: &[u8],
    radix: Radix,
    source: Format,
    target: Format,
    policy: Policy,
    mode: ReadMode,
    blank: Blank,
) -> Result<Respelled, ParseFixedError>
    requires name { blank.name ≡ L.name }
    requires parts { blank.parts ≡ L.parts }
    requires backed { 0 < blank.parts }
    ensures reached { IfOk result
        (λ s. IsRespelled mode radix text.now policy source target (number_of s.bits) s.overflowed) }
    ensures sign { IfOk result (λ s. is_signed s.bits ≡ target.signed) }
    ensures refused { IfErr result (λ kind. IsNotReached text.now source target kind radix policy mode) }
{
    let mut steps = Steps::<L>::new(blank);
    respell_mode(text, radix, source, target, policy, mode, &mut steps)
}

/// `respell_mode` with its own counter.
pub fn respell_uncounted(
    text: &[u8],
    radix: Radix,
    source: Format,
    target: Format,
    policy: Policy,
    mode: ReadMode,
) -> Result<Respelled, ParseFixedError>
    ensures reached { IfOk result
        (λ s. IsRespelled mode radix text.now policy source target (number_of s.bits) s.overflowed) }
    ensures sign { IfOk result (λ s. is_signed s.bits ≡ target.signed) }
    ensures refused { IfErr result (λ kind. IsNotReached text.now source target kind radix policy mode) }
{
    respell_over::<Brand>(text, radix, source, target, policy, mode, Blank::new(1))
}

/// `shortest` over a ledger that no other counter uses.
fn shortest_over<L: Ledger>(value: i128, frac: u32, blank: Blank) -> ShortText
    requires name { blank.name ≡ L.name }
    requires parts { blank.parts ≡ L.parts }
    requires backed { 0 < blank.parts }
    requires wide { IsWide value }
    requires frac { frac ≤ 64 }
    ensures { IsShortestText value frac result }
{
    shortest(value, frac, &mut Steps::<L>::new(blank))
}

/// `shortest` with its own counter.
pub fn shortest_uncounted(value: i128, frac: u32) -> ShortText
    requires wide { IsWide value }
    requires frac { frac ≤ 64 }
    ensures { IsShortestText value frac result }
{
    shortest_over::<Brand>(value, frac, Blank::new(1))
}

/// `answer` over a ledger that no other counter uses.
fn answer_over<L: Ledger>(line: &[u8], blank: Blank) -> Answer
    requires name { blank.name ≡ L.name }
    requires parts { blank.parts ≡ L.parts }
    requires backed { 0 < blank.parts }
    ensures { IsAnswer line.now result }
{
    answer(line, &mut Steps::<L>::new(blank))
}

/// `answer` with its own counter.
pub fn answer_uncounted(line: &[u8]) -> Answer
    ensures { IsAnswer line.now result }
{
    answer_over::<Brand>(line, Blank::new(1))
}
