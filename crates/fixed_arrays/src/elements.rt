//! Reads the elements of an array from the lines of a list of numerals.

ghost use Rattle.std.specs.Prelude.{◌≡◌, ◌<◌, ◌+◌, ◌^◌, IfErr, IfOk, OnOk, option_map};
ghost use Rattle.fixed_bits.specs.Formats.{IsFormat};
ghost use Rattle.fixed_bits.specs.Ranges.{IsInRange, IsWide};
ghost use Rattle.line_engine.specs.Lines.{lines};
ghost use Rattle.fixed_arrays.specs.Answer.{IsElement, IsRefusedElement, numeral_in, numerals_in, without_return};
ghost use Rattle.fixed_arrays.specs.Inner.Elements.{HasElements, HasError, PushesElement, PushesLine, RefusesElement};
ghost use Rattle.fixed_arrays.specs.Inner.Elements.{RefusesLine};

use crate::fault::ArrayFault;
use crate::rule::{ArrayRule, Numerals};
use crate::text::{frame_of, push_element};
use fixed_command::Layout;
use fixed_numeral::ParseFixedError;
use fixed_show::read_shown;
use fixed_steps::Steps;
use line_engine::first_line;
use std::alloc::Global;
use std::sync::ledger::Ledger;

/// The lines of the elements so far.
#[derive(Drop)]
pub struct Elements {
    /// Their text.
    pub text: Vec<u8>,
    /// The number of elements.
    pub count: u64,
    /// The number of lines with a number or without one that were read for them.
    pub lines: u64,
}

/// Returns the line of a numeral, without blanks if the layout says so. `None`: the line is skipped.
fn numeral_in<'l>(layout: &Option<Layout>, line: &'l [u8]) -> Option<&'l [u8]>
    ensures { option_map (λ numeral. numeral.now) result ≡ numeral_in layout.now line.now }
{
    match layout {
        None => Some(line),
        Some(layout) => {
            if layout.is_skipped(line) {
                None
            } else {
                Some(layout.without_blanks(line))
            }
        }
    }
}

/// Returns a line without one carriage return at its end.
fn without_return(line: &[u8]) -> &[u8]
    ensures { result.now ≡ without_return line.now }
{
    match line {
        [rest @ .., b'\r'] => rest,
        _ => line,
    }
}

/// Returns the bits of the numeral of a line.
///
/// # Errors
///
/// A refused line, with the kind of its cause.
fn element_of<L: Ledger>(
    numerals: &Numerals,
    line: &[u8],
    steps: &mut Steps<L>,
) -> Result<i128, ParseFixedError>
    ensures element { IfOk result (λ bits. IsElement numerals.now line.now bits) }
    ensures range { IfOk result (IsInRange numerals.now.format.signed numerals.now.format.width) }
    ensures wide { IfOk result IsWide }
    ensures refused { IfErr result (λ kind. IsRefusedElement numerals.now line.now kind) }
{
    let n = numerals;
    match read_shown(
        without_return(line),
        n.radix,
        n.format,
        n.policy,
        n.mode,
        steps,
    ) {
        Ok(found) => Ok(found.bits),
        Err(error) => Err(error),
    }
}

impl Elements {
    /// Appends the element of the next line, which has a numeral.
    fn push<L: Ledger>(
        &mut self,
        rule: &ArrayRule<'_>,
        line: &[u8],
        steps: &mut Steps<L>,
    ) -> Result<(), ArrayFault>
        requires count { self.old.count + 1 < 2 ^ 64 }
        requires lines { self.old.lines + 1 < 2 ^ 64 }
        ensures ok { OnOk result (PushesElement rule.now line.now self.old self.new) }
        ensures err { IfErr result (RefusesElement rule.now.numerals line.now (self.old.lines + 1)) }
    {
        let place = self.lines + 1;
        match element_of(&rule.numerals, line, steps) {
            Ok(bits) => {
                let frame = frame_of(rule);
                let text = &mut self.text;
                if push_element(text, &frame, self.count, b"", bits, steps).is_err() {
                    return Err(ArrayFault::NoMemory);
                }
            }
            Err(error) => return Err(ArrayFault::Refused { place, error }),
        }
        self.count += 1;
        self.lines = place;
        Ok(())
    }

    /// Appends the element of the next line, unless it is skipped.
    fn push_line<L: Ledger>(
        &mut self,
        rule: &ArrayRule<'_>,
        line: &[u8],
        steps: &mut Steps<L>,
    ) -> Result<(), ArrayFault>
        requires count { self.old.count + 1 < 2 ^ 64 }
        requires lines { self.old.lines + 1 < 2 ^ 64 }
        ensures ok { OnOk result (PushesLine rule.now (numeral_in rule.now.layout.now line.now) self.old self.new) }
        ensures err { IfErr result (RefusesLine rule.now.numerals (numeral_in rule.now.layout.now line.now)
            (self.old.lines + 1)) }
    {
        match numeral_in(rule.layout, line) {
            Some(numeral) => self.push(rule, numeral, steps),
            None => {
                self.lines += 1;
                Ok(())
            }
        }
    }
}

/// Returns the elements of the lines of an input.
///
/// # Errors
///
/// The first refused line, an input without a numeral, or no memory.
pub fn read_elements<L: Ledger>(
    alloc: Global,
    rule: &ArrayRule<'_>,
    input: &[u8],
    steps: &mut Steps<L>,
) -> Result<Elements, ArrayFault>
    ensures ok { IfOk result (HasElements rule.now (numerals_in rule.now.layout.now (lines input.now))) }
    ensures some { IfOk result (λ elements. 0 < elements.count) }
    ensures err { IfErr result (HasError rule.now.numerals (numerals_in rule.now.layout.now (lines input.now))) }
    ensures format { IsFormat rule.now.numerals.format.width rule.now.numerals.format.frac }
{
    let width = rule.numerals.format.width();
    prove!(width <= 64);
    let mut elements = Elements {
        text: Vec::new(alloc),
        count: 0,
        lines: 0,
    };
    let mut rest = input;
    while !rest.is_empty() {
        let (line, after) = first_line(rest);
        match elements.push_line(rule, line, steps) {
            Ok(()) => rest = after,
            Err(fault) => return Err(fault),
        }
    }
    if elements.count == 0 {
        return Err(ArrayFault::Empty);
    }
    Ok(elements)
}
