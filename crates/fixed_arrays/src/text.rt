//! Writes the text of a list of numbers.

ghost use Rattle.std.specs.Prelude.{◌≡◌, ◌++◌, IfOk, OnOk, pos};
ghost use Rattle.fixed_bits.specs.Ranges.{IsInRange, IsWide};
ghost use Rattle.fixed_arrays.specs.Answer.{frame_of};
ghost use Rattle.fixed_arrays.specs.Table.{around, element_line, head, tail};
ghost use Rattle.fixed_arrays.specs.Slots.{parts_of};

use crate::elements::Elements;
use crate::form::ArrayForm;
use crate::rule::ArrayRule;
use crate::slots::{Filling, push_filled};
use crate::table::{closing_of, element_of, opening_of};
use fixed_bits::Format;
use fixed_steps::Steps;
use std::alloc::{AllocError, Global};
use std::sync::ledger::Ledger;

/// The form of a list, and what its numbers have in common.
#[derive(Clone, Copy)]
pub struct Frame<'a> {
    /// Its form.
    pub form: ArrayForm,
    /// Its name.
    pub name: &'a [u8],
    /// The name that guards a C header.
    pub guard: &'a [u8],
    /// The format of its numbers.
    pub format: Format,
}

/// Returns the frame of a list by a rule.
pub fn frame_of<'a>(rule: &ArrayRule<'a>) -> Frame<'a>
    ensures { result ≡ frame_of rule.now }
{
    Frame {
        form: rule.form,
        name: rule.name,
        guard: rule.guard,
        format: rule.numerals.format,
    }
}

/// Appends the line of a number with this index in its list; `label` is its name, or empty.
pub fn push_element<L: Ledger>(
    text: &mut Vec<u8>,
    frame: &Frame<'_>,
    index: u64,
    label: &[u8],
    bits: i128,
    steps: &mut Steps<L>,
) -> Result<(), AllocError>
    requires range { IsInRange frame.now.format.signed frame.now.format.width bits }
    requires wide { IsWide bits }
    ensures { OnOk result (text.new.items ≡ text.old.items ++ element_line frame.now index label.now bits) }
{
    let filling = Filling {
        name: frame.name,
        guard: frame.guard,
        format: frame.format,
        count: 0,
        label,
        index,
        bits,
    };
    push_filled(text, &filling, element_of(frame.form), steps)
}

/// Returns the contents of the slots around `count` numbers.
fn around<'a>(frame: &Frame<'a>, count: u64) -> Filling<'a>
    ensures parts { parts_of result ≡ around frame.now count }
    ensures bits { result.bits ≡ pos 0 }
{
    Filling {
        name: frame.name,
        guard: frame.guard,
        format: frame.format,
        count,
        label: b"",
        index: 0,
        bits: 0,
    }
}

/// Returns the list of these elements.
pub fn array_text<L: Ledger>(
    alloc: Global,
    frame: &Frame<'_>,
    elements: &Elements,
    steps: &mut Steps<L>,
) -> Result<Vec<u8>, AllocError>
    ensures { IfOk result (λ text. text.items ≡ head frame.now elements.now.count
        ++ (elements.now.text.items ++ tail frame.now elements.now.count)) }
{
    let filling = around(frame, elements.count);
    let mut text = Vec::new(alloc);
    push_filled(&mut text, &filling, opening_of(frame.form), steps)?;
    text.extend_from_slice(&elements.text)?;
    push_filled(&mut text, &filling, closing_of(frame.form), steps)?;
    Ok(text)
}
