//! Lists as people write them, answered by another rule.

ghost use Rattle.std.specs.Prelude.{◌≡◌, ◌++◌, ◌∷◌, ◌≤◌, [], IfOk, OnOk, Some, length};
ghost use Rattle.fixed_command.specs.LaidList.{laid_out, numeral_of};

use crate::layout::Layout;
use fixed_steps::Steps;
use line_engine::{MAX_LIMIT, NoMemory, WholeAnswer, WholeRule, first_line};
use std::alloc::{AllocError, Global};
use std::sync::ledger::Ledger;

/// The rule that answers a list as people write it like the list of its numerals.
#[derive(Clone, Copy)]
pub struct LaidOutList<'r, R> {
    /// The rule for a list of numerals.
    pub rule: &'r R,
    /// What a line has besides its numeral.
    pub layout: &'r Layout,
}

impl Layout {
    /// Returns the numeral of a line of a list. A skipped line counts as `0`, which each format holds exactly, so that
    /// the other lines keep their numbers.
    #[inline(always)]
    pub fn numeral_in_list<'l>(&self, line: &'l [u8]) -> &'l [u8]
        ensures { result.now ≡ numeral_of self.now line.now }
    {
        if self.is_skipped(line) {
            b"0".as_slice()
        } else {
            self.without_blanks(line)
        }
    }
}

/// Appends a line and its newline.
fn push_line(list: &mut Vec<u8>, line: &[u8]) -> Result<(), AllocError>
    ensures { OnOk result (list.new.items ≡ list.old.items ++ (line.now ++ 10 ∷ [])) }
{
    list.extend_from_slice(line)?;
    list.push(b'\n')?;
    Ok(())
}

/// Returns the list of the numerals of a text's lines.
fn list_of(alloc: Global, layout: &Layout, text: &[u8]) -> Result<Vec<u8>, AllocError>
    ensures { IfOk result (λ list. list.items ≡ laid_out (Some layout.now) text.now) }
{
    let mut list = Vec::new(alloc);
    let mut rest = text;
    while !rest.is_empty() {
        let (line, after) = first_line(rest);
        push_line(&mut list, layout.numeral_in_list(line))?;
        rest = after;
    }
    Ok(list)
}

impl<'r, R: WholeRule<L>, L: Ledger> WholeRule<L> for LaidOutList<'r, R> {
    ghost use Rattle.std.specs.Prelude.{Some};
    ghost use Rattle.fixed_command.specs.LaidList.{laid_out};

    ghost Answers = { λ laid input. R.Answers laid.rule.now (laid_out (Some laid.layout.now) input) };

    /// A list that becomes longer than 4,294,967,296 bytes has no memory.
    fn answer(
        &self,
        alloc: Global,
        input: &[u8],
        steps: &mut Steps<L>,
    ) -> Result<WholeAnswer, NoMemory> {
        let list = match list_of(alloc, self.layout, input) {
            Ok(list) => list,
            Err(_) => return Err(NoMemory),
        };
        if list.len() as u64 > MAX_LIMIT {
            return Err(NoMemory);
        }
        self.rule.answer(alloc, &list, steps)
    }

    ghost one_law = { λ laid input. R.one_law laid.rule.now (laid_out (Some laid.layout.now) input) };
}
