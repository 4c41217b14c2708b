//! Inputs with another byte than a point before fractions.

ghost use Rattle.std.specs.Prelude.{◌≡◌, IfOk, length, map};
ghost use Rattle.fixed_command.specs.Fields.{swapped};
ghost use Rattle.fixed_command.specs.Swapped.{IsSwappedAnswer};

use crate::field::swapped;
use fixed_steps::Steps;
use line_engine::{NoMemory, WholeAnswer, WholeRule};
use std::alloc::{AllocError, Global};
use std::sync::ledger::Ledger;

/// Returns bytes with the decimal separator and the point in each other's places.
fn swapped_bytes(alloc: Global, decimal: u8, bytes: &[u8]) -> Result<Vec<u8>, AllocError>
    ensures bytes { IfOk result (λ read. read.items ≡ map (swapped decimal) bytes.now) }
    ensures length { IfOk result (λ read. length read.items ≡ length bytes.now) }
{
    let mut read = Vec::new(alloc);
    for byte in bytes {
        read.push(swapped(decimal, *byte))?;
    }
    Ok(read)
}

/// The rule that answers an input as another rule answers it with the decimal separator and the point in each other's
/// places.
#[derive(Clone, Copy)]
pub struct SwappedRule<R> {
    /// The other rule.
    pub rule: R,
    /// The byte before a fraction.
    pub decimal: u8,
}

impl<R: WholeRule<L>, L: Ledger> WholeRule<L> for SwappedRule<R> {
    ghost Answers = { λ swapped. IsSwappedAnswer swapped.decimal (R.Answers swapped.rule) };

    fn answer(
        &self,
        alloc: Global,
        input: &[u8],
        steps: &mut Steps<L>,
    ) -> Result<WholeAnswer, NoMemory> {
        match swapped_bytes(alloc, self.decimal, input) {
            Ok(read) => self.rule.answer(alloc, &read, steps),
            Err(_) => Err(NoMemory),
        }
    }

    ghost one_law = { λ swap input. R.one_law swap.rule (map (swapped swap.decimal) input) };
}
