//! Lines as people write them, packed: with blanks around a numeral, blank lines, and comments.

use crate::pack_rule::Pack;
use fixed_command::Layout;
use fixed_steps::Steps;
use line_engine::Output;
use std::sync::ledger::Ledger;

/// A rule that packs a line without blanks by another rule. A skipped line is packed into no bytes.
#[derive(Clone, Copy)]
pub struct LaidOutPack<'r, R> {
    /// The rule for a line without blanks.
    pub rule: &'r R,
    /// What a line has besides its numeral.
    pub layout: &'r Layout,
}

impl<'r, R: Pack> Pack for LaidOutPack<'r, R> {
    ghost use Rattle.fixed_pack.specs.LaidOut.{PacksLaidOut, RefusesLaidOut};
    ghost use Rattle.fixed_pack.specs.Lemmas.LaidOutLaws.{laid_out_cause, laid_out_never, laid_out_one};

    type Cause = R::Cause;

    ghost Packs = { λ laid. PacksLaidOut laid.layout.now (R.Packs laid.rule.now) };

    ghost Refuses = { λ laid. RefusesLaidOut laid.layout.now (R.Refuses laid.rule.now) };

    fn pack<L: Ledger>(
        &self,
        line: &[u8],
        out: &mut Output,
        steps: &mut Steps<L>,
    ) -> Result<(), R::Cause> {
        if self.layout.is_skipped(line) {
            return Ok(());
        }
        self.rule.pack(self.layout.without_blanks(line), out, steps)
    }

    ghost one_law = { λ laid. laid_out_one laid.layout.now (R.Packs laid.rule.now) (R.Refuses laid.rule.now)
        (R.one_law laid.rule.now) };

    ghost cause_law = { λ laid. laid_out_cause laid.layout.now (R.Packs laid.rule.now) (R.Refuses laid.rule.now)
        (R.cause_law laid.rule.now) };

    ghost never_law = { λ laid. laid_out_never laid.layout.now (R.Packs laid.rule.now) (R.Refuses laid.rule.now)
        (R.never_law laid.rule.now) };
}
