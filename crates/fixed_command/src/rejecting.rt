//! An observer that also puts a line of rejects for each refused line.

ghost use Rattle.std.specs.Prelude.{◌≡◌, List, ℕ};

use crate::amounts::AmountLines;
use crate::convert::{ConvertRule, without_return};
use crate::error_lines::ErrorLines;
use crate::laid_lines::LaidOutLines;
use crate::layout::LaidOutRule;
use crate::observed::{CountedRule, Worded};
use fixed_enclose::EncloseRule;
use fixed_respell::RespellRule;
use fixed_steps::Steps;
use line_engine::Sink;
use line_rejects::Rejects;
use run_engine::{Rule, Watch};
use std::sync::ledger::Ledger;

/// A rule whose refused lines are shown.
pub trait ShowsLines {
    /// What is shown of a line.
    ghost shown: { Self → List ℕ → List ℕ };

    /// Returns what is shown of a refused line.
    fn shown<'l>(&self, line: &'l [u8]) -> &'l [u8]
        ensures { result.now ≡ shown self.now line.now };
}

/// The line as it is: a carriage return is why it is refused.
impl ShowsLines for RespellRule {
    ghost shown = { λ rule line. line };

    fn shown<'l>(&self, line: &'l [u8]) -> &'l [u8] {
        line
    }
}

/// The line as it is.
impl ShowsLines for EncloseRule {
    ghost shown = { λ rule line. line };

    fn shown<'l>(&self, line: &'l [u8]) -> &'l [u8] {
        line
    }
}

/// The line that is answered in its place.
impl<R> ShowsLines for LaidOutLines<R> {
    ghost use Rattle.fixed_command.specs.Layout.{answered_line};

    ghost shown = { λ laid. answered_line laid.layout };

    fn shown<'l>(&self, line: &'l [u8]) -> &'l [u8] {
        self.layout.answered(line)
    }
}

/// The line without one carriage return at its end.
impl ShowsLines for ConvertRule {
    ghost use Rattle.fixed_command.specs.Convert.{without_return};

    ghost shown = { λ rule. without_return };

    fn shown<'l>(&self, line: &'l [u8]) -> &'l [u8] {
        without_return(line)
    }
}

/// The line without one carriage return at its end.
impl ShowsLines for LaidOutRule {
    ghost use Rattle.fixed_command.specs.Convert.{without_return};

    ghost shown = { λ rule. without_return };

    fn shown<'l>(&self, line: &'l [u8]) -> &'l [u8] {
        without_return(line)
    }
}

/// The line without one carriage return at its end.
impl ShowsLines for CountedRule {
    ghost use Rattle.fixed_command.specs.Convert.{without_return};

    ghost shown = { λ rule. without_return };

    fn shown<'l>(&self, line: &'l [u8]) -> &'l [u8] {
        without_return(line)
    }
}

/// The line without one carriage return at its end.
impl ShowsLines for ErrorLines {
    ghost use Rattle.fixed_command.specs.Convert.{without_return};

    ghost shown = { λ rule. without_return };

    fn shown<'l>(&self, line: &'l [u8]) -> &'l [u8] {
        without_return(line)
    }
}

/// The line without one carriage return at its end.
impl ShowsLines for AmountLines {
    ghost use Rattle.fixed_command.specs.Convert.{without_return};

    ghost shown = { λ lines. without_return };

    fn shown<'l>(&self, line: &'l [u8]) -> &'l [u8] {
        without_return(line)
    }
}

/// An observer of lines, and the rejects.
#[derive(Drop)]
pub struct Rejecting<'n, W, J> {
    /// The observer.
    pub watch: W,
    /// The rejects.
    pub rejects: Rejects<'n, J>,
}

impl<
    'n,
    C: Worded + Drop,
    R: Rule<L, Cause = C> + ShowsLines,
    W: Watch<R, L>,
    J: Sink,
    L: Ledger,
> Watch<R, L> for Rejecting<'n, W, J> {
    ghost use Rattle.fixed_command.specs.Rejects.{SawReject};

    ghost PER_BYTE = { W.PER_BYTE };

    ghost EXTRA = { W.EXTRA };

    ghost Saw = { λ rule both number line result then. W.Saw rule both.watch number line result then.watch
        × SawReject J.written J.failures (R.shown rule) C.message both.rejects number line result then.rejects };

    #[inline]
    fn see(
        &mut self,
        rule: &R,
        number: u64,
        line: &[u8],
        returned: &Result<R::Note, C>,
        steps: &mut Steps<L>,
    ) {
        if let Err(cause) = returned {
            self.rejects
                .put(number, None, rule.shown(line), cause.words().as_bytes());
        }
        self.watch.see(rule, number, line, returned, steps);
    }
}
