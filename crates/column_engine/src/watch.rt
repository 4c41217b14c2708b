//! Observers of fields.

ghost use Rattle.std.specs.Prelude.{◌≤◌, List, ℕ, length};
ghost use Rattle.column_engine.specs.Limits.{longest_record};
ghost use Rattle.column_engine.specs.declared.watch.FieldPlace.{FieldPlace as PlaceOf};
ghost use Rattle.line_engine.specs.AnswerText.{AnswerText};

use crate::record_buffer::RecordBuffer;
use crate::rule::FieldRule;
use fixed_steps::Steps;
use std::sync::ledger::Ledger;

/// The position of a field.
#[derive(Clone, Copy, Debug, PartialEq, Eq)]
pub struct FieldPlace {
    /// The number of its record, from 1, counting a header.
    pub record: u64,
    /// The number of the line where its record begins, from 1.
    pub line: u64,
    /// Its index in the record, from 0.
    pub column: usize,
}

/// An observer, which is told of each requested field and of its reply.
pub trait FieldWatch<A: FieldRule<L>, L: Ledger> {
    /// How an observer changes when it is told of a field that a rule has answered: its place, its text and its reply.
    ghost Saw: { A → Self → PlaceOf → List ℕ → AnswerText → Self → Type 0 };

    /// Records that a field was answered, or refused, with a reply. `scratch` is working space.
    fn see(
        &mut self,
        rule: &A,
        place: FieldPlace,
        field: &[u8],
        reply: &[u8],
        is_refused: bool,
        scratch: &mut RecordBuffer,
        steps: &mut Steps<L>,
    )
        requires { length field.now ≤ longest_record }
        ensures { Saw rule.now self.old place field.now (record { text = reply.now; fault = is_refused }) self.new };
}

/// No observer.
impl<A: FieldRule<L>, L: Ledger> FieldWatch<A, L> for () {
    ghost Saw = { λ rule watch place field reply then. Unit {0} };

    #[inline(always)]
    fn see(
        &mut self,
        _rule: &A,
        _place: FieldPlace,
        _field: &[u8],
        _reply: &[u8],
        _is_refused: bool,
        _scratch: &mut RecordBuffer,
        _steps: &mut Steps<L>,
    ) {}
}

/// An observer, if there is one.
impl<A: FieldRule<L>, W: FieldWatch<A, L>, L: Ledger> FieldWatch<A, L> for Option<W> {
    ghost use Rattle.column_engine.specs.Seen.{SawIfAny};

    ghost Saw = { λ rule watch place field reply then. SawIfAny (λ old new. W.Saw rule old place field reply new) watch
        then };

    #[inline]
    fn see(
        &mut self,
        rule: &A,
        place: FieldPlace,
        field: &[u8],
        reply: &[u8],
        is_refused: bool,
        scratch: &mut RecordBuffer,
        steps: &mut Steps<L>,
    ) {
        if let Some(watch) = self {
            watch.see(rule, place, field, reply, is_refused, scratch, steps);
        }
    }
}
