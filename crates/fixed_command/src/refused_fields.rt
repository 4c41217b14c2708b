//! An observer of fields that keeps the first refused one and puts a line of rejects for each.

ghost use Rattle.std.specs.Prelude.{◌≡◌};
ghost use Rattle.column_engine.specs.First.{first_or, refused_field};
ghost use Rattle.fixed_command.specs.FieldRejects.{HasFieldReject, cause_in};

use column_engine::{FieldPlace, FieldRule, FieldWatch, FirstRefused, RecordBuffer};
use fixed_steps::Steps;
use line_engine::Sink;
use line_rejects::Rejects;
use std::sync::ledger::Ledger;

/// The refused fields of a text, and another observer of its fields.
#[derive(Drop)]
pub struct RefusedFields<'n, W, J> {
    /// The first of them.
    pub first: FirstRefused,
    /// Their lines of rejects.
    pub rejects: Rejects<'n, J>,
    /// The other observer.
    pub watch: W,
}

impl<'n, W, J> RefusedFields<'n, W, J> {
    /// The state before the first field.
    pub fn new(rejects: Rejects<'n, J>, watch: W) -> RefusedFields<'n, W, J> {
        RefusedFields {
            first: FirstRefused::new(),
            rejects,
            watch,
        }
    }
}

/// Returns the cause in the reply to a refused field.
fn cause_in(reply: &[u8]) -> &[u8]
    ensures { result.now ≡ cause_in reply.now }
{
    match reply.strip_prefix(b"error: ".as_slice()) {
        Some(cause) => cause,
        None => reply,
    }
}

impl<'n, W, J: Sink> RefusedFields<'n, W, J> {
    /// Keeps a refused field, if it is the first, and puts its line: the numbers of its record and its column, from 1,
    /// its text and the cause.
    #[cold]
    fn refuse(&mut self, place: FieldPlace, field: &[u8], reply: &[u8])
        ensures first { self.new.first.field ≡ first_or self.old.first.field (Some (refused_field place field.now
            reply.now)) }
        ensures rejects { HasFieldReject J.written J.failures self.old.rejects place field.now reply.now
            self.new.rejects }
        ensures watch { self.new.watch ≡ self.old.watch }
    {
        self.first.refuse(place, field, reply);
        let column = (place.column as u64).saturating_add(1);
        self.rejects
            .put(place.record, Some(column), field, cause_in(reply));
    }
}

impl<'n, A: FieldRule<L>, W: FieldWatch<A, L>, J: Sink, L: Ledger> FieldWatch<A, L>
    for RefusedFields<'n, W, J> {
    ghost use Rattle.column_engine.specs.First.{first_after};
    ghost use Rattle.fixed_command.specs.FieldRejects.{SawFieldReject};

    ghost Saw = { λ rule fields place field reply then. (then.first.field ≡ first_after fields.first.field place field
        reply) × SawFieldReject J.written J.failures fields.rejects place field reply then.rejects × W.Saw rule
        fields.watch place field reply then.watch };

    #[inline]
    fn see(
        &mut self,
        rule: &A,
        place: FieldPlace,
        field: &[u8],
        reply: &[u8],
        is_refused: bool,
        scratch: &mut RecordBuffer,
        steps: &mut Steps<L>,
    ) {
        if is_refused {
            self.refuse(place, field, reply);
        }
        self.watch
            .see(rule, place, field, reply, is_refused, scratch, steps);
    }
}
