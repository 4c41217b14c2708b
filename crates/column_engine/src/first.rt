//! An observer that keeps the first refused field.

ghost use Rattle.std.specs.Prelude.{◌≡◌, None, Some, take};
ghost use Rattle.column_engine.specs.First.{first_after, first_or, refused_field};

use crate::record_buffer::RecordBuffer;
use crate::rule::FieldRule;
use crate::watch::{FieldPlace, FieldWatch};
use fixed_steps::Steps;
use std::sync::ledger::Ledger;
use text_buffer::TextBuffer;

/// How many bytes are kept of a field and of the reply that refuses it.
const KEPT: usize = 160;

/// A field that was refused.
#[derive(Drop)]
pub struct RefusedField {
    /// Its position.
    pub place: FieldPlace,
    /// The first bytes of its text.
    pub text: TextBuffer<KEPT>,
    /// The first bytes of the reply that refuses it.
    pub reply: TextBuffer<KEPT>,
}

/// The first refused field of a text.
#[derive(Drop)]
pub struct FirstRefused {
    /// The field, if one was refused.
    pub field: Option<RefusedField>,
}

/// Returns the first bytes of a text.
fn first_bytes(bytes: &[u8]) -> TextBuffer<KEPT>
    ensures { result ≡ take 160 bytes.now }
{
    let mut text = TextBuffer::new();
    let count = KEPT.min(bytes.len());
    text.push_bytes(&bytes[..count]);
    text
}

impl FirstRefused {
    /// The state before any field is refused.
    pub fn new() -> FirstRefused
        ensures { result.field ≡ None }
    {
        FirstRefused { field: None }
    }

    /// Keeps a refused field, if it is the first.
    #[cold]
    pub fn refuse(&mut self, place: FieldPlace, field: &[u8], reply: &[u8])
        ensures { self.new.field ≡ first_or self.old.field (Some (refused_field place field.now reply.now)) }
    {
        if self.field.is_none() {
            self.field = Some(RefusedField {
                place,
                text: first_bytes(field),
                reply: first_bytes(reply),
            });
        }
    }
}

impl<A: FieldRule<L>, L: Ledger> FieldWatch<A, L> for FirstRefused {
    ghost Saw = { λ rule watch place field reply then. then.field ≡ first_after watch.field place field reply };

    #[inline]
    fn see(
        &mut self,
        _rule: &A,
        place: FieldPlace,
        field: &[u8],
        reply: &[u8],
        is_refused: bool,
        _scratch: &mut RecordBuffer,
        _steps: &mut Steps<L>,
    ) {
        if is_refused {
            self.refuse(place, field, reply);
        }
    }
}
