//! The first refused word of several.

ghost use Rattle.std.specs.Prelude.{All, MatchOption, map};
ghost use Rattle.fixed_command.specs.Refused.{IsClean, IsFirstRefused};

use crate::blocks::{Question, push_block};
use fixed_show::MAX_BLOCK;
use fixed_steps::Steps;
use std::sync::ledger::Ledger;
use text_buffer::TextBuffer;

/// A refused word.
#[derive(Drop)]
pub struct RefusedWord {
    /// Its index among the words, from 0.
    pub place: usize,
    /// Why it is refused.
    pub cause: &'static str,
}

/// Returns the first word that the question refuses. `None` if it refuses none.
pub fn first_refused<L: Ledger>(
    question: &Question,
    words: &[&str],
    steps: &mut Steps<L>,
) -> Option<RefusedWord>
    ensures { MatchOption result (All (IsClean question.now) (map (λ w. w.now) words.now))
        (λ r. IsFirstRefused question.now (map (λ w. w.now) words.now) r.place r.cause.now) }
{
    let mut place = 0;
    let mut rest = words;
    while !rest.is_empty() {
        let mut block: TextBuffer<MAX_BLOCK> = TextBuffer::new();
        match push_block(question, rest[0].as_bytes(), &mut block, steps) {
            Some(cause) => return Some(RefusedWord { place, cause }),
            None => (),
        }
        place += 1;
        rest = &rest[1..];
    }
    None
}
