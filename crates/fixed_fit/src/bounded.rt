//! The answer to a list if the least format within an error is requested.

ghost use Rattle.std.specs.Prelude.{◌≡◌, ◌<◌, ◌≤◌, List, ℕ, Bool, true, false};
ghost use Rattle.line_engine.specs.Lines.{lines};
ghost use Rattle.fixed_error.specs.Errors.{HasGreatestErrors};
ghost use Rattle.fixed_fit.specs.Answer.{none_line};
ghost use Rattle.fixed_fit.specs.Bounded.{IsBoundedAnswer};
ghost use Rattle.fixed_fit.specs.ErrorWord.{entries_from};
ghost use Rattle.fixed_fit.specs.Fitting.{choice};
ghost use Rattle.fixed_fit.specs.Inner.Reading.{HasLines};
ghost use Rattle.fixed_fit.specs.Inner.Serving.{AreAllLeft, IsBelow, IsServingAnswer, bounded, most_left};
ghost use Rattle.fixed_fit.specs.Unfit.{said};
ghost use Rattle.fixed_fit.specs.Within.{IsTried, most_width};

use crate::answer::{Answer, Unfit, found_answer, no_numeral, push_lesser};
use crate::question::{Question, Widths};
use crate::reader::Reader;
use crate::serving::{Serving, best_of};
use fixed_error::GreatestErrors;
use fixed_steps::Steps;
use std::sync::ledger::Ledger;

/// Returns the next lesser width that is tried, or 0 if there is none.
fn width_below(widths: Widths, one: u32, width: u32) -> u32
    requires { IsTried widths one width }
    ensures { IsBelow widths one width result }
{
    match widths {
        Widths::One => 0,
        Widths::Types if width > 8 => width / 2,
        Widths::Types => 0,
        Widths::Any => width - 1,
    }
}

/// Returns the answer for the formats that serve.
fn serving_answer<L: Ledger>(
    serving: &Serving,
    errors: &GreatestErrors,
    question: &Question,
    widths: Widths,
    steps: &mut Steps<L>,
) -> Answer
    requires tried { serving.now.is_served ≡ true → IsTried widths question.now.kind.width serving.now.width }
    requires served { serving.now.is_served ≡ true → serving.now.low < most_left serving.now.lengths.items }
    requires known { serving.now.is_served ≡ true → (count : ℕ) × (list : List (List ℕ)) × (s : Bool)
        × HasGreatestErrors question.now.radix count (entries_from 1 list) errors.now
        × AreAllLeft question.now.radix (choice s question.now.fractions) list serving.now.lengths.items
        × most_left serving.now.lengths.items ≤ count }
    ensures none_text { serving.now.is_served ≡ false → (said result).text ≡ none_line serving.now.place }
    ensures none_fault { serving.now.is_served ≡ false → (said result).fault ≡ true }
    ensures some { serving.now.is_served ≡ true → (count : ℕ) (list : List (List ℕ))
        → HasGreatestErrors question.now.radix count (entries_from 1 list) errors.now
        → IsServingAnswer question.now widths list serving.now (said result) }
{
    if !serving.is_served {
        return Err(Unfit::NoneServes(serving.place));
    }
    let best = best_of(serving.low, &serving.lengths);
    let mut found = found_answer(
        errors,
        best.kind,
        best.count - 1,
        best.place,
        question,
        steps,
    );
    let below = width_below(widths, question.kind.width(), serving.width);
    push_lesser(&mut found, below, serving.raised, question.is_reason_asked);
    Ok(found)
}

/// Returns the answer to an input from what is known of its lines and of the formats that they fit within a bound.
pub fn bounded_answer<L: Ledger>(
    reader: &Reader,
    question: &Question,
    widths: Widths,
    steps: &mut Steps<L>,
) -> Answer
    requires { (bound : List ℕ) × (list : List (List ℕ))
        × HasLines question.now.radix (bounded question.now.is_range (most_width widths question.now.kind.width)
        question.now.fractions bound widths question.now.kind.width) list reader.now }
    ensures { (bound : List ℕ) (input : List ℕ)
        → HasLines question.now.radix (bounded question.now.is_range (most_width widths question.now.kind.width)
        question.now.fractions bound widths question.now.kind.width) (lines input) reader.now
        → IsBoundedAnswer question.now widths bound input (said result) }
{
    let known = reader.progress;
    match known.fault {
        Some(fault) => Err(no_numeral(fault)),
        None => {
            let has_sign = question.kind.signed() | known.is_below;
            if has_sign {
                serving_answer(
                    &reader.within.signed,
                    &reader.errors,
                    question,
                    widths,
                    steps,
                )
            } else {
                serving_answer(
                    &reader.within.plain,
                    &reader.errors,
                    question,
                    widths,
                    steps,
                )
            }
        }
    }
}
