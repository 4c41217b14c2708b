//! The outcomes of the conversions of fields, and the greatest error.

ghost use Rattle.std.specs.Prelude.{◌≡◌, ◌≢◌, ◌==◌, ◌≤◌, ◌+◌, ◌*◌, ◌∷◌, [], IfSome, false, if◌then◌else◌, length};
ghost use Rattle.column_engine.specs.Limits.{longest_record};
ghost use Rattle.fixed_command.specs.Convert.{without_return};
ghost use Rattle.fixed_command.specs.FieldReports.{first_place, no_fields, noted_field};
ghost use Rattle.fixed_command.specs.Fields.{IsEmptyOutcome, IsFieldOutcome, IsReadOutcome, bare, field_numeral};
ghost use Rattle.fixed_command.specs.Observed.{ErrorAddedIf};
ghost use Rattle.fixed_command.specs.Outcome.{has_error};
ghost use Rattle.fixed_report.specs.Report.{add_extra, add_per_byte};

use crate::ConvertRule;
use crate::convert::without_return;
use crate::field::{Empty, FieldForm, FieldNumerals, bare, is_misplaced, write_read};
use crate::outcome::{Outcome, Tally, has_error, outcome_of};
use column_engine::{FieldPlace, FieldWatch, RecordBuffer};
use fixed_report::ErrorReport;
use fixed_steps::Steps;
use std::sync::ledger::Ledger;

/// Returns the outcome of the conversion of a line.
fn outcome_of_line<L: Ledger>(
    rule: &ConvertRule,
    line: &[u8],
    steps: &mut Steps<L>,
) -> Option<Outcome>
    ensures { IsReadOutcome rule.now line.now result }
{
    Some(outcome_of(rule.settings(), without_return(line), steps))
}

/// Returns the outcome of an empty field, or none if it stays.
fn outcome_of_empty<L: Ledger>(
    empty: Empty,
    rule: &ConvertRule,
    steps: &mut Steps<L>,
) -> Option<Outcome>
    ensures { IsEmptyOutcome empty rule.now result }
{
    match empty {
        Empty::Kept => None,
        Empty::Refused => outcome_of_line(rule, b"", steps),
        Empty::Zero => outcome_of_line(rule, b"0", steps),
    }
}

/// Returns the outcome of the numeral of a field, which is written into the scratch.
pub fn field_outcome<L: Ledger>(
    form: &FieldForm<'_>,
    rule: &ConvertRule,
    field: &[u8],
    scratch: &mut RecordBuffer,
    steps: &mut Steps<L>,
) -> Option<Outcome>
    requires { length field.now ≤ longest_record }
    ensures outcome { IsFieldOutcome form.now rule.now field.now result }
    ensures read { IfSome result (λ outcome. outcome ≢ Outcome.Refused → (length (bare form.now field.now) == 0) ≡ false
        → scratch.new ≡ field_numeral form.now field.now) }
{
    let bytes = bare(form, field);
    if bytes.is_empty() {
        return outcome_of_empty(form.empty, rule, steps);
    }
    if is_misplaced(form, rule.settings().radix, bytes) {
        return Some(Outcome::Refused);
    }
    write_read(form, bytes, scratch);
    outcome_of_line(rule, scratch.as_slice(), steps)
}

/// Returns the numeral that was read for a field: a zero for an empty field, else what is in the scratch.
fn numeral_read<'s>(form: &FieldForm<'_>, field: &[u8], scratch: &'s RecordBuffer) -> &'s [u8]
    ensures { result.now ≡ (if length (bare form.now field.now) == 0 then 48 ∷ [] else without_return scratch.now) }
{
    if bare(form, field).is_empty() {
        b"0"
    } else {
        without_return(scratch.as_slice())
    }
}

/// The counts of a text's fields by outcome, where the first one overflowed or was refused, and the greatest error.
#[derive(Drop)]
pub struct FieldReport {
    /// The counts, with the numbers of records.
    pub tally: Tally,
    /// Where the first field is that overflowed.
    pub first_overflowed: Option<FieldPlace>,
    /// Where the first field is that was refused.
    pub first_refused: Option<FieldPlace>,
    /// The greatest error, with the number of its record.
    pub errors: ErrorReport,
}

/// Returns the first place: `first`, if there is one, or else `place`.
fn first_of(first: Option<FieldPlace>, place: FieldPlace) -> Option<FieldPlace>
    ensures { result ≡ first_place first place }
{
    match first {
        Some(_) => first,
        None => Some(place),
    }
}

impl FieldReport {
    /// Returns a report of no fields, in which `errors` keeps the greatest error.
    pub fn new(errors: ErrorReport) -> FieldReport
        ensures { result ≡ no_fields errors }
    {
        FieldReport {
            tally: Tally::new(),
            first_overflowed: None,
            first_refused: None,
            errors,
        }
    }

    /// Notes the outcome of a field.
    fn note(&mut self, place: FieldPlace, outcome: Outcome)
        ensures { self.new ≡ noted_field self.old place outcome }
    {
        match outcome {
            Outcome::Exact | Outcome::Rounded => (),
            Outcome::Overflowed => {
                self.first_overflowed = first_of(self.first_overflowed, place);
            }
            Outcome::Refused => self.first_refused = first_of(self.first_refused, place),
        }
        self.tally.note(place.record, outcome);
    }

    /// Records the error of the numeral of a field in the record of this number, if its outcome has one.
    fn add_error<L: Ledger>(
        &mut self,
        rule: &ConvertRule,
        number: u64,
        numeral: &[u8],
        outcome: Outcome,
        steps: &mut Steps<L>,
    )
        ensures same { self.new ≡ record self.old { errors = self.new.errors } }
        ensures errors { ErrorAddedIf (has_error rule.now.spelling outcome) self.old.errors number numeral.now
            self.new.errors }
        ensures cost { steps.new ≤ steps.old + add_per_byte * length numeral.now + add_extra }
    {
        if has_error(rule.settings().spelling, outcome) {
            self.errors.add(numeral, number, steps);
        }
    }
}

impl<'a, L: Ledger> FieldWatch<FieldNumerals<'a, ConvertRule>, L> for FieldReport {
    ghost use Rattle.fixed_command.specs.FieldReports.{SawField};

    ghost Saw = { λ fields report place field reply after. SawField fields.form.now fields.rule.now report place field
        reply after };

    fn see(
        &mut self,
        fields: &FieldNumerals<'a, ConvertRule>,
        place: FieldPlace,
        field: &[u8],
        _reply: &[u8],
        is_refused: bool,
        scratch: &mut RecordBuffer,
        steps: &mut Steps<L>,
    ) {
        if is_refused {
            self.note(place, Outcome::Refused);
            return;
        }
        let rule = fields.rule;
        if let Some(outcome) = field_outcome(fields.form, rule, field, scratch, steps) {
            self.note(place, outcome);
            let numeral = numeral_read(fields.form, field, scratch);
            self.add_error(rule, place.record, numeral, outcome, steps);
        }
    }
}
