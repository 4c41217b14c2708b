//! `fixed format`: shows what a format can hold.

use crate::options::{JSON, OUTPUT};
use crate::output::open_answers;
use crate::questions::{form_of, run_words};
use crate::settings::format_of;
use command_line::given::{Asked, Given};
use command_line::page::{Operand, Page};
use fixed_amounts::decimal_format_named;
use fixed_command::Question;
use fixed_steps::Steps;
use line_engine::Status;
use std::sync::ledger::Ledger;

const FORMATS: Operand = Operand {
    name: "FORMAT",
    help: "The formats",
};

pub fn page() -> Page {
    Page {
        name: "format",
        hidden_name: "",
        about: "Show the range, the ulp and the digits of a format",
        usage: "fixed format [OPTIONS] FORMAT...",
        operands: &[FORMATS],
        has_numerals: false,
        options: &[JSON, OUTPUT],
        end: "A format is I (signed) or U (unsigned), its whole bits, F and its fraction bits,\n\
              as in I16F16 or I-9F25, 1 to 64 in all; or as in Q15 and UQ8.8; or as other\n\
              tools name it: 'ap_fixed<16,1>', 'sfixed(0 downto -15)', 'fi(_,1,16,15)',\n\
              'numerictype(1,16,15)', sfix16_En15. D0 to D18 are decimal\n\
              formats, for money: D2 counts cents.\n\
              \n\
              Example: fixed format I16F16 U0F8 D2",
    }
}

/// Shows each format.
pub fn run<'a, L: Ledger>(
    rt: &HostRuntime,
    given: &Given<'_, 'a>,
    steps: &mut Steps<L>,
) -> Asked<'a, Status> {
    given.needed(0, "FORMAT")?;
    for word in given.from(0) {
        if decimal_format_named(word.as_bytes()).is_none() {
            if let Err(refusal) = format_of(word) {
                return Err(refusal);
            }
        }
    }
    match open_answers(rt, given) {
        Ok(mut output) => Ok(run_words(
            rt,
            form_of(given),
            &Question::Format,
            given.from(0),
            &mut output,
            steps,
        )),
        Err(status) => Ok(status),
    }
}
