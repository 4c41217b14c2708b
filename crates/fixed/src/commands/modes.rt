//! `fixed modes`: lists the rounding modes, and their names in other tools.

use command_line::given::{Asked, Given, Refusal};
use command_line::page::Page;
use command_line::run::write_out;
use fixed_steps::Steps;
use line_engine::Status;
use std::sync::ledger::Ledger;

/// For each mode, what a value is rounded to and its names elsewhere; then the example of the help.
const TABLE: &str = "\
    nearest    the nearest; of two equally near, the even one\n\
    \x20          IEEE 754 roundTiesToEven, MATLAB convergent, SystemC RND_CONV,\n\
    \x20          decimal HALF_EVEN\n\
    ties-away  the nearest; of two equally near, the one farther from zero\n\
    \x20          IEEE 754 roundTiesToAway, round, SystemC RND_INF, decimal HALF_UP,\n\
    \x20          commercial rounding\n\
    ties-zero  the nearest; of two equally near, the one nearer to zero\n\
    \x20          SystemC RND_ZERO, decimal HALF_DOWN\n\
    ties-up    the nearest; of two equally near, the greater one\n\
    \x20          MATLAB nearest, SystemC RND\n\
    ties-down  the nearest; of two equally near, the lesser one\n\
    \x20          SystemC RND_MIN_INF\n\
    floor      the greatest not above\n\
    \x20          IEEE 754 roundTowardNegative, SystemC TRN, decimal FLOOR\n\
    ceil       the least not below\n\
    \x20          IEEE 754 roundTowardPositive, decimal CEILING\n\
    zero       the nearest not farther from zero\n\
    \x20          IEEE 754 roundTowardZero, MATLAB fix, SystemC TRN_ZERO, decimal DOWN\n\
    away       the nearest not nearer to zero\n\
    \x20          decimal UP\n\
    \n\
    Example: fixed modes";

pub fn page() -> Page {
    Page {
        name: "modes",
        hidden_name: "",
        about: "List the rounding modes, and their names elsewhere",
        usage: "fixed modes",
        operands: &[],
        has_numerals: false,
        options: &[],
        end: TABLE,
    }
}

/// Lists the modes. It has the parameters of every command, but reads no option, and refuses operands after `--`.
pub fn run<'a, L: Ledger>(
    rt: &HostRuntime,
    given: &Given<'_, 'a>,
    _steps: &mut Steps<L>,
) -> Asked<'a, Status> {
    if let Some(word) = given.words.get(0) {
        return Err(Refusal::Word(*word, "is not read: the command has no operands"));
    }
    let modes = match TABLE.split_once("\nExample") {
        Some((modes, _)) => modes,
        None => TABLE,
    };
    Ok(write_out(rt, modes.as_bytes()))
}
