//! The rounding calls.

ghost use Rattle.std.specs.Prelude.{◌≤◌};

use crate::answers::{write_flagged, write_number, write_words};
use fixed_bits::Inner;
use fixed_point::Fixed;
use std::io;

/// Splits a call into its form and the rounding that it names.
fn form_of(call: &str) -> (&str, &str) {
    let (form, name) = call.split_once('_').unwrap_or(("", call));
    match form {
        "checked" | "saturating" | "wrapping" | "strict" | "overflowing" => (form, name),
        _ => ("", call),
    }
}

/// Writes the result of the rounding call with this name for a number.
pub fn round<I: Inner, const FRAC: u32>(
    rt: &impl Print,
    x: Fixed<I, FRAC>,
    call: &str,
) -> io::Result<()>
    requires { FRAC ≤ I.BITS }
{
    let (form, name) = form_of(call);
    match name {
        "int" => write_bits(rt, x.int()),
        "frac" => write_bits(rt, x.frac()),
        "round_to_zero" => write_bits(rt, x.round_to_zero()),
        "ceil" => ceil(rt, x, form),
        "floor" => floor(rt, x, form),
        "round" => nearest(rt, x, form),
        _ => nearest_even(rt, x, form),
    }
}

/// Writes the result of a form of a rounding; `none` in place of a plain, checked or strict result that does not fit.
macro_rules! six_forms {
    ($rt:expr, $x:expr, $form:expr, $plain:ident, $checked:ident, $saturating:ident, $wrapping:ident, $strict:ident,
        $overflowing:ident) => {
        match $form {
            "saturating" => write_bits($rt, $x.$saturating()),
            "wrapping" => write_bits($rt, $x.$wrapping()),
            "overflowing" => {
                let (number, overflowed) = $x.$overflowing();
                write_flagged($rt, number.to_bits().value(), overflowed)
            }
            _ => match $x.$checked() {
                None => write_words($rt, "none"),
                Some(number) => match $form {
                    "checked" => write_bits($rt, number),
                    "strict" => write_bits($rt, $x.$strict()),
                    _ => write_bits($rt, $x.$plain()),
                },
            },
        }
    };
}

fn ceil<I: Inner, const FRAC: u32>(rt: &impl Print, x: Fixed<I, FRAC>, form: &str) -> io::Result<()>
    requires { FRAC ≤ I.BITS }
{
    six_forms!(
        rt,
        x,
        form,
        ceil,
        checked_ceil,
        saturating_ceil,
        wrapping_ceil,
        strict_ceil,
        overflowing_ceil
    )
}

fn floor<I: Inner, const FRAC: u32>(
    rt: &impl Print,
    x: Fixed<I, FRAC>,
    form: &str,
) -> io::Result<()>
    requires { FRAC ≤ I.BITS }
{
    six_forms!(
        rt,
        x,
        form,
        floor,
        checked_floor,
        saturating_floor,
        wrapping_floor,
        strict_floor,
        overflowing_floor
    )
}

fn nearest<I: Inner, const FRAC: u32>(
    rt: &impl Print,
    x: Fixed<I, FRAC>,
    form: &str,
) -> io::Result<()>
    requires { FRAC ≤ I.BITS }
{
    six_forms!(
        rt,
        x,
        form,
        round,
        checked_round,
        saturating_round,
        wrapping_round,
        strict_round,
        overflowing_round
    )
}

fn nearest_even<I: Inner, const FRAC: u32>(
    rt: &impl Print,
    x: Fixed<I, FRAC>,
    form: &str,
) -> io::Result<()>
    requires { FRAC ≤ I.BITS }
{
    six_forms!(
        rt,
        x,
        form,
        round_ties_even,
        checked_round_ties_even,
        saturating_round_ties_even,
        wrapping_round_ties_even,
        strict_round_ties_even,
        overflowing_round_ties_even
    )
}

fn write_bits<I: Inner, const FRAC: u32>(rt: &impl Print, x: Fixed<I, FRAC>) -> io::Result<()> {
    write_number(rt, x.to_bits().value())
}
