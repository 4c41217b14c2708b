//! The two values of a format nearest to a numeral's value, below and above.

ghost use Rattle.std.specs.Prelude.{◌≡◌, ◌↔◌, ◌≤◌, ◌+◌, ◌*◌, ◌⊎◌, ℤ, IsNone, IsOk, IfOk, IfErr, IfSome, IfNone, length};
ghost use Rattle.fixed_bits.specs.Ranges.{IsInRange, IsOutOfRange, IsWide};
ghost use Rattle.fixed_bits.specs.Images.{IsImage};
ghost use Rattle.fixed_bits.specs.Numbers.{IsNumber};
ghost use Rattle.fixed_bits.specs.declared.format.Policy.TheVariants.{Checked};
ghost use Rattle.fixed_bits.specs.declared.mode.ReadMode.TheVariants.{Floor};
ghost use Rattle.fixed_numeral.specs.Answer.{IsReadOrRefused};
ghost use Rattle.fixed_read.specs.Reading.{IsReading, number_in};
ghost use Rattle.fixed_enclose.specs.Enclosure.{IsEnclosed, IsRefusal};
ghost use Rattle.fixed_enclose.specs.Lemmas.EnclosureLemmas.{upper};

use fixed_bits::{Format, Policy, ReadMode};
use fixed_numeral::{ParseErrorKind, ParseFixedError, Radix};
use fixed_read::{ReadNumber, read_format};
use fixed_steps::Steps;
use std::sync::ledger::Ledger;

/// The bits of the two values of a format that are nearest to a number, below and above. Both are the number's if the
/// format has it.
#[derive(Clone, Copy, Debug, PartialEq, Eq)]
pub struct Enclosure {
    /// The bits of the greatest value that is not above the number.
    pub lo: i128,
    /// The bits of the least value that is not below the number.
    pub hi: i128,
}

/// Returns the bits of the greatest value of a format that is not above a numeral's value, and of the least that is not
/// below it. It does not allocate, and takes at most sixteen steps for each byte, and 1,152.
///
/// # Errors
///
/// Refuses a numeral as `Overflow` if the format has no value below or above its value, and other bytes with the kind
/// of their cause.
pub fn enclose<L: Ledger>(
    bytes: &[u8],
    radix: Radix,
    format: Format,
    steps: &mut Steps<L>,
) -> Result<Enclosure, ParseFixedError>
    ensures ok { IsOk result ↔ ((lo : ℤ) × (hi : ℤ) × IsEnclosed radix bytes.now format lo hi) }
    ensures pair { IfOk result (λ e. IsEnclosed radix bytes.now format e.lo e.hi) }
    ensures low_wide { IfOk result (λ e. IsWide e.lo) }
    ensures high_wide { IfOk result (λ e. IsWide e.hi) }
    ensures refused { IfErr result (λ kind. IsRefusal radix bytes.now format kind) }
    ensures cost { steps.new ≤ steps.old + 16 * length bytes.now + 1152 }
{
    let found = match read_floor(bytes, radix, format, steps) {
        Ok(found) => found,
        Err(error) => return Err(error),
    };
    match ends_of(&found) {
        Some(ends) => Ok(ends),
        None => Err(ParseFixedError::new(ParseErrorKind::Overflow)),
    }
}

/// Reads a numeral in mode `Floor`.
fn read_floor<L: Ledger>(
    bytes: &[u8],
    radix: Radix,
    format: Format,
    steps: &mut Steps<L>,
) -> Result<ReadNumber, ParseFixedError>
    ensures reading { IsReadOrRefused radix bytes.now (IsReading Floor radix) result }
    ensures format { IfOk result (λ found. found.format ≡ format) }
    ensures cost { steps.new ≤ steps.old + 8 * length bytes.now + 128 }
{
    read_format(bytes, radix, format, ReadMode::Floor, steps)
}

/// Returns the read number, which is the lower end of the enclosure. `None` if it is out of range.
fn lower_end(found: &ReadNumber) -> Option<i128>
    ensures image { (v : ℤ) → IsNumber (number_in found.now) v
        → IfSome result (λ c. IsImage Checked found.now.format.signed found.now.format.width v c) }
    ensures none { (v : ℤ) → IsNumber (number_in found.now) v
        → IsNone result ↔ IsOutOfRange found.now.format.signed found.now.format.width v }
    ensures range { IfSome result (λ c. IsInRange found.now.format.signed found.now.format.width c) }
    ensures wide { IfSome result IsWide }
{
    found.image(Policy::Checked)
}

/// Returns the enclosure of a value that was read in mode `Floor`. The read number is the lower end. The upper end is
/// the same if the value was a whole number of ulps, else the next. `None` if an end is out of range.
fn ends_of(found: &ReadNumber) -> Option<Enclosure>
    ensures ends { IfSome result (λ e. (v : ℤ) → IsNumber (number_in found.now) v
        → (e.lo ≡ v) × (e.hi ≡ upper found.now.exact v)) }
    ensures low { IfSome result (λ e. IsInRange found.now.format.signed found.now.format.width e.lo) }
    ensures high { IfSome result (λ e. IsInRange found.now.format.signed found.now.format.width e.hi) }
    ensures low_wide { IfSome result (λ e. IsWide e.lo) }
    ensures high_wide { IfSome result (λ e. IsWide e.hi) }
    ensures none { IfNone result ((v : ℤ) → IsNumber (number_in found.now) v
        → IsOutOfRange found.now.format.signed found.now.format.width v
        ⊎ IsOutOfRange found.now.format.signed found.now.format.width (upper found.now.exact v)) }
{
    let lo = lower_end(found)?;
    let hi = upper_end(lo, found.is_exact());
    if found.format().contains(hi) {
        Some(Enclosure { lo, hi })
    } else {
        None
    }
}

/// Returns the upper end of an enclosure by its lower end, and whether the value is that end.
fn upper_end(lo: i128, exact: bool) -> i128
    requires { IsWide lo }
    ensures { result ≡ upper exact lo }
{
    if exact { lo } else { lo + 1 }
}
