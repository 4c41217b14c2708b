//! A numeral through two formats, from its bytes to its shortest text.

ghost use Rattle.std.specs.Prelude.{◌≡◌, ◌↔◌, ◌≤◌, ◌+◌, ◌-◌, ◌*◌, ℤ, Bool, IsOk, IfOk, IfErr, drop};
ghost use Rattle.std.specs.Prelude.{length};
ghost use Rattle.fixed_bits.specs.Numbers.{number_of_image};
ghost use Rattle.fixed_bits.specs.Ranges.{IsInRange, IsWide};
ghost use Rattle.fixed_bits.specs.declared.mode.ReadMode.TheVariants.{NearestEven};
ghost use Rattle.fixed_write.specs.Texts.{IsShortestText};
ghost use Rattle.fixed_respell.specs.Reached.{IsRespelled, IsRefusal, number_of, is_signed};

use fixed_bits::{Format, Image, Policy, ReadMode, is_refused};
use fixed_convert::reformat_signed;
use fixed_numeral::{ParseErrorKind, ParseFixedError, Radix};
use fixed_read::read_ending;
use fixed_steps::Steps;
use fixed_write::{ShortText, shortest};
use std::sync::ledger::Ledger;

/// The bits of a number in a format of at most 64 bits.
#[derive(Clone, Copy, Debug, PartialEq, Eq)]
pub enum Bits {
    /// Bits of a signed format.
    Signed(i64),
    /// Bits of an unsigned format.
    Unsigned(u64),
}

/// The result of a numeral.
#[derive(Drop)]
pub struct Respelled {
    /// The bits in the target.
    pub bits: Bits,
    /// Whether the read number was out of the source's range, or the number rounded down to the target's fraction
    /// length was out of the target's.
    pub overflowed: bool,
    /// The shortest decimal text that reads back as the bits.
    pub text: ShortText,
}

/// Reads a numeral into the source format in the mode `NearestEven`, rounds the number down (floor) to the target's
/// fraction length, and prints it. The policy says what to do with a number that is out of a format's range.
///
/// The errors are those of `respell_mode`.
pub fn respell<L: Ledger>(
    bytes: &[u8],
    radix: Radix,
    source: Format,
    target: Format,
    policy: Policy,
    steps: &mut Steps<L>,
) -> Result<Respelled, ParseFixedError>
    ensures ok { IsOk result ↔ ((bits : ℤ) × (overflowed : Bool)
        × IsRespelled NearestEven radix bytes.now policy source target bits overflowed) }
    ensures reached { IfOk result (λ s. IsRespelled NearestEven radix bytes.now policy source target
        (number_of s.bits) s.overflowed) }
    ensures sign { IfOk result (λ s. is_signed s.bits ≡ target.signed) }
    ensures text { IfOk result (λ s. IsShortestText (number_of s.bits) target.frac s.text) }
    ensures refused { IfErr result (λ kind. IsRefusal NearestEven radix bytes.now policy source target kind) }
    ensures cost { steps.new ≤ steps.old + 8 * length bytes.now + 624 }
{
    respell_mode(
        bytes,
        radix,
        source,
        target,
        policy,
        ReadMode::NearestEven,
        steps,
    )
}

/// Reads a numeral into the source format in a mode, rounds the number down (floor) to the target's fraction length,
/// and prints it. The policy says what to do with a number that is out of a format's range.
///
/// The error is the reason why the bytes are not a numeral, or `Overflow` if they are one and under `Checked` its read
/// number is out of the source's range or, rounded down, out of the target's.
pub fn respell_mode<L: Ledger>(
    bytes: &[u8],
    radix: Radix,
    source: Format,
    target: Format,
    policy: Policy,
    mode: ReadMode,
    steps: &mut Steps<L>,
) -> Result<Respelled, ParseFixedError>
    ensures ok { IsOk result ↔ ((bits : ℤ) × (overflowed : Bool)
        × IsRespelled mode radix bytes.now policy source target bits overflowed) }
    ensures reached { IfOk result (λ s. IsRespelled mode radix bytes.now policy source target
        (number_of s.bits) s.overflowed) }
    ensures sign { IfOk result (λ s. is_signed s.bits ≡ target.signed) }
    ensures text { IfOk result (λ s. IsShortestText (number_of s.bits) target.frac s.text) }
    ensures refused { IfErr result (λ kind. IsRefusal mode radix bytes.now policy source target kind) }
    ensures cost { steps.new ≤ steps.old + 8 * length bytes.now + 624 }
{
    let image = reached_image(bytes, radix, source, target, policy, mode, steps)?;
    let number = image.number();
    Ok(Respelled {
        bits: bits_of(target, number),
        overflowed: image.is_out_of_range,
        text: shortest(number, target.frac(), steps),
    })
}

/// Reads a numeral into the source format in a mode and rounds the number down (floor) to the target's fraction length.
/// Returns its image in the target, without a text. The policy says what to do with a number that is out of a format's
/// range.
///
/// The errors are those of `respell_mode`.
#[inline]
pub fn reached_image<L: Ledger>(
    bytes: &[u8],
    radix: Radix,
    source: Format,
    target: Format,
    policy: Policy,
    mode: ReadMode,
    steps: &mut Steps<L>,
) -> Result<Image, ParseFixedError>
    ensures ok { IsOk result ↔ ((bits : ℤ) × (overflowed : Bool)
        × IsRespelled mode radix bytes.now policy source target bits overflowed) }
    ensures reached { IfOk result (λ s. IsRespelled mode radix bytes.now policy source target
        (number_of_image s) s.is_out_of_range) }
    ensures range { IfOk result (λ s. IsInRange target.signed target.width (number_of_image s)) }
    ensures wide { IfOk result (λ s. IsWide (number_of_image s)) }
    ensures refused { IfErr result (λ kind. IsRefusal mode radix bytes.now policy source target kind) }
    ensures cost { steps.new ≤ steps.old + 8 * length bytes.now + 576 }
{
    let task = Task {
        radix,
        source,
        target,
        policy,
        mode,
        numeral: bytes,
    };
    reach(bytes, &task, steps)
}

/// A numeral, the format that it is read into, the format that it is brought into, what to do with a number that is out
/// of range, and how the numeral is rounded.
#[derive(Drop)]
pub(crate) struct Task<'a> {
    pub(crate) radix: Radix,
    pub(crate) source: Format,
    pub(crate) target: Format,
    pub(crate) policy: Policy,
    pub(crate) mode: ReadMode,
    pub(crate) numeral: &'a [u8],
}

/// Reads a task's numeral, at the end of a text, into the source format, and brings the number into the target format
/// by the policy. Returns its image there, and whether a number on the way was out of its format's range.
///
/// The error is the reason why the bytes are not a numeral, or `Overflow` if they are one and under `Checked` its read
/// number is out of the source's range or, rounded down, out of the target's.
#[inline(always)]
pub(crate) fn reach<L: Ledger>(
    text: &[u8],
    task: &Task<'_>,
    steps: &mut Steps<L>,
) -> Result<Image, ParseFixedError>
    requires short { length task.now.numeral.now ≤ length text.now }
    requires ending { drop (length text.now - length task.now.numeral.now) text.now ≡ task.now.numeral.now }
    ensures ok { IsOk result ↔ ((bits : ℤ) × (overflowed : Bool) × IsRespelled task.now.mode task.now.radix
        task.now.numeral.now task.now.policy task.now.source task.now.target bits overflowed) }
    ensures reached { IfOk result (λ s. IsRespelled task.now.mode task.now.radix task.now.numeral.now
        task.now.policy task.now.source task.now.target (number_of_image s) s.is_out_of_range) }
    ensures range { IfOk result (λ s. IsInRange task.now.target.signed task.now.target.width (number_of_image s)) }
    ensures wide { IfOk result (λ s. IsWide (number_of_image s)) }
    ensures refused { IfErr result (λ kind. IsRefusal task.now.mode task.now.radix task.now.numeral.now
        task.now.policy task.now.source task.now.target kind) }
    ensures cost { steps.new ≤ steps.old + 8 * length task.now.numeral.now + 576 }
{
    let from = text.len() - task.numeral.len();
    let source_frac = task.source.frac();
    let found = read_ending(text, from, task.radix, task.source, task.mode, steps)?;
    let in_source = found.number().image(task.source, task.policy);
    let reached = reformat_signed(
        task.target,
        task.policy,
        in_source.negative,
        in_source.magnitude,
        source_frac,
    );
    if is_refused(
        task.policy,
        in_source.is_out_of_range,
        reached.is_out_of_range,
    ) {
        return Err(ParseFixedError::new(ParseErrorKind::Overflow));
    }
    Ok(Image {
        negative: reached.negative,
        magnitude: reached.magnitude,
        is_out_of_range: in_source.is_out_of_range | reached.is_out_of_range,
    })
}

/// Returns a number in a format's range as bits by the format's sign rule.
fn bits_of(format: Format, number: i128) -> Bits
    requires { IsInRange format.signed format.width number }
    ensures number { number_of result ≡ number }
    ensures sign { is_signed result ≡ format.signed }
{
    if format.signed() {
        Bits::Signed(number as i64)
    } else {
        Bits::Unsigned(number as u64)
    }
}
