//! Shows a numeral in a format: its bits, its errors, its neighbours and whether it was in range.

ghost use Rattle.std.specs.Prelude.{◌≡◌, ◌↔◌, ◌+◌, ◌*◌, ◌≤◌, ◌++◌, length, codes, IfOk, IfErr, IfSome, IsTrue};
ghost use Rattle.std.specs.Prelude.{true, false, is_some};
ghost use Rattle.std.specs.Fmt.{signed_decimal};
ghost use Rattle.fixed_bits.specs.Numbers.{number_of_image};
ghost use Rattle.fixed_bits.specs.Ranges.{IsInRange, IsWide};
ghost use Rattle.fixed_numeral.specs.Numeral.{HasNumeral, IsNumeral, Parts};
ghost use Rattle.fixed_read.specs.Reading.{IsWholeUlps};
ghost use Rattle.fixed_write.specs.Texts.{IsShortestText, shortest_text};
ghost use Rattle.fixed_show.specs.Blocks.{Appends};
ghost use Rattle.fixed_bits.specs.declared.format.Policy.{Policy as PolicyOf};
ghost use Rattle.fixed_bits.specs.declared.mode.ReadMode.{ReadMode as ReadModeOf};
ghost use Rattle.fixed_show.specs.Forms.{fact, refusal};
ghost use Rattle.fixed_show.specs.JsonText.{object_text};
ghost use Rattle.fixed_show.specs.ShowBlock.{AreShowFacts, HasNoBits, IsBetween, IsReadAs, IsShowBlock, IsShowObject};
ghost use Rattle.fixed_show.specs.ShowBlock.{IsShown, IsShownError, IsUnread, neighbours, no_neighbours, range_text};
ghost use Rattle.fixed_show.specs.declared.form.Form.TheVariants.{Lines, Members};

use crate::bits::push_values;
use crate::errors::brief_decimal;
use crate::form::{Form, push_label};
use crate::json::{MAX_OBJECT, push_given};
use crate::lines::{
    MAX_BLOCK, frac_of, push_fact, push_integer_fact, push_refusal, push_shortest_fact,
};
use crate::measure::Measure;
use crate::ulps::{push_error, push_error_fact};
use fixed_bits::{Format, Image, Policy, ReadMode, is_refused};
use fixed_enclose::enclose;
use fixed_numeral::{ParseErrorKind, ParseFixedError, Radix};
use fixed_read::read_format;
use fixed_steps::Steps;
use fixed_write::{push_integer, push_shortest};
use std::sync::ledger::Ledger;
use text_buffer::TextBuffer;

/// The bits that a numeral is read as, and what is known of them.
#[derive(Drop)]
pub struct Shown {
    /// The bits.
    pub bits: i128,
    /// Whether the read number was out of range under the policy.
    pub overflowed: bool,
    /// Whether the numeral was a whole number of ulps, so that nothing was rounded.
    pub is_exact: bool,
}

/// Reads a numeral into a format.
///
/// # Errors
///
/// Refuses other bytes with the kind of their cause, and under `Checked` a number out of range as `Overflow`.
pub fn read_shown<L: Ledger>(
    text: &[u8],
    radix: Radix,
    format: Format,
    policy: Policy,
    mode: ReadMode,
    steps: &mut Steps<L>,
) -> Result<Shown, ParseFixedError>
    ensures read { IfOk result (λ s. IsReadAs mode radix text.now format policy s.bits s.overflowed) }
    ensures wide { IfOk result (λ s. IsWide s.bits) }
    ensures exact { IfOk result (λ s. (p : Parts) → HasNumeral radix text.now p
        → IsTrue s.is_exact ↔ IsWholeUlps radix p format.frac) }
    ensures unread { IfErr result (λ kind. IsUnread mode radix text.now format policy kind) }
    ensures cost { steps.new ≤ steps.old + 8 * length text.now + 128 }
{
    let found = match read_format(text, radix, format, mode, steps) {
        Ok(found) => found,
        Err(error) => return Err(error),
    };
    match found.image(policy) {
        Some(bits) => Ok(Shown {
            bits,
            overflowed: found.is_out_of_range_by(policy),
            is_exact: found.is_exact(),
        }),
        None => Err(ParseFixedError::new(ParseErrorKind::Overflow)),
    }
}

/// Reads a numeral into a format, as `read_shown` does, and returns its image by sign and magnitude.
///
/// # Errors
///
/// Those of `read_shown`.
#[inline]
pub fn read_image<L: Ledger>(
    text: &[u8],
    radix: Radix,
    format: Format,
    policy: Policy,
    mode: ReadMode,
    steps: &mut Steps<L>,
) -> Result<Image, ParseFixedError>
    ensures read { IfOk result (λ image. IsReadAs mode radix text.now format policy (number_of_image image)
        image.is_out_of_range) }
    ensures range { IfOk result (λ image. IsInRange format.signed format.width (number_of_image image)) }
    ensures unread { IfErr result (λ kind. IsUnread mode radix text.now format policy kind) }
    ensures cost { steps.new ≤ steps.old + 8 * length text.now + 128 }
{
    let found = match read_format(text, radix, format, mode, steps) {
        Ok(found) => found,
        Err(error) => return Err(error),
    };
    let image = found.number().image(format, policy);
    if is_refused(policy, image.is_out_of_range, false) {
        return Err(ParseFixedError::new(ParseErrorKind::Overflow));
    }
    Ok(image)
}

/// Appends two neighbours, each as its shortest text and its bits.
fn push_neighbours<const N: usize, L: Ledger>(
    out: &mut TextBuffer<N>,
    form: Form,
    low: i128,
    high: i128,
    frac: u32,
    steps: &mut Steps<L>,
)
    requires low { IsWide low }
    requires high { IsWide high }
    requires frac { frac ≤ 64 }
    requires room { length out.old + 202 ≤ N }
    ensures appended { out.new ≡ out.old
        ++ neighbours form (shortest_text low frac) low (shortest_text high frac) high }
    ensures low { IsShortestText low frac (shortest_text low frac) }
    ensures high { IsShortestText high frac (shortest_text high frac) }
    ensures short { length out.new ≤ length out.old + 202 }
    ensures cost { steps.new ≤ steps.old + 96 }
{
    match form {
        Form::Lines => {
            push_label(out, Form::Lines, b"between");
            push_neighbour(out, low, frac, steps);
            out.push_bytes(b" and ");
            push_neighbour(out, high, frac, steps);
            out.push(b'\n');
        }
        Form::Members => {
            push_shortest_fact(out, Form::Members, b"low", low, frac, steps);
            push_integer_fact(out, Form::Members, b"low_bits", low);
            push_shortest_fact(out, Form::Members, b"high", high, frac, steps);
            push_integer_fact(out, Form::Members, b"high_bits", high);
        }
    }
}

/// Appends that there are no neighbours.
fn push_no_neighbours<const N: usize>(out: &mut TextBuffer<N>, form: Form)
    requires room { length out.old + 202 ≤ N }
    ensures appended { out.new ≡ out.old ++ no_neighbours form }
    ensures short { length out.new ≤ length out.old + 202 }
{
    match form {
        Form::Lines => push_fact(out, Form::Lines, b"between", b"no two values of the format"),
        Form::Members => {
            out.push_bytes(b",\"low\":null,\"low_bits\":null,\"high\":null,\"high_bits\":null");
        }
    }
}

/// Appends the shortest text of `bits` ulps of 2^-`frac`, and `bits` in parentheses.
fn push_neighbour<const N: usize, L: Ledger>(
    out: &mut TextBuffer<N>,
    bits: i128,
    frac: u32,
    steps: &mut Steps<L>,
)
    requires wide { IsWide bits }
    requires frac { frac ≤ 64 }
    requires room { length out.old + 72 ≤ N }
    ensures appended { out.new ≡ out.old ++ (shortest_text bits frac
        ++ (codes " (" ++ (signed_decimal bits ++ codes ")"))) }
    ensures shortest { IsShortestText bits frac (shortest_text bits frac) }
    ensures short { length out.new ≤ length out.old + 72 }
    ensures cost { steps.new ≤ steps.old + 48 }
{
    push_shortest(out, bits, frac, steps);
    out.push_bytes(b" (");
    push_integer(out, bits);
    out.push_bytes(b")");
}

/// Appends the neighbours of a numeral.
fn push_between<const N: usize, L: Ledger>(
    out: &mut TextBuffer<N>,
    form: Form,
    text: &[u8],
    radix: Radix,
    format: Format,
    steps: &mut Steps<L>,
)
    requires numeral { IsNumeral radix text.now }
    requires room { length out.old + 202 ≤ N }
    ensures between { Appends (IsBetween form radix text.now format) 202 out.old out.new }
    ensures cost { steps.new ≤ steps.old + 16 * length text.now + 1248 }
{
    match enclose(text, radix, format, steps) {
        Ok(ends) => push_neighbours(out, form, ends.lo, ends.hi, frac_of(format), steps),
        Err(_) => push_no_neighbours(out, form),
    }
}

/// Appends whether a read number was in range.
fn push_range<const N: usize>(out: &mut TextBuffer<N>, form: Form, overflowed: bool)
    requires room { length out.old + 26 ≤ N }
    ensures appended { out.new ≡ out.old ++ fact form (codes "range") (range_text overflowed) }
    ensures short { length out.new ≤ length out.old + 26 }
{
    if overflowed {
        push_fact(out, form, b"range", b"overflowed");
    } else {
        push_fact(out, form, b"range", b"fits");
    }
}

/// Appends the text of the error of the bits that a numeral is read as, in full if the numeral is brief. Returns false
/// and appends nothing if the numeral is refused. There must be room for 1,380 bytes.
pub fn push_error_of<const N: usize, L: Ledger>(
    text: &[u8],
    radix: Radix,
    format: Format,
    policy: Policy,
    mode: ReadMode,
    out: &mut TextBuffer<N>,
    steps: &mut Steps<L>,
) -> bool
    requires room { length out.old + 1380 ≤ N }
    ensures shown { result ≡ true
        → Appends (IsShownError mode radix text.now format policy) 1380 out.old out.new }
    ensures none { result ≡ false → HasNoBits mode radix text.now format policy × (out.new ≡ out.old) }
    ensures cost { steps.new ≤ steps.old + 10 * length text.now + 1565 }
{
    match read_shown(text, radix, format, policy, mode, steps) {
        Ok(shown) => {
            let numeral = brief_decimal(text, radix, steps);
            push_error(
                out,
                Form::Members,
                Measure::Value,
                shown.bits,
                frac_of(format),
                &numeral,
            );
            true
        }
        Err(_) => false,
    }
}

/// Appends the facts of the bits that a numeral was read as.
fn push_shown<const N: usize, L: Ledger>(
    out: &mut TextBuffer<N>,
    form: Form,
    shown: &Shown,
    text: &[u8],
    radix: Radix,
    format: Format,
    steps: &mut Steps<L>,
)
    requires numeral { IsNumeral radix text.now }
    requires wide { IsWide shown.now.bits }
    requires room { length out.old + 3301 ≤ N }
    ensures shown { (mode : ReadModeOf) (policy : PolicyOf)
        → IsReadAs mode radix text.now format policy shown.now.bits shown.now.overflowed
        → Appends (IsShown form mode radix text.now format policy) 3301 out.old out.new }
    ensures short { length out.new ≤ length out.old + 3301 }
    ensures cost { steps.new ≤ steps.old + 18 * length text.now + 2733 }
{
    push_values(out, form, shown.bits, format, steps);
    let frac = frac_of(format);
    let numeral = brief_decimal(text, radix, steps);
    push_error_fact(
        out,
        form,
        b"error",
        Measure::Value,
        shown.bits,
        frac,
        &numeral,
    );
    push_error_fact(
        out,
        form,
        b"ulps",
        Measure::Ulps,
        shown.bits,
        frac,
        &numeral,
    );
    push_between(out, form, text, radix, format, steps);
    push_range(out, form, shown.overflowed);
}

/// Appends the facts of a numeral in a format, or why it is refused. Returns that message if it is refused.
fn push_show_facts<const N: usize, L: Ledger>(
    out: &mut TextBuffer<N>,
    form: Form,
    text: &[u8],
    radix: Radix,
    format: Format,
    policy: Policy,
    mode: ReadMode,
    steps: &mut Steps<L>,
) -> Option<&'static str>
    requires room { length out.old + 3301 ≤ N }
    ensures facts { Appends (AreShowFacts form mode radix text.now format policy (is_some result)) 3301 out.old
        out.new }
    ensures refused { IfSome result (λ m. out.new ≡ out.old ++ refusal form m.now) }
    ensures cost { steps.new ≤ steps.old + 26 * length text.now + 3307 }
{
    match read_shown(text, radix, format, policy, mode, steps) {
        Ok(shown) => {
            push_shown(out, form, &shown, text, radix, format, steps);
            None
        }
        Err(error) => {
            let message = error.message();
            push_refusal(out, form, message);
            Some(message)
        }
    }
}

/// Appends the block of a numeral in a format: the shortest text of the bits that it is read as, the bits in decimal
/// and in hexadecimal, their exact value, the exact error (that value less the numeral's), the error in ulps, the two
/// values of the format that enclose the numeral, and whether the read number was in range. An error is written if the
/// numeral, in decimal and without an exponent, has at most 100 digits before the point and 1,100 after it; otherwise
/// the line says that the numeral is too long. An error with more than 60 digits after the point is given as the least
/// power of ten that it is below. A refused numeral gets only one line, `error: ` and why, and that message is
/// returned. There must be room for `MAX_BLOCK` bytes. It takes at most 26 steps for each byte, and 3,307, not counting
/// the arithmetic of the errors: at most some 5,000 passes over a number of 144 limbs.
pub fn show_block<const N: usize, L: Ledger>(
    text: &[u8],
    radix: Radix,
    format: Format,
    policy: Policy,
    mode: ReadMode,
    out: &mut TextBuffer<N>,
    steps: &mut Steps<L>,
) -> Option<&'static str>
    requires room { length out.old + MAX_BLOCK ≤ N }
    ensures block { Appends (IsShowBlock mode radix text.now format policy (is_some result)) MAX_BLOCK out.old out.new }
    ensures refused { IfSome result (λ m. out.new ≡ out.old ++ refusal Lines m.now) }
    ensures cost { steps.new ≤ steps.old + 26 * length text.now + 3307 }
{
    push_show_facts(out, Form::Lines, text, radix, format, policy, mode, steps)
}

/// Appends the same as a JSON object of at most `MAX_OBJECT` bytes, with each written error in full. Its first member,
/// `given`, has the first 768 bytes of the numeral. `refused` is the returned message.
pub fn show_object<const N: usize, L: Ledger>(
    text: &[u8],
    radix: Radix,
    format: Format,
    policy: Policy,
    mode: ReadMode,
    out: &mut TextBuffer<N>,
    steps: &mut Steps<L>,
) -> Option<&'static str>
    requires room { length out.old + MAX_OBJECT ≤ N }
    ensures object { Appends (IsShowObject mode radix text.now format policy (is_some result)) MAX_OBJECT out.old
        out.new }
    ensures refused { IfSome result (λ m. out.new ≡ out.old ++ object_text text.now (refusal Members m.now)) }
    ensures cost { steps.new ≤ steps.old + 26 * length text.now + 3307 }
{
    push_given(out, text);
    let refused = push_show_facts(out, Form::Members, text, radix, format, policy, mode, steps);
    out.push(b'}');
    refused
}
