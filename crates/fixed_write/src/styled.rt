//! Numbers in a style.

ghost use Rattle.std.specs.Prelude.{◌≡◌, ◌+◌, ◌*◌, ◌^◌, ◌≤◌, ◌<◌, ◌++◌, [], ◌∷◌, length, IfOk, Some, None};
ghost use Rattle.fixed_bits.specs.Ranges.{IsWide};
ghost use Rattle.fixed_write.specs.Styled.{IsStyledText, sign_and_prefix, base_of, is_upper, prefix_of};
ghost use Rattle.fixed_bits.specs.declared.mode.ReadMode.TheVariants.{NearestEven};
ghost use Rattle.fixed_write.specs.Inner.Digits.{AppendsRounded};
ghost use Rattle.fixed_write.specs.Inner.Figures.{HasBody};
ghost use Rattle.fixed_write.specs.Inner.Styling.{IsPointNotation, AppendsBody};

use crate::exponent::{Body, Tail, push_exponent_body};
use crate::places::{Split, push_exact_in, push_rounded_in, split_of};
use crate::printer::magnitude_of;
use crate::style::{Notation, Style};
use crate::text::{BodyParts, Text, padded};
use crate::uncounted::push_shortest_body;
use fixed_bits::ReadMode;
use std::alloc::Global;
use text_buffer::{NoMemory, TextBuffer};

/// Every value is exact with this many places, in each base. Further places are zeros, which are counted.
const EXACT_PLACES: u32 = 64;

/// Appends a value to a count of places in the base of a notation.
fn push_rounded_body(out: &mut Body, value: Split, notation: Notation, places: u32)
    requires notation { IsPointNotation notation }
    requires places { places ≤ 64 }
    requires room { length out.old ≤ 7 }
    ensures { AppendsRounded NearestEven (base_of notation) (is_upper notation)
        (value.whole * 2 ^ 64 + value.rest) 64 places out.old out.new }
{
    let mode = ReadMode::NearestEven;
    match notation {
        Notation::Bin => push_rounded_in::<2, 63, 144>(out, value, places, false, mode),
        Notation::Oct => push_rounded_in::<8, 21, 144>(out, value, places, false, mode),
        Notation::LowerHex => push_rounded_in::<16, 15, 144>(out, value, places, false, mode),
        Notation::UpperHex => push_rounded_in::<16, 15, 144>(out, value, places, true, mode),
        _ => push_rounded_in::<10, 19, 144>(out, value, places, false, mode),
    }
}

/// Appends a magnitude as shown without a precision.
fn push_plain_body(out: &mut Body, magnitude: u64, frac: u32, notation: Notation)
    requires notation { IsPointNotation notation }
    requires frac { frac ≤ 64 }
    requires room { length out.old ≤ 7 }
    ensures { AppendsBody notation None magnitude frac out.old out.new 0 }
{
    let value = split_of(magnitude, frac);
    match notation {
        Notation::Bin => push_exact_in::<2, 144>(out, value, false),
        Notation::Oct => push_exact_in::<8, 144>(out, value, false),
        Notation::LowerHex => push_exact_in::<16, 144>(out, value, false),
        Notation::UpperHex => push_exact_in::<16, 144>(out, value, true),
        _ => push_shortest_body(out, magnitude, frac),
    }
}

/// Appends the body of a number with a point, and returns how many zeros come after it.
fn push_point_body(out: &mut Body, magnitude: u64, frac: u32, style: &Style) -> usize
    requires notation { IsPointNotation style.now.notation }
    requires frac { frac ≤ 64 }
    requires room { length out.old ≤ 7 }
    ensures body { AppendsBody style.now.notation style.now.precision magnitude frac out.old out.new result }
    ensures zeros { result < 2 ^ 16 }
{
    match style.precision {
        Some(precision) => {
            let places = (precision as u32).min(EXACT_PLACES);
            push_rounded_body(out, split_of(magnitude, frac), style.notation, places);
            (precision as u32 - places) as usize
        }
        None => {
            push_plain_body(out, magnitude, frac, style.notation);
            0
        }
    }
}

/// Appends the body of a number, and the exponent to its own tail. Returns how many zeros are between them.
pub(crate) fn push_body(
    out: &mut Body,
    tail: &mut Tail,
    magnitude: u64,
    frac: u32,
    style: &Style,
) -> usize
    requires empty { out.old ≡ [] }
    requires no_tail { tail.old ≡ [] }
    requires frac { frac ≤ 64 }
    ensures body { HasBody style.now.notation style.now.precision magnitude frac out.new result tail.new }
    ensures zeros { result < 2 ^ 16 }
{
    match style.notation {
        Notation::LowerExp => {
            push_exponent_body(
                out,
                tail,
                magnitude,
                frac,
                Notation::LowerExp,
                style.precision,
            )
        }
        Notation::UpperExp => {
            push_exponent_body(
                out,
                tail,
                magnitude,
                frac,
                Notation::UpperExp,
                style.precision,
            )
        }
        _ => push_point_body(out, magnitude, frac, style),
    }
}

/// Returns the sign and the prefix, which come before a body.
pub(crate) fn sign_and_prefix(negative: bool, style: &Style) -> TextBuffer<8>
    ensures text { result ≡ sign_and_prefix style.now negative }
    ensures short { length result ≤ 3 }
{
    let mut out = TextBuffer::new();
    if negative {
        out.push(b'-');
    } else if style.plus {
        out.push(b'+');
    }
    if style.prefix {
        push_prefix(&mut out, style.notation);
    }
    out
}

/// Appends the prefix of a notation.
fn push_prefix(out: &mut TextBuffer<8>, notation: Notation)
    requires { length out.old ≤ 1 }
    ensures { out.new ≡ out.old ++ prefix_of notation }
{
    match notation {
        Notation::Bin => push_zero_and(out, b'b'),
        Notation::Oct => push_zero_and(out, b'o'),
        Notation::LowerHex | Notation::UpperHex => push_zero_and(out, b'x'),
        _ => {}
    }
}

/// Appends `0` and a letter.
fn push_zero_and(out: &mut TextBuffer<8>, letter: u8)
    requires { length out.old ≤ 1 }
    ensures { out.new ≡ out.old ++ 48 ∷ letter ∷ [] }
{
    out.push(b'0');
    out.push(letter);
}

/// Writes `value` ulps of 2^-`frac` in a style, in memory that is allocated once, exactly as much as the text needs.
///
/// The only error is that there is no memory.
pub fn to_text(alloc: Global, value: i128, frac: u32, style: &Style) -> Result<Text, NoMemory>
    requires wide { IsWide value }
    requires frac { frac ≤ 64 }
    ensures { IfOk result (λ t. IsStyledText style.now value frac t) }
{
    let before = sign_and_prefix(value < 0, style);
    let mut digits: Body = TextBuffer::new();
    let mut tail: Tail = TextBuffer::new();
    let zeros = push_body(&mut digits, &mut tail, magnitude_of(value), frac, style);
    padded(
        alloc,
        style,
        before.as_bytes(),
        &BodyParts {
            digits: digits.as_bytes(),
            zeros,
            tail: tail.as_bytes(),
        },
    )
}
