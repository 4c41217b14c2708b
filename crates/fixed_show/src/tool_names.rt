//! The names of a format in other tools.
//!
//! A signed format without whole bits has no name in Q notation: ARM's Q counts the sign bit as a whole bit, and TI's
//! would need a count of -1. Nor has a format with fewer than zero whole bits. The MATLAB name is that of a value,
//! `fi(_,s,w,f)`, because people type that; the type itself is `numerictype(s,w,f)`.

ghost use Rattle.std.specs.Prelude.{◌≡◌, ◌+◌, ◌≤◌, ◌≤ℤ◌, ◌++◌, ◌-ℤ◌, neg_ℤ, pos, codes, length};
ghost use Rattle.fixed_bits.specs.Ranges.{IsWide};
ghost use Rattle.fixed_show.specs.Forms.{fact};
ghost use Rattle.fixed_show.specs.ToolNames.{format_q_facts, head_text, hls_name, matlab_name, name_facts, no_q_facts};
ghost use Rattle.fixed_show.specs.ToolNames.{pair_text, q_facts, q_text, vhdl_name};

use crate::form::{Form, end_byte, push_label};
use crate::lines::{frac_of, push_fact};
use fixed_bits::Format;
use fixed_write::push_integer;
use text_buffer::TextBuffer;

/// A name with two numbers, and the text before, between and after them.
#[derive(Clone, Copy)]
struct Pair<'a> {
    head: &'a [u8],
    first: i128,
    mark: &'a [u8],
    second: i128,
    tail: &'a [u8],
}

/// Appends a fact: a name with two numbers. Its other parts have at most ten bytes each.
fn push_pair_fact<const N: usize>(out: &mut TextBuffer<N>, form: Form, key: &[u8], pair: &Pair<'_>)
    requires first { IsWide pair.now.first }
    requires second { IsWide pair.now.second }
    requires key { length key.now ≤ 10 }
    requires head { length pair.now.head.now ≤ 10 }
    requires mark { length pair.now.mark.now ≤ 10 }
    requires tail { length pair.now.tail.now ≤ 10 }
    requires room { length out.old + 88 ≤ N }
    ensures appended { out.new ≡ out.old ++ fact form key.now (pair_text pair.now.head.now pair.now.first
        pair.now.mark.now pair.now.second pair.now.tail.now) }
    ensures short { length out.new ≤ length out.old + 88 }
{
    push_label(out, form, key);
    out.push_bytes(pair.head);
    push_integer(out, pair.first);
    out.push_bytes(pair.mark);
    push_integer(out, pair.second);
    out.push_bytes(pair.tail);
    out.push(end_byte(form));
}

/// Chooses the prefix of a name by whether the format is signed.
fn head_of<'a>(signed: bool, with_sign: &'a [u8], without_sign: &'a [u8]) -> &'a [u8]
    ensures { result.now ≡ head_text signed with_sign.now without_sign.now }
{
    if signed { with_sign } else { without_sign }
}

/// Appends a fact: two counts in Q notation.
fn push_q_fact<const N: usize>(
    out: &mut TextBuffer<N>,
    form: Form,
    key: &[u8],
    signed: bool,
    whole: u32,
    frac: u32,
)
    requires whole { whole ≤ 64 }
    requires frac { frac ≤ 64 }
    requires key { length key.now ≤ 10 }
    requires room { length out.old + 88 ≤ N }
    ensures appended { out.new ≡ out.old ++ fact form key.now (q_text signed whole frac) }
    ensures short { length out.new ≤ length out.old + 88 }
{
    let pair = Pair {
        head: head_of(signed, b"Q", b"UQ"),
        first: i128::from(whole),
        mark: b".",
        second: i128::from(frac),
        tail: b"",
    };
    push_pair_fact(out, form, key, &pair);
}

/// Appends that there are no names in Q.
fn push_no_q_facts<const N: usize>(out: &mut TextBuffer<N>, form: Form)
    requires room { length out.old + 176 ≤ N }
    ensures appended { out.new ≡ out.old ++ no_q_facts form }
    ensures short { length out.new ≤ length out.old + 176 }
{
    match form {
        Form::Lines => {
            push_fact(out, Form::Lines, b"ARM", b"none");
            push_fact(out, Form::Lines, b"TI", b"none");
        }
        Form::Members => out.push_bytes(b",\"ARM\":null,\"TI\":null"),
    }
}

/// Appends the names in ARM's and TI's Q of a format with `whole` whole bits, or that there are none.
fn push_q_facts<const N: usize>(
    out: &mut TextBuffer<N>,
    form: Form,
    signed: bool,
    whole: u32,
    frac: u32,
)
    requires whole { whole ≤ 64 }
    requires frac { frac ≤ 64 }
    requires room { length out.old + 176 ≤ N }
    ensures appended { out.new ≡ out.old ++ q_facts form signed whole frac }
    ensures short { length out.new ≤ length out.old + 176 }
{
    if signed && whole == 0 {
        push_no_q_facts(out, form);
    } else {
        push_q_fact(out, form, b"ARM", signed, whole, frac);
        push_q_fact(out, form, b"TI", signed, whole - u32::from(signed), frac);
    }
}

/// Appends the names of a format in ARM's and TI's Q, or that there are none.
fn push_format_q_facts<const N: usize>(out: &mut TextBuffer<N>, form: Form, format: Format)
    requires room { length out.old + 176 ≤ N }
    ensures appended { out.new ≡ out.old ++ format_q_facts form format }
    ensures short { length out.new ≤ length out.old + 176 }
{
    let width = format.width();
    let frac = frac_of(format);
    if frac <= width {
        push_q_facts(out, form, format.signed(), width - frac, frac);
    } else {
        push_no_q_facts(out, form);
    }
}

/// Appends the name in C++ for high-level synthesis.
fn push_hls_fact<const N: usize>(
    out: &mut TextBuffer<N>,
    form: Form,
    signed: bool,
    width: u32,
    whole: i32,
)
    requires width { width ≤ 64 }
    requires least { neg_ℤ (pos 64) ≤ℤ whole }
    requires room { length out.old + 88 ≤ N }
    ensures appended { out.new ≡ out.old ++ fact form (codes "HLS") (hls_name signed width whole) }
    ensures short { length out.new ≤ length out.old + 88 }
{
    let pair = Pair {
        head: head_of(signed, b"ap_fixed<", b"ap_ufixed<"),
        first: i128::from(width),
        mark: b",",
        second: i128::from(whole),
        tail: b">",
    };
    push_pair_fact(out, form, b"HLS", &pair);
}

/// The power of two of the highest bit.
fn highest_bit(whole: i32) -> i128
    requires { neg_ℤ (pos 64) ≤ℤ whole }
    ensures value { result ≡ whole -ℤ pos 1 }
    ensures wide { IsWide result }
{
    i128::from(whole) - 1
}

/// The power of two of the lowest bit.
fn lowest_bit(frac: u32) -> i128
    requires { frac ≤ 64 }
    ensures value { result ≡ neg_ℤ (pos frac) }
    ensures wide { IsWide result }
{
    -i128::from(frac)
}

/// Appends the name in VHDL.
fn push_vhdl_fact<const N: usize>(
    out: &mut TextBuffer<N>,
    form: Form,
    signed: bool,
    whole: i32,
    frac: u32,
)
    requires least { neg_ℤ (pos 64) ≤ℤ whole }
    requires frac { frac ≤ 64 }
    requires room { length out.old + 88 ≤ N }
    ensures appended { out.new ≡ out.old ++ fact form (codes "VHDL") (vhdl_name signed whole frac) }
    ensures short { length out.new ≤ length out.old + 88 }
{
    let pair = Pair {
        head: head_of(signed, b"sfixed(", b"ufixed("),
        first: highest_bit(whole),
        mark: b" downto ",
        second: lowest_bit(frac),
        tail: b")",
    };
    push_pair_fact(out, form, b"VHDL", &pair);
}

/// Appends the name in MATLAB.
fn push_matlab_fact<const N: usize>(
    out: &mut TextBuffer<N>,
    form: Form,
    signed: bool,
    width: u32,
    frac: u32,
)
    requires width { width ≤ 64 }
    requires frac { frac ≤ 64 }
    requires room { length out.old + 88 ≤ N }
    ensures appended { out.new ≡ out.old ++ fact form (codes "MATLAB") (matlab_name signed width frac) }
    ensures short { length out.new ≤ length out.old + 88 }
{
    let pair = Pair {
        head: head_of(signed, b"fi(_,1,", b"fi(_,0,"),
        first: i128::from(width),
        mark: b",",
        second: i128::from(frac),
        tail: b")",
    };
    push_pair_fact(out, form, b"MATLAB", &pair);
}

/// Appends each name of a format in other tools.
pub(crate) fn push_names<const N: usize>(out: &mut TextBuffer<N>, form: Form, format: Format)
    requires room { length out.old + 440 ≤ N }
    ensures appended { out.new ≡ out.old ++ name_facts form format }
    ensures short { length out.new ≤ length out.old + 440 }
{
    let width = format.width();
    let frac = frac_of(format);
    let whole = format.whole_length();
    push_format_q_facts(out, form, format);
    push_hls_fact(out, form, format.signed(), width, whole);
    push_vhdl_fact(out, form, format.signed(), whole, frac);
    push_matlab_fact(out, form, format.signed(), width, frac);
}
