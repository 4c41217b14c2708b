//! JSON texts and objects.
//!
//! Numbers are texts, because most readers of JSON take a number for a float. Errors are in full, because no screen is
//! filled. `given` has for each byte the character of that number, so it also holds bytes that are not UTF-8, and
//! different words have different texts.

ghost use Rattle.std.specs.Prelude.{◌≡◌, ◌+◌, ◌*◌, ◌≤◌, ◌++◌, length, take, codes};
ghost use Rattle.fixed_show.specs.Forms.{refusal};
ghost use Rattle.fixed_show.specs.JsonText.{json_byte, json_text, object_text};
ghost use Rattle.fixed_show.specs.declared.form.Form.TheVariants.{Members};

use crate::form::Form;
use crate::hex::push_hex_digits;
use crate::lines::push_refusal;
use text_buffer::TextBuffer;

/// The length of the longest object, in bytes.
pub const MAX_OBJECT: usize = 8000;

/// How many bytes of a text an object shows.
const MAX_GIVEN: usize = 768;

/// Appends a byte as it is written in a JSON text.
fn push_json_byte<const N: usize>(out: &mut TextBuffer<N>, byte: u8)
    requires room { length out.old + 6 ≤ N }
    ensures appended { out.new ≡ out.old ++ json_byte byte }
    ensures short { length out.new ≤ length out.old + 6 }
{
    if byte == b'"' || byte == b'\\' {
        out.push(b'\\');
        out.push(byte);
    } else if byte >= 32 && byte < 127 {
        out.push(byte);
    } else {
        out.push_bytes(b"\\u00");
        push_hex_digits(out, u64::from(byte), 2);
    }
}

/// Appends bytes as a JSON text.
fn push_json_text<const N: usize>(out: &mut TextBuffer<N>, bytes: &[u8])
    requires room { length out.old + (6 * length bytes.now + 2) ≤ N }
    ensures appended { out.new ≡ out.old ++ json_text bytes.now }
    ensures short { length out.new ≤ length out.old + (6 * length bytes.now + 2) }
{
    out.push(b'"');
    for byte in bytes {
        push_json_byte(out, *byte);
    }
    out.push(b'"');
}

/// Returns the first bytes of a text, which an object shows.
#[tactic(auto, using(std::proofs::lemmas::List::take_min))]
fn given_bytes(text: &[u8]) -> &[u8]
    ensures value { result.now ≡ take 768 text.now }
    ensures short { length result.now ≤ 768 }
{
    &text[..MAX_GIVEN.min(text.len())]
}

/// Appends the start of an object: the first 768 bytes of the given text.
pub fn push_given<const N: usize>(out: &mut TextBuffer<N>, text: &[u8])
    requires room { length out.old + 4620 ≤ N }
    ensures appended { out.new ≡ out.old ++ (codes "{\"given\":" ++ json_text (take 768 text.now)) }
    ensures short { length out.new ≤ length out.old + 4620 }
{
    out.push_bytes(b"{\"given\":");
    push_json_text(out, given_bytes(text));
}

/// Appends the object of a refused text, of at most `MAX_OBJECT` bytes.
pub fn push_refused_object<const N: usize>(out: &mut TextBuffer<N>, text: &[u8], message: &str)
    requires message { length message.now ≤ 64 }
    requires room { length out.old + MAX_OBJECT ≤ N }
    ensures appended { out.new ≡ out.old ++ object_text text.now (refusal Members message.now) }
    ensures short { length out.new ≤ length out.old + MAX_OBJECT }
{
    push_given(out, text);
    push_refusal(out, Form::Members, message);
    out.push(b'}');
}
