//! How facts are written: in lines for people, or as members of a JSON object.

ghost use Rattle.std.specs.Prelude.{◌≡◌, ◌+◌, ◌≤◌, ◌++◌, length};
ghost use Rattle.fixed_show.specs.Forms.{end_byte, label};

use text_buffer::TextBuffer;

/// How facts are written. Each has a key and a text.
#[derive(Clone, Copy, Debug, PartialEq, Eq)]
pub enum Form {
    /// One line each: the key in ten columns, and the text.
    Lines,
    /// One member of a JSON object each, after a comma: the key and the text, both in quotes.
    Members,
}

/// Appends the part of a fact before its text: the key, padded or in quotes.
pub(crate) fn push_label<const N: usize>(out: &mut TextBuffer<N>, form: Form, key: &[u8])
    requires key { length key.now ≤ 10 }
    requires room { length out.old + 15 ≤ N }
    ensures appended { out.new ≡ out.old ++ label form key.now }
    ensures short { length out.new ≤ length out.old + 15 }
{
    match form {
        Form::Lines => {
            let blanks = b"          ";
            out.push_bytes(key);
            out.push_bytes(&blanks[..10 - key.len()]);
        }
        Form::Members => {
            out.push_bytes(b",\"");
            out.push_bytes(key);
            out.push_bytes(b"\":\"");
        }
    }
}

/// Returns the byte after the text of a fact.
pub(crate) fn end_byte(form: Form) -> u8
    ensures { result ≡ end_byte form }
{
    match form {
        Form::Lines => b'\n',
        Form::Members => b'"',
    }
}
