//! The report of a run that failed: one line, on its own sink.

ghost use Rattle.std.specs.Prelude.{◌≡◌, ◌≤◌, ◌<◌, length};
ghost use Rattle.fixed_io.specs.Report.{TellsEnd, cause_of, end_line};

use itoa::Buffer;
use line_engine::{Sink, Status, write_text};
use text_buffer::TextBuffer;

/// The longest place in a report, in bytes.
pub const MAX_PLACE: usize = 256;

/// Returns why a run ended with this code; empty for 0, 1 and 2, whose reason is in the output.
fn cause(code: u8) -> &'static str
    ensures cause { result.now ≡ cause_of code }
    ensures short { length result.now ≤ 64 }
{
    match code {
        3 => "a read failed",
        4 => "a write failed",
        5 => "there is no memory",
        6 => "the input is longer than the limit",
        _ => "",
    }
}

/// Returns the line that says where and why a run ended, and how many lines it had answered.
fn end_line(place: &[u8], cause: &str, answered: u64) -> TextBuffer<512>
    requires place { length place.now ≤ 256 }
    requires cause { length cause.now ≤ 64 }
    ensures { result ≡ end_line place.now cause.now answered }
{
    let mut digits = Buffer::new();
    let mut text = TextBuffer::new();
    text.push_bytes(place);
    text.push_bytes(b": ");
    text.push_bytes(cause.as_bytes());
    text.push_bytes(b", lines answered: ");
    text.push_bytes(digits.format(answered).as_bytes());
    text.push(b'\n');
    text
}

/// Writes one line on where and why a run ended with a code of at least 3, and after how many answered lines; for any
/// other code nothing. The place, of at most 256 bytes, is the program's name, and a file's if there is one.
pub fn report_end<K: Sink>(place: &[u8], code: u8, answered: u64, errors: &mut K)
    requires { length place.now ≤ 256 }
    ensures { TellsEnd place.now code answered (K.written errors.old) (K.written errors.new) (K.failures errors.old)
        (K.failures errors.new) }
{
    let cause = cause(code);
    if !cause.is_empty() {
        let line = end_line(place, cause, answered);
        write_text(line.as_bytes(), Status::Done, errors);
    }
}
