//! The text of a name in a header, cut to a buffer's room.

ghost use Rattle.std.specs.Prelude.{◌≡◌, ◌+◌, ◌<◌, ◌≤◌, ◌++◌, [], ◌∷◌, if◌then◌else◌, length, take};
ghost use Rattle.column_engine.specs.Rows.{content, is_dropped};

use crate::field::is_dropped;
use crate::place::{Place, within_after};
use text_buffer::TextBuffer;

/// Appends a byte of a field if it belongs to the text.
fn push_kept<const N: usize>(place: Place, byte: u8, name: &mut TextBuffer<N>)
    requires { length name.old < N }
    ensures text { name.new ≡ name.old ++ (if is_dropped place byte then [] else byte ∷ []) }
    ensures short { length name.new ≤ length name.old + 1 }
{
    if !is_dropped(place, byte) {
        name.push(byte);
    }
}

/// Writes the text of a field, without the quotes around it and with doubled quotes as one, cut to the buffer's room.
pub fn write_name<const N: usize>(raw: &[u8], name: &mut TextBuffer<N>)
    ensures { name.new ≡ take N (content Place.Start raw.now) }
{
    name.clear();
    let mut place = Place::Start;
    'bytes: for at in 0..raw.len() {
        if name.room() == 0 {
            return;
        }
        push_kept(place, raw[at], name);
        place = within_after(place, raw[at]);
    }
}
