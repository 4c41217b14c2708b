//! The lines of rejects, gathered before they are written to a sink.

ghost use Rattle.std.specs.Prelude.{◌≡◌, ◌≤◌, ◌+◌, ◌++◌, ◌∷◌, [], false, true, List, Some, ℕ, decimal, length};
ghost use Rattle.std.specs.Prelude.{option_map};
ghost use Rattle.line_rejects.specs.Rejects.{HasReject, IsNameField, Puts, PutsField, Writes, count_by, known_by};
ghost use Rattle.line_rejects.specs.Rejects.{place_field, sight_of};

use crate::shown::first_shown;
use itoa::Buffer;
use line_engine::{Output, Sink, write_whole};

/// Where the rejects go: a line for each refused line, with the input's name, if there is one, the number of the line,
/// a place within it, if there is one, the text and the cause, each after a tab. After a failed write nothing more is
/// written.
#[derive(Drop)]
pub struct Rejects<'n, K> {
    sink: Option<K>,
    // The bytes not yet written.
    held: Output,
    name: Option<&'n [u8]>,
    is_open: bool,
    has_failed: bool,
}

impl<'n, K> Rejects<'n, K> {
    /// Rejects that go nowhere.
    pub fn none() -> Rejects<'n, K>
        ensures open { result.is_open ≡ false }
        ensures failed { result.has_failed ≡ false }
    {
        Rejects {
            sink: None,
            held: Output::new(),
            name: None,
            is_open: false,
            has_failed: false,
        }
    }

    /// Rejects that go to this sink, with nothing put.
    pub fn to(sink: K) -> Rejects<'n, K>
        ensures sink { result.sink ≡ Some sink }
        ensures open { result.is_open ≡ true }
        ensures failed { result.has_failed ≡ false }
        ensures held { result.held ≡ [] }
    {
        Rejects {
            sink: Some(sink),
            held: Output::new(),
            name: None,
            is_open: true,
            has_failed: false,
        }
    }
}

/// Writes bytes to a sink, if there is one. Returns whether no write failed.
fn write_to<K: Sink>(sink: &mut Option<K>, bytes: &[u8]) -> bool
    ensures { Writes (known_by K.written sink.old) (known_by K.written sink.new) (count_by K.failures sink.old)
        (count_by K.failures sink.new) bytes.now result }
{
    match sink {
        Some(sink) => write_whole(sink, bytes).is_ok(),
        None => true,
    }
}

impl<'n, K: Sink> Rejects<'n, K> {
    /// Sets the name of the input whose refused lines come next. `None`: its lines have no name.
    pub fn name_input(&mut self, name: Option<&'n [u8]>)
        ensures name { self.new.name ≡ name.entry }
        ensures same { Puts (sight_of K.written K.failures self.old) (sight_of K.written K.failures self.new) [] }
    {
        self.name = name;
    }

    /// Whether a write failed.
    pub fn has_failed(&self) -> bool
        ensures { result ≡ self.now.has_failed }
    {
        self.has_failed
    }

    /// Writes the gathered bytes.
    pub fn flush(&mut self)
        ensures puts { Puts (sight_of K.written K.failures self.old) (sight_of K.written K.failures self.new) [] }
        ensures none { self.new.is_open ≡ true → self.new.held ≡ [] }
        ensures name { self.new.name ≡ self.old.name }
    {
        if !self.is_open {
            return;
        }
        if !write_to(&mut self.sink, self.held.as_bytes()) {
            self.is_open = false;
            self.has_failed = true;
        }
        self.held.clear();
    }

    /// Writes the gathered bytes if there is no room for this many more.
    fn make_room(&mut self, count: usize)
        requires { count ≤ 8192 }
        ensures puts { Puts (sight_of K.written K.failures self.old) (sight_of K.written K.failures self.new) [] }
        ensures room { self.new.is_open ≡ true → length self.new.held + count ≤ 8192 }
        ensures name { self.new.name ≡ self.old.name }
    {
        if self.held.room() < count {
            self.flush();
        }
    }

    /// Appends bytes.
    fn append(&mut self, bytes: &[u8])
        requires { length bytes.now ≤ 8192 }
        ensures puts { Puts (sight_of K.written K.failures self.old) (sight_of K.written K.failures self.new)
            bytes.now }
        ensures name { self.new.name ≡ self.old.name }
    {
        self.make_room(bytes.len());
        if self.is_open {
            self.held.push_bytes(bytes);
        }
    }

    /// Appends a text as it is shown, and a byte.
    fn append_field(&mut self, text: &[u8], end: u8)
        ensures puts { PutsField (sight_of K.written K.failures self.old) (sight_of K.written K.failures self.new)
            text.now end }
        ensures name { self.new.name ≡ self.old.name }
    {
        let mut rest = text;
        while !rest.is_empty() {
            let (shown, after) = first_shown(rest);
            self.append(shown.as_bytes());
            rest = after;
        }
        self.append(&[end]);
    }

    /// Appends a number and a tab.
    fn append_number(&mut self, number: u64)
        ensures puts { Puts (sight_of K.written K.failures self.old) (sight_of K.written K.failures self.new)
            (decimal number ++ 9 ∷ []) }
        ensures name { self.new.name ≡ self.old.name }
    {
        let mut digits = Buffer::new();
        self.append(digits.format(number).as_bytes());
        self.append(b"\t");
    }

    /// Appends the name of the input and a tab, if it has a name.
    fn append_name(&mut self)
        ensures puts { (first : List ℕ) × IsNameField (option_map (λ n. n.now) self.old.name) first
            × Puts (sight_of K.written K.failures self.old) (sight_of K.written K.failures self.new) first }
        ensures name { self.new.name ≡ self.old.name }
    {
        if let Some(name) = self.name {
            self.append_field(name, b'\t');
        }
    }

    /// Appends a place and a tab, if there is one.
    fn append_place(&mut self, place: Option<u64>)
        ensures puts { Puts (sight_of K.written K.failures self.old) (sight_of K.written K.failures self.new)
            (place_field place) }
        ensures name { self.new.name ≡ self.old.name }
    {
        if let Some(place) = place {
            self.append_number(place);
        }
    }

    /// Puts the line of a refused line: its number, a place within it, the refused text and the cause.
    #[cold]
    pub fn put(&mut self, number: u64, place: Option<u64>, text: &[u8], cause: &[u8])
        ensures puts { HasReject (option_map (λ n. n.now) self.old.name) number place text.now cause.now
            (sight_of K.written K.failures self.old) (sight_of K.written K.failures self.new) }
        ensures name { self.new.name ≡ self.old.name }
    {
        if !self.is_open {
            return;
        }
        self.append_name();
        self.append_number(number);
        self.append_place(place);
        self.append_field(text, b'\t');
        self.append_field(cause, b'\n');
    }
}
