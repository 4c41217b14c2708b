//! Output that is gathered before it is written.

ghost use Rattle.std.specs.Prelude.{◌≡◌, ◌≤◌, ◌<◌, ◌+◌, [], OnErr, OnOk, length};
ghost use Rattle.run_engine.specs.Seen.{Breaks, Puts};

use crate::streams::Streams;
use line_engine::{Failed, Output};

/// The devices of a run, and the bytes not yet written. Bytes are written in the order in which they were put.
#[derive(Drop)]
pub struct Gathered<I> {
    /// The devices.
    pub io: I,
    /// The bytes not yet written, at most 8,192. A machine may append to them.
    pub text: Output,
}

/// Writes the whole piece, in as many writes as the sink needs.
fn write_all<I: Streams>(io: &mut I, piece: &[u8]) -> Result<(), Failed>
    ensures ok { OnOk result (Puts (I.seen io.old) (I.seen io.new) [] [] piece.now) }
    ensures err { OnErr result (Breaks (I.seen io.old) (I.seen io.new) [] piece.now) }
{
    let mut rest = piece;
    while !rest.is_empty() {
        let count = io.write(rest)?;
        rest = &rest[count..];
    }
    Ok(())
}

impl<I: Streams> Gathered<I> {
    /// The devices, with nothing gathered.
    pub fn new(io: I) -> Gathered<I>
        ensures io { result.io ≡ io }
        ensures text { result.text ≡ [] }
    {
        Gathered {
            io,
            text: Output::new(),
        }
    }

    /// Writes the gathered bytes.
    #[inline]
    pub fn flush(&mut self) -> Result<(), Failed>
        ensures ok { OnOk result (Puts (I.seen self.old.io) (I.seen self.new.io) self.old.text self.new.text []) }
        ensures none { OnOk result (self.new.text ≡ []) }
        ensures err { OnErr result (Breaks (I.seen self.old.io) (I.seen self.new.io) self.old.text []) }
    {
        write_all(&mut self.io, self.text.as_bytes())?;
        self.text.clear();
        Ok(())
    }

    /// Makes room for `most` bytes and one more: writes the gathered bytes if there is less.
    #[inline]
    pub fn make_room(&mut self, most: usize) -> Result<(), Failed>
        requires { most < 8192 }
        ensures room { OnOk result (length self.new.text + most < 8192) }
        ensures ok { OnOk result (Puts (I.seen self.old.io) (I.seen self.new.io) self.old.text self.new.text []) }
        ensures err { OnErr result (Breaks (I.seen self.old.io) (I.seen self.new.io) self.old.text []) }
    {
        if self.text.room() <= most {
            return self.flush();
        }
        Ok(())
    }

    /// Puts any number of bytes. If they do not fit the buffer, they are written at once, after the gathered bytes.
    pub fn put(&mut self, bytes: &[u8]) -> Result<(), Failed>
        ensures ok { OnOk result
            (Puts (I.seen self.old.io) (I.seen self.new.io) self.old.text self.new.text bytes.now) }
        ensures err { OnErr result (Breaks (I.seen self.old.io) (I.seen self.new.io) self.old.text bytes.now) }
    {
        if self.text.room() < bytes.len() {
            self.flush()?;
            return write_all(&mut self.io, bytes);
        }
        self.text.push_bytes(bytes);
        Ok(())
    }
}
