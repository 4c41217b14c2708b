//! The requests in the options of `fixed unpack`: which words of an input are read.

ghost use Rattle.std.specs.Prelude.{◌≡◌, ◌*◌, ◌-◌, ◌^◌, IfErr, IfOk, min};
ghost use Rattle.fixed.specs.Settings.{IsExcerptAsked};
ghost use Rattle.fixed.specs.declared.commands.unpack_words.Excerpt.{Excerpt};

use crate::settings::count_of;
use command_line::given::{Asked, Given};
use command_line::page::Row;

/// The words of an input that are read.
#[derive(Clone, Copy)]
pub struct Excerpt {
    /// How many bytes before them are skipped.
    pub skip: u64,
    /// How many words they are at most.
    pub count: u64,
}

impl Excerpt {
    /// Returns how many bytes are read at most, for words of `size` bytes.
    pub fn most_bytes(&self, size: usize) -> u64
        ensures { result ≡ min (self.now.count * size) (2 ^ 64 - 1) }
    {
        self.count.saturating_mul(size as u64)
    }
}

pub const SKIP: Row = Row {
    name: "skip",
    letter: None,
    value: "BYTES",
    choices: &[],
    help: "The first BYTES of an input are no words: a header",
};

pub const COUNT: Row = Row {
    name: "count",
    letter: None,
    value: "N",
    choices: &[],
    help: "At most N words of an input are read",
};

/// Returns the words of each input that the options request: all without them.
pub fn excerpt_of<'a>(given: &Given<'_, 'a>) -> Asked<'a, Excerpt>
    ensures value { IfOk result (λ excerpt. IsExcerptAsked given.now excerpt) }
    ensures refused { IfErr result (λ _. (excerpt : Excerpt) → ¬ IsExcerptAsked given.now excerpt) }
{
    let skip = match count_of(
        given,
        &SKIP,
        "0",
        "is not a count of bytes: it is a number from 0",
    ) {
        Ok(skip) => skip,
        Err(refusal) => return Err(refusal),
    };
    let count = match count_of(
        given,
        &COUNT,
        "18446744073709551615",
        "is not a count of words: it is a number from 0",
    ) {
        Ok(count) => count,
        Err(refusal) => return Err(refusal),
    };
    Ok(Excerpt { skip, count })
}
