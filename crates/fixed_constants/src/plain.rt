//! Constants files as people write them: any blanks around the equals sign and before the format, and a comment after
//! it.
//!
//! Such a file is answered as its plain text, in which each line has one blank between words and no comment. A line has
//! the same number in both.

ghost use Rattle.std.specs.Prelude.{◌≡◌, ◌++◌, IfOk, OnOk};
ghost use Rattle.fixed_constants.specs.Plain.{
  IsPlainAnswer,
  after_other,
  after_text,
  is_due,
  is_text,
  kept_text,
  next_place,
  plain_line,
  plain_text,
};

use fixed_steps::Steps;
use line_engine::{MAX_LIMIT, NoMemory, WholeAnswer, WholeRule, first_line};
use std::alloc::{AllocError, Global};
use std::sync::ledger::Ledger;

/// Where a byte of a line stands.
#[derive(Clone, Copy, Debug, PartialEq, Eq)]
pub enum Place {
    /// Before the first word.
    Start,
    /// In a word.
    Word,
    /// After a word: a blank is due before the next.
    Gap,
    /// In a comment.
    Comment,
}

/// Whether a byte is part of a word, and not a blank or the sign of a comment.
fn is_text(byte: u8) -> bool
    ensures { result ≡ is_text byte }
{
    !(byte.is_ascii_whitespace() || byte == b'#')
}

/// Returns the place after a byte of a word. An equals sign is a word of its own.
fn after_text(byte: u8) -> Place
    ensures { result ≡ after_text byte }
{
    if byte == b'=' {
        Place::Gap
    } else {
        Place::Word
    }
}

/// Returns the place after a blank.
fn after_other(place: Place) -> Place
    ensures { result ≡ after_other place }
{
    match place {
        Place::Word => Place::Gap,
        _ => place,
    }
}

/// Returns the place after a byte.
fn next_place(place: Place, byte: u8) -> Place
    ensures { result ≡ next_place place byte }
{
    if place == Place::Comment || byte == b'#' {
        Place::Comment
    } else if byte.is_ascii_whitespace() {
        after_other(place)
    } else {
        after_text(byte)
    }
}

/// Whether a blank is due before a byte of a word.
fn is_due(place: Place, byte: u8) -> bool
    ensures { result ≡ is_due place byte }
{
    match place {
        Place::Start => false,
        Place::Word => byte == b'=',
        Place::Gap => true,
        Place::Comment => false,
    }
}

/// Appends what is kept of a byte, with the blank before it.
fn push_kept(text: &mut Vec<u8>, place: Place, byte: u8) -> Result<(), AllocError>
    ensures { OnOk result (text.new.items ≡ text.old.items ++ kept_text place byte) }
{
    if place == Place::Comment || !is_text(byte) {
        return Ok(());
    }
    if is_due(place, byte) {
        text.push(b' ')?;
    }
    text.push(byte)?;
    Ok(())
}

/// Appends a line without its comment, and with one blank between words.
fn push_plain_line(text: &mut Vec<u8>, line: &[u8]) -> Result<(), AllocError>
    ensures { OnOk result (text.new.items ≡ text.old.items ++ plain_line line.now) }
{
    let mut place = Place::Start;
    for byte in line {
        push_kept(text, place, *byte)?;
        place = next_place(place, *byte);
    }
    Ok(())
}

/// Returns the plain lines of a text, each with a newline.
fn plain_text(alloc: Global, text: &[u8]) -> Result<Vec<u8>, AllocError>
    ensures { IfOk result (λ plain. plain.items ≡ plain_text text.now) }
{
    let mut plain = Vec::new(alloc);
    let mut rest = text;
    while !rest.is_empty() {
        let (line, after) = first_line(rest);
        push_plain_line(&mut plain, line)?;
        plain.push(b'\n')?;
        rest = after;
    }
    Ok(plain)
}

/// The rule that answers a file as another rule answers its plain text.
#[derive(Clone, Copy)]
pub struct PlainRule<'r, R> {
    /// The other rule.
    pub rule: &'r R,
}

impl<'r, R: WholeRule<L>, L: Ledger> WholeRule<L> for PlainRule<'r, R> {
    ghost Answers = { λ plain. IsPlainAnswer (R.Answers plain.rule.now) };

    fn answer(
        &self,
        alloc: Global,
        input: &[u8],
        steps: &mut Steps<L>,
    ) -> Result<WholeAnswer, NoMemory> {
        match plain_text(alloc, input) {
            Ok(plain) if plain.len() as u64 <= MAX_LIMIT => self.rule.answer(alloc, &plain, steps),
            _ => Err(NoMemory),
        }
    }

    ghost one_law = { λ plain input. R.one_law plain.rule.now (plain_text input) };
}
