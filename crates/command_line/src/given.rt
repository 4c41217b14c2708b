//! The arguments of a command, and why they may be refused.

ghost use Rattle.std.specs.Prelude.{◌≡◌, ◌++◌, IfErr, IfOk, None, OnOk, Some, drop, map, option_map, string_bytes};
ghost use Rattle.command_line.specs.Words.{IsGiven, found_at, has_flag, keyword_at, value_of, values_if};
ghost use Rattle.command_line.specs.Words.{word_at};

use crate::page::{Operand, Row};
use clap::ArgMatches;
use std::alloc::{AllocError, Global};

/// Why a command line is refused.
#[derive(Clone, Copy, Debug)]
pub enum Refusal<'a> {
    /// There was no memory.
    NoMemory,
    /// A required operand is missing.
    Missing(&'static str),
    /// This argument is invalid, for this reason.
    Word(&'a str, &'static str),
    /// The option with this name is misplaced, for this reason.
    Option(&'static str, &'static str),
}

impl<'a> From<AllocError> for Refusal<'a> {
    fn from(_error: AllocError) -> Refusal<'a> {
        Refusal::NoMemory
    }
}

/// The request of a command line, or why it is refused.
pub type Asked<'a, T> = Result<T, Refusal<'a>>;

/// The arguments of a command.
#[derive(Drop)]
pub struct Given<'w, 'a> {
    matches: &'w ArgMatches<'a>,
    /// The operands: arguments that are neither options nor their values.
    pub words: Vec<&'a str>,
    // How many of them come before `--`: only these may be keywords.
    open: usize,
}

impl<'w, 'a> Given<'w, 'a> {
    /// Collects the operands that `clap` found, and the arguments after `--`.
    pub fn new(
        alloc: Global,
        matches: &'w ArgMatches<'a>,
        operands: &[Operand],
        after: &'a [String],
    ) -> Result<Self, AllocError>
        ensures { IfOk result (λ given. IsGiven matches.now operands.now (map string_bytes after.now) given) }
    {
        let mut words = Vec::new(alloc);
        'places: for at in 0..operands.len() {
            push_found(&mut words, matches, operands[at].name)?;
        }
        let open = words.len();
        'after: for at in 0..after.len() {
            words.push(after[at].as_str())?;
        }
        Ok(Given {
            matches,
            words,
            open,
        })
    }

    /// Returns the value of an option, which `clap` found under its name.
    pub fn value(&self, row: &Row) -> Option<&'a str>
        ensures { option_map (λ s. s.now) result ≡ value_of self.now row.now.name.now }
    {
        self.matches.get_str(row.name)
    }

    /// Returns all values of an option that may be given several times, in order, if it is given.
    pub fn values(&self, row: &Row) -> Option<&[&'a str]>
        ensures { option_map (λ words. map (λ s. s.now) words.now) result ≡ values_if self.now row.now.name.now }
    {
        self.matches.get_strs(row.name)
    }

    /// Whether an option without a value is given.
    pub fn has(&self, row: &Row) -> bool
        ensures { result ≡ has_flag self.now row.now.name.now }
    {
        self.matches.get_one(row.name).unwrap_or(false)
    }

    /// Returns the operand at an index, which must be given.
    pub fn needed(&self, place: usize, name: &'static str) -> Asked<'a, &'a str>
        ensures value { IfOk result (λ w. word_at self.now place ≡ Some w.now) }
        ensures refused { IfErr result (λ _. word_at self.now place ≡ None) }
    {
        match self.words.get(place) {
            Some(word) => Ok(*word),
            None => Err(Refusal::Missing(name)),
        }
    }

    /// Returns the operand at an index if it may be a keyword.
    pub fn keyword(&self, place: usize) -> Option<&'a str>
        ensures { option_map (λ s. s.now) result ≡ keyword_at self.now place }
    {
        if place < self.open {
            self.words.get(place).copied()
        } else {
            None
        }
    }

    /// Returns the operands from an index on.
    pub fn from(&self, place: usize) -> &[&'a str]
        ensures { result.now ≡ drop place self.now.words.items }
    {
        let all = self.words.as_slice();
        &all[place.min(all.len())..]
    }
}

/// Appends the operands that `clap` found under a name.
fn push_found<'a>(
    words: &mut Vec<&'a str>,
    matches: &ArgMatches<'a>,
    name: &str,
) -> Result<(), AllocError>
    ensures { OnOk result (map (λ s. s.now) words.new.items
        ≡ map (λ s. s.now) words.old.items ++ found_at matches.now name.now) }
{
    match matches.get_strs(name) {
        Some(found) => words.extend_from_slice(found),
        None => Ok(()),
    }
}

/// Splits arguments at the first `--`, which is dropped.
pub fn split_words(words: &[String]) -> (&[String], &[String]) {
    match words.iter().position(|word| word.as_str() == "--") {
        Some(place) => {
            let after = place.saturating_add(1);
            (
                words.get(..place).unwrap_or(&[]),
                words.get(after..).unwrap_or(&[]),
            )
        }
        None => (words, &[]),
    }
}

/// Whether a byte after a hyphen is the letter of an option.
fn is_letter(byte: u8, options: &[Row]) -> bool {
    let is_general = byte == b'h' || byte == b'V';
    is_general
        || options
            .iter()
            .any(|row| row.letter == Some(char::from(byte)))
}

/// Whether an argument of a command with numerals is an option: it begins with two hyphens, or with one and an option's
/// letter.
fn is_option(word: &str, options: &[Row]) -> bool {
    match word.as_bytes() {
        [b'-', b'-', ..] => true,
        [b'-', next, ..] => is_letter(*next, options),
        _ => false,
    }
}

/// Whether an argument is `--` and the option's name, or `-` and its letter.
fn is_row(word: &str, row: &Row) -> bool {
    match word.strip_prefix("--") {
        Some(name) => name == row.name,
        None => match word.strip_prefix('-') {
            Some(rest) => row.letter.is_some_and(|letter| is_one(rest, letter)),
            None => false,
        },
    }
}

/// Whether a text is this one character.
fn is_one(text: &str, letter: char) -> bool {
    match text.strip_prefix(letter) {
        Some(rest) => rest.is_empty(),
        None => false,
    }
}

/// Whether an argument is an option whose value is the next argument.
fn takes_next(word: &str, options: &[Row]) -> bool {
    options
        .iter()
        .any(|row| !row.value.is_empty() && is_row(word, row))
}

/// Returns an option and its value as one argument.
fn with_value(alloc: Global, option: &str, value: &str) -> Result<String, AllocError> {
    let mut text = String::from_str(alloc, option)?;
    text.push('=')?;
    text.push_str(value)?;
    Ok(text)
}

/// Appends the options among the arguments, each with its value, to `read`, and the other arguments to `others`.
fn sort_words(
    alloc: Global,
    words: &[String],
    options: &[Row],
    read: &mut Vec<String>,
    others: &mut Vec<String>,
) -> Result<(), AllocError> {
    let mut open: Option<&str> = None;
    for word in words {
        let word = word.as_str();
        match open.take() {
            Some(option) if !is_option(word, options) => {
                read.push(with_value(alloc, option, word)?)?;
                continue;
            }
            Some(option) => read.push(String::from_str(alloc, option)?)?,
            None => (),
        }
        if takes_next(word, options) {
            open = Some(word);
        } else if is_option(word, options) {
            read.push(String::from_str(alloc, word)?)?;
        } else {
            others.push(String::from_str(alloc, word)?)?;
        }
    }
    if let Some(option) = open {
        read.push(String::from_str(alloc, option)?)?;
    }
    Ok(())
}

/// Returns the arguments of a command with numerals for `clap`: the command and its options, then `--`, then all other
/// arguments in their order, so that no numeral is taken for an option.
pub fn sorted_words(
    alloc: Global,
    command: &str,
    words: &[String],
    options: &[Row],
) -> Result<Vec<String>, AllocError> {
    let mut read = Vec::new(alloc);
    let mut others = Vec::new(alloc);
    read.push(String::from_str(alloc, command)?)?;
    sort_words(alloc, words, options, &mut read, &mut others)?;
    read.push(String::from_str(alloc, "--")?)?;
    for word in others {
        read.push(word)?;
    }
    Ok(read)
}

/// Returns the option that an argument names, if its value may be left out.
fn open_row<'r>(word: &str, options: &'r [Row]) -> Option<&'r Row> {
    let name = word.strip_prefix("--")?;
    options
        .iter()
        .find(|row| row.may_lack_value() && row.name == name)
}

/// Returns an option and its value as one argument: `word` if it is a choice, else the first; and whether it is `word`.
fn filled(alloc: Global, row: &Row, word: &str) -> Result<(String, bool), AllocError> {
    let mut text = String::from_str(alloc, "--")?;
    text.push_str(row.name)?;
    text.push('=')?;
    let is_value = !row.wants_equals() && row.choices.iter().any(|choice| *choice == word);
    if is_value {
        text.push_str(word)?;
    } else if let [first, ..] = row.choices {
        text.push_str(first)?;
    }
    Ok((text, is_value))
}

/// Returns the arguments of a command for `clap`, with left-out option values filled in.
pub fn filled_words(
    alloc: Global,
    words: Vec<String>,
    options: &[Row],
) -> Result<Vec<String>, AllocError> {
    let mut all = Vec::new(alloc);
    let mut before = None;
    for word in words {
        let mut is_value = false;
        if let Some(row) = before {
            let (text, is_its_value) = filled(alloc, row, &word)?;
            all.push(text)?;
            is_value = is_its_value;
        }
        before = if is_value {
            None
        } else {
            open_row(&word, options)
        };
        if !is_value && before.is_none() {
            all.push(word)?;
        }
    }
    if let Some(row) = before {
        all.push(filled(alloc, row, "")?.0)?;
    }
    Ok(all)
}

/// Returns the arguments of a command for `clap`: `help COMMAND` becomes `COMMAND --help`.
pub fn plain_words(alloc: Global, words: &[String]) -> Result<Vec<String>, AllocError> {
    let (is_help, rest) = match words {
        [first, rest @ ..] if first.as_str() == "help" => (true, rest),
        _ => (false, words),
    };
    let mut all = Vec::new(alloc);
    for word in rest {
        all.push(String::from_str(alloc, word)?)?;
    }
    if is_help {
        all.push(String::from_str(alloc, "--help")?)?;
    }
    Ok(all)
}
