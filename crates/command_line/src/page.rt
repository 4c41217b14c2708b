//! A command as its help shows it: tables of its operands and options, which one function passes to `clap`.

use clap::{Arg, ArgAction, Command};
use std::alloc::{AllocError, Global};

/// An option.
#[derive(Clone, Copy)]
pub struct Row {
    /// Its name, after `--`.
    pub name: &'static str,
    /// Its letter, after `-`, if any.
    pub letter: Option<char>,
    /// The name of its value in help: empty if it takes none, in brackets if the value may be left out, with `=` in
    /// them if it is given only after this sign, and with three points after it if the option may be given several
    /// times.
    pub value: &'static str,
    /// The values that it takes, if these are a few; the first is the default if the value may be left out.
    pub choices: &'static [&'static str],
    /// Its description in help.
    pub help: &'static str,
}

impl Row {
    /// Whether the option takes a value that may be left out.
    pub fn may_lack_value(&self) -> bool {
        self.value.starts_with('[')
    }

    /// Whether the value is given only after `=`, so that the next argument is never taken for it.
    pub fn wants_equals(&self) -> bool {
        self.value.starts_with("[=")
    }

    /// Whether the option may be given several times.
    pub fn may_repeat(&self) -> bool {
        self.value.ends_with("...")
    }
}

/// The operands at one position.
#[derive(Clone, Copy)]
pub struct Operand {
    /// Their name in help.
    pub name: &'static str,
    /// Their description in help.
    pub help: &'static str,
}

/// A command.
#[derive(Clone, Copy)]
pub struct Page {
    /// Its name.
    pub name: &'static str,
    /// Another name, which help does not show; empty if it has none.
    pub hidden_name: &'static str,
    /// What it does.
    pub about: &'static str,
    /// Its usage.
    pub usage: &'static str,
    /// Its operands in order. The last one takes all remaining arguments.
    pub operands: &'static [Operand],
    /// Whether an argument that begins with one hyphen is a numeral, unless an option's letter follows.
    pub has_numerals: bool,
    /// Its options.
    pub options: &'static [Row],
    /// The end of its help: what a format is, and an example.
    pub end: &'static str,
}

/// The files of a command.
pub const FILES: Operand = Operand {
    name: "FILE",
    help: "Files; `-` or none is standard input",
};

/// Makes an argument with this name and help.
fn argument<'a>(alloc: Global, name: &'a str, help: &'a str) -> Arg<'a> {
    Arg::new(alloc, name).help(help)
}

/// Gives an argument its name after `--`.
fn named<'a>(argument: Arg<'a>, name: &'a str) -> Arg<'a> {
    argument.long(name)
}

/// Gives an argument its letter, if any.
fn lettered(argument: Arg<'_>, letter: Option<char>) -> Arg<'_> {
    match letter {
        Some(letter) => argument.short(letter),
        None => argument,
    }
}

/// Lets an argument take one value, with this name in help.
fn valued<'a>(argument: Arg<'a>, value: &'a str) -> Arg<'a> {
    argument.action(ArgAction::Set).value_name(value)
}

/// Lets an argument take one of these values, or any if there are none.
fn chosen<'a>(argument: Arg<'a>, choices: &'a [&'a str]) -> Arg<'a> {
    if choices.is_empty() {
        argument
    } else {
        argument.value_parser(choices).hide_possible_values(true)
    }
}

/// Makes an option.
fn optional<'a>(alloc: Global, row: &Row) -> Arg<'a> {
    let known = argument(alloc, row.name, row.help);
    let known = named(known, row.name);
    let known = lettered(known, row.letter);
    if row.value.is_empty() {
        known.action(ArgAction::SetTrue)
    } else if row.may_lack_value() {
        let known = chosen(valued(known, bare_value(row.value)), row.choices);
        known.num_args(0..2).require_equals(row.wants_equals())
    } else if row.may_repeat() {
        repeated(valued(known, bare_value(row.value)))
    } else {
        chosen(valued(known, row.value), row.choices)
    }
}

/// Lets an argument be given several times.
fn repeated(argument: Arg<'_>) -> Arg<'_> {
    argument.action(ArgAction::Append)
}

/// Returns the name of a value without the brackets around it or the points after it.
fn bare_value(value: &'static str) -> &'static str {
    let one = value.strip_suffix("...").unwrap_or(value);
    let open = one.strip_prefix('[').unwrap_or(one);
    let name = open.strip_prefix('=').unwrap_or(open);
    name.strip_suffix(']').unwrap_or(name)
}

/// Makes the operand at a position; the last one takes all remaining arguments.
fn positional<'a>(alloc: Global, operand: &Operand, is_last: bool) -> Arg<'a> {
    let words = argument(alloc, operand.name, operand.help);
    if is_last {
        words.num_args(1..).action(ArgAction::Append)
    } else {
        words.action(ArgAction::Set)
    }
}

/// Lists the operands and options of a command for `clap`.
fn arguments<'a>(alloc: Global, page: &Page) -> Result<Vec<Arg<'a>>, AllocError> {
    let mut all = Vec::new(alloc);
    let mut left = page.operands.len();
    for words in page.operands {
        left = left.saturating_sub(1);
        all.push(positional(alloc, words, left == 0))?;
    }
    for row in page.options {
        all.push(optional(alloc, row))?;
    }
    Ok(all)
}

/// Makes a command without its arguments.
fn titled<'a>(alloc: Global, page: &Page) -> Command<'a> {
    let command = Command::new(alloc, page.name).about(page.about);
    command.override_usage(page.usage).after_help(page.end)
}

/// Gives a command its hidden name, if any.
fn renamed<'a>(command: Command<'a>, name: &'a str) -> Result<Command<'a>, AllocError> {
    if name.is_empty() {
        Ok(command)
    } else {
        command.alias(name)
    }
}

/// Makes a command.
fn command_of<'a>(alloc: Global, page: &Page) -> Result<Command<'a>, AllocError> {
    let command = renamed(titled(alloc, page), page.hidden_name)?;
    command.args(arguments(alloc, page)?)
}

/// Lists all commands for `clap`.
pub fn commands_of<'a>(alloc: Global, pages: &[Page]) -> Result<Vec<Command<'a>>, AllocError> {
    let mut all = Vec::new(alloc);
    for page in pages {
        all.push(command_of(alloc, page)?)?;
    }
    Ok(all)
}
