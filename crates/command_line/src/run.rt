//! Runs the command that a command line requests. `clap` reads the command line from the tables of the commands.

use crate::device::{Failure, Writer};
use crate::given::{Asked, Given, Refusal, filled_words, plain_words, sorted_words, split_words};
use crate::page::{Page, commands_of};
use crate::report::{Report, refuse, report_end, report_no_memory};
use clap::error::ErrorKind;
use clap::{ArgMatches, Command, Error};
use fixed_io::StdSink;
use fixed_steps::Steps;
use line_engine::{Status, write_text};
use std::alloc::{AllocError, Global};
use std::sync::ledger::Ledger;

/// A program with several commands.
#[derive(Clone, Copy)]
pub struct Program<'p> {
    /// Its name.
    pub name: &'static str,
    /// Its version.
    pub version: &'static str,
    /// What it does.
    pub about: &'static str,
    /// Its usage.
    pub usage: &'static str,
    /// The end of its help: an example.
    pub end: &'static str,
    /// Its commands, in the order of the help.
    pub pages: &'p [Page],
}

/// Runs the commands of a program.
pub trait Commands<L: Ledger> {
    /// Runs a command with its arguments.
    fn run<'a>(
        &self,
        rt: &HostRuntime,
        name: &str,
        given: &Given<'_, 'a>,
        steps: &mut Steps<L>,
    ) -> Asked<'a, Status>;
}

/// Makes a program without its commands, for `clap`.
fn bare<'a>(alloc: Global, program: &Program<'_>) -> Command<'a> {
    let command = Command::new(alloc, program.name).version(program.version);
    let command = command.propagate_version(true).no_binary_name(true);
    let command = command.disable_help_subcommand(true).about(program.about);
    command
        .override_usage(program.usage)
        .after_help(program.end)
}

/// Makes a program with all its commands, for `clap`.
fn whole<'a>(alloc: Global, program: &Program<'_>) -> Result<Command<'a>, AllocError> {
    bare(alloc, program).subcommands(commands_of(alloc, program.pages)?)
}

/// Returns the page of the command with this name or hidden name.
fn page_of<'p>(program: &Program<'p>, word: &str) -> Option<&'p Page> {
    program.pages.iter().find(|page| page.name == word
        || !word.is_empty() && page.hidden_name == word)
}

/// Returns the arguments in the form for `clap`.
fn prepared(
    alloc: Global,
    program: &Program<'_>,
    words: &[String],
) -> Result<Vec<String>, AllocError> {
    if let [first, rest @ ..] = words {
        if let Some(page) = page_of(program, first) {
            if page.has_numerals {
                return sorted_words(alloc, first, rest, page.options);
            }
            return filled_words(alloc, plain_words(alloc, words)?, page.options);
        }
    }
    plain_words(alloc, words)
}

/// Writes a text to standard output. If that fails, reports it on standard error.
pub fn write_out(rt: &HostRuntime, text: &[u8]) -> Status {
    let failure = Failure::new(None);
    let mut sink = StdSink::new(Writer {
        writer: rt.stdout(),
        failure: &failure,
    });
    let status = write_text(text, Status::Done, &mut sink);
    report_end(rt, None, status, sink.lines(), &failure);
    status
}

/// Appends the message of an error of `clap` in one line: what precedes its first empty line, and a similar name.
fn push_error(report: &mut Report, text: &str) {
    let mut has_ended = false;
    let mut has_begun = false;
    for line in text.lines() {
        let words = line.trim();
        has_ended = has_ended || words.is_empty();
        if !has_ended {
            if has_begun {
                report.text(" ");
            }
            report.text(words.strip_prefix("error: ").unwrap_or(words));
            has_begun = true;
        } else if words.contains("similar") {
            report.text(" (");
            report.text(words.strip_prefix("tip: ").unwrap_or(words));
            report.text(")");
        }
    }
}

/// Reports the message of an error of `clap` on standard error.
fn refuse_text(rt: &HostRuntime, command: &str, text: &str) -> Status {
    let mut report = Report::of(None);
    push_error(&mut report, text);
    report.end_with_help(command);
    report.send(rt);
    Status::Usage
}

/// Reports on standard error why `clap` refuses the arguments, or writes the help that they request.
fn report_error(rt: &HostRuntime, command: &str, error: &Error) -> Status {
    if error.kind() == ErrorKind::OutOfMemory {
        return report_no_memory(rt);
    }
    match error.to_string(rt.alloc()) {
        Ok(text) if error.use_stderr() => refuse_text(rt, command, &text),
        Ok(text) => write_out(rt, text.as_bytes()),
        Err(_) => report_no_memory(rt),
    }
}

/// Runs the command that `clap` found.
fn run_matches<'a, C: Commands<L>, L: Ledger>(
    rt: &HostRuntime,
    program: &Program<'_>,
    commands: &C,
    matches: &ArgMatches<'a>,
    after: &'a [String],
    steps: &mut Steps<L>,
) -> Status {
    match matches.subcommand() {
        Some((name, found)) => {
            let given = match given_of(rt.alloc(), program, name, found, after) {
                Ok(given) => given,
                Err(_) => return report_no_memory(rt),
            };
            match commands.run(rt, name, &given, steps) {
                Ok(status) => status,
                Err(refusal) => report_refusal(rt, name, refusal),
            }
        }
        None => refuse(rt, "", &["no command"]),
    }
}

/// Reports on standard error why a command refuses its arguments.
fn report_refusal(rt: &HostRuntime, name: &str, refusal: Refusal<'_>) -> Status {
    match refusal {
        Refusal::NoMemory => report_no_memory(rt),
        Refusal::Missing(word) => refuse(rt, name, &["there is no ", word]),
        Refusal::Word(word, why) => refuse_word(rt, name, "", word, why),
        Refusal::Option(option, why) => refuse_word(rt, name, "--", option, why),
    }
}

/// Reports on standard error why a command refuses an argument, or an option by its name after hyphens.
fn refuse_word(rt: &HostRuntime, name: &str, hyphens: &str, word: &str, why: &str) -> Status {
    let mut report = Report::of(None);
    report.text("'");
    report.text(hyphens);
    report.text(word);
    report.text("' ");
    report.text(why);
    report.end_with_help(name);
    report.send(rt);
    Status::Usage
}

/// Collects the arguments of a command.
fn given_of<'w, 'a>(
    alloc: Global,
    program: &Program<'_>,
    name: &str,
    found: &'w ArgMatches<'a>,
    after: &'a [String],
) -> Result<Given<'w, 'a>, AllocError> {
    let operands = match page_of(program, name) {
        Some(page) => page.operands,
        None => &[],
    };
    Given::new(alloc, found, operands, after)
}

/// Runs the program by its arguments.
pub fn run_words<C: Commands<L>, L: Ledger>(
    rt: &HostRuntime,
    program: &Program<'_>,
    commands: &C,
    words: &[String],
    steps: &mut Steps<L>,
) -> Status {
    if words.is_empty() {
        return show_help(rt, program);
    }
    let (before, after) = split_words(words);
    let (command, read) = match (
        whole(rt.alloc(), program),
        prepared(rt.alloc(), program, before),
    ) {
        (Ok(command), Ok(read)) => (command, read),
        _ => return report_no_memory(rt),
    };
    match command.try_get_matches_from(&read) {
        Ok(matches) => run_matches(rt, program, commands, &matches, after, steps),
        Err(error) => report_error(rt, first_page(program, &read), &error),
    }
}

/// Writes the help to standard error, for a command line without arguments.
fn show_help(rt: &HostRuntime, program: &Program<'_>) -> Status {
    let text = match whole(rt.alloc(), program) {
        Ok(command) => {
            let mut command = command;
            command.render_help()
        }
        Err(error) => Err(error),
    };
    match text {
        Ok(text) => {
            let mut errors = StdSink::new(rt.stderr());
            write_text(text.as_bytes(), Status::Done, &mut errors);
            Status::Usage
        }
        Err(_) => report_no_memory(rt),
    }
}

/// Returns the name of the command that the first argument names, or an empty text if it names none.
fn first_page(program: &Program<'_>, words: &[String]) -> &'static str {
    match words {
        [first, ..] => match page_of(program, first) {
            Some(page) => page.name,
            None => "",
        },
        [] => "",
    }
}
