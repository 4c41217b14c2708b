//! The commands that the program's arguments request.

ghost use Rattle.std.specs.Prelude.{◌≡◌, ◌≤◌, ◌<◌, ◌^◌, ℕ, MatchOption, IfSome, decimal};
ghost use Rattle.fixed_respell.specs.Command.{IsCommand, IsNumbered, IsUsageFault};
ghost use Rattle.fixed_respell.specs.declared.command.Command.{Command};

use crate::decimal::number_word;
use line_engine::MAX_LIMIT;

/// The most lines that the self test generates.
const MAX_SELF_LINES: u64 = 1_000_000;

/// What a run does.
#[derive(Clone, Copy, Debug, PartialEq, Eq)]
pub enum Command {
    /// Answers the lines of an input of at most this many bytes.
    Read(u64),
    /// Answers this many generated lines and sums up their answers.
    SelfTest(u64),
}

/// Reads a number from 1 to `most` in decimal. `None`: the word is not one.
fn count_word(word: &[u8], most: u64) -> Option<u64>
    requires { most < 10 ^ 10 }
    ensures number { MatchOption result ((n : ℕ) → 1 ≤ n → n ≤ most → ¬ (word.now ≡ decimal n))
        (λ n. word.now ≡ decimal n) }
    ensures range { IfSome result (λ n. (1 ≤ n) × (n ≤ most)) }
{
    match number_word(word, most) {
        Some(number) if number >= 1 => Some(number),
        _ => None,
    }
}

/// Returns the command of a name and a number. `None`: they are not a command.
fn numbered_command(name: &[u8], number: &[u8]) -> Option<Command>
    ensures { MatchOption result ((c : Command) → ¬ IsNumbered name.now number.now c)
        (λ c. IsNumbered name.now number.now c) }
{
    match name {
        b"limit" => match count_word(number, MAX_LIMIT) {
            Some(limit) => Some(Command::Read(limit)),
            None => None,
        },
        b"self" => match count_word(number, MAX_SELF_LINES) {
            Some(count) => Some(Command::SelfTest(count)),
            None => None,
        },
        _ => None,
    }
}

/// Returns the command that the arguments request. `None`: they are not a command.
pub(crate) fn read_command(args: &[String]) -> Option<Command>
    ensures { MatchOption result (IsUsageFault args.now) (λ c. IsCommand args.now c) }
{
    match args {
        [] => Some(Command::Read(MAX_LIMIT)),
        [name, number] => numbered_command(name.as_bytes(), number.as_bytes()),
        _ => None,
    }
}
