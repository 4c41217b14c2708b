//! The words in the line that requests a conversion, and in the options that name them.

ghost use Rattle.std.specs.Prelude.{◌≡◌, ◌≤◌, MatchOption, length, option_map};
ghost use Rattle.fixed_bits.specs.declared.format.Policy.{Policy};
ghost use Rattle.fixed_bits.specs.declared.mode.ReadMode.{ReadMode};
ghost use Rattle.fixed_command.specs.Asked.{IsNamed, IsPrintNamed, IsPrintWord, spelling_text};
ghost use Rattle.fixed_command.specs.declared.print.Print.{Print};
ghost use Rattle.fixed_command.specs.declared.spelling.Spelling.{Spelling};
ghost use Rattle.fixed_numeral.specs.declared.radix.Radix.{Radix};
ghost use Rattle.fixed_respell.specs.Words.{mode_text, policy_text, radix_text};

use crate::print::Print;
use crate::spelling::Spelling;
use fixed_bits::{Policy, ReadMode};
use fixed_numeral::Radix;

/// Returns the word of a radix.
pub fn radix_name(radix: Radix) -> &'static str
    ensures name { result.now ≡ radix_text radix }
    ensures short { length result.now ≤ 2 }
{
    match radix {
        Radix::Bin => "2",
        Radix::Oct => "8",
        Radix::Dec => "10",
        Radix::Hex => "16",
    }
}

/// Returns the word of a policy.
pub fn policy_name(policy: Policy) -> &'static str
    ensures name { result.now ≡ policy_text policy }
    ensures short { length result.now ≤ 10 }
{
    match policy {
        Policy::Checked => "checked",
        Policy::Saturating => "saturating",
        Policy::Wrapping => "wrapping",
        Policy::Symmetric => "symmetric",
    }
}

/// Returns the word of a mode.
pub fn mode_name(mode: ReadMode) -> &'static str
    ensures name { result.now ≡ mode_text mode }
    ensures short { length result.now ≤ 9 }
{
    match mode {
        ReadMode::NearestEven => "nearest",
        ReadMode::Floor => "floor",
        ReadMode::Ceil => "ceil",
        ReadMode::TowardsZero => "zero",
        ReadMode::NearestAway => "ties-away",
        ReadMode::NearestZero => "ties-zero",
        ReadMode::NearestUp => "ties-up",
        ReadMode::NearestDown => "ties-down",
        ReadMode::AwayFromZero => "away",
    }
}

/// Returns the radix that the value of an option names.
fn radix_of_word(word: &str) -> Option<Radix>
    ensures { MatchOption result ((a : Radix) → ¬ (word.now ≡ radix_text a)) (λ a. word.now ≡ radix_text a) }
{
    match word {
        "2" => Some(Radix::Bin),
        "8" => Some(Radix::Oct),
        "10" => Some(Radix::Dec),
        "16" => Some(Radix::Hex),
        _ => None,
    }
}

/// Returns the radix that the value of an option names, `10` without the option. `None`: the value names none.
pub fn radix_named(value: Option<&str>) -> Option<Radix>
    ensures { MatchOption result
        ((a : Radix) → ¬ IsNamed Radix radix_text Radix.Dec (option_map (λ w. w.now) value.entry) a)
        (λ a. IsNamed Radix radix_text Radix.Dec (option_map (λ w. w.now) value.entry) a) }
{
    match value {
        Some(word) => radix_of_word(word),
        None => Some(Radix::Dec),
    }
}

/// Returns the policy that the value of an option names.
fn policy_of_word(word: &str) -> Option<Policy>
    ensures { MatchOption result ((a : Policy) → ¬ (word.now ≡ policy_text a)) (λ a. word.now ≡ policy_text a) }
{
    match word {
        "checked" => Some(Policy::Checked),
        "saturating" => Some(Policy::Saturating),
        "wrapping" => Some(Policy::Wrapping),
        "symmetric" => Some(Policy::Symmetric),
        _ => None,
    }
}

/// Returns the policy that the value of an option names, `checked` without the option. `None`: the value names none.
pub fn policy_named(value: Option<&str>) -> Option<Policy>
    ensures { MatchOption result
        ((a : Policy) → ¬ IsNamed Policy policy_text Policy.Checked (option_map (λ w. w.now) value.entry) a)
        (λ a. IsNamed Policy policy_text Policy.Checked (option_map (λ w. w.now) value.entry) a) }
{
    match value {
        Some(word) => policy_of_word(word),
        None => Some(Policy::Checked),
    }
}

/// Returns the mode that the value of an option names.
fn mode_of_word(word: &str) -> Option<ReadMode>
    ensures { MatchOption result ((a : ReadMode) → ¬ (word.now ≡ mode_text a)) (λ a. word.now ≡ mode_text a) }
{
    match word {
        "nearest" => Some(ReadMode::NearestEven),
        "floor" => Some(ReadMode::Floor),
        "ceil" => Some(ReadMode::Ceil),
        "zero" => Some(ReadMode::TowardsZero),
        "ties-away" => Some(ReadMode::NearestAway),
        "ties-zero" => Some(ReadMode::NearestZero),
        "ties-up" => Some(ReadMode::NearestUp),
        "ties-down" => Some(ReadMode::NearestDown),
        "away" => Some(ReadMode::AwayFromZero),
        _ => None,
    }
}

/// Returns the mode that the value of an option names, `nearest` without the option. `None`: the value names none.
pub fn mode_named(value: Option<&str>) -> Option<ReadMode>
    ensures { MatchOption result
        ((a : ReadMode) → ¬ IsNamed ReadMode mode_text ReadMode.NearestEven (option_map (λ w. w.now) value.entry) a)
        (λ a. IsNamed ReadMode mode_text ReadMode.NearestEven (option_map (λ w. w.now) value.entry) a) }
{
    match value {
        Some(word) => mode_of_word(word),
        None => Some(ReadMode::NearestEven),
    }
}

/// Returns the part of an answer that the value of an option names.
fn print_of_word(word: &str) -> Option<Print>
    ensures { MatchOption result ((a : Print) → ¬ IsPrintWord word.now a) (λ a. IsPrintWord word.now a) }
{
    match word {
        "text" => Some(Print::Text),
        "bits" => Some(Print::Bits),
        "hex" => Some(Print::Hex),
        "readmemh" => Some(Print::Readmemh),
        "value" => Some(Print::Value),
        "all" => Some(Print::All),
        _ => None,
    }
}

/// Returns the part of an answer that the value of an option names, `text` without the option. `None`: the value names
/// none.
pub fn print_named(value: Option<&str>) -> Option<Print>
    ensures { MatchOption result ((a : Print) → ¬ IsPrintNamed (option_map (λ w. w.now) value.entry) a)
        (λ a. IsPrintNamed (option_map (λ w. w.now) value.entry) a) }
{
    match value {
        Some(word) => print_of_word(word),
        None => Some(Print::Text),
    }
}

/// Returns how a line spells a number, by the value of an option.
fn spelling_of_word(word: &str) -> Option<Spelling>
    ensures { MatchOption result ((a : Spelling) → ¬ (word.now ≡ spelling_text a)) (λ a. word.now ≡ spelling_text a) }
{
    match word {
        "text" => Some(Spelling::Numeral),
        "bits" => Some(Spelling::Word),
        _ => None,
    }
}

/// Returns how a line spells a number, by the value of an option, `text` without the option. `None`: the value names no
/// spelling.
pub fn spelling_named(value: Option<&str>) -> Option<Spelling>
    ensures { MatchOption result
        ((a : Spelling) → ¬ IsNamed Spelling spelling_text Spelling.Numeral (option_map (λ w. w.now) value.entry) a)
        (λ a. IsNamed Spelling spelling_text Spelling.Numeral (option_map (λ w. w.now) value.entry) a) }
{
    match value {
        Some(word) => spelling_of_word(word),
        None => Some(Spelling::Numeral),
    }
}

/// Returns the mode that the value of an option names for moving to the target, `floor` without the option. `None`: the
/// value names none.
pub fn target_mode_named(value: Option<&str>) -> Option<ReadMode>
    ensures { MatchOption result
        ((a : ReadMode) → ¬ IsNamed ReadMode mode_text ReadMode.Floor (option_map (λ w. w.now) value.entry) a)
        (λ a. IsNamed ReadMode mode_text ReadMode.Floor (option_map (λ w. w.now) value.entry) a) }
{
    match value {
        Some(word) => mode_of_word(word),
        None => Some(ReadMode::Floor),
    }
}
