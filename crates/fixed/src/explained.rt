//! Explanations of refused numerals and words in reports on standard error.

use command_line::report::Report;
use fixed_amounts::{
    AmountPrint, AmountQuestion, AmountSettings, AmountSpelling, overflow_explanation,
};
use fixed_bits::{Format, Policy, ReadMode};
use fixed_command::{ConvertRule, Offers, Print, Question, Settings, Spelling, explanation};
use fixed_numeral::Radix;
use fixed_respell::{format_word, policy_word, radix_word, split_once};
use fixed_steps::Steps;
use std::sync::ledger::Ledger;

/// The longest explanation, in bytes.
const MAX_EXPLANATION: usize = 640;

/// What a command offers that has none of the options for other spellings.
pub const NO_OFFERS: Offers = Offers {
    decimal: false,
    trim: false,
    radix: false,
};

/// What a command offers that has only `--trim`.
pub const TRIM_OFFERS: Offers = Offers {
    decimal: false,
    trim: true,
    radix: false,
};

/// Appends why a rule refuses a text with this cause, after `before` bytes of its line.
pub fn push_explanation<L: Ledger>(
    report: &mut Report,
    rule: &ConvertRule,
    offers: Offers,
    text: (&[u8], usize),
    cause: &[u8],
    steps: &mut Steps<L>,
) {
    let more = explanation(rule, offers, text.0, text.1, cause, steps);
    report.bytes(more.as_bytes(), MAX_EXPLANATION);
}

/// The rule by which numerals of a list are read, whatever their format.
pub fn list_rule(radix: Radix) -> ConvertRule {
    let format = Format::of(true, 64, 0);
    ConvertRule::reading(
        Spelling::Numeral,
        radix,
        format,
        Policy::Checked,
        ReadMode::NearestEven,
    )
}

/// The rule by which register words of 64 bits are read.
fn word_rule(radix: Radix) -> ConvertRule {
    let format = Format::of(false, 64, 0);
    ConvertRule::reading(
        Spelling::Word,
        radix,
        format,
        Policy::Checked,
        ReadMode::NearestEven,
    )
}

/// The rule of a line `RADIX SOURCE TARGET POLICY NUMERAL`, and its numeral.
pub fn line_rule(line: &[u8]) -> Option<(ConvertRule, &[u8])> {
    let (radix, rest) = split_once(line, b' ')?;
    let (source, rest) = split_once(rest, b' ')?;
    let (target, rest) = split_once(rest, b' ')?;
    let (policy, numeral) = split_once(rest, b' ')?;
    let (policy, mode) = policy_word(policy)?;
    let rule = ConvertRule::new(Settings {
        spelling: Spelling::Numeral,
        radix: radix_word(radix)?,
        source: format_word(source)?,
        target: format_word(target)?,
        policy,
        mode,
        target_mode: ReadMode::Floor,
        print: Print::Text,
    });
    Some((rule, numeral))
}

/// The rule by which the numeral of a line `RADIX FORMAT NUMERAL` is read, and the numeral.
pub fn enclosure_rule(line: &[u8]) -> Option<(ConvertRule, &[u8])> {
    let (radix, rest) = split_once(line, b' ')?;
    let (_format, numeral) = split_once(rest, b' ')?;
    Some((list_rule(radix_word(radix)?), numeral))
}

/// The rule by which an invalid byte of an amount is found.
pub fn amount_rule(spelling: AmountSpelling) -> ConvertRule {
    let spelling = match spelling {
        AmountSpelling::Numeral => Spelling::Numeral,
        AmountSpelling::Units => Spelling::Word,
    };
    let format = Format::of(true, 64, 0);
    ConvertRule::reading(
        spelling,
        Radix::Dec,
        format,
        Policy::Checked,
        ReadMode::NearestEven,
    )
}

/// Appends why an amount is refused with this cause, after `before` bytes of its line.
pub fn push_amount_explanation<L: Ledger>(
    report: &mut Report,
    settings: &AmountSettings,
    offers: Offers,
    text: (&[u8], usize),
    cause: &[u8],
    steps: &mut Steps<L>,
) {
    if cause == b"overflow".as_slice() {
        let more = overflow_explanation(text.0, settings.format, settings.mode, steps);
        report.bytes(more.as_bytes(), MAX_EXPLANATION);
    } else {
        let rule = amount_rule(settings.spelling);
        push_explanation(report, &rule, offers, text, cause, steps);
    }
}

/// Appends why a question refuses a word with this cause, after `before` bytes of its line. `trim` says whether the
/// command takes `--trim` for this word.
pub fn push_question_explanation<L: Ledger>(
    report: &mut Report,
    question: &Question,
    trim: bool,
    word: (&[u8], usize),
    cause: &[u8],
    steps: &mut Steps<L>,
) {
    let offers = Offers {
        decimal: false,
        trim,
        radix: true,
    };
    match question {
        Question::Show {
            radix,
            format,
            policy,
            mode,
        } => {
            let rule = ConvertRule::reading(Spelling::Numeral, *radix, *format, *policy, *mode);
            push_explanation(report, &rule, offers, word, cause, steps);
        }
        Question::Bits { radix, format } | Question::Part { radix, format, .. } => {
            let mode = ReadMode::NearestEven;
            let rule = ConvertRule::reading(Spelling::Word, *radix, *format, Policy::Checked, mode);
            push_explanation(report, &rule, offers, word, cause, steps);
        }
        Question::Fields(asked) => {
            let rule = word_rule(asked.radix);
            push_explanation(report, &rule, offers, word, cause, steps);
        }
        Question::Amount(asked) => {
            let offers = Offers {
                radix: false,
                ..offers
            };
            push_amount_explanation(report, &amount_settings(*asked), offers, word, cause, steps);
        }
        Question::Format => (),
    }
}

/// How the amount of a question is read.
fn amount_settings(asked: AmountQuestion) -> AmountSettings {
    let (spelling, format, policy, mode) = match asked {
        AmountQuestion::Numeral {
            format,
            policy,
            mode,
        } => (AmountSpelling::Numeral, format, policy, mode),
        AmountQuestion::Units { format } => (
            AmountSpelling::Units,
            format,
            Policy::Checked,
            ReadMode::NearestEven,
        ),
    };
    AmountSettings {
        spelling,
        format,
        policy,
        mode,
        print: AmountPrint::Text,
    }
}
