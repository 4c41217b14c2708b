//! The requests in the options of `fixed convert --words`.

ghost use Rattle.std.specs.Prelude.{◌≡◌, List, ℕ, IfErr, IfOk, MatchOption, codes};
ghost use Rattle.std.specs.List.{list_all};
ghost use Rattle.command_line.specs.Words.{value_of};
ghost use Rattle.fixed.specs.Words.{AreSeparatorsAsked, IsLeavingAsked, IsLeavingWord, IsTokenAsked, IsWordRuleAsked};
ghost use Rattle.fixed.specs.Words.{has_separator, may_separate};
ghost use Rattle.fixed_words.specs.declared.rule.Leaving.{Leaving};
ghost use Rattle.fixed_words.specs.declared.rule.WordRule.{WordRule};

use crate::options::{KEEP_WORDS, REFUSED, SEPARATORS};
use crate::settings::{known, value_or};
use command_line::given::{Asked, Given, Refusal};
use fixed_command::ConvertRule;
use fixed_words::{Leaving, MAX_TOKEN, WordRule};
use text_buffer::TextBuffer;

/// Whether a byte may separate words: it is ASCII and cannot occur in a numeral.
fn may_separate(byte: u8) -> bool
    ensures { result ≡ may_separate byte }
{
    byte < 128 && !byte.is_ascii_alphanumeric() && !matches!(byte, b'+' | b'-' | b'.' | b'@')
}

/// Whether each byte may separate words.
fn may_all_separate(bytes: &[u8]) -> bool
    ensures { result ≡ list_all may_separate bytes.now }
{
    bytes.iter().all(|b| may_separate(*b))
}

/// Returns the bytes that separate words in addition to blanks: a comma without the option.
fn separators_of<'a>(given: &Given<'_, 'a>) -> Asked<'a, &'a [u8]>
    ensures value { IfOk result (λ a. AreSeparatorsAsked (value_of given.now (codes "separators")) a.now) }
    ensures refused { IfErr result (λ _. (a : List ℕ)
        → ¬ AreSeparatorsAsked (value_of given.now (codes "separators")) a) }
{
    let word = value_or(given, &SEPARATORS, ",");
    if may_all_separate(word.as_bytes()) {
        Ok(word.as_bytes())
    } else {
        Err(Refusal::Word(
            word,
            "does not separate words: it is ASCII characters, no letter, digit, sign, point or '@'",
        ))
    }
}

/// Whether a word has a byte that separates words.
fn has_separator(separators: &[u8], word: &[u8]) -> bool
    ensures { result ≡ has_separator separators.now word.now }
{
    word.iter()
        .any(|b| b.is_ascii_whitespace() || separators.contains(b))
}

/// Returns the text for a refused word: `error` without the option.
fn token_of<'a>(given: &Given<'_, 'a>, separators: &[u8]) -> Asked<'a, TextBuffer<MAX_TOKEN>>
    ensures value { IfOk result (λ a. IsTokenAsked separators.now (value_of given.now (codes "refused")) a) }
    ensures refused { IfErr result (λ _. (a : List ℕ)
        → ¬ IsTokenAsked separators.now (value_of given.now (codes "refused")) a) }
{
    let word = value_or(given, &REFUSED, "error");
    if word.is_empty() {
        return Err(Refusal::Word(word, "is not a token: it is empty"));
    }
    if word.len() > MAX_TOKEN {
        return Err(Refusal::Word(word, "is not a token: it has more than 64 bytes"));
    }
    if has_separator(separators, word.as_bytes()) {
        return Err(Refusal::Word(
            word,
            "is not a token: it has a blank or a separator, and a token is one word",
        ));
    }
    let mut token = TextBuffer::new();
    token.push_bytes(word.as_bytes());
    Ok(token)
}

/// Returns which refused words stay, from a value.
fn leaving_named(word: &str) -> Option<Leaving>
    ensures { MatchOption result ((a : Leaving) → ¬ IsLeavingWord word.now a) (λ a. IsLeavingWord word.now a) }
{
    match word {
        "text" => Some(Leaving::NoNumerals),
        "all" => Some(Leaving::Everything),
        _ => None,
    }
}

/// Returns which refused words stay: none without the option.
fn leaving_of<'a>(given: &Given<'_, 'a>) -> Asked<'a, Leaving>
    ensures value { IfOk result (λ a. IsLeavingAsked (value_of given.now (codes "keep")) a) }
    ensures refused { IfErr result (λ _. (a : Leaving) → ¬ IsLeavingAsked (value_of given.now (codes "keep")) a) }
{
    match given.value(&KEEP_WORDS) {
        None => Ok(Leaving::Nothing),
        Some(word) => known(leaving_named(word), given, &KEEP_WORDS),
    }
}

/// Returns how words are converted, from the options.
pub fn word_rule<'a>(given: &Given<'_, 'a>, rule: ConvertRule) -> Asked<'a, WordRule<'a>>
    ensures rule { IfOk result (λ words. words.rule ≡ rule) }
    ensures value { IfOk result (λ words. IsWordRuleAsked given.now words) }
    ensures refused { IfErr result (λ _. (words : WordRule) → ¬ IsWordRuleAsked given.now words) }
{
    let separators = match separators_of(given) {
        Ok(separators) => separators,
        Err(refusal) => return Err(refusal),
    };
    let token = match token_of(given, separators) {
        Ok(token) => token,
        Err(refusal) => return Err(refusal),
    };
    Ok(WordRule {
        rule,
        separators,
        token,
        leaves: leaving_of(given)?,
    })
}
