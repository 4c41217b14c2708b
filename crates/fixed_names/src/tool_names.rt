//! The names of formats in other tools: two numbers, and fixed texts before, between and after them.
//!
//! A name is read as its tool writes it, and the case of its letters matters. One blank may follow the commas: all of
//! them or none. Names that tools disagree on, such as `s1.15`, are not read.

ghost use Rattle.std.specs.Prelude.{◌≡◌, ◌++◌, ◌<◌, List, ℕ, ℤ, MatchOption, decimal};
ghost use Rattle.std.specs.Fmt.{signed_decimal};
ghost use Rattle.fixed_bits.specs.Formats.{FormatParts};
ghost use Rattle.fixed_names.specs.ToolNames.{IsToolName};
ghost use Rattle.fixed_names.specs.Inner.ToolParts.{AreCounts, HasNumbers, IsNamedIn, IsSmall, IsWholeIn};
ghost use Rattle.fixed_names.specs.Inner.ToolParts.{after_mark, head_of, mark_of, numbers_text, tail_of};

use fixed_bits::Format;
use fixed_respell::{number_word, split_once};

/// The forms in which other tools write a format as two numbers.
#[derive(Clone, Copy, Debug, PartialEq, Eq)]
pub enum ToolForm {
    /// `ap_fixed<16,1>` of C++ for high-level synthesis: the width, and the whole bits with the sign bit.
    Hls,
    /// `ap_fixed<16, 1>`.
    HlsSpaced,
    /// `sfixed(0 downto -15)` of VHDL: the powers of two of the highest and of the lowest bit.
    Vhdl,
    /// `fi(_,1,16,15)` of MATLAB, the type of any value: 1 for a sign, the width, the fraction length.
    Fi,
    /// `fi(_, 1, 16, 15)`.
    FiSpaced,
    /// `numerictype(1,16,15)` of MATLAB.
    NumericType,
    /// `numerictype(1, 16, 15)`.
    NumericTypeSpaced,
    /// `sfix16_En15` of Simulink: the width and the fraction length.
    Simulink,
}

/// Returns the bytes after `head`, if they begin with it.
fn after<'a>(bytes: &'a [u8], head: &[u8]) -> Option<&'a [u8]>
    ensures { MatchOption result ((rest : List ℕ) → ¬ (bytes.now ≡ head.now ++ rest))
        (λ rest. bytes.now ≡ head.now ++ rest.now) }
{
    bytes.strip_prefix(head)
}

/// Returns the bytes before `tail`, if they end with it.
fn before<'a>(bytes: &'a [u8], tail: &[u8]) -> Option<&'a [u8]>
    ensures { MatchOption result ((rest : List ℕ) → ¬ (bytes.now ≡ rest ++ tail.now))
        (λ rest. bytes.now ≡ rest.now ++ tail.now) }
{
    bytes.strip_suffix(tail)
}

/// Returns the text before the numbers.
fn head_of(form: ToolForm, signed: bool) -> &'static [u8]
    ensures { result.now ≡ head_of form signed }
{
    match (form, signed) {
        (ToolForm::Hls | ToolForm::HlsSpaced, true) => b"ap_fixed<",
        (ToolForm::Hls | ToolForm::HlsSpaced, false) => b"ap_ufixed<",
        (ToolForm::Vhdl, true) => b"sfixed(",
        (ToolForm::Vhdl, false) => b"ufixed(",
        (ToolForm::Fi, true) => b"fi(_,1,",
        (ToolForm::Fi, false) => b"fi(_,0,",
        (ToolForm::FiSpaced, true) => b"fi(_, 1, ",
        (ToolForm::FiSpaced, false) => b"fi(_, 0, ",
        (ToolForm::NumericType, true) => b"numerictype(1,",
        (ToolForm::NumericType, false) => b"numerictype(0,",
        (ToolForm::NumericTypeSpaced, true) => b"numerictype(1, ",
        (ToolForm::NumericTypeSpaced, false) => b"numerictype(0, ",
        (ToolForm::Simulink, true) => b"sfix",
        (ToolForm::Simulink, false) => b"ufix",
    }
}

/// Returns the first byte between the numbers.
fn mark_of(form: ToolForm) -> u8
    ensures { result ≡ mark_of form }
{
    match form {
        ToolForm::Vhdl => b' ',
        ToolForm::Simulink => b'_',
        _ => b',',
    }
}

/// Returns the other bytes between the numbers.
fn after_mark(form: ToolForm) -> &'static [u8]
    ensures { result.now ≡ after_mark form }
{
    match form {
        ToolForm::Hls | ToolForm::Fi | ToolForm::NumericType => b"",
        ToolForm::HlsSpaced | ToolForm::FiSpaced | ToolForm::NumericTypeSpaced => b" ",
        ToolForm::Vhdl => b"downto ",
        ToolForm::Simulink => b"En",
    }
}

/// Returns the text after the numbers.
fn tail_of(form: ToolForm) -> &'static [u8]
    ensures { result.now ≡ tail_of form }
{
    match form {
        ToolForm::Hls | ToolForm::HlsSpaced => b">",
        ToolForm::Simulink => b"",
        _ => b")",
    }
}

/// Returns the number below 100 that the bytes write in decimal.
fn count_of(digits: &[u8]) -> Option<u32>
    ensures { MatchOption result ((n : ℕ) → n < 100 → ¬ (digits.now ≡ decimal n))
        (λ n. (n < 100) × (digits.now ≡ decimal n)) }
{
    match number_word(digits, 99) {
        Some(count) => Some(count as u32),
        None => None,
    }
}

/// Returns the number from -99 to 99 that the bytes write in decimal.
fn integer_of(bytes: &[u8]) -> Option<i64>
    ensures { MatchOption result ((z : ℤ) → IsSmall z → ¬ (bytes.now ≡ signed_decimal z))
        (λ z. IsSmall z × (bytes.now ≡ signed_decimal z)) }
{
    match after(bytes, b"-") {
        Some(digits) => match count_of(digits) {
            Some(size) if size > 0 => Some(-i64::from(size)),
            _ => None,
        },
        None => match count_of(bytes) {
            Some(number) => Some(i64::from(number)),
            None => None,
        },
    }
}

/// Returns the bytes of a word in a form from its first number to its second.
fn middle_of(word: &[u8], form: ToolForm, signed: bool) -> Option<&[u8]>
    ensures { MatchOption result
        ((middle : List ℕ) → ¬ (word.now ≡ head_of form signed ++ (middle ++ tail_of form)))
        (λ middle. word.now ≡ head_of form signed ++ (middle.now ++ tail_of form)) }
{
    match after(word, head_of(form, signed)) {
        Some(rest) => before(rest, tail_of(form)),
        None => None,
    }
}

/// Returns the two numbers, from -99 to 99, of a word in a form.
fn numbers_in(word: &[u8], form: ToolForm, signed: bool) -> Option<(i64, i64)>
    ensures { MatchOption result
        ((a b : ℤ) → IsSmall a → IsSmall b → ¬ (word.now ≡ numbers_text form signed a b))
        (λ r. IsSmall r.0 × IsSmall r.1 × (word.now ≡ numbers_text form signed r.0 r.1)) }
{
    let Some(middle) = middle_of(word, form, signed) else {
        return None;
    };
    let Some((first, more)) = split_once(middle, mark_of(form)) else {
        return None;
    };
    let Some(second) = after(more, after_mark(form)) else {
        return None;
    };
    let Some(first) = integer_of(first) else {
        return None;
    };
    match integer_of(second) {
        Some(second) => Some((first, second)),
        None => None,
    }
}

/// Returns the width and the fraction length that two numbers in a form mean.
fn counts_of(form: ToolForm, first: i64, second: i64) -> (i64, i64)
    requires first { IsSmall first }
    requires second { IsSmall second }
    ensures { AreCounts form first second result.0 result.1 }
{
    match form {
        ToolForm::Hls | ToolForm::HlsSpaced => (first, first - second),
        ToolForm::Vhdl => (first + 1 - second, -second),
        _ => (first, second),
    }
}

/// Returns the format that two numbers in a form mean.
fn format_of(form: ToolForm, signed: bool, first: i64, second: i64) -> Option<Format>
    requires first { IsSmall first }
    requires second { IsSmall second }
    ensures { MatchOption result ((f : FormatParts) → ¬ HasNumbers form signed first second f)
        (λ f. HasNumbers form signed first second f) }
{
    let (width, frac) = counts_of(form, first, second);
    if width < 0 || frac < 0 {
        None
    } else {
        Format::of_any_width(signed, width as u32, frac as u32)
    }
}

/// Returns the format with a sign rule that a word names in a form.
fn named_in(word: &[u8], form: ToolForm, signed: bool) -> Option<Format>
    ensures { MatchOption result ((f : FormatParts) → ¬ IsNamedIn form signed word.now f)
        (λ f. IsNamedIn form signed word.now f) }
{
    match numbers_in(word, form, signed) {
        Some((first, second)) => format_of(form, signed, first, second),
        None => None,
    }
}

/// Returns the format that a word names in a form.
fn format_in(word: &[u8], form: ToolForm) -> Option<Format>
    ensures { MatchOption result ((f : FormatParts) → ¬ IsNamedIn form f.signed word.now f)
        (λ f. IsNamedIn form f.signed word.now f) }
{
    match named_in(word, form, true) {
        Some(format) => Some(format),
        None => named_in(word, form, false),
    }
}

/// Returns the format without a fraction and with a sign rule that a word such as `sfix16` names.
fn whole_in(word: &[u8], signed: bool) -> Option<Format>
    ensures { MatchOption result ((f : FormatParts) → ¬ IsWholeIn signed word.now f)
        (λ f. IsWholeIn signed word.now f) }
{
    let Some(digits) = after(word, head_of(ToolForm::Simulink, signed)) else {
        return None;
    };
    match count_of(digits) {
        Some(width) => Format::of_any_width(signed, width, 0),
        None => None,
    }
}

/// Returns the format without a fraction that a word such as `sfix16` names.
fn whole_format(word: &[u8]) -> Option<Format>
    ensures { MatchOption result ((f : FormatParts) → ¬ IsWholeIn f.signed word.now f)
        (λ f. IsWholeIn f.signed word.now f) }
{
    match whole_in(word, true) {
        Some(format) => Some(format),
        None => whole_in(word, false),
    }
}

/// Returns the format that a word names in another tool. `None`: it names none.
pub fn tool_format(word: &[u8]) -> Option<Format>
    ensures { MatchOption result ((f : FormatParts) → ¬ IsToolName word.now f) (λ f. IsToolName word.now f) }
{
    let forms = [
        ToolForm::Hls,
        ToolForm::HlsSpaced,
        ToolForm::Vhdl,
        ToolForm::Fi,
        ToolForm::FiSpaced,
        ToolForm::NumericType,
        ToolForm::NumericTypeSpaced,
        ToolForm::Simulink,
    ];
    for form in &forms {
        if let Some(format) = format_in(word, *form) {
            return Some(format);
        }
    }
    whole_format(word)
}

#[cfg(test)]
mod tests {
    use super::tool_format;
    use fixed_bits::Format;

    #[test]
    fn names_of_other_tools(rt: HostRuntime) {
        let cases = [
            ("ap_fixed<16,1>", true, 16, 15),
            ("ap_ufixed<16, 0>", false, 16, 16),
            ("ap_fixed<16,-9>", true, 16, 25),
            ("sfixed(0 downto -15)", true, 16, 15),
            ("ufixed(-10 downto -25)", false, 16, 25),
            ("fi(_,1,16,15)", true, 16, 15),
            ("fi(_, 0, 8, 0)", false, 8, 0),
            ("numerictype(0,64,64)", false, 64, 64),
            ("numerictype(1, 16, 15)", true, 16, 15),
            ("sfix16_En15", true, 16, 15),
            ("ufix8", false, 8, 0),
        ];
        for (word, signed, width, frac) in &cases {
            let found = tool_format(word.as_bytes());
            assert_eq!(rt; found, Format::of_any_width(*signed, *width, *frac));
        }
    }

    #[test]
    fn words_that_no_tool_writes(rt: HostRuntime) {
        let words = [
            "ap_fixed<16,17>",
            "sfixed(-15 downto 0)",
            "sfixed(7 downto 1)",
            "fi(_,2,16,15)",
            "numerictype(1,65,0)",
            "numerictype(1, 16,15)",
            "sfix16_E3",
            "sfix016_En15",
            "s1.15",
        ];
        for word in &words {
            assert_eq!(rt; tool_format(word.as_bytes()), None);
        }
    }
}
