//! Numbers written in decimal.

ghost use Rattle.std.specs.Prelude.{◌≡◌, ◌≤◌, ◌<◌, ◌^◌, ℕ, length, MatchOption, IfSome, decimal};
ghost use Rattle.std.specs.Str.Parse.{AllDigits, digits_value};

/// Returns the number that the digits spell. `None`: a byte is not a decimal digit.
fn digits_number(digits: &[u8]) -> Option<u64>
    requires { length digits.now ≤ 10 }
    ensures { MatchOption result (¬ AllDigits 10 digits.now)
        (λ n. AllDigits 10 digits.now × (n ≡ digits_value 10 digits.now)) }
{
    let mut number = 0;
    for b in digits {
        if !b.is_ascii_digit() {
            return None;
        }
        number = number * 10 + u64::from(*b - b'0');
    }
    Some(number)
}

/// Reads a number of at most `most` in decimal, without a leading zero. `None`: the word is not one.
pub fn number_word(word: &[u8], most: u64) -> Option<u64>
    requires { most < 10 ^ 10 }
    ensures number { MatchOption result ((n : ℕ) → n ≤ most → ¬ (word.now ≡ decimal n)) (λ n. word.now ≡ decimal n) }
    ensures most { IfSome result (λ n. n ≤ most) }
{
    if word.is_empty() || word.len() > 10 {
        return None;
    }
    if word[0] == b'0' && word.len() > 1 {
        return None;
    }
    match digits_number(word) {
        Some(number) if number <= most => Some(number),
        _ => None,
    }
}
