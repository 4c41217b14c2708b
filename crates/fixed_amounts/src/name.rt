//! The names of decimal formats: `D2`, also as `d2`.

ghost use Rattle.std.specs.Prelude.{◌≡◌, ◌≤◌, ℕ, MatchOption, decimal};
ghost use Rattle.fixed_amounts.specs.Names.{IsDecimalName};

use fixed_decimal::DecimalFormat;
use fixed_respell::number_word;

/// Returns the decimal format with the places that some bytes give.
fn format_of_places(digits: &[u8]) -> Option<DecimalFormat>
    ensures { MatchOption result ((n : ℕ) → n ≤ 18 → ¬ (digits.now ≡ decimal n))
        (λ n. (n ≤ 18) × (digits.now ≡ decimal n)) }
{
    match number_word(digits, 18) {
        Some(places) => DecimalFormat::new(places as u32),
        None => None,
    }
}

/// Returns the decimal format that a word names.
pub fn decimal_format_named(word: &[u8]) -> Option<DecimalFormat>
    ensures { MatchOption result ((n : ℕ) → ¬ IsDecimalName word.now n) (λ n. IsDecimalName word.now n) }
{
    match word {
        [b'D' | b'd', places @ ..] => format_of_places(places),
        _ => None,
    }
}
