//! The arguments of the program.

ghost use Rattle.std.specs.Prelude.{◌≡◌, ◌≤◌, ℕ, MatchOption, IfSome, decimal};
ghost use Rattle.fixed_columns.specs.Program.{AsksWithin, IsUsageFault};

use itoa::Buffer;
use line_engine::{MAX_LIMIT, MAX_WHOLE};

/// Returns the number from 1 to 4,294,967,296 that `word` writes in decimal, without a leading zero, if it is one.
fn limit_word(word: &str) -> Option<u64>
    ensures number { MatchOption result ((n : ℕ) → 1 ≤ n → n ≤ 4294967296
        → ¬ (word.now ≡ decimal n)) (λ n. word.now ≡ decimal n) }
    ensures range { IfSome result (λ n. (1 ≤ n) × (n ≤ 4294967296)) }
{
    let Ok(number) = word.parse::<u64>() else {
        return None;
    };
    let mut digits = Buffer::new();
    if number >= 1 && number <= MAX_LIMIT && digits.format(number) == word {
        Some(number)
    } else {
        None
    }
}

/// Returns the most bytes of input that the arguments allow. `None`: the arguments are invalid.
pub fn asked_limit(args: &[String]) -> Option<u64>
    ensures limit { MatchOption result (IsUsageFault args.now) (λ n. AsksWithin args.now n) }
    ensures most { IfSome result (λ n. n ≤ 4294967296) }
{
    match args {
        [] => Some(MAX_WHOLE),
        [name, number] if name.as_bytes() == b"limit".as_slice() => limit_word(number.as_str()),
        _ => None,
    }
}
