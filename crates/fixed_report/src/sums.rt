//! Exact sums of the errors of numerals, which are cut to whole parts of an ulp.

ghost use Rattle.std.specs.Prelude.{◌≡◌, ◌+◌, ◌-◌, ◌^◌, ◌<◌, ◌≤◌, ◌++◌, ◌∷◌, [], List};
ghost use Rattle.fixed_error.specs.declared.cut.CutError.{CutError as CutErrorOf};
ghost use Rattle.fixed_report.specs.Sums.{AreSums, HasSomeSums};

use fixed_error::CutError;

/// The exact sums of errors in parts of an ulp, and of their squares. After 2^64 - 1 errors they are full.
#[derive(Clone, Copy, Debug, PartialEq, Eq)]
pub struct ErrorSums {
    /// The sum of the parts by which bits are above their numerals.
    pub above: u128,
    /// The sum of the parts by which bits are below their numerals.
    pub below: u128,
    /// The sum of the squares' bits from bit 64 on.
    pub squares_high: u128,
    /// The sum of the squares' bits below bit 64.
    pub squares_low: u128,
    /// How many errors there are.
    pub count: u64,
}

/// 2^64.
pub const WORD: u128 = 18_446_744_073_709_551_616;

impl ErrorSums {
    /// Returns the sums of no errors.
    pub fn new() -> ErrorSums
        ensures { AreSums [] result }
    {
        ErrorSums {
            above: 0,
            below: 0,
            squares_high: 0,
            squares_low: 0,
            count: 0,
        }
    }

    /// Adds one more error. Full sums stay as they are.
    pub fn add(&mut self, error: CutError)
        requires known { HasSomeSums self.old }
        requires small { error.above + error.below ≤ 2 ^ 60 }
        ensures known { HasSomeSums self.new }
        ensures counted { self.old.count ≤ self.new.count }
        ensures one_more { (errors : List CutErrorOf) → AreSums errors self.old → self.new.count < 2 ^ 64 - 1
            → AreSums (errors ++ error ∷ []) self.new }
    {
        if self.count == u64::MAX {
            return;
        }
        let size = u128::from(error.above + error.below);
        let square = size * size;
        self.above += u128::from(error.above);
        self.below += u128::from(error.below);
        self.squares_high += square / WORD;
        self.squares_low += square % WORD;
        self.count += 1;
    }
}
