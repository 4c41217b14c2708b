//! Decimal formats.

ghost use Rattle.std.specs.Prelude.{◌≡◌, ◌↔◌, ◌≤◌, IsSome, IfSome};

use std::marker::Model;

/// A decimal format, `D0` to `D18`: whole numbers of 64 bits with a sign, which count units of a power of ten.
#[derive(Clone, Copy, Debug, PartialEq, Eq)]
pub struct DecimalFormat {
    places: u8,
}

impl Model for DecimalFormat {
    ghost use Rattle.std.specs.Prelude.{◌≤◌, ℕ};

    ghost Value = { ℕ };

    ghost view = { λ f. f.places };

    ghost invariant = { λ f. f.places ≤ 18 };

    ghost inverse = { λ places. record { places = places } };
}

impl DecimalFormat {
    /// The format whose numbers have this many places after the point. `None` exactly if there are more than 18.
    pub fn new(places: u32) -> Option<DecimalFormat>
        ensures exists { IsSome result ↔ (places ≤ 18) }
        ensures places { IfSome result (λ f. f ≡ places) }
    {
        if places <= 18 {
            Some(DecimalFormat {
                places: places as u8,
            })
        } else {
            None
        }
    }

    /// How many places a number has after the point.
    #[inline]
    pub fn places(self) -> u32
        ensures places { result ≡ self }
        ensures few { self ≤ 18 }
    {
        u32::from(self.places)
    }
}
