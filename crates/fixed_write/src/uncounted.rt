//! The shortest decimal, with a counter of steps of its own.

ghost use Rattle.std.specs.Prelude.{◌≡◌, ◌≤◌, ◌<◌, length, None};
ghost use Rattle.fixed_write.specs.Inner.Styling.{AppendsBody};

use crate::exponent::Body;
use crate::printer::push_signed_shortest;
use crate::style::Notation;
use fixed_steps::Steps;
use std::marker::Brand;
use std::sync::ledger::{Blank, Ledger};

/// Appends the shortest decimal of a magnitude, with a ledger that no other counter uses.
fn push_shortest_over<L: Ledger>(out: &mut Body, magnitude: u64, frac: u32, blank: Blank)
    requires name { blank.name ≡ L.name }
    requires parts { blank.parts ≡ L.parts }
    requires backed { 0 < L.parts }
    requires frac { frac ≤ 64 }
    requires room { length out.old ≤ 7 }
    ensures { AppendsBody Notation.Dec None magnitude frac out.old out.new 0 }
{
    let mut steps: Steps<L> = Steps::new(blank);
    push_signed_shortest(out, false, magnitude, frac, &mut steps);
}

/// Appends the shortest decimal of a magnitude.
pub fn push_shortest_body(out: &mut Body, magnitude: u64, frac: u32)
    requires frac { frac ≤ 64 }
    requires room { length out.old ≤ 7 }
    ensures { AppendsBody Notation.Dec None magnitude frac out.old out.new 0 }
{
    push_shortest_over::<Brand>(out, magnitude, frac, Blank::new(1));
}
