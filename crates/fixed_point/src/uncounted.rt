//! The shortest text, with a counter of steps of its own.

ghost use Rattle.std.specs.Prelude.{◌≡◌, ◌≤◌, ◌<◌, []};
ghost use Rattle.std.specs.Str.{IsAscii};
ghost use Rattle.fixed_bits.specs.Ranges.{IsWide};
ghost use Rattle.fixed_write.specs.Texts.{shortest_text};

use crate::text::ShownText;
use fixed_steps::Steps;
use fixed_write::push_shortest;
use std::marker::Brand;
use std::sync::ledger::{Blank, Ledger};

/// Appends the shortest decimal text to an empty one.
#[inline]
pub(crate) fn push_default(text: &mut ShownText, value: i128, frac: u32)
    requires empty { text.old ≡ [] }
    requires wide { IsWide value }
    requires frac { frac ≤ 64 }
    ensures text { text.new ≡ shortest_text value frac }
    ensures ascii { IsAscii text.new }
{
    push_counted::<Brand>(text, value, frac, Blank::new(1));
}

/// Appends the shortest decimal text to an empty one, with its steps on a counter that nobody reads.
#[inline]
fn push_counted<L: Ledger>(text: &mut ShownText, value: i128, frac: u32, blank: Blank)
    requires empty { text.old ≡ [] }
    requires wide { IsWide value }
    requires frac { frac ≤ 64 }
    requires name { blank.name ≡ L.name }
    requires parts { blank.parts ≡ L.parts }
    requires backed { 0 < L.parts }
    ensures text { text.new ≡ shortest_text value frac }
    ensures ascii { IsAscii text.new }
{
    let mut steps: Steps<L> = Steps::new(blank);
    push_shortest(text, value, frac, &mut steps);
}
