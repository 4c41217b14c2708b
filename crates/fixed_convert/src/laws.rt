//! Laws of conversions and of the order, each the contract of a function that does nothing.

ghost use Rattle.fixed_convert.specs.Rounded.{FloorIsDown, MovedInIsTheOne, ReformattedIsTheOne};
ghost use Rattle.fixed_convert.specs.Laws.{FinerIsExact, ConversionIsUndone, OrderIsOfValues, OrderIsTotal};
ghost use Rattle.fixed_convert.specs.Laws.{ExactIsEqual};

/// Moving to a fraction length that is not shorter loses nothing.
#[tactic(auto, using(crate::proofs::MovedLemmas::finer))]
pub fn finer_is_exact()
    ensures { FinerIsExact }
{}

/// A conversion that loses nothing, followed by the one back, is the identity.
#[tactic(auto, using(crate::proofs::MovedLemmas::undone))]
pub fn conversion_is_undone()
    ensures { ConversionIsUndone }
{}

/// The order is that of the values.
#[tactic(auto, using(crate::proofs::OrderLemmas::of_values))]
pub fn order_is_of_values()
    ensures { OrderIsOfValues }
{}

/// The order is total, transitive through a third format, and reversed when its sides are swapped.
#[tactic(auto, using(crate::proofs::OrderLemmas::total))]
pub fn order_is_total()
    ensures { OrderIsTotal }
{}

/// A number moved without loss is ordered as before.
#[tactic(auto, using(crate::proofs::OrderLemmas::exact_alike))]
pub fn exact_is_equal()
    ensures { ExactIsEqual }
{}

/// In each mode each number moves to exactly one number.
pub fn moved_in_is_the_one()
    ensures { MovedInIsTheOne }
{}

/// In the mode Floor a number is moved down.
pub fn floor_is_down()
    ensures { FloorIsDown }
{}

/// A number moved in a mode has one image and one verdict in a format under a policy, or is refused.
pub fn reformatted_is_the_one()
    ensures { ReformattedIsTheOne }
{}
