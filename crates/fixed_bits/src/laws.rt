//! Laws of the definitions, each the contract of a function that does nothing.

ghost use Rattle.fixed_bits.specs.Laws.{
  NearestIsTheOne,
  RoundedIsTheOne,
  EqualFractionsRoundAlike,
  RangeIsDecided,
  PolicyRangeIsDecided,
  EndsAreWide,
  ImagesAgree,
  CheckedHasNone,
  ImageIsTheOne,
  ImageIsInRange,
  UnsignedIsSaturated,
  DownIsTheOne,
  DownKeepsOrder,
  RankIsOrder,
  RankIsTheOne,
};

/// Each fraction has exactly one nearest whole number, ties to even.
pub fn nearest_is_the_one()
    ensures { NearestIsTheOne }
{}

/// Each fraction is rounded to exactly one whole number in each mode, for either sign.
pub fn rounded_is_the_one()
    ensures { RoundedIsTheOne }
{}

/// Equal fractions are rounded to the same whole number.
pub fn equal_fractions_round_alike()
    ensures { EqualFractionsRoundAlike }
{}

/// A number is either in a range or out of it.
pub fn range_is_decided()
    ensures { RangeIsDecided }
{}

/// A number is either in a policy's range or out of it.
pub fn policy_range_is_decided()
    ensures { PolicyRangeIsDecided }
{}

/// The ends of a range of at most 64 bits are from -2^63 to 2^64 - 1.
pub fn ends_are_wide()
    ensures { EndsAreWide }
{}

/// In its range each policy gives the number itself.
pub fn images_agree()
    ensures { ImagesAgree }
{}

/// Out of range there is no Checked image.
pub fn checked_has_none()
    ensures { CheckedHasNone }
{}

/// A number has at most one image under a policy.
pub fn image_is_the_one()
    ensures { ImageIsTheOne }
{}

/// An image is in range, also in the policy's.
pub fn image_is_in_range()
    ensures { ImageIsInRange }
{}

/// In an unsigned format Symmetric is Saturating.
pub fn unsigned_is_saturated()
    ensures { UnsignedIsSaturated }
{}

/// The number moved down is the one in the definition.
pub fn down_is_the_one()
    ensures { DownIsTheOne }
{}

/// Moving down keeps order.
pub fn down_keeps_order()
    ensures { DownKeepsOrder }
{}

/// The rank of a format is its position in the order.
pub fn rank_is_order()
    ensures { RankIsOrder }
{}

/// Each of the 248 ranks is that of exactly one format.
pub fn rank_is_the_one()
    ensures { RankIsTheOne }
{}
