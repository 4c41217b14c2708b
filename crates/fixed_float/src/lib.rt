//! IEEE 754 floats by their bits: reading them into the numbers of a format, and finding the float nearest to a number.
#![tactic(auto)]

mod increment;
mod kept_range;
pub mod laws;
mod layout;
mod nearest;
mod reading;
mod short;

pub use kept_range::{greatest_kept, is_kept};
pub use layout::FloatLayout;
pub use nearest::{binary32_of, binary64_of};
pub use reading::{NotFinite, read_binary32, read_binary64};
pub use short::{ShortNumber, short_binary32, short_binary64};
