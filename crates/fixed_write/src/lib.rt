//! The shortest decimal text that reads back as the same bits, and numbers in a style.
#![tactic(auto)]

mod base;
mod digits;
mod exponent;
mod in_place;
mod integer;
pub mod laws;
mod places;
mod printer;
mod short;
pub mod style;
mod styled;
mod styled_text;
pub mod text;
mod uncounted;

pub use in_place::{Base, push_decimal, push_exact, push_signed_exact};
pub use integer::{push_integer, push_signed_integer};
pub use printer::{push_shortest, push_signed_shortest};
pub use short::{ShortText, shortest};
pub use style::{Align, Notation, Style};
pub use styled::to_text;
pub use styled_text::{StyledText, text_in_style};
pub use text::Text;
pub use text_buffer::NoMemory;
