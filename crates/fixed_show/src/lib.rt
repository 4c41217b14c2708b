//! Blocks of lines that describe a format, a register word, or a numeral in a format to people.
//!
//! Each function appends one block to a text. A line of a block is a label in ten columns, a text, and a newline.
#![tactic(auto)]

pub mod bits;
mod decimal_errors;
mod decimals;
mod errors;
pub mod form;
pub mod formats;
pub mod hex;
pub mod json;
pub mod laws;
mod lines;
pub mod measure;
mod narrow;
mod natural;
pub mod part_laws;
pub mod parts;
pub mod show;
pub mod shown_errors;
mod tool_names;
mod ulps;
pub mod words;

pub use bits::{bits_block, bits_object};
pub use decimal_errors::decimal_error;
pub use form::Form;
pub use formats::{format_block, format_object};
pub use hex::push_hex_digits;
pub use json::{MAX_OBJECT, push_given, push_refused_object};
pub use lines::{MAX_BLOCK, push_fact, push_integer_fact, push_refusal};
pub use measure::{Measure, push_measured};
pub use parts::{Part, PartFault, part_block, part_object, read_part};
pub use show::{Shown, push_error_of, read_image, read_shown, show_block, show_object};
pub use shown_errors::{ErrorTexts, MAX_ERROR, error_texts};
pub use words::{WordFault, read_word};
