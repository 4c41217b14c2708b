//! Lists of numerals, and files of named literals, as arrays of C, Rust and VHDL, and as memory files.
//!
//! `rule` answers an input, one numeral a line, with the list of its numbers in a form, and `literal_rule` an input
//! with one named literal a line; `form` says which names a list may have. A form is a row of `table`: three templates,
//! which `slots` fills.
#![tactic(auto)]

mod elements;
pub mod fault;
pub mod form;
pub mod laws;
pub mod literal_rule;
mod literals;
pub mod rule;
mod slots;
mod table;
mod text;

pub use fault::{ArrayFault, LiteralsFault};
pub use form::{ArrayForm, is_array_name, is_c_name, is_kept};
pub use literal_rule::LiteralArrayRule;
pub use rule::{ArrayRule, Numerals};
