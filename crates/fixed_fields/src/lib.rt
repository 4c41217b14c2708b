//! Fields of bits of register words.
//!
//! `bit_field` finds the bits that `HI:LO` names, `named` those of `HI:LO:FORMAT`, `list` keeps several, and `answer`
//! writes the number of each.
#![tactic(auto)]

pub mod answer;
pub mod bit_field;
pub mod laws;
pub mod list;
pub mod named;

pub use answer::{FieldsQuestion, fields_block, fields_object};
pub use bit_field::field_named;
pub use list::{Field, FieldList, MAX_FIELDS};
pub use named::field_of_name;
