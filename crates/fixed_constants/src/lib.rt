//! Files of named constants, and their one canonical form.
//!
//! A line `NAME = LITERAL FORMAT` declares a constant (`declaration`). `constants` reads a text line by line and keeps
//! the constants in order; `canonical` writes them with hexadecimal literals, each value in only one way. `plain` takes
//! files with more blanks, and with comments after formats.
#![tactic(auto)]

pub mod canonical;
pub mod constant;
pub mod constants;
mod declaration;
pub mod fault;
pub mod form;
pub mod form_rule;
pub mod laws;
pub mod plain;
pub mod program;
pub mod rule;
mod sources;

pub use canonical::{FileText, write_constants};
pub use constant::{Constant, Constants};
pub use constants::read_constants;
pub use declaration::{Fields, is_name, is_passed_over, split_line};
pub use fault::{ConstantFault, ConstantsError};
pub use form::{Form, is_among, is_reserved};
pub use form_rule::FormRule;
pub use plain::PlainRule;
pub use program::{is_guard, run_constants};
pub use rule::{ConstantsRule, refusal};
pub use sources::{push_c_number, push_hexadecimal};
pub use text_buffer::NoMemory;
