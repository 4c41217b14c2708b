//! The tightest enclosure of a numeral's value by two values of a format, and a program that answers lines with it.
#![tactic(auto)]

pub mod answering;
pub mod enclosing;
pub mod fault;
pub mod laws;
pub mod program;
pub mod rule;

pub use answering::append_answer;
pub use enclosing::{Enclosure, enclose};
pub use fault::EncloseFault;
pub use program::run_enclose;
pub use rule::EncloseRule;
