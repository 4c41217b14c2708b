//! Amounts: numbers of decimal formats, such as money in cents, and the replies to lines with amounts.
//!
//! `name` knows the names of the formats, `settings` says how a line is read and what is written for it, `reading`
//! reads it, `fault` has the reasons to refuse it, `reply` appends the reply, `explain` explains an overflow, and
//! `facts` has the facts of an amount and of a format.
#![tactic(auto)]

mod explain;
mod facts;
mod fault;
pub mod laws;
mod name;
mod reading;
mod reply;
mod settings;

pub use explain::{MAX_OVERFLOW, overflow_explanation};
pub use facts::{
    AmountQuestion, amount_block, amount_object, decimal_format_block, decimal_format_object,
};
pub use fault::AmountFault;
pub use name::decimal_format_named;
pub use reading::{Amount, AmountRefusal, read_amount, read_decimal};
pub use reply::{push_part, push_reply};
pub use settings::{AmountPrint, AmountSettings, AmountSpelling};
