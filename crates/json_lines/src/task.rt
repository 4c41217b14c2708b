//! What to do with lines of JSON.

use crate::path::Step;
use fixed_command::Layout;

/// How values are exchanged, and which lines stay.
#[derive(Clone, Copy)]
pub struct Form<'a> {
    /// Whether every reply is written as a string. Otherwise only the reply to a string is.
    pub quotes: bool,
    /// Whether a refused line stays as it was.
    pub keeps: bool,
    /// Which lines stay, as blank ones or comments.
    pub layout: &'a Layout,
}

/// How lines of JSON are answered.
#[derive(Drop)]
pub struct JsonTask<'a, A> {
    /// The rule that answers a value.
    pub rule: &'a A,
    /// The path to the values.
    pub steps: &'a [Step<'a>],
    /// How they are exchanged.
    pub form: Form<'a>,
}
