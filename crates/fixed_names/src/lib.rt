//! The names of formats, for each command or library that reads one: those of `fixed_respell`, such as `I1F15` and
//! `Q15`, and those of other tools.
#![tactic(auto)]

pub mod laws;
mod names;
mod shape;
mod tool_names;

pub use names::format_of_name;
pub use shape::is_like_tool_name;
pub use tool_names::{ToolForm, tool_format};
