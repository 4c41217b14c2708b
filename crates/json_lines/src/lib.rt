//! Lines of JSON: the values at a path are answered by a rule, and every other byte stays.
//!
//! `path` reads a path, `piece` cuts a line into its tokens, `place` knows in which members and elements they stand,
//! and `answer` exchanges the values of a line; `stop` says where a line is not JSON. `splitter` is the machine that
//! takes the bytes of an input, and `run` runs it over a source and a sink. What JSON is, the kit's reader decides.
#![tactic(auto)]

pub mod answer;
pub mod fault;
pub mod laws;
pub mod path;
pub mod piece;
pub mod place;
pub mod refusals;
pub mod run;
pub mod splitter;
pub mod stop;
pub mod task;

pub use fault::JsonFault;
pub use path::{PathFault, Step, path_named};
pub use refusals::{JsonRefusal, JsonRefusals};
pub use run::{JsonEnd, run_json};
pub use splitter::JsonLines;
pub use task::{Form, JsonTask};
