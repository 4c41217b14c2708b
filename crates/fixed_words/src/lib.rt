//! Converts the words of a text in place, each a numeral or a register word: every other byte stays.
//!
//! `rule` says what separates words and what happens to refused ones, `splitter` is the machine that takes the bytes of
//! a text and answers the words that end in them, and `convert` runs it over a source and a sink.
//!
//! The text is not cut into lines, so no byte is added, and lines may have any length.
#![tactic(auto)]

pub mod convert;
pub mod laws;
pub mod rule;
pub mod splitter;

pub use convert::{WordsEnd, convert_words};
pub use rule::{Leaving, MAX_LEFT, MAX_TOKEN, WordRule};
pub use splitter::WordRefusal;
