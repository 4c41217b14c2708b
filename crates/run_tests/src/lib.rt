//! Tests of `text_buffer`, `line_engine`, `run_engine`, `column_engine`, `fixed_io` and `fixed_respell`, of what no
//! clause says and no run of a built program shows: each call of a run failing in turn, what reads request, how often a
//! device is called, what an observer has seen, and worked texts of columns. A crate with tests is proved twice, with
//! and without them, so these are in a separate crate.
#![tactic(auto)]

#[cfg(test)]
mod asking;
#[cfg(test)]
mod columns;
#[cfg(test)]
mod json_values;
#[cfg(test)]
mod lines;
#[cfg(test)]
mod runs;
#[cfg(test)]
mod streams;
#[cfg(test)]
mod texts;
