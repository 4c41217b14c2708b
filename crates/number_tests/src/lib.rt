//! Tests of `fixed_bits`, `fixed_convert`, `fixed_numeral`, `fixed_read`, `fixed_error`, `fixed_report`, `fixed_write`,
//! `fixed_decimal` and `fixed_point`: worked rows whose answers come from the definitions. A crate with tests is proved
//! twice, with and without them, so these are in a separate crate. `fixed_vectors` tries what the typed calls of
//! `fixed_point` read, round, convert, compare and show, in its stored run and against `oracle/`. Loops go through rows
//! by reference: the proof of a loop over an array by value grows with the square of its length.
#![tactic(auto)]

#[cfg(test)]
mod bits;
#[cfg(test)]
mod conversion;
#[cfg(test)]
mod decimals;
#[cfg(test)]
mod errors;
#[cfg(test)]
mod means;
#[cfg(test)]
mod numerals;
#[cfg(test)]
mod parsing;
#[cfg(test)]
mod printing;
#[cfg(test)]
mod reading;
#[cfg(test)]
mod typed;
#[cfg(test)]
mod writing;
