//! Tests of the libraries of the programs: runs over bytes in memory in which reads, writes and allocations fail, and
//! the numbers of the libraries. Runs with worked inputs are tried over the built programs. A crate with tests is
//! proved twice, with and without them, so these are in a separate crate.
#![tactic(auto)]

#[cfg(test)]
mod cells;
#[cfg(test)]
mod enclosures;
#[cfg(test)]
mod failures;
#[cfg(test)]
mod runs;
#[cfg(test)]
mod tasks;
