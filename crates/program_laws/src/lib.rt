//! Laws of whole runs: for each program, what its reads returned and its writes took determines what it wrote, how it
//! ended and what it reported.
#![tactic(auto)]

pub mod laws;
