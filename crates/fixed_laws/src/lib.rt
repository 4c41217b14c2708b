//! Laws that tie the texts of fixed_write to the readers, above both.
#![tactic(auto)]

pub mod laws;
