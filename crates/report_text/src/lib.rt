//! The text of a report, line by line: definitions, and laws of them.
#![tactic(auto)]

pub mod laws;
