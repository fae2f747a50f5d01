//! What is promised of each run, over any cores and any failures, on whatever state its device holds at first.
#![tactic(auto)]

pub mod laws;
