//! Schedules as plain numbers and lists: their core steps, and the failures of power among them.
#![tactic(auto)]

pub mod laws;
pub mod rows;
