//! What stands in the slots of each object, and which versions are kept there: definitions, and the laws of them.
#![tactic(auto)]

pub mod calls;
pub mod durable_slots;
pub mod events;
pub mod kernels;
pub mod rows;
pub mod runs;
pub mod slots;
pub mod verdicts;
