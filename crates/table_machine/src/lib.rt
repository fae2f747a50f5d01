//! The kernel as a machine over tables and device words: definitions, and the law that each event of it is one of the event machine.
#![tactic(auto)]

pub mod arms;
pub mod events;
pub mod images;
pub mod rows;
