//! Task sets as plain numbers and lists, and what the kernel's model needs of them.
#![tactic(auto)]

pub mod laws;
