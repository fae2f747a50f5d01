//! The small kernel beside the plain program: each step asks both, and they have to agree.
#![tactic(auto)]

mod pair;

pub use pair::{Pair, Told};
