//! A kernel in small over the tables of a verdict: a real table, a real queue and a real attempt, driven core by core.
#![tactic(auto)]

mod held;
mod kernel;
mod running;
mod small_set;
mod standing;
mod trial;

pub use held::{Cores, Held, Others};
pub use kernel::Kernel;
pub use standing::Table;
pub use trial::Trial;
