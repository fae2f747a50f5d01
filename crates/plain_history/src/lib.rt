//! A plain program in place of a kernel's tables: it keeps the finishes and what each attempt has read, and walks them for
//! each answer.
#![tactic(auto)]

mod plain;
mod small_runs;

pub use plain::{Answer, Plain, Span};
pub use small_runs::{OBJECTS, Run, Start, bit, has, run_of};
