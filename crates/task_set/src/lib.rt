//! Task sets that keep all limits.
#![tactic(auto)]

mod distinct_names;
mod formats;
pub mod laws;
mod limits;
mod lists;
mod parts;
mod ranges;
mod refusals;
mod set;

pub use distinct_names::take_name;
pub use formats::{max_objects, max_records};
pub use lists::{Name, ObjectParts, ProgramParts, Tasks, Words};
pub use parts::{ObjPart, ProgPart, SetParts};
pub use refusals::{LimitKind, SetRefusal};
pub use set::TaskSet;

#[cfg(test)]
mod tests;
