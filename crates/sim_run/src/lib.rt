//! The simulator: from bytes in to bytes out.
#![tactic(auto)]

mod assembly;
mod auditing;
mod call;
pub mod chains;
mod command;
mod finishes;
mod input;
pub mod laws;
mod made_script;
mod make;
mod opening;
mod packing;
pub mod rows;
mod run;
mod summary;
mod texts;

pub use answers::Status;
pub use call::simulate;
pub use command::{Command, WordsRefusal, words_of};
pub use made_script::make_text;

#[cfg(test)]
mod tests;
