//! Scripts as a user writes them.
#![tactic(auto)]

mod block;
mod cause_words;
mod draft;
mod front;
mod items;
mod keyword;
pub mod laws;
mod program;
mod reading;
mod refusals;
mod section;
mod set_lines;
mod timeline;
mod words;

pub use front::read_front;
pub use keyword::{BlockKind, Keyword, Stage};
pub use reading::{Script, read_script};
pub use refusals::{ScriptCause, ScriptError, ScriptRefusal};

#[cfg(test)]
mod tests;
