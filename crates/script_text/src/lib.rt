//! Task sets as scripts: the text of a set, and that reading it gives the set again.
#![tactic(auto)]

mod laws;
mod set_text;

pub use laws::script_text_is_read_back;
pub use set_text::script_text;

#[cfg(test)]
mod tests;
