//! The tables of a verdict beside a plain program on random histories of one to eight cores: tests alone.
#![tactic(auto)]

#[cfg(test)]
mod tests;
