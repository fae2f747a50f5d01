//! Worked rows of verdicts, asked of the tables and of a plain program: tests alone.
#![tactic(auto)]

#[cfg(test)]
mod tests;
