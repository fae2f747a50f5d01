//! Whole calls on tables of devices, streams and texts that fail or are cut: tests alone.
#![tactic(auto)]

#[cfg(test)]
mod tests;
