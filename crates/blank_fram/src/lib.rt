// A memory of words with zeros behind them: only those up to the last one given or written are kept.
#![tactic(auto)]

mod device;
mod start;
mod words;

pub use device::BlankFram;

#[cfg(test)]
mod tests;
