//! What a device holds, read word by word: a boot in its turns, a state at once, a word of an object, and a migration.
#![tactic(auto)]

mod boot;
mod kinds;
pub mod laws;
mod migration;
mod reader;
mod reading;
mod refusals;
mod words;

pub use boot::Boot;
pub use device_format::{FormatRefusal, format};
pub use migration::{is_worn, migrate};
pub use reader::Reader;
pub use reading::{read_object, read_state};
pub use refusals::{BootRefusal, BootTurn, MigrateRefusal};

#[cfg(test)]
mod migration_tests;
#[cfg(test)]
mod tests;
