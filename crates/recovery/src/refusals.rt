//! How a turn of a boot ends, and why a device is not read, or not migrated.

use thiserror::Error;

/// How a turn of a boot ends.
#[derive(Clone, Copy, PartialEq, Eq, Debug)]
pub enum BootTurn {
    /// There are more.
    More,
    /// It was the last one.
    Done,
}

/// Why a device is not read.
#[derive(Clone, Copy, PartialEq, Eq, Debug, Error)]
pub enum BootRefusal {
    /// Word 0 is 0: no state was ever whole there.
    #[error("the device is blank")]
    Blank,
    /// The place of the first faulty word.
    #[error("the device is damaged at word {0}")]
    Damaged(u32),
    /// The device lost a call.
    #[error("the device lost a call")]
    Lost,
}

/// Why a device is not migrated. But at `Lost` nothing was written.
#[derive(Clone, Copy, PartialEq, Eq, Debug, Error)]
pub enum MigrateRefusal {
    /// The device has too few words for those of format 2 behind those of format 1.
    #[error("the device has {len} words, and {need} are needed")]
    Small {
        /// How many words are needed.
        need: u32,
        /// How many words the device has.
        len: u32,
    },
    /// The place of the first faulty word.
    #[error("the device is damaged at word {0}")]
    Damaged(u32),
    /// So much has happened on the device that numbers could run out.
    #[error("the device is worn")]
    Worn,
    /// The device lost a call.
    #[error("the device lost a call")]
    Lost,
}
