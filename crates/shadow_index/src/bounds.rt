//! The greatest lengths and places that the limits of a set allow: each number once, by its name.

/// The most words of the code of all programs: 16 programs of 1,024 words.
pub(crate) const MAX_CODE_WORDS: u32 = 16_384;

/// The most words before the first index place: 7 numbers, the directory of 128 objects and 16 programs, and the code.
pub(crate) const MAX_FIRST_INDEX: u32 = 16_551;

/// The most words that are read before the pages: those, and a root.
pub(crate) const MAX_HEAD_READS: u32 = 16_552;

/// The most words of an index: 9 numbers, 128 slots, and 1,024 records of 3 words.
pub(crate) const MAX_INDEX_WORDS: u32 = 3_209;

/// No more words than these are in all pages: 31 pages of 128 words.
pub(crate) const MAX_INDEX_READS: u32 = 3_968;

/// The most words of the slots of all objects: 128 objects with 8 slots of 64 words.
pub(crate) const MAX_SLOTS_WORDS: u32 = 65_536;

/// The greatest place of a root: behind the words of format 1, which are the first words, two indexes and the slots.
pub(crate) const MAX_ROOT: u32 = 88_505;

/// The greatest place of the first page: behind the root.
pub(crate) const MAX_PAGES_AT: u32 = 88_506;

/// The greatest place of the first slot: behind both copies of all pages.
pub(crate) const MAX_SLOTS_AT: u32 = 96_442;

/// The most words that a device must have: those before the slots, and the slots.
pub(crate) const MAX_NEED: u32 = 161_978;
