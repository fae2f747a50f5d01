//! The words on the nonvolatile device, place by place: one description by shape for format 1, for format 2 and for a device that was migrated, and the laws of it.
#![tactic(auto)]

pub mod commits;
pub mod format_1;
pub mod formats;
pub mod index_words;
pub mod journals;
pub mod keeping;
pub mod migrations;
pub mod places;
pub mod ranges;
pub mod rows;
