//! The layout of a set on a device: its numbers, and its tables of places.

ghost use Rattle.std.specs.Prelude.{◌≤◌};
ghost use Rattle.shadow_index.specs.declared.bounds.TheConstants.{MAX_HEAD_READS, MAX_INDEX_READS};
ghost use Rattle.shadow_index.specs.declared.tables.TheConstants.{MAX_PAGES};

use crate::kind::DeviceKind;
use crate::tables::{CodePlaces, PagePlaces, SlotPlaces};

/// Where the words of a set stand on a device of a kind. All places are looked up in tables that are made once.
#[derive(Drop)]
pub struct Layout {
    pub(crate) kind: DeviceKind,
    pub(crate) need: u32,
    pub(crate) first_index: u32,
    pub(crate) index_words: u32,
    pub(crate) head_reads: u32,
    pub(crate) index_reads: u32,
    pub(crate) root: u32,
    pub(crate) pages: u8,
    pub(crate) page_words: u32,
    pub(crate) page_places: PagePlaces,
    pub(crate) slot_places: SlotPlaces,
    pub(crate) code_places: CodePlaces,
    ghost few: { pages ≤ MAX_PAGES },
    ghost head: { head_reads ≤ MAX_HEAD_READS },
    ghost reads: { index_reads ≤ MAX_INDEX_READS },
}
