//! Where the root and the pages of a device stand, and how long the pages are.

ghost use Rattle.std.specs.Prelude.{◌≡◌, ◌≤◌, ◌*◌};
ghost use Rattle.device_model.specs.Layouts.{layout_of};
ghost use Rattle.shadow_index.specs.Views.{kind_of};
ghost use Rattle.shadow_index.specs.Shapes.{IsPagedAt, IsShapeOf};

use crate::bounds::{MAX_INDEX_READS, MAX_INDEX_WORDS, MAX_PAGES_AT, MAX_ROOT};
use crate::kind::DeviceKind;
use crate::lengths::{first_index, index_words, slots_words};
use crate::tables::MAX_PAGES;
use task_set::TaskSet;

/// Where the root and the pages stand.
#[derive(Clone, Copy)]
pub(crate) struct Shape {
    /// The place of the root.
    pub root: u32,
    /// How many pages there are.
    pub pages: u8,
    /// How many words a page has.
    pub page_words: u32,
    /// The place of the first page.
    pub pages_at: u32,
}

impl Shape {
    /// The shape of a device of a kind.
    pub(crate) fn of(set: &TaskSet, kind: DeviceKind) -> Shape
        ensures exact { IsShapeOf (layout_of (kind_of kind) set.now) result }
        ensures pages { result.pages ≤ MAX_PAGES }
        ensures words { result.page_words ≤ MAX_INDEX_WORDS }
        ensures all { result.pages * result.page_words ≤ MAX_INDEX_READS }
        ensures small { result.pages_at ≤ MAX_PAGES_AT }
    {
        let first = first_index(set);
        match kind {
            DeviceKind::Plain => Shape {
                root: 1,
                pages: 1,
                page_words: index_words(set),
                pages_at: first,
            },
            DeviceKind::Paged => Shape::paged(set, first),
            DeviceKind::Migrated => {
                Shape::paged(set, first + 2 * index_words(set) + slots_words(set))
            }
        }
    }

    /// The pages behind a root at a place.
    fn paged(set: &TaskSet, root: u32) -> Shape
        requires { root ≤ MAX_ROOT }
        ensures exact { IsPagedAt set.now root result }
        ensures pages { result.pages ≤ MAX_PAGES }
        ensures words { result.page_words ≤ MAX_INDEX_WORDS }
        ensures all { result.pages * result.page_words ≤ MAX_INDEX_READS }
    {
        let index = index_words(set);
        if index <= 992 {
            return Shape {
                root,
                pages: ((index + 31) / 32) as u8,
                page_words: 32,
                pages_at: root + 1,
            };
        }
        Shape {
            root,
            pages: ((index + 127) / 128) as u8,
            page_words: 128,
            pages_at: root + 1,
        }
    }
}
