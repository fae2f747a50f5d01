//! What a commit writes, as tables that are made once: each of its writes is one look.

ghost use Rattle.std.specs.Prelude.{ℕ, ◌≡◌, ◌<◌, ◌∷◌, List, Bool, get_or, length, slice_index};
ghost use Rattle.commit_writer.specs.Courses.{Course, IsBegun, IsPosition, IsNextPosition, first_left, left, no_object, writes_of};
ghost use Rattle.commit_writer.specs.Rooms.{IsFilled};

use crate::position::Position;
use nv_base::ObjId;
use nv_base::limits::MAX_OBJECTS;
use shadow_index::{Copies, Layout};
use task_set::TaskSet;

/// A place of a device, and the word that is written there.
pub(crate) type Change = (u32, u32);

/// A commit as tables.
#[derive(Drop)]
pub struct Job {
    /// Where the words of the set stand, on a device whose words were moved by `shift`.
    pub(crate) layout: Layout,
    /// How far a migration moved the words: 0 where there was none.
    pub(crate) shift: u32,
    /// The objects that are written, by number.
    pub(crate) objects: Vec<ObjId>,
    /// By object, the slot that its new version goes to. Of other objects it says nothing.
    pub(crate) slots: [u8; MAX_OBJECTS as usize],
    /// The pages that are written, by number.
    pub(crate) pages: Vec<u8>,
    /// The index words of the state after the commit, the padding too.
    pub(crate) words: Vec<u32>,
    /// The root of the state before.
    pub(crate) root: u32,
    /// The root of the state after.
    pub(crate) next_root: u32,
}

impl Job {
    /// The position of the first write.
    pub(crate) fn first(&self) -> Position
        ensures { (g : Course) (is_written : ℕ → Bool) (words : ℕ → List ℕ)
            → IsFilled g is_written words self.now
            → (writes_of g ≡ left g words self.now result)
            × IsPosition g words self.now result }
    {
        if self.objects.len() > 0 {
            return Position::Object(0, 0);
        }
        Position::Page(0, 0)
    }

    /// The write at a position.
    pub(crate) fn write_at<C: Copies>(&self, copies: &C, position: Position) -> Change
        requires { (g : Course) × IsBegun g (C.is_written copies.now) (C.words copies.now) self.now
            × IsPosition g (C.words copies.now) self.now position }
        ensures { (g : Course)
            → IsBegun g (C.is_written copies.now) (C.words copies.now) self.now
            → IsPosition g (C.words copies.now) self.now position
            → result ≡ first_left g (C.words copies.now) self.now position }
    {
        match position {
            Position::Object(nth, word) => self.object_write(copies, nth, word),
            Position::Page(nth, word) => self.page_write(nth, word),
            Position::Root | Position::Done => (self.layout.root_at(), self.next_root),
        }
    }

    // A word of a written object goes to its new slot.
    fn object_write<C: Copies>(&self, copies: &C, nth: usize, word: u8) -> Change
        requires { (g : Course) × IsBegun g (C.is_written copies.now) (C.words copies.now) self.now
            × IsPosition g (C.words copies.now) self.now (Position.Object nth word) }
        ensures { (g : Course)
            → IsBegun g (C.is_written copies.now) (C.words copies.now) self.now
            → IsPosition g (C.words copies.now) self.now (Position.Object nth word)
            → result ≡ first_left g (C.words copies.now) self.now (Position.Object nth word) }
    {
        // that its places fit a word is the device's need
        let _ = self.layout.need();
        let o = self.object(nth);
        let place = self.layout.slot_at(o, self.slot(o));
        (place + u32::from(word), copies.copy_word_of(o, word))
    }

    // The slot of an object's new version.
    fn slot(&self, o: ObjId) -> u8
        requires { o.0 < MAX_OBJECTS }
        ensures { result ≡ slice_index self.now.slots o.0 }
    {
        self.slots[usize::from(o.0)]
    }

    // A word of a changed page goes to the copy that is not current.
    fn page_write(&self, nth: usize, word: u32) -> Change
        requires { (g : Course) × (is_written : ℕ → Bool) × (words : ℕ → List ℕ)
            × IsBegun g is_written words self.now
            × IsPosition g words self.now (Position.Page nth word) }
        ensures { (g : Course) (is_written : ℕ → Bool) (words : ℕ → List ℕ)
            → IsBegun g is_written words self.now
            → IsPosition g words self.now (Position.Page nth word)
            → result ≡ first_left g words self.now (Position.Page nth word) }
    {
        // that its places fit a word is the device's need
        let _ = self.layout.need();
        let page = self.page(nth);
        let place = self
            .layout
            .page_at(page, 1 - self.layout.copy_of(self.root, page));
        let i = u32::from(page) * self.layout.page_words() + word;
        (place + word, self.words[i as usize])
    }

    // A written object by its count.
    fn object(&self, nth: usize) -> ObjId
        requires { nth < length self.now.objects.items }
        ensures { result ≡ get_or self.now.objects.items nth no_object }
    {
        self.objects[nth]
    }

    // A changed page by its count.
    fn page(&self, nth: usize) -> u8
        requires { nth < length self.now.pages.items }
        ensures { result ≡ get_or self.now.pages.items nth 0 }
    {
        self.pages[nth]
    }

    /// The position after one where a write was left.
    pub(crate) fn after(&self, set: &TaskSet, position: Position) -> Position
        requires { (g : Course) × (is_written : ℕ → Bool) × (words : ℕ → List ℕ)
            × IsBegun g is_written words self.now × IsPosition g words self.now position
            × (g.device.set ≡ set.now) }
        ensures { (g : Course) (is_written : ℕ → Bool) (words : ℕ → List ℕ)
            → IsBegun g is_written words self.now → IsPosition g words self.now position
            → g.device.set ≡ set.now
            → IsNextPosition g words self.now position result }
    {
        match position {
            Position::Object(nth, word) => self.after_object(set, nth, word),
            Position::Page(nth, word) => self.after_page(nth, word),
            Position::Root | Position::Done => Position::Done,
        }
    }

    // Behind a word of an object stands its next word, or the next object, or page 0.
    fn after_object(&self, set: &TaskSet, nth: usize, word: u8) -> Position
        requires { (g : Course) × (is_written : ℕ → Bool) × (words : ℕ → List ℕ)
            × IsBegun g is_written words self.now
            × IsPosition g words self.now (Position.Object nth word)
            × (g.device.set ≡ set.now) }
        ensures { (g : Course) (is_written : ℕ → Bool) (words : ℕ → List ℕ)
            → IsBegun g is_written words self.now
            → IsPosition g words self.now (Position.Object nth word)
            → g.device.set ≡ set.now
            → IsNextPosition g words self.now (Position.Object nth word) result }
    {
        if word + 1 < set.size(self.object(nth)) {
            return Position::Object(nth, word + 1);
        }
        if nth + 1 < self.objects.len() {
            return Position::Object(nth + 1, 0);
        }
        Position::Page(0, 0)
    }

    // Behind a word of a page stands its next word, or the next page, or the root.
    fn after_page(&self, nth: usize, word: u32) -> Position
        requires { (g : Course) × (is_written : ℕ → Bool) × (words : ℕ → List ℕ)
            × IsBegun g is_written words self.now
            × IsPosition g words self.now (Position.Page nth word) }
        ensures { (g : Course) (is_written : ℕ → Bool) (words : ℕ → List ℕ)
            → IsBegun g is_written words self.now
            → IsPosition g words self.now (Position.Page nth word)
            → IsNextPosition g words self.now (Position.Page nth word) result }
    {
        if word + 1 < self.layout.page_words() {
            return Position::Page(nth, word + 1);
        }
        if nth + 1 < self.pages.len() {
            return Position::Page(nth + 1, 0);
        }
        Position::Root
    }
}
