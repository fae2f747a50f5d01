//! The tables of a commit are made at its begin, in room that was taken before.

ghost use Rattle.std.specs.Prelude.{ℕ, ◌≡◌, ◌==◌, ◌||◌, ◌<◌, ◌≤◌, ◌+◌, ◌-◌, ◌*◌, ◌^◌, IfOk, get_or, length, slice_index, true, vec_capacity};
ghost use Rattle.object_sets.specs.ObjectSets.{is_among};
ghost use Rattle.device_model.specs.Layouts.{bit, index_reads, turned_bits};
ghost use Rattle.device_model.specs.Commits.{differs};
ghost use Rattle.device_model.specs.Devices.{Device, layout_on};
ghost use Rattle.shadow_index.specs.States.{word_of};
ghost use Rattle.shadow_index.specs.Tells.{IsLayoutOf, IsShift};
ghost use Rattle.commit_writer.specs.Courses.{no_object};
ghost use Rattle.commit_writer.specs.Lists.{is_page_changed, marked, names_object, objects_by, pages_by};
ghost use Rattle.commit_writer.specs.Rooms.{IsFor, IsStateOf, IsTabled, layout_by};

use crate::job::Job;
use nv_base::limits::MAX_OBJECTS;
use nv_base::{NoMemory, ObjId, ObjSet};
use shadow_index::{DeviceKind, Layout, Plan, State};
use std::alloc::Global;
use task_set::TaskSet;

/// How many pages there may be.
const MAX_PAGES: usize = 31;

/// Of each page, whether a commit changes it.
type Marks = [bool; MAX_PAGES];

impl Job {
    /// Room for the commits of a set. `NoMemory` where there is none.
    pub(crate) fn room(alloc: Global, set: &TaskSet) -> Result<Job, NoMemory>
        ensures { IfOk result (IsFor set.now) }
    {
        let layout = Layout::of(set, 0);
        let words = Vec::with_capacity(alloc, layout.index_reads() as usize)?;
        let pages = Vec::with_capacity(alloc, usize::from(layout.pages()))?;
        Ok(Job {
            layout,
            shift: 0,
            objects: Vec::with_capacity(alloc, usize::from(set.objects()))?,
            slots: [0; MAX_OBJECTS as usize],
            pages,
            words,
            root: 0,
            next_root: 0,
        })
    }

    /// Fills the tables for the commit of a plan, between two states. What was in them is dropped.
    pub(crate) fn fill(&mut self, set: &TaskSet, plan: &Plan, before: &State, after: &State)
        requires set { IsFor set.now self.old }
        requires shift { IsShift set.now before.now.shift }
        requires before { IsStateOf set.now before.now }
        requires after { IsStateOf set.now after.now }
        ensures set { IsFor set.now self.new }
        ensures tabled { IsTabled set.now plan.now before.now after.now self.new }
    {
        self.move_to(set, before.shift);
        self.take_words(set, after);
        list_objects(&mut self.objects, set.objects(), plan.written);
        self.slots = plan.slots;
        let changed = self.changed_pages(set, before);
        let pages = self.layout.pages();
        list_pages(&mut self.pages, pages, &changed);
        self.root = before.root;
        self.next_root = self.flipped(&changed, before.root);
    }

    // The layout of a device whose words were moved so far: made anew only where that changed.
    fn move_to(&mut self, set: &TaskSet, shift: u32)
        requires set { IsFor set.now self.old }
        requires shift { IsShift set.now shift }
        ensures set { IsFor set.now self.new }
        ensures shift { self.new.shift ≡ shift }
    {
        if shift != self.shift {
            self.layout = Layout::of(set, shift);
            self.shift = shift;
        }
    }

    // The index words of the state after, the padding too.
    fn take_words(&mut self, set: &TaskSet, after: &State)
        requires set { IsFor set.now self.old }
        requires state { IsStateOf set.now after.now }
        ensures set { IsFor set.now self.new }
        ensures rest { self.new ≡ record self.old { words = self.new.words } }
        ensures long { length self.new.words.items
            ≡ index_reads (layout_by set.now self.old.shift) }
        ensures words { (i : ℕ) → i < index_reads (layout_by set.now self.old.shift)
            → slice_index self.new.words.items i ≡ word_of after.now i }
    {
        self.words.clear();
        for i in 0..self.layout.index_reads() {
            self.words.push_reserved(after.word(set, i));
        }
    }

    // The pages that hold the slot word of a written object.
    fn named_pages(&self, set: &TaskSet) -> Marks
        requires set { IsFor set.now self.now }
        requires objects { (k : ℕ) → k < length self.now.objects.items
            → (get_or self.now.objects.items k no_object).0 < length set.now.objects }
        ensures { (page : ℕ) → page < MAX_PAGES → marked result page
            ≡ names_object (layout_by set.now self.now.shift).page_words
            self.now.objects.items page }
    {
        let words = self.layout.page_words();
        let mut named = [false; MAX_PAGES];
        for o in &self.objects {
            named[((9 + u32::from(o.0)) / words) as usize] = true;
        }
        named
    }

    // Whether a word of a page, behind all slots, is not as in the state before.
    fn differs(&self, set: &TaskSet, before: &State, page: u8) -> bool
        requires set { IsFor set.now self.now }
        requires state { IsStateOf set.now before.now }
        requires long { length self.now.words.items
            ≡ index_reads (layout_by set.now self.now.shift) }
        requires page { page < (layout_by set.now self.now.shift).pages }
        ensures { let words = (layout_by set.now self.now.shift).page_words in result
            ≡ differs (9 + length set.now.objects) (word_of before.now)
            (slice_index self.now.words.items) (page * words) words }
    {
        let records = 9 + u32::from(set.objects());
        let first = u32::from(page) * self.layout.page_words();
        for i in first..first + self.layout.page_words() {
            if i >= records && before.word(set, i) != self.words[i as usize] {
                return true;
            }
        }
        false
    }

    // The pages that a commit writes: page 0, and each with a slot or a record that changes.
    fn changed_pages(&self, set: &TaskSet, before: &State) -> Marks
        requires set { IsFor set.now self.now }
        requires state { IsStateOf set.now before.now }
        requires long { length self.now.words.items
            ≡ index_reads (layout_by set.now self.now.shift) }
        requires objects { (k : ℕ) → k < length self.now.objects.items
            → (get_or self.now.objects.items k no_object).0 < length set.now.objects }
        ensures { (page : ℕ) → page < (layout_by set.now self.now.shift).pages
            → marked result page
            ≡ is_page_changed (9 + length set.now.objects)
            (layout_by set.now self.now.shift).page_words self.now.objects.items
            (word_of before.now) (slice_index self.now.words.items) page }
    {
        let mut changed = self.named_pages(set);
        changed[0] = true;
        for page in 1..self.layout.pages() {
            if !changed[usize::from(page)] {
                changed[usize::from(page)] = self.differs(set, before, page);
            }
        }
        changed
    }

    // The root that names the other copy of each changed page, of which page 0 is one.
    fn flipped(&self, changed: &Marks, root: u32) -> u32
        requires { marked changed.now 0 ≡ true }
        ensures { (d : Device) → IsLayoutOf d self.now.layout → (layout_on d).is_root root ≡ true
            → result ≡ (layout_on d).flipped (marked changed.now) root }
    {
        match self.layout.kind() {
            DeviceKind::Plain => other_root(root),
            DeviceKind::Paged | DeviceKind::Migrated => self.turned(changed, root),
        }
    }

    // The root with the bit of each changed page turned.
    fn turned(&self, changed: &Marks, root: u32) -> u32
        ensures { (d : Device) → IsLayoutOf d self.now.layout
            → result ≡ turned_bits (marked changed.now) 0 (layout_on d).pages root }
    {
        let mut turned = root;
        for page in 0..self.layout.pages() {
            if changed[usize::from(page)] {
                turned = turn_bit(turned, page);
            }
        }
        turned
    }
}

// The objects that are written, of so many, by number.
fn list_objects(objects: &mut Vec<ObjId>, count: u8, written: ObjSet)
    requires room { count ≤ vec_capacity objects.old }
    requires few { count ≤ MAX_OBJECTS }
    ensures exact { objects.new.items ≡ objects_by (λ o. is_among o written) 0 count }
    ensures room { vec_capacity objects.new ≡ vec_capacity objects.old }
{
    objects.clear();
    for o in 0..count {
        if written.has(ObjId(o)) {
            objects.push_reserved(ObjId(o));
        }
    }
}

// The pages that are changed, of so many, by number.
fn list_pages(pages: &mut Vec<u8>, count: u8, changed: &Marks)
    requires room { count ≤ vec_capacity pages.old }
    requires few { count ≤ MAX_PAGES }
    ensures exact { pages.new.items ≡ pages_by (marked changed.now) 0 count }
    ensures room { vec_capacity pages.new ≡ vec_capacity pages.old }
{
    pages.clear();
    for page in 0..count {
        if changed[usize::from(page)] {
            pages.push_reserved(page);
        }
    }
}

// Of the roots 1 and 2 of format 1, the other one.
fn other_root(root: u32) -> u32
    ensures { ((root == 1) || (root == 2)) ≡ true → result ≡ 3 - root }
{
    if root == 1 { 2 } else { 1 }
}

// A word with bit k turned.
fn turn_bit(word: u32, k: u8) -> u32
    requires { k < 31 }
    ensures { result + bit word k * 2 ^ k ≡ word + (1 - bit word k) * 2 ^ k }
{
    let turned = power(k);
    if (word >> k) % 2 == 0 {
        word + turned
    } else {
        word - turned
    }
}

// The word with bit k alone.
fn power(k: u8) -> u32
    requires { k < 31 }
    ensures { result ≡ 2 ^ k }
{
    1 << k
}
