//! Where the words stand: each place has one meaning, in each kind of device.

ghost use Rattle.std.specs.Prelude.{ℕ, ◌≡◌, ◌<◌, ◌≤◌, ◌+◌, ◌*◌, ◌^◌, true, length, slice_index};
ghost use Rattle.set_model.specs.Sets.{TaskSet, object_at, program_at};
ghost use Rattle.set_model.specs.Limits.{IsTaskSet};
ghost use Rattle.set_model.specs.Numbers.{first_index};
ghost use Rattle.device_model.specs.Layouts.{Kind, Layout, code_place, copy_place, header, index_place, index_reads, layout_of, need, object_word, slot_place, slots_at};
ghost use Rattle.device_model.specs.Places.{IsLaidOut};
ghost use Rattle.device_model.specs.Devices.{Device, IsSlotWord, layout_on};

/// The header stands first, then the root, then the pages, which hold the index; each root names a copy of each page, and a flipped root the other copies.
pub fn each_kind_is_laid_out()
    ensures { (kind : Kind) (set : TaskSet) → IsTaskSet set → IsLaidOut set (layout_of kind set) }
{}

/// A root is what it names: two roots that name the same copies are one.
pub fn root_is_what_it_names()
    ensures { (d : Device) (r s : ℕ)
        → (layout_on d).is_root r ≡ true → (layout_on d).is_root s ≡ true
        → ((page : ℕ) → page < (layout_on d).pages
        → (layout_on d).copy r page ≡ (layout_on d).copy s page) → r ≡ s }
{}

/// It has 32 bits, and there are 31 pages at most.
pub fn root_is_word()
    ensures root { (d : Device) (root : ℕ)
        → IsTaskSet d.set → (layout_on d).is_root root ≡ true → root < 2 ^ 32 }
    ensures pages { (d : Device) → IsTaskSet d.set → (layout_on d).pages ≤ 31 }
{}

/// The header has a word for each object, two for each program, and then the code, up to the first index place.
pub fn header_stands_in_order()
    ensures long { (magic : ℕ) (set : TaskSet) → length (header magic set) ≡ first_index set }
    ensures object { (magic : ℕ) (set : TaskSet) (o : ℕ) → o < length set.objects
        → slice_index (header magic set) (7 + o) ≡ object_word (object_at set o) }
    ensures program { (magic : ℕ) (set : TaskSet) (p : ℕ) → p < length set.programs
        → (let word = λ (i : ℕ). slice_index (header magic set) (7 + length set.objects + i) in
        (word (2 * p) ≡ (program_at set p).fuel)
        × (word (2 * p + 1) ≡ length (program_at set p).code)) }
    ensures code { (magic : ℕ) (set : TaskSet) (p i : ℕ)
        → p < length set.programs → i < length (program_at set p).code
        → (slice_index (header magic set) (code_place set p + i)
        ≡ slice_index (program_at set p).code i) × (code_place set p + i < first_index set) }
{}

/// A word of a page stands behind the root and before the slots, and no two words of pages stand at one place, so no two of the index do.
pub fn pages_stand_apart()
    ensures within { (l : Layout) (page copy i : ℕ) → page < l.pages → copy < 2 → i < l.page_words
        → (l.pages_at ≤ copy_place l page copy i) × (copy_place l page copy i < slots_at l) }
    ensures apart { (l : Layout) (p c i q d j : ℕ)
        → c < 2 → d < 2 → i < l.page_words → j < l.page_words
        → copy_place l p c i ≡ copy_place l q d j → (p ≡ q) × (c ≡ d) × (i ≡ j) }
    ensures index { (set : TaskSet) (l : Layout) (root i j : ℕ)
        → IsLaidOut set l → l.is_root root ≡ true → i < index_reads l → j < index_reads l
        → index_place l root i ≡ index_place l root j → i ≡ j }
{}

/// A word of a slot stands behind the pages and below the need, and no two words of slots stand at one place.
pub fn slots_stand_apart()
    ensures within { (l : Layout) (set : TaskSet) (o slot i : ℕ) → IsSlotWord set o slot i
        → (slots_at l ≤ slot_place l set o slot + i) × (slot_place l set o slot + i < need l set) }
    ensures apart { (l : Layout) (set : TaskSet) (o p a b i j : ℕ)
        → IsSlotWord set o a i → IsSlotWord set p b j
        → slot_place l set o a + i ≡ slot_place l set p b + j → (o ≡ p) × (a ≡ b) × (i ≡ j) }
{}
