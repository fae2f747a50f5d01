//! The table is that of the kernel over tables and device words: it answers the same, and changes alike.

ghost use Rattle.std.specs.Prelude.{ℕ, ◌≡◌, List, Option, Some, None, false, true, length, map, slice_index, slice_set};
ghost use Rattle.object_sets.specs.ObjectSets.{is_among};
ghost use Rattle.interval.specs.declared.version.Pin.{Pin};
ghost use Rattle.kernel_model.specs.Items.{FinishRecord};
ghost use Rattle.kernel_model.specs.Intervals.{Interval};
ghost use Rattle.slot_model.specs.Tabled.{View, chosen_place, free_place, installed as with_installed};
ghost use Rattle.set_model.specs.Sets.{TaskSet};
ghost use Rattle.device_model.specs.IndexWords.{Index};
ghost use Rattle.table_machine.specs.Tables.{chain_at as kept_at, each_from};
ghost use Rattle.table_machine.specs.Events.{all_touched, one_version, reopened, touched};
ghost use Rattle.ver_table.specs.Chains.{AreOpened, Chain, chain_at, holds_newest, installed, newest_before, noted};
ghost use Rattle.ver_table.specs.Places.{IsFreeSlot, is_needed};
ghost use Rattle.ver_table.specs.Slots.{AreEnded, IsLaid};
ghost use Rattle.ver_table.specs.Tabled.{AreTouched, AreViews, all_tabled, tabled};

/// Each object has its bound, and its versions by their slots.
pub fn object_is_tabled()
    ensures { (chains : List Chain) (o : ℕ)
        → kept_at (all_tabled chains) o ≡ tabled (chain_at chains o) }
{}

/// The newest version that begins before an end is the same.
pub fn chosen_is_place()
    ensures { (hi : Option ℕ) (c : Chain)
        → chosen_place hi (tabled c).places ≡ newest_before hi c.stored }
{}

/// A new version, in a slot that does not hold the newest, leaves the same versions.
pub fn installed_is_place()
    ensures { (k p : ℕ) (c : Chain) → holds_newest k c.stored ≡ false
        → (tabled (installed k p c)).places ≡ with_installed p k (tabled c).places }
{}

/// What a finish makes of an object: a new version where it writes it, a note where it only reads it, and else nothing.
pub fn finish_touches_object()
    ensures writes { (i : FinishRecord) (o k : ℕ) (words : List ℕ) (c : Chain)
        → holds_newest k c.stored ≡ false
        → touched i o k (Some words) (tabled c) ≡ tabled (installed k i.point c) }
    ensures reads { (i : FinishRecord) (o k : ℕ) (c : Chain) → is_among o i.run.reads ≡ true
        → touched i o k None (tabled c) ≡ tabled (noted i.point c) }
    ensures neither { (i : FinishRecord) (o k : ℕ) (c : Chain) → is_among o i.run.reads ≡ false
        → touched i o k None (tabled c) ≡ tabled c }
{}

/// So it makes the whole table, where each object is what the finish makes of it.
pub fn finish_touches_table()
    ensures { (i : FinishRecord) (slots : List ℕ) (old new : List Chain)
        → AreTouched i slots old new
        → all_touched i slots 0 (all_tabled old) ≡ all_tabled new }
{}

/// A table that was opened has one version of each object, in the slot that is named.
pub fn opened_is_one_version()
    ensures { (slots named : List ℕ) (p : ℕ) (chains : List Chain)
        → AreOpened slots named p chains
        → all_tabled chains
        ≡ each_from 0 (length slots) (λ o. one_version (slice_index named o) p) }
{}

/// At the end of a boot it is that of the index that was read.
pub fn opened_is_reopened()
    ensures { (set : TaskSet) (x : Index) (slots : List ℕ) (chains : List Chain)
        → length slots ≡ length set.objects
        → AreOpened slots x.slots x.clock chains
        → all_tabled chains ≡ reopened set x }
{}

/// A table that was opened has as many slots of each object as were told, and keeps them with each change of an object.
pub fn slots_stay()
    ensures opened { (slots named : List ℕ) (p : ℕ) (chains : List Chain)
        → AreOpened slots named p chains → map (λ (c : Chain). c.slots) chains ≡ slots }
    ensures changed { (chains : List Chain) (o : ℕ) (c : Chain)
        → c.slots ≡ (chain_at chains o).slots
        → map (λ (d : Chain). d.slots) (slice_set chains o c) ≡ map (λ (d : Chain). d.slots) chains }
{}

/// A slot that is found free beside other attempts is the least free one beside what is kept of these.
pub fn free_slot_is_free_place()
    ensures { (o : ℕ) (views : List View) (others : List Interval) (pins : List Pin) (c : Chain)
        → (r : Option ℕ) → IsLaid c → AreEnded c.stored → AreViews views others pins
        → IsFreeSlot (is_needed o others pins) c r
        → free_place c.slots o views (tabled c).places ≡ r }
{}
