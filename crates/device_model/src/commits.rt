//! A commit, write by write.

ghost use Rattle.std.specs.Prelude.{ℕ, ◌≡◌, ◌≢◌, ◌<◌, ◌+◌, ◌∷◌, ◌≤◌, Bool, true, if◌then◌else◌, List, get_or, length, slice_index, Option, set};
ghost use Rattle.std.specs.List.{AllByRecursion};
ghost use Rattle.kernel_model.specs.Effects.{Objects, written};
ghost use Rattle.kernel_model.specs.Items.{Entry, FinishRecord};
ghost use Rattle.kernel_model.specs.OpenTasks.{open_tasks};
ghost use Rattle.kernel_model.specs.Replay.{DeviceState};
ghost use Rattle.kernel_model.specs.Turns as turns;
ghost use Rattle.kernel_model.specs.Fit.{InObjectOrder, IsBase, IsLast, IsSizes, IsWrite};
ghost use Rattle.set_model.specs.Sets.{TaskSet, object_at};
ghost use Rattle.set_model.specs.Limits.{IsTaskSet};
ghost use Rattle.set_model.specs.Numbers.{sizes_of};
ghost use Rattle.device_model.specs.Words.{Words, made, with_word, Change};
ghost use Rattle.device_model.specs.Layouts.{Kind, Layout, layout_of, slot_place, slots_at};
ghost use Rattle.device_model.specs.IndexWords.{Index, IsIndex, base_of};
ghost use Rattle.device_model.specs.Decoding.{Held, durable_of};
ghost use Rattle.device_model.specs.Keeping.{KeepsIn};
ghost use Rattle.device_model.specs.Commits.{Commit, IsNext, IsUnderWay, commit_of, commit_turns, commit_writes, committed, writes_by, words_before_object, words_written};
ghost use Rattle.device_model.specs.Counting.{sizes_on};
ghost use Rattle.device_model.specs.Devices.{IsKindOn, Device, HoldsOn, IsHeldOn, IsSlotWord, IsUnderWayOn, KeepsOn, commit_on, committed_on, image_after, layout_on, left_after, slot_on, slot_words_on};
ghost use Rattle.device_model.specs.Places.{IsLaidOut};

/// Each image of a commit before its last write keeps the state before.
pub fn cut_commit_keeps_state()
    ensures keeps { (d : Device) (h : Held) (c : Commit) (words : Words) (k : ℕ)
        → IsTaskSet d.set → IsNext d.set h c → KeepsOn d h words → k < length (commit_on d h c)
        → KeepsOn d h (image_after k (commit_on d h c) words) }
    ensures decodes { (d : Device) (h : Held) (c : Commit) (words : Words) (k : ℕ)
        → IsTaskSet d.set → IsKindOn d → IsNext d.set h c
        → HoldsOn d h words → k < length (commit_on d h c)
        → HoldsOn d h (image_after k (commit_on d h c) words) }
{}

/// After the last write they keep the state after.
pub fn whole_commit_keeps_next_state()
    ensures keeps { (d : Device) (h : Held) (c : Commit) (words : Words)
        → IsTaskSet d.set → IsNext d.set h c → KeepsOn d h words
        → KeepsOn d (committed_on d h c) (made (commit_on d h c) words) }
    ensures decodes { (d : Device) (h : Held) (c : Commit) (words : Words)
        → IsTaskSet d.set → IsKindOn d → IsNext d.set h c → HoldsOn d h words
        → HoldsOn d (committed_on d h c) (made (commit_on d h c) words) }
{}

/// A commit has as many writes as its turns. The commit of a finish has as many as the kernel's model counts, by the numbers of the set on its device; in format 1 these are the set's own.
pub fn commit_has_turns()
    ensures writes { (l : Layout) (set : TaskSet) (h : Held) (c : Commit)
        → length (commit_writes l set h c) ≡ commit_turns l set h c }
    ensures counted { (l : Layout) (set : TaskSet) (h : Held) (i : FinishRecord) (slots : List ℕ)
        → (base : DeviceState) (history : List FinishRecord)
        → h.index.tasks ≡ open_tasks base history
        → length h.index.slots ≡ length set.objects → length slots ≡ length set.objects
        → AllByRecursion (IsWrite (sizes_on l set)) i.run.writes
        → commit_turns l set h (commit_of h i slots)
        ≡ turns.commit_writes (sizes_on l set) base history i }
    ensures format_1 { (set : TaskSet) (h : Held) (i : FinishRecord) (slots : List ℕ)
        → (base : DeviceState)
        → (history : List FinishRecord) → AllByRecursion (IsWrite (sizes_of set)) i.run.writes
        → commit_turns (layout_of Kind.Plain set) set h (commit_of h i slots)
        ≡ turns.commit_writes (sizes_of set) base history i }
{}

/// The numbers of a set on a device are fit for the kernel's model; on a device of format 1 they are those of the set.
pub fn numbers_on_device_are_fit()
    ensures fit { (l : Layout) (set : TaskSet) → IsTaskSet set → IsSizes (sizes_on l set) }
    ensures format_1 { (set : TaskSet) → sizes_on (layout_of Kind.Plain set) set ≡ sizes_of set }
{}

/// A slot that is not written keeps its words in each image.
pub fn other_slot_keeps_words()
    ensures { (d : Device) (h : Held) (c : Commit) (words : Words) (k o slot i : ℕ)
        → IsTaskSet d.set → IsHeldOn d h → IsNext d.set h c → IsSlotWord d.set o slot i
        → ((given : List ℕ) → written c.writes o ≡ Option.Some given
        → slice_index c.after.slots o ≢ slot)
        → image_after k (commit_on d h c) words (slot_on d o slot i) ≡ words (slot_on d o slot i) }
{}

/// The words of the written objects come first, each to its place in its object's new slot. All other writes go before the slots.
pub fn commit_writes_slots_first()
    ensures object { (l : Layout) (set : TaskSet) (h : Held) (c : Commit) (o i : ℕ)
        → (given : List ℕ) → written c.writes o ≡ Option.Some given → i < length given
        → get_or (commit_writes l set h c) (words_before_object o c.writes + i) (0, 0)
        ≡ (slot_place l set o (slice_index c.after.slots o) + i, slice_index given i) }
    ensures others { (l : Layout) (set : TaskSet) (h : Held) (c : Commit) (k : ℕ)
        → IsLaidOut set l → words_written c.writes ≤ k
        → (get_or (commit_writes l set h c) k (0, 0)).0 < slots_at l }
{}

/// A write to a word of a slot changes that word of that slot, and no other slot. A write before the slots changes none.
pub fn write_changes_one_slot()
    ensures same { (d : Device) (words : Words) (o slot i word : ℕ) → IsSlotWord d.set o slot i
        → slot_words_on d (with_word (slot_on d o slot i, word) words) o slot
        ≡ set (slot_words_on d words o slot) i word }
    ensures other { (d : Device) (words : Words) (o slot i word p other : ℕ)
        → IsSlotWord d.set o slot i → p < length d.set.objects → other < (object_at d.set p).slots
        → (p ≡ o → other ≡ slot → ⊥)
        → slot_words_on d (with_word (slot_on d o slot i, word) words) p other
        ≡ slot_words_on d words p other }
    ensures before { (d : Device) (words : Words) (w : Change) (o slot : ℕ)
        → w.0 < slots_at (layout_on d)
        → slot_words_on d (with_word w words) o slot ≡ slot_words_on d words o slot }
{}

/// The commit of a finish leaves what is durable after that finish.
pub fn commit_lists_finish()
    ensures { (l : Layout) (set : TaskSet) (h : Held) (i : FinishRecord) (slots : List ℕ)
        → (base : DeviceState)
        → (last : Option Entry) (history : List FinishRecord) (boots : ℕ)
        → durable_of h ≡ left_after base last boots history
        → durable_of (committed l set h (commit_of h i slots))
        ≡ left_after base last boots (i ∷ history) }
{}

/// A state of the kernel's model, with slots that there are, has an index that a device may have.
pub fn fit_state_has_index()
    ensures { (set : TaskSet) (x : Index) (objects : Objects)
        → IsBase (sizes_of set) (base_of x objects) → IsLast (base_of x objects) x.last
        → length x.slots ≡ length set.objects
        → ((o : ℕ) → o < length set.objects → slice_index x.slots o < (object_at set o).slots)
        → IsIndex set x }
{}

/// A commit is under way from its first write to its last: each write is the next of the list, a cut leaves the state before, and the end the state after.
pub fn commit_goes_write_by_write()
    ensures begins { (set : TaskSet) (l : Layout) (h : Held) (c : Commit) (words : Words)
        → IsNext set h c → KeepsIn set l h words → IsUnderWay set l h c 0 words }
    ensures goes_on { (set : TaskSet) (l : Layout) (h : Held) (c : Commit) (count : ℕ)
        → (words : Words) → count < length (commit_writes l set h c)
        → IsUnderWay set l h c count words
        → IsUnderWay set l h c (count + 1)
        (with_word (get_or (commit_writes l set h c) count (0, 0)) words) }
    ensures cut { (d : Device) (h : Held) (c : Commit) (count : ℕ) (words : Words)
        → IsTaskSet d.set → count < length (commit_on d h c) → IsUnderWayOn d h c count words
        → KeepsOn d h words }
    ensures ends { (d : Device) (h : Held) (c : Commit) (count : ℕ) (words : Words)
        → IsTaskSet d.set → length (commit_on d h c) ≤ count → IsUnderWayOn d h c count words
        → KeepsOn d (committed_on d h c) words }
{}

/// The writes by a test of each object are in order, of the objects' sizes, and of just these objects.
pub fn writes_by_objects()
    ensures order { (is_written : ℕ → Bool) (words : ℕ → List ℕ) (n : ℕ)
        → InObjectOrder (writes_by is_written words 0 n) }
    ensures sizes { (set : TaskSet) (is_written : ℕ → Bool) (words : ℕ → List ℕ)
        → ((p : ℕ) → p < length set.objects → is_written p ≡ true
        → length (words p) ≡ (object_at set p).size)
        → AllByRecursion (IsWrite (sizes_of set))
        (writes_by is_written words 0 (length set.objects)) }
    ensures written { (is_written : ℕ → Bool) (words : ℕ → List ℕ) (n p : ℕ) → p < n
        → written (writes_by is_written words 0 n) p
        ≡ (if is_written p then Option.Some (words p) else Option.None) }
{}
