//! Words keep a state, place by place, exactly where they decode to it.

ghost use Rattle.std.specs.Prelude.{ℕ, ◌≡◌, ◌≢◌, ◌<◌, ◌≤◌, ◌-◌, true, false, List, Option, slice_index};
ghost use Rattle.std.specs.List.{AllByRecursion};
ghost use Rattle.kernel_model.specs.Fit.{IsBase, IsLast};
ghost use Rattle.set_model.specs.Sets.{TaskSet};
ghost use Rattle.set_model.specs.Limits.{IsTaskSet};
ghost use Rattle.set_model.specs.Numbers.{sizes_of};
ghost use Rattle.device_model.specs.Words.{Change, Words, made};
ghost use Rattle.device_model.specs.Layouts.{Layout, copy_place, kind_named, reads};
ghost use Rattle.device_model.specs.Decoding.{Held, Stored, decode, durable_of};
ghost use Rattle.device_model.specs.Keeping.{IsHeld};
ghost use Rattle.device_model.specs.Devices.{IsKindOn, Device, HoldsOn, IsFreeOn, IsHeldOn, IsSlotWord, KeepsOn, held_on, index_on, is_faulty_on, layout_on, need_on, read_on, slot_on};

/// Words that keep a state decode to it.
pub fn kept_state_is_decoded()
    ensures { (d : Device) (h : Held) (words : Words)
        → IsTaskSet d.set → IsKindOn d → KeepsOn d h words → HoldsOn d h words }
{}

/// Words that decode to a state keep it.
pub fn decoded_state_is_kept()
    ensures { (d : Device) (h : Held) (words : Words)
        → IsTaskSet d.set → HoldsOn d h words → KeepsOn d h words }
{}

/// The index is read back from words that keep a state.
pub fn kept_index_is_read_back()
    ensures { (d : Device) (h : Held) (words : Words)
        → IsTaskSet d.set → KeepsOn d h words → index_on d words ≡ h.index }
{}

/// Word 0 tells first: 0 is no state at all, and a word that names no kind is damage.
pub fn first_word_tells()
    ensures blank { (set : TaskSet) (words : Words)
        → words 0 ≡ 0 → decode set words ≡ Stored.Blank }
    ensures other { (set : TaskSet) (words : Words)
        → (words 0 ≡ 0 → ⊥) → kind_named set.format (words 0) ≡ Option.None
        → decode set words ≡ Stored.Damaged 0 }
{}

/// What is damaged is the place of the first faulty word, in the order of reading.
pub fn first_faulty_word_is_damage()
    ensures { (d : Device) (words : Words) (j : ℕ)
        → (words 0 ≡ 0 → ⊥) → kind_named d.set.format (words 0) ≡ Option.Some d.kind
        → j < reads (layout_on d) → ((k : ℕ) → k < j → is_faulty_on d words k ≡ false)
        → is_faulty_on d words j ≡ true
        → decode d.set words ≡ Stored.Damaged (read_on d words j) }
{}

/// A state on a device is one that the kernel's model may start from.
pub fn held_state_is_fit()
    ensures { (set : TaskSet) (l : Layout) (h : Held) → IsHeld set l h
        → IsBase (sizes_of set) (durable_of h).state
        × IsLast (durable_of h).state (durable_of h).last }
{}

/// Words without a fault are those of a state.
pub fn faultless_words_are_held()
    ensures { (d : Device) (words : Words)
        → (words 0 ≡ 0 → ⊥) → kind_named d.set.format (words 0) ≡ Option.Some d.kind
        → ((j : ℕ) → j < reads (layout_on d) → is_faulty_on d words j ≡ false)
        → HoldsOn d (held_on d words) words }
{}

/// Writes to places on which a state does not rest leave it.
pub fn writes_elsewhere_leave_state()
    ensures { (d : Device) (h : Held) (log : List Change) (words : Words)
        → AllByRecursion (λ (w : Change). IsFreeOn d h w.0) log → KeepsOn d h words
        → KeepsOn d h (made log words) }
{}

/// Such places are the other copies of pages, the slots that are not named, and all behind the need.
pub fn other_places_are_free()
    ensures pages { (d : Device) (h : Held) (page i : ℕ)
        → IsTaskSet d.set → IsHeldOn d h
        → page < (layout_on d).pages → i < (layout_on d).page_words
        → IsFreeOn d h (copy_place (layout_on d) page (1 - (layout_on d).copy h.root page) i) }
    ensures slots { (d : Device) (h : Held) (o slot i : ℕ)
        → IsTaskSet d.set → IsHeldOn d h
        → IsSlotWord d.set o slot i → slot ≢ slice_index h.index.slots o
        → IsFreeOn d h (slot_on d o slot i) }
    ensures behind { (d : Device) (h : Held) (p : ℕ)
        → IsTaskSet d.set → IsHeldOn d h → need_on d ≤ p → IsFreeOn d h p }
{}
