//! Format 1 by its table of places: word 1 is the root, 1 or 2; the two copies of the index stand behind the code, and the slots behind them.

ghost use Rattle.std.specs.Prelude.{ℕ, ◌≡◌, ◌<◌, ◌+◌, ◌-◌, ◌*◌, ◌==◌, ◌||◌, length};
ghost use Rattle.set_model.specs.Sets.{TaskSet, object_at};
ghost use Rattle.set_model.specs.Numbers.{boot_turns, first_index, index_words, words_needed};
ghost use Rattle.device_model.specs.Layouts.{Kind, boot_turns_of, header_word, index_place, layout_of, need, read_place, slot_place, words_before};

/// The magic is the bytes NVK1, word 1 is the root, and 1 and 2 are the roots; the words 3 to 6 are the numbers of objects, records and programs, and the memory.
pub fn format_1_begins()
    ensures magic { (set : TaskSet) → header_word (layout_of Kind.Plain set) set 0 ≡ 0x314B564E }
    ensures root { (set : TaskSet) → (layout_of Kind.Plain set).root ≡ 1 }
    ensures roots { (set : TaskSet) (word : ℕ)
        → (layout_of Kind.Plain set).is_root word ≡ ((word == 1) || (word == 2)) }
    ensures numbers { (set : TaskSet)
        → (let word = header_word (layout_of Kind.Plain set) set in
        (word 3 ≡ length set.objects) × (word 4 ≡ set.records) × (word 5 ≡ length set.programs)
        × (word 6 ≡ set.memory)) }
{}

/// Root 1 names the index copy behind the code, root 2 the one behind that, and the slots stand behind both, by object, slot 0 first.
pub fn format_1_goes_on()
    ensures first { (set : TaskSet) (i : ℕ) → i < index_words set
        → index_place (layout_of Kind.Plain set) 1 i ≡ first_index set + i }
    ensures second { (set : TaskSet) (i : ℕ) → i < index_words set
        → index_place (layout_of Kind.Plain set) 2 i ≡ first_index set + index_words set + i }
    ensures slots { (set : TaskSet) (o slot : ℕ)
        → slot_place (layout_of Kind.Plain set) set o slot
        ≡ first_index set + 2 * index_words set + words_before set.objects o
        + (object_at set o).size * slot }
{}

/// The words that a device needs, and the turns of a boot, are those that are counted for the kernel's model.
pub fn format_1_is_counted()
    ensures { (set : TaskSet) → (need (layout_of Kind.Plain set) set ≡ words_needed set)
        × (boot_turns_of (layout_of Kind.Plain set) ≡ boot_turns set) }
{}

/// Reading goes in order of place up to the code, and then through the index copy that the root names.
pub fn format_1_is_read_in_order()
    ensures head { (set : TaskSet) (root j : ℕ) → j < first_index set
        → read_place (layout_of Kind.Plain set) root j ≡ j }
    ensures index { (set : TaskSet) (root i : ℕ) → i < index_words set
        → read_place (layout_of Kind.Plain set) root (first_index set + i)
        ≡ first_index set + (root - 1) * index_words set + i }
{}
