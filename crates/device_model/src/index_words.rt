//! The index words of a state, both ways.

ghost use Rattle.std.specs.Prelude.{ℕ, ◌≡◌, ◌<◌, ◌≤◌, false, length};
ghost use Rattle.set_model.specs.Sets.{TaskSet};
ghost use Rattle.set_model.specs.Numbers.{index_words};
ghost use Rattle.device_model.specs.Words.{Words};
ghost use Rattle.device_model.specs.IndexWords.{Index, IsIndex, index_word, is_faulty, read_index, read_last};

/// An index that a device may have has no faulty word.
pub fn proper_index_has_no_fault()
    ensures { (set : TaskSet) (x : Index) → IsIndex set x
        → (i : ℕ) → is_faulty set (index_word x) i (index_word x i) ≡ false }
{}

/// What is written as words is read from them.
pub fn index_is_read_back()
    ensures { (set : TaskSet) (x : Index) → IsIndex set x
        → read_index (length set.objects) (index_word x) ≡ x }
{}

/// Words without a fault are the words of the index that is read from them, and it is one that a device may have.
pub fn faultless_words_are_index()
    ensures { (set : TaskSet) (w : Words) (m : ℕ) → index_words set ≤ m
        → ((i : ℕ) → i < m → is_faulty set w i (w i) ≡ false)
        → (let x = read_index (length set.objects) w in
        IsIndex set x × ((i : ℕ) → i < m → index_word x i ≡ w i)) }
{}

/// Whether a word is faulty rests on the words before it.
pub fn fault_rests_on_words_before()
    ensures { (set : TaskSet) (v w : Words) (i word : ℕ) → ((k : ℕ) → k < i → v k ≡ w k)
        → is_faulty set v i word ≡ is_faulty set w i word }
{}

/// An index has the words that it is read from, and no others: its slots, its tasks and its last finish are told by them.
pub fn words_tell_index()
    ensures { (set : TaskSet) (x : Index) (w : Words)
        → length x.slots ≡ length set.objects → length x.tasks ≤ set.records → read_last w ≡ x.last
        → ((i : ℕ) → i < index_words set → w i ≡ index_word x i)
        → read_index (length set.objects) w ≡ x }
{}
