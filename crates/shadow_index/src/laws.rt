//! What words that were taken are.

ghost use Rattle.std.specs.Prelude.{ℕ, ◌≡◌, ◌<◌, ◌≤◌, length};
ghost use Rattle.set_model.specs.Sets.{TaskSet};
ghost use Rattle.set_model.specs.Numbers.{index_words};
ghost use Rattle.device_model.specs.Words.{Words};
ghost use Rattle.device_model.specs.IndexWords.{read_index};
ghost use Rattle.shadow_index.specs.States.{HasTaken, index_of, taken_word};
ghost use Rattle.shadow_index.specs.declared.state.State.{State};

/// A state that has taken all index words of a device is the index that these words tell.
pub fn taken_words_are_index()
    ensures { (set : TaskSet) (s : State) (w : Words) (m : ℕ) → index_words set ≤ m
        → HasTaken set m s → ((k : ℕ) → k < m → taken_word s k ≡ w k)
        → index_of s ≡ read_index (length set.objects) w }
{}
