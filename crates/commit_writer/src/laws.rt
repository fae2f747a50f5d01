//! All turns of a commit, one after another, and the commit of a finish.

ghost use Rattle.std.specs.Prelude.{ℕ, ◌≡◌, ◌<◌, ◌≤◌, ◌++◌, Bool, List, length, take};
ghost use Rattle.kernel_model.specs.Items.{FinishRecord};
ghost use Rattle.set_model.specs.Sets.{TaskSet};
ghost use Rattle.set_model.specs.Limits.{IsTaskSet};
ghost use Rattle.device_model.specs.Words.{Change};
ghost use Rattle.device_model.specs.IndexWords.{Index, IsIndex};
ghost use Rattle.device_model.specs.Decoding.{Held};
ghost use Rattle.device_model.specs.Commits.{IsNext, commit_of, commit_turns};
ghost use Rattle.device_model.specs.Devices.{HoldsOn, IsHeldOn, IsKindOn, layout_on};
ghost use Rattle.shadow_index.specs.declared.plan.Plan.{Plan};
ghost use Rattle.shadow_index.specs.declared.state.State.{State};
ghost use Rattle.shadow_index.specs.States.{index_of};
ghost use Rattle.shadow_index.specs.Tells.{device_of};
ghost use Rattle.commit_writer.specs.Afters.{AreNextSlots, IsAfter, IsNextFinish, IsPlanned, planned_slots};
ghost use Rattle.commit_writer.specs.Courses.{Course, held_after, writes_of};
ghost use Rattle.commit_writer.specs.Rooms.{IsTold};
ghost use Rattle.commit_writer.specs.Turns.{IsUnderWayIn, words_in};

/// A commit whose turns are all made has gone through each of its writes: as many as its turns, each image before the
/// last one holds the state before, and the last one the state after.
pub fn turns_make_whole_commit()
    ensures turns { (g : Course) → length (writes_of g)
        ≡ commit_turns (layout_on g.device) g.device.set g.held g.commit }
    ensures goes_on { (g : Course) (start : List ℕ) (log : List Change) (k : ℕ)
        → IsTaskSet g.device.set → IsUnderWayIn g 0 start log → k ≤ length (writes_of g)
        → IsUnderWayIn g k start (log ++ take k (writes_of g)) }
    ensures before { (g : Course) (start : List ℕ) (log : List Change) (k : ℕ)
        → IsTaskSet g.device.set → IsKindOn g.device → IsUnderWayIn g 0 start log
        → k < length (writes_of g)
        → HoldsOn g.device g.held (words_in start (log ++ take k (writes_of g))) }
    ensures after { (g : Course) (start : List ℕ) (log : List Change)
        → IsTaskSet g.device.set → IsKindOn g.device → IsUnderWayIn g 0 start log
        → HoldsOn g.device (held_after g) (words_in start (log ++ writes_of g)) }
{}

/// The commit of a finish may follow the state before it, and a plan with the states before and after its finish tells
/// that commit: its task is open, its point is not too late, there are records for its children, and each object that it
/// writes gets another one of its slots.
pub fn finish_has_commit()
    ensures next { (set : TaskSet) (h : Held) (i : FinishRecord) (slots : List ℕ)
        → IsIndex set h.index → IsNextFinish set h.index i
        → AreNextSlots set i.run.writes h.index.slots slots
        → IsNext set h (commit_of h i slots) }
    ensures slots { (set : TaskSet) (plan : Plan) (x : Index) (i : FinishRecord)
        → (is_written : ℕ → Bool) (words : ℕ → List ℕ)
        → IsIndex set x → IsPlanned set plan x i is_written words
        → AreNextSlots set i.run.writes x.slots (planned_slots plan x.slots) }
    ensures told { (set : TaskSet) (plan : Plan) (before after : State)
        → (h : Held) (i : FinishRecord) (is_written : ℕ → Bool) (words : ℕ → List ℕ)
        → IsHeldOn (device_of set before.shift) h
        → h.index ≡ index_of before → h.root ≡ before.root
        → IsPlanned set plan h.index i is_written words → IsAfter plan before i after
        → IsTold set plan before after h (commit_of h i (planned_slots plan h.index.slots))
        is_written words }
{}
