//! Laws of attempts: their turns are those of the table machine's seats, what a finish elsewhere makes of them, and what
//! their words are to a commit.

ghost use Rattle.std.specs.Prelude.{◌≡◌, ◌+◌, ◌<◌, ℕ, Bool, List, Some, is_some, length};
ghost use Rattle.std.specs.List.{list_any};
ghost use Rattle.object_sets.specs.ObjectSets.{is_among};
ghost use Rattle.rv_core.specs.State.{MachineState};
ghost use Rattle.nv_base.specs.declared.ids.ObjId.{ObjId};
ghost use Rattle.nv_base.specs.declared.lines.Outcome.{Outcome};
ghost use Rattle.kernel_model.specs.Effects.{Write, object_words, written};
ghost use Rattle.kernel_model.specs.Items.{FinishRecord};
ghost use Rattle.kernel_model.specs.Intervals.{Interval};
ghost use Rattle.kernel_model.specs.Chain.{cut};
ghost use Rattle.slot_model.specs.Tabled.{Place, with_place};
ghost use Rattle.set_model.specs.Sets.{TaskSet, object_at};
ghost use Rattle.device_model.specs.Words.{Words};
ghost use Rattle.device_model.specs.Layouts.{Layout, slot_place};
ghost use Rattle.device_model.specs.Commits.{writes_by};
ghost use Rattle.table_machine.specs.Tables.{Copies, Seat, Tables, Try};
ghost use Rattle.table_machine.specs.Seats.{open_copy, seat_turn, still, task_on};
ghost use Rattle.table_machine.specs.Places.{view_by};
ghost use Rattle.table_machine.specs.Events.{cut_seat};
ghost use Rattle.vol_copy.specs.declared.attempt.Attempt.{Attempt};
ghost use Rattle.vol_copy.specs.declared.attempt.Stage.TheVariants.{Copying, Running};
ghost use Rattle.vol_copy.specs.declared.running.Need.{Need};
ghost use Rattle.vol_copy.specs.declared.want.Want.{Want};
ghost use Rattle.vol_copy.specs.Stages.{IsFetching};
ghost use Rattle.vol_copy.specs.Tries.{IsCopyingTry, IsEndedTry, IsFor, IsSeat, IsTry, has_read, slot_on, task_in, view_in, writes_in};
ghost use Rattle.vol_copy.specs.Turns.{Advances, CopiesWord, IsInNeed, OpensRead, TurnsTo, setting_of};

/// An attempt that runs and advances makes the turn of each seat that it stands for, among any tables and on any core.
pub fn advance_is_a_turn()
    ensures { (set : TaskSet) (old new : Attempt) (need : Need)
        → old.stage ≡ Running → Advances set old new need → IsInNeed new need
        → (i : Interval) (seat : Seat MachineState) → IsSeat old i seat
        → (layout : Layout) (tables : Tables MachineState) (words : Words)
        (others : List (Seat MachineState)) (n : ℕ)
        → TurnsTo new i need tables.chains n
        (seat_turn (setting_of set layout) tables words others n seat) }
{}

/// With the version that is chosen, an attempt stands for the seat that copies it.
pub fn open_read_is_a_turn()
    ensures { (old new : Attempt) (o : ObjId) → IsFetching o old.stage → OpensRead old o new
        → (t : Try MachineState) → IsTry old t → (p : Place)
        → IsSeat new (with_place p t.interval) (open_copy t t.state o.0 (Some p)).seat }
{}

/// A word that is copied is the turn of each seat that the attempt stands for, where the word stands in the seat's slot.
pub fn copy_word_is_a_turn()
    ensures { (set : TaskSet) (old new : Attempt) (word : ℕ) (last : Bool) → IsFor set old
        → CopiesWord old word new last
        → (o : ObjId) (w : Want) (copied : ℕ) → old.stage ≡ Copying o w copied
        → (t : Try MachineState) (slot : ℕ) → IsCopyingTry old o.0 copied t
        → (layout : Layout) (tables : Tables MachineState) (words : Words)
        (others : List (Seat MachineState)) (n : ℕ)
        → word ≡ words (slot_place layout set o.0 slot + copied)
        → (seat : Seat MachineState) × IsSeat new t.interval seat
        × (seat_turn (setting_of set layout) tables words others n (Copies t slot) ≡ still seat) }
{}

/// What verdicts on other cores, and cores that are vacant, see of the seat that an attempt stands for.
pub fn seat_is_seen()
    ensures view { (a : Attempt) (i : Interval) (seat : Seat MachineState) → IsSeat a i seat
        → view_by seat ≡ view_in i (slot_on seat) a.stage }
    ensures task { (a : Attempt) (i : Interval) (seat : Seat MachineState) → IsSeat a i seat
        → task_on seat ≡ task_in a a.stage }
{}

/// Whether a try has copied something that is written goes by the set of objects that the attempt has read.
pub fn copies_are_the_reads()
    ensures running { (a : Attempt) (t : Try MachineState) (ws : List Write) → IsTry a t
        → list_any (λ c. is_some (written ws c.object)) t.copies ≡ has_read a ws }
    ensures copying { (a : Attempt) (object copied : ℕ) (t : Try MachineState) (ws : List Write)
        → IsCopyingTry a object copied t
        → list_any (λ c. is_some (written ws c.object)) t.copies ≡ has_read a ws }
    ensures ended { (a : Attempt) (outcome : Outcome) (t : Try MachineState) (ws : List Write)
        → IsEndedTry a outcome t
        → list_any (λ c. is_some (written ws c.object)) t.copies ≡ has_read a ws }
{}

/// Behind a finish that joins on another core, an attempt stands for the seat as it is cut: its interval is cut where
/// the finish writes an object that the attempt has read.
pub fn seat_is_cut()
    ensures { (a : Attempt) (i : Interval) (seat : Seat MachineState) (f : FinishRecord)
        → IsSeat a i seat
        → IsSeat a (cut f.point (has_read a f.run.writes) i) (cut_seat f seat) }
{}

/// What an attempt tells the writer of a commit are its writes, each of its object's size.
pub fn words_are_the_writes()
    ensures writes { (set : TaskSet) (a : Attempt) → IsFor set a
        → (let is_written : ℕ → Bool = λ o. is_among o a.written in
        writes_in a.written a.words
        ≡ writes_by is_written (object_words a.words) 0 (length set.objects)) }
    ensures sizes { (set : TaskSet) (a : Attempt) → IsFor set a
        → (o : ℕ) → o < length set.objects
        → length (object_words a.words o) ≡ (object_at set o).size }
{}
