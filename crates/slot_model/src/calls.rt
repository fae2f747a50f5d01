//! What stands in slots through the calls of threads.

ghost use Rattle.std.specs.List.{AllByRecursion};
ghost use Rattle.std.specs.Prelude.{ℕ, ◌≡◌, ◌<◌, ◌≤◌, ◌-◌, ◌∷◌, [], List, Option, Some, None, get_or, set, length, false, suc, replicate, is_some};
ghost use Rattle.kernel_model.specs.Chain.{cut};
ghost use Rattle.kernel_model.specs.Cores.{all_but};
ghost use Rattle.kernel_model.specs.Effects.{Run, Programs, Objects};
ghost use Rattle.kernel_model.specs.Events.{with_finish};
ghost use Rattle.kernel_model.specs.Fit.{AreSized, IsRun, IsBase, HasIds};
ghost use Rattle.kernel_model.specs.History.{IsAttempt, RestOnReads};
ghost use Rattle.kernel_model.specs.Intervals.{is_empty, read_interval};
ghost use Rattle.kernel_model.specs.Items.{FinishRecord};
ghost use Rattle.kernel_model.specs.Live.{CallState, Mark, Answer, begin_call, fetch_call, added_by, attempt_of, cores_of, lost};
ghost use Rattle.kernel_model.specs.LiveSound.{IsLiveState};
ghost use Rattle.kernel_model.specs.Replay.{DeviceState};
ghost use Rattle.kernel_model.specs.Sizes.{Sizes};
ghost use Rattle.kernel_model.specs.Verdicts.{verdict, Verdict};
ghost use Rattle.kernel_model.specs.Versions.{Version, chosen, read_words};
ghost use Rattle.slot_model.specs.Changes.{first_kept, with_finished};
ghost use Rattle.slot_model.specs.Kept.{newest_slot};
ghost use Rattle.slot_model.specs.LiveStanding.{LiveStands, IsLiveLawful};
ghost use Rattle.slot_model.specs.Marks.{committing, mark_view};
ghost use Rattle.slot_model.specs.Places.{planned};
ghost use Rattle.slot_model.specs.Slots.{Image, IsSized};
ghost use Rattle.slot_model.specs.Standing.{IsFree, IsTarget};
ghost use Rattle.slot_model.specs.Store.{Target, after_write, target};
ghost use Rattle.slot_model.specs.Tabled.{AreTables, Tables, View, free_place, is_written_read, table_verdict, tables_with, views_of, IsRead, others_views};
ghost use Rattle.slot_model.specs.LiveMoments.{LiveMoment, AreLiveTables, CommitsLive, HoldsLeft, IsLiveCommitting, IsLiveStanding, StandsLive, caller_views, finished, live_free, live_late, live_newest, live_versions, live_writes, mark_in, mark_interval, other_callers};
ghost use Rattle.slot_model.specs.Moments.{HoldBase};
ghost use Rattle.kernel_model.specs.Room.{has_room};

/// Before the first call the base's versions stand, in the slots that the device names.
pub fn first_slots_stand()
    ensures { (sizes : Sizes) (base : DeviceState) (callers limit : ℕ) (named : ℕ → ℕ)
        → (image : Image)
        → IsSized sizes image → HoldBase sizes base named image
        → (let s : CallState = record {
          history = [];
          marks = replicate callers None;
          loss = None;
          limit = limit;
        } in LiveStands sizes base s (first_kept base named) image) }
{}

/// What must be true of a state is so in each state that the calls keep, with ids for the children of its finishes.
pub fn live_state_is_lawful()
    ensures { (whole : Programs) (sizes : Sizes) (base : DeviceState) (s : CallState)
        → RestOnReads whole
        → ((program arg : ℕ) (objects : Objects) → AreSized sizes objects
        → IsRun sizes (whole program arg objects))
        → IsBase sizes base → IsLiveState whole base s → HasIds base (length s.history)
        → IsLiveLawful whole sizes base s }
{}

/// A begin changes nothing.
pub fn begin_keeps_slots()
    ensures { (m : LiveMoment) (n : ℕ) → IsLiveStanding m
        → StandsLive (record m { state = (begin_call m.base m.state n m.state.loss).0 }) }
{}

/// Nor does a fetch.
pub fn fetch_keeps_slots()
    ensures { (m : LiveMoment) (n o : ℕ) (k : Mark) (device : Option ℕ)
        → IsLiveStanding m → mark_in m n ≡ Some k
        → (let after = (fetch_call m.base m.state n k o m.state.loss device).0 in
        StandsLive (record m { state = after })) }
{}

/// It chooses by the table the slot where the version that the model chooses stands, and its interval changes by that place alone.
pub fn fetch_by_tables()
    ensures { (m : LiveMoment) (t : Tables) (n o : ℕ) (k : Mark) (v : Version)
        → IsLiveStanding m → AreLiveTables m t → mark_in m n ≡ Some k
        → is_empty (mark_interval m k) ≡ false → o < m.sizes.objects
        → chosen (mark_interval m k).hi (live_versions m o) ≡ Some v
        → IsRead m.sizes m.base m.state.history k.start k.reads o (t.places o) m.image v }
{}

/// Where its interval is not empty it finds one.
pub fn fetch_finds_place()
    ensures { (m : LiveMoment) (t : Tables) (n o : ℕ) (k : Mark)
        → IsLiveStanding m → AreLiveTables m t → mark_in m n ≡ Some k
        → is_empty (mark_interval m k) ≡ false → o < m.sizes.objects
        → (v : Version) × (chosen (mark_interval m k).hi (live_versions m o) ≡ Some v)
        × IsRead m.sizes m.base m.state.history k.start k.reads o (t.places o) m.image v }
{}

/// The tables give the verdict on a finish.
pub fn finish_by_tables()
    ensures { (m : LiveMoment) (t : Tables) (n : ℕ) (k : Mark) (run : Run)
        → IsLiveStanding m → AreLiveTables m t → mark_in m n ≡ Some k
        → AllByRecursion (λ w. w.object < m.sizes.objects) run.writes
        → (let others = cores_of (all_but n m.state.marks) in
        table_verdict m.sizes t (caller_views m n) k.task (mark_interval m k) run
        ≡ verdict m.sizes m.base m.state.history others (attempt_of k) run) }
{}

/// An object has a free slot for a caller just where the model says that it has room.
pub fn caller_free_slot_is_room()
    ensures { (m : LiveMoment) (n o : ℕ) → IsLiveStanding m → o < m.sizes.objects
        → is_some (live_free m n o)
        ≡ has_room m.sizes m.base m.state.history (other_callers m n) o }
{}

/// The tables give this slot.
pub fn caller_free_slot_by_tables()
    ensures { (m : LiveMoment) (t : Tables) (n o : ℕ)
        → IsLiveStanding m → AreLiveTables m t → o < m.sizes.objects
        → free_place (m.sizes.slots o) o (caller_views m n) (t.places o) ≡ live_free m n o }
{}

/// What is kept of each caller's attempt gives what is kept of the others of a caller.
pub fn views_of_other_callers()
    ensures { (base : DeviceState) (history : List FinishRecord) (pins : ℕ → ℕ)
        → (views : ℕ → Option View)
        → (marks : List (Option Mark)) (n : ℕ)
        → ((k : ℕ) → views k ≡ mark_view base history (get_or marks k None))
        → others_views views n 0 (length marks)
        ≡ views_of base history pins 0 (cores_of (set marks n None)) }
{}

/// A finish that adds nothing changes nothing.
pub fn refused_finish_keeps_slots()
    ensures { (m : LiveMoment) (n : ℕ) (k : Mark) (run : Run) (device : Option ℕ)
        → IsLiveStanding m → added_by (finished m n k run device).1 ≡ None
        → StandsLive (record m { state = (finished m n k run device).0 }) }
{}

/// A finish gives the task back, and adds to the history what its answer adds.
pub fn finish_leaves()
    ensures { (m : LiveMoment) (n : ℕ) (k : Mark) (run : Run) (device : Option ℕ)
        → (let a = finished m n k run device in
        (a.0.history ≡ with_finish (added_by a.1) m.state.history)
        × (a.0.marks ≡ set m.state.marks n None)) }
{}

/// A grant begins a commit within the call, with the least free slots as its plan.
pub fn grant_begins_commit()
    ensures { (m : LiveMoment) (n : ℕ) (k : Mark) (run : Run) (i : FinishRecord)
        → IsLiveStanding m → mark_in m n ≡ Some k
        → IsAttempt m.whole m.base m.state.history k.task k.start k.reads (λ x. run)
        → (let others = cores_of (all_but n m.state.marks) in
        let kept = planned m.sizes m.base m.state.history (other_callers m n) m.kept in
        verdict m.sizes m.base m.state.history others (attempt_of k) run ≡ Verdict.Granted i
        → CommitsLive (record m { kept = kept }) n i (live_writes m i)) }
{}

/// Each of its writes puts its word into its slot, if it is an object's.
pub fn commit_writes_word()
    ensures { (m : LiveMoment) (n left : ℕ) (i : FinishRecord) → IsLiveCommitting m n i (suc left)
        → (let word = target m.sizes (live_writes m i - suc left) i.run.writes in
        CommitsLive (record m { image = after_write m.kept.plan word m.image }) n i left) }
{}

/// The writes of the index, and the last one, put no word into a slot.
pub fn commit_writes_index()
    ensures { (m : LiveMoment) (n left : ℕ) (i : FinishRecord) → IsLiveCommitting m n i (suc left)
        → suc left ≤ live_late m i → CommitsLive m n i left }
{}

/// It writes only to slots with no version that must stand, and each word to a place there.
pub fn commit_takes_spare_slots()
    ensures { (m : LiveMoment) (n left : ℕ) (i : FinishRecord) → IsLiveCommitting m n i left
        → (let cores = committing m.state n i left in
        AllByRecursion (IsFree m.sizes m.base m.state.history cores m.kept) i.run.writes
        × ((made : ℕ) (t : Target) → target m.sizes made i.run.writes ≡ Some t
        → IsTarget m.sizes m.kept i.run.writes t)) }
{}

/// At its end the finish has its versions in the slots of its plan.
pub fn receipt_keeps_slots()
    ensures { (m : LiveMoment) (n : ℕ) (k : Mark) (run : Run) (i : FinishRecord) (device : Option ℕ)
        → IsLiveCommitting m n i 0 → (finished m n k run device).1 ≡ Answer.Receipt i
        → (let after = (finished m n k run device).0 in
        StandsLive (record m { state = after; kept = with_finished (Some i) m.kept })) }
{}

/// It changes the tables by its point, its writes, its reads and its spawns, and cuts the intervals of those that read what it writes.
pub fn receipt_changes_tables()
    ensures { (m : LiveMoment) (t : Tables) (n left : ℕ) (i : FinishRecord)
        → IsLiveCommitting m n i left → AreLiveTables m t
        → (let later = i ∷ m.state.history in
        AreTables m.sizes m.base m.base.clock later (with_finished (Some i) m.kept)
        (tables_with i m.kept.plan t)
        × ((c : ℕ) (k : Mark) → mark_in m c ≡ Some k → read_interval m.base later k.start k.reads
        ≡ cut i.point (is_written_read i k.reads) (mark_interval m k))) }
{}

/// What the others have read keeps its words.
pub fn callers_copies_stay()
    ensures { (m : LiveMoment) (n c left : ℕ) (i : FinishRecord) (k : Mark)
        → IsLiveCommitting m n i left → mark_in m c ≡ Some k
        → (let before = m.state.history in
        AllByRecursion (λ r. read_words m.base (i ∷ before) r ≡ read_words m.base before r)
        k.reads) }
{}

/// A loss within it leaves what stood before.
pub fn lost_commit_keeps_slots()
    ensures { (m : LiveMoment) (n left losses : ℕ) (i : FinishRecord) → IsLiveCommitting m n i left
        → StandsLive (record m { state = (lost m.state n losses).0 }) }
{}

/// Between calls the newest slots have what the listing leaves.
pub fn newest_slots_hold()
    ensures { (m : LiveMoment) (o : ℕ) → IsLiveStanding m → o < m.sizes.objects
        → HoldsLeft m m.state.history o (live_newest m o) }
{}

/// So they do at each write of a commit, and the slots of its plan have what it leaves once its objects' words are written.
pub fn commit_slots_hold()
    ensures { (m : LiveMoment) (n left o : ℕ) (i : FinishRecord)
        → IsLiveCommitting m n i left → o < m.sizes.objects
        → HoldsLeft m m.state.history o (live_newest m o) × (left ≤ live_late m i
        → HoldsLeft m (i ∷ m.state.history) o
        (newest_slot ((with_finished (Some i) m.kept).chains o))) }
{}
