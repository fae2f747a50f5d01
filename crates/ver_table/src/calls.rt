//! The table goes on over the machine of calls, too, where the floor is the base's clock.

ghost use Rattle.std.specs.Prelude.{ℕ, ◌≡◌, ◌≤◌, List, Option, Some, None, get_or};
ghost use Rattle.interval.specs.declared.version.Pin.{Pin};
ghost use Rattle.kernel_model.specs.Sizes.{Sizes};
ghost use Rattle.kernel_model.specs.Effects.{Programs, Run, written};
ghost use Rattle.kernel_model.specs.Items.{FinishRecord};
ghost use Rattle.kernel_model.specs.Replay.{DeviceState};
ghost use Rattle.kernel_model.specs.Intervals.{Interval};
ghost use Rattle.kernel_model.specs.Cores.{all_but};
ghost use Rattle.kernel_model.specs.Room.{has_room, is_needed as is_needed_in};
ghost use Rattle.kernel_model.specs.Fit.{HasOldTasks};
ghost use Rattle.kernel_model.specs.History.{IsAttempt, RestOnReads};
ghost use Rattle.kernel_model.specs.Live.{CallState, Mark, added_by, begin_call, cores_of, fetch_call, finish_call};
ghost use Rattle.kernel_model.specs.LiveSound.{IsLiveState};
ghost use Rattle.ver_table.specs.Chains.{Chain};
ghost use Rattle.ver_table.specs.Places.{has_place, is_needed};
ghost use Rattle.ver_table.specs.StandsFor.{AreOthers, Held, IsPlanned, StandsLive, after_joining, held_joining};

/// A begin leaves the table as it is.
pub fn begin_leaves_table()
    ensures { (whole : Programs) (base : DeviceState) (s : CallState) (n o : ℕ) (c : Chain)
        → (held : List Held)
        → IsLiveState whole base s
        → StandsLive base s o c held → StandsLive base (begin_call base s n s.loss).0 o c held }
{}

/// So does a fetch.
pub fn fetch_leaves_table()
    ensures { (whole : Programs) (base : DeviceState) (s : CallState) (n : ℕ) (m : Mark) (p : ℕ)
        → (device : Option ℕ) (o : ℕ) (c : Chain) (held : List Held) → IsLiveState whole base s
        → get_or s.marks n None ≡ Some m
        → StandsLive base s o c held
        → StandsLive base (fetch_call base s n m p s.loss device).0 o c held }
{}

/// A finish that joins stands at or after the bound of each object that it wrote.
pub fn finish_is_above_bound()
    ensures { (whole : Programs) (sizes : Sizes) (base : DeviceState) (s : CallState) (n : ℕ)
        → (m : Mark)
        → (run : Run) (device : Option ℕ) (o : ℕ) (i : FinishRecord) (words : List ℕ) (c : Chain)
        → (held : List Held)
        → RestOnReads whole → HasOldTasks base → IsLiveState whole base s
        → get_or s.marks n None ≡ Some m
        → IsAttempt whole base s.history m.task m.start m.reads (λ x. run)
        → StandsLive base s o c held
        → added_by (finish_call sizes base s n m run s.loss device).1 ≡ Some i
        → written i.run.writes o ≡ Some words → c.bound ≤ i.point }
{}

/// With a finish the table goes on, where the plan has a free slot for what it writes if it joins.
pub fn table_goes_on()
    ensures { (whole : Programs) (sizes : Sizes) (base : DeviceState) (s : CallState) (n : ℕ)
        → (m : Mark)
        → (run : Run) (device : Option ℕ) (o : ℕ) (plan : ℕ → ℕ) (c : Chain) (held : List Held)
        → RestOnReads whole → HasOldTasks base → IsLiveState whole base s
        → get_or s.marks n None ≡ Some m
        → IsAttempt whole base s.history m.task m.start m.reads (λ x. run)
        → (let a = finish_call sizes base s n m run s.loss device in
        StandsLive base s o c held
        → IsPlanned (is_needed_in base s.history o (cores_of s.marks)) plan (added_by a.1) o c held
        → StandsLive base a.0 o (after_joining plan (added_by a.1) o c)
        (held_joining plan (added_by a.1) o held)) }
{}

/// An object has a place in the table exactly where it has room.
pub fn place_is_room()
    ensures { (whole : Programs) (sizes : Sizes) (base : DeviceState) (s : CallState) (o n : ℕ)
        → (c : Chain)
        → (held : List Held) (others : List Interval) (pins : List Pin) → IsLiveState whole base s
        → StandsLive base s o c held
        → AreOthers base s.history o held (cores_of (all_but n s.marks)) others pins
        → c.slots ≡ sizes.slots o
        → has_place (is_needed o others pins) c
        ≡ has_room sizes base s.history (cores_of (all_but n s.marks)) o }
{}
