//! Listings known by their entries alone.

ghost use Rattle.std.specs.Prelude.{ℕ, ◌≡◌, ◌∷◌, ◌++◌, [], List, Option, length, slice_get, ◌==◌, if◌then◌else◌};
ghost use Rattle.std.specs.Ordering.{is_lt, nat_cmp, ordering_then};
ghost use Rattle.std.specs.List.Sorted.{IsPermutation, IsSortedBy};
ghost use Rattle.kernel_model.specs.Effects.{Programs};
ghost use Rattle.kernel_model.specs.Items.{Entry, FinishRecord, entry_of};
ghost use Rattle.kernel_model.specs.Replay.{DeviceState, IsRunOn, Tables, TaskRec, after, tables_of, task_under};
ghost use Rattle.kernel_model.specs.Serial.{InIdOrder, Serial};
ghost use Rattle.kernel_model.specs.EntryReplay.{AreSerial, Leaves, Place, Replayed, Rerun, after_reruns, comes_before, entry_order, item_on, places_from, replay, replayed_on, spawns_at};
ghost use Rattle.kernel_model.specs.WorkedReplays.{CopyFirst, FinishedTwice, OtherOutcome, PointsExchanged};

/// The serial order of a listing has each of its entries once, in ascending order.
pub fn entry_order_sorts()
    ensures { (entries : List Entry)
        → IsPermutation (places_from 0 entries) (entry_order entries)
        × IsSortedBy comes_before (entry_order entries) }
{}

/// One entry comes before another where point, number and place compare so, one after another.
pub fn entries_compare_by_keys()
    ensures { (a b : Place)
        → (let ties = ordering_then (nat_cmp a.entry.number b.entry.number)
        (nat_cmp a.place b.place) in
        is_lt (ordering_then (nat_cmp a.entry.point b.entry.point) ties) ≡ comes_before a b) }
{}

/// Whatever sorts the entries of a listing gives its serial order.
pub fn sorted_entries_are_in_order()
    ensures { (entries : List Entry) (sorted : List Place)
        → IsPermutation (places_from 0 entries) sorted → IsSortedBy comes_before sorted
        → sorted ≡ entry_order entries }
{}

/// The finish of an entry is the whole run of its task on these tables that has this entry, and there is none where no run has.
pub fn item_has_entry()
    ensures { (whole : Programs) (t : Tables) (e : Entry)
        → ((i : FinishRecord) → item_on whole t e ≡ Option.Some i
        → IsRunOn whole i t × (entry_of i ≡ e))
        × (item_on whole t e ≡ Option.None → (i : FinishRecord) → IsRunOn whole i t
        → entry_of i ≡ e → ⊥) }
{}

/// The next entry in serial order stands at its place in the listing, and only its own finish has this place.
pub fn next_place_is_new()
    ensures { (whole : Programs) (t : Tables) (entries : List Entry) (done rest : List Place)
        → (p : Place) (reruns : List Rerun) → entry_order entries ≡ done ++ p ∷ rest
        → replayed_on whole t done ≡ Replayed.Good reruns
        → (slice_get entries p.place ≡ Option.Some p.entry) × (spawns_at p.place reruns ≡ 0)
        × ((i : FinishRecord) (k : ℕ)
        → spawns_at k (reruns ++ record { place = p.place; item = i } ∷ [])
        ≡ (if p.place == k then length i.run.spawns else spawns_at k reruns)) }
{}

/// A good replay goes on with the next entry in serial order, where this has a finish on the tables so far, and else ends there.
pub fn replay_goes_on()
    ensures { (whole : Programs) (t : Tables) (done rest : List Place) (p : Place)
        → (reruns : List Rerun) → replayed_on whole t done ≡ Replayed.Good reruns
        → ((i : FinishRecord) → item_on whole (after_reruns reruns t) p.entry ≡ Option.Some i
        → (replayed_on whole t (done ++ p ∷ [])
        ≡ Replayed.Good (reruns ++ record { place = p.place; item = i } ∷ []))
        × (after_reruns (reruns ++ record { place = p.place; item = i } ∷ []) t
        ≡ after i (after_reruns reruns t)))
        × (item_on whole (after_reruns reruns t) p.entry ≡ Option.None
        → replayed_on whole t (done ++ p ∷ rest) ≡ Replayed.Wrong p.place) }
{}

/// A wrong place is that of the first entry in serial order that has no finish on what the entries before it leave.
pub fn wrong_entry_has_no_finish()
    ensures { (whole : Programs) (base : DeviceState) (entries : List Entry) (place : ℕ)
        → replay whole base entries ≡ Replayed.Wrong place
        → (done : List Place) × (rest : List Place) × (p : Place) × (reruns : List Rerun)
        × (entry_order entries ≡ done ++ p ∷ rest) × (p.place ≡ place)
        × (replayed_on whole (tables_of base) done ≡ Replayed.Good reruns)
        × (item_on whole (after_reruns reruns (tables_of base)) p.entry ≡ Option.None) }
{}

/// A replay leaves one state.
pub fn replay_leaves_one_state()
    ensures { (base : DeviceState) (entries : List Entry) (reruns : List Rerun) (f g : DeviceState)
        → Leaves base entries reruns f → Leaves base entries reruns g → f ≡ g }
{}

/// Open tasks in the order of their ids are one list, where they have the same task under each id.
pub fn ids_tell_tasks()
    ensures { (tasks others : List TaskRec) → InIdOrder tasks → InIdOrder others
        → ((id : ℕ) → task_under tasks id ≡ task_under others id) → tasks ≡ others }
{}

/// Entries whose replay is good, with the numbers and ids that they name, are serial.
pub fn replayed_entries_are_serial()
    ensures { (whole : Programs) (base : DeviceState) (entries : List Entry) (f : DeviceState)
        → AreSerial whole base entries f → Serial whole base entries f }
{}

/// The replay of serial entries is good, leaves the same state, and gives the numbers and ids that they name.
pub fn serial_entries_are_replayed()
    ensures { (whole : Programs) (base : DeviceState) (entries : List Entry) (f : DeviceState)
        → Serial whole base entries f → AreSerial whole base entries f }
{}

/// A listing with a wrong place is serial with no state.
pub fn wrong_entries_are_not_serial()
    ensures { (whole : Programs) (base : DeviceState) (entries : List Entry) (place : ℕ)
        → (f : DeviceState)
        → replay whole base entries ≡ Replayed.Wrong place → Serial whole base entries f → ⊥ }
{}

/// Serial entries have one history.
pub fn entries_have_one_history()
    ensures { (whole : Programs) (base : DeviceState) (entries : List Entry) (f g : DeviceState)
        → (s : Serial whole base entries f) (t : Serial whole base entries g)
        → s.history ≡ t.history }
{}

/// Replays of two worked finishes: in serial order, with their points exchanged, with another outcome, and with one finish twice.
pub fn worked_replays()
    ensures { CopyFirst × PointsExchanged × OtherOutcome × FinishedTwice }
{}
