//! What stands in single slots.

ghost use Rattle.std.specs.List.{AllByRecursion};
ghost use Rattle.std.specs.Prelude.{ℕ, ◌≡◌, ◌<◌, ◌∷◌, List, Some, None, true, false, is_some, slice_get};
ghost use Rattle.kernel_model.specs.Cores.{Attempt, Core};
ghost use Rattle.kernel_model.specs.Effects.{Write};
ghost use Rattle.kernel_model.specs.Events.{Event};
ghost use Rattle.kernel_model.specs.Fit.{IsWrite};
ghost use Rattle.kernel_model.specs.Intervals.{Interval, is_empty};
ghost use Rattle.kernel_model.specs.Items.{FinishRecord};
ghost use Rattle.kernel_model.specs.Replay.{DeviceState};
ghost use Rattle.kernel_model.specs.Room.{is_needed, has_room};
ghost use Rattle.kernel_model.specs.Sizes.{Sizes};
ghost use Rattle.kernel_model.specs.Versions.{Read, Version, chosen, read_words};
ghost use Rattle.slot_model.specs.Kept.{Kept, must_stand};
ghost use Rattle.slot_model.specs.Places.{free_slot, is_taken};
ghost use Rattle.slot_model.specs.Standing.{IsSpare, IsFree, IsChosen, IsTarget};
ghost use Rattle.slot_model.specs.Store.{Target, target, targets};
ghost use Rattle.slot_model.specs.Tabled.{reads_of};
ghost use Rattle.slot_model.specs.Moments.{Moment, IsLawfulIn, IsStanding, after_event, all_versions, core_in, free_in, interval_in, newest_in, others_in};

/// An object has a free slot just where the model says that it has room.
pub fn free_slot_is_room<M>()
    ensures { (m : Moment M) (n o : ℕ) → IsStanding m → o < m.world.sizes.objects
        → is_some (free_in m n o)
        ≡ has_room m.world.sizes m.world.base m.state.history (others_in m n) o }
{}

/// It is the least slot with no version that must stand.
pub fn free_slot_is_least<M>()
    ensures { (sizes : Sizes) (base : DeviceState) (history : List FinishRecord)
        → (others : List (Core M))
        → (kept : Kept) (o k : ℕ) → free_slot sizes base history others kept o ≡ Some k
        → (let needed = is_needed base history o others in
        IsSpare (sizes.slots o) needed (kept.chains o) k
        × ((j : ℕ) → j < k → is_taken (must_stand needed) (kept.chains o) j ≡ true)) }
{}

/// The version that a core copies stands in the slot that it copies from, word for word, until the copy ends.
pub fn copied_version_stands<M>()
    ensures { (m : Moment M) (n copied : ℕ) (a : Attempt M) (r : Read) (reads : List Read)
        → IsStanding m → core_in m n ≡ Core.Copying a copied
        → a.reads ≡ r ∷ reads → r.object < m.world.sizes.objects
        → (m.kept.pins n < m.world.sizes.slots r.object)
        × (m.image r.object (m.kept.pins n) ≡ read_words m.world.base m.state.history r) }
{}

/// What an attempt has read keeps its words at each event.
pub fn copies_stay<M>()
    ensures { (m : Moment M) (e : Event) (k : ℕ) → IsLawfulIn m
        → (let later = (after_event m e).state.history in
        let base = m.world.base in
        AllByRecursion (λ r. read_words base later r ≡ read_words base m.state.history r)
        (reads_of (core_in m k))) }
{}

/// The version that an attempt chooses is held, and stands in its slot.
pub fn chosen_version_stands<M>()
    ensures { (m : Moment M) (n o : ℕ) (i : Interval) (v : Version)
        → IsStanding m → interval_in m n ≡ Some i → is_empty i ≡ false
        → o < m.world.sizes.objects → chosen i.hi (all_versions m o) ≡ Some v
        → IsChosen m.world.sizes m.floor o i.hi (m.kept.chains o) m.image v }
{}

/// The newest version stands in the slot of the newest.
pub fn newest_version_stands<M>()
    ensures { (m : Moment M) (o : ℕ) (v : Version)
        → IsStanding m → o < m.world.sizes.objects → chosen None (all_versions m o) ≡ Some v
        → (newest_in m o < m.world.sizes.slots o) × (m.image o (newest_in m o) ≡ v.words) }
{}

/// A commit under way writes only to slots with no version that must stand, and so never to that of the newest.
pub fn taken_slot_is_spare<M>()
    ensures { (m : Moment M) (n left : ℕ) (i : FinishRecord)
        → IsStanding m → core_in m n ≡ Core.Committing i left
        → (let spare = IsFree m.world.sizes m.world.base m.state.history m.state.cores m.kept in
        AllByRecursion spare i.run.writes) }
{}

/// Its words are written in the order of its list, object by object.
pub fn words_are_listed()
    ensures { (sizes : Sizes) (ws : List Write) (made : ℕ) → AllByRecursion (IsWrite sizes) ws
        → target sizes made ws ≡ slice_get (targets ws) made }
{}

/// Each word of it goes to a place in such a slot.
pub fn word_goes_to_place<M>()
    ensures { (m : Moment M) (n left made : ℕ) (i : FinishRecord) (t : Target)
        → IsStanding m → core_in m n ≡ Core.Committing i left
        → target m.world.sizes made i.run.writes ≡ Some t
        → IsTarget m.world.sizes m.kept i.run.writes t }
{}
