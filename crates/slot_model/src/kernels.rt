//! All that a kernel keeps, through steps, failures and boots.

ghost use Rattle.std.specs.Prelude.{ℕ, ◌≡◌, Option, None};
ghost use Rattle.kernel_model.specs.Chain.{joining};
ghost use Rattle.kernel_model.specs.Events.{Event, Power, opened};
ghost use Rattle.kernel_model.specs.Replay.{DeviceState};
ghost use Rattle.kernel_model.specs.Sizes.{Sizes};
ghost use Rattle.slot_model.specs.Changes.{first_kept, put_at};
ghost use Rattle.slot_model.specs.Slots.{Image, IsSized};
ghost use Rattle.slot_model.specs.Standing.{IsTabled};
ghost use Rattle.slot_model.specs.Tabled.{Tables, View, fresh_tables, tables_joined, cut_view, reads_of};
ghost use Rattle.slot_model.specs.Moments.{Moment, HoldBase, IsLawfulIn, IsStanding, IsTabledIn, after_event, begun_afresh, core_in, durable_tables, view_in};

/// At first the tables that begin with the base, with no view, are those of the state.
pub fn first_tables_stand<M>()
    ensures { (sizes : Sizes) (base : DeviceState) (cores : ℕ) (power : Power) (boots : ℕ)
        → (named : ℕ → ℕ)
        → (image : Image) (views : ℕ → Option View)
        → IsSized sizes image → HoldBase sizes base named image → ((k : ℕ) → views k ≡ None)
        → IsTabled {M = M} sizes base base.clock (opened cores power boots) (first_kept base named)
        image (fresh_tables named base) views }
{}

/// A step of a core: what is kept changes as the event says, the tables by the finish that joins, the views of the others by it, and the core's own is that of what it does then.
pub fn step_keeps_tables<M>()
    ensures { (m : Moment M) (t : Tables) (before after : ℕ → Option View) (n : ℕ)
        → IsLawfulIn m → IsTabledIn m t before
        → (let next = after_event m (Event.CoreStep n) in
        let finish = joining m.state (Event.CoreStep n) in
        after n ≡ view_in next n
        → ((k : ℕ) → (k ≡ n → ⊥) → after k ≡ cut_view finish (reads_of (core_in m k)) (before k))
        → IsTabledIn next (tables_joined finish m.kept.plan t) after) }
{}

/// A failure leaves what stands. While the boot lasts, the tables that begin with what the durable index says, with no view, are those of the state.
pub fn boot_begins_tables<M>()
    ensures { (m : Moment M) (left : ℕ) (views : ℕ → Option View)
        → IsStanding m → m.state.power ≡ Power.Boot left → ((k : ℕ) → views k ≡ None)
        → IsTabledIn (begun_afresh m) (durable_tables m) views }
{}

/// A pin is put for its core, and the others stay.
pub fn pin_is_put()
    ensures { (n x : ℕ) (pins : ℕ → ℕ) → (put_at n x pins n ≡ x)
        × ((k : ℕ) → (k ≡ n → ⊥) → put_at n x pins k ≡ pins k) }
{}
