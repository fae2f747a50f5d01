//! What stands in slots, after any events of a run.

ghost use Rattle.std.specs.Prelude.{ℕ, ◌<◌, ◌+◌, length};
ghost use Rattle.kernel_model.specs.Events.{Event, State, Power, opened};
ghost use Rattle.kernel_model.specs.Execution.{Execution, state_at};
ghost use Rattle.kernel_model.specs.Fit.{IsSetUp, HasIds};
ghost use Rattle.kernel_model.specs.Replay.{DeviceState};
ghost use Rattle.kernel_model.specs.Sizes.{Sizes};
ghost use Rattle.kernel_model.specs.Worlds.{World};
ghost use Rattle.kernel_model.specs.Sound.{IsSound};
ghost use Rattle.slot_model.specs.Changes.{Beside, first_kept};
ghost use Rattle.slot_model.specs.Slots.{Image, IsSized, AreSame};
ghost use Rattle.slot_model.specs.Standing.{IsLawful, StandsFor};
ghost use Rattle.slot_model.specs.Moments.{Moment, HoldBase, IsLawfulIn, IsNamedIn, StandsIn, after_event, moment_at, moment_first};

/// At first the base's versions stand, in the slots that the device names.
pub fn first_state_stands<M>()
    ensures { (sizes : Sizes) (base : DeviceState) (cores : ℕ) (power : Power) (boots : ℕ)
        → (named : ℕ → ℕ)
        → (image : Image) → IsSized sizes image → HoldBase sizes base named image
        → StandsFor {M = M} sizes base base.clock (opened cores power boots) (first_kept base named)
        image }
{}

/// What must be true of a state is so in each state of a run.
pub fn run_is_lawful<M>()
    ensures { (x : Execution M) (n : ℕ) → IsLawful x.world (state_at x n) }
{}

/// It is so in each sound state with ids for the children of its finishes.
pub fn sound_state_is_lawful<M>()
    ensures { (world : World M) (s : State M)
        → IsSetUp world → IsSound world s → HasIds world.base (length s.history)
        → IsLawful world s }
{}

/// And after an event, where there are ids for one more.
pub fn event_keeps_lawful<M>()
    ensures { (m : Moment M) (e : Event)
        → IsLawfulIn m → HasIds m.world.base (length m.state.history + 1)
        → IsLawfulIn (after_event m e) }
{}

/// So whatever cores step and wherever power fails, what must stand does.
pub fn run_keeps<M>()
    ensures { (x : Execution M) (n : ℕ) (first : Beside)
        → StandsIn (moment_first x first) → StandsIn (moment_at x first n) }
{}

/// So after any events, and that is after each write, the slots that the durable index names have the durable objects.
pub fn run_names<M>()
    ensures { (x : Execution M) (n : ℕ) (first : Beside) (o : ℕ)
        → StandsIn (moment_first x first) → o < x.world.sizes.objects
        → IsNamedIn (moment_at x first n) o }
{}

/// Where all slots have the same words, the same stands.
pub fn same_words_stand<M>()
    ensures { (m : Moment M) (after : Image)
        → IsLawfulIn m → AreSame m.world.sizes m.image after → StandsIn m
        → StandsIn (record m { image = after }) }
{}
