//! Finishes run whole one after another, each from the state that the last one left.

ghost use Rattle.std.specs.Prelude.{ℕ, ◌≡◌, ◌≤◌, ◌+◌, ◌∷◌, ◌++◌, [], List, length};
ghost use Rattle.kernel_model.specs.Effects.{Programs};
ghost use Rattle.kernel_model.specs.Items.{Entry, FinishRecord, entry_of};
ghost use Rattle.kernel_model.specs.Replay.{DeviceState, IsRunOn, max_id, tables_of};
ghost use Rattle.kernel_model.specs.Serial.{InIdOrder, Serial};
ghost use Rattle.kernel_model.specs.Durable.{state_left};
ghost use Rattle.kernel_model.specs.Fit.{HasOldTasks};

/// No finish leaves the base as it is.
pub fn no_finish_is_serial()
    ensures { (whole : Programs) (base : DeviceState) → InIdOrder base.tasks
        → Serial whole base [] base }
{}

/// A serial listing goes on with the whole run of an open task on the state that it left, at that state's clock or later.
pub fn next_finish_is_serial()
    ensures { (whole : Programs) (base f : DeviceState) (entries : List Entry) (i : FinishRecord)
        → HasOldTasks base → Serial whole base entries f
        → IsRunOn whole i (tables_of f) → i.number ≡ f.number + 1 → i.first ≡ f.next
        → f.clock ≤ i.point → f.next + length i.run.spawns ≤ max_id
        → Serial whole base (entries ++ entry_of i ∷ []) (state_left f (i ∷ [])) }
{}

/// The open tasks that a serial listing leaves have ids below the next one.
pub fn serial_tasks_are_old()
    ensures { (whole : Programs) (base f : DeviceState) (entries : List Entry) → HasOldTasks base
        → Serial whole base entries f → HasOldTasks f }
{}
