//! What a kernel at a state of a run, and the words of its device, tell of that state.

ghost use Rattle.std.specs.Prelude.{ℕ, ◌≡◌, ◌<◌, length};
ghost use Rattle.rv_core.specs.State.{MachineState};
ghost use Rattle.kernel_model.specs.Turns.{Line};
ghost use Rattle.kernel_model.specs.Events.{Event, State, event_step};
ghost use Rattle.kernel_model.specs.Fit.{IsSetUp};
ghost use Rattle.device_model.specs.Words.{Words};
ghost use Rattle.recovery.specs.Images.{IsOwn};
ghost use Rattle.headline.specs.Runs.{Origin, world_from};
ghost use Rattle.headline.specs.Images.{Decodes};
ghost use Rattle.kernel_core.specs.Events.{IsAt};
ghost use Rattle.kernel_core.specs.declared.kernel.Kernel.{Kernel};

/// The words hold what is durable in the state, with its boots as word 2, and are of a kind that the set goes on with. All premises of
/// the laws on runs are met. An object for which a finish is refused is of the set.
pub fn kernel_is_at_state()
    ensures durable { (o : Origin) (k : Kernel) (words : Words) (s : State MachineState)
        → IsAt o k words s → Decodes o words s }
    ensures boots { (o : Origin) (k : Kernel) (words : Words) (s : State MachineState)
        → IsAt o k words s → words 2 ≡ s.boots }
    ensures set_up { (o : Origin) (k : Kernel) (words : Words) (s : State MachineState)
        → IsAt o k words s → IsSetUp (world_from o) }
    ensures own { (o : Origin) (k : Kernel) (words : Words) (s : State MachineState)
        → IsAt o k words s → IsOwn k.set words }
    ensures refused { (o : Origin) (k : Kernel) (words : Words) (s : State MachineState)
        → IsAt o k words s → (e : Event) (core task object : ℕ)
        → (event_step (world_from o) s e).1 ≡ Line.RefuseSlots core task object
        → object < length o.device.set.objects }
{}
