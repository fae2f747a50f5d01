//! In a report each trap has a word, and each object its line.

ghost use Rattle.std.specs.Prelude.{ℕ, ◌≡◌, ◌<◌, ◌+◌, ◌++◌, [], length, take, drop};
ghost use Rattle.nv_base.specs.Causes.{cause_number, cause_word};
ghost use Rattle.kernel_model.specs.Effects.{Trap, object_words};
ghost use Rattle.kernel_model.specs.Replay.{DeviceState};
ghost use Rattle.kernel_model.specs.Fit.{IsBase, IsOutcome};
ghost use Rattle.set_model.specs.Sets.{TaskSet, object_at};
ghost use Rattle.set_model.specs.Numbers.{sizes_of};
ghost use Rattle.report_text.specs.Causes.{numbered_cause_word};
ghost use Rattle.report_text.specs.Lines.{object_text};
ghost use Rattle.report_text.specs.Report.{objects_text};

use nv_base::TrapCause;

/// The trap of a run has a word, that of the cause with its number; 0, which is no cause's number, has none.
pub fn trap_has_word()
    ensures own { (cause : TrapCause)
        → numbered_cause_word (cause_number cause) ≡ cause_word cause }
    ensures each { (n : ℕ) → IsOutcome (Trap n)
        → (cause : TrapCause) × (cause_number cause ≡ n)
        × (numbered_cause_word n ≡ cause_word cause) }
    ensures zero { numbered_cause_word 0 ≡ [] }
{}

/// In the report of a state that a device may hold each object of the set has its line, with its words, at its place.
pub fn object_has_line()
    ensures { (set : TaskSet) (state : DeviceState) (o : ℕ) → IsBase (sizes_of set) state
        → o < length set.objects
        → objects_text set.objects state.objects
        ≡ objects_text (take o set.objects) (take o state.objects)
        ++ object_text (object_at set o).name (object_words state.objects o)
        ++ objects_text (drop (o + 1) set.objects) (drop (o + 1) state.objects) }
{}
