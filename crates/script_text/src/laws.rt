//! That a task set which is written is read back.

ghost use Rattle.std.specs.Prelude.{◌≡◌, Ok};
ghost use Rattle.set_model.specs.Limits.{IsTaskSet};
ghost use Rattle.set_model.specs.Names.{IsNamed};
ghost use Rattle.set_model.specs.Sets.{TaskSet};
ghost use Rattle.script.specs.Reading.{read};
ghost use Rattle.script_text.specs.ScriptText.{script_text, unscheduled};

/// The text of a set within all limits, whose names are names, is read as this set with an empty schedule: no such
/// set has a text that is too long.
pub fn script_text_is_read_back()
    ensures { (set : TaskSet) → IsTaskSet set → IsNamed set
        → read (script_text set) ≡ Ok (unscheduled set) }
{
    rv_isa::laws::reading_is_written_back();
    rv_asm::disassembled_is_assembled_back();
}
