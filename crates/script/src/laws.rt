//! What holds of each script that is read, and of each that is refused.

ghost use Rattle.std.specs.Prelude.{◌≡◌, ℕ, List, Ok, Err};
ghost use Rattle.std.specs.Str.Lines.{lines};
ghost use Rattle.script.specs.Causes.{ScriptError};
ghost use Rattle.script.specs.Laws.{IsFirstRefused, IsLaidOut, IsWithinLimits, stages_of};
ghost use Rattle.script.specs.Parts.{Script, nothing};
ghost use Rattle.script.specs.Reading.{read, sections_after};
ghost use Rattle.script.specs.Sections.{Section, sections};

use rv_asm::words_are_few;

/// All sections before the refused one are taken, and this one is not, for the cause that is given and at a line
/// inside it.
pub fn refusal_is_first()
    ensures { (all : List Section) (e : ScriptError) → sections_after 1 nothing all ≡ Err e
        → IsFirstRefused all 1 nothing e }
{}

/// The lines of a script that is read come in the order of the table, each as often as it may.
pub fn lines_are_laid_out()
    ensures { (bytes : List ℕ) (script : Script) → read bytes ≡ Ok script
        → IsLaidOut (stages_of (sections (lines bytes))) }
{}

/// A script that is read breaks no limit of its set, has names that are names, each once, and a schedule within the
/// limits.
pub fn script_is_within_limits()
    ensures { (bytes : List ℕ) (script : Script) → read bytes ≡ Ok script → IsWithinLimits script }
{
    words_are_few();
}
