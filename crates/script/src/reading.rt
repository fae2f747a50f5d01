//! A script, from its first line to its last.

ghost use Rattle.std.specs.Prelude.{◌≡◌, ◌≤◌, ◌<◌, ◌+◌, ◌^◌, ◌⊎◌, length, Err, Some, Ok};
ghost use Rattle.std.specs.Str.Lines.{lines};
ghost use Rattle.nv_base.specs.Refusals.{Gives, Leaves};
ghost use Rattle.script.specs.declared.keyword.Stage.TheVariants.{Run};
ghost use Rattle.nv_base.specs.declared.refusals.Refusal.TheVariants.{At};
ghost use Rattle.script.specs.Laws.{IsWithinLimits};
ghost use Rattle.script.specs.Parts.{nothing, script_of};
ghost use Rattle.script.specs.Reading.{ended, read, section_after, sections_after};
ghost use Rattle.script.specs.Sections.{line_count, sections};
ghost use Rattle.script.specs.Views.{script_of as script, section_of};

use crate::draft::Draft;
use crate::keyword::Stage;
use crate::refusals::{ScriptCause, ScriptError, ScriptRefusal};
use crate::section::{Section, next_section};
use nv_base::limits::MAX_INPUT;
use plain_text::Lines;
use power_trace::Schedule;
use rv_asm::words_are_few;
use std::alloc::Global;
use task_set::TaskSet;

/// The most bytes that a script may have.
const LONGEST: usize = MAX_INPUT as usize;

/// What a script says.
#[derive(Debug, Drop)]
pub struct Script {
    /// The objects, the programs and the tasks.
    pub set: TaskSet,
    /// Which core takes each step, and where power fails.
    pub schedule: Schedule,
    /// The number of the `cores` line, from 1.
    pub cores_line: u32,
}

/// How many lines a section has, with an `end` line that the input lacks.
fn count_lines(section: &Section<'_>) -> u32
    requires { line_count (section_of section.now) < 2 ^ 32 }
    ensures { result ≡ line_count (section_of section.now) }
{
    match section {
        Section::Line(_) => 1,
        Section::Block(block) => block.body.len() as u32 + 2,
    }
}

impl Draft {
    /// Takes a section whose first line is `n`.
    fn take_section(
        &mut self,
        alloc: Global,
        n: u32,
        section: Section<'_>,
    ) -> Result<(), ScriptRefusal>
        requires few { line_count (section_of section) ≤ MAX_INPUT + 2 }
        requires numbers { n + line_count (section_of section) < 2 ^ 32 }
        ensures { Leaves self.new result (section_after n self.old (section_of section.entry)) }
    {
        match section {
            Section::Line(line) => match self.take_line(alloc, n, line) {
                Ok(()) => Ok(()),
                Err(refusal) => Err(refusal.at(n)),
            },
            Section::Block(block) => self.take_block(alloc, n, block),
        }
    }
}

/// What all lines give, and the number of the line behind the last one.
#[tactic(auto, unfolding(crate::specs::Reading::sections_after))]
fn read_sections(alloc: Global, bytes: &[u8]) -> Result<(Draft, u32), ScriptRefusal>
    requires { length bytes.now ≤ MAX_INPUT }
    ensures { Gives (λ r. (r.1, r.0)) result
        (sections_after 1 nothing (sections (lines bytes.now))) }
{
    let mut draft = Draft::new(alloc);
    let mut lines = Lines::new(bytes);
    let mut number = 1;
    'sections: loop {
        let Some(section) = next_section(alloc, &mut lines)? else {
            return Ok((draft, number));
        };
        let count = count_lines(&section);
        draft.take_section(alloc, number, section)?;
        number += count;
    }
}

/// The script that whole lines give.
fn whole(alloc: Global, draft: Draft) -> Result<Script, ScriptRefusal>
    requires { IsWithinLimits (script_of draft) }
    ensures { Gives script result (Ok (script_of draft)) }
{
    let Draft {
        cores_line,
        set,
        timeline,
        ..
    } = draft;
    let schedule = timeline.schedule(alloc, set.cores)?;
    Ok(Script {
        set: TaskSet::of(set),
        schedule,
        cores_line,
    })
}

fn refused(line: u32, cause: ScriptCause) -> ScriptRefusal
    ensures { result ≡ At (record { line = line; cause = cause }) }
{
    ScriptRefusal::At(ScriptError { line, cause })
}

/// The script, where its last line is `run`. Line `n` is behind the last one.
fn finish(alloc: Global, draft: Draft, n: u32) -> Result<Script, ScriptRefusal>
    requires { draft.last ≡ Some Run → IsWithinLimits (script_of draft) }
    ensures reads { Gives script result (ended (n, draft)) }
    ensures no_run { (draft.last ≡ Some Run)
        ⊎ (result ≡ Err (At (record { line = n; cause = ScriptCause.End }))) }
{
    match draft.last {
        Some(Stage::Run) => whole(alloc, draft),
        _ => Err(refused(n, ScriptCause::End)),
    }
}

/// Reads a script, the whole bytes: its task set, its schedule and the number of its `cores` line. `At` with the
/// first line that is refused and its first cause, `NoMemory` where there was not memory enough.
#[tactic(auto, unfolding(crate::specs::Reading::read))]
pub fn read_script(alloc: Global, bytes: &[u8]) -> Result<Script, ScriptRefusal>
    ensures reads { Gives script result (read bytes.now) }
    ensures long { MAX_INPUT < length bytes.now
        → result ≡ Err (At (record { line = 0; cause = ScriptCause.Long })) }
{
    if LONGEST < bytes.len() {
        return Err(refused(0, ScriptCause::Long));
    }
    let (draft, number) = read_sections(alloc, bytes)?;
    words_are_few();
    finish(alloc, draft, number)
}
