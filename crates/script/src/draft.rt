//! The lines so far.

ghost use Rattle.std.specs.Prelude.{◌≡◌, ◌≤◌, length};
ghost use Rattle.plain_text.specs.Left.{words_left};
ghost use Rattle.nv_base.specs.Refusals.{Gives, Leaves};
ghost use Rattle.script.specs.Lines.{found, keyword_after, line_after};
ghost use Rattle.script.specs.Keywords.{keyword_of as keyword};
ghost use Rattle.script.specs.declared.keyword.Keyword.TheVariants.{Run};
ghost use Rattle.script.specs.Parts.{no_set, nothing};

use crate::keyword::{Keyword, Stage, keyword_of};
use crate::refusals::{LineRefusal, ScriptCause};
use crate::set_lines::{
    take_cores, take_format, take_memory, take_object, take_records, take_task,
};
use crate::timeline::Timeline;
use crate::words::allowed;
use plain_text::{Words, is_plain};
use std::alloc::Global;
use std::marker::Model;
use task_set::{ObjectParts, ProgramParts, SetParts, Tasks};

/// What the lines so far give. Contracts see it as the definitions' record of these parts.
#[derive(Drop)]
pub(crate) struct Draft {
    pub(crate) last: Option<Stage>,
    pub(crate) cores_line: u32,
    pub(crate) set: SetParts,
    pub(crate) timeline: Timeline,
}

impl Model for Draft {
    ghost use Rattle.std.specs.Prelude.{◌≤◌, length};
    ghost use Rattle.nv_base.specs.declared.limits.TheConstants.{MAX_PROGRAMS};
    ghost use Rattle.script.specs.Parts.{Parts};

    ghost Value = { Parts };

    ghost view = { λ a. record { last = a.last; cores_line = a.cores_line; set = a.set; timeline = a.timeline } };

    ghost invariant = { λ a. length a.set.programs ≤ MAX_PROGRAMS };
}

fn no_parts(alloc: Global) -> SetParts
    ensures { result ≡ no_set }
{
    SetParts {
        format: 0,
        cores: 0,
        memory: 0,
        records: 0,
        objects: ObjectParts::new(alloc),
        programs: ProgramParts::new(alloc),
        tasks: Tasks::new(alloc),
    }
}

/// What the first word of a line says that the line is.
fn keyword_in(word: &[u8]) -> Result<Keyword, LineRefusal>
    ensures { Gives (λ k. k) result (found (keyword word.now)) }
{
    match keyword_of(word) {
        Some(keyword) => Ok(keyword),
        None => Err(LineRefusal::At(ScriptCause::Word)),
    }
}

impl Draft {
    /// No line yet.
    pub(crate) fn new(alloc: Global) -> Draft
        ensures { result ≡ nothing }
    {
        Draft {
            last: None,
            cores_line: 0,
            set: no_parts(alloc),
            timeline: Timeline::new(alloc),
        }
    }

    fn take_run(&self, mut words: Words<'_>) -> Result<(), LineRefusal>
        ensures { Leaves self.now result (keyword_after Run 0 self.now (words_left words.entry)) }
    {
        if words.next().is_some() {
            return Err(LineRefusal::At(ScriptCause::Count));
        }
        Ok(())
    }

    /// Takes line `n`, which begins with a keyword that may stand here.
    fn take_keyword(
        &mut self,
        alloc: Global,
        keyword: Keyword,
        n: u32,
        words: Words<'_>,
    ) -> Result<(), LineRefusal>
        ensures { Leaves self.new result
            (keyword_after keyword n self.old (words_left words.entry)) }
    {
        match keyword {
            Keyword::Nvk => take_format(&mut self.set, words),
            Keyword::Cores => {
                self.cores_line = n;
                take_cores(&mut self.set, words)
            }
            Keyword::Memory => take_memory(&mut self.set, words),
            Keyword::Records => take_records(&mut self.set, words),
            Keyword::Object => take_object(alloc, &mut self.set, words),
            Keyword::Task => take_task(&mut self.set, words),
            Keyword::Power => self.timeline.take_power(alloc, words),
            Keyword::Steps => self.timeline.take_steps(alloc, self.set.cores, words),
            Keyword::Mix => self.timeline.take_mix(words),
            Keyword::Run => self.take_run(words),
        }
    }

    /// Takes line `n`, which stands alone.
    #[tactic(auto, unfolding(crate::specs::Lines::words_after))]
    pub(crate) fn take_line(
        &mut self,
        alloc: Global,
        n: u32,
        line: &[u8],
    ) -> Result<(), LineRefusal>
        ensures { Leaves self.new result (line_after n self.old line.now) }
    {
        if !is_plain(line) {
            return Err(LineRefusal::At(ScriptCause::Byte));
        }
        let mut words = Words::new(line);
        let Some(first) = words.next() else {
            return Ok(());
        };
        let keyword = keyword_in(first)?;
        let stage = allowed(self.last, keyword.stage())?;
        self.take_keyword(alloc, keyword, n, words)?;
        self.last = Some(stage);
        Ok(())
    }
}
