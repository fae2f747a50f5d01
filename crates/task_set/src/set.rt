//! Checked task sets: two constructors, `copy` and the readers.

ghost use Rattle.std.specs.Prelude.{◌≡◌, ◌<◌, ◌≤◌, None, map, length, IfOk, MatchResult};
ghost use Rattle.task_set.specs.FirstBroken.{first_broken};
ghost use Rattle.task_set.specs.Refusals.{IsRefused};
ghost use Rattle.set_model.specs.Limits.{IsObject, IsProgram, IsTaskSet};
ghost use Rattle.set_model.specs.Names.{IsName, IsNamed};
ghost use Rattle.set_model.specs.Sets.{object_at, program_at};
ghost use Rattle.set_model.specs.Views.{spawn_of};

use crate::distinct_names::are_named;
use crate::laws::none_broken_is_within;
use crate::limits::first_broken;
use crate::parts::{ObjPart, ProgPart, SetParts};
use crate::ranges::has_words;
use crate::refusals::SetRefusal;
use nv_base::limits::{MAX_NAME, MAX_OBJECTS, MAX_RECORDS};
use nv_base::{NoMemory, ObjId, ProgId, Spawn};
use set_model::laws::{
    any_format_is_below, object_is_named, object_is_within, program_is_named, program_is_within,
};
use std::alloc::Global;
use std::marker::Model;

/// A task set within all limits, whose names are names. Contracts see it as the definitions' record of a task set.
#[derive(Debug, Drop)]
pub struct TaskSet {
    parts: SetParts,
}

impl Model for TaskSet {
    ghost use Rattle.set_model.specs.Sets.{TaskSet as Parts};
    ghost use Rattle.set_model.specs.Limits.{IsTaskSet};
    ghost use Rattle.set_model.specs.Names.{IsNamed};

    ghost Value = { Parts };

    ghost view = { λ a. a.parts };

    ghost invariant = { λ a. IsTaskSet a.parts × IsNamed a.parts };
}

impl TaskSet {
    /// The set of parts that are known to break no limit, with names that are names. Nothing is tested, and no memory
    /// is taken.
    pub fn of(parts: SetParts) -> TaskSet
        requires limits { first_broken parts ≡ None }
        requires names { IsNamed parts }
        ensures exact { result ≡ parts }
        ensures limits { IsTaskSet parts }
    {
        has_words(&parts);
        none_broken_is_within();
        TaskSet { parts }
    }

    /// The set of the parts, which are consumed. `Limit` with the first limit that is broken; where none is, `Name`
    /// where a name is malformed, or given twice among the objects or among the programs; `NoMemory` where the names
    /// found none to be compared in.
    pub fn build(alloc: Global, parts: SetParts) -> Result<TaskSet, SetRefusal>
        ensures { MatchResult result (λ set. (set ≡ parts) × IsTaskSet parts
            × IsNamed parts) (λ refusal. IsRefused refusal parts) }
    {
        if let Some(kind) = first_broken(&parts) {
            return Err(SetRefusal::Limit(kind));
        }
        match are_named(alloc, &parts) {
            Err(NoMemory) => Err(SetRefusal::NoMemory),
            Ok(false) => Err(SetRefusal::Name),
            Ok(true) => Ok(TaskSet::of(parts)),
        }
    }

    /// An equal set, in memory of its own.
    pub fn copy(&self, alloc: Global) -> Result<TaskSet, NoMemory>
        ensures { IfOk result (λ set. set ≡ self.now) }
    {
        Ok(TaskSet {
            parts: self.parts.copy(alloc)?,
        })
    }

    /// By which the most objects and task records go: 1 or 2.
    pub fn format(&self) -> u8
        ensures exact { result ≡ self.now.format }
        ensures limits { IsTaskSet self.now }
    {
        self.parts.format
    }

    /// How many cores there are: 1 to 8.
    pub fn cores(&self) -> u8
        ensures exact { result ≡ self.now.cores }
        ensures limits { IsTaskSet self.now }
        ensures names { IsNamed self.now }
    {
        self.parts.cores
    }

    /// The private memory of each attempt, in bytes: 1,024 to 65,536, a multiple of 4.
    pub fn memory(&self) -> u32
        ensures exact { result ≡ self.now.memory }
        ensures limits { IsTaskSet self.now }
    {
        self.parts.memory
    }

    /// How many tasks may be open at a time: 1 to 256 in format 1, 1 to 1,024 in format 2.
    pub fn records(&self) -> u16
        ensures exact { result ≡ self.now.records }
        ensures few { result ≤ MAX_RECORDS }
        ensures limits { IsTaskSet self.now }
    {
        any_format_is_below();
        self.parts.records
    }

    /// How many objects there are: 1 to 64 in format 1, 1 to 128 in format 2.
    pub fn objects(&self) -> u8
        ensures exact { result ≡ length self.now.objects }
        ensures few { result ≤ MAX_OBJECTS }
        ensures limits { IsTaskSet self.now }
    {
        any_format_is_below();
        self.parts.objects.as_slice().len() as u8
    }

    /// How many programs there are: 1 to 16.
    pub fn programs(&self) -> u8
        ensures exact { result ≡ length self.now.programs }
        ensures limits { IsTaskSet self.now }
    {
        self.parts.programs.as_slice().len() as u8
    }

    fn object(&self, o: ObjId) -> &ObjPart
        requires { o.0 < length self.now.objects }
        ensures exact { result.now ≡ object_at self.now o.0 }
        ensures limits { IsObject (object_at self.now o.0) }
        ensures name { IsName (object_at self.now o.0).name }
    {
        object_is_within();
        object_is_named();
        &self.parts.objects.as_slice()[usize::from(o.0)]
    }

    fn program(&self, p: ProgId) -> &ProgPart
        requires { p.0 < length self.now.programs }
        ensures exact { result.now ≡ program_at self.now p.0 }
        ensures limits { IsProgram self.now.memory (program_at self.now p.0) }
        ensures name { IsName (program_at self.now p.0).name }
    {
        program_is_within();
        program_is_named();
        &self.parts.programs.as_slice()[usize::from(p.0)]
    }

    /// How many words an object has: 1 to 64.
    pub fn size(&self, o: ObjId) -> u8
        requires { o.0 < length self.now.objects }
        ensures exact { result ≡ (object_at self.now o.0).size }
        ensures limits { IsObject (object_at self.now o.0) }
    {
        let object = self.object(o);
        object.size
    }

    /// For how many versions an object has slots: 2 to 8.
    pub fn slots(&self, o: ObjId) -> u8
        requires { o.0 < length self.now.objects }
        ensures exact { result ≡ (object_at self.now o.0).slots }
        ensures limits { IsObject (object_at self.now o.0) }
    {
        let object = self.object(o);
        object.slots
    }

    /// The words of an object at first, as many as its size.
    pub fn first(&self, o: ObjId) -> &[u32]
        requires { o.0 < length self.now.objects }
        ensures exact { result.now ≡ (object_at self.now o.0).first }
        ensures limits { IsObject (object_at self.now o.0) }
    {
        let object = self.object(o);
        object.first.as_slice()
    }

    /// The name of an object: at most 16 bytes.
    #[tactic(auto, using(crate::proofs::NameFacts::name_is_short))]
    pub fn object_name(&self, o: ObjId) -> &[u8]
        requires { o.0 < length self.now.objects }
        ensures exact { result.now ≡ (object_at self.now o.0).name }
        ensures name { IsName result.now }
        ensures short { length result.now ≤ MAX_NAME }
        ensures limits { IsObject (object_at self.now o.0) }
    {
        let object = self.object(o);
        object.name.as_slice()
    }

    /// The name of a program: at most 16 bytes.
    #[tactic(auto, using(crate::proofs::NameFacts::name_is_short))]
    pub fn program_name(&self, p: ProgId) -> &[u8]
        requires { p.0 < length self.now.programs }
        ensures exact { result.now ≡ (program_at self.now p.0).name }
        ensures name { IsName result.now }
        ensures short { length result.now ≤ MAX_NAME }
        ensures limits { IsProgram self.now.memory (program_at self.now p.0) }
    {
        let program = self.program(p);
        program.name.as_slice()
    }

    /// The code of a program: at most 1,024 words, which fit the private memory.
    pub fn code(&self, p: ProgId) -> &[u32]
        requires { p.0 < length self.now.programs }
        ensures exact { result.now ≡ (program_at self.now p.0).code }
        ensures limits { IsProgram self.now.memory (program_at self.now p.0) }
    {
        let program = self.program(p);
        program.code.as_slice()
    }

    /// How many instructions a run of a program may count: 1 to 1,000,000.
    pub fn fuel(&self, p: ProgId) -> u32
        requires { p.0 < length self.now.programs }
        ensures exact { result ≡ (program_at self.now p.0).fuel }
        ensures limits { IsProgram self.now.memory (program_at self.now p.0) }
    {
        let program = self.program(p);
        program.fuel
    }

    /// The tasks that are open at first, under the ids 1, 2, ..
    #[tactic(auto, using(crate::proofs::TaskFacts::same_number))]
    pub fn tasks(&self) -> &[Spawn]
        ensures exact { map spawn_of result.now ≡ self.now.tasks }
        ensures number { length result.now ≡ length self.now.tasks }
        ensures few { length result.now ≤ MAX_RECORDS }
        ensures limits { IsTaskSet self.now }
    {
        any_format_is_below();
        self.parts.tasks.as_slice()
    }
}
