//! The command `serial`: the first finishes of a script's tasks, each run whole, as lines, and the state that they leave.

ghost use Rattle.std.specs.Prelude.{◌≡◌, ◌<◌, ◌≤◌, ◌++◌, [], ℕ, IfOk, OnOk, length, map};
ghost use Rattle.std.specs.List.{AllByRecursion, flat_map};
ghost use Rattle.kernel_model.specs.Serial.{Serial};
ghost use Rattle.kernel_model.specs.Turns.{Finish};
ghost use Rattle.set_model.specs.Formatted.{formatted};
ghost use Rattle.set_model.specs.Limits.{IsTaskSet};
ghost use Rattle.set_model.specs.Sets.{TaskSet as Parts};
ghost use Rattle.set_model.specs.Views.{entry_of, task_of};
ghost use Rattle.report_text.specs.Lines.{open_text};
ghost use Rattle.report_text.specs.Report.{end_part, lines_text, objects_text};
ghost use Rattle.script.specs.Reading.{read};
ghost use Rattle.task_model.specs.Finals.{IsFit, runs_of, state_of};
ghost use Rattle.task_model.specs.FirstFinishes.{Finished, first_finishes};
ghost use Rattle.task_model.specs.Shape.{HasShape};
ghost use Rattle.answers.specs.declared.status.Status.TheVariants as Status;
ghost use Rattle.sim_run.specs.BeforeAnswerLine.{PutReply};
ghost use Rattle.sim_run.specs.Promises.{HasSerialFinishes};
ghost use Rattle.sim_run.specs.Replies.{Puts, finishes_text, serial_reply};
ghost use Rattle.sim_run.specs.declared.command.TheConstants.{MOST_SERIAL};

use crate::command::MOST_SERIAL;
use crate::texts::put_text;
use answers::{Status, of_script};
use kernel_model::whole_runs::run_is_fit;
use nv_base::{Entry, Line, NoMemory, ObjId, Sink, TaskRec};
use report::LineBuf;
use rv_core::Machine;
use script::read_script;
use set_model::laws::formatted_state_is_fit;
use std::alloc::Global;
use task_model::laws::tasks_are_a_machine;
use task_model::{Final, Objects, serial_first};
use task_set::TaskSet;

/// A text of lines, each of which is made in one buffer.
#[derive(Drop)]
struct Text {
    bytes: Vec<u8>,
    line: LineBuf,
}

impl Text {
    fn new(alloc: Global) -> Result<Text, NoMemory>
        ensures { IfOk result (λ t. t.bytes.items ≡ []) }
    {
        let line = LineBuf::new(alloc)?;
        Ok(Text {
            bytes: Vec::new(alloc),
            line,
        })
    }

    // The line that was made last, behind the others.
    fn push(&mut self) -> Result<(), NoMemory>
        ensures { OnOk result (self.new.bytes.items ≡ self.old.bytes.items ++ self.old.line) }
    {
        self.bytes.extend_from_slice(self.line.bytes())?;
        Ok(())
    }

    // The lines of finishes.
    fn push_finishes(&mut self, set: &TaskSet, entries: &[Entry]) -> Result<(), NoMemory>
        ensures { let lines = map (λ e. Finish e) (map entry_of entries.now) in
            OnOk result (self.new.bytes.items ≡ self.old.bytes.items ++ lines_text set.now lines) }
    {
        for entry in entries {
            self.line.put_line(set, &Line::Finish(*entry));
            self.push()?;
        }
        Ok(())
    }

    // The lines of a set's objects.
    fn push_objects(&mut self, set: &TaskSet, objects: &Objects) -> Result<(), NoMemory>
        requires { HasShape set.now objects.now }
        ensures { let lines = objects_text set.now.objects objects.now in
            OnOk result (self.new.bytes.items ≡ self.old.bytes.items ++ lines) }
    {
        for object in 0..set.objects() {
            let o = ObjId(object);
            self.line.put_object(set, o, objects.get(o));
            self.push()?;
        }
        Ok(())
    }

    // The lines of open tasks.
    fn push_tasks(&mut self, set: &TaskSet, tasks: &[TaskRec]) -> Result<(), NoMemory>
        requires { AllByRecursion (λ t. t.program < length set.now.programs)
            (map task_of tasks.now) }
        ensures { let lines = flat_map (open_text set.now) (map task_of tasks.now) in
            OnOk result (self.new.bytes.items ≡ self.old.bytes.items ++ lines) }
    {
        for task in tasks {
            self.line.put_open(set, *task);
            self.push()?;
        }
        Ok(())
    }

    // The lines of a state that has counted no boot.
    fn push_end(&mut self, set: &TaskSet, end: &Final) -> Result<(), NoMemory>
        requires { IsFit set.now (state_of end.now) }
        ensures { let lines = end_part set.now (state_of end.now) 0 in
            OnOk result (self.new.bytes.items ≡ self.old.bytes.items ++ lines) }
    {
        self.line.put_end(end.clock, end.number, end.next, 0);
        self.push()?;
        self.push_objects(set, &end.objects)?;
        self.push_tasks(set, end.tasks.as_slice())?;
        self.line.put_done();
        self.push()
    }
}

/// The state that first finishes leave has the objects of the set, and its tasks run programs of the set.
fn first_state_is_fit()
    ensures { (set : Parts) (count : ℕ) → IsTaskSet set
        → IsFit set (first_finishes set count (formatted set)).state }
{
    formatted_state_is_fit();
    tasks_are_a_machine();
    run_is_fit::<Machine>();
}

/// The lines of finishes, and of the state that they leave.
fn text_of(
    alloc: Global,
    set: &TaskSet,
    entries: &[Entry],
    end: &Final,
) -> Result<Vec<u8>, NoMemory>
    requires { IsFit set.now (state_of end.now) }
    ensures { let f : Finished = record {
      entries = map entry_of entries.now;
      state = state_of end.now;
    } in
        IfOk result (λ bytes. bytes.items ≡ finishes_text set.now f) }
{
    let mut text = Text::new(alloc)?;
    text.push_finishes(set, entries)?;
    text.push_end(set, end)?;
    Ok(text.bytes)
}

/// Puts so many first finishes of a set's tasks at most, and the state that they leave.
fn put_first<K: Sink>(alloc: Global, set: &TaskSet, count: u32, out: &mut K) -> Status
    requires { count ≤ MOST_SERIAL }
    ensures replied { let f = first_finishes set.now count (formatted set.now) in
        PutReply (Puts (finishes_text set.now f)) (K.seen out.old) (K.seen out.new) result }
    ensures serial { let f = first_finishes set.now count (formatted set.now) in
        result ≡ Status.Done → Serial (runs_of set.now) (formatted set.now) f.entries f.state }
{
    // that the set keeps its limits
    let _ = set.format();
    first_state_is_fit();
    let Ok((entries, end)) = serial_first(alloc, set, count) else {
        return Status::NoMemory;
    };
    match text_of(alloc, set, entries.as_slice(), &end) {
        Ok(text) => put_text(out, text.as_slice()),
        Err(_) => Status::NoMemory,
    }
}

/// Puts so many first finishes at most of the tasks of the script that an input is, or answers with the first line that is
/// refused.
pub(crate) fn serial<K: Sink>(alloc: Global, count: u32, input: &[u8], out: &mut K) -> Status
    requires { count ≤ MOST_SERIAL }
    ensures replied { let reply = serial_reply count (read input.now) in
        PutReply reply (K.seen out.old) (K.seen out.new) result }
    ensures serial { result ≡ Status.Done → HasSerialFinishes count input.now }
{
    match read_script(alloc, input) {
        Ok(script) => put_first(alloc, &script.set, count, out),
        Err(refusal) => of_script(refusal),
    }
}
