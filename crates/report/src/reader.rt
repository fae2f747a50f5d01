// A report that is read line by line.

ghost use Rattle.std.specs.Prelude.{◌≡◌, ◌<◌, ◌≤◌, ◌-◌, ◌^◌, Some, MatchOption, option_map, length, map};
ghost use Rattle.set_model.specs.Sets.{object_at};
ghost use Rattle.set_model.specs.Views.{entry_of, task_of};
ghost use Rattle.report.specs.LineReading.{object_in};
ghost use Rattle.report.specs.Ends.{end_of};
ghost use Rattle.report.specs.Readings.{after_line, is_above, unread};

use crate::events::{finish, is_quiet};
use crate::report::{Listing, Report, ReportRefusal, Tasks};
use crate::state_lines::{End, end_line, is_done, object_words, open};
use nv_base::limits::MAX_OBJECTS;
use nv_base::{Entry, ObjId, Point, Seq, TaskId, TaskRec};
use std::alloc::Global;
use std::marker::Model;
use task_model::Objects;
use task_set::TaskSet;

/// Where the next line stands.
#[derive(Clone, Copy, PartialEq, Eq, Debug)]
pub(crate) enum Place {
    /// Among the events, or it is the `end` line.
    Events,
    /// Behind the `end` line.
    State,
    /// Behind the last line.
    Done,
}

/// What the lines so far tell. Contracts see it as the definitions' record of a reading.
#[derive(Debug, Drop)]
pub(crate) struct Reader {
    place: Place,
    line: u32,
    report: Report,
}

impl Model for Reader {
    ghost use Rattle.report.specs.Readings.{Reading};

    ghost Value = { Reading };

    ghost view = { λ r. record { place = r.place; line = r.line; report = r.report } };
}

/// Whether the last of these tasks, if there is one, has an id below this one.
fn are_below(tasks: &[TaskRec], id: TaskId) -> bool
    ensures { result ≡ is_above (map task_of tasks.now) id.0 }
{
    match tasks.last() {
        Some(task) => task.id.0 < id.0,
        None => true,
    }
}

impl Reader {
    ghost use Rattle.report.specs.Readings.{after_quiet, after_finish, after_numbers, after_object, after_event_line, after_objects, after_state, LeavesIf, Ends};

    /// Nothing was read yet.
    pub fn new(alloc: Global) -> Reader
        ensures { result ≡ unread }
    {
        Reader {
            place: Place::Events,
            line: 1,
            report: Report {
                listing: Listing::new(alloc),
                end_line: 0,
                clock: Point(0),
                number: Seq(0),
                next: TaskId(0),
                objects: Objects::new(alloc),
                tasks: Tasks::new(alloc),
            },
        }
    }

    /// One line more.
    fn step(&mut self)
        requires { self.old.line < 2 ^ 32 - 1 }
        ensures { self.new ≡ after_quiet self.old }
    {
        self.line += 1;
    }

    fn add_finish(&mut self, entry: Entry) -> Result<(), ReportRefusal>
        requires { self.old.line < 2 ^ 32 - 1 }
        ensures { LeavesIf result (Some (after_finish self.old (entry_of entry))) self.old.line self.new }
    {
        self.report.listing.push(self.line, entry)?;
        self.step();
        Ok(())
    }

    fn add_end(&mut self, end: End)
        requires { self.old.line < 2 ^ 32 - 1 }
        ensures { self.new ≡ after_numbers self.old (end_of end) }
    {
        self.report.end_line = self.line;
        self.report.clock = end.clock;
        self.report.number = end.number;
        self.report.next = end.next;
        self.place = Place::State;
        self.step();
    }

    /// The line of an event, or the `end` line.
    fn take_event(&mut self, set: &TaskSet, text: &[u8]) -> Result<(), ReportRefusal>
        requires { self.old.line < 2 ^ 32 - 1 }
        ensures { LeavesIf result (after_event_line set.now self.old text.now) self.old.line self.new }
    {
        if is_quiet(set, text) {
            self.step();
            return Ok(());
        }
        if let Some(entry) = finish(text) {
            return self.add_finish(entry);
        }
        let Some(end) = end_line(text) else {
            return Err(ReportRefusal::Bad(self.line));
        };
        self.add_end(end);
        Ok(())
    }

    /// The object whose line is next. None where each object has had its line.
    fn next_object(&self, set: &TaskSet) -> Option<ObjId>
        ensures { MatchOption result (length set.now.objects ≤ length self.now.report.state.objects)
            (λ o. (o.0 ≡ length self.now.report.state.objects) × (o.0 < length set.now.objects)
            × (o.0 < MAX_OBJECTS)) }
    {
        let told = self.report.objects.len();
        if told < usize::from(set.objects()) {
            Some(ObjId(told as u8))
        } else {
            None
        }
    }

    /// The line of this object, which is the next.
    fn take_object(
        &mut self,
        alloc: Global,
        set: &TaskSet,
        o: ObjId,
        text: &[u8],
    ) -> Result<(), ReportRefusal>
        requires line { self.old.line < 2 ^ 32 - 1 }
        requires next { o.0 ≡ length self.old.report.state.objects }
        requires inside { o.0 < length set.now.objects }
        requires few { o.0 < MAX_OBJECTS }
        ensures { let told = object_in set.now (object_at set.now o.0) text.now in
            LeavesIf result (option_map (after_object self.old) told) self.old.line self.new }
    {
        let Some(words) = object_words(set, o, text) else {
            return Err(ReportRefusal::Bad(self.line));
        };
        self.report.objects.push(alloc, words.as_slice())?;
        self.step();
        Ok(())
    }

    /// The line of an open task, or the last line.
    fn take_task(&mut self, set: &TaskSet, text: &[u8]) -> Result<(), ReportRefusal>
        requires { self.old.line < 2 ^ 32 - 1 }
        ensures { LeavesIf result (after_objects set.now self.old text.now) self.old.line self.new }
    {
        if is_done(text) {
            self.place = Place::Done;
            self.step();
            return Ok(());
        }
        let Some(task) = open(set, text) else {
            return Err(ReportRefusal::Bad(self.line));
        };
        if !are_below(self.report.tasks.as_slice(), task.id) {
            return Err(ReportRefusal::Bad(self.line));
        }
        self.report.tasks.push(task)?;
        self.step();
        Ok(())
    }

    /// A line of the state.
    fn take_state(&mut self, alloc: Global, set: &TaskSet, text: &[u8]) -> Result<(), ReportRefusal>
        requires { self.old.line < 2 ^ 32 - 1 }
        ensures { LeavesIf result (after_state set.now self.old text.now) self.old.line self.new }
    {
        match self.next_object(set) {
            Some(o) => self.take_object(alloc, set, o, text),
            None => self.take_task(set, text),
        }
    }

    /// Takes one line more, without its line feed. `Bad` exactly where it cannot stand here.
    #[tactic(auto, unfolding(crate::specs::Readings::after_line))]
    pub fn take(&mut self, alloc: Global, set: &TaskSet, text: &[u8]) -> Result<(), ReportRefusal>
        requires { self.old.line < 2 ^ 32 - 1 }
        ensures { LeavesIf result (after_line set.now self.old text.now) self.old.line self.new }
    {
        match self.place {
            Place::Events => self.take_event(set, text),
            Place::State => self.take_state(alloc, set, text),
            Place::Done => Err(ReportRefusal::Bad(self.line)),
        }
    }

    /// The report, where the last line was read and nothing stands behind it.
    pub fn finish(self, rest: &[u8]) -> Result<Report, ReportRefusal>
        ensures { Ends result self rest.now }
    {
        if self.place == Place::Done && rest.is_empty() {
            Ok(self.report)
        } else {
            Err(ReportRefusal::Bad(self.line))
        }
    }
}
