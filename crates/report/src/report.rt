// What a report tells, as it was read, and why bytes are none.

ghost use Rattle.std.specs.Prelude.{◌≡◌, ◌++◌, ◌∷◌, [], MatchResult, length};
ghost use Rattle.report.specs.declared.report.ReportRefusal.TheVariants.{NoMemory as none};

use nv_base::{Entry, NoMemory, Point, Seq, TaskId, TaskRec};
use std::alloc::{AllocError, AllocFailed, Global};
use std::marker::Model;
use task_model::Objects;

/// The finishes that a report lists, in its order, each with the number of its line.
#[derive(Debug, Drop)]
pub struct Listing {
    items: Vec<(u32, Entry)>,
}

impl Model for Listing {
    ghost use Rattle.std.specs.Prelude.{List, ℕ};
    ghost use Rattle.nv_base.specs.declared.lines.Entry.{Entry};

    ghost Value = { List (ℕ × Entry) };

    ghost view = { λ l. l.items.items };
}

impl Listing {
    /// None yet.
    pub fn new(alloc: Global) -> Listing
        ensures { result ≡ [] }
    {
        Listing {
            items: Vec::new(alloc),
        }
    }

    /// Adds a finish behind the others, with the number of its line. `NoMemory` leaves them as they were.
    pub fn push(&mut self, line: u32, entry: Entry) -> Result<(), NoMemory>
        ensures { MatchResult result (λ _. self.new ≡ self.old ++ (line, entry) ∷ []) (λ _. self.new
            ≡ self.old) }
    {
        self.items.push((line, entry))?;
        Ok(())
    }

    /// All of them, in order.
    pub fn as_slice(&self) -> &[(u32, Entry)]
        ensures { result.now ≡ self.now }
    {
        self.items.as_slice()
    }
}

/// The tasks that are open at the end of a report, by id.
#[derive(Debug, Drop)]
pub struct Tasks {
    items: Vec<TaskRec>,
}

impl Model for Tasks {
    ghost use Rattle.std.specs.Prelude.{List};
    ghost use Rattle.nv_base.specs.declared.lines.TaskRec.{TaskRec};

    ghost Value = { List TaskRec };

    ghost view = { λ t. t.items.items };
}

impl Tasks {
    /// None yet.
    pub fn new(alloc: Global) -> Tasks
        ensures { result ≡ [] }
    {
        Tasks {
            items: Vec::new(alloc),
        }
    }

    /// Adds a task behind the others. `NoMemory` leaves them as they were.
    pub fn push(&mut self, task: TaskRec) -> Result<(), NoMemory>
        ensures { MatchResult result (λ _. self.new ≡ self.old ++ task ∷ []) (λ _. self.new
            ≡ self.old) }
    {
        self.items.push(task)?;
        Ok(())
    }

    /// All of them, in order.
    pub fn as_slice(&self) -> &[TaskRec]
        ensures { result.now ≡ self.now }
    {
        self.items.as_slice()
    }
}

/// What a report tells of its finishes, and of the state that was read back at its end. Contracts see it as the
/// definitions' record of a report.
#[derive(Debug, Drop)]
pub struct Report {
    /// The finishes of its `finish` and `found` lines.
    pub listing: Listing,
    /// The number of the `end` line, from 1.
    pub end_line: u32,
    /// The last point.
    pub clock: Point,
    /// How many finishes there were.
    pub number: Seq,
    /// The id of the next task.
    pub next: TaskId,
    /// The words of each object.
    pub objects: Objects,
    /// The open tasks.
    pub tasks: Tasks,
}

impl Model for Report {
    ghost use Rattle.std.specs.Prelude.{map};
    ghost use Rattle.set_model.specs.Views.{task_of};
    ghost use Rattle.report_text.specs.Reports.{Report};
    ghost use Rattle.report.specs.Views.{listed_of};

    ghost Value = { Report };

    ghost view = { λ r. record {
      listing = map listed_of r.listing;
      end_line = r.end_line;
      state = record { objects = r.objects; tasks = map task_of r.tasks; clock = r.clock.0; number = r.number.0; next = r.next.0 };
    } };
}

/// Why bytes were not read as a report.
#[derive(Clone, Copy, PartialEq, Eq, Debug)]
pub enum ReportRefusal {
    /// They are no report of the set: the number of the first line that cannot stand where it stands, from 1.
    Bad(u32),
    /// There was not memory enough.
    NoMemory,
}

impl From<NoMemory> for ReportRefusal {
    ghost from_gives = { λ _ e. e ≡ none };

    fn from(_error: NoMemory) -> ReportRefusal {
        ReportRefusal::NoMemory
    }
}

impl From<AllocError> for ReportRefusal {
    ghost from_gives = { λ _ e. e ≡ none };

    fn from(_error: AllocError) -> ReportRefusal {
        ReportRefusal::NoMemory
    }
}

impl<T: Drop> From<AllocFailed<T>> for ReportRefusal {
    ghost from_gives = { λ _ e. e ≡ none };

    fn from(_error: AllocFailed<T>) -> ReportRefusal {
        ReportRefusal::NoMemory
    }
}
