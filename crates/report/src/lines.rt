// The lines of a report, each put in place of the last one.

ghost use Rattle.std.specs.Prelude.{◌≡◌, ◌<◌, length};
ghost use Rattle.set_model.specs.Sets.{object_at, program_at};
ghost use Rattle.set_model.specs.Views.{line_of, task_of};
ghost use Rattle.report_text.specs.Lines.{line_text, end_text, object_text, open_text, done_text};
ghost use Rattle.report.specs.Named.{NamesObject};

use crate::line_buf::LineBuf;
use nv_base::{Line, ObjId, Point, Seq, TaskId, TaskRec};
use task_set::TaskSet;

impl LineBuf {
    /// What a turn told: its line, two lines where a boot found a finish, or nothing.
    pub fn put_line(&mut self, set: &TaskSet, line: &Line)
        requires { NamesObject set.now (line_of line.now) }
        ensures { self.new ≡ line_text set.now (line_of line.now) }
    {
        self.clear();
        match *line {
            Line::Nothing => {}
            Line::Start { core, task, at } => self.append_start(core, task, at),
            Line::Stale { core, task, lo, hi } => {
                self.append_pair(b"stale ", lo.0, hi.0);
                self.append_attempt(core, task);
            }
            Line::RefuseEmpty { core, task, lo, hi } => {
                self.append_pair(b"refuse empty ", lo.0, hi.0);
                self.append_attempt(core, task);
            }
            Line::RefuseSlots { core, task, object } => {
                self.append(b"refuse slots ");
                self.append(set.object_name(object));
                self.append_attempt(core, task);
            }
            Line::RefuseRecords {
                core,
                task,
                pending,
                spawns,
            } => {
                self.append_pair(b"refuse records ", pending, spawns);
                self.append_attempt(core, task);
            }
            Line::Finish(entry) => self.append_entry(b"finish ", entry),
            Line::Found(entry) => self.append_entry(b"found ", entry),
            Line::Fail => self.append(b"fail\n"),
            Line::Booted { found, boots } => self.append_boot(found, boots),
        }
    }

    /// The numbers of the state that was read back, and how many boots there were.
    pub fn put_end(&mut self, clock: Point, number: Seq, next: TaskId, boots: u32)
        ensures { self.new ≡ end_text clock.0 number.0 next.0 boots }
    {
        self.clear();
        self.append_field(b"end clock ", clock.0);
        self.append_field(b" number ", number.0);
        self.append_field(b" next ", next.0);
        self.append_field(b" boots ", boots);
        self.append(b"\n");
    }

    /// The words of an object that were read back, as many as its size.
    #[tactic(auto, using(crate::proofs::SetFacts::size_fits))]
    pub fn put_object(&mut self, set: &TaskSet, o: ObjId, words: &[u32])
        requires object { o.0 < length set.now.objects }
        requires words { length words.now ≡ (object_at set.now o.0).size }
        ensures { self.new ≡ object_text (object_at set.now o.0).name words.now }
    {
        self.clear();
        self.append(b"object ");
        self.append(set.object_name(o));
        self.append_words(words);
        self.append(b"\n");
    }

    /// A task that is still open.
    pub fn put_open(&mut self, set: &TaskSet, task: TaskRec)
        requires { task.program.0 < length set.now.programs }
        ensures { self.new ≡ open_text set.now (task_of task) }
    {
        self.clear();
        self.append_field(b"open ", task.id.0);
        self.append(b" ");
        self.append(set.program_name(task.program));
        self.append_field(b" ", task.arg);
        self.append(b"\n");
    }

    /// The last line.
    pub fn put_done(&mut self)
        ensures { self.new ≡ done_text }
    {
        self.clear();
        self.append(b"done\n");
    }
}
