// Pieces that several lines have.

ghost use Rattle.std.specs.Prelude.{◌≡◌, ◌≤◌, ◌+◌, ◌*◌, ◌++◌, length, codes};

use crate::line_buf::{LONGEST_LINE, LineBuf};
use nv_base::limits::MAX_NAME;
use nv_base::{CoreId, Entry, Outcome, Point, TaskId};

impl LineBuf {
    ghost use Rattle.set_model.specs.Views.{entry_if, entry_of, outcome_of};
    ghost use Rattle.std.specs.List.{flat_map};
    ghost use Rattle.nv_base.specs.Texts.{field};
    ghost use Rattle.report_text.specs.Lines.{line_feed, outcome_text, entry_text, found_text};

    /// The line of a core that begins a task.
    pub(crate) fn append_start(&mut self, core: CoreId, task: TaskId, at: Point)
        requires { length self.old ≤ 128 }
        ensures { let started = self.old ++ field (codes "start core ") core.0 in
            let named = started ++ field (codes " task ") task.0 in
            self.new ≡ named ++ field (codes " at ") at.0 ++ line_feed }
    {
        self.append_field(b"start core ", u32::from(core.0));
        self.append_field(b" task ", task.0);
        self.append_field(b" at ", at.0);
        self.append(b"\n");
    }

    /// The end of a line that tells of an attempt: its core and its task.
    pub(crate) fn append_attempt(&mut self, core: CoreId, task: TaskId)
        requires { length self.old ≤ 128 }
        ensures { let on_core = self.old ++ field (codes " core ") core.0 in
            self.new ≡ on_core ++ field (codes " task ") task.0 ++ line_feed }
    {
        self.append_field(b" core ", u32::from(core.0));
        self.append_field(b" task ", task.0);
        self.append(b"\n");
    }

    /// A word and two numbers.
    pub(crate) fn append_pair(&mut self, word: &[u8], first: u32, second: u32)
        requires room { length self.old ≤ 64 }
        requires word { length word.now ≤ MAX_NAME }
        ensures text { self.new ≡ self.old ++ field word.now first ++ field (codes " ") second }
        ensures len { length self.new ≤ length self.old + length word.now + 21 }
    {
        self.append_field(word, first);
        self.append_field(b" ", second);
    }

    fn append_outcome(&mut self, outcome: Outcome)
        requires { length self.old ≤ 256 }
        ensures text { self.new ≡ self.old ++ outcome_text (outcome_of outcome) }
        ensures len { length self.new ≤ length self.old + 20 }
    {
        match outcome {
            Outcome::Exit(code) => self.append_field(b" exit ", code),
            Outcome::Trap(cause) => {
                self.append(b" trap ");
                self.append(cause.word().as_bytes());
            }
        }
    }

    /// The line of a finish, behind `finish ` or `found `.
    pub(crate) fn append_entry(&mut self, word: &[u8], entry: Entry)
        requires word { length word.now ≤ MAX_NAME }
        requires room { length self.old ≤ 128 }
        ensures text { self.new ≡ self.old ++ entry_text word.now (entry_of entry) }
        ensures len { length self.new ≤ length self.old + 128 }
    {
        self.append_field(word, entry.number.0);
        self.append_field(b" task ", entry.task.0);
        self.append_field(b" point ", entry.point.0);
        self.append_outcome(entry.outcome);
        self.append_field(b" first ", entry.first.0);
        self.append(b"\n");
    }
    /// The line of a finish that a boot found, where it found one.
    fn append_found(&mut self, found: Option<Entry>)
        requires { length self.old ≤ 128 }
        ensures text { self.new ≡ self.old ++ found_text (entry_if found) }
        ensures len { length self.new ≤ length self.old + 128 }
    {
        if let Some(entry) = found {
            self.append_entry(b"found ", entry);
        }
    }

    /// The lines of a boot: the finish that it found, if it found one, and the count of boots.
    pub(crate) fn append_boot(&mut self, found: Option<Entry>, boots: u32)
        requires { length self.old ≤ 128 }
        ensures { let boot = field (codes "boot ") boots ++ line_feed in
            self.new ≡ self.old ++ found_text (entry_if found) ++ boot }
    {
        self.append_found(found);
        self.append_field(b"boot ", boots);
        self.append(b"\n");
    }

    /// Words, each behind a space.
    pub(crate) fn append_words(&mut self, words: &[u32])
        requires { length self.old + 11 * length words.now ≤ LONGEST_LINE }
        ensures text { self.new ≡ self.old ++ flat_map (field (codes " ")) words.now }
        ensures len { length self.new ≤ length self.old + 11 * length words.now }
    {
        for word in words {
            self.append_field(b" ", *word);
        }
    }
}
