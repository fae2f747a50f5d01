//! What the services that a running task calls make of its attempt.

ghost use Rattle.std.specs.Prelude.{◌≡◌, ◌≤◌, ◌<◌, ◌+◌, ◌||◌, IfOk, OnOk, Some, length, nat_le};
ghost use Rattle.std.specs.Result.{result_err};
ghost use Rattle.object_sets.specs.ObjectSets.{is_among};
ghost use Rattle.rv_core.specs.Machine.{IsPlace, service_of};
ghost use Rattle.rv_core.specs.declared.services.Service.TheVariants.{Read, Write, Spawn as AsksFor};
ghost use Rattle.set_model.specs.Sets.{object_at};
ghost use Rattle.task_model.specs.TaskSteps.{part_refusal, refusal};
ghost use Rattle.vol_copy.specs.declared.want.Want.TheVariants.{Take};
ghost use Rattle.vol_copy.specs.Wants.{part_service, rewritten_wanted};
ghost use Rattle.vol_copy.specs.Received.{MayReceive, received, rewritten_so, seen_of};
ghost use Rattle.vol_copy.specs.Tries.{IsFor};
ghost use Rattle.vol_copy.specs.Turns.{Obtains, Serves};

use crate::attempt::{Attempt, Stage};
use crate::copied::CopiedWords;
use crate::running::Need;
use crate::want::Want;
use nv_base::limits::MAX_OBJECTS;
use nv_base::{ObjId, ObjSet, Outcome, ProgId, Spawn, TrapCause};
use task_model::{MAX_SPAWNS, Objects, Part, give};
use task_set::TaskSet;

// The words that an attempt sees of an object: its own last write, else its copy.
fn seen<'a>(written: ObjSet, words: &'a Objects, copies: &'a CopiedWords, o: ObjId) -> &'a [u32]
    requires few { o.0 < MAX_OBJECTS }
    requires own { o.0 < length words.now }
    requires copied { o.0 < length copies.now }
    ensures { result.now ≡ seen_of written words.now copies.now o.0 }
{
    if written.has(o) {
        words.get(o)
    } else {
        copies.get(o)
    }
}

impl Attempt {
    /// The tests of a READ or a WRITE, in order: Object, CallAlign, CallRange.
    fn place(&self, set: &TaskSet, object: u32, at: u32) -> Result<ObjId, TrapCause>
        ensures refusal { result_err result ≡ refusal set.now self.now.machine object at }
        ensures object { IfOk result (λ o. o.0 ≡ object) }
        ensures inside { OnOk result (object < length set.now.objects) }
        ensures few { OnOk result (object < MAX_OBJECTS) }
        ensures some { OnOk result (0 < (object_at set.now object).size) }
        ensures place { OnOk result (IsPlace self.now.machine at (object_at set.now object).size) }
    {
        if object >= u32::from(set.objects()) {
            return Err(TrapCause::Object);
        }
        let o = ObjId(object as u8);
        self.machine.fits(at, u32::from(set.size(o)))?;
        Ok(o)
    }

    /// The tests of a READPART or a WRITEPART, in order: Object, CallRange, CallAlign, CallRange.
    fn place_part(&self, set: &TaskSet, object: u32, part: Part) -> Result<ObjId, TrapCause>
        ensures refusal { result_err result
            ≡ part_refusal set.now self.now.machine object part.at part.first part.count }
        ensures object { IfOk result (λ o. o.0 ≡ object) }
        ensures inside { OnOk result (object < length set.now.objects) }
        ensures few { OnOk result (object < MAX_OBJECTS) }
        ensures some { OnOk result (0 < (object_at set.now object).size) }
        ensures range { OnOk result (part.first + part.count ≤ (object_at set.now object).size) }
        ensures place { OnOk result (IsPlace self.now.machine part.at part.count) }
    {
        if u32::from(set.objects()) <= object {
            return Err(TrapCause::Object);
        }
        let o = ObjId(object as u8);
        let end = part.first as u64 + part.count as u64;
        if part.count == 0 || end > u64::from(set.size(o)) {
            return Err(TrapCause::CallRange);
        }
        self.machine.fits(part.at, part.count)?;
        Ok(o)
    }

    /// The attempt's own last write, else its earlier copy, else the object's words come next.
    pub(crate) fn read_object(&mut self, set: &TaskSet, object: u32, at: u32) -> Need
        requires kept { IsFor set.now self.old }
        requires running { self.old.stage ≡ Stage.Running }
        requires called { service_of self.old.machine ≡ Some (Read object at) }
        requires waits { self.old.machine.pc + 4 ≤ length self.old.machine.memory }
        ensures kept { IsFor set.now self.new }
        ensures start { self.new.start ≡ self.old.start }
        ensures serves { Serves set.now self.old (Read object at) self.new result }
    {
        let o = match self.place(set, object, at) {
            Ok(o) => o,
            Err(cause) => return self.end(Outcome::Trap(cause)),
        };
        let count = u32::from(set.size(o));
        let first = 0;
        self.obtain(o, Want::Give(Part { at, first, count }))
    }

    /// The same of a READPART or a WRITEPART: a write of a part begins with the same words as a read.
    pub(crate) fn read_or_write_part(&mut self, set: &TaskSet, object: u32, want: Want) -> Need
        requires kept { IsFor set.now self.old }
        requires running { self.old.stage ≡ Stage.Running }
        requires called { service_of self.old.machine ≡ Some (part_service object want) }
        requires waits { self.old.machine.pc + 4 ≤ length self.old.machine.memory }
        ensures kept { IsFor set.now self.new }
        ensures start { self.new.start ≡ self.old.start }
        ensures serves { Serves set.now self.old (part_service object want) self.new result }
    {
        let o = match self.place_part(set, object, want.part()) {
            Ok(o) => o,
            Err(cause) => return self.end(Outcome::Trap(cause)),
        };
        self.obtain(o, want)
    }

    /// A service that wants an object's words has them at once where the attempt wrote or read the object. Else a
    /// version is to be chosen.
    fn obtain(&mut self, o: ObjId, want: Want) -> Need
        requires few { o.0 < MAX_OBJECTS }
        requires may { MayReceive self.old o.0 want }
        ensures obtains { Obtains self.old o self.new result }
        ensures start { self.new.start ≡ self.old.start }
    {
        if self.has_words(o) {
            self.receive(o, want);
            return Need::Went;
        }
        self.stage = Stage::Fetching { object: o, want };
        Need::Fetch(o)
    }

    /// Whether the attempt has words of an object: its own last write, or an earlier copy.
    fn has_words(&self, o: ObjId) -> bool
        requires { o.0 < MAX_OBJECTS }
        ensures { result ≡ (is_among o.0 self.now.written || is_among o.0 self.now.reads) }
    {
        self.written.has(o) || self.reads.has(o)
    }

    /// The service has the words that the attempt sees.
    pub(crate) fn receive(&mut self, o: ObjId, want: Want)
        requires few { o.0 < MAX_OBJECTS }
        requires may { MayReceive self.old o.0 want }
        ensures exact { self.new ≡ received self.old o.0 want }
        ensures room { length self.new.machine.memory ≡ length self.old.machine.memory }
    {
        match want {
            Want::Give(part) => give(
                &mut self.machine,
                part,
                seen(self.written, &self.words, &self.copies, o),
            ),
            Want::Take(part) => {
                self.rewrite(o, part);
                self.machine.resume(None);
            }
        }
    }

    /// The words of a part, from the machine's memory, take the place of those that the attempt sees.
    fn rewrite(&mut self, o: ObjId, part: Part)
        requires few { o.0 < MAX_OBJECTS }
        requires may { MayReceive self.old o.0 (Take part) }
        ensures { let seen = seen_of self.old.written self.old.words self.old.copies o.0 in
            self.new ≡ rewritten_so self.old o.0
            (rewritten_wanted (Take part) self.old.machine.memory seen) }
    {
        let own = self.written.has(o);
        self.written.add(o);
        if own {
            self.words.take_part(o, part, &self.machine);
        } else {
            self.words
                .take_over(o, self.copies.get(o), part, &self.machine);
        }
    }

    /// The words at the address become the attempt's write.
    pub(crate) fn write_object(&mut self, set: &TaskSet, object: u32, at: u32) -> Need
        requires kept { IsFor set.now self.old }
        requires running { self.old.stage ≡ Stage.Running }
        requires waits { self.old.machine.pc + 4 ≤ length self.old.machine.memory }
        ensures kept { IsFor set.now self.new }
        ensures start { self.new.start ≡ self.old.start }
        ensures serves { Serves set.now self.old (Write object at) self.new result }
    {
        let o = match self.place(set, object, at) {
            Ok(o) => o,
            Err(cause) => return self.end(Outcome::Trap(cause)),
        };
        self.words.take_from(o, &self.machine, at);
        self.written.add(o);
        self.machine.resume(None);
        Need::Went
    }

    /// Asks for a task, and gives its index among those of the attempt.
    pub(crate) fn spawn_task(&mut self, set: &TaskSet, program: u32, arg: u32) -> Need
        requires kept { IsFor set.now self.old }
        requires running { self.old.stage ≡ Stage.Running }
        requires waits { self.old.machine.pc + 4 ≤ length self.old.machine.memory }
        ensures kept { IsFor set.now self.new }
        ensures start { self.new.start ≡ self.old.start }
        ensures serves { Serves set.now self.old (AsksFor program arg) self.new result }
    {
        if program >= u32::from(set.programs()) {
            return self.end(Outcome::Trap(TrapCause::Program));
        }
        if self.has_spawned_all() {
            return self.end(Outcome::Trap(TrapCause::Spawns));
        }
        let index = self.spawns.len();
        self.spawns.push(Spawn {
            program: ProgId(program as u8),
            arg,
        });
        self.machine.resume(Some(index as u32));
        Need::Went
    }

    /// Whether it has spawned as many tasks as it may.
    fn has_spawned_all(&self) -> bool
        ensures { result ≡ nat_le MAX_SPAWNS (length self.now.spawns) }
    {
        self.spawns.len() >= MAX_SPAWNS
    }
}
