//! How far a run has come, and what its services make of it.

ghost use Rattle.std.specs.Prelude.{◌≡◌, ◌+◌, ◌*◌, ◌<◌, ◌≤◌, IfOk, OnOk, Some, ℕ, length};
ghost use Rattle.std.specs.Result.{result_err};
ghost use Rattle.rv_core.specs.State.{Calls};
ghost use Rattle.rv_core.specs.Machine.{service_of, step_of, IsPlace, Keeps};
ghost use Rattle.rv_core.specs.declared.services.Service.TheVariants.{Read, ReadPart, Write, WritePart, Spawn as AsksFor};
ghost use Rattle.kernel_model.specs.Effects.{object_words};
ghost use Rattle.set_model.specs.Sets.{TaskSet};
ghost use Rattle.task_model.specs.TaskSteps.{part_refusal, refusal};
ghost use Rattle.task_model.specs.Shape.{HasShape};
ghost use Rattle.task_model.specs.Progress.{HasBegun, Turns, reads_noted};

use crate::objects::Objects;
use crate::part::{Part, give, give_words};
use crate::spawns::{MAX_SPAWNS, Spawns};
use nv_base::limits::MAX_OBJECTS;
use nv_base::{NoMemory, ObjId, ObjSet, Outcome, ProgId, Spawn, TrapCause};
use rv_core::{Machine, Service, Step};
use std::alloc::Global;

/// How far a run has come, with all the room that it will need.
#[derive(Drop)]
pub(crate) struct Progress {
    // the objects as the task sees them
    pub(crate) values: Objects,
    pub(crate) reads: ObjSet,
    pub(crate) written: ObjSet,
    pub(crate) spawns: Spawns,
}

impl Progress {
    /// Nothing is done yet. All room is taken here.
    pub(crate) fn begin(alloc: Global, objects: &Objects) -> Result<Progress, NoMemory>
        ensures { IfOk result (λ p. HasBegun p objects.now) }
    {
        Ok(Progress {
            values: objects.copy(alloc)?,
            reads: ObjSet::empty(),
            written: ObjSet::empty(),
            spawns: Spawns::with_room(alloc)?,
        })
    }

    /// One step of the machine, with the service that it calls: how the run ends, if it does.
    pub(crate) fn turn(&mut self, machine: &mut Machine, programs: u8) -> Option<Outcome>
        requires { machine.old.count < machine.old.fuel }
        ensures turns { Turns programs self.old (step_of machine.old) result machine.new self.new }
        ensures count { machine.new.count ≡ machine.old.count + 1 }
        ensures fuel { machine.new.fuel ≡ machine.old.fuel }
        ensures room { length machine.new.memory ≡ length machine.old.memory }
    {
        match machine.step() {
            Step::Went => None,
            Step::Trap(cause) => Some(Outcome::Trap(cause)),
            Step::Call(Service::Finish { code }) => Some(Outcome::Exit(code)),
            Step::Call(Service::Read { object, at }) => self.read_object(machine, object, at),
            Step::Call(Service::Write { object, at }) => self.write_object(machine, object, at),
            Step::Call(Service::Spawn { program, arg }) => {
                self.spawn_task(machine, programs, program, arg)
            }
            Step::Call(
                Service::ReadPart {
                    object,
                    at,
                    first,
                    count,
                },
            ) => self.read_part(machine, object, Part { at, first, count }),
            Step::Call(
                Service::WritePart {
                    object,
                    at,
                    first,
                    count,
                },
            ) => self.write_part(machine, object, Part { at, first, count }),
        }
    }

    /// The tests of a READ or a WRITE, in order: Object, CallAlign, CallRange.
    fn place(&self, machine: &Machine, object: u32, at: u32) -> Result<ObjId, TrapCause>
        ensures refusal { (set : TaskSet) → HasShape set self.now.values
            → result_err result ≡ refusal set machine.now object at }
        ensures object { IfOk result (λ o. o.0 ≡ object) }
        ensures inside { OnOk result (object < length self.now.values) }
        ensures few { OnOk result (object < MAX_OBJECTS) }
        ensures place { let size = length (object_words self.now.values object) in
            OnOk result (IsPlace machine.now at size) }
    {
        if object as usize >= self.values.len() {
            return Err(TrapCause::Object);
        }
        let o = ObjId(object as u8);
        machine.fits(at, self.values.get(o).len() as u32)?;
        Ok(o)
    }

    /// The tests of a READPART or a WRITEPART, in order: Object, CallRange, CallAlign, CallRange.
    fn place_part(&self, machine: &Machine, object: u32, part: Part) -> Result<ObjId, TrapCause>
        ensures refusal { (set : TaskSet) → HasShape set self.now.values
            → result_err result
            ≡ part_refusal set machine.now object part.at part.first part.count }
        ensures object { IfOk result (λ o. o.0 ≡ object) }
        ensures inside { OnOk result (object < length self.now.values) }
        ensures few { OnOk result (object < MAX_OBJECTS) }
        ensures range { let size = length (object_words self.now.values object) in
            OnOk result (part.first + part.count ≤ size) }
        ensures place { OnOk result (IsPlace machine.now part.at part.count) }
    {
        if self.values.len() <= object as usize {
            return Err(TrapCause::Object);
        }
        let o = ObjId(object as u8);
        let end = part.first as u64 + part.count as u64;
        if part.count == 0 || end > self.values.get(o).len() as u64 {
            return Err(TrapCause::CallRange);
        }
        machine.fits(part.at, part.count)?;
        Ok(o)
    }

    /// The objects read from outside, with this one, unless the task wrote it.
    fn reads_with(&self, object: ObjId) -> ObjSet
        requires { object.0 < MAX_OBJECTS }
        ensures { result ≡ reads_noted self.now object.0 }
    {
        let mut reads = self.reads;
        if !self.written.has(object) {
            reads.add(object);
        }
        reads
    }

    /// Gives some of the object's words as the task sees them.
    fn read_part(&mut self, machine: &mut Machine, object: u32, part: Part) -> Option<Outcome>
        requires called { service_of machine.old
            ≡ Some (ReadPart object part.at part.first part.count) }
        requires waits { machine.old.pc + 4 ≤ length machine.old.memory }
        ensures turns { let service = ReadPart object part.at part.first part.count in
            let call = Calls machine.old service in
            (programs : ℕ) → Turns programs self.old call result machine.new self.new }
        ensures kept { Keeps machine.old machine.new }
    {
        let o = match self.place_part(machine, object, part) {
            Ok(o) => o,
            Err(cause) => return Some(Outcome::Trap(cause)),
        };
        give(machine, part, self.values.get(o));
        self.reads = self.reads_with(o);
        None
    }

    /// The words at the address take the place of some of the object's, as the task sees it.
    fn write_part(&mut self, machine: &mut Machine, object: u32, part: Part) -> Option<Outcome>
        requires called { service_of machine.old
            ≡ Some (WritePart object part.at part.first part.count) }
        requires waits { machine.old.pc + 4 ≤ length machine.old.memory }
        ensures turns { let service = WritePart object part.at part.first part.count in
            let call = Calls machine.old service in
            (programs : ℕ) → Turns programs self.old call result machine.new self.new }
        ensures kept { Keeps machine.old machine.new }
    {
        let o = match self.place_part(machine, object, part) {
            Ok(o) => o,
            Err(cause) => return Some(Outcome::Trap(cause)),
        };
        let reads = self.reads_with(o);
        self.reads = reads;
        self.values.take_part(o, part, machine);
        self.written.add(o);
        machine.resume(None);
        None
    }

    /// Gives the object's words as the task sees them. They are read from outside, unless the task wrote them.
    fn read_object(&mut self, machine: &mut Machine, object: u32, at: u32) -> Option<Outcome>
        requires called { service_of machine.old ≡ Some (Read object at) }
        requires waits { machine.old.pc + 4 ≤ length machine.old.memory }
        ensures turns { let call = Calls machine.old (Read object at) in
            (programs : ℕ) → Turns programs self.old call result machine.new self.new }
        ensures kept { Keeps machine.old machine.new }
    {
        let object = match self.place(machine, object, at) {
            Ok(object) => object,
            Err(cause) => return Some(Outcome::Trap(cause)),
        };
        give_words(machine, at, self.values.get(object));
        machine.resume(None);
        self.reads = self.reads_with(object);
        None
    }

    /// The words at the address become the object's, as the task sees it.
    fn write_object(&mut self, machine: &mut Machine, object: u32, at: u32) -> Option<Outcome>
        requires { machine.old.pc + 4 ≤ length machine.old.memory }
        ensures turns { let call = Calls machine.old (Write object at) in
            (programs : ℕ) → Turns programs self.old call result machine.new self.new }
        ensures kept { Keeps machine.old machine.new }
    {
        let object = match self.place(machine, object, at) {
            Ok(object) => object,
            Err(cause) => return Some(Outcome::Trap(cause)),
        };
        self.values.take_from(object, machine, at);
        machine.resume(None);
        self.written.add(object);
        None
    }

    /// Asks for a task, and gives its index among those that the run asked for.
    fn spawn_task(
        &mut self,
        machine: &mut Machine,
        programs: u8,
        program: u32,
        arg: u32,
    ) -> Option<Outcome>
        requires { machine.old.pc + 4 ≤ length machine.old.memory }
        ensures turns { let call = Calls machine.old (AsksFor program arg) in
            Turns programs self.old call result machine.new self.new }
        ensures kept { Keeps machine.old machine.new }
    {
        if program >= programs as u32 {
            return Some(Outcome::Trap(TrapCause::Program));
        }
        let index = self.spawns.len();
        if index >= MAX_SPAWNS {
            return Some(Outcome::Trap(TrapCause::Spawns));
        }
        self.spawns.push(Spawn {
            program: ProgId(program as u8),
            arg,
        });
        machine.resume(Some(index as u32));
        None
    }
}
