//! One turn of an attempt that runs.

ghost use Rattle.std.specs.Prelude.{◌≡◌, ◌≤◌, ◌+◌, IsTrue, [], Some, false, length};
ghost use Rattle.rv_core.specs.State.{MachineState, Next};
ghost use Rattle.rv_core.specs.Machine.{service_of, step_of};
ghost use Rattle.rv_core.specs.declared.services.Service.{Service};
ghost use Rattle.set_model.specs.Sets.{TaskSet};
ghost use Rattle.vol_copy.specs.Tries.{IsFor};
ghost use Rattle.vol_copy.specs.Received.{ended_so};
ghost use Rattle.vol_copy.specs.Turns.{Advances, IsInNeed, Serves};

use crate::attempt::{Attempt, Stage};
use crate::want::Want;
use nv_base::{ObjId, ObjSet, Outcome};
use rv_core::{Service, Step};
use task_model::Part;
use task_set::TaskSet;

/// What an attempt needs after a turn.
#[derive(Clone, Copy, PartialEq, Eq, Debug)]
pub enum Need {
    /// Nothing: it runs on.
    Went,
    /// A version of this object, whose words come next.
    Fetch(ObjId),
    /// A verdict: it has ended.
    Ready,
}

impl Attempt {
    /// One step of the running machine, with the service that it calls. It takes no memory.
    pub fn advance(&mut self, set: &TaskSet) -> Need
        requires kept { IsFor set.now self.old }
        requires running { self.old.stage ≡ Stage.Running }
        ensures kept { IsFor set.now self.new }
        ensures stage { IsInNeed self.new result }
        ensures start { self.new.start ≡ self.old.start }
        ensures advances { Advances set.now self.old self.new result }
    {
        match self.machine.step() {
            Step::Went => Need::Went,
            Step::Trap(cause) => self.end(Outcome::Trap(cause)),
            Step::Call(service) => self.serve(set, service),
        }
    }

    /// One step of the machine, where the attempt runs and runs on behind it. Else nothing has changed, and the turn is
    /// that of another call. It takes no memory, and asks nothing of the set.
    #[inline(always)]
    pub fn go(&mut self) -> bool
        ensures rests { result ≡ false → self.new ≡ self.old }
        ensures stops { result ≡ false → self.old.stage ≡ Stage.Running
            → (s : MachineState) → step_of self.old.machine ≡ Next s → ⊥ }
        ensures running { IsTrue result → (self.old.stage ≡ Stage.Running)
            × (self.new.stage ≡ Stage.Running) }
        ensures kept { (set : TaskSet) → IsFor set self.old → IsFor set self.new }
        ensures start { self.new.start ≡ self.old.start }
        ensures advances { IsTrue result
            → (set : TaskSet) → Advances set self.old self.new Need.Went }
    {
        if !self.is_running() {
            return false;
        }
        self.machine.go()
    }

    /// The service that the machine waits on.
    fn serve(&mut self, set: &TaskSet, service: Service) -> Need
        requires kept { IsFor set.now self.old }
        requires running { self.old.stage ≡ Stage.Running }
        requires called { service_of self.old.machine ≡ Some service }
        requires waits { self.old.machine.pc + 4 ≤ length self.old.machine.memory }
        ensures kept { IsFor set.now self.new }
        ensures start { self.new.start ≡ self.old.start }
        ensures serves { Serves set.now self.old service self.new result }
    {
        match service {
            Service::Finish { code } => self.end(Outcome::Exit(code)),
            Service::Read { object, at } => self.read_object(set, object, at),
            Service::Write { object, at } => self.write_object(set, object, at),
            Service::Spawn { program, arg } => self.spawn_task(set, program, arg),
            Service::ReadPart {
                object,
                at,
                first,
                count,
            } => self.read_or_write_part(set, object, Want::Give(Part { at, first, count })),
            Service::WritePart {
                object,
                at,
                first,
                count,
            } => self.read_or_write_part(set, object, Want::Take(Part { at, first, count })),
        }
    }

    /// The attempt ends. A trap keeps no writes and no spawns.
    pub(crate) fn end(&mut self, outcome: Outcome) -> Need
        ensures exact { self.new ≡ ended_so self.old outcome }
        ensures answer { result ≡ Need.Ready }
    {
        if let Outcome::Trap(_) = outcome {
            self.drop_effects();
        }
        self.stage = Stage::Ready(outcome);
        Need::Ready
    }

    /// A trap leaves no writes and no spawns.
    fn drop_effects(&mut self)
        ensures { self.new ≡ record self.old { written = []; spawns = [] } }
    {
        self.written = ObjSet::empty();
        self.spawns.clear();
    }
}
