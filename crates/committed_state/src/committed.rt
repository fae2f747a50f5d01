//! The table of versions, the open tasks, and the state that the device holds, side by side.

ghost use Rattle.std.specs.Prelude.{◌≡◌, ◌+◌, ◌<◌, ◌≤◌, IfOk, ℕ, length};
ghost use Rattle.kernel_model.specs.Items.{FinishRecord};
ghost use Rattle.set_model.specs.Sets.{TaskSet};
ghost use Rattle.device_model.specs.IndexWords.{IsIndex};
ghost use Rattle.shadow_index.specs.States.{HasTaken, index_of};
ghost use Rattle.table_machine.specs.Events.{all_touched, reopened};
ghost use Rattle.committed_state.specs.Committed.{HasRooms, IsCommitted, IsFinishOf, MayJoin, chains_in};

use crate::joining::Joining;
use nv_base::limits::MAX_OBJECTS;
use nv_base::{NoMemory, Point, Spawn, TaskId};
use shadow_index::State;
use std::alloc::Global;
use std::mem::swap;
use task_queue::Queue;
use task_set::TaskSet;
use ver_table::Versions;
use ver_table::tabled::{finish_touches_object, finish_touches_table, opened_is_reopened};

/// What a kernel keeps of all finishes that have joined, with all the memory that it will need.
#[derive(Drop)]
pub struct Committed {
    /// Which slot holds which version of each object.
    pub versions: Versions,
    /// The open tasks.
    pub queue: Queue,
    /// The state that the device holds, but for a commit under way.
    pub state: State,
    /// Room for the state after a commit; in a boot, for the one that is read.
    pub after: State,
}

impl Committed {
    /// Room for a set, with nothing in it that means something. All memory is taken here; `NoMemory` where there is
    /// none.
    pub fn room(alloc: Global, set: &TaskSet) -> Result<Committed, NoMemory>
        ensures rooms { IfOk result (HasRooms set.now) }
        ensures state { IfOk result (λ c. HasTaken set.now 0 c.state) }
        ensures after { IfOk result (λ c. HasTaken set.now 0 c.after) }
    {
        let none = [0; MAX_OBJECTS as usize];
        let slots = &none[..usize::from(set.objects())];
        Ok(Committed {
            versions: Versions::open(alloc, set, slots, Point(0))?,
            queue: Queue::open(alloc, set, &[], TaskId(1))?,
            state: State::room(alloc, set)?,
            after: State::room(alloc, set)?,
        })
    }

    /// The state that was read becomes that of the device: each object has its newest version alone, begun at the clock.
    pub fn reopen(&mut self)
        requires { (set : TaskSet) × HasRooms set self.old × IsIndex set (index_of self.old.after) }
        ensures committed { (set : TaskSet) → HasRooms set self.old
            → IsIndex set (index_of self.old.after) → IsCommitted set self.new }
        ensures chains { (set : TaskSet) → HasRooms set self.old
            → IsIndex set (index_of self.old.after)
            → chains_in self.new ≡ reopened set (index_of self.old.after) }
        ensures state { self.new.state ≡ self.old.after }
        ensures after { self.new.after ≡ self.old.state }
    {
        swap(&mut self.state, &mut self.after);
        self.versions.reopen(&self.state.slots, self.state.clock);
        self.queue.reopen(&self.state.tasks, self.state.next);
        opened_is_reopened();
    }

    /// A finish joins, whose writes are all made: the state after it becomes that of the device, with this root. Its
    /// versions stand in the slots that this state names, its task is gone, and its children are open.
    pub fn join(&mut self, set: &TaskSet, finish: &Joining, spawns: &[Spawn], root: u32)
        requires committed { IsCommitted set.now self.old }
        requires may { MayJoin set.now finish.now spawns.now self.old }
        ensures committed { IsCommitted set.now self.new }
        ensures chains { (i : FinishRecord) → IsFinishOf finish.now i
            → chains_in self.new
            ≡ all_touched i self.old.after.slots.items 0 (chains_in self.old) }
        ensures state { self.new.state ≡ record self.old.after { root = root } }
        ensures after { self.new.after ≡ self.old.state }
    {
        finish.touch_all(&mut self.versions, &self.after.slots, set.objects());
        let Ok(_) = self.queue.finish(finish.task, spawns) else {
            unreachable!()
        };
        swap(&mut self.state, &mut self.after);
        self.state.root = root;
        finish_touches_object();
        finish_touches_table();
    }
}
