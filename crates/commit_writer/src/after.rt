//! The state after a finish, in room that was taken before.

ghost use Rattle.std.specs.Prelude.{◌≡◌, ◌<◌, ◌≤◌, ◌+◌, ◌^◌, ◌++◌, max, length, map, slice_index, vec_capacity, if◌then◌else◌};
ghost use Rattle.object_sets.specs.ObjectSets.{is_among};
ghost use Rattle.kernel_model.specs.Items.{FinishRecord};
ghost use Rattle.kernel_model.specs.OpenTasks.{children, others_than};
ghost use Rattle.set_model.specs.Views.{spawn_of, task_of};
ghost use Rattle.shadow_index.specs.States.{HasRoom, KeepsRest};
ghost use Rattle.commit_writer.specs.Afters.{IsAfter, IsGranted, planned_slots};
ghost use Rattle.commit_writer.specs.Rooms.{IsStateOf};

use nv_base::limits::MAX_OBJECTS;
use nv_base::{ObjId, Point, Spawn, TaskId, TaskRec};
use shadow_index::{Plan, State};
use task_set::TaskSet;

/// Makes a state the one after a plan's finish: its clock, its numbers and its last finish, the new slot of each
/// object that the plan writes, all tasks but the finished one, and then the spawned ones under the ids from its first
/// one on. What stood in `after` is dropped but for its room. The boots and the shift are those before, and so is the
/// root, until the commit is whole.
pub fn finish_into(set: &TaskSet, before: &State, plan: &Plan, spawns: &[Spawn], after: &mut State)
    requires before { IsStateOf set.now before.now }
    requires room { HasRoom set.now after.old }
    requires records { let others = others_than plan.now.granted.task.0
        (map task_of before.now.tasks.items) in
        length others + length spawns.now ≤ set.now.records }
    requires number { plan.now.granted.number.0 ≡ before.now.number.0 + 1 }
    requires first { plan.now.granted.first.0 ≡ before.now.next.0 }
    requires ids { before.now.next.0 + length spawns.now < 2 ^ 32 }
    ensures index { (i : FinishRecord) → IsGranted plan.now spawns.now i
        → IsAfter plan.now before.now i after.new }
    ensures state { IsStateOf set.now after.new }
    ensures room { HasRoom set.now after.new }
    ensures rest { KeepsRest before.now after.new }
{
    let granted = plan.granted;
    after.clock = later(granted.point, before.clock);
    after.number = granted.number;
    after.next = TaskId(before.next.0 + spawns.len() as u32);
    after.last = Some(granted);
    put_slots(&mut after.slots, &before.slots, plan, set.objects());
    keep_others(&mut after.tasks, &before.tasks, granted.task);
    add_children(&mut after.tasks, granted.first, spawns);
    after.boots = before.boots;
    after.root = before.root;
    after.shift = before.shift;
}

// The later of two points.
fn later(point: Point, clock: Point) -> Point
    ensures { result.0 ≡ max point.0 clock.0 }
{
    if point.0 > clock.0 { point } else { clock }
}

// The slots after a plan.
fn put_slots(after: &mut Vec<u8>, before: &[u8], plan: &Plan, count: u8)
    requires before { length before.now ≡ count }
    requires same { length after.old.items ≡ count }
    requires few { count ≤ MAX_OBJECTS }
    ensures { after.new.items ≡ planned_slots plan.now before.now }
{
    after.clear();
    for o in 0..count {
        after.push_reserved(slot_after(plan, ObjId(o), before[usize::from(o)]));
    }
}

// The slot of an object after a plan.
fn slot_after(plan: &Plan, o: ObjId, before: u8) -> u8
    requires { o.0 < MAX_OBJECTS }
    ensures { result
        ≡ (if is_among o.0 plan.now.written then slice_index plan.now.slots o.0 else before) }
{
    if plan.written.has(o) {
        plan.slots[usize::from(o.0)]
    } else {
        before
    }
}

// All tasks but one.
fn keep_others(after: &mut Vec<TaskRec>, before: &[TaskRec], task: TaskId)
    requires { length before.now ≤ vec_capacity after.old }
    ensures kept { map task_of after.new.items ≡ others_than task.0 (map task_of before.now) }
    ensures room { vec_capacity after.new ≡ vec_capacity after.old }
{
    after.clear();
    for open in before {
        if open.id.0 != task.0 {
            after.push_reserved(*open);
        }
    }
}

/// Adds the spawned tasks under the ids from the first one on.
pub(crate) fn add_children(tasks: &mut Vec<TaskRec>, first: TaskId, spawns: &[Spawn])
    requires room { length tasks.old.items + length spawns.now ≤ vec_capacity tasks.old }
    requires ids { first.0 + length spawns.now < 2 ^ 32 }
    ensures added { map task_of tasks.new.items
        ≡ map task_of tasks.old.items ++ children first.0 (map spawn_of spawns.now) }
    ensures room { vec_capacity tasks.new ≡ vec_capacity tasks.old }
{
    let mut id = first.0;
    for spawn in spawns {
        tasks.push_reserved(TaskRec {
            id: TaskId(id),
            program: spawn.program,
            arg: spawn.arg,
        });
        id += 1;
    }
}
