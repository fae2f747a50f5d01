//! A state that was read and reopened, a finish that joins, and what finishes make of a table, worked out by hand.

ghost use Rattle.std.specs.Prelude.{◌≡◌, ◌≢◌, ◌<◌, ◌++◌, ◌∷◌, [], IfOk, IfSome, IsTrue, None, length, map, true};
ghost use Rattle.object_sets.specs.ObjectSets.{is_among};
ghost use Rattle.kernel_model.specs.OpenTasks.{children, others_than};
ghost use Rattle.kernel_model.specs.Replay.{task_under};
ghost use Rattle.set_model.specs.Views.{spawn_of, task_of};
ghost use Rattle.device_model.specs.IndexWords.{IsIndex};
ghost use Rattle.shadow_index.specs.States.{HasRoom, HasTaken, index_of};
ghost use Rattle.ver_table.specs.Chains.{chain_at};
ghost use Rattle.committed_state.specs.Committed.{IsCommitted, MayJoin};
ghost use Rattle.committed_state.specs.Joining.{IsFreeAt};

use super::*;
use device_model::index_words::faultless_words_are_index;
use nv_base::limits::MAX_OBJECTS;
use nv_base::{NoMemory, ObjId, ObjSet, Point, ProgId, Spawn, TaskId, TaskRec};
use shadow_index::State;
use shadow_index::laws::taken_words_are_index;
use std::test::Fail;
use task_set::{
    Name, ObjPart, ObjectParts, ProgPart, ProgramParts, SetParts, TaskSet, Tasks, Words,
};
use ver_table::Versions;

const X: ObjId = ObjId(0);

const Y: ObjId = ObjId(1);

fn object(rt: &HostRuntime, name: &[u8]) -> Result<ObjPart, NoMemory> {
    Ok(ObjPart {
        name: Name::from_slice(rt.alloc(), name)?,
        size: 1,
        slots: 2,
        first: Words::from_slice(rt.alloc(), &[5])?,
    })
}

// x and y with slots for two versions, a program, and three records
fn small_set(rt: &HostRuntime) -> Result<Option<TaskSet>, NoMemory> {
    let mut objects = ObjectParts::new(rt.alloc());
    objects.push(object(rt, b"x")?)?;
    objects.push(object(rt, b"y")?)?;
    let mut programs = ProgramParts::new(rt.alloc());
    programs.push(ProgPart {
        name: Name::from_slice(rt.alloc(), b"p")?,
        fuel: 1,
        code: Words::from_slice(rt.alloc(), &[0x0000_006f])?,
    })?;
    let parts = SetParts {
        format: 1,
        cores: 2,
        memory: 1024,
        records: 3,
        objects,
        programs,
        tasks: Tasks::new(rt.alloc()),
    };
    Ok(TaskSet::build(rt.alloc(), parts).ok())
}

// reads a state from index words: whether these are all, and none of them is faulty
fn is_read(into: &mut State, set: &TaskSet, words: &[u32; 20]) -> bool
    requires { HasTaken set.now 0 into.old }
    ensures index { IsTrue result → IsIndex set.now (index_of into.new) }
    ensures room { HasRoom set.now into.new }
{
    if set.objects() != 2 || set.records() != 3 {
        return false;
    }
    for i in 0..20 {
        if !into.take(set, i, words[i as usize]) {
            return false;
        }
    }
    taken_words_are_index();
    faultless_words_are_index();
    true
}

// what is kept of a device with these index words
fn reopened(
    rt: &HostRuntime,
    set: &TaskSet,
    words: &[u32; 20],
) -> Result<Option<Committed>, NoMemory>
    ensures { IfOk result (λ o. IfSome o (IsCommitted set.now)) }
{
    let mut kept = Committed::room(rt.alloc(), set)?;
    if !is_read(&mut kept.after, set, words) {
        return Ok(None);
    }
    kept.reopen();
    Ok(Some(kept))
}

// the greatest point that touched an object, and the least slot without its newest version
fn seen(versions: &Versions, o: ObjId) -> Option<(u32, Option<u8>)> {
    if versions.objects() <= o.0 {
        return None;
    }
    Some((versions.bound(o).0, versions.free_slot(o, &[], &[])))
}

// After six finishes: task 3 ended last with 9, at point 5, and had two children, 7 and 8. Tasks 4 and 8 are open; x
// stands in slot 1.
const WORDS: [u32; 20] = [5, 6, 9, 3, 5, 0, 9, 7, 2, 1, 0, 4, 0, 11, 8, 0, 12, 0, 0, 0];

#[test]
fn a_state_that_was_read_is_reopened(rt: HostRuntime) -> Result<(), Fail> {
    let Some(set) = small_set(&rt)? else {
        return Err(Fail::new("the set is within its limits"));
    };
    let Some(kept) = reopened(&rt, &set, &WORDS)? else {
        return Err(Fail::new("no word is faulty"));
    };
    assert!(rt; seen(&kept.versions, X) == Some((5, Some(0))));
    assert!(rt; seen(&kept.versions, Y) == Some((5, Some(1))));
    let task = |id: u32, arg: u32| TaskRec {
        id: TaskId(id),
        program: ProgId(0),
        arg,
    };
    assert!(rt; kept.queue.open_tasks() == [task(4, 11), task(8, 12)].as_slice());
    assert!(rt; kept.queue.next() == TaskId(9) && kept.state.clock == Point(5));
    assert!(rt; kept.after.clock == Point(0) && kept.after.tasks.len() == 0);
    Ok(())
}

// what a finish makes of both objects, each with one version in slot 0, begun at 4: what it writes goes to slot 1
fn touched(
    rt: &HostRuntime,
    set: &TaskSet,
    finish: &Joining,
) -> Result<Option<Versions>, NoMemory> {
    if set.objects() != 2 || set.slots(X) != 2 || set.slots(Y) != 2 || finish.point.0 < 4 {
        return Ok(None);
    }
    let mut versions = Versions::open(rt.alloc(), set, &[0, 0], Point(4))?;
    finish.touch_all(&mut versions, &[1, 1], 2);
    Ok(Some(versions))
}

#[test]
fn a_finish_touches_what_it_reads_and_writes(rt: HostRuntime) -> Result<(), Fail> {
    let Some(set) = small_set(&rt)? else {
        return Err(Fail::new("the set is within its limits"));
    };
    // whether the finish reads x and writes it, and what is seen of x then
    for (reads, writes, x) in [
        (false, false, (4, Some(1))),
        (true, false, (7, Some(1))),
        (false, true, (7, Some(0))),
        (true, true, (7, Some(0))),
    ] {
        let mut finish = Joining {
            task: TaskId(4),
            point: Point(7),
            reads: ObjSet::empty(),
            written: ObjSet::empty(),
        };
        if reads {
            finish.reads.add(X);
        }
        if writes {
            finish.written.add(X);
        }
        let Some(versions) = touched(&rt, &set, &finish)? else {
            return Err(Fail::new("both objects have slots for two versions"));
        };
        assert!(rt; seen(&versions, X) == Some(x));
        assert!(rt; seen(&versions, Y) == Some((4, Some(1))));
    }
    Ok(())
}

// whether the slot is the least free one of an object, if the finish writes it
fn is_free(finish: &Joining, versions: &Versions, o: ObjId, slot: u8) -> bool
    requires inside { o.0 < length versions.now }
    requires few { o.0 < MAX_OBJECTS }
    ensures { IsTrue result → is_among o.0 finish.now.written ≡ true
        → IsFreeAt slot finish.now.point.0 (chain_at versions.now o.0) }
{
    if !finish.written.has(o) {
        return true;
    }
    if versions.bound(o).0 > finish.point.0 {
        return false;
    }
    match versions.free_slot(o, &[], &[]) {
        None => false,
        Some(free) => free == slot,
    }
}

// whether the only open task is this one, and the only one behind it is its child
fn is_followed(
    before: &[TaskRec],
    task: TaskId,
    next: TaskId,
    spawn: Spawn,
    after: &[TaskRec],
) -> bool
    ensures open { IsTrue result → task_under (map task_of before.now) task.0 ≢ None }
    ensures tasks { let others = others_than task.0 (map task_of before.now) in
        IsTrue result → map task_of after.now ≡ others ++ children next.0 (spawn_of spawn ∷ []) }
{
    let [open] = before else {
        return false;
    };
    let [child] = after else {
        return false;
    };
    if open.id.0 != task.0 || child.id.0 != next.0 {
        return false;
    }
    child.program.0 == spawn.program.0 && child.arg == spawn.arg
}

// whether the finish may join, with one child
fn may_join(kept: &Committed, set: &TaskSet, finish: &Joining, spawn: Spawn) -> bool
    requires committed { IsCommitted set.now kept.now }
    requires after { IsIndex set.now (index_of kept.now.after) }
    ensures { IsTrue result → MayJoin set.now finish.now (spawn ∷ []) kept.now }
{
    let before = &kept.state;
    let after = &kept.after;
    if set.objects() != 2 || kept.versions.objects() != 2 || before.next.0 == u32::MAX {
        return false;
    }
    if after.next.0 != before.next.0 + 1 || !kept.queue.room_for(1) {
        return false;
    }
    if !is_followed(&before.tasks, finish.task, before.next, spawn, &after.tasks) {
        return false;
    }
    if after.slots.len() != 2 || !is_free(finish, &kept.versions, X, after.slots[0]) {
        return false;
    }
    is_free(finish, &kept.versions, Y, after.slots[1])
}

// Task 4 alone is open. Then it has finished with 1, at point 6, and has left one child; y stands in slot 1, too.
const ALONE: [u32; 20] = [5, 6, 9, 3, 5, 0, 9, 7, 1, 1, 0, 4, 0, 11, 0, 0, 0, 0, 0, 0];

const JOINED: [u32; 20] = [6, 7, 10, 4, 6, 0, 1, 9, 1, 1, 1, 9, 0, 13, 0, 0, 0, 0, 0, 0];

#[test]
fn a_finish_joins(rt: HostRuntime) -> Result<(), Fail> {
    let Some(set) = small_set(&rt)? else {
        return Err(Fail::new("the set is within its limits"));
    };
    let Some(mut kept) = reopened(&rt, &set, &ALONE)? else {
        return Err(Fail::new("no word is faulty"));
    };
    if !is_read(&mut kept.after, &set, &JOINED) {
        return Err(Fail::new("no word is faulty"));
    }
    let mut finish = Joining {
        task: TaskId(4),
        point: Point(6),
        reads: ObjSet::empty(),
        written: ObjSet::empty(),
    };
    finish.reads.add(X);
    finish.written.add(Y);
    let child = Spawn {
        program: ProgId(0),
        arg: 13,
    };
    if !may_join(&kept, &set, &finish, child) {
        return Err(Fail::new("nothing is in the way"));
    }
    kept.join(&set, &finish, &[child], 2);
    assert!(rt; seen(&kept.versions, X) == Some((6, Some(0))));
    assert!(rt; seen(&kept.versions, Y) == Some((6, Some(0))));
    let open = TaskRec {
        id: TaskId(9),
        program: ProgId(0),
        arg: 13,
    };
    assert!(rt; kept.queue.open_tasks() == [open].as_slice());
    assert!(rt; kept.state.clock == Point(6) && kept.state.root == 2);
    assert!(rt; kept.after.clock == Point(5));
    Ok(())
}
