//! Worked rows of the verdicts, each on three objects of two slots whose versions begin at 0. The tasks have the ids from
//! 2 on, in order.

use beside_plain::{Pair, Told};
use nv_base::NoMemory;
use plain_history::{Answer, Start};
use std::alloc::Global;
use std::test::Fail;

const X: u32 = 1;

const Y: u32 = 2;

const Z: u32 = 4;

const XYZ: u32 = 7;

// no slot, since the object is not written
const NO: u8 = 255;

// the argument of a task that reads and writes these objects and spawns so many tasks
fn does(reads: u32, writes: u32, spawns: u32) -> u32 {
    (reads | writes << 3 | spawns << 6) << 16
}

// the answer to a core: its finish, with the slots of the objects
fn grants(core: u8, point: u32, number: u32, first: u32, slots: [u8; 3]) -> (u8, Told) {
    let granted = Answer::Granted {
        point,
        number,
        first,
        slots,
    };
    (core, Told::Asked(granted))
}

fn refuses(core: u8, answer: Answer) -> (u8, Told) {
    (core, Told::Asked(answer))
}

fn begins(core: u8, task: u32) -> (u8, Told) {
    (core, Told::Began(task))
}

// the newest version
fn reads(core: u8, slot: u8, begin: u32) -> (u8, Told) {
    let newest = true;
    (
        core,
        Told::Reads {
            slot,
            begin,
            newest,
        },
    )
}

fn reads_older(core: u8, slot: u8, begin: u32) -> (u8, Told) {
    let newest = false;
    (
        core,
        Told::Reads {
            slot,
            begin,
            newest,
        },
    )
}

fn copied(core: u8) -> (u8, Told) {
    (core, Told::Copied)
}

// whether a core tells this at its step, and tables and plain program agree then
fn tells(alloc: Global, pair: &mut Pair, core: u8, expected: Told) -> Result<bool, NoMemory> {
    let Some(told) = pair.step(alloc, core)? else {
        return Ok(false);
    };
    Ok(told == expected && pair.agree())
}

// whether they do so at each step
fn tell(alloc: Global, pair: &mut Pair, steps: &[(u8, Told)]) -> Result<bool, NoMemory> {
    for step in steps {
        if !tells(alloc, pair, step.0, step.1)? {
            return Ok(false);
        }
    }
    Ok(pair.is_serial())
}

// whether these tasks make these steps
fn makes(alloc: Global, records: u8, args: &[u32], steps: &[(u8, Told)]) -> Result<bool, NoMemory> {
    let start = Start {
        slots: [2, 2, 2],
        records,
        clock: 0,
    };
    let Some(mut pair) = Pair::opened(alloc, start, args)? else {
        return Ok(false);
    };
    tell(alloc, &mut pair, steps)
}

#[test]
fn points_go_by_interval_and_not_by_number_alone(rt: HostRuntime) -> Result<(), Fail> {
    let tasks = [does(X, Y, 0), does(0, X, 0)];
    let steps = [
        begins(0, 2),
        reads(0, 0, 0),
        copied(0),
        begins(1, 3),
        grants(1, 1, 1, 4, [1, NO, NO]),
        grants(0, 0, 2, 4, [NO, 1, NO]),
        (0, Told::Nothing),
    ];
    assert!(rt; makes(rt.alloc(), 8, &tasks, &steps)?);
    Ok(())
}

#[test]
fn an_earlier_reader_of_a_written_object_raises_the_lower_end(rt: HostRuntime) -> Result<(), Fail> {
    let tasks = [does(X, Y, 0), does(Y, X, 0)];
    let steps = [
        begins(0, 2),
        reads(0, 0, 0),
        copied(0),
        begins(1, 3),
        reads(1, 0, 0),
        copied(1),
        grants(0, 1, 1, 4, [NO, 1, NO]),
        refuses(1, Answer::Empty { lo: 1, hi: 1 }),
        begins(1, 3),
        reads(1, 1, 1),
        copied(1),
        grants(1, 2, 2, 4, [1, NO, NO]),
    ];
    assert!(rt; makes(rt.alloc(), 8, &tasks, &steps)?);
    Ok(())
}

#[test]
fn an_older_version_is_read(rt: HostRuntime) -> Result<(), Fail> {
    let tasks = [does(X | Y, 0, 0), does(0, XYZ, 0)];
    let steps = [
        begins(0, 2),
        reads(0, 0, 0),
        copied(0),
        begins(1, 3),
        grants(1, 1, 1, 4, [1, 1, 1]),
        reads_older(0, 0, 0),
        copied(0),
        grants(0, 0, 2, 4, [NO, NO, NO]),
    ];
    assert!(rt; makes(rt.alloc(), 8, &tasks, &steps)?);
    Ok(())
}

#[test]
fn a_finish_in_the_past_leaves_no_point_to_those_that_read_what_it_writes(
    rt: HostRuntime,
) -> Result<(), Fail> {
    let tasks = [does(X, Y, 0), does(0, X, 0), does(Y | Z, 0, 0)];
    let steps = [
        begins(0, 2),
        reads(0, 0, 0),
        copied(0),
        begins(1, 3),
        grants(1, 1, 1, 5, [1, NO, NO]),
        begins(1, 4),
        reads(1, 0, 0),
        copied(1),
        grants(0, 0, 2, 5, [NO, 1, NO]),
        (1, Told::Stale { lo: 1, hi: 0 }),
        begins(1, 4),
        reads(1, 1, 0),
        copied(1),
        reads(1, 0, 0),
        copied(1),
        grants(1, 1, 3, 5, [NO, NO, NO]),
    ];
    assert!(rt; makes(rt.alloc(), 8, &tasks, &steps)?);
    Ok(())
}

#[test]
fn none_is_empty_because_another_finish_came(rt: HostRuntime) -> Result<(), Fail> {
    let tasks = [does(X, Y, 0), does(X, Z, 0), does(0, Y, 0)];
    let steps = [
        begins(0, 2),
        reads(0, 0, 0),
        copied(0),
        begins(1, 3),
        reads(1, 0, 0),
        copied(1),
        begins(2, 4),
        grants(1, 1, 1, 5, [NO, NO, 1]),
        grants(2, 2, 2, 5, [NO, 1, NO]),
        grants(0, 3, 3, 5, [NO, 0, NO]),
    ];
    assert!(rt; makes(rt.alloc(), 8, &tasks, &steps)?);
    Ok(())
}

#[test]
fn no_slot_is_missed_while_nobody_needs_what_fills_them(rt: HostRuntime) -> Result<(), Fail> {
    let tasks = [does(0, X, 0), does(0, X, 0), does(0, X, 0), does(0, X, 0)];
    let steps = [
        begins(0, 2),
        grants(0, 1, 1, 6, [1, NO, NO]),
        begins(0, 3),
        grants(0, 2, 2, 6, [0, NO, NO]),
        begins(1, 4),
        begins(0, 5),
        grants(0, 3, 3, 6, [1, NO, NO]),
        grants(1, 4, 4, 6, [0, NO, NO]),
    ];
    assert!(rt; makes(rt.alloc(), 8, &tasks, &steps)?);
    Ok(())
}

#[test]
fn slots_are_missed_while_a_version_is_needed(rt: HostRuntime) -> Result<(), Fail> {
    let tasks = [does(X | Y, 0, 0), does(0, X | Y, 0), does(0, Y, 0)];
    let steps = [
        begins(0, 2),
        reads(0, 0, 0),
        copied(0),
        begins(1, 3),
        grants(1, 1, 1, 5, [1, 1, NO]),
        begins(1, 4),
        refuses(1, Answer::Slots(1)),
        begins(1, 4),
        reads_older(0, 0, 0),
        copied(0),
        grants(0, 0, 2, 5, [NO, NO, NO]),
        grants(1, 2, 3, 5, [NO, 0, NO]),
    ];
    assert!(rt; makes(rt.alloc(), 8, &tasks, &steps)?);
    Ok(())
}

#[test]
fn records_count_the_tasks_behind_the_finish(rt: HostRuntime) -> Result<(), Fail> {
    let tasks = [does(0, X, 1), does(0, X, 2), does(0, X, 0)];
    let two = Answer::Records {
        pending: 3,
        spawns: 2,
    };
    let steps = [
        begins(0, 2),
        begins(1, 3),
        refuses(1, two),
        grants(0, 1, 1, 5, [1, NO, NO]),
        begins(0, 3),
        refuses(0, two),
        begins(1, 3),
        begins(0, 4),
        grants(0, 2, 2, 6, [0, NO, NO]),
        grants(1, 3, 3, 6, [1, NO, NO]),
        begins(0, 5),
        begins(1, 6),
        begins(2, 7),
        (3, Told::Nothing),
    ];
    assert!(rt; makes(rt.alloc(), 3, &tasks, &steps)?);
    Ok(())
}
