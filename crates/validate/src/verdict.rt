//! Whether an attempt that has ended may finish, and where.

ghost use Rattle.std.specs.Prelude.{◌≡◌, ◌<◌, ◌≤◌, ◌+◌, ◌-◌, ◌^◌, true, List, length, map};
ghost use Rattle.kernel_model.specs.Effects.{Write};
ghost use Rattle.interval.specs.Ranges.{is_some_write};
ghost use Rattle.set_model.specs.Sets.{TaskSet};
ghost use Rattle.vol_copy.specs.Stages.{is_waiting};
ghost use Rattle.vol_copy.specs.declared.attempt.Stage.{Stage};
ghost use Rattle.nv_base.specs.declared.lines.Outcome.{Outcome};
ghost use Rattle.validate.specs.Views.{view_of};
ghost use Rattle.validate.specs.Answers.{AreForOne, IsAnswer, Seen};

use crate::beside::{Beside, MAX_OTHERS, View};
use crate::reading::end_of;
use crate::slots::{free_slots, raised};
use interval::Interval;
use nv_base::{Entry, ObjId, ObjSet, Point, Seq};
use shadow_index::Plan;
use task_queue::Queue;
use ver_table::Versions;
use vol_copy::Attempt;

/// The answer to an attempt that asks for its finish.
#[derive(Clone, Copy)]
pub enum Verdict {
    /// It may finish so.
    Granted(Plan),
    /// No point is in the interval of its finish.
    Empty { lo: Point, hi: Point },
    /// This object is the least that it writes and that has no free slot.
    Slots(ObjId),
    /// The open tasks, and those that it spawns, find no records.
    Records { pending: u32, spawns: u32 },
}

/// The verdict on an attempt that has ended, with this interval of reads, beside what is kept of the attempts on other
/// cores, where the clock and the number are those of the last finish.
pub fn validate(
    versions: &Versions,
    queue: &Queue,
    attempt: &Attempt,
    reads: Interval,
    others: &[View],
    clock: Point,
    number: Seq,
) -> Verdict
    requires one_set { (set : TaskSet) × AreForOne set versions.now attempt.now }
    requires ready { is_waiting attempt.now.stage ≡ true }
    requires few { length others.now ≤ MAX_OTHERS }
    requires clock { clock.0 < 2 ^ 32 - 1 }
    requires number { number.0 < 2 ^ 32 - 1 }
    ensures { let seen : Seen = record {
      chains = versions.now;
      queue = queue.now;
      clock = clock.0;
      number = number.0;
      others = map view_of others.now;
    } in IsAnswer seen attempt.now reads result }
{
    let written = attempt.written();
    let interval = raised(versions, written, reads);
    let Some(point) = interval.pick(clock, writes_some(written)) else {
        return Verdict::Empty {
            lo: interval.lo,
            hi: end_of(interval.hi),
        };
    };
    let slots = match free_slots(versions, written, &Beside::of(others)) {
        Err(object) => return Verdict::Slots(object),
        Ok(slots) => slots,
    };
    let spawns = attempt.spawns().len() as u8;
    if !queue.room_for(spawns) {
        return Verdict::Records {
            pending: u32::from(queue.pending()),
            spawns: u32::from(spawns),
        };
    }
    Verdict::Granted(Plan {
        granted: entry(queue, attempt, point, number),
        written,
        slots,
    })
}

// Whether an object is written.
fn writes_some(written: ObjSet) -> bool
    ensures { (ws : List Write) → map (λ w. w.object) ws ≡ written → is_some_write ws ≡ result }
{
    written != ObjSet::empty()
}

// The finish that is granted.
fn entry(queue: &Queue, attempt: &Attempt, point: Point, number: Seq) -> Entry
    requires ready { is_waiting attempt.now.stage ≡ true }
    requires number { number.0 < 2 ^ 32 - 1 }
    ensures { (o : Outcome) → attempt.now.stage ≡ Stage.Ready o
        → result ≡ record {
          number = record { 0 = number.0 + 1 };
          task = attempt.now.task;
          point = point;
          first = record { 0 = queue.now.next };
          outcome = o;
        } }
{
    let Some(outcome) = attempt.outcome() else {
        unreachable!()
    };
    Entry {
        number: Seq(number.0 + 1),
        task: attempt.task(),
        point,
        first: queue.next(),
        outcome,
    }
}
