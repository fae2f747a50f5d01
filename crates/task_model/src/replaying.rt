//! The serial replay of a listing.

ghost use Rattle.std.specs.Prelude.{◌≡◌, ◌++◌, ◌∷◌, ◌+◌, ◌<◌, ◌≤◌, [], IfOk, OnOk, List, length, map};
ghost use Rattle.kernel_model.specs.Items.{Entry as Listed};
ghost use Rattle.kernel_model.specs.EntryReplay.{Place, Rerun, entry_order, latest};
ghost use Rattle.set_model.specs.Sets.{TaskSet as Parts};
ghost use Rattle.set_model.specs.Views.{entry_of};
ghost use Rattle.task_model.specs.Finals.{Answers, AnswersWithSpawns};
ghost use Rattle.task_model.specs.Tables.{AreFit, tables_seen};
ghost use Rattle.task_model.specs.Replaying.{GoesOn, HasReplayed};

use crate::finals::{Final, Replay, Replayed};
use crate::first_finishes::MAX_FINISHES;
use crate::spawn_counts::SpawnCounts;
use crate::tables::Tables;
use crate::turns::{Turn, in_serial_order};
use kernel_model::entries::{next_place_is_new, replay_goes_on};
use nv_base::limits::MAX_RECORDS;
use nv_base::{Entry, NoMemory, Point, Seq, TaskId};
use rv_core::Machine;
use std::alloc::Global;
use task_set::TaskSet;

/// How far a replay has come.
#[derive(Drop)]
pub(crate) struct Replaying {
    pub(crate) tables: Tables,
    pub(crate) machine: Machine,
    // how many tasks each finish spawned, by its place
    pub(crate) spawned: SpawnCounts,
    // above all ids so far
    pub(crate) next: u32,
}

impl Replaying {
    /// No entry had its turn yet.
    fn begin(alloc: Global, set: &TaskSet, entries: usize) -> Result<Replaying, NoMemory>
        ensures begun { IfOk result (HasReplayed set.now [] []) }
        ensures places { IfOk result (λ r. length r.spawned ≡ entries) }
        ensures small { IfOk result (λ r. r.next ≤ MAX_RECORDS + 1) }
    {
        Ok(Replaying {
            tables: Tables::at_first(alloc, set)?,
            machine: Machine::new(alloc, set.memory())?,
            spawned: SpawnCounts::none(alloc, entries)?,
            next: set.tasks().len() as u32 + 1,
        })
    }

    /// The next entry in serial order has its turn. False exactly where its task is not open or ends otherwise.
    fn turn(
        &mut self,
        alloc: Global,
        set: &TaskSet,
        entry: &Entry,
        place: u32,
    ) -> Result<bool, NoMemory>
        requires memory { length self.old.machine.memory ≡ set.now.memory }
        requires fit { AreFit set.now (tables_seen self.old.tables) }
        requires inside { place < length self.old.spawned }
        requires room { self.old.next + 8 < 4294967296 }
        ensures turn { (entries : List Listed) (done rest : List Place) (p : Place)
            → (reruns : List Rerun)
            → entry_order entries ≡ done ++ p ∷ rest → p.place ≡ place → p.entry ≡ entry_of entry.now
            → HasReplayed set.now done reruns self.old
            → IfOk result (GoesOn set.now done rest p self.new) }
        ensures places { OnOk result (length self.new.spawned ≡ length self.old.spawned) }
    {
        next_place_is_new();
        replay_goes_on();
        let Some(spawned) = self.tables.turn(alloc, &mut self.machine, set, entry)? else {
            return Ok(false);
        };
        self.spawned.set(place, spawned);
        self.next += u32::from(spawned);
        Ok(true)
    }

    /// The state at the end.
    fn close(self, alloc: Global, listing: &[Entry]) -> Result<Replayed, NoMemory>
        requires { length listing.now ≤ MAX_FINISHES }
        ensures { (set : Parts) (reruns : List Rerun)
            → HasReplayed set (entry_order (map entry_of listing.now)) reruns self
            → length self.spawned ≡ length listing.now
            → IfOk result (AnswersWithSpawns set listing.now) }
    {
        let Replaying {
            tables,
            machine: _,
            spawned,
            next,
        } = self;
        let Tables { objects, open } = tables;
        let end = Final {
            objects,
            tasks: open.list(alloc)?,
            clock: latest(listing),
            number: Seq(listing.len() as u32),
            next: TaskId(next),
        };
        Ok(Replayed::Good(end, spawned))
    }
}

// The greatest point of a listing, at first 0.
fn latest(listing: &[Entry]) -> Point
    ensures { result.0 ≡ latest 0 (map entry_of listing.now) }
{
    let mut clock = Point(0);
    for entry in listing {
        clock = Point(clock.0.max(entry.point.0));
    }
    clock
}

/// Runs the entries of a listing whole, one after another in serial order, from the state that a format of the set
/// leaves: where each one's task is open and ends as the entry says, the state that they leave, and how many tasks
/// each spawned; else the place in the listing, from 0, of the first entry in serial order of which this is not so.
pub fn replay_listing(alloc: Global, set: &TaskSet, listing: &[Entry]) -> Result<Replayed, NoMemory>
    requires { length listing.now ≤ MAX_FINISHES }
    ensures { IfOk result (AnswersWithSpawns set.now listing.now) }
{
    let order = in_serial_order(alloc, listing)?;
    let mut replaying = Replaying::begin(alloc, set, listing.len())?;
    for turn in &order {
        let entry = &listing[turn.place as usize];
        if !replaying.turn(alloc, set, entry, turn.place)? {
            return Ok(Replayed::Wrong(turn.place));
        }
    }
    replaying.close(alloc, listing)
}

/// The same without the spawns: `Good` with the state that the listing leaves, where each entry's task is open and
/// ends as the entry says; else `Wrong` with the place of the first entry in serial order of which this is not so.
pub fn serial(alloc: Global, set: &TaskSet, listing: &[Entry]) -> Result<Replay, NoMemory>
    requires { length listing.now ≤ MAX_FINISHES }
    ensures { IfOk result (Answers set.now listing.now) }
{
    Ok(match replay_listing(alloc, set, listing)? {
        Replayed::Good(end, _spawned) => Replay::Good(end),
        Replayed::Wrong(place) => Replay::Wrong(place),
    })
}
