//! A commit that is cut at each of its writes: the device holds the state before it, or after.

ghost use Rattle.std.specs.Prelude.{ℕ, ◌≡◌, ◌≤◌, ◌<◌, ◌==◌, [], ◌∷◌, IfOk, IsTrue, length, slice_index};
ghost use Rattle.kernel_model.specs.Effects.{Exit};
ghost use Rattle.set_model.specs.Views.{entry_of};
ghost use Rattle.device_model.specs.Formats.{formatted_index};
ghost use Rattle.device_model.specs.Devices.{need_on};
ghost use Rattle.shadow_index.specs.States.{HasRoom, index_of};
ghost use Rattle.shadow_index.specs.Tells.{device_of};
ghost use Rattle.commit_writer.specs.Courses.{Course};
ghost use Rattle.commit_writer.specs.Rooms.{IsFor, IsStateOf, layout_by};
ghost use Rattle.commit_writer.specs.Turns.{IsWriting};

use super::small_set;
use crate::after::{add_children, finish_into};
use crate::{Turn, Writer};
use device_format::format;
use fram_dev::{Fram, MemFram};
use nv_base::limits::MAX_OBJECTS;
use nv_base::{Entry, NoMemory, ObjId, ObjSet, Outcome, Point, Seq, TaskId};
use shadow_index::{Copies, Layout, Plan, State, need};
use std::test::Fail;
use task_set::TaskSet;

// one word for object 0, and for no other
#[derive(Drop)]
struct OneWord {
    word: u32,
}

impl Copies for OneWord {
    ghost use Rattle.std.specs.Prelude.{◌==◌, [], ◌∷◌};

    ghost is_written = { λ c o. 0 == o };

    ghost words = { λ c o. c.word ∷ [] };

    fn writes(&self, o: ObjId) -> bool {
        o.0 == 0
    }

    fn copy_word_of(&self, _o: ObjId, _i: u8) -> u32 {
        self.word
    }
}

// where the words of the small set stand, and what its commit makes of the root
#[derive(Clone, Copy)]
struct Places {
    format: u8,
    format_writes: u32,
    commit_writes: u32,
    root: usize,
    roots: [u32; 2],
    pages: [usize; 2],
    slots: usize,
}

const PLACES: [Places; 2] = [
    Places {
        format: 1,
        format_writes: 51,
        commit_writes: 15,
        root: 1,
        roots: [1, 2],
        pages: [22, 35],
        slots: 48,
    },
    Places {
        format: 2,
        format_writes: 90,
        commit_writes: 34,
        root: 22,
        roots: [0x8000_0000, 0x8000_0001],
        pages: [23, 55],
        slots: 87,
    },
];

// the state that a format leaves
fn first_state(rt: &HostRuntime, set: &TaskSet) -> Result<State, NoMemory>
    ensures state { IfOk result (IsStateOf set.now) }
    ensures index { IfOk result (λ s. index_of s ≡ formatted_index set.now) }
    ensures root { IfOk result (λ s. s.root ≡ (layout_by set.now 0).first_root) }
    ensures shift { IfOk result (λ s. s.shift ≡ 0) }
{
    let first = set.tasks();
    let mut tasks = Vec::with_capacity(rt.alloc(), first.len())?;
    add_children(&mut tasks, TaskId(1), first);
    Ok(State {
        clock: Point(0),
        number: Seq(0),
        next: TaskId(first.len() as u32 + 1),
        last: None,
        slots: vec![in rt.alloc(); 0u8; usize::from(set.objects())]?,
        tasks,
        told: 0,
        boots: 0,
        root: Layout::of(set, 0).first_root(),
        shift: 0,
    })
}

// task 1 finished as the first one, and wrote object 0 into slot 1
fn first_plan(next: TaskId) -> Plan
    ensures entry { entry_of result.granted
        ≡ record { number = 1; task = 1; point = 1; first = next.0; outcome = Exit 0 } }
    ensures first { result.granted.first ≡ next }
    ensures written { result.written ≡ 0 ∷ [] }
    ensures slot { slice_index result.slots 0 ≡ 1 }
{
    let mut written = ObjSet::empty();
    written.add(ObjId(0));
    Plan {
        granted: Entry {
            number: Seq(1),
            task: TaskId(1),
            point: Point(1),
            first: next,
            outcome: Outcome::Exit(0),
        },
        written,
        slots: [1; MAX_OBJECTS as usize],
    }
}

// begins its commit, where object 0 has one word and there is a task
fn begin_first(
    set: &TaskSet,
    before: &State,
    after: &mut State,
    writer: &mut Writer,
    copies: &OneWord,
) -> bool
    requires set { IsFor set.now writer.old.job }
    requires state { IsStateOf set.now before.now }
    requires index { index_of before.now ≡ formatted_index set.now }
    requires root { before.now.root ≡ (layout_by set.now 0).first_root }
    requires shift { before.now.shift ≡ 0 }
    requires room { HasRoom set.now after.old }
    ensures { IsTrue result → (g : Course) × (g.device ≡ device_of set.now 0)
        × IsWriting set.now g (λ o. 0 == o) (λ o. copies.now.word ∷ []) 0 writer.new }
{
    if set.objects() == 0 || set.size(ObjId(0)) != 1 || set.tasks().len() == 0 {
        return false;
    }
    let plan = first_plan(before.next);
    finish_into(set, before, &plan, &[], after);
    writer.begin(set, &plan, before, after);
    true
}

// makes the writes of a commit, and answers how many turns ended well, and whether the last one was the root's
fn make_turns<F: Fram, C: Copies>(
    dev: &mut F,
    set: &TaskSet,
    writer: &mut Writer,
    copies: &C,
) -> (u32, bool)
    requires { (g : Course)
        × IsWriting set.now g (C.is_written copies.now) (C.words copies.now) 0 writer.old
        × (need_on g.device ≤ length (F.start dev.old)) }
{
    for turn in 0..100 {
        match writer.turn(dev, set, copies) {
            Ok(Turn::Wrote) => {}
            Ok(Turn::Flipped) => return (turn + 1, true),
            Err(_) => return (turn, false),
        }
    }
    (100, false)
}

// the root, the clock, the number, the next id, the slot of object 0, and its word
fn seen(words: &[u32], places: &Places) -> Option<[u32; 6]> {
    let root = *words.get(places.root)?;
    let page = if root == places.roots[0] {
        places.pages[0]
    } else {
        places.pages[1]
    };
    let slot = *words.get(page.wrapping_add(9))?;
    Some([
        root,
        *words.get(page)?,
        *words.get(page.wrapping_add(1))?,
        *words.get(page.wrapping_add(2))?,
        slot,
        *words.get(places.slots.wrapping_add(slot as usize))?,
    ])
}

// formats a device, and cuts a commit of 12 to object 0 at write k, with that write made or not
fn cut_commit(
    rt: &HostRuntime,
    set: &TaskSet,
    places: &Places,
    k: u32,
    new: bool,
) -> Result<Option<((u32, bool), [u32; 6])>, NoMemory> {
    let passes = places.format_writes.wrapping_add(k);
    let mut dev = MemFram::fused(rt.alloc(), &[9; 89], passes, new)?;
    let before = first_state(rt, set)?;
    let mut after = State::room(rt.alloc(), set)?;
    let mut writer = Writer::new(rt.alloc(), set)?;
    let copies = OneWord { word: 12 };
    if format(&mut dev, set).is_err() || dev.len() < need(set) {
        return Ok(None);
    }
    if !begin_first(set, &before, &mut after, &mut writer, &copies) {
        return Ok(None);
    }
    let turns = make_turns(&mut dev, set, &mut writer, &copies);
    Ok(seen(dev.words(), places).map(|seen| (turns, seen)))
}

// whether the cut device holds the state before, or the one after where the root was written
fn is_cut_well(
    rt: &HostRuntime,
    set: &TaskSet,
    places: &Places,
    k: u32,
    new: bool,
) -> Result<bool, NoMemory> {
    let whole = k == places.commit_writes;
    let expected = if whole || new && k.wrapping_add(1) == places.commit_writes {
        [places.roots[1], 1, 1, 2, 1, 12]
    } else {
        [places.roots[0], 0, 0, 2, 0, 5]
    };
    Ok(cut_commit(rt, set, places, k, new)? == Some(((k, whole), expected)))
}

#[test]
fn a_commit_is_cut_at_each_write(rt: HostRuntime) -> Result<(), Fail> {
    for places in &PLACES {
        let Some(set) = small_set(&rt, places.format)? else {
            return Err(Fail::new("the set is within its limits"));
        };
        for k in 0..places.commit_writes {
            assert!(rt; is_cut_well(&rt, &set, places, k, false)?);
            assert!(rt; is_cut_well(&rt, &set, places, k, true)?);
        }
        assert!(rt; is_cut_well(&rt, &set, places, places.commit_writes, false)?);
    }
    Ok(())
}
