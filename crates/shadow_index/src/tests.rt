//! Places by hand in each kind of device, index words both ways, and the first faulty word.

ghost use Rattle.std.specs.Prelude.{◌≤◌, length};
ghost use Rattle.shadow_index.specs.States.{HasTaken};

use super::*;
use crate::lengths::first_index;
use nv_base::{NoMemory, ObjId, ProgId, Spawn};
use std::test::Fail;
use task_set::{
    Name, ObjPart, ObjectParts, ProgPart, ProgramParts, SetParts, TaskSet, Tasks, Words,
};

fn object(rt: &HostRuntime, name: &[u8], slots: u8, first: &[u32]) -> Result<ObjPart, NoMemory> {
    Ok(ObjPart {
        name: Name::from_slice(rt.alloc(), name)?,
        size: first.len().min(64) as u8,
        slots,
        first: Words::from_slice(rt.alloc(), first)?,
    })
}

fn program(rt: &HostRuntime, name: &[u8], code: &[u32]) -> Result<ProgPart, NoMemory> {
    Ok(ProgPart {
        name: Name::from_slice(rt.alloc(), name)?,
        fuel: 100,
        code: Words::from_slice(rt.alloc(), code)?,
    })
}

// one object of one word in two slots, one program of twelve words, one task, one record
fn small_set(rt: &HostRuntime, format: u8) -> Result<Option<TaskSet>, NoMemory> {
    let mut objects = ObjectParts::new(rt.alloc());
    objects.push(object(rt, b"x", 2, &[5])?)?;
    let mut programs = ProgramParts::new(rt.alloc());
    programs.push(program(rt, b"add", &[115; 12])?)?;
    let task = Spawn {
        program: ProgId(0),
        arg: 7,
    };
    let parts = SetParts {
        format,
        cores: 1,
        memory: 1024,
        records: 1,
        objects,
        programs,
        tasks: Tasks::from_slice(rt.alloc(), &[task])?,
    };
    Ok(TaskSet::build(rt.alloc(), parts).ok())
}

// a second object of two words in three slots, a second program of five words, and records for five pages
fn wide_set(rt: &HostRuntime, format: u8) -> Result<Option<TaskSet>, NoMemory> {
    let mut objects = ObjectParts::new(rt.alloc());
    objects.push(object(rt, b"x", 2, &[5])?)?;
    objects.push(object(rt, b"y", 3, &[6, 7])?)?;
    let mut programs = ProgramParts::new(rt.alloc());
    programs.push(program(rt, b"add", &[115; 12])?)?;
    programs.push(program(rt, b"end", &[1, 2, 3, 4, 115])?)?;
    let parts = SetParts {
        format,
        cores: 1,
        memory: 1024,
        records: 40,
        objects,
        programs,
        tasks: Tasks::new(rt.alloc()),
    };
    Ok(TaskSet::build(rt.alloc(), parts).ok())
}

// the numbers of a layout, in the order of its calls
fn numbers(layout: &Layout) -> [u32; 10] {
    [
        layout.kind().magic(),
        layout.need(),
        layout.index_words(),
        layout.head_reads(),
        layout.index_reads(),
        layout.boot_turns(),
        layout.root_at(),
        layout.first_root(),
        u32::from(layout.pages()),
        layout.page_words(),
    ]
}

// a word of the header, where there is one
fn header_word(layout: &Layout, set: &TaskSet, at: u32) -> Option<u32> {
    if at < first_index(set) {
        Some(layout.header_word(set, at))
    } else {
        None
    }
}

// the place of an index word, where it is read
fn index_at(set: &TaskSet, kind: DeviceKind, root: u32, i: u32) -> Option<u32> {
    let layout = Layout::of_kind(set, kind);
    if i < layout.index_reads() {
        Some(layout.index_at(root, i))
    } else {
        None
    }
}

// takes words in order, and answers the number of the first faulty one
fn first_fault(state: &mut State, set: &TaskSet, words: &[u32]) -> Option<u32>
    requires taken { HasTaken set.now 0 state.old }
    requires short { length words.now ≤ 4096 }
{
    for i in 0..words.len() as u32 {
        if !state.take(set, i, words[i as usize]) {
            return Some(i);
        }
    }
    None
}

// a word of a state that is of a set
fn word(state: &State, set: &TaskSet, i: u32) -> Option<u32> {
    if state.slots.len() == usize::from(set.objects())
        && state.tasks.len() <= usize::from(set.records())
    {
        Some(state.word(set, i))
    } else {
        None
    }
}

// the sound words of a trap at point 1, with two children of which one is open; then padding
const SOUND: [u32; 15] = [1, 1, 4, 1, 1, 15, 0, 2, 1, 0, 3, 0, 8, 0, 0];

// a word in place of one of these, and which word is faulty then
const FAULTS: [(u32, u32, u32); 18] = [
    (0, 2, 1),
    (1, 0, 1),
    (2, 0, 2),
    (3, 0, 3),
    (3, 4, 3),
    (4, 2, 4),
    (5, 16, 5),
    (6, 1, 6),
    (7, 1, 7),
    (7, 5, 7),
    (2, 11, 7),
    (8, 2, 8),
    (8, 0, 10),
    (9, 2, 9),
    (10, 0, 10),
    (10, 4, 10),
    (11, 1, 11),
    (14, 1, 14),
];

// the words of the wide set's header from word 2 on
const HEADER: [u32; 28] = [
    0, 2, 40, 2, 1024, 0x201, 0x302, 100, 12, 100, 5, 115, 115, 115, 115, 115, 115, 115, 115, 115,
    115, 115, 115, 1, 2, 3, 4, 115,
];

// an index word of the wide set, and its place where the root names copy 1 of page 1 alone
const INDEX_PLACES: [(u32, u32); 6] = [
    (0, 31),
    (31, 62),
    (32, 127),
    (40, 135),
    (64, 159),
    (159, 318),
];

// what may be a root of the wide set's five pages
const ROOTS: [(u32, bool); 5] = [
    (0x8000_0000, true),
    (0x8000_001F, true),
    (0x8000_0020, false),
    (0xC000_0000, false),
    (0x0000_0001, false),
];

// whether a layout has these numbers, in the order of `numbers`, and these places of the copies of page 0 and of the slots of x
fn tells(set: &TaskSet, kind: DeviceKind, told: [u32; 10], places: [u32; 4]) -> bool {
    let layout = Layout::of_kind(set, kind);
    let copies = [layout.page_at(0, 0), layout.page_at(0, 1)];
    let slots = [layout.slot_at(ObjId(0), 0), layout.slot_at(ObjId(0), 1)];
    numbers(&layout) == told
        && copies == [places[0], places[1]]
        && slots == [places[2], places[3]]
        && layout.code_at(ProgId(0)) == 10
}

#[test]
fn a_layout_has_the_numbers_of_its_kind(rt: HostRuntime) -> Result<(), Fail> {
    let Some(set) = small_set(&rt, 2)? else {
        return Err(Fail::new("the set is within its limits"));
    };
    let plain = [0x314B_564E, 50, 13, 22, 13, 36, 1, 1, 1, 13];
    assert!(rt; tells(&set, DeviceKind::Plain, plain, [22, 35, 48, 49]));
    let paged = [0x324B_564E, 89, 13, 23, 32, 56, 22, 0x8000_0000, 1, 32];
    assert!(rt; tells(&set, DeviceKind::Paged, paged, [23, 55, 87, 88]));
    let moved = [0x4D4B_564E, 117, 13, 23, 32, 56, 50, 0x8000_0000, 1, 32];
    assert!(rt; tells(&set, DeviceKind::Migrated, moved, [51, 83, 115, 116]));
    Ok(())
}

#[test]
fn a_format_has_its_need(rt: HostRuntime) -> Result<(), Fail> {
    for (format, words) in [(1, 50), (2, 89)] {
        let Some(set) = small_set(&rt, format)? else {
            return Err(Fail::new("the set is within its limits"));
        };
        assert_eq!(rt; need(&set), words);
        assert_eq!(rt; Layout::of(&set, 0).need(), words);
    }
    Ok(())
}

#[test]
fn pages_stand_one_behind_another(rt: HostRuntime) -> Result<(), Fail> {
    let Some(set) = wide_set(&rt, 2)? else {
        return Err(Fail::new("the set is within its limits"));
    };
    for (i, place) in INDEX_PLACES {
        assert!(rt; index_at(&set, DeviceKind::Paged, 0x8000_0002, i) == Some(place));
    }
    assert!(rt; index_at(&set, DeviceKind::Paged, 0x8000_0002, 160).is_none());
    assert!(rt; index_at(&set, DeviceKind::Plain, 2, 40) == Some(201));
    let layout = Layout::of(&set, 0);
    assert_eq!(rt; layout.page_at(4, 1), 319);
    assert_eq!(rt; layout.slot_at(ObjId(1), 2), 357);
    assert_eq!(rt; layout.code_at(ProgId(1)), 25);
    assert_eq!(rt; layout.need(), 359);
    Ok(())
}

#[test]
fn a_root_names_copies(rt: HostRuntime) -> Result<(), Fail> {
    let Some(set) = wide_set(&rt, 2)? else {
        return Err(Fail::new("the set is within its limits"));
    };
    let plain = Layout::of_kind(&set, DeviceKind::Plain);
    for (word, is_root) in [(0, false), (1, true), (2, true), (3, false)] {
        assert_eq!(rt; plain.is_root(word), is_root);
    }
    assert_eq!(rt; plain.copy_of(2, 0), 1);
    let paged = Layout::of_kind(&set, DeviceKind::Paged);
    for (word, is_root) in ROOTS {
        assert_eq!(rt; paged.is_root(word), is_root);
    }
    for (page, copy) in [(0, 1), (1, 0), (3, 1), (4, 0)] {
        assert_eq!(rt; paged.copy_of(0x8000_0009, page), copy);
    }
    Ok(())
}

#[test]
fn the_header_tells_the_set(rt: HostRuntime) -> Result<(), Fail> {
    let Some(set) = wide_set(&rt, 2)? else {
        return Err(Fail::new("the set is within its limits"));
    };
    for (kind, second) in [(DeviceKind::Plain, 1), (DeviceKind::Paged, 0)] {
        let layout = Layout::of_kind(&set, kind);
        assert!(rt; header_word(&layout, &set, 0) == Some(kind.magic()));
        assert!(rt; header_word(&layout, &set, 1) == Some(second));
        for i in 0..HEADER.len() {
            assert!(rt; header_word(&layout, &set, i as u32 + 2) == Some(HEADER[i]));
        }
    }
    Ok(())
}

// the words of a state that has taken them, or the number of the first faulty one
fn given_back(rt: &HostRuntime, set: &TaskSet, words: [u32; 13]) -> Result<bool, NoMemory> {
    let mut state = State::room(rt.alloc(), set)?;
    if first_fault(&mut state, set, &words).is_some() {
        return Ok(false);
    }
    for i in 0..words.len() {
        if word(&state, set, i as u32) != Some(words[i]) {
            return Ok(false);
        }
    }
    Ok(true)
}

#[test]
fn words_are_taken_and_given_back(rt: HostRuntime) -> Result<(), Fail> {
    let Some(set) = small_set(&rt, 2)? else {
        return Err(Fail::new("the set is within its limits"));
    };
    // as the format leaves it
    assert!(rt; given_back(&rt, &set, [0, 0, 2, 0, 0, 0, 0, 0, 1, 0, 1, 0, 7])?);
    // an exit with 9, at point 0
    assert!(rt; given_back(&rt, &set, [0, 1, 2, 1, 0, 0, 9, 2, 0, 1, 0, 0, 0])?);
    // a trap at point 1, and two children of which one is open
    assert!(rt; given_back(&rt, &set, [1, 1, 4, 1, 1, 15, 0, 2, 1, 0, 3, 0, 8])?);
    Ok(())
}

// the first fault where one of the sound words is another one
fn fault_with(
    rt: &HostRuntime,
    set: &TaskSet,
    place: u32,
    other: u32,
) -> Result<Option<u32>, NoMemory> {
    let mut words = SOUND;
    if let Some(word) = words.get_mut(place as usize) {
        *word = other;
    }
    let mut state = State::room(rt.alloc(), set)?;
    Ok(first_fault(&mut state, set, &words))
}

#[test]
fn the_first_faulty_word_is_refused(rt: HostRuntime) -> Result<(), Fail> {
    let Some(set) = small_set(&rt, 2)? else {
        return Err(Fail::new("the set is within its limits"));
    };
    assert!(rt; fault_with(&rt, &set, 0, 1)?.is_none());
    for (place, other, faulty) in FAULTS {
        assert!(rt; fault_with(&rt, &set, place, other)? == Some(faulty));
    }
    Ok(())
}

#[test]
fn ids_increase(rt: HostRuntime) -> Result<(), Fail> {
    let Some(set) = wide_set(&rt, 2)? else {
        return Err(Fail::new("the set is within its limits"));
    };
    // two open tasks: the second id, and which word is faulty
    for (id, faulty) in [(1, Some(14)), (2, Some(14)), (3, None), (9, Some(14))] {
        let words = [0, 0, 9, 0, 0, 0, 0, 0, 2, 0, 0, 2, 1, 0, id, 0, 0];
        let mut state = State::room(rt.alloc(), &set)?;
        assert!(rt; first_fault(&mut state, &set, &words) == faulty);
    }
    Ok(())
}
