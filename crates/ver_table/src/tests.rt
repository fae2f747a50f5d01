//! The worked calls on the table, and a long run of finishes beside a plain list of versions.

ghost use Rattle.std.specs.Prelude.{◌<◌};

use super::*;
use crate::chain::tests::{has_before, holds, holds_newest, slots};
use interval::Interval;
use nv_base::{NoMemory, ObjId, Point, ProgId, Spawn};
use std::test::Fail;
use task_set::{
    Name, ObjPart, ObjectParts, ProgPart, ProgramParts, SetParts, TaskSet, Tasks, Words,
};

// an object of one word
fn object(rt: &HostRuntime, name: &[u8], slots: u8) -> Result<ObjPart, NoMemory> {
    Ok(ObjPart {
        name: Name::from_slice(rt.alloc(), name)?,
        size: 1,
        slots,
        first: Words::from_slice(rt.alloc(), &[5])?,
    })
}

// two objects of as many slots
fn parts(rt: &HostRuntime, slots: u8) -> Result<SetParts, NoMemory> {
    let mut objects = ObjectParts::new(rt.alloc());
    objects.push(object(rt, b"x", slots)?)?;
    objects.push(object(rt, b"y", slots)?)?;
    let mut programs = ProgramParts::new(rt.alloc());
    programs.push(ProgPart {
        name: Name::from_slice(rt.alloc(), b"add")?,
        fuel: 100,
        code: Words::from_slice(rt.alloc(), &[0x0000_006f])?,
    })?;
    Ok(SetParts {
        format: 1,
        cores: 1,
        memory: 1024,
        records: 3,
        objects,
        programs,
        tasks: Tasks::from_slice(
            rt.alloc(),
            &[Spawn {
                program: ProgId(0),
                arg: 9,
            }],
        )?,
    })
}

// the table of two objects of as many slots, each with a version in slot 0 that begins at the clock
fn opened(rt: &HostRuntime, slots: u8, clock: u32) -> Result<Option<Versions>, NoMemory> {
    let Ok(set) = TaskSet::build(rt.alloc(), parts(rt, slots)?) else {
        return Ok(None);
    };
    if set.objects() != 2 || set.slots(ObjId(0)) != slots || set.slots(ObjId(1)) != slots {
        return Ok(None);
    }
    Ok(Some(Versions::open(rt.alloc(), &set, &[0, 0], Point(clock))?))
}

// What the calls answer where their conditions hold.

fn choose(versions: &Versions, o: u8, hi: Option<Point>) -> Option<Version> {
    if o < versions.objects() && has_before(versions.chain(ObjId(o)), hi) {
        Some(versions.choose(ObjId(o), hi))
    } else {
        None
    }
}

fn end_of(versions: &Versions, v: Version) -> Option<Option<Point>> {
    if v.object.0 < versions.objects() && holds(versions.chain(v.object), v.slot) {
        Some(versions.end_of(v))
    } else {
        None
    }
}

fn bound(versions: &Versions, o: u8) -> Option<u32> {
    if o < versions.objects() {
        Some(versions.bound(ObjId(o)).0)
    } else {
        None
    }
}

fn free_slot(versions: &Versions, o: u8, others: &[Interval], pins: &[Pin]) -> Option<Option<u8>> {
    if o < versions.objects() {
        Some(versions.free_slot(ObjId(o), others, pins))
    } else {
        None
    }
}

fn note(versions: &mut Versions, o: u8, p: u32) {
    if o < versions.objects() {
        versions.note(ObjId(o), Point(p));
    }
}

// whether the condition of `install` held
fn install(versions: &mut Versions, o: u8, slot: u8, p: u32) -> bool {
    if o >= versions.objects() || versions.bound(ObjId(o)).0 > p {
        return false;
    }
    if slot >= slots(versions.chain(ObjId(o))) || holds_newest(versions.chain(ObjId(o)), slot) {
        return false;
    }
    versions.install(ObjId(o), slot, Point(p));
    true
}

#[test]
fn a_slot_is_free_while_nobody_needs_what_it_holds(rt: HostRuntime) -> Result<(), Fail> {
    let Some(mut versions) = opened(&rt, 2, 0)? else {
        assert!(rt; false);
        return Ok(());
    };
    assert!(rt; install(&mut versions, 1, 1, 1));
    let mut reader = Interval::from(Point(0));
    reader.cut(Point(1));
    let pin = |o: u8| Pin {
        object: ObjId(o),
        slot: 0,
    };
    assert!(rt; free_slot(&versions, 1, &[reader], &[]) == Some(None));
    assert!(rt; free_slot(&versions, 1, &[], &[]) == Some(Some(0)));
    assert!(rt; free_slot(&versions, 1, &[], &[pin(1)]) == Some(None));
    assert!(rt; free_slot(&versions, 1, &[], &[pin(0)]) == Some(Some(0)));
    assert!(rt; free_slot(&versions, 0, &[reader], &[]) == Some(Some(1)));
    Ok(())
}

#[test]
fn the_newest_version_before_an_end_is_chosen(rt: HostRuntime) -> Result<(), Fail> {
    let Some(mut versions) = opened(&rt, 3, 4)? else {
        assert!(rt; false);
        return Ok(());
    };
    assert!(rt; install(&mut versions, 0, 2, 6));
    note(&mut versions, 0, 9);
    note(&mut versions, 0, 7);
    assert!(rt; bound(&versions, 0) == Some(9));
    assert!(rt; install(&mut versions, 0, 1, 9));
    // (hi, slot, begin, end)
    let rows = [
        (None, 1, 9, None),
        (Some(Point(10)), 1, 9, None),
        (Some(Point(9)), 2, 6, Some(Point(9))),
        (Some(Point(6)), 0, 4, Some(Point(6))),
    ];
    for (hi, slot, begin, end) in rows {
        let version = Version {
            object: ObjId(0),
            slot,
            begin: Point(begin),
        };
        assert!(rt; choose(&versions, 0, hi) == Some(version));
        assert!(rt; end_of(&versions, version) == Some(end));
    }
    assert!(rt; choose(&versions, 0, Some(Point(4))).is_none());
    assert!(rt; bound(&versions, 1) == Some(4));
    Ok(())
}

// A version as a plain list of installs has it: its object, the slot that it came into, and its begin.
#[derive(Clone, Copy)]
struct Arrival {
    object: u8,
    slot: u8,
    begin: u32,
}

// All installs so far and all points that touched an object, each in their order. Every answer is a walk.
#[derive(Drop)]
struct Plain {
    installs: Vec<Arrival>,
    touches: Vec<(u8, u32)>,
}

impl Plain {
    fn opened(rt: &HostRuntime, clock: u32) -> Result<Plain, NoMemory> {
        let mut plain = Plain {
            installs: Vec::new(rt.alloc()),
            touches: Vec::new(rt.alloc()),
        };
        plain.install(0, 0, clock)?;
        plain.install(1, 0, clock)?;
        Ok(plain)
    }

    fn touch(&mut self, object: u8, p: u32) -> Result<(), NoMemory> {
        self.touches.push((object, p))?;
        Ok(())
    }

    fn install(&mut self, object: u8, slot: u8, begin: u32) -> Result<(), NoMemory> {
        self.installs.push(Arrival {
            object,
            slot,
            begin,
        })?;
        self.touch(object, begin)
    }

    fn bound(&self, object: u8) -> u32 {
        let mut bound = 0;
        for (o, p) in &self.touches {
            if *o == object && bound < *p {
                bound = *p;
            }
        }
        bound
    }

    // what a slot holds, with its end
    fn held(&self, object: u8, slot: u8) -> Option<(Arrival, Option<Point>)> {
        let mut held = None;
        for install in &self.installs {
            if install.object == object {
                held = match held {
                    Some((old, None)) => Some((old, Some(Point(install.begin)))),
                    other => other,
                };
                if install.slot == slot {
                    held = Some((*install, None));
                }
            }
        }
        held
    }

    fn choose(&self, object: u8, hi: Option<Point>) -> Option<Version> {
        let mut chosen = None;
        for install in &self.installs {
            let before = match hi {
                None => true,
                Some(hi) => install.begin < hi.0,
            };
            let stands = match self.held(object, install.slot) {
                None => false,
                Some((held, _)) => held.begin == install.begin,
            };
            if install.object == object && before && stands {
                chosen = Some(Version {
                    object: ObjId(object),
                    slot: install.slot,
                    begin: Point(install.begin),
                });
            }
        }
        chosen
    }

    fn free_slot(&self, object: u8, slots: u8, others: &[Interval], pins: &[Pin]) -> Option<u8> {
        for slot in 0..slots {
            let taken = match self.held(object, slot) {
                None => false,
                Some((_, None)) => true,
                Some((held, end)) => {
                    others.iter().any(|i| i.meets(Point(held.begin), end))
                        || pins.iter().any(|p| p.object.0 == object && p.slot == slot)
                }
            };
            if !taken {
                return Some(slot);
            }
        }
        None
    }
}

// Numbers that follow one another without rule: the linear congruences of Numerical Recipes.
#[derive(Drop)]
struct Numbers {
    state: u32,
}

impl Numbers {
    fn below(&mut self, n: u32) -> u32
        requires { 0 < n }
        ensures { result < n }
    {
        self.state = self.state.wrapping_mul(1664525).wrapping_add(1013904223);
        (self.state >> 8) % n
    }
}

// an interval about the clock, with an end or without one
fn interval(numbers: &mut Numbers, clock: u32) -> Interval {
    let lo = clock.saturating_sub(numbers.below(6));
    let mut interval = Interval::from(Point(lo));
    if numbers.below(3) != 0 {
        interval.cut(Point(lo.saturating_add(numbers.below(4))));
    }
    interval
}

// one finish and the answers before it: whether the table and the list agree on all of them
fn agree(
    numbers: &mut Numbers,
    versions: &mut Versions,
    plain: &mut Plain,
    slots: u8,
) -> Result<bool, NoMemory> {
    let o = numbers.below(2) as u8;
    let bound_now = plain.bound(o);
    let others = [
        interval(numbers, bound_now),
        interval(numbers, bound_now),
        interval(numbers, bound_now),
    ];
    let others = &others[..numbers.below(4) as usize];
    let pins = [Pin {
        object: ObjId(numbers.below(2) as u8),
        slot: numbers.below(8) as u8,
    }];
    let pins = &pins[..numbers.below(2) as usize];
    let hi = interval(numbers, bound_now).hi;
    let chosen = choose(versions, o, hi);
    let mut same = bound(versions, o) == Some(bound_now) && chosen == plain.choose(o, hi);
    if let Some(version) = chosen {
        let end = match plain.held(o, version.slot) {
            None => None,
            Some((_, end)) => end,
        };
        same = same && end_of(versions, version) == Some(end);
    }
    let free = plain.free_slot(o, slots, others, pins);
    same = same && free_slot(versions, o, others, pins) == Some(free);
    let p = bound_now.saturating_add(numbers.below(3));
    match free {
        Some(slot) if numbers.below(3) != 0 => {
            same = same && install(versions, o, slot, p);
            plain.install(o, slot, p)?;
        }
        _ => {
            note(versions, o, p);
            plain.touch(o, p)?;
        }
    }
    Ok(same)
}

#[test]
fn answers_are_those_of_a_plain_list(rt: HostRuntime) -> Result<(), Fail> {
    let mut numbers = Numbers { state: 7 };
    for round in 0..60 {
        let slots = 2 + (round % 7) as u8;
        let Some(mut versions) = opened(&rt, slots, round)? else {
            assert!(rt; false);
            return Ok(());
        };
        let mut plain = Plain::opened(&rt, round)?;
        for _ in 0..60 {
            assert!(rt; agree(&mut numbers, &mut versions, &mut plain, slots)?);
        }
    }
    Ok(())
}
