// Worked schedules, by number and in order. The counts of drawn steps are those of the reference code of PCG.

ghost use Rattle.std.specs.Prelude.{◌≡◌, IfOk};

use super::*;
use nv_base::CoreId;
use std::alloc::{AllocError, Global};
use std::test::Fail;

fn core_list(alloc: Global, cores: &[u8]) -> Result<CoreList, AllocError>
    ensures { IfOk result (λ list. list ≡ cores.now) }
{
    let mut list = Vec::new(alloc);
    list.extend_from_slice(cores)?;
    Ok(CoreList::of(list))
}

fn steps(alloc: Global, cores: &[u8], times: u32) -> Result<StepItem, AllocError>
    ensures { IfOk result (λ item. item ≡ StepItem.Steps cores.now times) }
{
    Ok(StepItem::Steps {
        cores: core_list(alloc, cores)?,
        times,
    })
}

// How many failures there are, and the sum of the cores of the other events; by number, and then in order.
fn totals_by_number(schedule: &Schedule) -> (u32, u32) {
    let mut failures: u32 = 0;
    let mut cores: u32 = 0;
    for n in 0..schedule.len() {
        match schedule.event(n) {
            Event::Fail => failures = failures.saturating_add(1),
            Event::Core(core) => cores = cores.saturating_add(u32::from(core.0)),
        }
    }
    (failures, cores)
}

fn totals_in_order(schedule: &Schedule) -> (u32, u32) {
    let mut failures: u32 = 0;
    let mut cores: u32 = 0;
    for event in schedule.events() {
        match event {
            Event::Fail => failures = failures.saturating_add(1),
            Event::Core(core) => cores = cores.saturating_add(u32::from(core.0)),
        }
    }
    (failures, cores)
}

#[test]
fn power_fails_after_each_on_time(rt: HostRuntime) -> Result<(), Fail> {
    let items = [steps(rt.alloc(), &[0], 70)?];
    let schedule = Schedule::of(rt.alloc(), 1, &items, &[30, 10, 20])?;
    assert_eq!(rt; schedule.len(), 73);
    for n in 0..73 {
        let fails = n == 30 || n == 41 || n == 62;
        assert!(rt; (schedule.event(n) == Event::Fail) == fails);
    }
    assert!(rt; totals_in_order(&schedule) == (3, 0));
    Ok(())
}

#[test]
fn power_fails_after_the_last_step(rt: HostRuntime) -> Result<(), Fail> {
    let items = [steps(rt.alloc(), &[2, 1], 1)?, steps(rt.alloc(), &[0], 1)?];
    let schedule = Schedule::of(rt.alloc(), 3, &items, &[2, 1, 0, 7])?;
    let wanted = [
        Event::Core(CoreId(2)),
        Event::Core(CoreId(1)),
        Event::Fail,
        Event::Core(CoreId(0)),
        Event::Fail,
        Event::Fail,
    ];
    assert_eq!(rt; schedule.len(), 6);
    let mut events = schedule.events();
    for n in 0..6u32 {
        assert!(rt; schedule.event(n) == wanted[n as usize]);
        assert!(rt; events.next() == Some(wanted[n as usize]));
    }
    assert!(rt; events.next() == None);
    Ok(())
}

#[test]
fn two_cores_are_drawn(rt: HostRuntime) -> Result<(), Fail> {
    let items = [StepItem::Mix {
        seed: 18,
        count: 20_000,
    }];
    let schedule = Schedule::of(rt.alloc(), 2, &items, &[])?;
    let begin = [1, 1, 0, 0, 1, 1, 0, 1, 0, 0, 1, 1, 0, 1, 0, 1];
    assert_eq!(rt; schedule.len(), 20_000);
    for n in 0..16u32 {
        assert!(rt; schedule.event(n) == Event::Core(CoreId(begin[n as usize])));
    }
    assert!(rt; totals_by_number(&schedule) == (0, 9944));
    assert!(rt; totals_in_order(&schedule) == (0, 9944));
    Ok(())
}

#[test]
fn eight_cores_are_drawn(rt: HostRuntime) -> Result<(), Fail> {
    let items = [
        steps(rt.alloc(), &[7, 0], 7)?,
        StepItem::Mix {
            seed: 5,
            count: 1000,
        },
    ];
    let schedule = Schedule::of(rt.alloc(), 8, &items, &[])?;
    let begin = [1, 0, 7, 5, 0, 5, 4, 0, 6, 1, 7, 4, 3, 5, 7, 4];
    assert_eq!(rt; schedule.len(), 1014);
    for n in 0..16u32 {
        assert!(rt; schedule.event(14 + n) == Event::Core(CoreId(begin[n as usize])));
    }
    assert!(rt; totals_by_number(&schedule) == (0, 3647));
    assert!(rt; totals_in_order(&schedule) == (0, 3647));
    Ok(())
}

#[test]
fn a_list_of_cores_lends_them(rt: HostRuntime) -> Result<(), Fail> {
    let list = core_list(rt.alloc(), &[3, 0, 3])?;
    assert!(rt; list.as_slice() == [3, 0, 3].as_slice());
    assert!(rt; list.copy(rt.alloc())?.as_slice() == [3, 0, 3].as_slice());
    Ok(())
}
