//! Which limit of the parts is broken first, one test for each.

ghost use Rattle.std.specs.Prelude.{◌≡◌, nat_lt};
ghost use Rattle.std.specs.List.{list_all};
ghost use Rattle.task_set.specs.FirstBroken.{first_broken, format_holds, cores_hold, memory_holds, records_hold, objects_hold, sizes_hold, slots_hold, firsts_hold, programs_hold, fuels_hold, codes_hold, tasks_hold, task_programs_hold};

use crate::formats::{max_objects, max_records};
use crate::parts::SetParts;
use crate::refusals::LimitKind;
use nv_base::Spawn;
use nv_base::limits::{
    MAX_CODE, MAX_CORES, MAX_FORMAT, MAX_FUEL, MAX_MEMORY, MAX_PROGRAMS, MAX_SIZE, MAX_SLOTS,
    MIN_MEMORY, MIN_SLOTS,
};

#[tactic(auto, unfolding(crate::specs::FirstBroken::format_holds))]
fn format_holds(parts: &SetParts) -> bool
    ensures { result ≡ format_holds parts.now }
{
    1 <= parts.format && parts.format <= MAX_FORMAT
}

#[tactic(auto, unfolding(crate::specs::FirstBroken::cores_hold))]
fn cores_hold(parts: &SetParts) -> bool
    ensures { result ≡ cores_hold parts.now }
{
    1 <= parts.cores && parts.cores <= MAX_CORES
}

#[tactic(auto, unfolding(crate::specs::FirstBroken::memory_holds))]
fn memory_holds(parts: &SetParts) -> bool
    ensures { result ≡ memory_holds parts.now }
{
    MIN_MEMORY <= parts.memory && parts.memory <= MAX_MEMORY && parts.memory % 4 == 0
}

#[tactic(auto, unfolding(crate::specs::FirstBroken::records_hold))]
fn records_hold(parts: &SetParts) -> bool
    ensures { result ≡ records_hold parts.now }
{
    1 <= parts.records && parts.records <= max_records(parts.format)
}

#[tactic(auto, unfolding(crate::specs::FirstBroken::objects_hold))]
fn objects_hold(parts: &SetParts) -> bool
    ensures { result ≡ objects_hold parts.now }
{
    let number = parts.objects.as_slice().len();
    1 <= number && number <= usize::from(max_objects(parts.format))
}

#[tactic(auto, unfolding(crate::specs::FirstBroken::sizes_hold))]
fn sizes_hold(parts: &SetParts) -> bool
    ensures { result ≡ sizes_hold parts.now }
{
    parts
        .objects
        .as_slice()
        .iter()
        .all(|o| 1 <= o.size && o.size <= MAX_SIZE)
}

#[tactic(auto, unfolding(crate::specs::FirstBroken::slots_hold))]
fn slots_hold(parts: &SetParts) -> bool
    ensures { result ≡ slots_hold parts.now }
{
    parts
        .objects
        .as_slice()
        .iter()
        .all(|o| MIN_SLOTS <= o.slots && o.slots <= MAX_SLOTS)
}

#[tactic(auto, unfolding(crate::specs::FirstBroken::firsts_hold))]
fn firsts_hold(parts: &SetParts) -> bool
    ensures { result ≡ firsts_hold parts.now }
{
    parts
        .objects
        .as_slice()
        .iter()
        .all(|o| o.first.as_slice().len() == usize::from(o.size))
}

#[tactic(auto, unfolding(crate::specs::FirstBroken::programs_hold))]
fn programs_hold(parts: &SetParts) -> bool
    ensures { result ≡ programs_hold parts.now }
{
    let number = parts.programs.as_slice().len();
    1 <= number && number <= usize::from(MAX_PROGRAMS)
}

#[tactic(auto, unfolding(crate::specs::FirstBroken::fuels_hold))]
fn fuels_hold(parts: &SetParts) -> bool
    ensures { result ≡ fuels_hold parts.now }
{
    parts
        .programs
        .as_slice()
        .iter()
        .all(|p| 1 <= p.fuel && p.fuel <= MAX_FUEL)
}

#[tactic(auto, unfolding(crate::specs::FirstBroken::codes_hold))]
fn codes_hold(parts: &SetParts) -> bool
    ensures { result ≡ codes_hold parts.now }
{
    let memory = parts.memory as usize;
    parts.programs.as_slice().iter().all(|p| {
        let words = p.code.as_slice().len();
        words <= usize::from(MAX_CODE) && 4 * words <= memory
    })
}

#[tactic(auto, unfolding(crate::specs::FirstBroken::tasks_hold))]
fn tasks_hold(parts: &SetParts) -> bool
    ensures { result ≡ tasks_hold parts.now }
{
    parts.tasks.as_slice().len() <= usize::from(parts.records)
}

fn name_programs(tasks: &[Spawn], programs: usize) -> bool
    ensures { result ≡ list_all (λ t. nat_lt t.program.0 programs) tasks.now }
{
    tasks.iter().all(|t| usize::from(t.program.0) < programs)
}

fn task_programs_hold(parts: &SetParts) -> bool
    ensures { result ≡ task_programs_hold parts.now }
{
    let programs = parts.programs.as_slice();
    let tasks = parts.tasks.as_slice();
    name_programs(tasks, programs.len())
}

/// The first limit that the parts break, in the order of `LimitKind`: None exactly where they keep all.
#[tactic(auto, unfolding(crate::specs::FirstBroken::first_broken))]
pub(crate) fn first_broken(parts: &SetParts) -> Option<LimitKind>
    ensures { result ≡ first_broken parts.now }
{
    if !format_holds(parts) {
        Some(LimitKind::Format)
    } else if !cores_hold(parts) {
        Some(LimitKind::Cores)
    } else if !memory_holds(parts) {
        Some(LimitKind::Memory)
    } else if !records_hold(parts) {
        Some(LimitKind::Records)
    } else if !objects_hold(parts) {
        Some(LimitKind::Objects)
    } else if !sizes_hold(parts) {
        Some(LimitKind::Size)
    } else if !slots_hold(parts) {
        Some(LimitKind::Slots)
    } else if !firsts_hold(parts) {
        Some(LimitKind::First)
    } else if !programs_hold(parts) {
        Some(LimitKind::Programs)
    } else if !fuels_hold(parts) {
        Some(LimitKind::Fuel)
    } else if !codes_hold(parts) {
        Some(LimitKind::Code)
    } else if !tasks_hold(parts) {
        Some(LimitKind::Tasks)
    } else if !task_programs_hold(parts) {
        Some(LimitKind::TaskProgram)
    } else {
        None
    }
}
