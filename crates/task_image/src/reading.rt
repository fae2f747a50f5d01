//! Task sets from their packed bytes.
ghost use Rattle.nv_base.specs.Refusals.{Gives};
ghost use Rattle.task_image.specs.Answers.{Answers};
ghost use Rattle.task_image.specs.Unpacked.{task_set, whole, unpacked};

use crate::cursor::Cursor;
use crate::header::read_header;
use crate::parts::{objects, programs, tasks};
use crate::refusal::{ImageRefusal, Stop};
use std::alloc::Global;
use task_set::laws::none_broken_is_within;
use task_set::{SetParts, TaskSet};

/// Reads the parts of a set, which keep all limits and have names.
#[tactic(auto, unfolding(crate::specs::Unpacked::task_set))]
fn set_parts(alloc: Global, cursor: &mut Cursor<'_>) -> Result<SetParts, Stop>
    ensures { Gives (λ parts. (parts, cursor.new)) result (task_set cursor.old) }
{
    let header = read_header(cursor)?;
    let objects = objects(alloc, cursor, header.objects)?;
    let programs = programs(alloc, cursor, header.memory, header.programs)?;
    let tasks = tasks(alloc, cursor, header.programs, header.tasks)?;
    Ok(SetParts {
        format: header.format,
        cores: header.cores,
        memory: header.memory,
        records: header.records,
        objects,
        programs,
        tasks,
    })
}

#[tactic(auto, unfolding(crate::specs::Unpacked::whole))]
fn whole(alloc: Global, cursor: &mut Cursor<'_>) -> Result<SetParts, Stop>
    ensures { Gives (λ parts. (parts, cursor.new)) result (whole cursor.old) }
{
    let parts = set_parts(alloc, cursor)?;
    cursor.end()?;
    Ok(parts)
}

#[tactic(auto, unfolding(crate::specs::Unpacked::unpacked))]
fn parts_of(alloc: Global, bytes: &[u8]) -> Result<SetParts, Stop>
    ensures { Gives (λ parts. parts) result (unpacked bytes.now) }
{
    let parts = whole(alloc, &mut Cursor::new(bytes))?;
    Ok(parts)
}

/// The task set that the whole bytes spell. `Bad` with the place of the first field that is cut or breaks its rule
/// where they spell none, `NoMemory` where there was none for the set.
pub fn read_set(alloc: Global, bytes: &[u8]) -> Result<TaskSet, ImageRefusal>
    ensures { Answers result (unpacked bytes.now) }
{
    none_broken_is_within();
    match parts_of(alloc, bytes) {
        Ok(parts) => Ok(TaskSet::of(parts)),
        Err(Stop::At(place)) => Err(ImageRefusal::Bad(place as u32)),
        Err(Stop::NoMemory) => Err(ImageRefusal::NoMemory),
    }
}
