//! The numbers with which a packed set begins.
ghost use Rattle.nv_base.specs.Refusals.{Gives};
ghost use Rattle.task_image.specs.Unpacked.{header};
ghost use Rattle.task_image.specs.HeaderView.{header_of};

use crate::cursor::Cursor;
use crate::refusal::Stop;
use nv_base::limits::{MAX_CORES, MAX_PROGRAMS};
use task_set::{max_objects, max_records};

/// The numbers before the first object.
#[derive(Clone, Copy, Debug)]
pub struct Header {
    /// By which the most objects and task records go.
    pub format: u8,
    /// How many cores there are.
    pub cores: u8,
    /// How many objects follow.
    pub objects: u8,
    /// How many programs follow the objects.
    pub programs: u8,
    /// How many tasks follow the programs.
    pub tasks: u16,
    /// The private memory of each attempt, in bytes.
    pub memory: u32,
    /// How many tasks may be open at a time.
    pub records: u16,
}

/// Reads the numbers before the first object.
#[tactic(auto, unfolding(crate::specs::Unpacked::header))]
pub(crate) fn read_header(cursor: &mut Cursor<'_>) -> Result<Header, Stop>
    ensures { Gives (λ h. (header_of h, cursor.new)) result (header cursor.old) }
{
    cursor.literal(b"NVKS")?;
    let format = cursor.format()?;
    let cores = cursor.byte(1, MAX_CORES)?;
    let objects = cursor.byte(1, max_objects(format))?;
    let programs = cursor.byte(1, MAX_PROGRAMS)?;
    cursor.literal(&[0])?;
    let tasks = cursor.half(0, max_records(format))?;
    let memory = cursor.memory()?;
    let records = cursor.half(tasks.max(1), max_records(format))?;
    cursor.literal(&[0, 0])?;
    Ok(Header {
        format,
        cores,
        objects,
        programs,
        tasks,
        memory,
        records,
    })
}
