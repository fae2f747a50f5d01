//! The objects, programs and tasks of a packed set.

ghost use Rattle.std.specs.Prelude.{◌≡◌, ◌++◌, ◌∷◌, [], IfOk, map};
ghost use Rattle.set_model.specs.Views.{spawn_of};
ghost use Rattle.nv_base.specs.Refusals.{Gives};
ghost use Rattle.task_image.specs.Reading.{several};
ghost use Rattle.task_image.specs.Unpacked.{words, object, program, task};

use crate::cursor::Cursor;
use crate::refusal::Stop;
use indexmap::IndexSet;
use nv_base::limits::{MAX_CODE, MAX_FUEL, MAX_NAME, MAX_SIZE, MAX_SLOTS, MIN_SLOTS};
use nv_base::{ProgId, Spawn};
use std::alloc::Global;
use task_set::{Name, ObjPart, ObjectParts, ProgPart, ProgramParts, Tasks, Words};

fn words(alloc: Global, cursor: &mut Cursor<'_>, n: u16) -> Result<Words, Stop>
    ensures { Gives (λ w. (w, cursor.new)) result (words n cursor.old) }
{
    let mut words = Words::new(alloc);
    for _ in 0..n {
        words.push(cursor.any_word()?)?;
    }
    Ok(words)
}

#[tactic(auto, unfolding(crate::specs::Unpacked::object))]
fn object<'a>(
    alloc: Global,
    cursor: &mut Cursor<'a>,
    taken: &mut IndexSet<&'a [u8]>,
) -> Result<ObjPart, Stop>
    ensures reading { Gives (λ o. (o, cursor.new)) result
        (object (map (λ k. k.now) taken.old.keys) cursor.old) }
    ensures taken { IfOk result (λ o. map (λ k. k.now) taken.new.keys
        ≡ map (λ k. k.now) taken.old.keys ++ o.name ∷ []) }
{
    let length_of_name = cursor.byte(1, MAX_NAME)?;
    let name = cursor.new_name(taken, length_of_name)?;
    let size = cursor.byte(1, MAX_SIZE)?;
    let slots = cursor.byte(MIN_SLOTS, MAX_SLOTS)?;
    let first = words(alloc, cursor, u16::from(size))?;
    Ok(ObjPart {
        name: Name::from_slice(alloc, name)?,
        size,
        slots,
        first,
    })
}

#[tactic(auto, unfolding(crate::specs::Unpacked::program))]
fn program<'a>(
    alloc: Global,
    cursor: &mut Cursor<'a>,
    memory: u32,
    taken: &mut IndexSet<&'a [u8]>,
) -> Result<ProgPart, Stop>
    ensures reading { Gives (λ p. (p, cursor.new)) result
        (program memory (map (λ k. k.now) taken.old.keys) cursor.old) }
    ensures taken { IfOk result (λ p. map (λ k. k.now) taken.new.keys
        ≡ map (λ k. k.now) taken.old.keys ++ p.name ∷ []) }
{
    let length_of_name = cursor.byte(1, MAX_NAME)?;
    let name = cursor.new_name(taken, length_of_name)?;
    let fuel = cursor.word(1, MAX_FUEL)?;
    let number_of_words = cursor.half(0, (memory / 4).min(u32::from(MAX_CODE)) as u16)?;
    let code = words(alloc, cursor, number_of_words)?;
    Ok(ProgPart {
        name: Name::from_slice(alloc, name)?,
        fuel,
        code,
    })
}

#[tactic(auto, unfolding(crate::specs::Unpacked::task))]
fn task(cursor: &mut Cursor<'_>, programs: u8) -> Result<Spawn, Stop>
    ensures { Gives (λ t. (spawn_of t, cursor.new)) result (task programs cursor.old) }
{
    let program = ProgId(cursor.below(programs)?);
    let arg = cursor.any_word()?;
    Ok(Spawn { program, arg })
}

/// Reads so many objects.
pub(crate) fn objects(alloc: Global, cursor: &mut Cursor<'_>, n: u8) -> Result<ObjectParts, Stop>
    ensures { Gives (λ objects. (objects, cursor.new)) result
        (several n (λ before. object (map (λ o. o.name) before)) [] cursor.old) }
{
    let mut taken = IndexSet::new(alloc);
    let mut objects = ObjectParts::new(alloc);
    for _ in 0..n {
        objects.push(object(alloc, cursor, &mut taken)?)?;
    }
    Ok(objects)
}

/// Reads so many programs, each for so much private memory.
pub(crate) fn programs(
    alloc: Global,
    cursor: &mut Cursor<'_>,
    memory: u32,
    n: u8,
) -> Result<ProgramParts, Stop>
    ensures { Gives (λ programs. (programs, cursor.new)) result
        (several n (λ before. program memory (map (λ p. p.name) before)) [] cursor.old) }
{
    let mut taken = IndexSet::new(alloc);
    let mut programs = ProgramParts::new(alloc);
    for _ in 0..n {
        programs.push(program(alloc, cursor, memory, &mut taken)?)?;
    }
    Ok(programs)
}

/// Reads so many tasks, each of so many programs.
pub(crate) fn tasks(
    alloc: Global,
    cursor: &mut Cursor<'_>,
    programs: u8,
    n: u16,
) -> Result<Tasks, Stop>
    ensures { Gives (λ tasks. (map spawn_of tasks, cursor.new)) result
        (several n (λ _. task programs) [] cursor.old) }
{
    let mut tasks = Tasks::new(alloc);
    for _ in 0..n {
        tasks.push(task(cursor, programs)?)?;
    }
    Ok(tasks)
}
