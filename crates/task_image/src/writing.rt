//! Task sets as packed bytes.

ghost use Rattle.std.specs.Prelude.{◌≡◌, ◌<◌, ◌++◌, length, IfOk, OnOk};
ghost use Rattle.std.specs.List.{flat_map};
ghost use Rattle.byteorder.specs.Endian.{little_bytes};
ghost use Rattle.set_model.specs.Sets.{object_at, program_at};
ghost use Rattle.set_model.specs.Views.{spawn_of};
ghost use Rattle.task_image.specs.Packed.{packed_header, packed_object, packed_program, packed_task, packed};

use byteorder::{ByteOrder, LittleEndian};
use nv_base::{NoMemory, ObjId, ProgId, Spawn};
use std::alloc::Global;
use task_set::TaskSet;

#[tactic(auto, using(crate::proofs::ByteFacts::one_byte))]
fn put_byte(out: &mut Vec<u8>, n: u8) -> Result<(), NoMemory>
    ensures { OnOk result (out.new.items ≡ out.old.items ++ little_bytes 1 n) }
{
    out.push(n)?;
    Ok(())
}

fn put_half(out: &mut Vec<u8>, n: u16) -> Result<(), NoMemory>
    ensures { OnOk result (out.new.items ≡ out.old.items ++ little_bytes 2 n) }
{
    let mut bytes = [0u8; 2];
    LittleEndian::write_u16(&mut bytes, n);
    out.extend_from_slice(&bytes)?;
    Ok(())
}

fn put_word(out: &mut Vec<u8>, n: u32) -> Result<(), NoMemory>
    ensures { OnOk result (out.new.items ≡ out.old.items ++ little_bytes 4 n) }
{
    let mut bytes = [0u8; 4];
    LittleEndian::write_u32(&mut bytes, n);
    out.extend_from_slice(&bytes)?;
    Ok(())
}

fn put_words(out: &mut Vec<u8>, words: &[u32]) -> Result<(), NoMemory>
    ensures { OnOk result (out.new.items ≡ out.old.items ++ flat_map (little_bytes 4) words.now) }
{
    for word in words {
        put_word(out, *word)?;
    }
    Ok(())
}

#[tactic(auto, using(std::proofs::Common::append_assoc), unfolding(crate::specs::Packed::packed_object))]
fn put_object(out: &mut Vec<u8>, set: &TaskSet, o: ObjId) -> Result<(), NoMemory>
    requires { o.0 < length set.now.objects }
    ensures { OnOk result (out.new.items ≡ out.old.items ++ packed_object (object_at set.now o.0)) }
{
    let name = set.object_name(o);
    put_byte(out, name.len() as u8)?;
    out.extend_from_slice(name)?;
    put_byte(out, set.size(o))?;
    put_byte(out, set.slots(o))?;
    put_words(out, set.first(o))?;
    Ok(())
}

#[tactic(auto, using(std::proofs::Common::append_assoc), unfolding(crate::specs::Packed::packed_program))]
fn put_program(out: &mut Vec<u8>, set: &TaskSet, p: ProgId) -> Result<(), NoMemory>
    requires { p.0 < length set.now.programs }
    ensures { OnOk result (out.new.items
        ≡ out.old.items ++ packed_program (program_at set.now p.0)) }
{
    let name = set.program_name(p);
    put_byte(out, name.len() as u8)?;
    out.extend_from_slice(name)?;
    put_word(out, set.fuel(p))?;
    let code = set.code(p);
    put_half(out, code.len() as u16)?;
    put_words(out, code)?;
    Ok(())
}

#[tactic(auto, using(std::proofs::Common::append_assoc), unfolding(crate::specs::Packed::packed_task))]
fn put_task(out: &mut Vec<u8>, task: &Spawn) -> Result<(), NoMemory>
    ensures { OnOk result (out.new.items ≡ out.old.items ++ packed_task (spawn_of task.now)) }
{
    put_byte(out, task.program.0)?;
    put_word(out, task.arg)?;
    Ok(())
}

#[tactic(auto, unfolding(crate::specs::Packed::packed_header))]
fn header_of(alloc: Global, set: &TaskSet) -> Result<Vec<u8>, NoMemory>
    ensures { IfOk result (λ out. out.items ≡ packed_header set.now) }
{
    let mut out = Vec::new(alloc);
    out.extend_from_slice(b"NVKS")?;
    put_half(&mut out, u16::from(set.format()))?;
    put_byte(&mut out, set.cores())?;
    put_byte(&mut out, set.objects())?;
    put_byte(&mut out, set.programs())?;
    put_byte(&mut out, 0)?;
    put_half(&mut out, set.tasks().len() as u16)?;
    put_word(&mut out, set.memory())?;
    put_half(&mut out, set.records())?;
    put_half(&mut out, 0)?;
    Ok(out)
}

fn put_objects(out: &mut Vec<u8>, set: &TaskSet) -> Result<(), NoMemory>
    ensures { OnOk result (out.new.items
        ≡ out.old.items ++ flat_map packed_object set.now.objects) }
{
    for o in 0..set.objects() {
        put_object(out, set, ObjId(o))?;
    }
    Ok(())
}

fn put_programs(out: &mut Vec<u8>, set: &TaskSet) -> Result<(), NoMemory>
    ensures { OnOk result (out.new.items
        ≡ out.old.items ++ flat_map packed_program set.now.programs) }
{
    for p in 0..set.programs() {
        put_program(out, set, ProgId(p))?;
    }
    Ok(())
}

fn put_tasks(out: &mut Vec<u8>, set: &TaskSet) -> Result<(), NoMemory>
    ensures { OnOk result (out.new.items ≡ out.old.items ++ flat_map packed_task set.now.tasks) }
{
    for task in set.tasks() {
        put_task(out, task)?;
    }
    Ok(())
}

/// The packed bytes of a task set.
#[tactic(auto, unfolding(crate::specs::Packed::packed))]
pub fn write_set(alloc: Global, set: &TaskSet) -> Result<Vec<u8>, NoMemory>
    ensures { IfOk result (λ bytes. bytes.items ≡ packed set.now) }
{
    let mut out = header_of(alloc, set)?;
    put_objects(&mut out, set)?;
    put_programs(&mut out, set)?;
    put_tasks(&mut out, set)?;
    Ok(out)
}
