//! Sets as scripts, written out by hand.

ghost use Rattle.std.specs.Prelude.{◌≤◌, length};

use super::*;
use nv_base::{NoMemory, ProgId, Spawn};
use script::read_script;
use std::alloc::Global;
use std::test::Fail;
use task_set::{
    Name, ObjPart, ObjectParts, ProgPart, ProgramParts, SetParts, TaskSet, Tasks, Words,
};

fn object(rt: &HostRuntime, name: &[u8], slots: u8, words: &[u32]) -> Result<ObjPart, NoMemory>
    requires { length words.now ≤ 64 }
{
    Ok(ObjPart {
        name: Name::from_slice(rt.alloc(), name)?,
        size: words.len() as u8,
        slots,
        first: Words::from_slice(rt.alloc(), words)?,
    })
}

fn program(rt: &HostRuntime, name: &[u8], fuel: u32, code: &[u32]) -> Result<ProgPart, NoMemory> {
    Ok(ProgPart {
        name: Name::from_slice(rt.alloc(), name)?,
        fuel,
        code: Words::from_slice(rt.alloc(), code)?,
    })
}

fn task(tasks: &mut Tasks, program: u8, arg: u32) -> Result<(), NoMemory> {
    tasks.push(Spawn {
        program: ProgId(program),
        arg,
    })
}

// the text of these parts, which are a set
fn text_of(rt: &HostRuntime, parts: SetParts) -> Result<String, NoMemory> {
    match TaskSet::build(rt.alloc(), parts) {
        Ok(set) => script_text(rt.alloc(), &set),
        Err(_) => Ok(String::new(rt.alloc())),
    }
}

// load the word of object 0, add the argument, store it back
const ADD: [u32; 12] = [
    0x0005_0413,
    0x0000_0513,
    0x2000_0593,
    0x0010_0893,
    0x0000_0073,
    0x2000_2283,
    0x0082_82b3,
    0x2050_2023,
    0x0020_0893,
    0x0000_0073,
    0x0040_0893,
    0x0000_0073,
];

const ADD_TEXT: &str = "nvk 1
cores 1
memory 1024
records 1
object x 1 2 5
program add 100
addi s0, a0, 0
addi a0, zero, 0
addi a1, zero, 512
addi a7, zero, 1
ecall
lw t0, 512(zero)
add t0, t0, s0
sw t0, 512(zero)
addi a7, zero, 2
ecall
addi a7, zero, 4
ecall
end
task add 7
run
";

#[test]
fn one_task_that_adds(rt: HostRuntime) -> Result<(), Fail> {
    let mut objects = ObjectParts::new(rt.alloc());
    objects.push(object(&rt, b"x", 2, &[5])?)?;
    let mut programs = ProgramParts::new(rt.alloc());
    programs.push(program(&rt, b"add", 100, &ADD)?)?;
    let mut tasks = Tasks::new(rt.alloc());
    task(&mut tasks, 0, 7)?;
    let parts = SetParts {
        format: 1,
        cores: 1,
        memory: 1024,
        records: 1,
        objects,
        programs,
        tasks,
    };
    assert_eq!(rt; text_of(&rt, parts)?.as_str(), ADD_TEXT);
    Ok(())
}

const LIMITS_TEXT: &str = "nvk 2
cores 8
memory 65536
records 1024
object x 2 2 0 0
object sixteen_letters_ 3 8 4294967295 0 10
program end 1000000
end
program x 1
.word 0xffffffff
jal zero, 0
end
task x 4294967295
task end 0
run
";

#[test]
fn several_objects_and_programs(rt: HostRuntime) -> Result<(), Fail> {
    let mut objects = ObjectParts::new(rt.alloc());
    objects.push(object(&rt, b"x", 2, &[0, 0])?)?;
    objects.push(object(&rt, b"sixteen_letters_", 8, &[u32::MAX, 0, 10])?)?;
    let mut programs = ProgramParts::new(rt.alloc());
    programs.push(program(&rt, b"end", 1_000_000, &[])?)?;
    programs.push(program(&rt, b"x", 1, &[u32::MAX, 0x0000_006f])?)?;
    let mut tasks = Tasks::new(rt.alloc());
    task(&mut tasks, 1, u32::MAX)?;
    task(&mut tasks, 0, 0)?;
    let parts = SetParts {
        format: 2,
        cores: 8,
        memory: 65_536,
        records: 1024,
        objects,
        programs,
        tasks,
    };
    assert_eq!(rt; text_of(&rt, parts)?.as_str(), LIMITS_TEXT);
    Ok(())
}

// a set of format 2 with 65 objects, whose names are two letters
fn many_objects(alloc: Global) -> Result<Vec<u8>, Fail> {
    let mut text = Vec::from_slice(alloc, b"nvk 2\ncores 1\nmemory 1024\nrecords 1024\n")?;
    for i in 0..65u8 {
        text.extend_from_slice(b"object ")?;
        text.push(b'a' + i / 16)?;
        text.push(b'a' + i % 16)?;
        text.extend_from_slice(b" 1 2 0\n")?;
    }
    text.extend_from_slice(b"program p 1\nend\nrun\n")?;
    Ok(text)
}

#[test]
fn a_set_of_format_2_is_written_as_it_was_read(rt: HostRuntime) -> Result<(), Fail> {
    let text = many_objects(rt.alloc())?;
    let Ok(script) = read_script(rt.alloc(), &text) else {
        return Err("refused")?;
    };
    assert_eq!(rt; script.set.format(), 2);
    let written = script_text(rt.alloc(), &script.set)?;
    assert!(rt; written.as_str().as_bytes() == text.as_slice());
    Ok(())
}
