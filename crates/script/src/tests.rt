//! Scripts as a user writes them, right and wrong: the answers are worked out by hand from the format's page. `tables/scripts.txt`
//! has many more, which the program answers.

use super::*;
use nv_base::{ObjId, ProgId};
use rv_asm::AsmCause;
use std::alloc::Global;
use std::test::Fail;

/// Four lines.
const NUMBERS: &[u8] = b"nvk 1\ncores 1\nmemory 1024\nrecords 1\n";

/// Five lines, with an object.
const OBJECTS: &[u8] = b"nvk 1\ncores 1\nmemory 1024\nrecords 1\nobject x 1 2 5\n";

/// Eight lines, with an object and a program.
const CODE: &[u8] =
    b"nvk 1\ncores 1\nmemory 1024\nrecords 1\nobject x 1 2 5\ncode add 100\n00050413 00000513\nend\n";

/// A text behind a front, and the line and the cause of its refusal.
type Row = (&'static [u8], &'static [u8], u32, ScriptCause);

/// Each cause once.
static REFUSED: [Row; 12] = [
    (CODE, b"run\r", 9, ScriptCause::Byte),
    (CODE, b"end\nrun\n", 9, ScriptCause::Word),
    (CODE, b"task add 1 2\nrun\n", 9, ScriptCause::Count),
    (NUMBERS, b"object 9x 0 2\n", 5, ScriptCause::Name),
    (NUMBERS, b"object x 1 2 +1\n", 5, ScriptCause::Number),
    (NUMBERS, b"object x 1 9 7 8\n", 5, ScriptCause::Range),
    (OBJECTS, b"object x 0 2\n", 6, ScriptCause::Twice),
    (CODE, b"task x 7\n", 9, ScriptCause::Unknown),
    (CODE, b"task add 1\ntask add 1\n", 10, ScriptCause::Many),
    (OBJECTS, b"code p 1\n00000073", 8, ScriptCause::End),
    (b"", b"", 1, ScriptCause::End),
    (
        OBJECTS,
        b"program p 1\nnop\nj there\nend # \x80\n",
        8,
        ScriptCause::Code(AsmCause::Label),
    ),
];

/// The refusal of a text. None where it is a script.
fn refusal(alloc: Global, front: &[u8], text: &[u8]) -> Result<Option<ScriptError>, Fail> {
    let mut bytes = Vec::from_slice(alloc, front)?;
    bytes.extend_from_slice(text)?;
    match read_script(alloc, &bytes) {
        Ok(_) => Ok(None),
        Err(ScriptRefusal::At(error)) => Ok(Some(error)),
        Err(ScriptRefusal::NoMemory) => Err("no memory")?,
    }
}

#[test]
fn texts_are_refused_at_their_lines(rt: HostRuntime) -> Result<(), Fail> {
    for (front, text, line, cause) in &REFUSED {
        let expected = Some(ScriptError {
            line: *line,
            cause: *cause,
        });
        assert_eq!(rt; refusal(rt.alloc(), front, text)?, expected);
    }
    assert_eq!(rt; ScriptCause::Long.number(), 1);
    assert_eq!(rt; ScriptCause::Code(AsmCause::Label).number(), 10);
    assert_eq!(rt; ScriptCause::End.number(), 12);
    Ok(())
}

#[test]
fn a_script_is_read(rt: HostRuntime) -> Result<(), Fail> {
    let alloc = rt.alloc();
    let text =
        b"# first\r\nnvk 1\r\n\n cores\t2 # two\nmemory 1028\nrecords 3\nobject x 2 2 5 -7\nobject y 1 8\n# p\nprogram p 1000000\nstart: addi a0, a0, 1 # one\n\nj start\nend\ntask p -7\ntask p 0xfF\nsteps 01*2 1\npower 3*2 0\nmix 18 16\nrun";
    let Ok(script) = read_script(alloc, text) else {
        return Err("refused")?;
    };
    assert_eq!(rt; script.cores_line, 4);
    assert_eq!(rt; script.set.cores(), 2);
    assert_eq!(rt; script.set.memory(), 1028);
    assert_eq!(rt; script.set.records(), 3);
    assert_eq!(rt; script.set.objects(), 2);
    assert_eq!(rt; script.set.programs(), 1);
    if script.set.objects() == 2 {
        assert!(rt; script.set.object_name(ObjId(1)) == b"y".as_slice());
        assert!(rt; script.set.first(ObjId(0)) == [5, 4_294_967_289].as_slice());
        assert!(rt; script.set.first(ObjId(1)) == [0].as_slice());
        assert_eq!(rt; script.set.slots(ObjId(1)), 8);
    }
    if script.set.programs() == 1 {
        // addi a0, a0, 1, and jal zero, -4
        assert!(rt; script.set.code(ProgId(0)) == [0x0015_0513, 0xffdf_f06f].as_slice());
        assert_eq!(rt; script.set.fuel(ProgId(0)), 1_000_000);
    }
    let tasks = script.set.tasks();
    assert_eq!(rt; tasks.len(), 2);
    if tasks.len() == 2 {
        assert_eq!(rt; tasks[0].arg, 4_294_967_289);
        assert_eq!(rt; tasks[1].arg, 255);
    }
    // 5 + 16 core steps, and failures after 3, 6 and 6
    assert_eq!(rt; script.schedule.len(), 24);
    Ok(())
}

/// How many bytes of a text behind a front are still of the script. None where it is refused.
fn bytes_of_script(alloc: Global, front: &[u8], text: &[u8]) -> Result<Option<usize>, Fail> {
    let mut bytes = Vec::from_slice(alloc, front)?;
    bytes.extend_from_slice(text)?;
    match read_front(alloc, &bytes) {
        Ok((_, count)) => Ok(count.checked_sub(front.len())),
        Err(ScriptRefusal::At(_)) => Ok(None),
        Err(ScriptRefusal::NoMemory) => Err("no memory")?,
    }
}

#[test]
fn a_front_is_read(rt: HostRuntime) -> Result<(), Fail> {
    let rows: [(&[u8], &[u8], Option<usize>); 6] = [
        (CODE, b"run", Some(3)),
        (CODE, b"run\nend clock 0\n", Some(4)),
        (CODE, b"\n run # now\r\nrun\n", Some(13)),
        (CODE, b"run now\n", None),
        (CODE, b"task add 1\n", None),
        // no `run` line stands in a block
        (OBJECTS, b"code p 1\nrun\nend\n", None),
    ];
    for (front, text, expected) in rows {
        assert_eq!(rt; bytes_of_script(rt.alloc(), front, text)?, expected);
    }
    Ok(())
}
