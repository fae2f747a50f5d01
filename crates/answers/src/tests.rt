// Each answer with its exit number and its line, and a sink that fails on the line.

use crate::{ImageFault, Status, put_name};
use nv_base::MemSink;
use rv_asm::AsmCause;
use script::{ScriptCause, ScriptError};
use std::test::Fail;

/// A refusal of line 1,048,576.
fn refused(cause: ScriptCause) -> Status {
    Status::Script(ScriptError {
        line: 1_048_576,
        cause,
    })
}

#[test]
fn each_answer_has_its_exit_and_its_line(rt: HostRuntime) -> Result<(), Fail> {
    let table = [
        (Status::Done, 0, ""),
        (Status::Differs(1_048_576), 1, "differs 1048576\n"),
        (Status::Usage, 2, "error usage\n"),
        (refused(ScriptCause::Long), 3, "error script 1048576 long\n"),
        (
            refused(ScriptCause::Code(AsmCause::TooLong)),
            3,
            "error script 1048576 code toolong\n",
        ),
        (
            Status::Packed(4_294_967_295),
            3,
            "error packed 4294967295\n",
        ),
        (Status::Report(1_048_576), 3, "error report 1048576\n"),
        (Status::ReadFault, 4, "error read\n"),
        (Status::WriteFault, 5, ""),
        (Status::NoMemory, 6, "error memory\n"),
        (Status::DeviceLost, 7, "error device\n"),
        (Status::Image(ImageFault::Blank), 8, "error image blank\n"),
        (
            Status::Image(ImageFault::Damaged(4_294_967_295)),
            8,
            "error image damaged 4294967295\n",
        ),
        (Status::Image(ImageFault::Worn), 8, "error image worn\n"),
        (
            Status::Small {
                need: 4_294_967_295,
                len: 65_536,
            },
            9,
            "error small 4294967295 65536\n",
        ),
    ];
    for (status, code, line) in table {
        let mut out = MemSink::new(rt.alloc(), 64, &[])?;
        put_name(&mut out, status);
        assert_eq!(rt; status.code(), code);
        assert!(rt; out.bytes() == line.as_bytes());
    }
    Ok(())
}

#[test]
fn a_sink_that_fails_on_the_line_has_a_front_of_it(rt: HostRuntime) -> Result<(), Fail> {
    let mut out = MemSink::new(rt.alloc(), 5, &[])?;
    put_name(&mut out, Status::Usage);
    assert!(rt; out.bytes() == b"error".as_slice());
    Ok(())
}
