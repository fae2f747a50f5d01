// Finishes whole and one after another, and reports beside them: two tasks that finish in another order than the serial
// one, a report of theirs with one thing changed, and the audit of a long run.

use super::{answers, ends};
use crate::{Status, make_text, simulate};
use fram_dev::MemFram;
use nv_base::{MemSink, MemSource};
use std::rc::RcStr;
use std::test::Fail;

/// One task copies x to y, and one writes x; the second finishes first, and stands behind the first in the serial order.
const COPY_AND_PUT: &str =
    "nvk 1\ncores 2\nmemory 1024\nrecords 4\nobject x 1 2 5\nobject y 1 2 8\nprogram cp 100\nsrli t1, a0, 4\nandi a0, a0, 15\nli a1, 512\nli a7, 1\necall\nmv a0, t1\nlw t0, 512(zero)\naddi t0, t0, 1\nsw t0, 512(zero)\nli a7, 2\necall\nli a7, 4\necall\nend\nprogram put 100\nsrli t0, a0, 4\nsw t0, 512(zero)\nandi a0, a0, 15\nli a1, 512\nli a7, 2\necall\nli a7, 4\necall\nend\ntask cp 16\ntask put 144\nsteps 0*7 1*36 0*35\nrun\n";

/// What they put.
const REPORT: &str =
    "start core 0 task 1 at 0\nstart core 1 task 2 at 0\nfinish 1 task 2 point 1 exit 0 first 3\nfinish 2 task 1 point 0 exit 1 first 3\nend clock 1 number 2 next 3 boots 0\nobject x 9\nobject y 6\ndone\n";

#[test]
fn first_finishes_are_put(rt: HostRuntime) -> Result<(), Fail> {
    let one =
        "finish 1 task 1 point 1 exit 1 first 3\nend clock 1 number 1 next 3 boots 0\nobject x 5\nobject y 6\nopen 2 put 144\ndone\n";
    let two =
        "finish 1 task 1 point 1 exit 1 first 3\nfinish 2 task 2 point 2 exit 0 first 3\nend clock 2 number 2 next 3 boots 0\nobject x 9\nobject y 6\ndone\n";
    assert!(rt; answers(&rt, &["serial", "1"], COPY_AND_PUT, 0, one)?);
    for count in ["2", "3", "10000"] {
        assert!(rt; answers(&rt, &["serial", count], COPY_AND_PUT, 0, two)?);
    }
    for count in ["0", "10001", "-1", "x", "00000000001"] {
        assert!(rt; answers(&rt, &["serial", count], COPY_AND_PUT, 2, "error usage\n")?);
    }
    assert!(rt; answers(&rt, &["serial"], COPY_AND_PUT, 2, "error usage\n")?);
    assert!(rt;
        answers(
            &rt,
            &["serial", "1"],
            "nvk 3\n",
            3,
            "error script 1 range\n"
        )?
    );
    Ok(())
}

/// Whether an audit of a report of these two tasks ends with that exit status, and puts that.
fn audited(rt: &HostRuntime, report: &str, exit: u8, expected: &str) -> Result<bool, Fail> {
    let text = format!(in rt.alloc(); "{COPY_AND_PUT}{report}")?;
    answers(rt, &["audit"], text.as_str(), exit, expected)
}

/// Their report with one line of it in place of another: each line is given with its number.
const CHANGES: [(&str, u8, &str); 8] = [
    // the points exchanged
    (
        "start core 0 task 1 at 0\nstart core 1 task 2 at 0\nfinish 1 task 2 point 0 exit 0 first 3\nfinish 2 task 1 point 1 exit 1 first 3\nend clock 1 number 2 next 3 boots 0\nobject x 9\nobject y 6\ndone\n",
        1,
        "differs 7\n",
    ),
    // the last line taken away
    (
        "start core 0 task 1 at 0\nstart core 1 task 2 at 0\nfinish 1 task 2 point 1 exit 0 first 3\nfinish 2 task 1 point 0 exit 1 first 3\nend clock 1 number 2 next 3 boots 0\nobject x 9\nobject y 6\n",
        3,
        "error report 8\n",
    ),
    // another outcome, another first child, another clock
    (
        "finish 1 task 2 point 1 exit 0 first 3\nfinish 2 task 1 point 0 exit 2 first 3\nend clock 1 number 2 next 3 boots 0\nobject x 9\nobject y 6\ndone\n",
        1,
        "differs 2\n",
    ),
    (
        "finish 1 task 2 point 1 exit 0 first 3\nfinish 2 task 1 point 0 exit 1 first 4\nend clock 1 number 2 next 3 boots 0\nobject x 9\nobject y 6\ndone\n",
        1,
        "differs 2\n",
    ),
    (
        "finish 1 task 2 point 1 exit 0 first 3\nfinish 2 task 1 point 0 exit 1 first 3\nend clock 2 number 2 next 3 boots 7\nobject x 9\nobject y 6\ndone\n",
        1,
        "differs 3\n",
    ),
    // a task that is open yet has no line of its own
    (
        "finish 1 task 1 point 1 exit 1 first 3\nend clock 1 number 1 next 3 boots 0\nobject x 5\nobject y 6\ndone\n",
        1,
        "differs 5\n",
    ),
    // a number with a leading zero
    (
        "finish 01 task 1 point 1 exit 1 first 3\nend clock 1 number 1 next 3 boots 0\nobject x 5\nobject y 6\nopen 2 put 144\ndone\n",
        3,
        "error report 1\n",
    ),
    // nothing behind the script
    ("", 3, "error report 1\n"),
];

#[test]
fn reports_are_audited(rt: HostRuntime) -> Result<(), Fail> {
    assert!(rt; audited(&rt, REPORT, 0, "agreed 2\n")?);
    for (report, exit, expected) in CHANGES {
        assert!(rt; audited(&rt, report, exit, expected)?);
    }
    assert!(rt;
        answers(
            &rt,
            &["audit"],
            "nvk 1\ncores 9\n",
            3,
            "error script 2 range\n"
        )?
    );
    assert!(rt; answers(&rt, &["audit", "1"], COPY_AND_PUT, 2, "error usage\n")?);
    // it touches no device, so it needs none
    let text = format!(in rt.alloc(); "{COPY_AND_PUT}{REPORT}")?;
    let (status, _) = ends(&rt, &["audit"], text.as_str().as_bytes(), (&[], &[1]))?;
    assert!(rt; status == Status::WriteFault);
    Ok(())
}

/// The report of the script that `make` runs, behind that script.
fn made_run(rt: &HostRuntime, seed: u32) -> Result<Vec<u8>, Fail> {
    let script = make_text(rt.alloc(), seed)?;
    let mut words = Vec::new(rt.alloc());
    words.push(RcStr::from_str(rt.alloc(), "run")?)?;
    let mut src = MemSource::new(rt.alloc(), script.as_bytes(), &[])?;
    let mut out = MemSink::new(rt.alloc(), 65_536, &[])?;
    let zeros = vec![in rt.alloc(); 0u32; 4096]?;
    let mut dev = MemFram::new(rt.alloc(), zeros.as_slice(), 40_000)?;
    let status = simulate(rt.alloc(), words.as_slice(), &mut src, &mut out, &mut dev);
    if status != Status::Done {
        return Err(Fail::new("a run that is done is wanted"));
    }
    let mut both = Vec::from_slice(rt.alloc(), script.as_bytes())?;
    both.extend_from_slice(out.bytes())?;
    Ok(both)
}

/// How many lines are this one.
fn lines_like(bytes: &[u8], line: &[u8]) -> u32 {
    let mut count: u32 = 0;
    for other in bytes.split(|b| *b == b'\n') {
        if other == line {
            count = count.saturating_add(1);
        }
    }
    count
}

#[test]
fn a_long_run_is_audited(rt: HostRuntime) -> Result<(), Fail> {
    let both = made_run(&rt, 18)?;
    assert!(rt; lines_like(both.as_slice(), b"fail") == 40);
    let (status, put) = ends(&rt, &["audit"], both.as_slice(), (&[], &[]))?;
    assert!(rt; status == Status::Done);
    assert!(rt; put.as_slice() == b"agreed 51\n".as_slice());
    Ok(())
}
