//! A device that loses a call of a run or of a resume, each in turn, and what is told and left.

use super::calling::{adding, call, device, fused, left_by, zeros};
use super::histories::History;
use super::reader::{Stands, read_words};
use super::resumes::{CUT, ENOUGH, RESUMED};
use super::shapes::{adding_shape, pair_shape};
use super::watched::Watched;
use answers::ImageFault;
use sim_run::Status;
use std::test::Fail;

/// How many writes format the adding set: one for each word, and word 0 once more.
const FORMAT: u32 = 51;

// whether a run that loses this write of its format has put nothing, and leaves no state, or the first one where all is made
fn is_blank_or_first(rt: &HostRuntime, passes: u32, made: bool) -> Result<bool, Fail> {
    let text = adding(rt, 1, ENOUGH)?;
    let input = text.as_str().as_bytes();
    let words = zeros(rt, 64)?;
    let mut dev = fused(rt, words.as_slice(), passes, made)?;
    let cut = call(rt, "run", input, &mut dev)?;
    let mut dev = dev.restore(rt.alloc(), 4096)?;
    let ended = call(rt, "resume", input, &mut dev)?;
    let blank = ended.is(
        Status::Image(ImageFault::Blank),
        b"error image blank\n".as_slice(),
    );
    let first = ended.is(Status::Done, RESUMED.as_bytes());
    let whole = made && passes.saturating_add(1) == FORMAT;
    Ok(
        cut.is(Status::DeviceLost, b"error device\n".as_slice())
            && if whole { first } else { blank },
    )
}

#[test]
fn a_format_may_be_cut_at_each_write(rt: HostRuntime) -> Result<(), Fail> {
    for passes in 0..FORMAT {
        let kept = is_blank_or_first(&rt, passes, false)?;
        let made = is_blank_or_first(&rt, passes, true)?;
        assert_eq!(rt; (passes, kept, made), (passes, true, true));
    }
    Ok(())
}

#[test]
fn a_lost_root_write_is_made_or_not(rt: HostRuntime) -> Result<(), Fail> {
    let text = adding(&rt, 1, "task add 7\nsteps 0*40\nrun\n")?;
    // of which 51 are the format's, and 15 the commit's
    let words = zeros(&rt, 64)?;
    let mut dev = Watched::new(device(&rt, words.as_slice())?, 0);
    let ended = call(&rt, "run", text.as_str().as_bytes(), &mut dev)?;
    assert_eq!(rt; (ended.status, dev.writes), (Status::Done, 66));
    let lines = b"start core 0 task 1 at 0\nerror device\n".as_slice();
    for (made, number, x) in [(false, 0, 5), (true, 1, 12)] {
        let words = zeros(&rt, 64)?;
        let mut dev = fused(&rt, words.as_slice(), 65, made)?;
        let ended = call(&rt, "run", text.as_str().as_bytes(), &mut dev)?;
        assert!(rt; ended.is(Status::DeviceLost, lines));
        let Stands::Holds(held) = read_words(&adding_shape(1), dev.words()) else {
            return Ok(assert!(rt; false));
        };
        assert_eq!(rt; (held.number(), held.object(0)), (number, x));
    }
    Ok(())
}

// whether these bytes are a front of a text, and then the line of a device that lost a call
fn is_front(put: &[u8], whole: &[u8]) -> bool {
    let line = b"error device\n".as_slice();
    if !put.ends_with(line) {
        return false;
    }
    let front = &put[..put.len().saturating_sub(line.len())];
    whole.starts_with(front)
}

// whether a resume that loses this read, and no other one, tells so behind a front of its report, and leaves a state
fn is_told(rt: &HostRuntime, left: &[u32], loses: u32) -> Result<Option<bool>, Fail> {
    let text = adding(rt, 1, ENOUGH)?;
    let input = text.as_str().as_bytes();
    let memory = device(rt, left)?;
    let mut dev = Watched::new(memory, loses);
    let cut = call(rt, "resume", input, &mut dev)?;
    if cut.status == Status::Done {
        return Ok(None);
    }
    let ended = call(rt, "resume", input, &mut dev)?;
    Ok(Some(
        cut.status == Status::DeviceLost
            && is_front(cut.put.as_slice(), RESUMED.as_bytes())
            && ended.status == Status::Done
            && ended
                .put
                .as_slice()
                .ends_with(b"object x 12\ndone\n".as_slice()),
    ))
}

#[test]
fn a_device_may_lose_one_read_and_go_on(rt: HostRuntime) -> Result<(), Fail> {
    let left = left_by(&rt, 1, CUT)?;
    let mut told = 0u32;
    for loses in 1..200 {
        match is_told(&rt, left.as_slice(), loses)? {
            None => break,
            Some(right) => assert_eq!(rt; (loses, right), (loses, true)),
        }
        told = told.saturating_add(1);
    }
    // those of `open`, of the boot, of the copy, and of the end part, each more than once
    assert!(rt; told > 70 && told < 199);
    Ok(())
}

/// Two cores, a task that copies x to y with 1 more, and one that writes 9 to x.
const PAIR: &str =
    "nvk 1\ncores 2\nmemory 1024\nrecords 4\nobject x 1 2 5\nobject y 1 2 8\ncode cp 100\n00455313 00f57513 20000593 00100893\n00000073 00030513 20002283 00128293\n20502023 00200893 00000073 00400893\n00000073\nend\ncode put 100\n00455293 00f57513 20502023 20000593\n00200893 00000073 00400893 00000073\nend\ntask cp 16\ntask put 144\n";

/// A failure of power in the commit of one of them, and steps enough.
const FAILS: &str = "power 42\nsteps 0*7 1*35 01*120\nrun\n";

/// Steps enough for a boot and both.
const ON: &str = "steps 01*220\nrun\n";

// whether a report ends with what a plain replay makes of a history, and with what its device tells
fn is_replayed(
    rt: &HostRuntime,
    history: &mut History,
    report: &[u8],
    words: &[u32],
) -> Result<bool, Fail> {
    let Stands::Holds(held) = read_words(&pair_shape(), words) else {
        return Ok(false);
    };
    let once = history.is_once_each(2) && history.count() == held.number();
    history.sort()?;
    let Some((x, y)) = history.replay() else {
        return Ok(false);
    };
    let (clock, number, boots) = (history.clock(), held.number(), held.boots());
    let end = format!(in rt.alloc();
        "end clock {clock} number {number} next 3 boots {boots}\nobject x {x}\nobject y {y}\ndone\n"
    )?;
    let left = held.clock() == clock && held.object(0) == x && held.object(1) == y;
    Ok(once && left && number == 2 && report.ends_with(end.as_str().as_bytes()))
}

// whether a run of both that loses this write is gone on with as one history
fn goes_on(rt: &HostRuntime, passes: u32, made: bool) -> Result<bool, Fail> {
    let text = format!(in rt.alloc(); "{PAIR}{FAILS}")?;
    let rest = format!(in rt.alloc(); "{PAIR}{ON}")?;
    let words = zeros(rt, 84)?;
    let mut dev = fused(rt, words.as_slice(), passes, made)?;
    let first = call(rt, "run", text.as_str().as_bytes(), &mut dev)?;
    let mut history = History::new(rt);
    history.tell(first.put.as_slice())?;
    let mut dev = dev.restore(rt.alloc(), 4096)?;
    let found = match read_words(&pair_shape(), dev.words()) {
        Stands::Holds(held) => history.find(&held)?,
        _ => false,
    };
    let then = call(rt, "resume", rest.as_str().as_bytes(), &mut dev)?;
    history.tell(then.put.as_slice())?;
    let ended = first.status == Status::DeviceLost || first.status == Status::Done;
    Ok(
        ended
            && found
            && then.status == Status::Done
            && is_replayed(rt, &mut history, then.put.as_slice(), dev.words())?,
    )
}

/// The writes of the format of both.
const PAIR_FORMAT: u32 = 85;

/// And of the whole run: a commit that power cuts, a boot, and two commits.
const PAIR_ALL: u32 = 147;

#[test]
fn each_write_may_be_lost_and_the_run_resumed(rt: HostRuntime) -> Result<(), Fail> {
    for passes in PAIR_FORMAT..PAIR_ALL {
        let kept = goes_on(&rt, passes, false)?;
        let made = goes_on(&rt, passes, true)?;
        assert_eq!(rt; (passes, kept, made), (passes, true, true));
    }
    Ok(())
}
