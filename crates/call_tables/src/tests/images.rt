//! Each word of an image is changed in turn, and the device resumed: the answer is what a plain reader finds there.

use super::calling::{Ended, WORDS, adding, call, device, left_by};
use super::reader::{Held, Shape, Stands, read_words};
use super::resumes::{CUT, ENOUGH};
use super::shapes::adding_shape;
use answers::ImageFault;
use fram_dev::MemFram;
use sim_run::Status;
use std::test::Fail;

// what `resume` puts where this state stands, and steps are enough: the open task adds its argument
fn report_from(rt: &HostRuntime, held: &Held) -> Result<String, Fail> {
    let (clock, number, next, x) = (held.clock(), held.number(), held.next(), held.object(0));
    let boots = held.boots().wrapping_add(1);
    let Some((task, more)) = held.open() else {
        return Ok(format!(in rt.alloc();
            "boot {boots}\nend clock {clock} number {number} next {next} boots {boots}\nobject x {x}\ndone\n"
        )?);
    };
    let (point, count, sum) = (
        clock.wrapping_add(1),
        number.wrapping_add(1),
        x.wrapping_add(more),
    );
    Ok(format!(in rt.alloc();
        "boot {boots}\nstart core 0 task {task} at {clock}\nfinish {count} task {task} point {point} exit 0 first {next}\nend clock {point} number {count} next {next} boots {boots}\nobject x {sum}\ndone\n"
    )?)
}

// whether the device holds then what that report tells at its end
fn has_left(shape: &Shape, held: &Held, now: &[u32]) -> bool {
    let Stands::Holds(then) = read_words(shape, now) else {
        return false;
    };
    let (done, more) = match held.open() {
        None => (0, 0),
        Some((_, more)) => (1, more),
    };
    then.clock() == held.clock().wrapping_add(done)
        && then.number() == held.number().wrapping_add(done)
        && then.next() == held.next()
        && then.boots() == held.boots().wrapping_add(1)
        && then.object(0) == held.object(0).wrapping_add(more)
        && then.open().is_none()
}

// whether a `resume` on these words ended as a plain reader of them says, and left what it says
fn is_as_read(
    rt: &HostRuntime,
    shape: &Shape,
    words: &[u32],
    ended: &Ended,
    dev: &MemFram,
) -> Result<bool, Fail> {
    let (fault, line) = match read_words(shape, words) {
        Stands::Holds(held) => {
            let report = report_from(rt, &held)?;
            return Ok(
                ended.is(Status::Done, report.as_str().as_bytes())
                    && has_left(shape, &held, dev.words()),
            );
        }
        Stands::Blank => (
            ImageFault::Blank,
            format!(in rt.alloc(); "error image blank\n")?,
        ),
        Stands::Worn => (
            ImageFault::Worn,
            format!(in rt.alloc(); "error image worn\n")?,
        ),
        Stands::Damaged(place) => (
            ImageFault::Damaged(u32::try_from(place).unwrap_or(u32::MAX)),
            format!(in rt.alloc(); "error image damaged {place}\n")?,
        ),
    };
    let told = ended.is(Status::Image(fault), line.as_str().as_bytes());
    Ok(told && dev.words() == words)
}

// whether a device whose word is changed so is resumed, or told as it stands and left as it is
fn is_taken(
    rt: &HostRuntime,
    shape: &Shape,
    input: &[u8],
    left: &[u32],
    change: (usize, u32),
) -> Result<bool, Fail> {
    let (at, value) = change;
    let mut words = Vec::from_slice(rt.alloc(), left)?;
    let Some(word) = words.get_mut(at) else {
        return Ok(false);
    };
    *word = value;
    let mut dev = device(rt, words.as_slice())?;
    let ended = call(rt, "resume", input, &mut dev)?;
    is_as_read(rt, shape, words.as_slice(), &ended, &dev)
}

#[test]
fn each_word_of_an_image_is_taken_or_told(rt: HostRuntime) -> Result<(), Fail> {
    for format in [1, 2] {
        let shape = adding_shape(format);
        let left = left_by(&rt, format, CUT)?;
        let text = adding(&rt, format, ENOUGH)?;
        let input = text.as_str().as_bytes();
        for at in 0..WORDS {
            let none = is_taken(&rt, &shape, input, left.as_slice(), (at, 0))?;
            let one = is_taken(&rt, &shape, input, left.as_slice(), (at, 1))?;
            let most = is_taken(&rt, &shape, input, left.as_slice(), (at, u32::MAX))?;
            assert_eq!(rt; (at, none, one, most), (at, true, true, true));
        }
    }
    Ok(())
}
