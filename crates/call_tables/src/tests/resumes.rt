//! `resume`: what it goes on with, why it does not, and a migration.

use super::calling::{WORDS, adding, call, device, fused, left_by, zeros};
use super::reader::{Stands, read_words};
use super::shapes::{MOVED, adding_moved, adding_shape};
use super::watched::Watched;
use answers::ImageFault;
use sim_run::Status;
use std::test::Fail;

/// What is put where a run that power has cut is resumed.
pub(crate) const RESUMED: &str =
    "boot 1\nstart core 0 task 1 at 0\nfinish 1 task 1 point 1 exit 0 first 2\nend clock 1 number 1 next 2 boots 1\nobject x 12\ndone\n";

/// The lines of a run that power cuts at its first commit.
pub(crate) const CUT: &str = "task add 7\npower 29\nsteps 0*29\nrun\n";

/// Lines with steps enough for a boot and a whole task.
pub(crate) const ENOUGH: &str = "task add 7\nsteps 0*300\nrun\n";

#[test]
fn a_run_that_power_cut_is_resumed(rt: HostRuntime) -> Result<(), Fail> {
    for (format, lines) in [(1, "task add 7\nsteps 0*67\nrun\n"), (2, ENOUGH)] {
        let left = left_by(&rt, format, CUT)?;
        let mut dev = device(&rt, left.as_slice())?;
        let text = adding(&rt, format, lines)?;
        let ended = call(&rt, "resume", text.as_str().as_bytes(), &mut dev)?;
        assert!(rt; ended.is(Status::Done, RESUMED.as_bytes()));
    }
    Ok(())
}

// how a `resume` of the adding set ends on these words, and whether it left them as they are
fn refused(
    rt: &HostRuntime,
    format: u32,
    words: &[u32],
    status: Status,
    line: &str,
) -> Result<bool, Fail> {
    let mut dev = device(rt, words)?;
    let text = adding(rt, format, ENOUGH)?;
    let ended = call(rt, "resume", text.as_str().as_bytes(), &mut dev)?;
    Ok(ended.is(status, line.as_bytes()) && dev.words() == words)
}

// sets a word, if there is one
fn poke(words: &mut Vec<u32>, at: usize, value: u32) {
    if let Some(word) = words.get_mut(at) {
        *word = value;
    }
}

// the first so many words, or all
fn first_of(words: &Vec<u32>, len: usize) -> &[u32] {
    &words.as_slice()[..len.min(words.len())]
}

#[test]
fn a_device_without_a_state_is_told(rt: HostRuntime) -> Result<(), Fail> {
    let blank = Status::Image(ImageFault::Blank);
    let none = zeros(&rt, WORDS)?;
    assert!(rt; refused(&rt, 1, none.as_slice(), blank, "error image blank\n")?);
    // the root names the other copy of the index, of which a commit was cut
    let mut cut = left_by(&rt, 1, "task add 7\npower 18\nsteps 0*18\nrun\n")?;
    poke(&mut cut, 1, 2);
    let damaged = Status::Image(ImageFault::Damaged(37));
    assert!(rt; refused(&rt, 1, cut.as_slice(), damaged, "error image damaged 37\n")?);
    let mut worn = left_by(&rt, 1, "task add 7\nrun\n")?;
    poke(&mut worn, 23, 4_000_000_001);
    poke(&mut worn, 25, 1);
    poke(&mut worn, 29, 2);
    let status = Status::Image(ImageFault::Worn);
    assert!(rt; refused(&rt, 1, worn.as_slice(), status, "error image worn\n")?);
    // before a migration
    assert!(rt; refused(&rt, 2, worn.as_slice(), status, "error image worn\n")?);
    Ok(())
}

// how a `resume` for a set of this format ends on the first so many of some words
fn small(rt: &HostRuntime, format: u32, words: &[u32]) -> Result<Option<(u32, u32)>, Fail> {
    let mut dev = device(rt, words)?;
    let text = adding(rt, format, ENOUGH)?;
    let ended = call(rt, "resume", text.as_str().as_bytes(), &mut dev)?;
    Ok(match ended.status {
        Status::Small { need, len } => {
            let line = format!(in rt.alloc(); "error small {need} {len}\n")?;
            if ended.is(Status::Small { need, len }, line.as_str().as_bytes())
                && dev.words() == words
            {
                Some((need, len))
            } else {
                None
            }
        }
        _ => None,
    })
}

#[test]
fn a_device_that_is_too_small_is_told_before_its_words(rt: HostRuntime) -> Result<(), Fail> {
    let left = left_by(&rt, 1, CUT)?;
    assert!(rt; small(&rt, 1, first_of(&left, 49))? == Some((50, 49)));
    // of format 2 a set needs more, and behind words of format 1 these and its own
    assert!(rt; small(&rt, 2, first_of(&left, 88))? == Some((89, 88)));
    assert!(rt; small(&rt, 2, first_of(&left, 116))? == Some((117, 116)));
    Ok(())
}

/// How many writes a migration makes: the root, two copies of a page, two slots, and word 0.
const MOVES: u32 = 68;

// how many writes a migration of these words makes
fn moves(rt: &HostRuntime, words: &[u32]) -> Result<u32, Fail> {
    let mut dev = Watched::new(device(rt, words)?, 0);
    let text = adding(rt, 2, "task add 7\nrun\n")?;
    let _ = call(rt, "resume", text.as_str().as_bytes(), &mut dev)?;
    Ok(dev.writes)
}

// whether the first state stands there, in format 1 or moved
fn is_first(words: &[u32]) -> bool {
    let shape = match words.first() {
        Some(word) if *word == MOVED => adding_moved(),
        _ => adding_shape(1),
    };
    match read_words(&shape, words) {
        Stands::Holds(held) => {
            held.number() == 0 && held.object(0) == 5 && held.open() == Some((1, 7))
        }
        _ => false,
    }
}

// whether a migration that is cut so leaves the state, and a device that is resumed as if it had not been cut
fn is_moved_again(rt: &HostRuntime, words: &[u32], passes: u32, made: bool) -> Result<bool, Fail> {
    let text = adding(rt, 2, ENOUGH)?;
    let input = text.as_str().as_bytes();
    let mut dev = fused(rt, words, passes, made)?;
    let cut = call(rt, "resume", input, &mut dev)?;
    let mut dev = dev.restore(rt.alloc(), 4096)?;
    let first = is_first(dev.words());
    let ended = call(rt, "resume", input, &mut dev)?;
    Ok(
        first
            && cut.is(Status::DeviceLost, b"error device\n".as_slice())
            && ended.is(Status::Done, RESUMED.as_bytes()),
    )
}

#[test]
fn a_migration_may_be_cut_at_each_write(rt: HostRuntime) -> Result<(), Fail> {
    let left = left_by(&rt, 1, CUT)?;
    assert!(rt; moves(&rt, left.as_slice())? == MOVES);
    for passes in 0..MOVES {
        let kept = is_moved_again(&rt, left.as_slice(), passes, false)?;
        let made = is_moved_again(&rt, left.as_slice(), passes, true)?;
        assert_eq!(rt; (passes, kept, made), (passes, true, true));
    }
    Ok(())
}
