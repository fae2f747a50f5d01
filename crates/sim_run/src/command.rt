//! The commands, by their words.

ghost use Rattle.std.specs.Prelude.{◌≡◌, map, IfOk, IfSome, Some, None, MatchResult};
ghost use Rattle.std.specs.Rc.{rc_str_bytes};
ghost use Rattle.sim_run.specs.Commands.{IsWithin, command_of, named, numbered};

use plain_text::number_in;
use std::rc::RcStr;

/// The most finishes that `serial` is asked for.
pub const MOST_SERIAL: u32 = 10_000;

/// What `simulate` is asked for.
#[derive(Clone, Copy, PartialEq, Eq, Debug)]
pub enum Command {
    /// `run`: a script in, the event machine's report out.
    Run,
    /// `resume`: a script in, the event machine's report out, from the state that the device holds.
    Resume,
    /// `asm`: assembler text in, its words out, one a line.
    Asm,
    /// `dis`: a packed set in, its script text out.
    Dis,
    /// `pack`: a script in, its packed set out.
    Pack,
    /// `serial N`: a script in, its first N finishes out, each run whole, the least open id first.
    Serial(u32),
    /// `audit`: a script and a report of it in, out how many finishes agree with their serial replay.
    Audit,
    /// `make N`: nothing in, the summary of a run out, whose steps are drawn with this seed.
    Make(u32),
}

/// Why words are no command.
#[derive(Clone, Copy, PartialEq, Eq, Debug)]
pub enum WordsRefusal {
    /// They are no form of a command.
    Usage,
}

fn named(word: &str) -> Option<Command>
    ensures { result ≡ named word.now }
{
    if word == "run" {
        Some(Command::Run)
    } else if word == "resume" {
        Some(Command::Resume)
    } else if word == "asm" {
        Some(Command::Asm)
    } else if word == "dis" {
        Some(Command::Dis)
    } else if word == "pack" {
        Some(Command::Pack)
    } else if word == "audit" {
        Some(Command::Audit)
    } else {
        None
    }
}

fn numbered(word: &str, number: &str) -> Option<Command>
    ensures { result ≡ numbered word.now number.now }
{
    if word == "make" {
        match number_in(0, u32::MAX, number.as_bytes()) {
            Ok(seed) => Some(Command::Make(seed)),
            Err(_) => None,
        }
    } else if word == "serial" {
        match number_in(1, MOST_SERIAL, number.as_bytes()) {
            Ok(count) => Some(Command::Serial(count)),
            Err(_) => None,
        }
    } else {
        None
    }
}

// A command that was found.
fn or_usage(found: Option<Command>) -> Result<Command, WordsRefusal>
    ensures { MatchResult result (λ c. found ≡ Some c) (λ e. found ≡ None) }
{
    match found {
        Some(command) => Ok(command),
        None => Err(WordsRefusal::Usage),
    }
}

/// The command that these words name. `Usage` exactly where they name none. Takes no memory.
pub fn words_of(words: &[RcStr]) -> Result<Command, WordsRefusal>
    ensures named { let named = command_of (map rc_str_bytes words.now) in
        MatchResult result (λ c. named ≡ Some c) (λ e. named ≡ None) }
    ensures within { IfOk result IsWithin }
{
    match words {
        [word] => or_usage(named(word.as_str())),
        [word, number] => or_usage(numbered(word.as_str(), number.as_str())),
        _ => Err(WordsRefusal::Usage),
    }
}
