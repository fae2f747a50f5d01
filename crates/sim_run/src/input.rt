//! The input of a command: read to its end, or made.

ghost use Rattle.std.specs.Prelude.{◌≡◌, ◌≤◌, length, IfOk, IfErr, option_map};
ghost use Rattle.nv_base.specs.Streams.{ReadsAll};
ghost use Rattle.sim_run.specs.Answers.{own_input};
ghost use Rattle.sim_run.specs.MadeScript.{made_text};
ghost use Rattle.sim_run.specs.BeforeAnswerLine.{IsGiven, IsNotGiven, Unread};
ghost use Rattle.sim_run.specs.Halts.{unread_as};

use crate::command::Command;
use crate::made_script::make_text;
use answers::Status;
use nv_base::limits::MAX_INPUT;
use nv_base::{ReadRefusal, Source, read_all};
use script::{ScriptCause, ScriptError};
use std::alloc::Global;

/// The most bytes of an input.
pub(crate) const MOST_INPUT: usize = MAX_INPUT as usize;

// How a command ends whose input is not read.
fn unread_as(refusal: ReadRefusal) -> Status
    ensures { result ≡ unread_as refusal }
{
    match refusal {
        ReadRefusal::ReadFault => Status::ReadFault,
        ReadRefusal::TooLong => Status::Script(ScriptError {
            line: 0,
            cause: ScriptCause::Long,
        }),
        ReadRefusal::NoMemory => Status::NoMemory,
    }
}

/// All bytes that a source gives. `ReadFault` only where the source failed; `Script`, of line 0, where they are
/// too many; `NoMemory`.
fn read_input<S: Source>(alloc: Global, src: &mut S) -> Result<Vec<u8>, Status>
    ensures given { IfOk result (λ v. ReadsAll v.items (S.seen src.old) (S.seen src.new)) }
    ensures within { IfOk result (λ v. length v.items ≤ MAX_INPUT) }
    ensures unread { IfErr result (Unread (S.seen src.old) (S.seen src.new)) }
{
    match read_all(alloc, src, MOST_INPUT) {
        Ok(bytes) => Ok(bytes),
        Err(refusal) => Err(unread_as(refusal)),
    }
}

// The seed of a script that a command makes.
fn seed_of(command: Command) -> Option<u32>
    ensures { own_input command ≡ option_map made_text result }
{
    match command {
        Command::Make(seed) => Some(seed),
        Command::Run
        | Command::Resume
        | Command::Asm
        | Command::Dis
        | Command::Pack
        | Command::Serial(_)
        | Command::Audit => None,
    }
}

/// The input of a command: all bytes that a source gives, or the script of its own that `make` has, and then nothing is read.
/// `ReadFault`, `Script` and `NoMemory` as above.
pub(crate) fn input_for<S: Source>(
    alloc: Global,
    command: Command,
    src: &mut S,
) -> Result<Vec<u8>, Status>
    ensures given { let own = own_input command in
        IfOk result (λ v. IsGiven own v.items (S.seen src.old) (S.seen src.new)) }
    ensures within { IfOk result (λ v. length v.items ≤ MAX_INPUT) }
    ensures not_given { let own = own_input command in
        IfErr result (IsNotGiven own (S.seen src.old) (S.seen src.new)) }
{
    match seed_of(command) {
        Some(seed) => match make_text(alloc, seed) {
            Ok(text) => Ok(text.into_bytes()),
            Err(_) => Err(Status::NoMemory),
        },
        None => read_input(alloc, src),
    }
}
