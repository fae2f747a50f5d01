//! The call that a program makes.

ghost use Rattle.std.specs.Prelude.{◌≤◌, length, map};
ghost use Rattle.std.specs.Rc.{rc_str_bytes};
ghost use Rattle.simulation.specs.Stores.{store, words_in};
ghost use Rattle.sim_run.specs.Commands.{IsWithin, command_of};
ghost use Rattle.sim_run.specs.Replies.{Replies};
ghost use Rattle.sim_run.specs.Answers.{Answered, HasReadFew, IsComplete, LeavesDevice, MayUse, NeverFalls, TellsReadFault, exchange, how_of};
ghost use Rattle.sim_run.specs.Promises.{ImagesTo, KeepsHeadline, KeepsImages, KeepsPromise, PromisesTo};
ghost use Rattle.sim_run.specs.Stopping.{KeepsStop, StopsTo, TellsStop};
ghost use Rattle.sim_run.specs.BeforeAnswerLine.{BeforeAnswerLine, LeavesStore, PutOrLost, PutsSome};

use crate::assembly::asm;
use crate::auditing::audit;
use crate::command::{Command, words_of};
use crate::finishes::serial;
use crate::input::input_for;
use crate::make::make;
use crate::packing::{dis, pack};
use crate::run::run;
use answers::{Status, put_name};
use fram_dev::Fram;
use kernel_core::How;
use nv_base::limits::MAX_INPUT;
use nv_base::{Sink, Source};
use std::alloc::Global;
use std::rc::RcStr;

/// What a command replies to an input.
#[tactic(auto, unfolding(crate::specs::Replies::Replies))]
fn answer<K: Sink, F: Fram>(
    alloc: Global,
    command: Command,
    input: &[u8],
    out: &mut K,
    dev: &mut F,
) -> Status
    requires input { length input.now ≤ MAX_INPUT }
    requires within { IsWithin command }
    ensures replied { let old = store F.start F.log F.lost dev.old in
        PutsSome PutOrLost (Replies command old input.now) (K.seen out.old) (K.seen out.new) result }
    ensures store { let old = store F.start F.log F.lost dev.old in
        LeavesStore (how_of command) old (store F.start F.log F.lost dev.new) result }
    ensures headline { let words = words_in (store F.start F.log F.lost dev.old) in
        PromisesTo command words result input.now }
    ensures images { let old = store F.start F.log F.lost dev.old in
        ImagesTo command old (store F.start F.log F.lost dev.new) result input.now }
    ensures stops { let old = store F.start F.log F.lost dev.old in
        let new = store F.start F.log F.lost dev.new in
        StopsTo command old new (K.seen out.old) (K.seen out.new) result input.now }
    ensures device { let old = store F.start F.log F.lost dev.old in
        MayUse command old (store F.start F.log F.lost dev.new) }
    ensures never_falls { F.lost dev.old ≤ F.lost dev.new }
{
    match command {
        Command::Run => run(alloc, input, How::Fresh, out, dev),
        Command::Resume => run(alloc, input, How::Again, out, dev),
        Command::Asm => asm(alloc, input, out),
        Command::Dis => dis(alloc, input, out),
        Command::Pack => pack(alloc, input, out),
        Command::Serial(count) => serial(alloc, count, input, out),
        Command::Audit => audit(alloc, input, out),
        Command::Make(seed) => make(alloc, seed, input, out, dev),
    }
}

/// All of a call but the line that names its answer.
#[tactic(auto, using(crate::proofs::Gone::none_gone))]
fn carry_out<S: Source, K: Sink, F: Fram>(
    alloc: Global,
    words: &[RcStr],
    src: &mut S,
    out: &mut K,
    dev: &mut F,
) -> Status
    ensures answer { let seen = store F.start F.log F.lost in
        let x = exchange S.seen K.seen seen src.old src.new out.old out.new dev.old dev.new in
        BeforeAnswerLine (command_of (map rc_str_bytes words.now)) x result }
    ensures headline { let seen = store F.start F.log F.lost in
        let x = exchange S.seen K.seen seen src.old src.new out.old out.new dev.old dev.new in
        KeepsPromise (command_of (map rc_str_bytes words.now)) x result }
    ensures images { let seen = store F.start F.log F.lost in
        let x = exchange S.seen K.seen seen src.old src.new out.old out.new dev.old dev.new in
        KeepsImages (command_of (map rc_str_bytes words.now)) x result }
    ensures stops { let seen = store F.start F.log F.lost in
        let x = exchange S.seen K.seen seen src.old src.new out.old out.new dev.old dev.new in
        KeepsStop (command_of (map rc_str_bytes words.now)) x result }
    ensures device { let seen = store F.start F.log F.lost in
        let x = exchange S.seen K.seen seen src.old src.new out.old out.new dev.old dev.new in
        LeavesDevice (command_of (map rc_str_bytes words.now)) x }
    ensures few { HasReadFew (S.seen src.old) (S.seen src.new) result }
    ensures told { TellsReadFault (S.seen src.old) (S.seen src.new) result }
    ensures never_falls { let seen = store F.start F.log F.lost in NeverFalls
        (exchange S.seen K.seen seen src.old src.new out.old out.new dev.old dev.new) }
{
    let Ok(command) = words_of(words) else {
        return Status::Usage;
    };
    match input_for(alloc, command, src) {
        Ok(input) => answer(alloc, command, input.as_slice(), out, dev),
        Err(status) => status,
    }
}

/// Carries out a command: reads the source to its end, but for `make`, and puts what the command replies to the input. Every other
/// answer is named by a line, and then nothing else was put, but for a sink that failed on the way, or a device that lost
/// a call. `run` formats the device, `resume` goes on from what it holds, and each puts the event machine's report, of which
/// the headline holds; `make` runs a script of its own as `run` does, and puts a summary of the report. `serial` puts the first finishes of the script's tasks, each run whole, and `audit` says whether what a report lists is serial and leaves what it tells. What the device holds is known at each of its writes. No other command touches it. It waits for nobody, and takes all its memory before
/// anything is put or written.
pub fn simulate<S: Source, K: Sink, F: Fram>(
    alloc: Global,
    words: &[RcStr],
    src: &mut S,
    out: &mut K,
    dev: &mut F,
) -> Status
    ensures answer { let seen = store F.start F.log F.lost in
        let x = exchange S.seen K.seen seen src.old src.new out.old out.new dev.old dev.new in
        Answered (command_of (map rc_str_bytes words.now)) x result }
    ensures headline { let seen = store F.start F.log F.lost in
        let x = exchange S.seen K.seen seen src.old src.new out.old out.new dev.old dev.new in
        KeepsHeadline (command_of (map rc_str_bytes words.now)) x result }
    ensures images { let seen = store F.start F.log F.lost in
        let x = exchange S.seen K.seen seen src.old src.new out.old out.new dev.old dev.new in
        KeepsImages (command_of (map rc_str_bytes words.now)) x result }
    ensures stops { let seen = store F.start F.log F.lost in
        let x = exchange S.seen K.seen seen src.old src.new out.old out.new dev.old dev.new in
        TellsStop (command_of (map rc_str_bytes words.now)) x result }
    ensures device { let seen = store F.start F.log F.lost in
        let x = exchange S.seen K.seen seen src.old src.new out.old out.new dev.old dev.new in
        LeavesDevice (command_of (map rc_str_bytes words.now)) x }
    ensures complete { let seen = store F.start F.log F.lost in
        let x = exchange S.seen K.seen seen src.old src.new out.old out.new dev.old dev.new in
        IsComplete (command_of (map rc_str_bytes words.now)) x result }
    ensures few { HasReadFew (S.seen src.old) (S.seen src.new) result }
    ensures told { TellsReadFault (S.seen src.old) (S.seen src.new) result }
    ensures never_falls { let seen = store F.start F.log F.lost in NeverFalls
        (exchange S.seen K.seen seen src.old src.new out.old out.new dev.old dev.new) }
{
    let status = carry_out(alloc, words, src, out, dev);
    put_name(out, status);
    status
}
