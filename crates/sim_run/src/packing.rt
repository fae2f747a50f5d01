//! The commands `dis` and `pack`: a packed set as a script, and a script as a packed set.

ghost use Rattle.script.specs.Reading.{read};
ghost use Rattle.script_text.specs.ScriptText.{script_text as text_of_set};
ghost use Rattle.task_image.specs.Packed.{packed};
ghost use Rattle.task_image.specs.Unpacked.{unpacked};
ghost use Rattle.sim_run.specs.BeforeAnswerLine.{PutReply};
ghost use Rattle.sim_run.specs.Replies.{Puts, dis_reply, pack_reply};

use crate::texts::put_text;
use answers::{Status, of_packed, of_script};
use nv_base::Sink;
use script::read_script;
use script_text::script_text;
use std::alloc::Global;
use task_image::{read_set, write_set};
use task_set::TaskSet;

/// Puts a set as a script.
fn put_script<K: Sink>(alloc: Global, set: &TaskSet, out: &mut K) -> Status
    ensures replied { let reply = Puts (text_of_set set.now) in
        PutReply reply (K.seen out.old) (K.seen out.new) result }
{
    let Ok(text) = script_text(alloc, set) else {
        return Status::NoMemory;
    };
    put_text(out, text.as_bytes())
}

/// Puts a set as its packed bytes.
fn put_packed<K: Sink>(alloc: Global, set: &TaskSet, out: &mut K) -> Status
    ensures replied { PutReply (Puts (packed set.now)) (K.seen out.old) (K.seen out.new) result }
{
    let Ok(bytes) = write_set(alloc, set) else {
        return Status::NoMemory;
    };
    put_text(out, bytes.as_slice())
}

/// Puts the packed set that an input is as a script, or answers with the first place that is refused.
pub(crate) fn dis<K: Sink>(alloc: Global, input: &[u8], out: &mut K) -> Status
    ensures replied { let reply = dis_reply (unpacked input.now) in
        PutReply reply (K.seen out.old) (K.seen out.new) result }
{
    match read_set(alloc, input) {
        Ok(set) => put_script(alloc, &set, out),
        Err(refusal) => of_packed(refusal),
    }
}

/// Puts the set of the script that an input is, packed, or answers with the first line that is refused.
pub(crate) fn pack<K: Sink>(alloc: Global, input: &[u8], out: &mut K) -> Status
    ensures replied { let reply = pack_reply (read input.now) in
        PutReply reply (K.seen out.old) (K.seen out.new) result }
{
    match read_script(alloc, input) {
        Ok(script) => put_packed(alloc, &script.set, out),
        Err(refusal) => of_script(refusal),
    }
}
