//! A whole text as an answer.

ghost use Rattle.std.specs.Prelude.{◌≡◌, ◌⊎◌};
ghost use Rattle.answers.specs.declared.status.Status.TheVariants as Status;
ghost use Rattle.sim_run.specs.BeforeAnswerLine.{PutReply};
ghost use Rattle.sim_run.specs.Replies.{Puts};

use answers::Status;
use nv_base::{Sink, put_all};

/// Puts a text, whole unless the sink fails.
pub(crate) fn put_text<K: Sink>(out: &mut K, text: &[u8]) -> Status
    ensures replied { PutReply (Puts text.now) (K.seen out.old) (K.seen out.new) result }
    ensures ends { (result ≡ Status.Done) ⊎ (result ≡ Status.WriteFault) }
{
    match put_all(out, text) {
        Ok(()) => Status::Done,
        Err(_) => Status::WriteFault,
    }
}
