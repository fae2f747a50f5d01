//! The line of an event.

ghost use Rattle.std.specs.Prelude.{OnOk, OnErr};
ghost use Rattle.nv_base.specs.Streams.{PutsFront, PutsText};
ghost use Rattle.set_model.specs.Views.{line_of};
ghost use Rattle.report_text.specs.Lines.{line_text};
ghost use Rattle.report.specs.Named.{NamesObject};

use nv_base::{Line, Sink, WriteFault, put_all};
use report::LineBuf;
use task_set::TaskSet;

/// Puts the text of a line that has one.
fn put_text<K: Sink>(
    out: &mut K,
    text: &mut LineBuf,
    set: &TaskSet,
    line: &Line,
) -> Result<(), WriteFault>
    requires { NamesObject set.now (line_of line.now) }
    ensures all { let text = line_text set.now (line_of line.now) in
        OnOk result (PutsText text (K.seen out.old) (K.seen out.new)) }
    ensures front { let text = line_text set.now (line_of line.now) in
        OnErr result (PutsFront text (K.seen out.old) (K.seen out.new)) }
{
    text.put_line(set, line);
    put_all(out, text.bytes())
}

/// Puts the text of a line. Most turns print nothing, and cost no more than that look.
#[tactic(auto, using(crate::proofs::Fronts::puts_nothing))]
pub(crate) fn put_line<K: Sink>(
    out: &mut K,
    text: &mut LineBuf,
    set: &TaskSet,
    line: &Line,
) -> Result<(), WriteFault>
    requires { NamesObject set.now (line_of line.now) }
    ensures all { let text = line_text set.now (line_of line.now) in
        OnOk result (PutsText text (K.seen out.old) (K.seen out.new)) }
    ensures front { let text = line_text set.now (line_of line.now) in
        OnErr result (PutsFront text (K.seen out.old) (K.seen out.new)) }
{
    if let Line::Nothing = line {
        return Ok(());
    }
    put_text(out, text, set, line)
}
