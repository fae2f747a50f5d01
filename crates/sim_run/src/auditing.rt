//! The command `audit`: a script and a report behind it, beside the serial replay of what the report lists.

ghost use Rattle.std.specs.Prelude.{◌≤◌, length};
ghost use Rattle.nv_base.specs.declared.limits.TheConstants.{MAX_INPUT};
ghost use Rattle.script.specs.Fronts.{read_front as front_read};
ghost use Rattle.task_model.specs.Shape.{HasShape};
ghost use Rattle.report.specs.Sizes.{IsShort};
ghost use Rattle.report_text.specs.Reports.{IsReportOf};
ghost use Rattle.sim_run.specs.BeforeAnswerLine.{PutReply, PutsSome};
ghost use Rattle.sim_run.specs.Promises.{MeansAudit, MeansReport};
ghost use Rattle.sim_run.specs.Replies.{AuditReplies, Audits};

use crate::summary::agreed;
use crate::texts::put_text;
use answers::{Status, of_audit, of_report, of_script};
use nv_base::Sink;
use nv_base::limits::MAX_INPUT;
use report::{Report, read_report};
use script::read_front;
use std::alloc::Global;
use task_set::TaskSet;

/// Puts how many finishes of a report agree, or answers with the line of the first difference.
fn audit_report<K: Sink>(
    alloc: Global,
    set: &TaskSet,
    report: &Report,
    bytes: &[u8],
    out: &mut K,
) -> Status
    requires report { IsReportOf set.now report.now bytes.now }
    requires short { IsShort report.now }
    requires shape { HasShape set.now report.now.state.objects }
    ensures replied { PutsSome PutReply (Audits set.now bytes.now) (K.seen out.old) (K.seen out.new) result }
    ensures means { MeansReport set.now bytes.now result }
{
    match audit::audit(alloc, set, report) {
        Ok(count) => put_text(out, agreed(count.0).as_bytes()),
        Err(refusal) => of_audit(refusal),
    }
}

/// The same of the bytes behind a script, or answers with the first line of them that cannot stand in a report.
fn audit_bytes<K: Sink>(alloc: Global, set: &TaskSet, bytes: &[u8], out: &mut K) -> Status
    requires { length bytes.now ≤ MAX_INPUT }
    ensures replied { PutsSome PutReply (Audits set.now bytes.now) (K.seen out.old) (K.seen out.new) result }
    ensures means { MeansReport set.now bytes.now result }
{
    match read_report(alloc, set, bytes) {
        Ok(report) => audit_report(alloc, set, &report, bytes, out),
        Err(refusal) => of_report(refusal),
    }
}

/// Audits the report behind the script that an input begins with, or answers with the first line that is refused.
pub(crate) fn audit<K: Sink>(alloc: Global, input: &[u8], out: &mut K) -> Status
    requires { length input.now ≤ MAX_INPUT }
    ensures replied { let read = front_read input.now in
        PutsSome PutReply (AuditReplies input.now read) (K.seen out.old) (K.seen out.new) result }
    ensures means { MeansAudit result input.now }
{
    match read_front(alloc, input) {
        Ok((script, count)) => audit_bytes(alloc, &script.set, &input[count..], out),
        Err(refusal) => of_script(refusal),
    }
}
