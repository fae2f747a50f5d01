//! The answers that tell why an input was not taken. Only want of memory is told as want of memory.

ghost use Rattle.std.specs.Prelude.{◌≡◌};
ghost use Rattle.answers.specs.Refusals.{assembly_answer, audit_answer, packed_answer, report_answer, script_answer};

use crate::status::Status;
use audit::AuditRefusal;
use report::ReportRefusal;
use rv_asm::AsmRefusal;
use script::{ScriptCause, ScriptError, ScriptRefusal};
use task_image::ImageRefusal;

/// Why a script was not read.
pub fn of_script(refusal: ScriptRefusal) -> Status
    ensures { result ≡ script_answer refusal }
{
    match refusal {
        ScriptRefusal::At(error) => Status::Script(error),
        ScriptRefusal::NoMemory => Status::NoMemory,
    }
}

/// Why lines were not assembled.
pub fn of_assembly(refusal: AsmRefusal) -> Status
    ensures { result ≡ assembly_answer refusal }
{
    match refusal {
        AsmRefusal::At(error) => Status::Script(ScriptError {
            line: error.line,
            cause: ScriptCause::Code(error.cause),
        }),
        AsmRefusal::NoMemory => Status::NoMemory,
    }
}

/// Why bytes are no packed set.
pub fn of_packed(refusal: ImageRefusal) -> Status
    ensures { result ≡ packed_answer refusal }
{
    match refusal {
        ImageRefusal::Bad(place) => Status::Packed(place),
        ImageRefusal::NoMemory => Status::NoMemory,
    }
}

/// Why bytes are no report.
pub fn of_report(refusal: ReportRefusal) -> Status
    ensures { result ≡ report_answer refusal }
{
    match refusal {
        ReportRefusal::Bad(line) => Status::Report(line),
        ReportRefusal::NoMemory => Status::NoMemory,
    }
}

/// Why a report does not agree.
pub fn of_audit(refusal: AuditRefusal) -> Status
    ensures { result ≡ audit_answer refusal }
{
    match refusal {
        AuditRefusal::Differs(line) => Status::Differs(line),
        AuditRefusal::NoMemory => Status::NoMemory,
    }
}
