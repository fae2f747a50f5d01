//! A report, from its first line to its last.

ghost use Rattle.std.specs.Prelude.{◌≡◌, ◌≢◌, ◌<◌, ◌≤◌, ◌==◌, ◌++◌, ◌∷◌, Err, IfOk, IfSome, MatchOption, ℕ, length, position};
ghost use Rattle.std.specs.List.{AllByRecursion};
ghost use Rattle.set_model.specs.Limits.{IsTaskSet};
ghost use Rattle.set_model.specs.Names.{IsNamed};
ghost use Rattle.task_model.specs.Shape.{HasShape};
ghost use Rattle.report_text.specs.Reports.{IsFirstBadLine, IsReportOf};
ghost use Rattle.report.specs.Sizes.{IsShort};
ghost use Rattle.report.specs.declared.report.ReportRefusal.TheVariants.{Bad};

use crate::reader::Reader;
use crate::report::{Report, ReportRefusal};
use nv_base::limits::MAX_INPUT;
use std::alloc::Global;
use task_set::TaskSet;

fn feed_at(bytes: &[u8]) -> Option<usize>
    ensures at { result ≡ position (λ b. b == 10) bytes.now }
    ensures within { IfSome result (λ at. at < length bytes.now) }
{
    bytes.iter().position(|b| *b == b'\n')
}

/// The first line, without its line feed, and what stands behind that. None where there is no line feed.
fn first_line(bytes: &[u8]) -> Option<(&[u8], &[u8])>
    ensures { MatchOption result (AllByRecursion (λ b. b ≢ 10) bytes.now)
        (λ p. AllByRecursion (λ b. b ≢ 10) p.0.now × (bytes.now ≡ p.0.now ++ 10 ∷ p.1.now)) }
{
    let end = feed_at(bytes)?;
    Some((&bytes[..end], &bytes[end + 1..]))
}

/// What holds of each set: the limits, and that its names are names, and apart.
fn is_named(set: &TaskSet)
    ensures limits { IsTaskSet set.now }
    ensures names { IsNamed set.now }
{
    let _ = set.cores();
}

/// Reads a report of a set, the whole bytes. `Bad` with the first line that cannot stand where it stands, or with the
/// line behind the last one where the bytes end too early; `NoMemory` where there was not memory enough.
pub fn read_report(alloc: Global, set: &TaskSet, bytes: &[u8]) -> Result<Report, ReportRefusal>
    requires { length bytes.now ≤ MAX_INPUT }
    ensures read { IfOk result (λ r. IsReportOf set.now r bytes.now) }
    ensures shape { IfOk result (λ r. HasShape set.now r.state.objects) }
    ensures short { IfOk result IsShort }
    ensures bad { (line : ℕ) → result ≡ Err (Bad line) → IsFirstBadLine set.now line bytes.now }
{
    is_named(set);
    let mut reader = Reader::new(alloc);
    let mut rest = bytes;
    while let Some((line, left)) = first_line(rest) {
        reader.take(alloc, set, line)?;
        rest = left;
    }
    reader.finish(rest)
}
