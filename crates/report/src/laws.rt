//! What was written is read back, and bytes are read in one way.

ghost use Rattle.std.specs.Prelude.{ℕ, List, ◌≡◌, ◌+◌, ◌++◌};
ghost use Rattle.std.specs.List.{AllByRecursion};
ghost use Rattle.kernel_model.specs.Replay.{DeviceState};
ghost use Rattle.kernel_model.specs.Turns.{Line};
ghost use Rattle.set_model.specs.Limits.{IsTaskSet, IsWord};
ghost use Rattle.set_model.specs.Names.{IsNamed};
ghost use Rattle.set_model.specs.Sets.{TaskSet};
ghost use Rattle.report_text.specs.Report.{end_part, lines_text};
ghost use Rattle.report_text.specs.Reports.{IsFirstBadLine, IsReport, IsReportOf, IsTold, IsToldState, Report, all_lines, listed_from};

/// The text of events and of a state that may be told is a report, and tells these finishes, in their lines, and this state.
pub fn written_report_is_read()
    ensures { (set : TaskSet) (events : List Line) (state : DeviceState) (boots : ℕ)
        → AllByRecursion (IsTold set) events → IsToldState set state → IsWord boots
        → IsReportOf set (record {
          listing = listed_from 1 events;
          end_line = 1 + all_lines events;
          state = state;
        }) (lines_text set events ++ end_part set state boots) }
{}

/// Bytes that are a report of a set tell one thing alone.
pub fn report_tells_one_thing()
    ensures { (set : TaskSet) (bytes : List ℕ) (r s : Report) → IsTaskSet set → IsNamed set
        → IsReportOf set r bytes → IsReportOf set s bytes → r ≡ s }
{}

/// Bytes have one first bad line at most, and none where they are a report.
pub fn one_line_is_first()
    ensures one { (set : TaskSet) (bytes : List ℕ) (m n : ℕ)
        → IsFirstBadLine set m bytes → IsFirstBadLine set n bytes → m ≡ n }
    ensures none { (set : TaskSet) (bytes : List ℕ) (n : ℕ)
        → IsReport set bytes → IsFirstBadLine set n bytes → ⊥ }
{}
