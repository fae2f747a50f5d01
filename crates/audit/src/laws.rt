//! What it means that an audit finds no difference.

ghost use Rattle.std.specs.Prelude.{◌≡◌, ℕ, None, Option};
ghost use Rattle.set_model.specs.Sets.{TaskSet};
ghost use Rattle.report_text.specs.Reports.{Report};
ghost use Rattle.audit.specs.Differences.{IsFirstDifference, IsSerialReport};

use kernel_model::entries::{
    next_place_is_new, replay_leaves_one_state, replayed_entries_are_serial,
    serial_entries_are_replayed, wrong_entry_has_no_finish,
};

/// The listing of a report that has no difference is serial, and leaves what the report tells.
pub fn no_difference_is_serial()
    ensures { (set : TaskSet) (r : Report) → IsFirstDifference set r None → IsSerialReport set r }
{
    wrong_entry_has_no_finish();
    next_place_is_new();
    replayed_entries_are_serial();
}

/// A report whose listing is serial and leaves what it tells has no difference.
pub fn serial_has_no_difference()
    ensures { (set : TaskSet) (r : Report) (line : Option ℕ) → IsSerialReport set r
        → IsFirstDifference set r line → line ≡ None }
{
    serial_entries_are_replayed();
    replay_leaves_one_state();
}
