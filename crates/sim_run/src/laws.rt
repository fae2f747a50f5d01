//! An input has one reply: that of each command but `audit` is a function of it.

ghost use Rattle.std.specs.Prelude.{◌≡◌, ℕ, List};
ghost use Rattle.set_model.specs.Limits.{IsTaskSet};
ghost use Rattle.set_model.specs.Names.{IsNamed};
ghost use Rattle.set_model.specs.Sets.{TaskSet};
ghost use Rattle.sim_run.specs.Replies.{Audits, Reply};

use kernel_model::entries::replay_leaves_one_state;
use report::laws::{one_line_is_first, report_tells_one_thing};

/// An audit has one answer.
pub fn audit_has_one_reply()
    ensures { (set : TaskSet) (bytes : List ℕ) (q r : Reply) → IsTaskSet set → IsNamed set
        → Audits set bytes q → Audits set bytes r → q ≡ r }
{
    replay_leaves_one_state();
    report_tells_one_thing();
    one_line_is_first();
}
