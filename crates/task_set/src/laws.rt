//! What it means that no limit is broken.

ghost use Rattle.std.specs.Prelude.{◌≡◌, None};
ghost use Rattle.set_model.specs.Sets.{TaskSet};
ghost use Rattle.set_model.specs.Limits.{IsTaskSet};
ghost use Rattle.task_set.specs.FirstBroken.{first_broken};
ghost use Rattle.task_set.specs.Ranges.{HasWords};

/// No limit is broken exactly where a set is within its limits. That words are words is left to their type.
pub fn none_broken_is_within()
    ensures within { (set : TaskSet) → HasWords set → first_broken set ≡ None → IsTaskSet set }
    ensures none { (set : TaskSet) → IsTaskSet set → first_broken set ≡ None }
{}
