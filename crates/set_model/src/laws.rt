//! What holds of each task set within the limits.

ghost use Rattle.std.specs.Prelude.{ℕ, ◌<◌, ◌≤◌, length};
ghost use Rattle.kernel_model.specs.Fit.{IsBase, IsSizes};
ghost use Rattle.set_model.specs.Sets.{TaskSet, object_at, program_at};
ghost use Rattle.set_model.specs.Limits.{IsObject, IsProgram, IsTaskSet};
ghost use Rattle.set_model.specs.Numbers.{sizes_of};
ghost use Rattle.set_model.specs.Formatted.{formatted};
ghost use Rattle.set_model.specs.Names.{IsName, IsNamed};

use nv_base::limits::{MAX_OBJECTS, MAX_RECORDS};

/// A set within the limits has at most as many objects, as many task records, and as many tasks, as any format allows.
pub fn any_format_is_below()
    ensures objects { (set : TaskSet) → IsTaskSet set → length set.objects ≤ MAX_OBJECTS }
    ensures records { (set : TaskSet) → IsTaskSet set → set.records ≤ MAX_RECORDS }
    ensures tasks { (set : TaskSet) → IsTaskSet set → length set.tasks ≤ MAX_RECORDS }
{}

/// The numbers of a set within the limits are fit for the kernel's model: each object has room for two versions, and a commit and a boot end by a write.
pub fn numbers_are_fit()
    ensures { (set : TaskSet) → IsTaskSet set → IsSizes (sizes_of set) }
{}

/// The state that a format leaves is one that a device may hold.
pub fn formatted_state_is_fit()
    ensures { (set : TaskSet) → IsTaskSet set → IsBase (sizes_of set) (formatted set) }
{}

/// Each object of a set within the limits is within them.
pub fn object_is_within()
    ensures { (set : TaskSet) (o : ℕ) → IsTaskSet set → o < length set.objects
        → IsObject (object_at set o) }
{}

/// Each program of a set within the limits is within them.
pub fn program_is_within()
    ensures { (set : TaskSet) (p : ℕ) → IsTaskSet set → p < length set.programs
        → IsProgram set.memory (program_at set p) }
{}

/// Each object of a set whose names are names has one.
pub fn object_is_named()
    ensures { (set : TaskSet) (o : ℕ) → IsNamed set → o < length set.objects
        → IsName (object_at set o).name }
{}

/// Each program of a set whose names are names has one.
pub fn program_is_named()
    ensures { (set : TaskSet) (p : ℕ) → IsNamed set → p < length set.programs
        → IsName (program_at set p).name }
{}
