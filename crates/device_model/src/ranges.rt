//! All reads and writes are at places of the device.

ghost use Rattle.std.specs.Prelude.{ℕ, ◌≡◌, ◌<◌, true, List, length, slice_index};
ghost use Rattle.std.specs.List.{AllByRecursion};
ghost use Rattle.set_model.specs.Sets.{TaskSet};
ghost use Rattle.set_model.specs.Limits.{IsTaskSet};
ghost use Rattle.device_model.specs.Words.{Change, made, made_in};
ghost use Rattle.device_model.specs.Layouts.{read_place, reads};
ghost use Rattle.device_model.specs.Decoding.{Held};
ghost use Rattle.device_model.specs.Commits.{Commit, IsNext};
ghost use Rattle.device_model.specs.Migrations.{migration_writes};
ghost use Rattle.device_model.specs.Devices.{Device, IsHeldOn, commit_on, format_on, layout_on, migrated, need_on};

/// Each word that is read stands below the need.
pub fn reads_are_in_range()
    ensures { (d : Device) (root j : ℕ)
        → IsTaskSet d.set → (layout_on d).is_root root ≡ true → j < reads (layout_on d)
        → read_place (layout_on d) root j < need_on d }
{}

/// So does each word that is written.
pub fn writes_are_in_range()
    ensures format { (d : Device) → IsTaskSet d.set
        → AllByRecursion (λ (w : Change). w.0 < need_on d) (format_on d) }
    ensures commit { (d : Device) (h : Held) (c : Commit)
        → IsTaskSet d.set → IsHeldOn d h → IsNext d.set h c
        → AllByRecursion (λ (w : Change). w.0 < need_on d) (commit_on d h c) }
    ensures migration { (set : TaskSet) (h : Held)
        → AllByRecursion (λ (w : Change). w.0 < need_on (migrated set)) (migration_writes set h) }
{}

/// The words of a device with a log are those that the log makes of its first words, place by place.
pub fn image_is_by_place()
    ensures { (log : List Change) (words : List ℕ)
        → AllByRecursion (λ (w : Change). w.0 < length words) log
        → slice_index (made_in log words) ≡ made log (slice_index words) }
{}
