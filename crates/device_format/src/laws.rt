//! What stands on a device after a format or a migration, whole or cut.

ghost use Rattle.std.specs.Prelude.{ℕ, ◌≡◌, ◌≤◌, ◌⊎◌, ◌++◌, List, length, slice_index};
ghost use Rattle.fram_dev.specs.Device.{Change, made_in};
ghost use Rattle.set_model.specs.Sets.{TaskSet};
ghost use Rattle.set_model.specs.Limits.{IsTaskSet};
ghost use Rattle.device_model.specs.Decoding.{Held, Stored, decode};
ghost use Rattle.device_model.specs.Migrations.{migration_writes, moved_held};
ghost use Rattle.device_model.specs.Devices.{Device, HoldsOn, IsKindOn, first_on, format_on, migrated, need_on, plain};
ghost use Rattle.device_format.specs.Puts.{HasFront};

/// Where a device lost a write of a format, its words are as they were, or no state stands there, or the first one does.
pub fn cut_format_is_old_blank_or_first()
    ensures { (d : Device) (start : List ℕ) (old new : List Change)
        → IsTaskSet d.set → IsKindOn d → need_on d ≤ length start
        → HasFront (format_on d) old new
        → let words = slice_index (made_in new start) in
        (words ≡ slice_index (made_in old start))
        ⊎ (decode d.set words ≡ Stored.Blank) ⊎ HoldsOn d (first_on d) words }
{}

/// After a whole format the first state stands there.
pub fn whole_format_holds_first()
    ensures { (d : Device) (start : List ℕ) (old : List Change)
        → IsTaskSet d.set → IsKindOn d → need_on d ≤ length start
        → HoldsOn d (first_on d) (slice_index (made_in (old ++ format_on d) start)) }
{}

/// Where a device lost a call of a migration, its state stands there in format 1, or in format 2.
pub fn cut_migration_holds_state()
    ensures { (set : TaskSet) (h : Held) (start : List ℕ) (old new : List Change)
        → IsTaskSet set → set.format ≡ 2 → need_on (migrated set) ≤ length start
        → HoldsOn (plain set) h (slice_index (made_in old start))
        → HasFront (migration_writes set h) old new
        → let words = slice_index (made_in new start) in
        HoldsOn (plain set) h words ⊎ HoldsOn (migrated set) (moved_held set h) words }
{}

/// After a whole migration it stands there in format 2.
pub fn whole_migration_holds_moved_state()
    ensures { (set : TaskSet) (h : Held) (start : List ℕ) (old : List Change)
        → IsTaskSet set → set.format ≡ 2 → need_on (migrated set) ≤ length start
        → HoldsOn (plain set) h (slice_index (made_in old start))
        → HoldsOn (migrated set) (moved_held set h)
        (slice_index (made_in (old ++ migration_writes set h) start)) }
{}
