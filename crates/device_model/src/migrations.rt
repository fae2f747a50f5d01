//! A migration, write by write.

ghost use Rattle.std.specs.Prelude.{ℕ, ◌≡◌, ◌<◌, ◌+◌, ◌-◌, get_or, length};
ghost use Rattle.set_model.specs.Sets.{TaskSet};
ghost use Rattle.set_model.specs.Limits.{IsTaskSet};
ghost use Rattle.set_model.specs.Numbers.{words_needed};
ghost use Rattle.device_model.specs.Words.{Words, made};
ghost use Rattle.device_model.specs.Layouts.{Kind, magic_of};
ghost use Rattle.device_model.specs.Decoding.{Held, durable_of};
ghost use Rattle.device_model.specs.Migrations.{migration_writes, moved_held, moved_word};
ghost use Rattle.device_model.specs.Devices.{HoldsOn, KeepsOn, image_after, migrated, need_on, plain};

/// A migration writes each word behind the old ones once, and then word 0.
pub fn migration_has_writes()
    ensures { (set : TaskSet) (h : Held)
        → length (migration_writes set h) ≡ need_on (migrated set) - words_needed set + 1 }
{}

/// They go in order of place, and the magic is the last.
pub fn migration_goes_in_order()
    ensures word { (set : TaskSet) (h : Held) (k : ℕ)
        → words_needed set + k < need_on (migrated set)
        → get_or (migration_writes set h) k (0, 0)
        ≡ (words_needed set + k, moved_word set h (words_needed set + k)) }
    ensures last { (set : TaskSet) (h : Held)
        → get_or (migration_writes set h) (need_on (migrated set) - words_needed set) (0, 0)
        ≡ (0, magic_of Kind.Migrated) }
{}

/// Each image of a migration before its last write keeps the state in format 1.
pub fn cut_migration_keeps_state()
    ensures keeps { (set : TaskSet) (h : Held) (words : Words) (k : ℕ)
        → IsTaskSet set → KeepsOn (plain set) h words → k < length (migration_writes set h)
        → KeepsOn (plain set) h (image_after k (migration_writes set h) words) }
    ensures decodes { (set : TaskSet) (h : Held) (words : Words) (k : ℕ)
        → IsTaskSet set → set.format ≡ 2 → HoldsOn (plain set) h words
        → k < length (migration_writes set h)
        → HoldsOn (plain set) h (image_after k (migration_writes set h) words) }
{}

/// After the last write they keep it in format 2.
pub fn whole_migration_keeps_moved_state()
    ensures keeps { (set : TaskSet) (h : Held) (words : Words)
        → IsTaskSet set → KeepsOn (plain set) h words
        → KeepsOn (migrated set) (moved_held set h) (made (migration_writes set h) words) }
    ensures decodes { (set : TaskSet) (h : Held) (words : Words)
        → IsTaskSet set → set.format ≡ 2 → HoldsOn (plain set) h words
        → HoldsOn (migrated set) (moved_held set h) (made (migration_writes set h) words) }
{}

/// It is the same state to the kernel's model.
pub fn moved_state_is_the_same()
    ensures { (set : TaskSet) (h : Held) → durable_of (moved_held set h) ≡ durable_of h }
{}
