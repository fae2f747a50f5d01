//! A format, write by write.

ghost use Rattle.std.specs.Prelude.{ℕ, ◌≡◌, ◌<◌, ◌≤◌, ◌+◌, get_or, length, Option};
ghost use Rattle.set_model.specs.Sets.{TaskSet};
ghost use Rattle.set_model.specs.Limits.{IsTaskSet};
ghost use Rattle.set_model.specs.Formatted.{formatted};
ghost use Rattle.device_model.specs.Words.{Words, made};
ghost use Rattle.device_model.specs.Layouts.{Layout};
ghost use Rattle.device_model.specs.Decoding.{Stored, decode, durable_of};
ghost use Rattle.device_model.specs.Formats.{format_word, format_writes, formatted_held};
ghost use Rattle.device_model.specs.Devices.{IsKindOn, Device, HoldsOn, KeepsOn, first_on, format_on, image_after, layout_on, need_on};

/// A format writes each word once, and word 0 twice.
pub fn format_has_writes()
    ensures { (d : Device) → IsTaskSet d.set → length (format_on d) ≡ need_on d + 1 }
{}

/// First a 0 in place of the magic, then each word at its place, and last the magic.
pub fn format_goes_in_order()
    ensures first { (l : Layout) (set : TaskSet) → get_or (format_writes l set) 0 (0, 0) ≡ (0, 0) }
    ensures word { (d : Device) (k : ℕ) → IsTaskSet d.set → 0 < k → k < need_on d
        → get_or (format_on d) k (0, 0) ≡ (k, format_word (layout_on d) d.set k) }
    ensures last { (d : Device) → IsTaskSet d.set
        → get_or (format_on d) (need_on d) (0, 0) ≡ (0, (layout_on d).magic) }
{}

/// From its first write until the magic is written no state stands there.
pub fn cut_format_is_blank()
    ensures { (d : Device) (words : Words) (k : ℕ)
        → IsTaskSet d.set → 0 < k → k ≤ need_on d
        → decode d.set (image_after k (format_on d) words) ≡ Stored.Blank }
{}

/// After its last write the first state stands there.
pub fn whole_format_keeps_first_state()
    ensures keeps { (d : Device) (words : Words) → IsTaskSet d.set
        → KeepsOn d (first_on d) (made (format_on d) words) }
    ensures decodes { (d : Device) (words : Words)
        → IsTaskSet d.set → IsKindOn d
        → HoldsOn d (first_on d) (made (format_on d) words) }
{}

/// It is the formatted state of the set, with no finish and no boot.
pub fn first_state_is_formatted()
    ensures { (l : Layout) (set : TaskSet) → durable_of (formatted_held l set)
        ≡ record { state = formatted set; last = Option.None; boots = 0 } }
{}
