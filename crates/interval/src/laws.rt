//! Laws of intervals: what raising and cutting make of those of the model.

ghost use Rattle.std.specs.Prelude.{◌≡◌, ℕ, ◌≤◌, Some, ◌∷◌, List};
ghost use Rattle.kernel_model.specs.Effects.{Write};
ghost use Rattle.kernel_model.specs.Versions.{Version};
ghost use Rattle.kernel_model.specs.Intervals.{Interval, within};
ghost use Rattle.kernel_model.specs.Bounds.{raised_by};
ghost use Rattle.kernel_model.specs.Chain.{floored};
ghost use Rattle.interval.specs.Ranges.{cut_to, raised_to};

/// An outside read raises the interval of reads to the begin of its version, and cuts it at the version's end.
pub fn read_raises_and_cuts()
    ensures { (v : Version) (i : Interval)
        → within (Some v) i ≡ cut_to v.end (raised_to v.begin i) }
{}

/// So it does with the version as it is seen after a boot, where the interval begins at the floor or later.
pub fn read_after_boot_raises_and_cuts()
    ensures { (floor : ℕ) (v : Version) (i : Interval) → floor ≤ i.lo
        → within (Some v) i ≡ cut_to v.end (raised_to (floored floor v).begin i) }
{}

/// One more written object raises the interval of a finish to the object's bound.
pub fn write_raises()
    ensures { (bound : ℕ → ℕ) (w : Write) (ws : List Write) (i : Interval)
        → raised_by bound (w ∷ ws) i ≡ raised_to (bound w.object) (raised_by bound ws i) }
{}
