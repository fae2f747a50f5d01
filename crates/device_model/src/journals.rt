//! Commits, whole or cut, and boots, one after another, write by write.

ghost use Rattle.std.specs.Prelude.{ℕ, ◌<◌, List, length};
ghost use Rattle.set_model.specs.Limits.{IsTaskSet};
ghost use Rattle.device_model.specs.Words.{Words, made};
ghost use Rattle.device_model.specs.Decoding.{Held};
ghost use Rattle.device_model.specs.Commits.{Commit, IsNext};
ghost use Rattle.device_model.specs.Journals.{Act, booted, boot_writes};
ghost use Rattle.device_model.specs.Devices.{IsKindOn, Device, AreNextOn, HoldsOn, KeepsOn, commit_on, image_after, journal_on, reached_on};

/// A boot counts by its one write, and leaves all else.
pub fn boot_counts()
    ensures keeps { (d : Device) (h : Held) (words : Words)
        → IsTaskSet d.set → KeepsOn d h words → KeepsOn d (booted h) (made (boot_writes h) words) }
    ensures decodes { (d : Device) (h : Held) (words : Words)
        → IsTaskSet d.set → IsKindOn d → HoldsOn d h words
        → HoldsOn d (booted h) (made (boot_writes h) words) }
{}

/// Each image of commits, boots and commits that are cut, one after another in any order, holds the state after all those whose writes are made.
pub fn each_image_holds_state()
    ensures keeps { (d : Device) (h : Held) (acts : List Act) (words : Words) (k : ℕ)
        → IsTaskSet d.set → AreNextOn d h acts → KeepsOn d h words
        → KeepsOn d (reached_on d h acts k) (image_after k (journal_on d h acts) words) }
    ensures decodes { (d : Device) (h : Held) (acts : List Act) (words : Words) (k : ℕ)
        → IsTaskSet d.set → IsKindOn d → AreNextOn d h acts → HoldsOn d h words
        → HoldsOn d (reached_on d h acts k) (image_after k (journal_on d h acts) words) }
{}

/// A commit that is cut after k writes leaves words from which all goes on from the state before it.
pub fn cut_commit_goes_on()
    ensures { (d : Device) (h : Held) (c : Commit) (acts : List Act) (words : Words)
        → (k m : ℕ) → IsTaskSet d.set → IsKindOn d → IsNext d.set h c
        → k < length (commit_on d h c) → AreNextOn d h acts → HoldsOn d h words
        → HoldsOn d (reached_on d h acts m)
        (image_after m (journal_on d h acts) (image_after k (commit_on d h c) words)) }
{}
