//! Worked runs, computed: what stands in each slot, and which slot is free.

ghost use Rattle.slot_model.specs.WorkedSlots.{OneCommit, CutCommitInSlots, FoundFinishInSlots, OlderVersionInSlots, NoFreeSlot, DoomedCopyInSlots, TwoSlots};

/// One commit, through its writes.
pub fn one_commit()
    ensures { OneCommit }
{}

/// Failures before and after the last write of a commit.
pub fn failures_in_slots()
    ensures { CutCommitInSlots × FoundFinishInSlots }
{}

/// An older version is kept in its slot while it is needed, and then its slot is taken.
pub fn older_versions_in_slots()
    ensures { OlderVersionInSlots × NoFreeSlot }
{}

/// The slot of a copy is not taken, though its attempt can not finish.
pub fn doomed_copy_in_slots()
    ensures { DoomedCopyInSlots }
{}

/// Which slot of two is free.
pub fn two_slots()
    ensures { TwoSlots }
{}
