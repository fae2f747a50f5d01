//! Worked tables, computed: they print what the event machine prints.

ghost use Rattle.std.specs.Prelude.{ℕ};
ghost use Rattle.table_machine.specs.Worked.{Failures, FailuresOnTwoCores, RefusedForRoom, SeveralCores, Smallest};
ghost use Rattle.table_machine.specs.WorkedKinds.{BootingKinds, ChangedPages, FormattedKinds, FoundInPages, PageCommits, TwoWritesMade};

/// One task on one core, to its end.
pub fn smallest_course()
    ensures { Smallest }
{}

/// On each kind of device: formatted, with two writes of a commit made, and booting.
pub fn tables_on_each_kind()
    ensures formatted { FormattedKinds }
    ensures writing { TwoWritesMade }
    ensures booting { BootingKinds }
{}

/// An index in pages: a commit writes those that it changes, and a boot finds a finish whose last write was made.
pub fn courses_on_pages()
    ensures commit { PageCommits }
    ensures found { FoundInPages }
    ensures changed { ChangedPages }
{}

/// Failures before and after the last write, in a boot, and with two cores.
pub fn failures_of_power()
    ensures { Failures × FailuresOnTwoCores }
{}

/// Several cores, and refusals for room.
pub fn several_cores()
    ensures { SeveralCores × RefusedForRoom }
{}
