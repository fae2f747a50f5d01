//! Worked devices, computed: how many words, turns and writes, and what each image of a format, a commit and a migration decodes to.

ghost use Rattle.device_model.specs.Worked.{BootImage, CommitImages, CountedNumbers, Damages, FormatImages, GreatestNumbers, MigratedNumbers, MigrationImages, PagedNumbers, PlainNumbers};
ghost use Rattle.device_model.specs.WorkedPages.{BranchingImages, BranchingNumbers, CountedPages, JournalImages};

/// One object, one program of twelve words and one task, in each kind of device, and the greatest set.
pub fn worked_numbers()
    ensures { PlainNumbers × PagedNumbers × MigratedNumbers × GreatestNumbers }
{}

/// As many writes as the kernel's model counts for a commit, in each kind of device, and on one of three pages.
pub fn worked_counts()
    ensures { CountedNumbers × CountedPages }
{}

/// Each image of a format.
pub fn worked_formats()
    ensures { FormatImages }
{}

/// Each image of a commit.
pub fn worked_commits()
    ensures { CommitImages }
{}

/// Each image of a migration.
pub fn worked_migration()
    ensures { MigrationImages }
{}

/// A boot.
pub fn worked_boot()
    ensures { BootImage }
{}

/// A word in place of another.
pub fn worked_damages()
    ensures { Damages }
{}

/// Three pages: which of them a commit writes, and what its images decode to.
pub fn worked_pages()
    ensures { BranchingNumbers × BranchingImages }
{}

/// A boot, a commit that is cut, a boot, and a commit.
pub fn worked_journal()
    ensures { JournalImages }
{}
