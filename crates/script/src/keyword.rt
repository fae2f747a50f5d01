//! The first words of lines, and the order in which lines come.

ghost use Rattle.std.specs.Prelude.{◌≡◌};
ghost use Rattle.script.specs.Keywords.{block_kind_of as block_kind, keyword_of as keyword, may_follow as follows, stage_of};

/// The first word of a line that stands alone.
#[derive(Clone, Copy, PartialEq, Eq, Debug)]
pub enum Keyword {
    /// The format of the set.
    Nvk,
    /// How many cores there are.
    Cores,
    /// The private memory of an attempt.
    Memory,
    /// How many tasks may be open.
    Records,
    /// An object.
    Object,
    /// A task that is open at first.
    Task,
    /// On-times.
    Power,
    /// Core steps, one by one.
    Steps,
    /// Core steps that a generator draws.
    Mix,
    /// The end of the script.
    Run,
}

/// How the code of a program is written.
#[derive(Clone, Copy, PartialEq, Eq, Debug)]
pub enum BlockKind {
    /// As lines of the assembler.
    Program,
    /// As words in hexadecimal digits.
    Code,
}

/// Where a line stands in the order of a script.
#[derive(Clone, Copy, PartialEq, Eq, Debug)]
pub enum Stage {
    /// The format of the set: once.
    Nvk,
    /// The cores: once.
    Cores,
    /// The private memory: once.
    Memory,
    /// The task records: once.
    Records,
    /// Objects: once or more.
    Object,
    /// Programs: once or more.
    Program,
    /// Tasks: any number.
    Task,
    /// The lines of the schedule: any number.
    Schedule,
    /// The end: once.
    Run,
}

impl Keyword {
    /// Where a line of this first word stands.
    pub(crate) fn stage(self) -> Stage
        ensures { result ≡ stage_of self }
    {
        match self {
            Keyword::Nvk => Stage::Nvk,
            Keyword::Cores => Stage::Cores,
            Keyword::Memory => Stage::Memory,
            Keyword::Records => Stage::Records,
            Keyword::Object => Stage::Object,
            Keyword::Task => Stage::Task,
            Keyword::Power | Keyword::Steps | Keyword::Mix => Stage::Schedule,
            Keyword::Run => Stage::Run,
        }
    }
}

/// The keyword that a word is. None where it is none.
pub(crate) fn keyword_of(word: &[u8]) -> Option<Keyword>
    ensures { result ≡ keyword word.now }
{
    if word == b"nvk".as_slice() {
        Some(Keyword::Nvk)
    } else if word == b"cores".as_slice() {
        Some(Keyword::Cores)
    } else if word == b"memory".as_slice() {
        Some(Keyword::Memory)
    } else if word == b"records".as_slice() {
        Some(Keyword::Records)
    } else if word == b"object".as_slice() {
        Some(Keyword::Object)
    } else if word == b"task".as_slice() {
        Some(Keyword::Task)
    } else if word == b"power".as_slice() {
        Some(Keyword::Power)
    } else if word == b"steps".as_slice() {
        Some(Keyword::Steps)
    } else if word == b"mix".as_slice() {
        Some(Keyword::Mix)
    } else if word == b"run".as_slice() {
        Some(Keyword::Run)
    } else {
        None
    }
}

/// The kind of block that a first word opens. None where it opens none.
pub(crate) fn block_kind_of(word: &[u8]) -> Option<BlockKind>
    ensures { result ≡ block_kind word.now }
{
    if word == b"program".as_slice() {
        Some(BlockKind::Program)
    } else if word == b"code".as_slice() {
        Some(BlockKind::Code)
    } else {
        None
    }
}

/// Whether a line may come next after the last one.
pub(crate) fn may_follow(last: Option<Stage>, stage: Stage) -> bool
    ensures { result ≡ follows last stage }
{
    matches!(
        (last, stage),
        (None, Stage::Nvk)
            | (Some(Stage::Nvk), Stage::Cores)
            | (Some(Stage::Cores), Stage::Memory)
            | (Some(Stage::Memory), Stage::Records)
            | (Some(Stage::Records), Stage::Object)
            | (Some(Stage::Object), Stage::Object | Stage::Program)
            | (
                Some(Stage::Program),
                Stage::Program | Stage::Task | Stage::Schedule | Stage::Run
            )
            | (
                Some(Stage::Task),
                Stage::Task | Stage::Schedule | Stage::Run
            )
            | (Some(Stage::Schedule), Stage::Schedule | Stage::Run)
    )
}
