// Why a task was stopped.

ghost use Rattle.std.specs.Prelude.{◌≡◌, ◌<◌, ◌≤◌, ◌↔◌, ◌⊎◌, IsNone, IfSome, Some};
ghost use Rattle.nv_base.specs.Causes.{cause_number, cause_word};

/// Why a task was stopped. This project's own, in the order of their numbers, from 1.
#[derive(Clone, Copy, PartialEq, Eq, Debug)]
pub enum TrapCause {
    /// The word at the program counter is no instruction.
    Illegal,
    /// The target of a jump is no multiple of 4.
    Jump,
    /// The instruction is not whole in memory.
    Fetch,
    /// The address of a load is no multiple of its size.
    LoadAlign,
    /// A load is not whole in memory.
    Load,
    /// The address of a store is no multiple of its size.
    StoreAlign,
    /// A store is not whole in memory.
    Store,
    /// EBREAK was done.
    Break,
    /// No service has the number that was called.
    Call,
    /// No object has the number that was named.
    Object,
    /// The address that a service was given is no multiple of 4.
    CallAlign,
    /// The words that a service was given are not whole in memory.
    CallRange,
    /// No program has the number that was named.
    Program,
    /// The task has made as many tasks as it may.
    Spawns,
    /// The fuel is spent.
    Fuel,
}

impl TrapCause {
    /// The number of the cause, from 1 to 15.
    pub fn number(self) -> u32
        ensures exact { result ≡ cause_number self }
        ensures positive { 0 < result }
        ensures small { result ≤ 15 }
    {
        match self {
            TrapCause::Illegal => 1,
            TrapCause::Jump => 2,
            TrapCause::Fetch => 3,
            TrapCause::LoadAlign => 4,
            TrapCause::Load => 5,
            TrapCause::StoreAlign => 6,
            TrapCause::Store => 7,
            TrapCause::Break => 8,
            TrapCause::Call => 9,
            TrapCause::Object => 10,
            TrapCause::CallAlign => 11,
            TrapCause::CallRange => 12,
            TrapCause::Program => 13,
            TrapCause::Spawns => 14,
            TrapCause::Fuel => 15,
        }
    }

    /// The cause with this number: None exactly where the number is not 1 to 15.
    pub fn from_number(n: u32) -> Option<TrapCause>
        ensures none { IsNone result ↔ ((n ≡ 0) ⊎ (15 < n)) }
        ensures inverse { IfSome result (λ cause. cause_number cause ≡ n) }
        ensures back { (cause : TrapCause) → cause_number cause ≡ n → result ≡ Some cause }
    {
        let cause = match n {
            1 => TrapCause::Illegal,
            2 => TrapCause::Jump,
            3 => TrapCause::Fetch,
            4 => TrapCause::LoadAlign,
            5 => TrapCause::Load,
            6 => TrapCause::StoreAlign,
            7 => TrapCause::Store,
            8 => TrapCause::Break,
            9 => TrapCause::Call,
            10 => TrapCause::Object,
            11 => TrapCause::CallAlign,
            12 => TrapCause::CallRange,
            13 => TrapCause::Program,
            14 => TrapCause::Spawns,
            15 => TrapCause::Fuel,
            _ => return None,
        };
        Some(cause)
    }

    /// The word of the cause in a report.
    pub fn word(self) -> &'static str
        ensures { result.now ≡ cause_word self }
    {
        match self {
            TrapCause::Illegal => "illegal",
            TrapCause::Jump => "jump",
            TrapCause::Fetch => "fetch",
            TrapCause::LoadAlign => "loadalign",
            TrapCause::Load => "load",
            TrapCause::StoreAlign => "storealign",
            TrapCause::Store => "store",
            TrapCause::Break => "break",
            TrapCause::Call => "call",
            TrapCause::Object => "object",
            TrapCause::CallAlign => "callalign",
            TrapCause::CallRange => "callrange",
            TrapCause::Program => "program",
            TrapCause::Spawns => "spawns",
            TrapCause::Fuel => "fuel",
        }
    }
}
