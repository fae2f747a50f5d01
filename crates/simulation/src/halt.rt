//! Why a run stops before its end.

/// Why a run stops before its end.
#[derive(Clone, Copy, PartialEq, Eq, Debug)]
pub enum Halt {
    /// The sink failed.
    WriteFault,
    /// The device lost a call.
    DeviceLost,
}
