//! Why bytes are no packed set.

use nv_base::Refusal;

/// Why bytes are no packed set.
#[derive(Clone, Copy, PartialEq, Eq, Debug)]
pub enum ImageRefusal {
    /// The place of the first field that is cut or breaks its rule, in bytes from the start; behind the last field, of the first byte too many.
    Bad(u32),
    /// There was no memory for the set.
    NoMemory,
}

/// Why reading stopped: the place of the field that is cut or breaks its rule, or no memory.
pub(crate) type Stop = Refusal<usize>;
