//! Where a writer stands in a commit.

/// Which write of a commit comes next. Each part is one look away: nothing is walked over at a turn.
#[derive(Clone, Copy)]
pub enum Position {
    /// A word of a written object: the first part counts the written objects, the second the words of this one.
    Object(usize, u8),
    /// A word of a changed page: the first part counts the changed pages, the second the words of this one.
    Page(usize, u32),
    /// The root.
    Root,
    /// No write is left.
    Done,
}
