//! What a disk in memory keeps of a call.

/// A call that a disk in memory has had, without the bytes that it wrote.
#[derive(Clone, Copy, Debug, PartialEq, Eq)]
pub enum Note {
    Write { at: usize, count: usize },
    FailedWrite { at: usize, count: usize },
    Cut { len: usize },
    FailedCut { len: usize },
    Sync,
    FailedSync,
    Crash { choice: u8 },
}
