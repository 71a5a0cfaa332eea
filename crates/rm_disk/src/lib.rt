//! A disk that may lose what wasn't synced, and the journal of entries that a node keeps on it.
//! `Disk` is its trait. A `CrashDisk` can be told to fail and to crash; `MemDisk` is one in memory.
//! Contracts see a disk as the list of its calls: what a read gives and what a crash may leave follow from it.
//! - `journal`: the list of entries on a disk, `Journal`. After a crash it has all of an entry or nothing of it.
//! - `file`: the file `wsrm.journal` in the current folder as a disk, `FileDisk`, and as another program reads it.
//! The laws of `laws` and `journal::laws` have their lemmas in `specs/ImageLemmas` and `specs/Journal/EntryLemmas`.
#![tactic(auto)]

pub mod disk;
pub mod laws;
pub mod mem;
mod note;
mod patch;

pub use disk::{CrashDisk, Disk, ReadDisk};
pub use mem::MemDisk;

pub mod file;
pub mod journal;
