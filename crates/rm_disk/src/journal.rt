//! A journal on a disk: a list of entries. An entry is whole on the disk before `append` answers Ok. After a crash at
//! any device call the list is the old one, or this with the new entry. `compact` writes another list in its place, and
//! a crash leaves the one or the other. `import` makes a journal of what one of the layout before had. `Fits` says that
//! a journal and its disk have a list of entries, and contracts say what each call does to that list, and why it fails.

mod block;
pub mod carrying;
pub mod error;
pub mod journal;
pub mod laws;
mod place;
mod scan;

pub use carrying::carry;
pub use error::JournalError;
pub use journal::Journal;
