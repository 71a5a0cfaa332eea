//! A disk that is a file of the system, `wsrm.journal` in the current folder: `Disk` over the calls of std. It tells
//! contracts nothing of its content, and counts its faults; beside them it keeps what failed last, for the user to be
//! told. `FileReader` reads the same file beside a process that has it, and changes nothing.

mod fault;
mod file;
mod reader;

pub use fault::Fault;
pub use file::{FileDisk, NAME};
pub use reader::FileReader;
