//! What failed on the file, as its user is told.

use std::fmt::{self, Display, Formatter};
use std::io;

/// A call on the file that failed.
#[derive(Debug, Drop)]
pub enum Fault {
    /// Another process has it open.
    Held,
    /// There is none.
    Missing,
    /// It was opened for reading alone.
    ReadAlone,
    /// The system refused the call, for this reason.
    Refused {
        call: &'static str,
        error: io::Error,
    },
}

impl Display for Fault {
    fn fmt<W: fmt::Write>(&self, f: &mut Formatter<W>) -> fmt::Result {
        match self {
            Fault::Held => write!(f, "held by another process"),
            Fault::Missing => write!(f, "no such file"),
            Fault::ReadAlone => write!(f, "opened for reading alone"),
            Fault::Refused { call, error } => write!(f, "{call}: {error}"),
        }
    }
}

/// The outcome of a call of the system, with the call's name where it failed.
pub(crate) fn named<T>(call: &'static str, outcome: io::Result<T>) -> Result<T, Fault> {
    match outcome {
        Ok(value) => Ok(value),
        Err(error) => Err(Fault::Refused { call, error }),
    }
}
