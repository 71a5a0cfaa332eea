//! What failed on the network, as its user is told.

use std::fmt::{self, Display, Formatter};
use std::io;

/// A call on the network that failed.
#[derive(Debug, Drop)]
pub struct Fault {
    pub call: &'static str,
    pub error: io::Error,
}

impl Display for Fault {
    fn fmt<W: fmt::Write>(&self, f: &mut Formatter<W>) -> fmt::Result {
        write!(f, "{}: {}", self.call, self.error)
    }
}
