//! What an edge has done, in numbers.

use rm_base::{Blob, Memory, push_decimal};
use std::fmt::{self, Display, Formatter};

/// Counts, each of which stands still at its greatest value.
#[derive(Clone, Copy, Debug, PartialEq, Eq)]
pub struct Tally {
    /// Requests of peers, and of applications, that were handed over.
    pub asked: u64,
    pub called: u64,
    /// Connections that were let go with no whole request: silent, late, too many, or broken.
    pub dropped: u64,
    /// Packets that were answered, that were not, and that were given up before they were posted.
    pub posted: u64,
    pub missed: u64,
    pub shed: u64,
    /// Connections from elsewhere, and packets for elsewhere, that the rules bar.
    pub barred: u64,
}

impl Tally {
    /// Nothing yet.
    pub fn new() -> Tally {
        Tally {
            asked: 0,
            called: 0,
            dropped: 0,
            posted: 0,
            missed: 0,
            shed: 0,
            barred: 0,
        }
    }

    /// Appends the counts in the text form that Prometheus reads.
    pub fn push_counts(&self, text: &mut Blob) -> Result<(), Memory> {
        push_count(text, b"wsrm_peer_requests_total", self.asked)?;
        push_count(text, b"wsrm_application_requests_total", self.called)?;
        push_count(text, b"wsrm_dropped_connections_total", self.dropped)?;
        push_count(text, b"wsrm_posted_packets_total", self.posted)?;
        push_count(text, b"wsrm_missed_packets_total", self.missed)?;
        push_count(text, b"wsrm_shed_packets_total", self.shed)?;
        push_count(text, b"wsrm_barred_total", self.barred)
    }
}

// Appends a count: its type, and its value.
fn push_count(text: &mut Blob, name: &[u8], value: u64) -> Result<(), Memory> {
    text.push_all(b"# TYPE ")?;
    text.push_all(name)?;
    text.push_all(b" counter\n")?;
    text.push_all(name)?;
    text.push_all(b" ")?;
    push_decimal(text, value)?;
    text.push_all(b"\n")
}

impl Display for Tally {
    fn fmt<W: fmt::Write>(&self, f: &mut Formatter<W>) -> fmt::Result {
        write!(
            f,
            "asked {} called {} dropped {} posted {} missed {} shed {} barred {}",
            self.asked, self.called, self.dropped, self.posted, self.missed, self.shed, self.barred
        )
    }
}
