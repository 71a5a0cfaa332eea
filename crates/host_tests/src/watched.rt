//! A link over connections in memory that keeps those which ended, so that a test sees what was written on them.
use http_endpoint::link::{Link, MemLink};
use rm_base::{Failed, MemConn, Numbers};
use std::alloc::Global;

/// A link, and the connections that were hung up.
#[derive(Drop)]
pub(crate) struct Watched {
    link: MemLink,
    ended: Vec<MemConn>,
}

impl Watched {
    /// A link that has these connections to come.
    pub(crate) fn new(alloc: Global, inputs: Vec<MemConn>) -> Self {
        Watched {
            link: MemLink::new(inputs, Numbers::new(alloc)),
            ended: Vec::new(alloc),
        }
    }

    /// How many connections ended.
    pub(crate) fn ended(&self) -> usize {
        self.ended.len()
    }

    /// Whether this was written on one of them, counted from 0.
    pub(crate) fn has_written(&self, place: usize, text: &[u8]) -> bool {
        match self.ended.get(place) {
            Some(conn) => conn.written() == text,
            None => false,
        }
    }
}

// (it tells nothing of what it was asked for, so that a test owes no proof of that)
impl Link for Watched {
    ghost use Rattle.std.specs.Prelude.{None, false};

    type Conn = MemConn;

    type Asking = MemConn;

    type Hearing = MemConn;

    ghost told = { λ w. record { coming = None; past = None; faults = w.link.faults; sound = false } };

    fn listen(&mut self, port: u16) -> Result<(), Failed> {
        self.link.listen(port)
    }

    fn accept(&mut self) -> Result<MemConn, Failed> {
        self.link.accept()
    }

    fn dial(&mut self, host: &[u8], port: u16) -> Result<MemConn, Failed> {
        self.link.dial(host, port)
    }

    fn asked(conn: MemConn) -> MemConn {
        conn
    }

    fn hang_up(&mut self, conn: MemConn) {
        let _ = self.ended.push(conn);
    }
}
