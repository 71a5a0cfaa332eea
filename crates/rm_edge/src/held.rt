//! A request that is whole, on its way through the desk.
ghost use Rattle.rm_base.specs.Outside.{talking_told};

use rm_base::{Blob, Connection, Failed, MemConn, Numbers, Sink, SinkError, Source};
use std::alloc::Global;

/// A connection over memory: the bytes of a request come in, and what is written is the answer. It knows the connection
/// that the request came on.
#[derive(Debug, Drop)]
pub struct Held {
    conn: MemConn,
    place: usize,
    serial: u64,
}

impl Held {
    /// A request that came on a connection.
    pub fn new(alloc: Global, request: Blob, place: usize, serial: u64) -> Held {
        Held {
            conn: MemConn::new(alloc, request, Numbers::new(alloc)),
            place,
            serial,
        }
    }

    /// The place of the connection, and the number by which it is told from others that have the place after it.
    pub fn line(&self) -> (usize, u64) {
        (self.place, self.serial)
    }

    /// What was written.
    pub fn written(&self) -> &[u8] {
        self.conn.written()
    }
}

impl Source for Held {
    ghost told = { λ h. talking_told h.conn };

    fn read(&mut self, buf: &mut [u8]) -> Result<usize, Failed> {
        self.conn.read(buf)
    }
}

impl Sink for Held {
    ghost told = { λ h. talking_told h.conn };

    fn write(&mut self, bytes: &[u8]) -> Result<usize, SinkError> {
        self.conn.write(bytes)
    }
}

impl Connection for Held {
    ghost use Rattle.std.specs.Prelude.{refl};

    ghost one = { λ h. refl };
}
