//! The sockets that a connection may have, in one.

use mio::net::{TcpStream, UnixStream};
use mio::{Interest, Registry, Token};
use std::io::{self, ErrorKind, Read, Write};
use std::net::{IpAddr, Shutdown, SocketAddr};

/// A socket over TCP, or one of Unix.
#[derive(Drop)]
pub enum Pipe {
    Tcp(TcpStream),
    Unix(UnixStream),
}

/// What came of a read or a write: so many bytes were moved, none could be yet, or the connection is gone.
#[derive(Clone, Copy, Debug, PartialEq, Eq)]
pub enum Moved {
    Count(usize),
    Later,
    Gone,
}

/// Whether a connection that was dialled is made.
#[derive(Clone, Copy, Debug, PartialEq, Eq)]
pub enum Made {
    Yes,
    NotYet,
    No,
}

fn outcome_of(outcome: io::Result<usize>) -> Moved {
    match outcome {
        Ok(count) => Moved::Count(count),
        Err(error) => {
            if error.kind() == ErrorKind::WouldBlock || error.kind() == ErrorKind::Interrupted {
                Moved::Later
            } else {
                Moved::Gone
            }
        }
    }
}

// Whether a connection from one address to another leads to this port of this process.
fn leads_to(own: SocketAddr, local: IpAddr, there: SocketAddr) -> bool {
    if own.port() != there.port() {
        return false;
    }
    let (local, there) = (local.to_canonical(), there.ip().to_canonical());
    if own.ip().is_unspecified() {
        there == local || there.is_loopback()
    } else {
        there == own.ip().to_canonical()
    }
}

fn state_of(stream: &TcpStream, own: SocketAddr) -> Made {
    if !matches!(stream.take_error(), Ok(None)) {
        return Made::No;
    }
    let (Ok(there), Ok(local)) = (stream.peer_addr(), stream.local_addr()) else {
        return Made::NotYet;
    };
    if leads_to(own, local.ip(), there) {
        Made::No
    } else {
        Made::Yes
    }
}

impl Pipe {
    /// From now on a wait tells of it under this token.
    pub fn register(&mut self, registry: &Registry, token: usize) -> io::Result<()> {
        let both = Interest::READABLE | Interest::WRITABLE;
        match self {
            Pipe::Tcp(stream) => registry.register(stream, Token(token), both),
            Pipe::Unix(stream) => registry.register(stream, Token(token), both),
        }
    }

    /// Reads what came.
    pub fn read(&mut self, piece: &mut [u8]) -> Moved {
        match self {
            Pipe::Tcp(stream) => outcome_of(stream.read(piece)),
            Pipe::Unix(stream) => outcome_of(stream.read(piece)),
        }
    }

    /// Writes as much as goes.
    pub fn write(&mut self, bytes: &[u8]) -> Moved {
        match self {
            Pipe::Tcp(stream) => outcome_of(stream.write(bytes)),
            Pipe::Unix(stream) => outcome_of(stream.write(bytes)),
        }
    }

    /// Nothing more is written.
    pub fn shut(&self) {
        let _ = match self {
            Pipe::Tcp(stream) => stream.shutdown(Shutdown::Write),
            Pipe::Unix(stream) => stream.shutdown(Shutdown::Write),
        };
    }

    /// Whether a connection that was dialled is made. One that leads to the port that this process listens to is none.
    pub fn made(&self, own: SocketAddr) -> Made {
        match self {
            Pipe::Tcp(stream) => state_of(stream, own),
            Pipe::Unix(_) => Made::Yes,
        }
    }
}
