//! A peer that sends a few bytes at a time, and then ends or fails.
//! What a test does stands in a helper that answers a plain value, since a test with many steps is slow to prove.

use http_endpoint::{HttpError, read_request, read_response};
use rm_base::{Blob, Connection, Failed, Memory, Sink, SinkError, Source};
use std::alloc::Global;

/// What the peer sends, how many bytes at a time, and whether the read behind the last one fails. Its counts stand at
/// their greatest value, where they tell nothing.
#[derive(Drop)]
pub struct Peer {
    bytes: Blob,
    at: usize,
    step: usize,
    fails: bool,
    written: Blob,
}

impl Peer {
    /// A peer that sends these bytes, so many at a time, and then ends or fails.
    pub fn new(alloc: Global, bytes: &[u8], step: usize, fails: bool) -> Result<Peer, Memory> {
        Ok(Peer {
            bytes: Blob::from_slice(alloc, bytes)?,
            at: 0,
            step,
            fails,
            written: Blob::new(alloc),
        })
    }

    /// All bytes that were written to it.
    pub fn written(&self) -> &[u8] {
        self.written.as_slice()
    }
}

impl Source for Peer {
    ghost use Rattle.std.specs.Prelude.{◌^◌, ◌-◌};
    ghost use Rattle.rm_base.specs.Outside.{untold};

    ghost told = { λ _. untold (2 ^ 64 - 1) (2 ^ 64 - 1) };

    fn read(&mut self, buf: &mut [u8]) -> Result<usize, Failed> {
        let start = self.at.min(self.bytes.len());
        let rest = self.bytes.as_slice().split_at(start).1;
        let count = rest.len().min(self.step).min(buf.len());
        if count == 0 && self.fails {
            return Err(Failed);
        }
        buf[..count].copy_from_slice(&rest[..count]);
        self.at = start + count;
        Ok(count)
    }
}

impl Sink for Peer {
    ghost use Rattle.std.specs.Prelude.{◌^◌, ◌-◌};
    ghost use Rattle.rm_base.specs.Outside.{untold};

    ghost told = { λ _. untold (2 ^ 64 - 1) (2 ^ 64 - 1) };

    fn write(&mut self, bytes: &[u8]) -> Result<usize, SinkError> {
        match self.written.push_all(bytes) {
            Ok(()) => Ok(bytes.len()),
            Err(_) => Err(SinkError::Memory),
        }
    }
}

impl Connection for Peer {
    ghost use Rattle.std.specs.Prelude.{refl};

    ghost one = { λ _. refl };
}

/// So many times these bytes.
pub fn repeated(alloc: Global, piece: &[u8], count: usize) -> Result<Blob, Memory> {
    let mut text = Blob::new(alloc);
    for _ in 0..count {
        text.push_all(piece)?;
    }
    Ok(text)
}

/// A request from a peer that sends so many bytes at a time, and then fails or ends.
pub fn ask(alloc: Global, bytes: &[u8], step: usize, fails: bool) -> Result<Blob, HttpError> {
    let mut peer = Peer::new(alloc, bytes, step, fails)?;
    read_request(alloc, &mut peer)
}

/// Whether it is this answer.
pub fn is_answer(answer: &Result<Blob, HttpError>, wanted: Result<&[u8], HttpError>) -> bool {
    match answer {
        Ok(body) => wanted == Ok(body.as_slice()),
        Err(error) => wanted == Err(*error),
    }
}

/// Whether such a request is answered so.
pub fn asks(
    alloc: Global,
    bytes: &[u8],
    step: usize,
    fails: bool,
    wanted: Result<&[u8], HttpError>,
) -> bool {
    is_answer(&ask(alloc, bytes, step, fails), wanted)
}

/// The status and the body of a response from such a peer.
pub fn answer(
    alloc: Global,
    bytes: &[u8],
    step: usize,
    fails: bool,
) -> Result<(u16, Blob), HttpError> {
    let mut peer = Peer::new(alloc, bytes, step, fails)?;
    let response = read_response(alloc, &mut peer)?;
    Ok((response.status, response.body))
}
