//! Bytes that were read from a source, a piece at a time, and not yet used.
ghost use Rattle.std.specs.Prelude.{◌≡◌, ℕ, ◌≤◌, ◌<◌, ◌+◌, ◌⊎◌, ◌++◌, List, [], length, take, drop, min, max, IfOk};
ghost use Rattle.std.specs.Prelude.{IfErr, OnOk, Ok, Err, true, false};
ghost use Rattle.std.specs.Io.KnownBytes.{IsAtEnd};
ghost use Rattle.http_endpoint.specs.Ahead.{ahead, StillAhead};
ghost use Rattle.http_endpoint.specs.Kept.{KeepsSource};
ghost use Rattle.http_endpoint.specs.Taken.{TakesAtMost, UsesAtMost};

use crate::error::HttpError;
use rm_base::{Blob, Source};
use std::alloc::Global;
use std::marker::Model;

// How many bytes one read asks for at most.
const PIECE: usize = 4096;

/// Bytes that were read from a source, and not yet used.
#[derive(Drop)]
pub struct Input {
    alloc: Global,
    bytes: Vec<u8>,
    at: usize,
}

impl Model for Input {
    ghost use Rattle.std.specs.Prelude.{ℕ, List, ◌≤◌, length, drop};

    ghost Value = { List ℕ };

    ghost view = { λ s. drop s.at s.bytes.items };

    ghost invariant = { λ s. s.at ≤ length s.bytes.items };
}

impl Input {
    /// No bytes. It takes no memory.
    pub fn new(alloc: Global) -> Self
        ensures { result ≡ [] }
    {
        Input {
            alloc,
            bytes: Vec::new(alloc),
            at: 0,
        }
    }

    /// The bytes that are held.
    pub fn as_slice(&self) -> &[u8]
        ensures { result.now ≡ self.now }
    {
        self.bytes.as_slice().split_at(self.at).1
    }

    /// Passes over the first bytes.
    pub fn skip(&mut self, len: usize)
        requires { len ≤ length self.old }
        ensures { self.new ≡ drop len self.old }
    {
        self.at += len;
    }

    /// Reads some more bytes, at most so many, and answers whether there were any.
    pub fn fill<S: Source>(&mut self, from: &mut S, room: usize) -> Result<bool, HttpError>
        requires { 0 < room }
        ensures kept { OnOk result (StillAhead (ahead (S.told from.old).left self.old)
            (ahead (S.told from.new).left self.new)) }
        ensures more { result ≡ Ok true → length self.old < length self.new }
        ensures within { OnOk result (length self.new ≤ length self.old + room) }
        ensures at_end { result ≡ Ok false → IsAtEnd (S.told from.new).left × (self.new ≡ self.old) }
        ensures stops { (S.told from.new).taken ≤ (S.told from.old).taken + room }
        ensures taken { OnOk result (UsesAtMost 0 (length self.old) (length self.new)
            (S.told from.old) (S.told from.new)) }
        ensures kinds { IfErr result (λ e. (e ≡ HttpError.ReadFault) ⊎ (e ≡ HttpError.Memory)) }
        ensures keeps { KeepsSource result (S.told from.old) (S.told from.new) }
    {
        let mut piece = [0; PIECE];
        let count = from.read(&mut piece[..room.min(PIECE)])?;
        if count == 0 {
            return Ok(false);
        }
        self.push(&piece[..count])?;
        Ok(true)
    }

    /// Whether there are bytes to use. Reads some where none are held, at most so many.
    pub fn has_more<S: Source>(&mut self, from: &mut S, room: usize) -> Result<bool, HttpError>
        requires { 0 < room }
        ensures kept { OnOk result (StillAhead (ahead (S.told from.old).left self.old)
            (ahead (S.told from.new).left self.new)) }
        ensures more { result ≡ Ok true → 0 < length self.new }
        ensures at_end { result ≡ Ok false → IsAtEnd (S.told from.new).left × (self.new ≡ []) }
        ensures stops { TakesAtMost room (length self.old) (S.told from.old) (S.told from.new) }
        ensures taken { OnOk result (UsesAtMost 0 (length self.old) (length self.new)
            (S.told from.old) (S.told from.new)) }
        ensures kinds { IfErr result (λ e. (e ≡ HttpError.ReadFault) ⊎ (e ≡ HttpError.Memory)) }
        ensures keeps { KeepsSource result (S.told from.old) (S.told from.new) }
    {
        if self.as_slice().is_empty() {
            self.fill(from, room)
        } else {
            Ok(true)
        }
    }

    /// Moves as many of the bytes that are held as there is room for.
    pub fn move_to(&mut self, body: &mut Blob, room: usize) -> Result<usize, HttpError>
        ensures count { IfOk result (λ n. n ≡ min room (length self.old)) }
        ensures body { IfOk result (λ n. body.new ≡ body.old ++ take n self.old) }
        ensures rest { IfOk result (λ n. self.new ≡ drop n self.old) }
        ensures err { IfErr result (λ e. e ≡ HttpError.Memory) }
    {
        let count = room.min(self.as_slice().len());
        body.push_all(self.as_slice().split_at(count).0)?;
        self.skip(count);
        Ok(count)
    }

    // Adds bytes, in place of those that were passed over.
    fn push(&mut self, more: &[u8]) -> Result<(), HttpError>
        ensures ok { OnOk result (self.new ≡ self.old ++ more.now) }
        ensures err { IfErr result (λ e. e ≡ HttpError.Memory) }
    {
        if self.at > 0 {
            self.bytes = Vec::from_slice(self.alloc, self.bytes.as_slice().split_at(self.at).1)?;
            self.at = 0;
        }
        self.bytes.extend_from_slice(more)?;
        Ok(())
    }
}
