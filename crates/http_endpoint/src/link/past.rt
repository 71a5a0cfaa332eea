//! What a link in memory was asked for.
ghost use Rattle.std.specs.Prelude.{◌≡◌, [], ◌∷◌, Some};
ghost use Rattle.http_endpoint.specs.Link.Lines.{Asks, Dialled, HungUp, Listened};

use rm_base::{Blob, MemConn};
use std::alloc::Global;
use std::marker::Model;

/// A port that was listened to, a call that was dialled, or one that ended.
#[derive(Debug, Drop)]
pub enum Note {
    Listened { port: u16 },
    Dialled { host: Blob, port: u16 },
    HungUp(MemConn),
}

/// What was asked for, in order. Once memory is wanting for a note it tells nothing any more. Contracts see it, and no
/// call reads it.
#[derive(Debug, Drop)]
pub struct Past {
    notes: Vec<Note>,
    is_whole: bool,
}

impl Model for Past {
    ghost use Rattle.std.specs.Prelude.{List, Option, Some, None, if◌then◌else◌, map};
    ghost use Rattle.http_endpoint.specs.Link.Lines.{Call};
    ghost use Rattle.http_endpoint.specs.Link.Notes.{call_of};

    ghost Value = { Option (List Call) };

    ghost view = { λ p. if p.is_whole then Some (map call_of p.notes.items) else None };
}

impl Past {
    ghost use Rattle.http_endpoint.specs.Link.Notes.{call_of};

    /// Nothing yet.
    pub fn new(alloc: Global) -> Self
        ensures { result ≡ Some [] }
    {
        Past {
            notes: Vec::new(alloc),
            is_whole: true,
        }
    }

    /// A port was listened to.
    pub fn listened(&mut self, port: u16)
        ensures { Asks self.old self.new (Listened port ∷ []) }
    {
        self.add(Note::Listened { port });
    }

    /// A host was dialled.
    pub fn dialled(&mut self, host: &[u8], port: u16)
        ensures { Asks self.old self.new (Dialled host.now port ∷ []) }
    {
        match Blob::from_slice(*self.notes.allocator(), host) {
            Ok(host) => self.add(Note::Dialled { host, port }),
            Err(_) => self.is_whole = false,
        }
    }

    /// A connection ended.
    pub fn hung_up(&mut self, conn: MemConn)
        ensures { Asks self.old self.new (HungUp (Some conn.written) ∷ []) }
    {
        self.add(Note::HungUp(conn));
    }

    fn add(&mut self, note: Note)
        ensures { Asks self.old self.new (call_of note ∷ []) }
    {
        if let Err(_) = self.notes.push(note) {
            self.is_whole = false;
        }
    }
}
