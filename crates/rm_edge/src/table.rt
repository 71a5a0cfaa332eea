//! The connections, each in a place of its own.

use crate::limits::{MOST_APPS, MOST_OF_ONE, MOST_PEERS, MOST_POSTS};
use crate::line::{Kind, Line, Stage};
use std::alloc::Global;

/// The connections, with a count of each kind, and how many bytes they hold.
#[derive(Drop)]
pub struct Table {
    lines: Vec<Option<Line>>,
    peers: usize,
    apps: usize,
    posts: usize,
    bytes: usize,
}

impl Table {
    /// No connection.
    pub fn new(alloc: Global) -> Table {
        Table {
            lines: Vec::new(alloc),
            peers: 0,
            apps: 0,
            posts: 0,
            bytes: 0,
        }
    }

    /// How many places there are, free ones among them.
    pub fn len(&self) -> usize {
        self.lines.len()
    }

    /// Whether there is no connection.
    pub fn is_empty(&self) -> bool {
        self.peers == 0 && self.apps == 0 && self.posts == 0
    }

    /// How many bytes the connections hold.
    pub fn bytes(&self) -> usize {
        self.bytes
    }

    /// Whether there may be one more of this kind.
    pub fn has_room(&self, kind: Kind) -> bool {
        match kind {
            Kind::Peer(from) => self.peers < MOST_PEERS && self.count_of(from) < MOST_OF_ONE,
            Kind::App => self.apps < MOST_APPS,
            Kind::Post(_) => self.posts < MOST_POSTS,
        }
    }

    // How many connections of peers come from an address.
    fn count_of(&self, from: u64) -> usize {
        let mut count: usize = 0;
        for line in self.lines.iter() {
            if let Some(line) = line
                && line.kind() == Kind::Peer(from)
            {
                count = count.saturating_add(1);
            }
        }
        count
    }

    /// The peer's connection that would make place for one more from an address: the one that is silent for longest,
    /// of that address where it has as many as it may.
    pub fn silent(&self, from: u64) -> Option<usize> {
        let is_one = self.count_of(from) >= MOST_OF_ONE;
        let mut found = None;
        let mut least = u64::MAX;
        for place in 0..self.lines.len() {
            if let Some(since) = self.silent_since(place, from, is_one)
                && since < least
            {
                least = since;
                found = Some(place);
            }
        }
        found
    }

    fn silent_since(&self, place: usize, from: u64, is_one: bool) -> Option<u64> {
        let Some(Some(line)) = self.lines.get(place) else {
            return None;
        };
        match line.kind() {
            Kind::Peer(other) => {
                if is_one && other != from {
                    None
                } else {
                    line.silent_since()
                }
            }
            _ => None,
        }
    }

    /// A free place.
    pub fn place(&mut self) -> Option<usize> {
        for place in 0..self.lines.len() {
            if let Some(None) = self.lines.get(place) {
                return Some(place);
            }
        }
        let place = self.lines.len();
        match self.lines.push(None) {
            Ok(()) => Some(place),
            Err(_) => None,
        }
    }

    /// A connection comes into a place.
    pub fn enter(&mut self, place: usize, line: Line) {
        match line.kind() {
            Kind::Peer(_) => self.peers = self.peers.saturating_add(1),
            Kind::App => self.apps = self.apps.saturating_add(1),
            Kind::Post(_) => self.posts = self.posts.saturating_add(1),
        }
        self.put(place, line);
    }

    /// A connection that was taken out is over.
    pub fn leave(&mut self, kind: Kind) {
        match kind {
            Kind::Peer(_) => self.peers = self.peers.saturating_sub(1),
            Kind::App => self.apps = self.apps.saturating_sub(1),
            Kind::Post(_) => self.posts = self.posts.saturating_sub(1),
        }
    }

    /// Takes out the connection of a place, to be put back or to leave.
    pub fn take(&mut self, place: usize) -> Option<Line> {
        let Some(at) = self.lines.get_mut(place) else {
            return None;
        };
        let line = at.take()?;
        self.bytes = self.bytes.saturating_sub(line.bytes());
        Some(line)
    }

    /// The same, where it is the one with this number.
    pub fn take_one(&mut self, place: usize, serial: u64) -> Option<Line> {
        match self.lines.get(place) {
            Some(Some(line)) => {
                if line.serial() != serial {
                    return None;
                }
            }
            _ => return None,
        }
        self.take(place)
    }

    /// Puts a connection back.
    pub fn put(&mut self, place: usize, line: Line) {
        self.bytes = self.bytes.saturating_add(line.bytes());
        if let Some(at) = self.lines.get_mut(place) {
            *at = Some(line);
        }
    }

    /// How many applications wait for an answer that isn't there yet.
    pub fn paused(&self) -> usize {
        let mut count: usize = 0;
        for line in self.lines.iter() {
            if let Some(line) = line
                && line.stage() == Stage::Paused
            {
                count = count.saturating_add(1);
            }
        }
        count
    }

    /// The number of the connection in a place, where the desk is asked again for it from now on.
    pub fn resume(&mut self, place: usize) -> Option<u64> {
        match self.lines.get_mut(place) {
            Some(Some(line)) => {
                if line.resume() {
                    Some(line.serial())
                } else {
                    None
                }
            }
            _ => None,
        }
    }

    /// Whether the time of the connection in a place is up.
    pub fn is_late(&self, place: usize, now: u64) -> bool {
        match self.lines.get(place) {
            Some(Some(line)) => line.is_late(now),
            _ => false,
        }
    }

    /// Whether a peer or an application is owed an answer.
    pub fn owes(&self) -> bool {
        for line in self.lines.iter() {
            if let Some(line) = line
                && line.owes()
                && !matches!(line.kind(), Kind::Post(_))
            {
                return true;
            }
        }
        false
    }
}
