//! The packets that wait for each host, in order.

use crate::limits::{
    FIRST_REST, LOOK_AGAIN, MOST_HOSTS, MOST_QUEUED, MOST_QUEUED_BYTES, MOST_REST,
};
use http_endpoint::{Media, Target, read_target, write_request_as};
use rm_base::{Blob, MemSink, Memory, Numbers};
use service_turns::Packet;
use std::alloc::Global;
use std::collections::VecDeque;
use std::net::{Net, SocketAddr, ToSocketAddrs};
use std::str;

/// By what a packet is told from others of its host: its length, and a sum over its bytes. Two of one key are taken for
/// one: a packet may be lost anyway, and its time comes again.
#[derive(Clone, Copy, Debug, PartialEq, Eq)]
pub struct Key {
    len: usize,
    sum: u64,
}

fn sum_of(bytes: &[u8], start: u64) -> u64 {
    let mut sum = start;
    for byte in bytes {
        sum = (sum ^ u64::from(*byte)).wrapping_mul(0x0000_0100_0000_01b3);
    }
    sum
}

fn key_of(packet: &Packet) -> Key {
    let start = sum_of(packet.address.as_slice(), 0xcbf2_9ce4_8422_2325);
    Key {
        len: packet.bytes.len(),
        sum: sum_of(packet.bytes.as_slice(), start),
    }
}

// A packet that waits, and the path that its address has behind the host.
#[derive(Drop)]
struct Waiting {
    key: Key,
    target: Target,
    bytes: Blob,
}

/// What is known of a host and port.
pub struct Route {
    host: Blob,
    port: u16,
    addresses: Vec<SocketAddr>,
    // Which of the addresses is dialled next, and how many were tried for the packet that is posted.
    next: usize,
    tried: usize,
    looked: u64,
    queue: VecDeque<Waiting>,
    bytes: usize,
    posting: Option<Waiting>,
    is_busy: bool,
    rest: u64,
    rests_until: u64,
}

impl Drop for Route {
    fn drop(self) {
        let Route {
            host: _,
            port: _,
            addresses: _,
            next: _,
            tried: _,
            looked: _,
            queue: _,
            bytes: _,
            posting: _,
            is_busy: _,
            rest: _,
            rests_until: _,
        } = self;
    }
}

// A host as it is looked up: an address of IPv6 stands in brackets in a URL.
fn bare(host: &str) -> &str {
    match host.strip_prefix('[') {
        Some(rest) => match rest.strip_suffix(']') {
            Some(inner) => inner,
            None => host,
        },
        None => host,
    }
}

impl Route {
    fn new(alloc: Global, target: &Target) -> Result<Route, Memory> {
        Ok(Route {
            host: target.host.copy()?,
            port: target.port,
            addresses: Vec::new(alloc),
            next: 0,
            tried: 0,
            looked: 0,
            queue: VecDeque::new(alloc),
            bytes: 0,
            posting: None,
            is_busy: false,
            rest: 0,
            rests_until: 0,
        })
    }

    fn is_of(&self, target: &Target) -> bool {
        self.port == target.port && self.host.as_slice() == target.host.as_slice()
    }

    fn is_idle(&self) -> bool {
        !self.is_busy && self.posting.is_none() && self.queue.is_empty()
    }

    fn has(&self, key: Key) -> bool {
        if let Some(posting) = &self.posting
            && posting.key == key
        {
            return true;
        }
        for waiting in self.queue.iter() {
            if waiting.key == key {
                return true;
            }
        }
        false
    }

    fn is_ready(&self, now: u64) -> bool {
        !self.is_busy
            && now >= self.rests_until
            && (self.posting.is_some() || !self.queue.is_empty())
    }

    // The addresses of the host, by the system's resolver, which is waited for.
    fn look_up<R: Net>(&mut self, net: &R, now: u64) {
        self.looked = now;
        self.next = 0;
        self.tried = 0;
        self.addresses.clear();
        let Ok(host) = str::from_utf8(self.host.as_slice()) else {
            return;
        };
        if let Ok(found) = (bare(host), self.port).to_socket_addrs(net) {
            for address in found {
                if self.addresses.push(address).is_err() {
                    return;
                }
            }
        }
    }

    // The next packet is posted, where none is.
    fn begin(&mut self) {
        if self.posting.is_none() {
            self.posting = self.queue.pop_front();
            self.tried = 0;
            if let Some(posting) = &self.posting {
                self.bytes = self.bytes.saturating_sub(posting.bytes.len());
            }
        }
    }

    // The packet that was posted is done with.
    fn done(&mut self) {
        self.posting = None;
        self.is_busy = false;
        self.tried = 0;
    }

    // The packet is given up, and the host rests.
    fn give_up(&mut self, now: u64) {
        self.done();
        self.rest = self.rest.saturating_mul(2).max(FIRST_REST).min(MOST_REST);
        self.rests_until = now.saturating_add(self.rest);
        if now.saturating_sub(self.looked) > LOOK_AGAIN {
            self.addresses.clear();
        }
    }

    fn address(&self) -> Option<SocketAddr> {
        self.addresses.get(self.next).copied()
    }
}

/// What waits for all hosts.
#[derive(Drop)]
pub struct Outbox {
    alloc: Global,
    routes: Vec<Route>,
}

/// What is dialled next: an address, and the text of the request.
#[derive(Drop)]
pub struct Dial {
    pub address: SocketAddr,
    pub text: Vec<u8>,
}

impl Outbox {
    /// Nothing waits.
    pub fn new(alloc: Global) -> Outbox {
        Outbox {
            alloc,
            routes: Vec::new(alloc),
        }
    }

    /// How many hosts are known.
    pub fn len(&self) -> usize {
        self.routes.len()
    }

    /// How many bytes wait.
    pub fn bytes(&self) -> usize {
        let mut bytes: usize = 0;
        for route in self.routes.iter() {
            bytes = bytes.saturating_add(route.bytes);
        }
        bytes
    }

    /// Whether nothing waits, and nothing is posted.
    pub fn is_empty(&self) -> bool {
        for route in self.routes.iter() {
            if !route.is_idle() {
                return false;
            }
        }
        true
    }

    /// A packet waits for its turn: whether it was taken, or is there already.
    pub fn push(&mut self, packet: Packet) -> bool {
        let key = key_of(&packet);
        let Packet { address, bytes } = packet;
        let Ok(Some(target)) = read_target(self.alloc, &address) else {
            return false;
        };
        let Some(index) = self.route(&target) else {
            return false;
        };
        let Some(route) = self.routes.get_mut(index) else {
            return false;
        };
        if route.has(key) {
            return true;
        }
        let all = route.bytes.saturating_add(bytes.len());
        if route.queue.len() >= MOST_QUEUED || all > MOST_QUEUED_BYTES {
            return false;
        }
        let waiting = Waiting { key, target, bytes };
        if route.queue.push_back(waiting).is_err() {
            return false;
        }
        route.bytes = all;
        true
    }

    // The place of a host, which is made where there is none.
    fn route(&mut self, target: &Target) -> Option<usize> {
        for index in 0..self.routes.len() {
            if let Some(route) = self.routes.get(index)
                && route.is_of(target)
            {
                return Some(index);
            }
        }
        let Ok(made) = Route::new(self.alloc, target) else {
            return None;
        };
        if self.routes.len() < MOST_HOSTS {
            let index = self.routes.len();
            return match self.routes.push(made) {
                Ok(()) => Some(index),
                Err(_) => None,
            };
        }
        for index in 0..self.routes.len() {
            if let Some(route) = self.routes.get_mut(index)
                && route.is_idle()
            {
                *route = made;
                return Some(index);
            }
        }
        None
    }

    /// Whether a host has a packet, no connection, and rests no longer.
    pub fn is_ready(&self, index: usize, now: u64) -> bool {
        match self.routes.get(index) {
            Some(route) => route.is_ready(now),
            None => false,
        }
    }

    /// What is dialled for a host, from now on until `done`, `lost` or `missed`. The packet is given up where there is
    /// no address.
    pub fn dial<R: Net>(&mut self, net: &R, index: usize, now: u64, media: Media) -> Option<Dial> {
        let alloc = self.alloc;
        let route = self.routes.get_mut(index)?;
        if route.addresses.is_empty() {
            route.look_up(net, now);
        }
        route.begin();
        let Some(address) = route.address() else {
            route.give_up(now);
            return None;
        };
        let text = match &route.posting {
            Some(posting) => text_of(alloc, posting, media),
            None => None,
        };
        match text {
            Some(text) => {
                route.is_busy = true;
                Some(Dial { address, text })
            }
            None => {
                route.done();
                None
            }
        }
    }

    /// The packet of a host was answered.
    pub fn done(&mut self, index: usize) {
        if let Some(route) = self.routes.get_mut(index) {
            route.done();
            route.rest = 0;
        }
    }

    /// The connection to a host broke off.
    pub fn lost(&mut self, index: usize) {
        if let Some(route) = self.routes.get_mut(index) {
            route.done();
        }
    }

    /// A host did not answer in time: it rests.
    pub fn tired(&mut self, index: usize, now: u64) {
        if let Some(route) = self.routes.get_mut(index) {
            route.give_up(now);
        }
    }

    /// A host was not reached. Its other addresses are tried, and then the packet is given up: whether it is.
    pub fn missed(&mut self, index: usize, now: u64) -> bool {
        let Some(route) = self.routes.get_mut(index) else {
            return false;
        };
        route.is_busy = false;
        route.tried = route.tried.saturating_add(1);
        route.next = route.next.saturating_add(1);
        if route.next >= route.addresses.len() {
            route.next = 0;
        }
        if route.tried < route.addresses.len() {
            return false;
        }
        route.give_up(now);
        true
    }
}

// The text of the request that posts a packet.
fn text_of(alloc: Global, posting: &Waiting, media: Media) -> Option<Vec<u8>> {
    let mut sink = MemSink::new(alloc, Numbers::new(alloc));
    if write_request_as(
        alloc,
        &mut sink,
        &posting.target,
        posting.bytes.as_slice(),
        media,
    )
    .is_err()
    {
        return None;
    }
    match Vec::from_slice(alloc, sink.as_slice()) {
        Ok(text) => Some(text),
        Err(_) => None,
    }
}
