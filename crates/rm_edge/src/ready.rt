//! What is whole and waits for the desk.

use rm_base::Blob;
use std::alloc::Global;
use std::collections::VecDeque;

/// A request of so many bytes, on the connection with a number in a place.
#[derive(Clone, Copy, Debug, PartialEq, Eq)]
pub struct Whole {
    pub place: usize,
    pub serial: u64,
    pub len: usize,
}

/// What waits: a call of an application, a peer's request, or the body of a response.
#[derive(Drop)]
pub enum Thing {
    Call(Whole),
    Ask(Whole),
    Heard(Blob),
}

/// What waits, in order; what an application calls for, and all else, take turns.
#[derive(Drop)]
pub struct Ready {
    calls: VecDeque<Thing>,
    others: VecDeque<Thing>,
    is_call: bool,
    bytes: usize,
}

impl Ready {
    /// Nothing waits.
    pub fn new(alloc: Global) -> Ready {
        Ready {
            calls: VecDeque::new(alloc),
            others: VecDeque::new(alloc),
            is_call: true,
            bytes: 0,
        }
    }

    /// Whether nothing waits.
    pub fn is_empty(&self) -> bool {
        self.calls.is_empty() && self.others.is_empty()
    }

    /// How many bytes of responses wait.
    pub fn bytes(&self) -> usize {
        self.bytes
    }

    /// One thing more waits, where there is memory for it.
    pub fn push(&mut self, thing: Thing) -> bool {
        let (is_call, bytes) = match &thing {
            Thing::Call(_) => (true, 0),
            Thing::Ask(_) => (false, 0),
            Thing::Heard(body) => (false, body.len()),
        };
        let outcome = if is_call {
            self.calls.push_back(thing)
        } else {
            self.others.push_back(thing)
        };
        match outcome {
            Ok(()) => {
                self.bytes = self.bytes.saturating_add(bytes);
                true
            }
            Err(_) => false,
        }
    }

    /// What is next.
    pub fn pop(&mut self) -> Option<Thing> {
        let first = if self.is_call {
            self.calls.pop_front()
        } else {
            self.others.pop_front()
        };
        let thing = match first {
            Some(thing) => thing,
            None => {
                if self.is_call {
                    self.others.pop_front()?
                } else {
                    self.calls.pop_front()?
                }
            }
        };
        self.is_call = !matches!(&thing, Thing::Call(_));
        if let Thing::Heard(body) = &thing {
            self.bytes = self.bytes.saturating_sub(body.len());
        }
        Some(thing)
    }
}
