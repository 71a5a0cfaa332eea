//! The packets that wait for addresses.
ghost use Rattle.std.specs.Prelude.{◌≡◌, ◌++◌, ◌∷◌, [], true, false, IfOk, OnOk, OnErr, IsOk, IfSome, IfNone};
ghost use Rattle.std.specs.Prelude.{Some, None, is_some, if◌then◌else◌};
ghost use Rattle.timers.specs.Pending.Waiting.{
  is_ready,
  may_wait,
  nothing_waits,
  oldest,
  polled,
  put as put_of,
  used,
  with_packet,
};
ghost use Rattle.rm_base.specs.Count.{raised_by};
ghost use Rattle.timers.specs.Pending.Seen.{queues_in};

use crate::pending::named::{NamedQueues, place_of};
use rm_base::{Memory, Uri};
use std::alloc::Global;
use std::marker::Model;

/// Packets that wait for addresses until they are polled: at most 64 for one, and for at most 256. The lists and their
/// slots are made when they are first needed, so that a put takes memory for the copy of an address alone. An address
/// that was polled to its end leaves its place to another one.
#[derive(Drop)]
pub struct Pending<T> {
    alloc: Global,
    queues: Option<NamedQueues<T>>,
    dropped: u64,
    ready: Vec<Uri>,
}

impl<T> Model for Pending<T> {
    ghost use Rattle.timers.specs.Pending.Waiting.{Pended};

    ghost Value = { Pended T };

    ghost use Rattle.timers.specs.Pending.Seen.{queues_in};

    ghost view = { λ p. record {
      waits = record { queues = queues_in p.queues; dropped = p.dropped };
      ready = p.ready.items;
    } };

    ghost use Rattle.timers.specs.Pending.Seen.{IsMade};

    ghost invariant = { λ p. IsMade p.queues p.ready.items };
}

// Takes an address off the list, where it is there.
fn take_ready(ready: &mut Vec<Uri>, address: &Uri) -> Option<Uri>
    ensures some { IfSome result (λ a. a ≡ address.now) }
    ensures none { IfNone result (is_ready ready.old.items address.now ≡ false) }
    ensures left { ready.new.items ≡ used ready.old.items address.now }
    ensures same { IfNone result (ready.new.items ≡ ready.old.items) }
{
    let at = place_of(ready, address);
    if at >= ready.len() {
        return None;
    }
    Some(ready.remove(at))
}

// The queues are made where they aren't there yet.
fn open<T: Drop>(queues: &mut Option<NamedQueues<T>>, alloc: Global) -> Result<(), Memory>
    ensures same { queues_in queues.new ≡ queues_in queues.old }
    ensures made { OnOk result (is_some queues.new ≡ true) }
    ensures err { OnErr result (queues.new ≡ queues.old) }
    ensures ready { is_some queues.old ≡ true → IsOk result }
{
    if queues.is_none() {
        *queues = Some(NamedQueues::new(alloc)?);
    }
    Ok(())
}

// An address of our own to put a packet for: the one for which room was made, or a copy.
fn own_address(ready: &mut Vec<Uri>, address: &Uri) -> Result<Uri, Memory>
    ensures is { IfOk result (λ a. a ≡ address.now) }
    ensures ok { OnOk result (ready.new.items ≡ used ready.old.items address.now) }
    ensures err { OnErr result (ready.new.items ≡ ready.old.items) }
    ensures ready { is_ready ready.old.items address.now ≡ true → IsOk result }
{
    if let Some(address) = take_ready(ready, address) {
        return Ok(address);
    }
    address.copy()
}

// Puts a packet where it may wait, and tells whether it does.
fn place<T: Drop>(queues: &mut Option<NamedQueues<T>>, address: Uri, packet: T) -> bool
    requires { is_some queues.old ≡ true }
    ensures put { result ≡ may_wait (queues_in queues.old) address }
    ensures queues { queues_in queues.new ≡ (if may_wait (queues_in queues.old) address
        then with_packet (queues_in queues.old) address packet else queues_in queues.old) }
    ensures made { is_some queues.new ≡ true }
{
    match queues {
        Some(queues) => {
            if !queues.may_wait(&address) {
                return false;
            }
            queues.put(address, packet);
            true
        }
        None => unreachable!(),
    }
}

// The count of what was dropped.
fn counted(dropped: u64, put: bool) -> u64
    ensures { result ≡ (if put then dropped else raised_by dropped 1) }
{
    if put {
        dropped
    } else {
        dropped.saturating_add(1)
    }
}

impl<T: Drop> Pending<T> {
    /// No packet waits. It takes no memory.
    pub fn new(alloc: Global) -> Pending<T>
        ensures { result ≡ record { waits = nothing_waits; ready = [] } }
    {
        Pending {
            alloc,
            queues: None,
            dropped: 0,
            ready: Vec::new(alloc),
        }
    }

    /// Makes room for a packet for an address.
    pub fn reserve(&mut self, address: &Uri) -> Result<(), Memory>
        ensures waits { self.new.waits ≡ self.old.waits }
        ensures ok { OnOk result (self.new.ready ≡ self.old.ready ++ address.now ∷ []) }
        ensures err { OnErr result (self.new ≡ self.old) }
    {
        open(&mut self.queues, self.alloc)?;
        self.ready.push(address.copy()?)?;
        Ok(())
    }

    /// Puts a packet last into the queue of its address. It is dropped, and counted, where 64 wait for the address, or
    /// where none does and 256 other addresses have one. It takes no memory where room was made.
    pub fn put(&mut self, address: &Uri, packet: T) -> Result<bool, Memory>
        ensures waits { OnOk result (self.new.waits ≡ put_of self.old.waits address.now packet) }
        ensures put { IfOk result (λ put. put ≡ may_wait self.old.waits.queues address.now) }
        ensures used { OnOk result (self.new.ready ≡ used self.old.ready address.now) }
        ensures err { OnErr result (self.new ≡ self.old) }
        ensures ready { is_ready self.old.ready address.now ≡ true → IsOk result }
    {
        open(&mut self.queues, self.alloc)?;
        let address = own_address(&mut self.ready, address)?;
        let put = place(&mut self.queues, address, packet);
        self.dropped = counted(self.dropped, put);
        Ok(put)
    }

    /// Takes the oldest packet that waits for an address, with whether more do. It takes no memory.
    pub fn poll(&mut self, address: &Uri) -> Option<(T, bool)>
        ensures first { result ≡ oldest self.old.waits address.now }
        ensures taken { self.new ≡ record self.old { waits = polled self.old.waits address.now } }
    {
        match &mut self.queues {
            Some(queues) => queues.poll(address),
            None => None,
        }
    }

    /// Room that was made and not used is given up. It takes no memory.
    pub fn forget(&mut self)
        ensures { self.new ≡ record self.old { ready = [] } }
    {
        self.ready.clear();
    }

    /// How many packets were dropped. The count stands still at the greatest u64.
    pub fn dropped(&self) -> u64
        ensures { result ≡ self.now.waits.dropped }
    {
        self.dropped
    }
}

impl<T> Pending<T> {
    /// What `poll` would give. It takes no memory.
    pub fn first(&self, address: &Uri) -> Option<(&T, bool)>
        ensures some { IfSome result (λ r. oldest self.now.waits address.now ≡ Some (r.0.now, r.1)) }
        ensures none { IfNone result (oldest self.now.waits address.now ≡ None) }
    {
        match &self.queues {
            Some(queues) => queues.first(address),
            None => None,
        }
    }
}
