//! Queues of packets by address. The first numbers in an order of all numbers are those of the addresses' queues.
ghost use Rattle.std.specs.Prelude.{◌≡◌, ◌∷◌, ◌++◌, ◌<◌, ◌≤◌, [], true, length, IfOk, IfSome, IfNone, Some, None};
ghost use Rattle.std.specs.Prelude.{vec_capacity};
ghost use Rattle.std.specs.List.{AllByRecursion};
ghost use Rattle.timers.specs.Pending.Limits.{most_addresses};
ghost use Rattle.timers.specs.Pending.Waiting.{
  first_in,
  may_wait as may_wait_in,
  packets_for,
  with_packet,
  without_first,
};
ghost use Rattle.timers.specs.Pending.Names.{
  kept_addresses,
  kept_order,
  more_of,
  moved_last,
  number_at,
  numbers,
  opened,
  place_in,
};

use crate::pending::queues::{QUEUES, Queues};
use rm_base::{Memory, Uri};
use std::alloc::Global;
use std::marker::Model;

/// Queues of packets, each with its address.
#[derive(Drop)]
pub(crate) struct NamedQueues<T> {
    queues: Queues<T>,
    addresses: Vec<Uri>,
    order: Vec<u32>,
}

impl<T> Model for NamedQueues<T> {
    ghost use Rattle.std.specs.Prelude.{List, vec_capacity};
    ghost use Rattle.timers.specs.Pending.Waiting.{Queue};

    ghost Value = { List (Queue T) };

    ghost use Rattle.timers.specs.Pending.Names.{named, IsNamed};

    ghost view = { λ n. named n.addresses.items n.order.items n.queues };

    ghost invariant = { λ n. IsNamed n.addresses.items n.order.items n.queues (vec_capacity n.addresses)
        (vec_capacity n.order) };
}

/// The place of an address, or behind all.
pub(crate) fn place_of(addresses: &Vec<Uri>, address: &Uri) -> usize
    ensures { result ≡ place_in addresses.now.items address.now }
{
    let bytes = address.as_slice();
    for k in 0..addresses.len() {
        if addresses[k].as_slice() == bytes {
            return k;
        }
    }
    addresses.len()
}

// The numbers of all queues.
fn all_numbers(alloc: Global) -> Result<Vec<u32>, Memory>
    ensures numbers { IfOk result (λ order. order.items ≡ numbers most_addresses) }
    ensures room { IfOk result (λ order. most_addresses ≤ vec_capacity order) }
{
    let mut order = Vec::with_capacity(alloc, QUEUES as usize)?;
    for number in 0..QUEUES {
        order.push(number)?;
    }
    Ok(order)
}

// Puts an address behind the others, for which there is room.
fn push_address(addresses: &mut Vec<Uri>, address: Uri)
    requires { length addresses.old.items < vec_capacity addresses.old }
    ensures items { addresses.new.items ≡ addresses.old.items ++ address ∷ [] }
    ensures room { vec_capacity addresses.old ≤ vec_capacity addresses.new }
{
    match addresses.push(address) {
        Ok(()) => {}
        Err(_) => unreachable!(),
    }
}

// The place of an address, which is put behind the others where it isn't among them.
fn open_place(addresses: &mut Vec<Uri>, address: Uri) -> usize
    requires under { place_in addresses.old.items address < most_addresses }
    requires room { most_addresses ≤ vec_capacity addresses.old }
    ensures place { result ≡ place_in addresses.old.items address }
    ensures items { addresses.new.items ≡ opened addresses.old.items address }
    ensures room { most_addresses ≤ vec_capacity addresses.new }
{
    let at = place_of(addresses, &address);
    if at >= addresses.len() {
        push_address(addresses, address);
    }
    at
}

// The number at a place.
fn number_of(order: &Vec<u32>, at: usize) -> u32
    requires at { at < length order.now.items }
    requires low { AllByRecursion (λ l. l < most_addresses) order.now.items }
    ensures number { result ≡ number_at order.now.items at }
    ensures low { result < most_addresses }
{
    order[at]
}

// Moves the number at a place behind all.
fn move_last(order: &mut Vec<u32>, at: usize)
    requires { at < length order.old.items }
    ensures items { order.new.items ≡ moved_last order.old.items at }
    ensures room { vec_capacity order.old ≤ vec_capacity order.new }
{
    let number = order.remove(at);
    match order.push(number) {
        Ok(()) => {}
        Err(_) => unreachable!(),
    }
}

// Where a queue is empty, its address is left out, and its number goes behind all.
fn close_place(addresses: &mut Vec<Uri>, order: &mut Vec<u32>, at: usize, more: bool)
    requires place { at < length addresses.old.items }
    requires number { at < length order.old.items }
    ensures addresses { addresses.new.items ≡ kept_addresses addresses.old.items at more }
    ensures order { order.new.items ≡ kept_order order.old.items at more }
    ensures room { vec_capacity addresses.old ≤ vec_capacity addresses.new }
    ensures places { vec_capacity order.old ≤ vec_capacity order.new }
{
    if more {
        return;
    }
    addresses.remove(at);
    move_last(order, at);
}

impl<T: Drop> NamedQueues<T> {
    /// No packet waits.
    pub(crate) fn new(alloc: Global) -> Result<NamedQueues<T>, Memory>
        ensures { IfOk result (λ named. named ≡ []) }
    {
        Ok(NamedQueues {
            queues: Queues::new(alloc)?,
            addresses: Vec::with_capacity(alloc, QUEUES as usize)?,
            order: all_numbers(alloc)?,
        })
    }

    /// Puts a packet last into the queue of an address, where it may wait.
    pub(crate) fn put(&mut self, address: Uri, packet: T)
        requires { may_wait_in self.old address ≡ true }
        ensures { self.new ≡ with_packet self.old address packet }
    {
        let at = open_place(&mut self.addresses, address);
        self.queues.put(number_of(&self.order, at), packet);
    }

    /// Takes the first packet of an address.
    pub(crate) fn poll(&mut self, address: &Uri) -> Option<(T, bool)>
        ensures first { result ≡ first_in (packets_for self.old address.now) }
        ensures taken { self.new ≡ without_first self.old address.now }
    {
        let at = place_of(&self.addresses, address);
        if at >= self.addresses.len() {
            return None;
        }
        let taken = self.queues.take(number_of(&self.order, at));
        let more = has_more(&taken);
        close_place(&mut self.addresses, &mut self.order, at, more);
        taken
    }
}

// Whether a queue has more packets than the one that was taken.
fn has_more<T>(taken: &Option<(T, bool)>) -> bool
    ensures { result ≡ more_of taken.now }
{
    match taken {
        Some((_, more)) => *more,
        None => false,
    }
}

impl<T> NamedQueues<T> {
    /// The first packet of an address, and whether there are more.
    pub(crate) fn first(&self, address: &Uri) -> Option<(&T, bool)>
        ensures some { IfSome result (λ r. first_in (packets_for self.now address.now) ≡ Some (r.0.now, r.1)) }
        ensures none { IfNone result (first_in (packets_for self.now address.now) ≡ None) }
    {
        let at = place_of(&self.addresses, address);
        if at >= self.addresses.len() {
            return None;
        }
        self.queues.first(number_of(&self.order, at))
    }

    /// Whether a packet for an address may wait.
    pub(crate) fn may_wait(&self, address: &Uri) -> bool
        ensures { result ≡ may_wait_in self.now address.now }
    {
        let at = place_of(&self.addresses, address);
        if at >= self.addresses.len() {
            return at < QUEUES as usize;
        }
        !self.queues.is_full(number_of(&self.order, at))
    }
}
