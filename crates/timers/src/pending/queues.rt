//! Numbered queues of packets, each with a limit, over lists linked by index: the slot of a packet's item is its
//! place in the table of packets.
ghost use Rattle.std.specs.Prelude.{◌≡◌, ◌<◌, [], ◌∷◌, ◌++◌, length, drop, nat_lt, replicate, IfOk, IfNone};
ghost use Rattle.std.specs.Prelude.{◌-◌, slice_set, Some, None, slice_get, option_map, IfSome};
ghost use Rattle.timers.specs.Pending.Limits.{most_addresses, most_packets, most_waiting};
ghost use Rattle.timers.specs.Pending.Waiting.{first_in};
ghost use Rattle.timers.specs.Pending.Table.{Adds, Takes, queue_at};
ghost use Rattle.timers.specs.Links.Items.{list_at};

use crate::links::{Links, Steps};
use rm_base::Memory;
use std::alloc::Global;
use std::marker::{Brand, Model};
use std::sync::ledger::{Blank, Ledger};

/// How many queues there are.
pub(crate) const QUEUES: u32 = 256;

/// How many packets a queue has at most.
const LIMIT: u32 = 64;

/// How many packets all queues have at most.
const PLACES: u32 = QUEUES * LIMIT;

/// The packets of all queues.
#[derive(Drop)]
pub(crate) struct Queues<T> {
    links: Links,
    packets: Vec<Option<T>>,
}

impl<T> Model for Queues<T> {
    ghost use Rattle.std.specs.Prelude.{List};

    ghost Value = { List (List T) };

    ghost use Rattle.timers.specs.Pending.Table.{contents, IsKept};

    ghost view = { λ q. contents q.packets.items q.links.lists };

    ghost invariant = { λ q. IsKept q.packets.items q.links };
}

// So many places without a packet.
fn blank_places<T: Drop>(alloc: Global) -> Result<Vec<Option<T>>, Memory>
    ensures { IfOk result (λ places. places.items ≡ replicate most_packets None) }
{
    let mut places = Vec::with_capacity(alloc, PLACES as usize)?;
    for _ in 0..PLACES {
        places.push(None)?;
    }
    Ok(places)
}

impl<T: Drop> Queues<T> {
    /// Empty queues.
    pub(crate) fn new(alloc: Global) -> Result<Queues<T>, Memory>
        ensures { IfOk result (λ queues. queues ≡ replicate most_addresses []) }
    {
        let links = Links::with_slots(alloc, PLACES, QUEUES)?;
        links.spare();
        let packets = blank_places(alloc)?;
        Ok(Queues { links, packets })
    }

    /// Puts a packet last into a queue that isn't full.
    pub(crate) fn put(&mut self, queue: u32, packet: T)
        requires queue { queue < most_addresses }
        requires room { length (queue_at self.old queue) < most_waiting }
        ensures { self.new ≡ slice_set self.old queue (queue_at self.old queue ++ packet ∷ []) }
    {
        let slot = add::<Brand>(&mut self.links, queue, Blank::new(1));
        self.packets[slot as usize] = Some(packet);
    }

    /// Takes the first packet of a queue, and tells whether it has more.
    pub(crate) fn take(&mut self, queue: u32) -> Option<(T, bool)>
        requires queue { queue < most_addresses }
        ensures first { result ≡ first_in (queue_at self.old queue) }
        ensures taken { self.new ≡ slice_set self.old queue (drop 1 (queue_at self.old queue)) }
    {
        let more = self.has(queue, 1);
        match take_first::<Brand>(&mut self.links, queue, Blank::new(1)) {
            Some(slot) => with_more(self.packets[slot as usize].take(), more),
            None => None,
        }
    }
}

// A packet, and whether there are more.
fn with_more<T>(packet: Option<T>, more: bool) -> Option<(T, bool)>
    ensures { result ≡ option_map (λ p. (p, more)) packet }
{
    match packet {
        Some(packet) => Some((packet, more)),
        None => None,
    }
}

impl<T> Queues<T> {
    /// The first packet of a queue, and whether it has more.
    pub(crate) fn first(&self, queue: u32) -> Option<(&T, bool)>
        requires queue { queue < most_addresses }
        ensures some { IfSome result (λ r. first_in (queue_at self.now queue) ≡ Some (r.0.now, r.1)) }
        ensures none { IfNone result (first_in (queue_at self.now queue) ≡ None) }
    {
        let more = self.has(queue, 1);
        match nth::<Brand>(&self.links, queue, 0, Blank::new(1)) {
            Some(slot) => match self.packets[slot as usize].as_ref() {
                Some(packet) => Some((packet, more)),
                None => None,
            },
            None => None,
        }
    }

    // Whether a queue has more than so many packets.
    fn has(&self, queue: u32, count: u32) -> bool
        requires queue { queue < most_addresses }
        ensures { result ≡ nat_lt count (length (queue_at self.now queue)) }
    {
        nth::<Brand>(&self.links, queue, count, Blank::new(1)).is_some()
    }

    /// Whether a queue is full.
    pub(crate) fn is_full(&self, queue: u32) -> bool
        requires queue { queue < most_addresses }
        ensures { result ≡ nat_lt (most_waiting - 1) (length (queue_at self.now queue)) }
    {
        self.has(queue, LIMIT - 1)
    }
}

// Puts an item last into a list, and answers its slot.
fn add<L: Ledger>(links: &mut Links, list: u32, blank: Blank) -> u32
    requires name { blank.name ≡ L.name }
    requires parts { blank.parts ≡ L.parts }
    requires one { L.parts ≡ 1 }
    requires spare { 0 < links.old.spare }
    requires list { list < length links.old.lists }
    requires slots { links.old.slots ≡ most_packets }
    ensures { Adds links.old links.new list result }
{
    let mut steps: Steps<L> = Steps::new(blank);
    links.add(list, 0, 0, &mut steps)
}

// Takes the first item out of a list, and answers the slot that it had.
fn take_first<L: Ledger>(links: &mut Links, list: u32, blank: Blank) -> Option<u32>
    requires name { blank.name ≡ L.name }
    requires parts { blank.parts ≡ L.parts }
    requires one { L.parts ≡ 1 }
    requires list { list < length links.old.lists }
    ensures some { IfSome result (λ slot. Takes links.old links.new list slot) }
    ensures none { IfNone result ((links.new ≡ links.old) × (list_at links.old.lists list ≡ [])) }
{
    let mut steps: Steps<L> = Steps::new(blank);
    match links.take_first(list, &mut steps) {
        Some(item) => Some(item.slot),
        None => None,
    }
}

// The slot of the item at a place of a list, counted from 0.
fn nth<L: Ledger>(links: &Links, list: u32, k: u32, blank: Blank) -> Option<u32>
    requires name { blank.name ≡ L.name }
    requires parts { blank.parts ≡ L.parts }
    requires one { L.parts ≡ 1 }
    requires list { list < length links.now.lists }
    ensures { result ≡ option_map (λ item. item.slot) (slice_get (list_at links.now.lists list) k) }
{
    let mut steps: Steps<L> = Steps::new(blank);
    match links.nth(list, k, &mut steps) {
        Some(item) => Some(item.slot),
        None => None,
    }
}
