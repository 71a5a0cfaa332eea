//! The table of nodes: the slots, and behind them the ends of each list, the last of which has the free slots.
//! So each slot is always in one list and has two neighbours, and the one move is out of a list and last into another.
ghost use Rattle.std.specs.Prelude.{◌≡◌, ◌+◌, ◌<◌, ◌≤◌, ◌-◌, length, IfOk};
ghost use Rattle.timers.specs.Links.Nodes.{
  node_at,
  next_of,
  prev_of,
  with_next,
  with_prev,
  with_node,
  unlinked,
  linked,
  moved,
  CanMove,
  stepped,
  due_along,
  IsAlone,
  IsBuilt,
};

use crate::links::links::Item;
use crate::links::steps::Steps;
use rm_base::Memory;
use std::alloc::Global;
use std::sync::ledger::{Blank, Ledger};

/// A slot, or behind the slots the two ends of a list: its first slot is next, and its last is previous.
#[derive(Clone, Copy, Debug)]
pub(crate) struct Node {
    pub(crate) prev: usize,
    pub(crate) next: usize,
    pub(crate) item: Item,
}

// The place of a node that is now read or written, which counts a step where the node is a slot: the ends of a list are
// no slots. `read`, `set_next`, `set_prev`, `write` and `item_of` go by it, and no other function reaches a slot.
fn reach<L: Ledger>(slots: usize, at: usize, steps: &mut Steps<L>) -> usize
    ensures at { result ≡ at }
    ensures cost { steps.new ≤ steps.old + 1 }
    ensures counted { at < slots → steps.new ≡ steps.old + 1 }
    ensures free { slots ≤ at → steps.new ≡ steps.old }
{
    if at < slots {
        steps.tick();
    }
    at
}

pub(crate) fn read<L: Ledger>(nodes: &[Node], slots: usize, at: usize, steps: &mut Steps<L>) -> Node
    requires { at < length nodes.now }
    ensures node { result ≡ node_at nodes.now at }
    ensures cost { steps.new ≤ steps.old + 1 }
    ensures counted { at < slots → steps.new ≡ steps.old + 1 }
    ensures free { slots ≤ at → steps.new ≡ steps.old }
{
    nodes[reach(slots, at, steps)]
}

fn set_next<L: Ledger>(nodes: &mut [Node], slots: usize, at: usize, to: usize, steps: &mut Steps<L>)
    requires { at < length nodes.old }
    ensures nodes { nodes.new ≡ with_next nodes.old at to }
    ensures cost { steps.new ≤ steps.old + 1 }
    ensures counted { at < slots → steps.new ≡ steps.old + 1 }
    ensures free { slots ≤ at → steps.new ≡ steps.old }
{
    nodes[reach(slots, at, steps)].next = to;
}

fn set_prev<L: Ledger>(nodes: &mut [Node], slots: usize, at: usize, to: usize, steps: &mut Steps<L>)
    requires { at < length nodes.old }
    ensures nodes { nodes.new ≡ with_prev nodes.old at to }
    ensures cost { steps.new ≤ steps.old + 1 }
    ensures counted { at < slots → steps.new ≡ steps.old + 1 }
    ensures free { slots ≤ at → steps.new ≡ steps.old }
{
    nodes[reach(slots, at, steps)].prev = to;
}

fn write<L: Ledger>(nodes: &mut [Node], slots: usize, at: usize, node: Node, steps: &mut Steps<L>)
    requires { at < length nodes.old }
    ensures nodes { nodes.new ≡ with_node nodes.old at node }
    ensures cost { steps.new ≤ steps.old + 1 }
    ensures counted { at < slots → steps.new ≡ steps.old + 1 }
    ensures free { slots ≤ at → steps.new ≡ steps.old }
{
    nodes[reach(slots, at, steps)] = node;
}

/// Takes the slot out of its list: its neighbours name one another.
fn unlink<L: Ledger>(nodes: &mut [Node], slots: usize, at: usize, steps: &mut Steps<L>) -> Item
    requires at { at < length nodes.old }
    requires prev { prev_of nodes.old at < length nodes.old }
    requires next { next_of nodes.old at < length nodes.old }
    ensures item { result ≡ (node_at nodes.old at).item }
    ensures nodes { nodes.new ≡ unlinked nodes.old at }
    ensures cost { steps.new ≤ steps.old + 3 }
{
    let node = read(nodes, slots, at, steps);
    set_next(nodes, slots, node.prev, node.next, steps);
    set_prev(nodes, slots, node.next, node.prev, steps);
    node.item
}

/// Puts the slot, which is in no list, last into the list that has its ends at `end`.
fn link<L: Ledger>(
    nodes: &mut [Node],
    slots: usize,
    end: usize,
    at: usize,
    item: Item,
    steps: &mut Steps<L>,
)
    requires behind { slots ≤ end }
    requires end { end < length nodes.old }
    requires at { at < length nodes.old }
    requires last { prev_of nodes.old end < length nodes.old }
    ensures nodes { nodes.new ≡ linked nodes.old end at item }
    ensures cost { steps.new ≤ steps.old + 2 }
{
    let last = read(nodes, slots, end, steps).prev;
    set_next(nodes, slots, last, at, steps);
    set_prev(nodes, slots, end, at, steps);
    let node = Node {
        prev: last,
        next: end,
        item,
    };
    write(nodes, slots, at, node, steps);
}

/// Takes the slot out of its list, puts it last into the one that has its ends at `end`, and answers its old item.
fn relink<L: Ledger>(
    nodes: &mut [Node],
    slots: usize,
    end: usize,
    at: usize,
    item: Item,
    steps: &mut Steps<L>,
) -> Item
    requires { CanMove nodes.old slots end at }
    ensures item { result ≡ (node_at nodes.old at).item }
    ensures nodes { nodes.new ≡ moved nodes.old end at item }
    ensures cost { steps.new ≤ steps.old + 5 }
{
    let old = unlink(nodes, slots, at, steps);
    link(nodes, slots, end, at, item, steps);
    old
}

/// The same in a vector.
pub(crate) fn shift<L: Ledger>(
    nodes: &mut Vec<Node>,
    slots: usize,
    end: usize,
    at: usize,
    item: Item,
    steps: &mut Steps<L>,
) -> Item
    requires { CanMove nodes.old.items slots end at }
    ensures item { result ≡ (node_at nodes.old.items at).item }
    ensures nodes { nodes.new.items ≡ moved nodes.old.items end at item }
    ensures cost { steps.new ≤ steps.old + 5 }
{
    relink(nodes.as_mut_slice(), slots, end, at, item, steps)
}

/// The first slot of the list that has its ends at `end`, and `end` where it is empty. It reads no slot.
pub(crate) fn first_of_list(nodes: &Vec<Node>, end: usize) -> usize
    requires { end < length nodes.now.items }
    ensures { result ≡ next_of nodes.now.items end }
{
    nodes[end].next
}

/// The slot `k` places on from `at`, or what is behind the last.
pub(crate) fn step_on<L: Ledger>(
    nodes: &Vec<Node>,
    slots: usize,
    at: usize,
    k: u32,
    steps: &mut Steps<L>,
) -> usize
    requires { slots ≤ length nodes.now.items }
    ensures place { result ≡ stepped nodes.now.items slots k at }
    ensures cost { steps.new ≤ steps.old + k }
{
    let mut here = at;
    for _ in 0..k {
        if here >= slots {
            return here;
        }
        here = read(nodes, slots, here, steps).next;
    }
    here
}

/// How many slots from `at` on are due, up to the first that isn't, and at most the limit.
pub(crate) fn count_due<L: Ledger>(
    nodes: &Vec<Node>,
    slots: usize,
    at: usize,
    now: u64,
    limit: u32,
    steps: &mut Steps<L>,
) -> u32
    requires { slots ≤ length nodes.now.items }
    ensures count { result ≡ due_along nodes.now.items slots now limit at }
    ensures cost { steps.new ≤ steps.old + limit }
{
    let mut here = at;
    for count in 0..limit {
        if here >= slots {
            return count;
        }
        let node = read(nodes, slots, here, steps);
        if node.item.due > now {
            return count;
        }
        here = node.next;
    }
    limit
}

/// The item of a slot.
pub(crate) fn item_of<'a, L: Ledger>(
    nodes: &'a Vec<Node>,
    slots: usize,
    at: usize,
    steps: &mut Steps<L>,
) -> &'a Item
    requires { at < length nodes.now.items }
    ensures item { result.now ≡ (node_at nodes.now.items at).item }
    ensures cost { steps.new ≤ steps.old + 1 }
    ensures counted { at < slots → steps.new ≡ steps.old + 1 }
{
    &nodes[reach(slots, at, steps)].item
}

/// So many nodes, each of which names itself.
pub(crate) fn alone(alloc: Global, count: usize) -> Result<Vec<Node>, Memory>
    ensures count { IfOk result (λ nodes. length nodes.items ≡ count) }
    ensures alone { IfOk result (λ nodes. (i : _) → i < count → IsAlone nodes.items i) }
{
    let mut nodes = Vec::with_capacity(alloc, count)?;
    for i in 0..count {
        let item = Item {
            slot: 0,
            list: 0,
            key: 0,
            due: 0,
        };
        nodes.push(Node {
            prev: i,
            next: i,
            item,
        })?;
    }
    Ok(nodes)
}

// Puts a slot that is in no list last into a list, in a vector.
fn put_free<L: Ledger>(
    nodes: &mut Vec<Node>,
    slots: usize,
    end: usize,
    at: usize,
    item: Item,
    steps: &mut Steps<L>,
)
    requires behind { slots ≤ end }
    requires end { end < length nodes.old.items }
    requires at { at < length nodes.old.items }
    requires last { prev_of nodes.old.items end < length nodes.old.items }
    ensures { nodes.new.items ≡ linked nodes.old.items end at item }
{
    link(nodes.as_mut_slice(), slots, end, at, item, steps)
}

/// Puts each slot into the last list.
pub(crate) fn free_all<L: Ledger>(nodes: &mut Vec<Node>, slots: u32, lists: u32, blank: Blank)
    requires name { blank.name ≡ L.name }
    requires parts { blank.parts ≡ L.parts }
    requires one { L.parts ≡ 1 }
    requires count { length nodes.old.items ≡ slots + lists + 1 }
    requires alone { (i : _) → i < slots + lists + 1 → IsAlone nodes.old.items i }
    ensures { IsBuilt nodes.new.items slots lists slots }
{
    let mut steps: Steps<L> = Steps::new(blank);
    let end = slots as usize + lists as usize;
    for slot in 0..slots {
        let item = Item {
            slot,
            list: lists,
            key: 0,
            due: 0,
        };
        put_free(nodes, slots as usize, end, slot as usize, item, &mut steps);
    }
}
