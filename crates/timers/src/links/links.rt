//! The lists and their calls.
ghost use Rattle.std.specs.Prelude.{◌≡◌, [], ◌∷◌, ◌++◌, ◌+◌, ◌<◌, ◌≤◌, length, drop, min, slice_get, replicate, IfOk};
ghost use Rattle.std.specs.Prelude.{IfSome, IfNone, OnSome, option_copied, None};
ghost use Rattle.timers.specs.Links.Items.{
  list_at,
  IsWhole,
  Stands,
  IsLive,
  TakesOut,
  PutsLast,
  TakesFirst,
  first_due,
  first_of,
  due_count,
};

use crate::links::nodes::{
    Node, alone, count_due, first_of_list, free_all, item_of, shift, step_on,
};
use crate::links::steps::Steps;
use rm_base::Memory;
use std::alloc::Global;
use std::marker::{Brand, Model};
use std::sync::ledger::{Blank, Ledger};

/// What stands in a list: its slot, its list, and a key and a due moment that only the caller gives meaning to.
#[derive(Clone, Copy, Debug, PartialEq, Eq)]
pub struct Item {
    pub slot: u32,
    pub list: u32,
    pub key: u64,
    pub due: u64,
}

/// Lists of items in one table of slots. After `with_slots` no call takes memory. The lists are circular, in one table:
/// the slots, and behind them a node for each list, which names its first and its last. The free slots are the last
/// list. So no case is needed for an empty list, and one move serves all calls.
#[derive(Debug, Drop)]
pub struct Links {
    nodes: Vec<Node>,
    slots: u32,
    lists: u32,
    spare: u32,
}

impl Model for Links {
    ghost use Rattle.timers.specs.Links.Items.{Contents};

    ghost Value = { Contents };

    ghost use Rattle.timers.specs.Links.Nodes.{contents, IsSound};

    ghost view = { λ s. contents s.nodes.items s.slots s.lists s.spare };

    ghost invariant = { λ s. IsSound s.nodes.items s.slots s.lists s.spare };
}

impl Links {
    /// So many empty lists over so many free slots. After it no call takes memory. A step of the calls is one read or
    /// write of a slot.
    pub fn with_slots(alloc: Global, slots: u32, lists: u32) -> Result<Links, Memory>
        ensures lists { IfOk result (λ links. links.lists ≡ replicate lists []) }
        ensures slots { IfOk result (λ links. links.slots ≡ slots) }
        ensures spare { IfOk result (λ links. links.spare ≡ slots) }
    {
        let mut nodes = alone(alloc, slots as usize + lists as usize + 1)?;
        free_all::<Brand>(&mut nodes, slots, lists, Blank::new(1));
        Ok(Links {
            nodes,
            slots,
            lists,
            spare: slots,
        })
    }

    /// How many slots have no item.
    pub fn spare(&self) -> u32
        ensures spare { result ≡ self.now.spare }
        ensures whole { IsWhole self.now }
    {
        let _nodes = &self.nodes;
        self.spare
    }

    /// Puts an item last into its list, and answers the slot that it has from now on, which was free.
    /// - `cost`: at most 6 steps, however many items there are.
    pub fn add<L: Ledger>(&mut self, list: u32, key: u64, due: u64, steps: &mut Steps<L>) -> u32
        requires spare { 0 < self.old.spare }
        requires list { list < length self.old.lists }
        ensures is_free { IsLive self.old.lists result → ⊥ }
        ensures put { PutsLast self.old.lists self.new.lists
            (record { slot = result; list = list; key = key; due = due }) }
        ensures spare { self.new.spare + 1 ≡ self.old.spare }
        ensures slots { self.new.slots ≡ self.old.slots }
        ensures whole { IsWhole self.new }
        ensures cost { steps.new ≤ steps.old + 6 }
    {
        let slots = self.slots as usize;
        let at = first_of_list(&self.nodes, slots + self.lists as usize);
        let slot = at as u32;
        let item = Item {
            slot,
            list,
            key,
            due,
        };
        self.spare -= 1;
        shift(
            &mut self.nodes,
            slots,
            slots + list as usize,
            at,
            item,
            steps,
        );
        slot
    }

    /// Takes the item of a slot out of its list. The slot is free again.
    /// - `cost`: at most 6 steps, however many items there are.
    pub fn remove<L: Ledger>(&mut self, slot: u32, steps: &mut Steps<L>) -> Item
        requires { IsLive self.old.lists slot }
        ensures taken { TakesOut self.old.lists self.new.lists slot result }
        ensures gone { IsLive self.new.lists slot → ⊥ }
        ensures spare { self.new.spare ≡ self.old.spare + 1 }
        ensures slots { self.new.slots ≡ self.old.slots }
        ensures whole { IsWhole self.new }
        ensures cost { steps.new ≤ steps.old + 6 }
    {
        let slots = self.slots as usize;
        let free = Item {
            slot,
            list: self.lists,
            key: 0,
            due: 0,
        };
        self.spare += 1;
        shift(
            &mut self.nodes,
            slots,
            slots + self.lists as usize,
            slot as usize,
            free,
            steps,
        )
    }

    /// Takes the first item of a list.
    /// - `cost`: at most 6 steps, however many items there are.
    pub fn take_first<L: Ledger>(&mut self, list: u32, steps: &mut Steps<L>) -> Option<Item>
        requires { list < length self.old.lists }
        ensures first { result ≡ first_of (list_at self.old.lists list) }
        ensures list { IfSome result (λ item. item.list ≡ list) }
        ensures stands { IfSome result (λ item. Stands self.old.lists [] item (drop 1 (list_at self.old.lists list))) }
        ensures taken { OnSome result (TakesFirst self.old.lists self.new.lists list) }
        ensures gone { IfSome result (λ item. IsLive self.new.lists item.slot → ⊥) }
        ensures spare { OnSome result (self.new.spare ≡ self.old.spare + 1) }
        ensures slots { self.new.slots ≡ self.old.slots }
        ensures whole { IsWhole self.new }
        ensures none { IfNone result (self.new ≡ self.old) }
        ensures cost { steps.new ≤ steps.old + 6 }
    {
        let at = first_of_list(&self.nodes, self.slots as usize + list as usize);
        if at >= self.slots as usize {
            return None;
        }
        Some(self.remove(at as u32, steps))
    }

    // The lowest list whose first item is due.
    fn due_list<L: Ledger>(&self, now: u64, steps: &mut Steps<L>) -> Option<u32>
        ensures within { IfSome result (λ list. list < length self.now.lists) }
        ensures first { IfSome result (λ list. first_due now self.now.lists ≡ first_of (list_at self.now.lists list)) }
        ensures none { IfNone result (first_due now self.now.lists ≡ None) }
        ensures whole { IsWhole self.now }
        ensures cost { steps.new ≤ steps.old + length self.now.lists }
    {
        let slots = self.slots as usize;
        for list in 0..self.lists {
            let at = first_of_list(&self.nodes, slots + list as usize);
            if at < slots {
                if item_of(&self.nodes, slots, at, steps).due <= now {
                    return Some(list);
                }
            }
        }
        None
    }

    /// Takes the first item of the lowest list whose first item is due.
    /// - `cost`: at most the number of lists and 6 steps.
    pub fn take_due<L: Ledger>(&mut self, now: u64, steps: &mut Steps<L>) -> Option<Item>
        ensures first { result ≡ first_due now self.old.lists }
        ensures stands { IfSome result (λ item. Stands self.old.lists [] item
            (drop 1 (list_at self.old.lists item.list))) }
        ensures taken { IfSome result (λ item. TakesFirst self.old.lists self.new.lists item.list) }
        ensures gone { IfSome result (λ item. IsLive self.new.lists item.slot → ⊥) }
        ensures spare { OnSome result (self.new.spare ≡ self.old.spare + 1) }
        ensures slots { self.new.slots ≡ self.old.slots }
        ensures whole { IsWhole self.new }
        ensures none { IfNone result (self.new ≡ self.old) }
        ensures cost { steps.new ≤ steps.old + length self.old.lists + 6 }
    {
        match self.due_list(now, steps) {
            Some(list) => self.take_first(list, steps),
            None => None,
        }
    }

    /// The item at a place of a list, counted from 0. It walks there.
    /// - `cost`: at most k + 1 steps for the place k.
    pub fn nth<L: Ledger>(&self, list: u32, k: u32, steps: &mut Steps<L>) -> Option<&Item>
        requires { list < length self.now.lists }
        ensures item { option_copied result ≡ slice_get (list_at self.now.lists list) k }
        ensures cost { steps.new ≤ steps.old + k + 1 }
    {
        let slots = self.slots as usize;
        let first = first_of_list(&self.nodes, slots + list as usize);
        let at = step_on(&self.nodes, slots, first, k, steps);
        if at >= slots {
            return None;
        }
        Some(item_of(&self.nodes, slots, at, steps))
    }

    /// How many items at the front of a list are due, up to the first that isn't, and at most the limit.
    /// It walks there.
    /// - `cost`: at most as many steps as the limit.
    pub fn due_front<L: Ledger>(&self, list: u32, now: u64, limit: u32, steps: &mut Steps<L>) -> u32
        requires { list < length self.now.lists }
        ensures count { result ≡ min limit (due_count now (list_at self.now.lists list)) }
        ensures cost { steps.new ≤ steps.old + limit }
    {
        let slots = self.slots as usize;
        let first = first_of_list(&self.nodes, slots + list as usize);
        count_due(&self.nodes, slots, first, now, limit, steps)
    }
}
