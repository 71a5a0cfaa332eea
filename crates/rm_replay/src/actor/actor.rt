//! A node of a script, and what comes of its calls.
ghost use Rattle.std.specs.Prelude.{◌≡◌, if◌then◌else◌, length};
ghost use Rattle.rm_node.specs.Noded.{granting};
ghost use Rattle.rm_replay.specs.Actor.Steps.{clock_after};

use node_tables::Tables;
use rm_base::{Behaviour, Blob};
use rm_node::{Call, Node, Outs};
use rm_script::report::Outcome;
use std::alloc::Global;
use std::marker::Model;

/// A node of a script, with its clock in milliseconds since 1970. The disk is passed to each call, and is always the
/// same.
pub struct Actor {
    pub(crate) alloc: Global,
    pub(crate) node: Node,
    pub(crate) clock: u64,
}

impl Drop for Actor {
    fn drop(self) {
        let Actor {
            alloc: _,
            node: _,
            clock: _,
        } = self;
    }
}

/// How a call came out, and what left the node: the text of the reply on the connection, and then the other packets.
#[derive(Debug, Drop)]
pub struct Came {
    pub outcome: Outcome,
    pub reply: Option<Blob>,
    pub outs: Outs,
}

impl Model for Actor {
    ghost use Rattle.std.specs.Coded.{codes};
    ghost use Rattle.soap_document.specs.Profile.TreeCode.{tree_code};
    ghost use Rattle.rm_replay.specs.Actor.Actored.{Actored};

    ghost Value = { Actored };

    ghost coded = { Prim.hlevel (codes, tree_code) };

    ghost view = { λ a. record { node = a.node; clock = a.clock } };
}

impl Actor {
    /// A node, whose clock is 0.
    pub fn new(alloc: Global, node: Node) -> Self
        ensures { result ≡ record { node = node; clock = 0 } }
    {
        Actor {
            alloc,
            node,
            clock: 0,
        }
    }

    /// From now on the node announces this for the sequences that it grants, also after crashes.
    pub fn set_grant(&mut self, behaviour: Behaviour)
        ensures { self.new ≡ record self.old { node = granting self.old.node behaviour } }
    {
        self.node.set_grant(behaviour);
    }

    /// How many entries the journal has.
    pub fn entries(&self) -> u64
        ensures { result ≡ length self.now.node.stored.journal.gates }
    {
        self.node.entries()
    }

    /// Whether the node is down.
    pub fn is_down(&self) -> bool
        ensures { result ≡ self.now.node.stored.journal.is_down }
    {
        self.node.is_down()
    }

    /// The tables of all records.
    pub fn tables(&self) -> &Tables
        ensures { result.now.records ≡ self.now.node.stored.records }
    {
        self.node.tables()
    }

    /// What the node's clock tells, in milliseconds since 1970.
    pub fn clock(&self) -> u64
        ensures { result ≡ self.now.clock }
    {
        self.clock
    }

    /// What the clock tells after a call: a tick sets it, unless the node is down.
    pub(crate) fn clock_after(&self, call: &Call<'_>) -> u64
        ensures { result ≡ clock_after call.now self.now }
    {
        match call {
            Call::Tick { now } => self.clock_at(*now),
            _ => self.clock,
        }
    }

    fn clock_at(&self, now: u64) -> u64
        ensures { result ≡ (if self.now.node.stored.journal.is_down then self.now.clock else now) }
    {
        if self.node.is_down() {
            return self.clock;
        }
        now
    }
}
