//! The source's side of one sequence.
ghost use Rattle.std.specs.Prelude.{◌≡◌, ◌+◌, ◌≤◌, ◌<◌, [], None, drop, length, not, unwrap_or, IfOk, IfErr, IfSome};
ghost use Rattle.std.specs.Prelude.{IsOk};
ghost use Rattle.std.specs.Prelude.{OnOk, OnErr};
ghost use Rattle.std.specs.Option.{option_copied};
ghost use Rattle.rm_sides.specs.Ranges.Changes.{covers_all};
ghost use Rattle.rm_base.specs.Message.{max_number};
ghost use Rattle.rm_sides.specs.Source.Laws.{IsSound};
ghost use Rattle.rm_sides.specs.Source.Outgoing.{Sequence, no_room, accepted_count, payload_at, unacked_of};
ghost use Rattle.rm_sides.specs.Source.Outgoing.{count_refusal, accept_refusal, learn_refusal, with_payload};
ghost use Rattle.rm_sides.specs.Source.Outgoing.{with_acked};
ghost use Rattle.rm_sides.specs.Source.Outgoing.{settled, with_dropped};

use crate::ranges::{RangeSet, ends_are_right};
use crate::source::error::SourceError;
use crate::source::phase::OutPhase;
use rm_base::limits::WINDOW;
use rm_base::{Blob, MAX_NUMBER, Memory, RoomyItems};
use std::alloc::Global;
use std::marker::Model;
use std::mem;

/// The source's side of one sequence. Room that was made for payloads and ranges to come counts until it is used or
/// given up.
#[derive(Debug)]
pub struct Outgoing {
    alloc: Global,
    phase: OutPhase,
    dropped: u64,
    accepted: RoomyItems<Blob>,
    acked: RangeSet,
    payloads_claimed: usize,
    ranges_claimed: usize,
}

impl Drop for Outgoing {
    fn drop(self) {
        let Outgoing {
            alloc: _,
            phase: _,
            dropped: _,
            accepted: _,
            acked: _,
            payloads_claimed: _,
            ranges_claimed: _,
        } = self;
    }
}

impl Model for Outgoing {
    ghost use Rattle.rm_sides.specs.Source.Kept.{IsKept};
    ghost use Rattle.rm_sides.specs.Source.Outgoing.{Sequence};

    ghost Value = { Sequence };

    ghost view = { λ o. record {
      facts = record {
        phase = o.phase;
        dropped = o.dropped;
        accepted = o.accepted.facts;
        acked = o.acked.ranges;
      };
      room = record { payloads = o.payloads_claimed; ranges = o.ranges_claimed };
    } };

    ghost invariant = { λ o. IsKept o.dropped o.accepted o.acked o.payloads_claimed o.ranges_claimed };
}

impl Outgoing {
    /// A sequence for which nothing was accepted. It takes no memory.
    pub fn new(alloc: Global, phase: OutPhase) -> Self
        ensures { result ≡ record {
          facts = record { phase = phase; dropped = 0; accepted = []; acked = [] };
          room = no_room;
        } }
    {
        Outgoing {
            alloc,
            phase,
            dropped: 0,
            accepted: RoomyItems::new(alloc),
            acked: RangeSet::new(alloc),
            payloads_claimed: 0,
            ranges_claimed: 0,
        }
    }

    /// How far the sequence is.
    pub fn phase(&self) -> OutPhase
        ensures { result ≡ self.now.facts.phase }
    {
        self.phase
    }

    /// Puts the sequence into another phase.
    pub fn set_phase(&mut self, phase: OutPhase)
        ensures facts { self.new.facts ≡ record self.old.facts { phase = phase } }
        ensures room { self.new.room ≡ self.old.room }
    {
        self.phase = phase;
    }

    /// How many of the first payloads are gone.
    pub fn dropped(&self) -> u64
        ensures { result ≡ self.now.facts.dropped }
    {
        self.dropped
    }

    /// How many payloads were accepted, with those that are gone. There are no more than message numbers.
    pub fn accepted_len(&self) -> u64
        ensures count { result ≡ accepted_count self.now.facts }
        ensures few { accepted_count self.now.facts ≤ max_number }
    {
        self.dropped + self.accepted.as_slice().len() as u64
    }

    /// The payload with a message number, counted from 1. There is none for a payload that is gone.
    pub fn accepted(&self, number: u64) -> Option<&Blob>
        ensures { option_copied result ≡ payload_at self.now.facts number }
    {
        self.accepted.item(number.saturating_sub(self.dropped))
    }

    /// The numbers that are known to be acknowledged.
    /// - `sound`: canonical ranges within the numbers of accepted payloads.
    pub fn acked(&self) -> &RangeSet
        ensures numbers { result.now.ranges ≡ self.now.facts.acked }
        ensures sound { IsSound self.now.facts }
    {
        &self.acked
    }

    /// How many of the accepted payloads are not acknowledged. It looks at no number one by one.
    pub fn unacked(&self) -> u64
        ensures { result ≡ unacked_of self.now.facts }
    {
        self.accepted_len().saturating_sub(self.acked.count())
    }

    /// Accepts a payload, and answers its number. It is refused outside phase Open, then where the window is full, then
    /// where the numbers are used up. Where there is room for it, it takes no memory.
    /// - `number`: the number behind all others.
    /// - WindowFull, Rollover: where 1024 or more are not acknowledged; where 9223372036854775807 were accepted
    ///   (`refused`, `error`).
    pub fn accept(&mut self, payload: Blob) -> Result<u64, SourceError>
        ensures ok { OnOk result (self.new ≡ with_payload self.old payload) }
        ensures number { IfOk result (λ number. number ≡ accepted_count self.old.facts + 1) }
        ensures refused { IfSome (accept_refusal self.old.facts) (λ refusal. result ≡ Err refusal) }
        ensures error { IfErr result (λ error. error ≡ unwrap_or (accept_refusal self.old.facts) SourceError.Memory) }
        ensures ready { accept_refusal self.old.facts ≡ None → 0 < self.old.room.payloads → IsOk result }
        ensures err { OnErr result (self.new ≡ self.old) }
    {
        if let Some(refusal) = self.refusal() {
            return Err(refusal);
        }
        Ok(self.keep(payload)?)
    }

    /// Accepts a payload without a look at the window, as a record of one that was accepted asks for it.
    pub fn keep(&mut self, payload: Blob) -> Result<u64, Memory>
        requires is_open { self.old.facts.phase ≡ OutPhase.Open }
        requires within { accepted_count self.old.facts < max_number }
        ensures ok { OnOk result (self.new ≡ with_payload self.old payload) }
        ensures number { IfOk result (λ number. number ≡ accepted_count self.old.facts + 1) }
        ensures ready { 0 < self.old.room.payloads → IsOk result }
        ensures err { OnErr result (self.new ≡ self.old) }
    {
        let number = self.accepted_len() + 1;
        self.accepted.push(payload)?;
        self.payloads_claimed = self.payloads_claimed.saturating_sub(1);
        Ok(number)
    }

    /// Adds numbers to the acknowledged ones, and answers whether one of them is new. They are refused where the
    /// greatest of them is above the count of accepted payloads. Where there is room for their ranges, it takes no
    /// memory.
    /// - InvalidAck: has the greatest given number (`refused`, `error`).
    pub fn learn(&mut self, given: &RangeSet) -> Result<bool, SourceError>
        ensures ok { OnOk result (self.new ≡ with_acked self.old given.now.ranges) }
        ensures is_new { IfOk result (λ is_new. is_new ≡ not (covers_all self.old.facts.acked given.now.ranges)) }
        ensures refused { IfSome (learn_refusal self.old.facts given.now.ranges) (λ refusal. result ≡ Err refusal) }
        ensures error { IfErr result (λ error. error
            ≡ unwrap_or (learn_refusal self.old.facts given.now.ranges) SourceError.Memory) }
        ensures ready { learn_refusal self.old.facts given.now.ranges ≡ None →
            length given.now.ranges ≤ self.old.room.ranges → IsOk result }
        ensures err { OnErr result (self.new ≡ self.old) }
    {
        let number = given.greatest();
        if number > self.accepted_len() {
            return Err(SourceError::InvalidAck { number });
        }
        ends_are_right();
        let is_new = self.acked.unite(given)?;
        self.ranges_claimed = self.ranges_claimed.saturating_sub(given.ranges().len());
        Ok(is_new)
    }

    /// Begins behind a message number: the payloads up to it were accepted and acknowledged, and are gone.
    pub fn restore(&mut self, upto: u64) -> Result<(), Memory>
        requires nothing { accepted_count self.old.facts ≡ 0 }
        requires from_one { 0 < upto }
        requires within { upto ≤ max_number }
        ensures ok { OnOk result (self.new ≡ with_dropped self.old upto) }
        ensures err { OnErr result (self.new ≡ self.old) }
    {
        let room = self.ranges_claimed.checked_add(1).ok_or(Memory)?;
        self.acked.reserve(room)?;
        ends_are_right();
        self.acked.insert_range(1, upto)?;
        self.dropped = upto;
        Ok(())
    }

    /// Gives up the payloads of the messages 1 to n, for the greatest n such that these are acknowledged, and the room
    /// that was made and not used. It takes no memory.
    pub fn settle(&mut self)
        ensures { self.new ≡ record { facts = settled self.old.facts; room = no_room } }
    {
        ends_are_right();
        let front = self.acked.front();
        let more = front.saturating_sub(self.dropped);
        self.payloads_claimed = 0;
        self.ranges_claimed = 0;
        let items = mem::replace(&mut self.accepted, RoomyItems::new(self.alloc));
        self.accepted = behind(items, more as usize);
        self.dropped = self.dropped.max(front);
    }

    /// Makes room for so many more payloads and ranges, beside what there is room for: so many more calls of `accept`
    /// and `keep` take no memory, nor do calls of `learn` with at most so many more ranges in all.
    pub fn reserve(&mut self, payloads: usize, ranges: usize) -> Result<(), Memory>
        ensures facts { self.new.facts ≡ self.old.facts }
        ensures ok { OnOk result (self.new.room ≡ record {
          payloads = self.old.room.payloads + payloads;
          ranges = self.old.room.ranges + ranges;
        }) }
        ensures err { OnErr result (self.new.room ≡ self.old.room) }
    {
        let payloads = self.payloads_claimed.checked_add(payloads).ok_or(Memory)?;
        let ranges = self.ranges_claimed.checked_add(ranges).ok_or(Memory)?;
        self.accepted.reserve(payloads)?;
        self.acked.reserve(ranges)?;
        self.payloads_claimed = payloads;
        self.ranges_claimed = ranges;
        Ok(())
    }

    /// Gives up the room that was made and not used.
    pub fn release(&mut self)
        ensures { self.new ≡ record self.old { room = no_room } }
    {
        self.payloads_claimed = 0;
        self.ranges_claimed = 0;
    }

    /// Why the next payload is refused, whatever it is.
    fn refusal(&self) -> Option<SourceError>
        ensures { result ≡ accept_refusal self.now.facts }
    {
        match self.phase {
            OutPhase::Open => refusal_of(self.accepted_len(), self.unacked()),
            phase => Some(SourceError::NotOpen { phase }),
        }
    }
}

/// The items behind the first so many. It takes no memory.
fn behind(items: RoomyItems<Blob>, first: usize) -> RoomyItems<Blob>
    requires { first ≤ length items.facts }
    ensures { result.facts ≡ drop first items.facts }
{
    let mut left = items.into_vec();
    let count = left.len() - first;
    left.rotate_left(first);
    left.truncate(count);
    RoomyItems::from_vec(left)
}

/// Why no payload is accepted after this many, of which so many are not acknowledged.
fn refusal_of(accepted: u64, unacked: u64) -> Option<SourceError>
    ensures { result ≡ count_refusal accepted unacked }
{
    if unacked >= WINDOW {
        return Some(SourceError::WindowFull { unacked });
    }
    if accepted >= MAX_NUMBER {
        return Some(SourceError::Rollover);
    }
    None
}
