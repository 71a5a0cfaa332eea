//! The destination's side of one sequence.
ghost use Rattle.std.specs.Prelude.{◌≡◌, ◌+◌, ◌^◌, ◌≤◌, ◌<◌, [], None, true, false, not, length, take, ℕ, Result, Ok};
ghost use Rattle.std.specs.Prelude.{Err};
ghost use Rattle.std.specs.Prelude.{IfOk, IfErr, IsOk, OnOk, OnErr, MatchBool, slice_get};
ghost use Rattle.std.specs.Option.{option_copied};
ghost use Rattle.rm_sides.specs.Ranges.Changes.{united};
ghost use Rattle.rm_sides.specs.Ranges.Ranges.{in_ranges, greatest_of, count_of};
ghost use Rattle.rm_base.specs.Message.{max_number};
ghost use Rattle.rm_base.specs.NumberSet.{has_number};
ghost use Rattle.rm_sides.specs.Destination.Messages.{is_empty, any_true, by_number, contents_of, front_of};
ghost use Rattle.rm_sides.specs.Destination.Messages.{ranges_onto};
ghost use Rattle.rm_sides.specs.Destination.Messages.{numbers_of, run_to, item_at};
ghost use Rattle.rm_sides.specs.Destination.LooseLemmas.{AreMessageNumbers};
ghost use Rattle.rm_sides.specs.Destination.Kept.{told_at, told_of, whole_len};
ghost use Rattle.rm_sides.specs.Destination.Incoming.{fresh, items, held, phase_of, took_of, after_take, with_received};
ghost use Rattle.rm_sides.specs.Destination.Incoming.{kind_of, IsTakeError, is_past, is_ended, is_stopped, is_whole};
ghost use Rattle.rm_sides.specs.Destination.Incoming.{last_number, stopped_by, close_answer, inbox, discarded};
ghost use Rattle.rm_sides.specs.Destination.Incoming.{consume_answer, forgotten, with_cursor, with_purged};
ghost use Rattle.rm_sides.specs.Destination.Incoming.{first_numbers, is_loose, passed, without_passed};

use crate::destination::arrivals::Arrivals;
use crate::destination::outcome::{DestError, InPhase, Took};
use crate::ranges::{
    RangeSet, range_is_added, same_numbers_same_ranges, union_with_nothing_is_the_same,
};
use rm_base::limits::WINDOW;
use rm_base::{Behaviour, Cause, Memory, Payload};
use std::alloc::Global;
use std::marker::Model;

/// Why a sequence was closed or ended, and the last number that was told with it, 0 where there was none.
#[derive(Clone, Copy, Debug)]
pub(crate) struct Stop {
    pub cause: Cause,
    pub last: u64,
}

/// The destination's side of one sequence. Room that was made for messages to come counts until it is used or given up.
/// What is gone is a count of the first messages, and a set on a loose sequence.
#[derive(Debug)]
pub struct Incoming {
    behaviour: Behaviour,
    deadline: Option<u64>,
    // of an ordered sequence: the messages 1 to it are gone
    gone: u64,
    // of a loose sequence: the numbers of the messages that are gone, with room for those that aren't
    purged: RangeSet,
    cursor: u64,
    arrivals: Arrivals,
    numbers: RangeSet,
    closed: Option<Stop>,
    ended: Option<Stop>,
    room: usize,
}

impl Drop for Incoming {
    fn drop(self) {
        let Incoming {
            behaviour: _,
            deadline: _,
            gone: _,
            purged: _,
            cursor: _,
            arrivals: _,
            numbers: _,
            closed: _,
            ended: _,
            room: _,
        } = self;
    }
}

impl Model for Incoming {
    ghost use Rattle.rm_sides.specs.Destination.Incoming.{Sequence, is_loose};
    ghost use Rattle.rm_sides.specs.Destination.Kept.{IsKept, closes_of, gone_by, told_of};

    ghost Value = { Sequence };

    ghost view = { λ i. record {
      facts = record {
        behaviour = i.behaviour;
        deadline = i.deadline;
        purged = gone_by (is_loose i.behaviour) i.gone i.purged.ranges;
        received = i.arrivals.messages;
        cursor = i.cursor;
        closes = closes_of i.closed i.ended;
        told = told_of i.closed i.ended;
      };
      room = i.room;
    } };

    ghost invariant = { λ i.
        IsKept (is_loose i.behaviour) i.gone i.purged i.cursor i.arrivals i.numbers i.room };
}

impl Incoming {
    /// A sequence on which nothing was received. It takes no memory.
    pub fn new(alloc: Global, behaviour: Behaviour, deadline: Option<u64>) -> Self
        ensures { result ≡ fresh behaviour deadline }
    {
        Incoming {
            behaviour,
            deadline,
            gone: 0,
            purged: RangeSet::new(alloc),
            cursor: 0,
            arrivals: Arrivals::new(alloc),
            numbers: RangeSet::new(alloc),
            closed: None,
            ended: None,
            room: 0,
        }
    }

    /// How far the sequence is at a moment. It ends at its deadline, or earlier.
    pub fn phase(&self, now: u64) -> InPhase
        ensures { result ≡ phase_of self.now.facts now }
    {
        if self.ended.is_some() || is_past(self.deadline, now) {
            return InPhase::Ended;
        }
        if self.is_stopped() {
            return InPhase::Closed;
        }
        InPhase::Open
    }

    /// What was announced for messages behind a gap: that they are released as they come, or what becomes of them once
    /// the sequence is closed.
    pub fn behaviour(&self) -> Behaviour
        ensures { result ≡ self.now.facts.behaviour }
    {
        self.behaviour
    }

    /// The numbers of the messages that were received, with those that are gone.
    /// - `ranges`: the canonical ranges of what came.
    pub fn received(&self) -> &RangeSet
        ensures ranges { result.now.ranges ≡ ranges_onto [] (held self.now.facts) }
        ensures same { (n : ℕ) → in_ranges result.now.ranges n ≡ has_number (held self.now.facts) n }
    {
        &self.numbers
    }

    /// The messages that were received and aren't gone, each with its number, in the order in which they came.
    pub fn messages(&self) -> &[(u64, Payload)]
        ensures { result.now ≡ self.now.facts.received }
    {
        self.arrivals.as_slice()
    }

    /// What `take` would answer, but for want of memory. Terminated, Duplicate, Closed or PastWindow comes exactly with
    /// the first that holds of: the phase is Ended at the moment; the number was received; the phase is Closed; the
    /// number is more than 1024 past the front.
    pub fn probe(&self, number: u64, now: u64) -> Result<Took, DestError>
        ensures { result ≡ took_of self.now.facts number now }
    {
        match self.phase(now) {
            InPhase::Ended => Err(DestError::Terminated),
            _ => self.kind(number),
        }
    }

    /// Receives a message, where it is new. Where there is room for it, it takes no memory.
    /// - `ok`: a new message stands behind those that came before, and nothing else changes.
    /// - Terminated, Closed: and the values Duplicate and PastWindow: as `probe` answers (`answer`, `error`).
    pub fn take(&mut self, number: u64, payload: Payload, now: u64) -> Result<Took, DestError>
        requires from_one { 0 < number }
        requires within { number ≤ max_number }
        ensures answer { IfOk result (λ took. took_of self.old.facts number now ≡ Ok took) }
        ensures error { IfErr result (IsTakeError (took_of self.old.facts number now)) }
        ensures ready { 0 < self.old.room → result ≡ took_of self.old.facts number now }
        ensures ok { IfOk result (λ took. self.new ≡ after_take self.old number payload took) }
        ensures err { OnErr result (self.new ≡ self.old) }
    {
        let took = self.probe(number, now)?;
        if let Took::New = took {
            self.keep(number, payload)?;
        }
        Ok(took)
    }

    /// Receives a message without a look at the window and the deadline, as a record of one that was received asks for
    /// it. Where there is room for it, it takes no memory.
    pub fn keep(&mut self, number: u64, payload: Payload) -> Result<(), Memory>
        requires from_one { 0 < number }
        requires within { number ≤ max_number }
        requires is_new { has_number (held self.old.facts) number ≡ false }
        requires is_open { self.old.facts.closes ≡ [] }
        ensures ok { OnOk result (self.new ≡ with_received self.old number payload) }
        ensures ready { 0 < self.old.room → IsOk result }
        ensures err { OnErr result (self.new ≡ self.old) }
    {
        self.arrivals.reserve(1)?;
        reserve_gone(&mut self.purged, self.behaviour, self.arrivals.count() + 1)?;
        self.numbers.insert(number)?;
        match self.arrivals.add(number, payload) {
            Ok(()) => {}
            Err(_) => unreachable!(),
        }
        self.room = self.room.saturating_sub(1);
        Ok(())
    }

    /// Closes the sequence, where it is open at the moment. A last number of 0 counts as none.
    /// - Terminated, Closed: exactly where the phase at the moment is Ended; is Closed (`answer`).
    pub fn close(&mut self, cause: Cause, last: Option<u64>, now: u64) -> Result<(), DestError>
        ensures answer { result ≡ close_answer (phase_of self.old.facts now) }
        ensures ok { OnOk result (self.new ≡ stopped_by self.old false cause last) }
        ensures err { OnErr result (self.new ≡ self.old) }
    {
        match self.phase(now) {
            InPhase::Open => {}
            InPhase::Closed => return Err(DestError::Closed),
            InPhase::Ended => return Err(DestError::Terminated),
        }
        self.closed = Some(Stop {
            cause,
            last: last.unwrap_or(0),
        });
        Ok(())
    }

    /// Ends the sequence, and answers whether it had not been ended before, but by its deadline. A last number of 0
    /// counts as none.
    pub fn end(&mut self, cause: Cause, last: Option<u64>) -> bool
        ensures answer { result ≡ not (any_true self.old.facts.closes) }
        ensures after { MatchBool result (self.new ≡ stopped_by self.old true cause last) (self.new ≡ self.old) }
    {
        if self.ended.is_some() {
            return false;
        }
        self.ended = Some(Stop {
            cause,
            last: last.unwrap_or(0),
        });
        true
    }

    /// Begins behind messages that were received and consumed, and which are gone. On an ordered sequence their numbers
    /// are 1 to some number.
    /// - `ok`: their numbers are received for good, and they stand before all others in the inbox, without a payload.
    pub fn restore(&mut self, numbers: &RangeSet) -> Result<(), Memory>
        requires nothing { is_empty (held self.old.facts) ≡ true }
        requires run { is_loose self.old.facts.behaviour ≡ false →
            numbers.now.ranges ≡ run_to (greatest_of numbers.now.ranges) }
        ensures ok { OnOk result (self.new ≡ with_purged self.old numbers.now.ranges) }
        ensures err { OnErr result (self.new ≡ self.old) }
    {
        let room = self.room.checked_add(numbers.ranges().len()).ok_or(Memory)?;
        self.numbers.reserve(room)?;
        reserve_gone(&mut self.purged, self.behaviour, room)?;
        range_is_added();
        same_numbers_same_ranges();
        union_with_nothing_is_the_same();
        let _purged = self.purged.ranges();
        self.numbers.unite(numbers)?;
        put_gone(&mut self.purged, self.behaviour, numbers);
        self.gone = numbers.greatest();
        self.cursor = self.cursor.max(numbers.count());
        Ok(())
    }

    /// How many items of the inbox the application consumed.
    pub fn consumed(&self) -> u64
        ensures { result ≡ self.now.facts.cursor }
    {
        self.cursor
    }

    /// Notes that the application consumed the inbox up to an item, and answers whether it had not before.
    /// - `ok`: the cursor never goes back.
    /// - PastInbox: exactly where more is consumed than the inbox has; it has that length (`answer`).
    pub fn consume(&mut self, upto: u64) -> Result<bool, DestError>
        ensures answer { result ≡ consume_answer self.old.facts upto }
        ensures ok { OnOk result (self.new ≡ with_cursor self.old upto) }
        ensures err { OnErr result (self.new ≡ self.old) }
    {
        let have = self.inbox_len();
        if upto > have {
            return Err(DestError::PastInbox { have });
        }
        let goes_on = self.cursor < upto;
        self.cursor = self.cursor.max(upto);
        Ok(goes_on)
    }

    /// The numbers of the items that the application consumed, where the inbox has as many. Of an ordered inbox these
    /// are 1 to the cursor, of a loose one the numbers of its first items; there are none where the inbox has fewer
    /// items.
    pub fn passed(&self, alloc: Global) -> Result<RangeSet, Memory>
        ensures { IfOk result (λ set. set.ranges ≡ passed self.now.facts) }
    {
        if self.cursor == 0 || self.cursor > self.inbox_len() {
            return Ok(RangeSet::new(alloc));
        }
        match self.behaviour {
            Behaviour::NoDiscard => self.earliest_passed(),
            Behaviour::EntireSequence | Behaviour::FollowingFirstGap => self.first_passed(alloc),
        }
    }

    /// Whether there are some of these.
    pub fn has_passed(&self) -> bool
        ensures { result ≡ not (is_empty (passed self.now.facts)) }
    {
        self.cursor > 0 && self.cursor <= self.inbox_len()
    }

    /// Whether a number is one of these.
    pub fn is_passed(&self, number: u64) -> bool
        ensures { result ≡ in_ranges (passed self.now.facts) number }
    {
        if self.cursor == 0 || self.cursor > self.inbox_len() {
            return false;
        }
        match self.behaviour {
            Behaviour::NoDiscard => self.is_among_earliest(number),
            Behaviour::EntireSequence | Behaviour::FollowingFirstGap => {
                0 < number && number <= self.cursor
            }
        }
    }

    /// How many items the inbox has, with those that are gone.
    pub fn inbox_len(&self) -> u64
        ensures { result ≡ length (inbox self.now.facts) }
    {
        match self.behaviour {
            Behaviour::NoDiscard => self.loose_len(),
            Behaviour::EntireSequence => self.whole_len(),
            Behaviour::FollowingFirstGap => self.front(),
        }
    }

    /// How many of the first items of the inbox are gone: none of them is to be asked for.
    pub fn gone(&self) -> u64
        ensures count { result ≡ count_of self.now.facts.purged }
        ensures none { (i : ℕ) → i ≤ result → item_at (inbox self.now.facts) i ≡ None }
    {
        match self.behaviour {
            Behaviour::NoDiscard => self.loose_gone(),
            Behaviour::EntireSequence | Behaviour::FollowingFirstGap => self.ordered_gone(),
        }
    }

    /// The inbox's payload at a place, counted from 1. There is none where it is gone.
    pub fn inbox_item(&self, i: u64) -> Option<&Payload>
        ensures { option_copied result ≡ item_at (inbox self.now.facts) i }
    {
        if i > self.inbox_len() {
            return None;
        }
        match self.behaviour {
            Behaviour::NoDiscard => self.arrival(i),
            Behaviour::EntireSequence | Behaviour::FollowingFirstGap => self.item(i),
        }
    }

    /// How many items are never released. There are none before the sequence is closed or ended, nor on a loose one.
    /// With the inbox's they are fewer than there are numbers of 64 bits.
    pub fn discarded_len(&self) -> u64
        ensures count { result ≡ length (discarded self.now.facts) }
        ensures few { length (inbox self.now.facts) + result < 2 ^ 64 }
    {
        let released = self.inbox_len();
        if is_loose(self.behaviour) {
            return 0;
        }
        if !self.is_stopped() {
            return 0;
        }
        self.len().saturating_sub(released)
    }

    /// The payload at a place among those that are never released, which stand by rising number, counted from 1. There
    /// is none where it is gone.
    pub fn discarded_item(&self, i: u64) -> Option<&Payload>
        ensures { option_copied result ≡ item_at (discarded self.now.facts) i }
    {
        if i == 0 || i > self.discarded_len() {
            return None;
        }
        self.item(self.inbox_len() + i)
    }

    /// Gives up the payloads that the application consumed, where the inbox has as many items, and the room that was
    /// made and not used. It takes no memory.
    pub fn forget(&mut self)
        ensures { self.new ≡ record { facts = forgotten self.old.facts; room = 0 } }
    {
        self.room = 0;
        if !self.has_passed() {
            return;
        }
        match self.behaviour {
            Behaviour::NoDiscard => self.forget_earliest(),
            Behaviour::EntireSequence | Behaviour::FollowingFirstGap => self.forget_first(),
        }
    }

    /// Makes room for so many more messages, beside those for which there is room: so many more calls of `keep`, and of
    /// `take` that keep a message, take no memory.
    pub fn reserve(&mut self, messages: usize) -> Result<(), Memory>
        ensures facts { self.new.facts ≡ self.old.facts }
        ensures ok { OnOk result (self.new.room ≡ self.old.room + messages) }
        ensures err { OnErr result (self.new.room ≡ self.old.room) }
    {
        let room = self.room.checked_add(messages).ok_or(Memory)?;
        let all = room.checked_add(self.arrivals.count()).ok_or(Memory)?;
        self.arrivals.reserve(room)?;
        self.numbers.reserve(room)?;
        reserve_gone(&mut self.purged, self.behaviour, all)?;
        self.room = room;
        Ok(())
    }

    /// Gives up the room that was made and not used.
    pub fn release(&mut self)
        ensures { self.new ≡ record self.old { room = 0 } }
    {
        self.room = 0;
    }

    /// Whether it was closed or ended, but by its deadline.
    fn is_stopped(&self) -> bool
        ensures { result ≡ is_stopped self.now.facts.closes }
    {
        self.closed.is_some() || self.ended.is_some()
    }

    /// Gives up the payloads of the messages 1 to the cursor, of an ordered sequence without room.
    fn forget_first(&mut self)
        requires ordered { is_loose self.old.facts.behaviour ≡ false }
        requires some { is_empty (passed self.old.facts) ≡ false }
        requires room { self.old.room ≡ 0 }
        ensures { self.new ≡ record { facts = without_passed self.old.facts; room = 0 } }
    {
        range_is_added();
        same_numbers_same_ranges();
        let _numbers = self.numbers.ranges();
        let _front = self.numbers.front();
        self.arrivals.forget(self.cursor);
        self.gone = self.cursor;
    }

    /// Gives up the payloads of the messages that came first, up to the cursor, of a loose sequence without room.
    fn forget_earliest(&mut self)
        requires loose { is_loose self.old.facts.behaviour ≡ true }
        requires some { is_empty (passed self.old.facts) ≡ false }
        requires room { self.old.room ≡ 0 }
        ensures { self.new ≡ record { facts = without_passed self.old.facts; room = 0 } }
    {
        range_is_added();
        same_numbers_same_ranges();
        let _numbers = self.numbers.ranges();
        let _purged = self.purged.ranges();
        let more = (self.cursor - self.purged.count()) as usize;
        put_first(&mut self.purged, self.arrivals.as_slice(), more);
        self.arrivals.forget_all(&self.purged);
    }

    /// Whether a number is that of an item up to the cursor of a loose inbox.
    fn is_among_earliest(&self, number: u64) -> bool
        requires loose { is_loose self.now.facts.behaviour ≡ true }
        requires reached { self.now.facts.cursor ≤ length (inbox self.now.facts) }
        ensures { result ≡ in_ranges (ranges_onto [] (take self.now.facts.cursor (held self.now.facts))) number }
    {
        range_is_added();
        same_numbers_same_ranges();
        let _numbers = self.numbers.ranges();
        let _purged = self.purged.ranges();
        let more = (self.cursor - self.purged.count()) as usize;
        self.purged.has(number) || self.arrivals.is_early(number, more)
    }

    /// The numbers of the items that the application consumed of an ordered sequence, where there are some.
    fn first_passed(&self, alloc: Global) -> Result<RangeSet, Memory>
        requires ordered { is_loose self.now.facts.behaviour ≡ false }
        requires some { 0 < self.now.facts.cursor }
        requires reached { self.now.facts.cursor ≤ length (inbox self.now.facts) }
        ensures { IfOk result (λ set. set.ranges
            ≡ first_numbers (is_loose self.now.facts.behaviour) (held self.now.facts) self.now.facts.cursor) }
    {
        let _numbers = self.numbers.ranges();
        let _front = self.numbers.front();
        let mut numbers = RangeSet::new(alloc);
        numbers.insert_range(1, self.cursor)?;
        Ok(numbers)
    }

    /// The same of a loose one.
    fn earliest_passed(&self) -> Result<RangeSet, Memory>
        requires loose { is_loose self.now.facts.behaviour ≡ true }
        requires some { 0 < self.now.facts.cursor }
        requires reached { self.now.facts.cursor ≤ length (inbox self.now.facts) }
        ensures { IfOk result (λ set. set.ranges
            ≡ first_numbers (is_loose self.now.facts.behaviour) (held self.now.facts) self.now.facts.cursor) }
    {
        range_is_added();
        same_numbers_same_ranges();
        let _numbers = self.numbers.ranges();
        let _purged = self.purged.ranges();
        let more = (self.cursor - self.purged.count()) as usize;
        let mut numbers = self.purged.copy()?;
        numbers.reserve(more)?;
        put_first(&mut numbers, self.arrivals.as_slice(), more);
        Ok(numbers)
    }

    /// How many of the first messages of a loose sequence are gone.
    fn loose_gone(&self) -> u64
        requires loose { is_loose self.now.facts.behaviour ≡ true }
        ensures count { result ≡ count_of self.now.facts.purged }
        ensures none { (i : ℕ) → i ≤ result → item_at (inbox self.now.facts) i ≡ None }
    {
        self.purged.count()
    }

    /// The same of an ordered one.
    fn ordered_gone(&self) -> u64
        requires ordered { is_loose self.now.facts.behaviour ≡ false }
        ensures count { result ≡ count_of self.now.facts.purged }
        ensures none { (i : ℕ) → i ≤ result → item_at (inbox self.now.facts) i ≡ None }
    {
        self.gone
    }

    /// How many messages were received on a loose sequence, with those that are gone.
    fn loose_len(&self) -> u64
        requires loose { is_loose self.now.facts.behaviour ≡ true }
        ensures { result ≡ length (inbox self.now.facts) }
    {
        let _purged = self.purged.ranges();
        self.purged.count() + self.arrivals.count() as u64
    }

    /// The payload at a place of a loose inbox, counted from 1. There is none where it is gone.
    fn arrival(&self, i: u64) -> Option<&Payload>
        requires loose { is_loose self.now.facts.behaviour ≡ true }
        ensures { option_copied result ≡ item_at (inbox self.now.facts) i }
    {
        let gone = self.purged.count();
        if i <= gone {
            return None;
        }
        self.arrivals.came_at((i - gone - 1) as usize)
    }

    /// How many messages were received on an ordered sequence, with those that are gone.
    fn len(&self) -> u64
        requires { is_loose self.now.facts.behaviour ≡ false }
        ensures { result ≡ length (by_number (items self.now.facts)) }
    {
        self.gone + self.arrivals.len() as u64
    }

    /// The payload at a place of all messages of an ordered sequence by rising number, counted from 1. There is none
    /// where it is gone.
    fn item(&self, i: u64) -> Option<&Payload>
        requires { is_loose self.now.facts.behaviour ≡ false }
        ensures { option_copied result ≡ item_at (contents_of (by_number (items self.now.facts))) i }
    {
        if i <= self.gone {
            return None;
        }
        self.arrivals.nth((i - self.gone - 1) as usize)
    }

    /// How many messages it has where it is complete, and else 0.
    fn whole_len(&self) -> u64
        requires { is_loose self.now.facts.behaviour ≡ false }
        ensures { result ≡ whole_len self.now.facts.told (by_number (items self.now.facts)) }
    {
        match first_told(self.closed, self.ended) {
            Some(told) if self.is_whole(told) => self.len(),
            _ => 0,
        }
    }

    /// Whether the messages are exactly those from 1 to the last number, where the peer told this one.
    fn is_whole(&self, told: u64) -> bool
        requires { is_loose self.now.facts.behaviour ≡ false }
        ensures { result ≡ is_whole told (by_number (items self.now.facts)) }
    {
        let last = self.last_number(told);
        self.front() == last && self.len() == last
    }

    /// The number that was told, or the greatest that came where none was told.
    fn last_number(&self, told: u64) -> u64
        ensures { result ≡ last_number told (by_number (items self.now.facts)) }
    {
        if told == 0 {
            return self.numbers.greatest();
        }
        told
    }

    /// The greatest m such that 1 to m came.
    fn front(&self) -> u64
        ensures { result ≡ front_of (items self.now.facts) }
    {
        self.numbers.front()
    }

    /// What a message with this number is, on a sequence that has not ended.
    fn kind(&self, number: u64) -> Result<Took, DestError>
        ensures { result ≡ kind_of self.now.facts number }
    {
        if self.numbers.has(number) {
            return Ok(Took::Duplicate);
        }
        if self.is_stopped() {
            return Err(DestError::Closed);
        }
        let front = self.front();
        if number.saturating_sub(front) > WINDOW {
            return Ok(Took::PastWindow { front });
        }
        Ok(Took::New)
    }
}

/// Whether there is a deadline, and it is at most now.
pub fn is_past(deadline: Option<u64>, now: u64) -> bool
    ensures { result ≡ is_past deadline now }
{
    match deadline {
        Some(deadline) => deadline <= now,
        None => false,
    }
}

/// Whether a sequence of this behaviour releases its messages as they come.
pub fn is_loose(behaviour: Behaviour) -> bool
    ensures { result ≡ is_loose behaviour }
{
    match behaviour {
        Behaviour::NoDiscard => true,
        Behaviour::EntireSequence | Behaviour::FollowingFirstGap => false,
    }
}

/// Makes room in the set of what is gone for so many numbers, where the sequence is loose.
fn reserve_gone(purged: &mut RangeSet, behaviour: Behaviour, messages: usize) -> Result<(), Memory>
    ensures kept { purged.new.ranges ≡ purged.old.ranges }
    ensures enough { OnOk result (is_loose behaviour ≡ true → messages ≤ purged.new.spare) }
    ensures spare { purged.old.spare ≤ purged.new.spare }
    ensures ready { (is_loose behaviour ≡ true → messages ≤ purged.old.spare) → IsOk result }
{
    if is_loose(behaviour) {
        return purged.reserve(messages);
    }
    Ok(())
}

/// Puts the numbers of messages that are gone into their set, where the sequence is loose and there is room for them.
fn put_gone(purged: &mut RangeSet, behaviour: Behaviour, numbers: &RangeSet)
    requires { is_loose behaviour ≡ true → length numbers.now.ranges ≤ purged.old.spare }
    ensures put { is_loose behaviour ≡ true → purged.new.ranges ≡ united purged.old.ranges numbers.now.ranges }
    ensures spare { is_loose behaviour ≡ true → purged.old.spare ≤ purged.new.spare + length numbers.now.ranges }
{
    if !is_loose(behaviour) {
        return;
    }
    match purged.unite(numbers) {
        Ok(_) => {}
        Err(_) => unreachable!(),
    }
}

/// Puts the numbers of so many messages that came first into a set that has room for them.
fn put_first(purged: &mut RangeSet, came: &[(u64, Payload)], count: usize)
    requires within { count ≤ length came.now }
    requires room { count ≤ purged.old.spare }
    requires numbers { AreMessageNumbers (numbers_of came.now) }
    ensures put { purged.new.ranges ≡ ranges_onto purged.old.ranges (numbers_of (take count came.now)) }
    ensures spare { purged.old.spare ≤ purged.new.spare + count }
{
    for at in 0..count {
        match purged.insert(came[at].0) {
            Ok(_) => {}
            Err(_) => unreachable!(),
        }
    }
}

/// What the peer told first, where it closed or ended the sequence.
fn first_told(closed: Option<Stop>, ended: Option<Stop>) -> Option<u64>
    ensures { result ≡ slice_get (told_of closed ended) 0 }
{
    match told_at(closed) {
        Some(told) => Some(told),
        None => told_at(ended),
    }
}

/// What the peer told, if it was the peer.
fn told_at(stop: Option<Stop>) -> Option<u64>
    ensures { result ≡ slice_get (told_at stop) 0 }
{
    match stop {
        Some(stop) if stop.cause == Cause::Peer => Some(stop.last),
        _ => None,
    }
}
