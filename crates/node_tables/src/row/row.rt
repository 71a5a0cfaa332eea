//! One sequence of a node.
ghost use Rattle.std.specs.Prelude.{◌≡◌, ◌-◌, ◌≤◌, ◌<◌, ◌&&◌, true, false, Some, None, length, IsOk, IsTrue};
ghost use Rattle.std.specs.Prelude.{OnOk, OnErr};
ghost use Rattle.std.specs.Option.{option_copied, option_map};
ghost use Rattle.std.specs.List.{list_all};
ghost use Rattle.rm_base.specs.Message.{max_number};
ghost use Rattle.rm_sides.specs.Source.Outgoing.{Sequence as OutSequence};
ghost use Rattle.rm_sides.specs.Destination.Incoming.{Sequence as InSequence, held};
ghost use Rattle.rm_sides.specs.Destination.Messages.{is_empty, any_true};
ghost use Rattle.record_batch.specs.Fact.{fact_of};
ghost use Rattle.record_batch.specs.Sequences.Fits.{follows, is_up_to, may_be_gone};
ghost use Rattle.rm_sides.specs.Destination.Incoming.{is_loose};
ghost use Rattle.record_batch.specs.Sequences.Told.{Sends, Receives};
ghost use Rattle.node_tables.specs.Row.Row.{
  is_moment,
  takes,
  with_room,
  sender_takes,
  receiver_takes,
  Seen,
  no_room,
  started,
  is_timed_start,
  sending_in,
  receiving_in,
  takes_payload,
  takes_acked,
  takes_message,
  is_receiving,
  takes_end,
  takes_dropped,
  takes_consumed,
  takes_purged,
  with_accepted,
  with_acked,
  with_received,
  with_dropped,
  with_cursor,
  with_purged,
  in_phase,
  forgotten,
  stopped,
};

use record_batch::Record;
use rm_base::{Behaviour, Blob, Cause, MAX_NUMBER, Memory, Payload, is_message_number};
use rm_sides::destination::{InPhase, Incoming, is_loose};
use rm_sides::ranges::RangeSet;
use rm_sides::source::{OutPhase, Outgoing, SourceError};
use std::alloc::Global;
use std::marker::Model;

/// A side of a sequence.
pub(crate) enum Core {
    Sends(Outgoing),
    Receives(Incoming),
}

impl Drop for Core {
    fn drop(self) {
        match self {
            Core::Sends(_) => {}
            Core::Receives(_) => {}
        }
    }
}

/// How a sequence begins: asked for with this ticket, taken from an offer of the peer, offered to the peer, or granted.
#[derive(Clone, Copy, Debug, PartialEq, Eq)]
pub enum Start {
    Asked {
        ticket: u64,
    },
    Taken,
    Offered {
        behaviour: Behaviour,
    },
    Granted {
        behaviour: Behaviour,
        deadline: Option<u64>,
    },
}

/// One sequence of a node. Room that was made for records to come counts until it is used or given up.
pub struct Row {
    ticket: Option<u64>,
    core: Core,
}

impl Drop for Row {
    fn drop(self) {
        let Row { ticket: _, core: _ } = self;
    }
}

impl Model for Row {
    ghost use Rattle.std.specs.Prelude.{IsTrue};
    ghost use Rattle.node_tables.specs.Row.Row.{Seen, side_in, room_in, is_timed};

    ghost Value = { Seen };

    ghost view = { λ r. record {
      told = record { ticket = r.ticket; side = side_in r.core };
      room = room_in r.core;
    } };

    ghost invariant = { λ r. IsTrue (is_timed (side_in r.core)) };
}

impl Row {
    /// A sequence that was just made. It takes no memory. A row changes by the step of each record alone.
    pub fn new(alloc: Global, start: Start) -> Self
        requires { IsTrue (is_timed_start start) }
        ensures { result ≡ record { told = started start; room = no_room } }
    {
        match start {
            Start::Asked { ticket } => Row {
                ticket: Some(ticket),
                core: Core::Sends(Outgoing::new(alloc, OutPhase::Creating)),
            },
            Start::Taken => Row {
                ticket: None,
                core: Core::Sends(Outgoing::new(alloc, OutPhase::Open)),
            },
            Start::Offered { behaviour } => Row {
                ticket: None,
                core: Core::Receives(Incoming::new(alloc, behaviour, None)),
            },
            Start::Granted {
                behaviour,
                deadline,
            } => Row {
                ticket: None,
                core: Core::Receives(Incoming::new(alloc, behaviour, deadline)),
            },
        }
    }

    /// The ticket of the last request for the sequence.
    pub fn ticket(&self) -> Option<u64>
        ensures { result ≡ self.now.told.ticket }
    {
        self.ticket
    }

    /// The side that sends.
    pub fn outgoing(&self) -> Option<&Outgoing>
        ensures { option_map (λ (o : OutSequence). o.facts) (option_copied result) ≡ sending_in self.now.told.side }
    {
        match &self.core {
            Core::Sends(outgoing) => Some(outgoing),
            Core::Receives(_) => None,
        }
    }

    /// The side that receives.
    pub fn incoming(&self) -> Option<&Incoming>
        ensures { option_map (λ (i : InSequence). i.facts) (option_copied result) ≡ receiving_in self.now.told.side }
    {
        match &self.core {
            Core::Sends(_) => None,
            Core::Receives(incoming) => Some(incoming),
        }
    }

    /// Puts a sequence that sends into another phase.
    pub fn set_phase(&mut self, phase: OutPhase)
        ensures ticket { self.new.told.ticket ≡ self.old.told.ticket }
        ensures side { self.new.told.side ≡ in_phase self.old.told.side phase }
        ensures room { self.new.room ≡ self.old.room }
    {
        match &mut self.core {
            Core::Sends(outgoing) => outgoing.set_phase(phase),
            Core::Receives(_) => {}
        }
    }

    /// The same, for a request with this ticket.
    pub fn ask(&mut self, phase: OutPhase, ticket: u64)
        ensures ticket { self.new.told.ticket ≡ Some ticket }
        ensures side { self.new.told.side ≡ in_phase self.old.told.side phase }
        ensures room { self.new.room ≡ self.old.room }
    {
        self.ticket = Some(ticket);
        self.set_phase(phase);
    }

    /// Accepts a payload. Where there is room for it, it takes no memory.
    pub fn accept(&mut self, payload: Blob) -> Result<(), Memory>
        requires { IsTrue (takes_payload self.old.told.side) }
        ensures ticket { self.new.told.ticket ≡ self.old.told.ticket }
        ensures side { OnOk result (self.new.told.side ≡ with_accepted self.old.told.side payload) }
        ensures room { OnOk result (self.new.room ≡ record self.old.room { payloads = self.old.room.payloads - 1 }) }
        ensures ready { 0 < self.old.room.payloads → IsOk result }
        ensures err { OnErr result (self.new ≡ self.old) }
    {
        match &mut self.core {
            Core::Sends(outgoing) => outgoing.keep(payload)?,
            Core::Receives(_) => unreachable!(),
        };
        Ok(())
    }

    /// Learns that numbers are acknowledged. Where there is room for their ranges, it takes no memory.
    pub fn learn(&mut self, numbers: &RangeSet) -> Result<(), Memory>
        requires { IsTrue (takes_acked self.old.told.side numbers.now.ranges) }
        ensures ticket { self.new.told.ticket ≡ self.old.told.ticket }
        ensures side { OnOk result (self.new.told.side ≡ with_acked self.old.told.side numbers.now.ranges) }
        ensures room { OnOk result (self.new.room ≡ record self.old.room {
          ranges = self.old.room.ranges - length numbers.now.ranges;
        }) }
        ensures ready { length numbers.now.ranges ≤ self.old.room.ranges → IsOk result }
        ensures err { OnErr result (self.new ≡ self.old) }
    {
        match &mut self.core {
            Core::Sends(outgoing) => match outgoing.learn(numbers) {
                Ok(_) => Ok(()),
                Err(SourceError::Memory) => Err(Memory),
                Err(_) => unreachable!(),
            },
            Core::Receives(_) => unreachable!(),
        }
    }

    /// Receives a message. Where there is room for it, it takes no memory.
    pub fn receive(&mut self, number: u64, payload: Payload) -> Result<(), Memory>
        requires { IsTrue (takes_message self.old.told.side number) }
        ensures ticket { self.new.told.ticket ≡ self.old.told.ticket }
        ensures side { OnOk result (self.new.told.side ≡ with_received self.old.told.side number payload) }
        ensures room { OnOk result (self.new.room ≡ record self.old.room { messages = self.old.room.messages - 1 }) }
        ensures ready { 0 < self.old.room.messages → IsOk result }
        ensures err { OnErr result (self.new ≡ self.old) }
    {
        match &mut self.core {
            Core::Sends(_) => unreachable!(),
            Core::Receives(incoming) => incoming.keep(number, payload),
        }
    }

    /// Begins behind messages that are acknowledged and gone, for which `claim` makes no room.
    pub fn drop_upto(&mut self, upto: u64) -> Result<(), Memory>
        requires { IsTrue (takes_dropped self.old.told.side upto) }
        ensures ticket { self.new.told.ticket ≡ self.old.told.ticket }
        ensures side { OnOk result (self.new.told.side ≡ with_dropped self.old.told.side upto) }
        ensures room { self.new.room ≡ self.old.room }
        ensures err { OnErr result (self.new ≡ self.old) }
    {
        match &mut self.core {
            Core::Sends(outgoing) => outgoing.restore(upto),
            Core::Receives(_) => unreachable!(),
        }
    }

    /// Notes that the application consumed the inbox up to an item.
    pub fn consume(&mut self, upto: u64)
        requires { IsTrue (takes_consumed self.old.told.side upto) }
        ensures ticket { self.new.told.ticket ≡ self.old.told.ticket }
        ensures side { self.new.told.side ≡ with_cursor self.old.told.side upto }
        ensures room { self.new.room ≡ self.old.room }
    {
        match &mut self.core {
            Core::Sends(_) => unreachable!(),
            Core::Receives(incoming) => match incoming.consume(upto) {
                Ok(_) => {}
                Err(_) => unreachable!(),
            },
        }
    }

    /// Begins behind messages that were received, were consumed, and are gone, for which `claim` makes no room.
    pub fn purge(&mut self, numbers: &RangeSet) -> Result<(), Memory>
        requires { IsTrue (takes_purged self.old.told.side numbers.now.ranges) }
        ensures ticket { self.new.told.ticket ≡ self.old.told.ticket }
        ensures side { OnOk result (self.new.told.side ≡ with_purged self.old.told.side numbers.now.ranges) }
        ensures room { self.new.room ≡ self.old.room }
        ensures err { OnErr result (self.new ≡ self.old) }
    {
        match &mut self.core {
            Core::Sends(_) => unreachable!(),
            Core::Receives(incoming) => incoming.restore(numbers),
        }
    }

    /// Closes a sequence that receives. A last number of 0 counts as none.
    pub fn close(&mut self, cause: Cause, last: u64)
        requires { IsTrue (is_receiving self.old.told.side) }
        ensures ticket { self.new.told.ticket ≡ self.old.told.ticket }
        ensures side { self.new.told.side ≡ stopped self.old.told.side false cause last }
        ensures room { self.new.room ≡ self.old.room }
    {
        match &mut self.core {
            Core::Sends(_) => unreachable!(),
            Core::Receives(incoming) => match incoming.close(cause, Some(last), 0) {
                Ok(()) => {}
                Err(_) => unreachable!(),
            },
        }
    }

    /// Ends a sequence that receives. A last number of 0 counts as none.
    pub fn end(&mut self, cause: Cause, last: u64)
        requires { IsTrue (takes_end self.old.told.side) }
        ensures ticket { self.new.told.ticket ≡ self.old.told.ticket }
        ensures side { self.new.told.side ≡ stopped self.old.told.side true cause last }
        ensures room { self.new.room ≡ self.old.room }
    {
        match &mut self.core {
            Core::Sends(_) => unreachable!(),
            Core::Receives(incoming) => {
                let _ended = incoming.end(cause, Some(last));
            }
        }
    }

    /// Whether a record that names the sequence may come next, but for the numbers that it draws.
    pub fn takes(&self, given: &Record) -> bool
        ensures { result ≡ takes self.now.told.side (fact_of given.now) }
    {
        match &self.core {
            Core::Sends(outgoing) => sender_takes(outgoing, given),
            Core::Receives(incoming) => receiver_takes(incoming, given),
        }
    }

    /// Makes room for a record that names the sequence, beside the room that there is. A record Consumed needs none. Of
    /// messages that are gone there is no promise: room is made for none of them, and `drop_upto` and `purge` may want
    /// memory at any time.
    pub fn claim(&mut self, given: &Record) -> Result<(), Memory>
        ensures told { self.new.told ≡ self.old.told }
        ensures ok { OnOk result (self.new.room ≡ with_room self.old.told.side self.old.room (fact_of given.now)) }
        ensures err { OnErr result (self.new.room ≡ self.old.room) }
    {
        match &mut self.core {
            Core::Sends(outgoing) => match given {
                Record::Accepted { .. } => outgoing.reserve(1, 0),
                Record::Acked { numbers, .. } => outgoing.reserve(0, numbers.ranges().len()),
                _ => Ok(()),
            },
            Core::Receives(incoming) => match given {
                Record::Received { .. } => incoming.reserve(1),
                _ => Ok(()),
            },
        }
    }

    /// Gives up the payloads that nobody needs: of a sequence that sends, those of the messages 1 to n, for the
    /// greatest n such that these are acknowledged; of one that receives, those that the application consumed, where
    /// the inbox has them. It gives up the room that was made and not used, too, and takes no memory.
    pub fn forget(&mut self)
        ensures { self.new ≡ record {
          told = record self.old.told { side = forgotten self.old.told.side };
          room = no_room;
        } }
    {
        match &mut self.core {
            Core::Sends(outgoing) => outgoing.settle(),
            Core::Receives(incoming) => incoming.forget(),
        }
    }

    /// Gives up the room that was made and not used.
    pub fn release(&mut self)
        ensures told { self.new.told ≡ self.old.told }
        ensures room { self.new.room ≡ no_room }
    {
        match &mut self.core {
            Core::Sends(outgoing) => outgoing.release(),
            Core::Receives(incoming) => incoming.release(),
        }
    }
}

/// Whether a record may come next for a sequence that sends.
fn sender_takes(outgoing: &Outgoing, given: &Record) -> bool
    ensures { result ≡ sender_takes outgoing.now.facts (fact_of given.now) }
{
    match given {
        Record::Accepted { .. } => outgoing.phase() == OutPhase::Open
            && outgoing.accepted_len() < MAX_NUMBER,
        Record::Acked { numbers, .. } => are_up_to(numbers, outgoing.accepted_len()),
        Record::Dropped { upto, .. } => outgoing.phase() == OutPhase::Open
            && outgoing.accepted_len() == 0
            && is_message_number(*upto),
        Record::Received { .. }
        | Record::Closed { .. }
        | Record::Ended { .. }
        | Record::Consumed { .. }
        | Record::Purged { .. } => false,
        _ => may_follow(outgoing.phase(), given),
    }
}

/// Whether a record that changes the phase may follow in a phase.
fn may_follow(phase: OutPhase, given: &Record) -> bool
    ensures { result ≡ follows phase (fact_of given.now) }
{
    match given {
        Record::Created { .. } => phase == OutPhase::Creating,
        Record::Accepted { .. } | Record::Dropped { .. } | Record::Closing { .. } => {
            phase == OutPhase::Open
        }
        Record::ClosedOut { .. } => matches!(phase, OutPhase::Open | OutPhase::Closing),
        Record::Ending { .. } => matches!(
            phase,
            OutPhase::Open | OutPhase::Closing | OutPhase::Closed
        ),
        Record::EndedOut { .. } => phase == OutPhase::Ending,
        Record::Failed { .. } => !matches!(
            phase,
            OutPhase::Ending | OutPhase::Ended | OutPhase::Failed
        ),
        Record::Made { .. } | Record::Creating { .. } | Record::Granted { .. } => false,
        Record::Acked { .. }
        | Record::Received { .. }
        | Record::Closed { .. }
        | Record::Ended { .. }
        | Record::Consumed { .. }
        | Record::Purged { .. } => false,
    }
}

/// Whether the numbers are from 1 to n.
fn are_up_to(numbers: &RangeSet, n: u64) -> bool
    ensures { result ≡ list_all (is_up_to n) numbers.now.ranges }
{
    let _ranges = numbers.ranges();
    numbers.greatest() <= n
}

/// Whether the numbers are 1 to some number.
fn are_first(numbers: &RangeSet) -> bool
    ensures { result ≡ (list_all (is_up_to max_number) numbers.now.ranges && may_be_gone false numbers.now.ranges) }
{
    let ranges = numbers.ranges();
    if ranges.len() != 1 {
        return false;
    }
    ranges[0].lower == 1
}

/// Whether there is a number.
fn are_some(numbers: &RangeSet) -> bool
    ensures { result ≡ (list_all (is_up_to max_number) numbers.now.ranges && may_be_gone true numbers.now.ranges) }
{
    let ranges = numbers.ranges();
    !ranges.is_empty()
}

/// Whether the numbers may be those of messages that are gone.
fn may_be_gone(incoming: &Incoming, numbers: &RangeSet) -> bool
    ensures { result ≡ (list_all (is_up_to max_number) numbers.now.ranges
        && may_be_gone (is_loose incoming.now.facts.behaviour) numbers.now.ranges) }
{
    if is_loose(incoming.behaviour()) {
        return are_some(numbers);
    }
    are_first(numbers)
}

/// Whether a record may come next for a sequence that receives.
fn receiver_takes(incoming: &Incoming, given: &Record) -> bool
    requires { IsTrue (is_moment incoming.now.facts.deadline) }
    ensures { result ≡ receiver_takes incoming.now.facts (fact_of given.now) }
{
    match given {
        Record::Received { number, .. } => {
            is_message_number(*number) && !incoming.received().has(*number) && is_open(incoming)
        }
        Record::Closed { .. } => is_open(incoming),
        Record::Ended { .. } => !is_ended(incoming),
        Record::Consumed { upto, .. } => {
            incoming.consumed() < *upto && *upto <= incoming.inbox_len()
        }
        Record::Purged { numbers, .. } => has_nothing(incoming) && may_be_gone(incoming, numbers),
        _ => false,
    }
}

/// Whether nothing was received.
fn has_nothing(incoming: &Incoming) -> bool
    ensures { result ≡ is_empty (held incoming.now.facts) }
{
    incoming.received().ranges().is_empty()
}

/// Whether the sequence was neither closed nor ended, but by its deadline.
fn is_open(incoming: &Incoming) -> bool
    requires { IsTrue (is_moment incoming.now.facts.deadline) }
    ensures { result ≡ is_empty incoming.now.facts.closes }
{
    match incoming.phase(0) {
        InPhase::Open => true,
        InPhase::Closed => false,
        InPhase::Ended => false,
    }
}

/// Whether the sequence was ended, but by its deadline.
fn is_ended(incoming: &Incoming) -> bool
    requires { IsTrue (is_moment incoming.now.facts.deadline) }
    ensures { result ≡ any_true incoming.now.facts.closes }
{
    match incoming.phase(0) {
        InPhase::Open => false,
        InPhase::Closed => false,
        InPhase::Ended => true,
    }
}
