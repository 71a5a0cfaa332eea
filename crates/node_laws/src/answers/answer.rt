//! What a call of a node comes to.
ghost use Rattle.std.specs.Prelude.{◌≡◌, []};
ghost use Rattle.rm_protocol.specs.Waiting.{no_moves as no_moves_of};
ghost use Rattle.node_laws.specs.Answers.Answers.{moves_seen};

use record_batch::{Record, Via};
use rm_base::{Behaviour, Lapse, Uri};
use rm_message::{FaultKind, Message};
use std::alloc::Global;
use timers::slots::Key;

/// Why a call is refused, in the order in which it is tested. Of a full window or node: how many messages wait for an
/// acknowledgement. Of a full store: where its entries end, and how many bytes the entry would take. Of an item past
/// the inbox, which is tested before the store: how many items the inbox has.
#[derive(Clone, Copy, Debug, PartialEq, Eq)]
pub enum Cause {
    NoSequence,
    WrongSide,
    PayloadTooLong { length: u64 },
    BadPayload,
    NotOpen,
    WindowFull { unacked: u64 },
    NodeFull { unacked: u64 },
    Rollover,
    TooManySequences { count: u64 },
    StoreFull { end: u64, needed: u64 },
    PastInbox { have: u64 },
}

/// How a call comes out: done, refused, or with a fault as the answer to a message.
#[derive(Clone, Copy, Debug, PartialEq, Eq)]
pub enum Outcome {
    Done,
    Refused(Cause),
    Judged(FaultKind),
}

/// What a call does to the keys that wait, besides what its records do: those due at once, those emitted, and the time
/// that it tells.
#[derive(Debug, Drop)]
pub struct Moves {
    pub urged: Vec<Key>,
    pub emitted: Vec<Key>,
    pub time: u64,
}

/// What a call comes to: how it comes out, the records that it adds, all that is said then, and how keys move.
#[derive(Debug, Drop)]
pub struct Answer {
    pub outcome: Outcome,
    pub batch: Vec<Record>,
    pub outs: Vec<Message>,
    pub moves: Moves,
}

/// No key moves besides by the records.
pub fn no_moves(alloc: Global) -> Moves
    ensures { moves_seen result ≡ no_moves_of }
{
    Moves {
        urged: Vec::new(alloc),
        emitted: Vec::new(alloc),
        time: 0,
    }
}

/// What is asked for: the peer's address, how answers come back, how long the sequence lasts, and the behaviour of the
/// sequence that is offered in the other direction.
#[derive(Debug, Drop)]
pub struct Wish {
    pub to: Uri,
    pub via: Via,
    pub expires: Lapse,
    pub offer: Option<Behaviour>,
}
