//! One connection, from its first byte to its last.

use crate::ask::Refusal;
use crate::call::{Call, Reply};
use crate::gather::{Gather, Sort};
use crate::limits::{IDLE, LIFE, LINGER, MOST_DRAINED, PIECE, SILENCE, SMALL, WHOLE};
use crate::pipe::{Made, Moved, Pipe};
use crate::tally::Tally;
use http_endpoint::Media;
use rm_base::Blob;
use std::alloc::Global;
use std::mem;
use std::net::SocketAddr;

const CONTINUE: &[u8] = b"HTTP/1.1 100 Continue\r\n\r\n";

/// Whose connection it is: a peer's, which comes from an address; an application's; or one that was dialled for the
/// packets of a host, by its place in the outbox.
#[derive(Clone, Copy, Debug, PartialEq, Eq)]
pub enum Kind {
    Peer(u64),
    App,
    Post(usize),
}

/// What it does: it is being made, it reads, its request is at the desk, the desk had nothing for it and is asked again
/// later, it writes, or its answer is written and it takes in what still comes.
#[derive(Clone, Copy, Debug, PartialEq, Eq)]
pub enum Stage {
    Connecting,
    Reading,
    Waiting,
    Paused,
    Writing,
    Lingering,
}

/// What came of driving a connection as far as it goes: it waits for its socket, a message of so many bytes is whole,
/// or it is over.
#[derive(Clone, Copy, Debug, PartialEq, Eq)]
pub enum Goes {
    On,
    Whole(usize),
    Over,
}

/// What a connection has to know to go on.
#[derive(Clone, Copy)]
pub struct About {
    pub alloc: Global,
    pub media: Media,
    pub own: SocketAddr,
    pub now: u64,
    /// As many bytes are held as may be.
    pub is_full: bool,
}

/// A connection.
pub struct Line {
    kind: Kind,
    pipe: Pipe,
    stage: Stage,
    serial: u64,
    // When it ends whatever it does, and when what it does began.
    ends: u64,
    since: u64,
    input: Vec<u8>,
    gather: Gather,
    output: Vec<u8>,
    sent: usize,
    // How many bytes of the answer went ahead of it, and how many were read behind it.
    ahead: usize,
    drained: usize,
    // What an application asked for, and until when it waits for it.
    call: Option<Call>,
    until: u64,
}

impl Drop for Line {
    fn drop(self) {
        let Line {
            kind: _,
            pipe: _,
            stage: _,
            serial: _,
            ends: _,
            since: _,
            input: _,
            gather: _,
            output: _,
            sent: _,
            ahead: _,
            drained: _,
            call: _,
            until: _,
        } = self;
    }
}

// Writes what is left of an output, as far as it goes.
fn push_out(pipe: &mut Pipe, output: &[u8], sent: &mut usize) -> Moved {
    let rest = output.split_at((*sent).min(output.len())).1;
    if rest.is_empty() {
        return Moved::Count(0);
    }
    match pipe.write(rest) {
        Moved::Count(0) => Moved::Gone,
        Moved::Count(count) => {
            *sent = sent.saturating_add(count);
            Moved::Count(count)
        }
        other => other,
    }
}

// How messages that are read on a connection are gathered.
fn sort_of(kind: Kind, media: Media) -> Sort {
    match kind {
        Kind::Peer(_) => Sort::Request(media),
        Kind::App => Sort::Call,
        Kind::Post(_) => Sort::Response,
    }
}

impl Line {
    /// A connection that was taken.
    pub fn taken(about: &About, kind: Kind, pipe: Pipe, serial: u64) -> Line {
        Line {
            kind,
            pipe,
            stage: Stage::Reading,
            serial,
            ends: about.now.saturating_add(LIFE),
            since: about.now,
            input: Vec::new(about.alloc),
            gather: Gather::new(sort_of(kind, about.media)),
            output: Vec::new(about.alloc),
            sent: 0,
            ahead: 0,
            drained: 0,
            call: None,
            until: 0,
        }
    }

    /// A connection that was dialled, on which a request is to be written.
    pub fn dialled(about: &About, kind: Kind, pipe: Pipe, serial: u64, request: Vec<u8>) -> Line {
        let mut line = Line::taken(about, kind, pipe, serial);
        line.stage = Stage::Connecting;
        line.output = request;
        line
    }

    /// Whose it is.
    pub fn kind(&self) -> Kind {
        self.kind
    }

    /// How far it has come.
    pub fn stage(&self) -> Stage {
        self.stage
    }

    /// The number by which it is told from others that have its place after it.
    pub fn serial(&self) -> u64 {
        self.serial
    }

    /// How many bytes it holds.
    pub fn bytes(&self) -> usize {
        let told = match &self.call {
            Some(call) => call.bytes(),
            None => 0,
        };
        self.input
            .len()
            .saturating_add(self.output.len())
            .saturating_add(told)
    }

    /// Since when it is silent, where nothing came of its request, or its answer is written.
    pub fn silent_since(&self) -> Option<u64> {
        let is_silent = match self.stage {
            Stage::Reading => self.input.is_empty(),
            Stage::Lingering => true,
            _ => false,
        };
        if is_silent { Some(self.since) } else { None }
    }

    /// Whether something is still to be written.
    pub fn owes(&self) -> bool {
        self.stage == Stage::Writing
    }

    /// Whether its time is up.
    pub fn is_late(&self, now: u64) -> bool {
        if self.stage == Stage::Waiting || self.stage == Stage::Paused {
            return false;
        }
        let limit = match self.stage {
            Stage::Lingering => SILENCE,
            Stage::Reading => match self.kind {
                Kind::Post(_) => WHOLE,
                _ => { if self.input.is_empty() { IDLE } else { WHOLE } }
            },
            _ => WHOLE,
        };
        now.saturating_sub(self.since) > limit || now > self.ends
    }

    /// What an application's request tells the desk.
    pub fn take_told(&mut self, alloc: Global) -> Option<Blob> {
        match &mut self.call {
            Some(call) => call.take_told(alloc).ok(),
            None => None,
        }
    }

    /// What the desk wrote becomes the answer of an application; or the desk is asked again later, where there is time
    /// for that.
    pub fn hear(&mut self, about: &About, text: &[u8], tally: Tally, may_pause: bool) -> bool {
        if may_pause
            && about.now < self.until
            && let Some(call) = &self.call
            && call.is_vain(text)
        {
            self.stage = Stage::Paused;
            return true;
        }
        match self.call.take() {
            Some(call) => match call.answer(about.alloc, text, tally) {
                Ok(reply) => {
                    self.reply(about, reply);
                    true
                }
                Err(_) => false,
            },
            None => false,
        }
    }

    /// The desk is asked again: whether it is to be.
    pub fn resume(&mut self) -> bool {
        let is_paused = self.stage == Stage::Paused;
        if is_paused {
            self.stage = Stage::Waiting;
        }
        is_paused
    }

    /// Whether an application waits for its answer.
    pub fn is_asking(&self) -> bool {
        self.call.is_some()
    }

    /// The application that waits is told that the service stops.
    pub fn stop(&mut self, about: &About) -> bool {
        match self.call.take() {
            Some(call) => match call.refuse(about.alloc, Refusal::Stopping) {
                Ok(reply) => {
                    self.reply(about, reply);
                    true
                }
                Err(_) => false,
            },
            None => false,
        }
    }

    fn reply(&mut self, about: &About, reply: Reply) {
        let Reply { text, closes } = reply;
        self.stage = Stage::Writing;
        self.since = about.now;
        self.ends = self.ends.max(about.now.saturating_add(WHOLE));
        self.sent = 0;
        self.output = text;
        if closes {
            self.gather.close();
        }
    }

    /// Takes out the message that is whole, of so many bytes. What came behind it stays.
    pub fn take_message(&mut self, alloc: Global, len: usize) -> Option<Blob> {
        let input = mem::replace(&mut self.input, Vec::new(alloc));
        if len >= input.len() {
            return Some(Blob::from_vec(input));
        }
        let (front, behind) = input.as_slice().split_at(len);
        match (
            Blob::from_slice(alloc, front),
            Vec::from_slice(alloc, behind),
        ) {
            (Ok(front), Ok(behind)) => {
                self.input = behind;
                Some(front)
            }
            _ => None,
        }
    }

    /// An answer is to be written. What went ahead of it is left out.
    pub fn answer(&mut self, about: &About, answer: &[u8]) -> bool {
        self.stage = Stage::Writing;
        self.since = about.now;
        self.sent = 0;
        if self.ahead > 0 && answer.starts_with(CONTINUE) {
            self.sent = self.ahead;
        }
        if !says_kept(about.alloc, answer) {
            self.gather.close();
        }
        match Vec::from_slice(about.alloc, answer) {
            Ok(output) => {
                self.output = output;
                true
            }
            Err(_) => false,
        }
    }

    /// Goes on as far as its socket lets it.
    pub fn drive(&mut self, about: &About) -> Goes {
        for _turn in 0..u64::MAX {
            let goes = match self.stage {
                Stage::Connecting => self.connect(about),
                Stage::Reading => self.read(about),
                Stage::Waiting => Some(Goes::On),
                Stage::Paused => self.pause(),
                Stage::Writing => self.write(about),
                Stage::Lingering => self.linger(about),
            };
            if let Some(goes) = goes {
                return goes;
            }
        }
        Goes::Over
    }

    fn connect(&mut self, about: &About) -> Option<Goes> {
        match self.pipe.made(about.own) {
            Made::Yes => {
                self.stage = Stage::Writing;
                self.since = about.now;
                None
            }
            Made::NotYet => Some(Goes::On),
            Made::No => Some(Goes::Over),
        }
    }

    fn read(&mut self, about: &About) -> Option<Goes> {
        let mut piece = [0; PIECE];
        match self.pipe.read(&mut piece) {
            Moved::Count(0) => {
                if self.gather.lasts_to_end() {
                    Some(Goes::Whole(self.input.len()))
                } else {
                    Some(Goes::Over)
                }
            }
            Moved::Count(count) => self.take(about, piece.split_at(count.min(PIECE)).0),
            Moved::Later => Some(Goes::On),
            Moved::Gone => Some(Goes::Over),
        }
    }

    // Takes bytes that came.
    fn take(&mut self, about: &About, more: &[u8]) -> Option<Goes> {
        if self.input.is_empty() {
            self.since = about.now;
        }
        if about.is_full && self.input.len() > SMALL {
            return Some(Goes::Over);
        }
        match self.input.extend_from_slice(more) {
            Ok(()) => self.look(about),
            Err(_) => Some(Goes::Over),
        }
    }

    // Looks whether a message is whole. A peer that waits to be told so is told to send the body.
    fn look(&mut self, about: &About) -> Option<Goes> {
        match self.gather.look(about.alloc, self.input.as_slice()) {
            Ok(Some(len)) => {
                self.stage = Stage::Waiting;
                match self.kind {
                    Kind::App => self.call(about, len),
                    _ => Some(Goes::Whole(len)),
                }
            }
            Ok(None) => {
                if self.gather.waits() && self.ahead == 0 {
                    if let Moved::Count(count) = self.pipe.write(CONTINUE) {
                        self.ahead = count;
                    }
                }
                None
            }
            Err(_) => Some(Goes::Over),
        }
    }

    // A request of an application is read. One that the desk isn't told is answered at once.
    fn call(&mut self, about: &About, len: usize) -> Option<Goes> {
        let message = match self.take_message(about.alloc, len) {
            Some(message) => message,
            None => return Some(Goes::Over),
        };
        let Ok(call) = Call::read(about.alloc, message.as_slice()) else {
            return Some(Goes::Over);
        };
        match call.refusal() {
            Some(refusal) => match call.refuse(about.alloc, refusal) {
                Ok(reply) => {
                    self.reply(about, reply);
                    None
                }
                Err(_) => Some(Goes::Over),
            },
            None => {
                self.until = about.now.saturating_add(call.wait());
                self.call = Some(call);
                Some(Goes::Whole(len))
            }
        }
    }

    // Whether an application still waits: one that ended its side is gone.
    fn pause(&mut self) -> Option<Goes> {
        if self.input.len() > SMALL {
            return Some(Goes::On);
        }
        let mut piece = [0; PIECE];
        match self.pipe.read(&mut piece) {
            Moved::Count(0) => Some(Goes::Over),
            Moved::Count(count) => match self
                .input
                .extend_from_slice(piece.split_at(count.min(PIECE)).0)
            {
                Ok(()) => None,
                Err(_) => Some(Goes::Over),
            },
            Moved::Later => Some(Goes::On),
            Moved::Gone => Some(Goes::Over),
        }
    }

    fn write(&mut self, about: &About) -> Option<Goes> {
        match push_out(&mut self.pipe, self.output.as_slice(), &mut self.sent) {
            Moved::Count(0) => self.wrote(about),
            Moved::Count(_) => None,
            Moved::Later => Some(Goes::On),
            Moved::Gone => Some(Goes::Over),
        }
    }

    // All is written: of a request the response is read, and behind an answer the next request, or nothing more.
    fn wrote(&mut self, about: &About) -> Option<Goes> {
        self.output = Vec::new(about.alloc);
        self.sent = 0;
        self.since = about.now;
        match self.kind {
            Kind::Post(_) => {
                self.stage = Stage::Reading;
                None
            }
            Kind::App => {
                if self.gather.closes() {
                    self.shut(about)
                } else {
                    self.again(about)
                }
            }
            Kind::Peer(_) => self.shut(about),
        }
    }

    fn shut(&mut self, about: &About) -> Option<Goes> {
        self.pipe.shut();
        self.input = Vec::new(about.alloc);
        self.stage = Stage::Lingering;
        self.ends = self.ends.min(about.now.saturating_add(LINGER));
        None
    }

    // The next request of the application, of which bytes may be there already.
    fn again(&mut self, about: &About) -> Option<Goes> {
        self.stage = Stage::Reading;
        self.gather = Gather::new(sort_of(self.kind, about.media));
        self.ahead = 0;
        self.ends = about.now.saturating_add(LIFE);
        if self.input.is_empty() {
            None
        } else {
            self.look(about)
        }
    }

    // Takes in what still comes: where bytes are left unread the system tells the peer of an error, and the peer may
    // lose the answer.
    fn linger(&mut self, about: &About) -> Option<Goes> {
        let mut piece = [0; PIECE];
        match self.pipe.read(&mut piece) {
            Moved::Count(0) => Some(Goes::Over),
            Moved::Count(count) => {
                self.since = about.now;
                self.drained = self.drained.saturating_add(count);
                if self.drained > MOST_DRAINED {
                    Some(Goes::Over)
                } else {
                    None
                }
            }
            Moved::Later => Some(Goes::On),
            Moved::Gone => Some(Goes::Over),
        }
    }
}

// Whether an answer says that its connection goes on: that it says so by nothing is enough, as in HTTP/1.1. One that
// can't be read ends it.
fn says_kept(alloc: Global, answer: &[u8]) -> bool {
    let mut rest = answer;
    if let Some(behind) = rest.strip_prefix(CONTINUE) {
        rest = behind;
    }
    match crate::gather::is_kept(alloc, rest) {
        Ok(kept) => kept,
        Err(_) => false,
    }
}
