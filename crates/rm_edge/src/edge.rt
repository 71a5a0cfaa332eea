//! All connections of a service, on one thread: the trusted edge of `Traffic`. It tells nothing of what comes and goes.
ghost use Rattle.std.specs.Prelude.{None, false};

use crate::ears::{Ears, origin};
use crate::held::Held;
use crate::limits::{AGAIN, BREATH, FIRST_TOKEN, MOST_BYTES, MOST_PAUSED, MOST_TAKEN, STRIDE};
use crate::line::{About, Goes, Kind, Line, Stage};
use crate::listen::Listen;
use crate::outbox::{Dial, Outbox};
use crate::peers::Peers;
use crate::pipe::Pipe;
use crate::ready::{Ready, Thing, Whole};
use crate::table::Table;
use crate::tally::Tally;
use http_endpoint::link::Fault;
use http_endpoint::{Media, read_response};
use mio::net::TcpStream;
use rm_base::{Failed, MemSource, Numbers};
use service_turns::{Event, Packet, Traffic};
use std::alloc::Global;
use std::fs::Files;
use std::net::{Net, SocketAddr};
use std::thread;
use std::time::{Clock, Duration, Instant};

/// What a service listens to, what it dials, and what waits for its turn.
pub struct Edge<R: Copy> {
    net: R,
    alloc: Global,
    media: Media,
    peers: Peers,
    ears: Ears,
    table: Table,
    outbox: Outbox,
    ready: Ready,
    start: Instant,
    now: u64,
    // When sockets were asked last, when connections were looked through, and when it was last quiet.
    asked: u64,
    swept: u64,
    quiet: u64,
    was_quiet: bool,
    // When the desk was asked again for applications that wait, and whether something was done since.
    again: u64,
    has_news: bool,
    serial: u64,
    // The host that is dialled for first.
    first: usize,
    tally: Tally,
}

impl<R: Copy> Drop for Edge<R> {
    fn drop(self) {
        let Edge {
            net: _,
            alloc: _,
            media: _,
            peers: _,
            ears: _,
            table: _,
            outbox: _,
            ready: _,
            start: _,
            now: _,
            asked: _,
            swept: _,
            quiet: _,
            was_quiet: _,
            again: _,
            has_news: _,
            serial: _,
            first: _,
            tally: _,
        } = self;
    }
}

impl<R: Net + Files + Clock + Copy> Edge<R> {
    /// Listens to peers, and to applications on a Unix socket where one is named. The socket of another process at that
    /// name is removed, so this process must hold what it stands beside. Who isn't among the peers is let go, and isn't
    /// posted to.
    pub fn open(
        net: R,
        alloc: Global,
        listen: Listen,
        socket: Option<&str>,
        media: Media,
        peers: Peers,
    ) -> Result<Self, Fault> {
        let ears = Ears::open(&net, alloc, listen, socket)?;
        let start = match Instant::now(&net) {
            Ok(start) => start,
            Err(error) => {
                return Err(Fault {
                    call: "clock",
                    error,
                });
            }
        };
        Ok(Edge {
            net,
            alloc,
            media,
            peers,
            ears,
            table: Table::new(alloc),
            outbox: Outbox::new(alloc),
            ready: Ready::new(alloc),
            start,
            now: 0,
            asked: 0,
            swept: 0,
            quiet: 0,
            was_quiet: false,
            again: 0,
            has_news: false,
            serial: 0,
            first: 0,
            tally: Tally::new(),
        })
    }

    /// The address and port at which it listens to peers.
    pub fn address(&self) -> SocketAddr {
        self.ears.own()
    }

    /// What it did so far.
    pub fn tally(&self) -> Tally {
        self.tally
    }

    /// Writes the answers that are still to be written, for so many milliseconds at most. Applications that wait are
    /// told that the service stops.
    pub fn finish(&mut self, wait: u64) {
        self.tell_time();
        self.stop_all();
        let end = self.now.saturating_add(wait);
        for _turn in 0..u64::MAX {
            if !self.table.owes() || self.now >= end {
                return;
            }
            self.pump(end.saturating_sub(self.now).min(STRIDE));
        }
    }

    fn stop_all(&mut self) {
        for place in 0..self.table.len() {
            if let Some(line) = self.table.take(place) {
                self.stop_one(place, line);
            }
        }
    }

    fn stop_one(&mut self, place: usize, line: Line) {
        let mut line = line;
        if !line.is_asking() {
            self.table.put(place, line);
            return;
        }
        if line.stop(&self.about()) {
            self.drive(place, line);
        } else {
            self.end(line);
        }
    }

    fn about(&self) -> About {
        let held = self
            .table
            .bytes()
            .saturating_add(self.outbox.bytes())
            .saturating_add(self.ready.bytes());
        About {
            alloc: self.alloc,
            media: self.media,
            own: self.ears.own(),
            now: self.now,
            is_full: held > MOST_BYTES,
        }
    }

    fn tell_time(&mut self) {
        if let Ok(since) = self.start.elapsed(&self.net) {
            let millis = since.as_millis().min(u64::MAX as u128) as u64;
            self.now = self.now.max(millis);
        }
    }

    // Asks what is ready, waiting for so many milliseconds at most, and goes on with it.
    fn pump(&mut self, wait: u64) {
        self.dial_all();
        if !self.ears.wait(wait) {
            thread::sleep(&self.net, Duration::from_millis(wait.min(STRIDE)));
        }
        self.tell_time();
        self.asked = self.now;
        self.take_apps();
        self.take_peers();
        for at in 0..self.ears.len() {
            if let Some(token) = self.ears.token(at)
                && token >= FIRST_TOKEN
                && let Some(line) = self.table.take(token - FIRST_TOKEN)
            {
                self.drive(token - FIRST_TOKEN, line);
            }
        }
        self.sweep();
        self.dial_all();
    }

    // Takes what peers dialled. A call that fails is tried again when sockets are asked next.
    fn take_peers(&mut self) {
        for _turn in 0..MOST_TAKEN {
            match self.ears.take_peer() {
                Some((stream, from)) => {
                    if self.peers.may_come(from) {
                        self.admit_peer(stream, origin(from));
                    } else {
                        self.tally.barred = self.tally.barred.saturating_add(1);
                    }
                }
                None => return,
            }
        }
    }

    fn take_apps(&mut self) {
        for _turn in 0..MOST_TAKEN {
            match self.ears.take_app() {
                Some(stream) => {
                    if self.table.has_room(Kind::App) {
                        self.admit(Kind::App, Pipe::Unix(stream));
                    }
                }
                None => return,
            }
        }
    }

    fn admit_peer(&mut self, stream: TcpStream, from: u64) {
        let kind = Kind::Peer(from);
        if !self.table.has_room(kind) {
            if let Some(place) = self.table.silent(from)
                && let Some(line) = self.table.take(place)
            {
                self.end(line);
            }
        }
        if self.table.has_room(kind) {
            let _ = stream.set_nodelay(true);
            self.admit(kind, Pipe::Tcp(stream));
        } else {
            self.tally.dropped = self.tally.dropped.saturating_add(1);
        }
    }

    fn next_serial(&mut self) -> u64 {
        self.serial = self.serial.wrapping_add(1);
        self.serial
    }

    fn admit(&mut self, kind: Kind, mut pipe: Pipe) {
        let Some(place) = self.table.place() else {
            return;
        };
        if !self
            .ears
            .register(&mut pipe, place.saturating_add(FIRST_TOKEN))
        {
            return;
        }
        let serial = self.next_serial();
        let line = Line::taken(&self.about(), kind, pipe, serial);
        self.table.enter(place, line);
        if let Some(line) = self.table.take(place) {
            self.drive(place, line);
        }
    }

    // Dials for each host that has a packet and no connection, each time from another one on.
    fn dial_all(&mut self) {
        let count = self.outbox.len();
        self.first = if self.first < count {
            self.first + 1
        } else {
            0
        };
        for index in self.first..count {
            self.dial_for(index);
        }
        for index in 0..self.first.min(count) {
            self.dial_for(index);
        }
    }

    fn dial_for(&mut self, index: usize) {
        if self.outbox.is_ready(index, self.now) && self.table.has_room(Kind::Post(index)) {
            match self.outbox.dial(&self.net, index, self.now, self.media) {
                Some(dial) => self.dial(index, dial),
                None => self.tally.missed = self.tally.missed.saturating_add(1),
            }
        }
    }

    fn dial(&mut self, index: usize, dial: Dial) {
        let Dial { address, text } = dial;
        let Some(pipe) = self.dialled(address) else {
            self.miss(index);
            return;
        };
        let (place, pipe) = pipe;
        let serial = self.next_serial();
        let line = Line::dialled(&self.about(), Kind::Post(index), pipe, serial, text);
        self.table.enter(place, line);
        if let Some(line) = self.table.take(place) {
            self.drive(place, line);
        }
    }

    // A connection that begins to be made, and its place.
    fn dialled(&mut self, address: SocketAddr) -> Option<(usize, Pipe)> {
        let place = self.table.place()?;
        let Ok(stream) = TcpStream::connect(&self.net, address) else {
            return None;
        };
        let _ = stream.set_nodelay(true);
        let mut pipe = Pipe::Tcp(stream);
        if self
            .ears
            .register(&mut pipe, place.saturating_add(FIRST_TOKEN))
        {
            Some((place, pipe))
        } else {
            None
        }
    }

    // A host was not reached.
    fn miss(&mut self, index: usize) {
        if self.outbox.missed(index, self.now) {
            self.tally.missed = self.tally.missed.saturating_add(1);
        }
    }

    // A connection that was taken out of its place goes on.
    fn drive(&mut self, place: usize, line: Line) {
        let mut line = line;
        match line.drive(&self.about()) {
            Goes::On => self.table.put(place, line),
            Goes::Whole(len) => self.whole(place, line, len),
            Goes::Over => self.end(line),
        }
    }

    // A message is whole.
    fn whole(&mut self, place: usize, line: Line, len: usize) {
        let whole = Whole {
            place,
            serial: line.serial(),
            len,
        };
        let is_kept = match line.kind() {
            Kind::Peer(_) => self.ready.push(Thing::Ask(whole)),
            Kind::App => self.ready.push(Thing::Call(whole)),
            Kind::Post(index) => {
                self.hear(index, line, len);
                return;
            }
        };
        if is_kept {
            self.table.put(place, line);
        } else {
            self.end(line);
        }
    }

    // A response is whole: its body waits for the desk.
    fn hear(&mut self, index: usize, line: Line, len: usize) {
        let mut line = line;
        self.table.leave(line.kind());
        self.outbox.done(index);
        let read = match line.take_message(self.alloc, len) {
            Some(text) => {
                let mut source = MemSource::new(text, Numbers::new(self.alloc));
                read_response(self.alloc, &mut source).ok()
            }
            None => None,
        };
        match read {
            Some(response) => {
                self.tally.posted = self.tally.posted.saturating_add(1);
                if !response.body.is_empty() {
                    let _ = self.ready.push(Thing::Heard(response.body));
                }
            }
            None => self.tally.missed = self.tally.missed.saturating_add(1),
        }
    }

    // A connection is over.
    fn end(&mut self, line: Line) {
        self.table.leave(line.kind());
        match line.kind() {
            Kind::Post(index) => {
                if line.stage() == Stage::Connecting {
                    self.miss(index);
                } else {
                    self.outbox.lost(index);
                    self.tally.missed = self.tally.missed.saturating_add(1);
                }
            }
            kind => {
                let is_idle = kind == Kind::App && line.bytes() == 0;
                if line.stage() == Stage::Reading && !is_idle {
                    self.tally.dropped = self.tally.dropped.saturating_add(1);
                }
            }
        }
    }

    // Ends the connections whose time is up.
    fn sweep(&mut self) {
        if self.now.saturating_sub(self.swept) < STRIDE {
            return;
        }
        self.swept = self.now;
        for place in 0..self.table.len() {
            if self.table.is_late(place, self.now)
                && let Some(line) = self.table.take(place)
            {
                let (kind, stage) = (line.kind(), line.stage());
                self.end(line);
                if let Kind::Post(index) = kind
                    && stage != Stage::Connecting
                {
                    self.outbox.tired(index, self.now);
                }
            }
        }
    }

    // What waits for the desk, if anything does.
    fn thing(&mut self) -> Option<Event<Held, Held>> {
        for _turn in 0..u64::MAX {
            let event = match self.ready.pop()? {
                Thing::Heard(body) => {
                    self.has_news = true;
                    Some(Event::Heard(body))
                }
                Thing::Ask(whole) => match self.held(whole) {
                    Some(held) => {
                        self.has_news = true;
                        self.tally.asked = self.tally.asked.saturating_add(1);
                        Some(Event::Asked(held))
                    }
                    None => None,
                },
                Thing::Call(whole) => match self.held(whole) {
                    Some(held) => {
                        self.tally.called = self.tally.called.saturating_add(1);
                        Some(Event::Called(held))
                    }
                    None => None,
                },
            };
            if event.is_some() {
                return event;
            }
        }
        None
    }

    fn held(&mut self, whole: Whole) -> Option<Held> {
        let Whole { place, serial, len } = whole;
        let mut line = self.table.take_one(place, serial)?;
        let request = match line.kind() {
            Kind::App => line.take_told(self.alloc),
            _ => line.take_message(self.alloc, len),
        };
        match request {
            Some(request) => {
                self.table.put(place, line);
                Some(Held::new(self.alloc, request, place, serial))
            }
            None => {
                self.end(line);
                None
            }
        }
    }

    // What was written goes to who asked.
    fn give_back(&mut self, held: &Held) {
        let (place, serial) = held.line();
        let Some(line) = self.table.take_one(place, serial) else {
            return;
        };
        let mut line = line;
        if line.answer(&self.about(), held.written()) {
            self.drive(place, line);
        } else {
            self.end(line);
        }
    }

    // What the desk wrote of a request of an application goes to it, or it waits.
    fn tell(&mut self, held: &Held) {
        let (place, serial) = held.line();
        let may_pause = self.table.paused() < MOST_PAUSED;
        let Some(line) = self.table.take_one(place, serial) else {
            return;
        };
        let mut line = line;
        if line.hear(&self.about(), held.written(), self.tally, may_pause) {
            self.drive(place, line);
        } else {
            self.end(line);
        }
    }

    // Asks the desk again for the applications that wait, where something was done or it is time for that.
    fn ask_again(&mut self) {
        let wait = if self.has_news { BREATH } else { AGAIN };
        if self.now.saturating_sub(self.again) < wait {
            return;
        }
        self.again = self.now;
        self.has_news = false;
        for place in 0..self.table.len() {
            if let Some(serial) = self.table.resume(place) {
                let whole = Whole {
                    place,
                    serial,
                    len: 0,
                };
                if !self.ready.push(Thing::Call(whole))
                    && let Some(line) = self.table.take(place)
                {
                    self.end(line);
                }
            }
        }
    }

    fn be_quiet(&mut self) -> Event<Held, Held> {
        self.quiet = self.now;
        self.was_quiet = true;
        Event::Quiet
    }

    // Whether what waits has its turn. Where the time is over it has not, but for once after it was quiet.
    fn has_turn(&self, is_over: bool) -> bool {
        !self.ready.is_empty() && (!is_over || self.was_quiet)
    }

    // Asks sockets, where it is time for that.
    fn breathe(&mut self, end: u64) {
        if self.ready.is_empty() {
            let wait = end.saturating_sub(self.now);
            if self.table.is_empty() && self.outbox.is_empty() {
                self.pump(wait);
            } else {
                self.pump(wait.min(if self.has_news { BREATH } else { AGAIN }));
            }
        } else if self.now.saturating_sub(self.asked) >= BREATH {
            self.pump(0);
        }
    }

    fn come(&mut self, wait: u64) -> Event<Held, Held> {
        self.tell_time();
        let end = self.now.saturating_add(wait);
        let is_due = self.now.saturating_sub(self.quiet) >= wait;
        for _turn in 0..u64::MAX {
            self.ask_again();
            self.breathe(if is_due { self.now } else { end });
            let is_over = is_due || self.now >= end;
            if self.has_turn(is_over)
                && let Some(event) = self.thing()
            {
                self.was_quiet = false;
                return event;
            }
            if is_over {
                return self.be_quiet();
            }
        }
        self.be_quiet()
    }
}

impl<R: Net + Files + Clock + Copy> Traffic for Edge<R> {
    type Peer = Held;

    type App = Held;

    ghost told = { λ _. record { coming = None; given = None; faults = 0; sound = false } };

    /// It never fails: a call of the system that does is tried again.
    fn next(&mut self, wait: u64) -> Result<Event<Held, Held>, Failed> {
        Ok(self.come(wait))
    }

    fn post(&mut self, packet: Packet) {
        if !self.peers.may_post(packet.address.as_slice()) {
            self.tally.barred = self.tally.barred.saturating_add(1);
            return;
        }
        if self.about().is_full || !self.outbox.push(packet) {
            self.tally.shed = self.tally.shed.saturating_add(1);
        }
    }

    fn reply(&mut self, conn: Held) {
        self.give_back(&conn);
    }

    fn answer(&mut self, conn: Held) {
        self.tell(&conn);
    }
}
