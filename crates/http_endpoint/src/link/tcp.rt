//! Connections over TCP: the trusted edge of `Link`, over the sockets of std. It tells nothing of what comes and goes.
ghost use Rattle.std.specs.Prelude.{◌≡◌, ◌≤◌, None, false, OnOk, OnErr};
ghost use Rattle.rm_base.specs.Count.{Rose};
ghost use Rattle.rm_base.specs.Outside.{untold};

use crate::link::fault::Fault;
use crate::link::link::Link;
use rm_base::{Connection, Failed, Sink, SinkError, Source};
use std::io::{self, Read, Write};
use std::net::{
    Ipv4Addr, Ipv6Addr, Net, Shutdown, SocketAddr, TcpListener, TcpStream, ToSocketAddrs,
};
use std::str;
use std::time::{Clock, Duration, Instant};

/// How many seconds a connection waits for its peer: for the first answer, and in each read and write.
const PATIENCE: u64 = 30;

/// How many seconds at most a connection that was taken takes in what still comes, once its answer is written.
const LINGER: u64 = 5;

/// How many milliseconds of silence end that.
const SILENCE: u64 = 500;

/// How many pieces of 8192 bytes at most it takes in.
const PIECES: usize = 2048;

/// A connection over TCP. It tells no content, and never answers Memory.
pub struct TcpConn<C: Clock + Drop> {
    stream: TcpStream,
    clock: C,
    was_accepted: bool,
    faults: u64,
    taken: u64,
}

/// A connection that came ends with all that was written, and with what still comes read, for a while: where bytes are
/// left unread the system tells the peer of an error, and the peer may lose the answer.
impl<C: Clock + Drop> Drop for TcpConn<C> {
    fn drop(self) {
        if self.was_accepted {
            let _ = linger(&self.stream, &self.clock);
        }
        let TcpConn {
            stream: _,
            clock: _,
            was_accepted: _,
            faults: _,
            taken: _,
        } = self;
    }
}

// Says that nothing more is written, and reads what comes until the peer says so too.
fn linger<C: Clock>(stream: &TcpStream, clock: &C) -> io::Result<()> {
    stream.shutdown(Shutdown::Write)?;
    stream.set_read_timeout(Some(Duration::from_millis(SILENCE)))?;
    let start = Instant::now(clock)?;
    let mut reader = stream;
    let mut piece = [0; 8192];
    for _turn in 0..PIECES {
        let count = reader.read(&mut piece)?;
        if count == 0 || start.elapsed(clock)? > Duration::from_secs(LINGER) {
            break;
        }
    }
    Ok(())
}

impl<C: Clock + Drop> Source for TcpConn<C> {
    ghost told = { λ c. untold c.taken c.faults };

    fn read(&mut self, buf: &mut [u8]) -> Result<usize, Failed> {
        match self.stream.read(buf) {
            Ok(count) => {
                self.taken = self.taken.saturating_add(count as u64);
                Ok(count)
            }
            Err(_) => {
                self.faults = self.faults.saturating_add(1);
                Err(Failed)
            }
        }
    }
}

impl<C: Clock + Drop> Sink for TcpConn<C> {
    ghost told = { λ c. untold c.taken c.faults };

    ghost wants_memory = { false };

    fn write(&mut self, bytes: &[u8]) -> Result<usize, SinkError> {
        match self.stream.write(bytes) {
            Ok(count) => {
                if count == 0 && !bytes.is_empty() {
                    self.faults = self.faults.saturating_add(1);
                }
                Ok(count)
            }
            Err(_) => {
                self.faults = self.faults.saturating_add(1);
                Err(SinkError::Failed)
            }
        }
    }
}

impl<C: Clock + Drop> Connection for TcpConn<C> {
    ghost use Rattle.std.specs.Prelude.{refl};

    ghost one = { λ c. refl };
}

/// The network of the system. It listens on every address of the machine, IPv6 first.
#[derive(Drop)]
pub struct TcpLink<R: Net> {
    net: R,
    listener: Option<R::Listener>,
    faults: u64,
    last: Option<Fault>,
}

impl<R: Net<Listener = TcpListener, Stream = TcpStream> + Clock + Copy> TcpLink<R> {
    /// A link over this network. It makes no call yet.
    pub fn new(net: R) -> Self
        ensures { result.faults ≡ 0 }
    {
        TcpLink {
            net,
            listener: None,
            faults: 0,
            last: None,
        }
    }

    /// What failed last, where a call failed.
    pub fn last_fault(&self) -> Option<&Fault> {
        self.last.as_ref()
    }
}

// Counts a call that failed, and keeps why.
fn counted<T: Drop>(
    faults: &mut u64,
    last: &mut Option<Fault>,
    call: &'static str,
    outcome: io::Result<T>,
) -> Result<T, Failed>
    ensures never_falls { faults.old ≤ faults.new }
    ensures failed { OnErr result (Rose faults.old faults.new) }
{
    match outcome {
        Ok(value) => Ok(value),
        Err(error) => {
            *faults = faults.saturating_add(1);
            *last = Some(Fault { call, error });
            Err(Failed)
        }
    }
}

// Takes connections to a port of every address that the machine has.
fn bound<R: Net<Listener = TcpListener, Stream = TcpStream>>(
    net: &R,
    port: u16,
) -> io::Result<TcpListener> {
    let places = [
        SocketAddr::from((Ipv6Addr::UNSPECIFIED, port)),
        SocketAddr::from((Ipv4Addr::UNSPECIFIED, port)),
    ];
    TcpListener::bind(net, places.as_slice())
}

// A stream as a connection, which waits for no peer for ever.
fn patient<C: Clock + Drop>(
    stream: TcpStream,
    clock: C,
    was_accepted: bool,
) -> io::Result<TcpConn<C>> {
    stream.set_read_timeout(Some(Duration::from_secs(PATIENCE)))?;
    stream.set_write_timeout(Some(Duration::from_secs(PATIENCE)))?;
    stream.set_nodelay(true)?;
    Ok(TcpConn {
        stream,
        clock,
        was_accepted,
        faults: 0,
        taken: 0,
    })
}

fn accepted<C: Clock + Drop>(listener: &Option<TcpListener>, clock: C) -> io::Result<TcpConn<C>> {
    match listener {
        Some(listener) => {
            let (stream, _) = listener.accept()?;
            patient(stream, clock, true)
        }
        None => Err(io::Error::from(io::ErrorKind::NotConnected)),
    }
}

// A host as it is looked up: an address of IPv6 stands in brackets in a URL.
fn bare(host: &str) -> &str {
    match host.strip_prefix('[') {
        Some(rest) => match rest.strip_suffix(']') {
            Some(inner) => inner,
            None => host,
        },
        None => host,
    }
}

fn dialled<R: Net<Listener = TcpListener, Stream = TcpStream> + Clock + Copy>(
    net: R,
    host: &[u8],
    port: u16,
) -> io::Result<TcpConn<R>> {
    match str::from_utf8(host) {
        Ok(host) => patient(reached(&net, bare(host), port)?, net, false),
        Err(_) => Err(io::Error::from(io::ErrorKind::InvalidInput)),
    }
}

// Tries each address of a host in turn, and answers the last error where none is reached.
fn reached<R: Net<Listener = TcpListener, Stream = TcpStream>>(
    net: &R,
    host: &str,
    port: u16,
) -> io::Result<TcpStream> {
    let mut last = io::Error::from(io::ErrorKind::NotFound);
    for address in (host, port).to_socket_addrs(net)? {
        match TcpStream::connect_timeout(net, &address, Duration::from_secs(PATIENCE)) {
            Ok(stream) => return Ok(stream),
            Err(error) => last = error,
        }
    }
    Err(last)
}

impl<R: Net<Listener = TcpListener, Stream = TcpStream> + Clock + Copy> Link for TcpLink<R> {
    type Conn = TcpConn<R>;

    type Asking = TcpConn<R>;

    type Hearing = TcpConn<R>;

    ghost told = { λ l. record { coming = None; past = None; faults = l.faults; sound = false } };

    fn listen(&mut self, port: u16) -> Result<(), Failed> {
        let outcome = bound(&self.net, port);
        let listener = counted(&mut self.faults, &mut self.last, "listen", outcome)?;
        self.listener = Some(listener);
        Ok(())
    }

    fn accept(&mut self) -> Result<TcpConn<R>, Failed> {
        let outcome = accepted(&self.listener, self.net);
        counted(&mut self.faults, &mut self.last, "accept", outcome)
    }

    fn dial(&mut self, host: &[u8], port: u16) -> Result<TcpConn<R>, Failed> {
        let outcome = dialled(self.net, host, port);
        counted(&mut self.faults, &mut self.last, "connect", outcome)
    }

    fn asked(conn: TcpConn<R>) -> TcpConn<R> {
        conn
    }

    fn hang_up(&mut self, conn: TcpConn<R>) {
        drop(conn);
    }
}
