//! What a service listens to, and the wait for all its sockets.

use crate::limits::{MOST_EVENTS, TOKEN_OF_APPS, TOKEN_OF_PEERS};
use crate::listen::{Listen, bind_apps, bind_peers};
use crate::pipe::Pipe;
use http_endpoint::link::Fault;
use mio::net::{TcpListener, TcpStream, UnixListener, UnixStream};
use mio::{Events, Interest, Poll, Token};
use std::alloc::Global;
use std::fs::Files;
use std::io;
use std::net::{IpAddr, Net, SocketAddr};
use std::time::Duration;

/// The listeners, and which sockets a wait told of.
pub struct Ears {
    poll: Poll,
    events: Events,
    peers: TcpListener,
    apps: Option<UnixListener>,
    own: SocketAddr,
    tokens: Vec<usize>,
}

impl Drop for Ears {
    fn drop(self) {
        let Ears {
            poll: _,
            events: _,
            peers: _,
            apps: _,
            own: _,
            tokens: _,
        } = self;
    }
}

// The outcome of a call of the system, with the call's name where it failed.
fn named<T: Drop>(call: &'static str, outcome: io::Result<T>) -> Result<T, Fault> {
    match outcome {
        Ok(value) => Ok(value),
        Err(error) => Err(Fault { call, error }),
    }
}

/// By what peers of one address are told: IPv4's whole, and of IPv6 the half that names a network. No network of IPv6
/// begins as IPv4's do here.
pub fn origin(ip: IpAddr) -> u64 {
    match ip.to_canonical() {
        IpAddr::V4(address) => {
            0xFFFF_0000_0000 | u64::from(u32::from_be_bytes(address.octets()))
        }
        IpAddr::V6(address) => {
            let [a, b, c, d, e, f, g, h, _, _, _, _, _, _, _, _] = address.octets();
            u64::from_be_bytes([a, b, c, d, e, f, g, h])
        }
    }
}

fn roomy_events(alloc: Global) -> io::Result<Events> {
    Ok(Events::with_capacity(alloc, MOST_EVENTS)?)
}

fn roomy_tokens(alloc: Global) -> io::Result<Vec<usize>> {
    Ok(Vec::with_capacity(alloc, MOST_EVENTS)?)
}

// The listener of peers, told of by a wait.
fn heard_peers<R: Net>(net: &R, poll: &Poll, listen: Listen) -> io::Result<TcpListener> {
    let mut peers = bind_peers(net, listen)?;
    let outcome = poll
        .registry()
        .register(&mut peers, Token(TOKEN_OF_PEERS), Interest::READABLE);
    match outcome {
        Ok(()) => Ok(peers),
        Err(error) => Err(error),
    }
}

// The listener of applications, told of by a wait.
fn heard_apps<R: Net + Files>(
    net: &R,
    poll: &Poll,
    socket: Option<&str>,
) -> io::Result<Option<UnixListener>> {
    let Some(path) = socket else {
        return Ok(None);
    };
    let mut apps = bind_apps(net, path)?;
    let outcome = poll
        .registry()
        .register(&mut apps, Token(TOKEN_OF_APPS), Interest::READABLE);
    match outcome {
        Ok(()) => Ok(Some(apps)),
        Err(error) => Err(error),
    }
}

impl Ears {
    /// Listens to peers, and to applications on a Unix socket where one is named.
    pub fn open<R: Net + Files>(
        net: &R,
        alloc: Global,
        listen: Listen,
        socket: Option<&str>,
    ) -> Result<Ears, Fault> {
        let events = named("events", roomy_events(alloc))?;
        let tokens = named("events", roomy_tokens(alloc))?;
        let poll = named("epoll", Poll::new(net))?;
        let peers = named("listen", heard_peers(net, &poll, listen))?;
        let own = named("listen", peers.local_addr())?;
        let apps = named("socket", heard_apps(net, &poll, socket))?;
        Ok(Ears {
            poll,
            events,
            peers,
            apps,
            own,
            tokens,
        })
    }

    /// The address and port at which peers are listened to.
    pub fn own(&self) -> SocketAddr {
        self.own
    }

    /// From now on a wait tells of a connection under this token: whether it could be so.
    pub fn register(&self, pipe: &mut Pipe, token: usize) -> bool {
        pipe.register(self.poll.registry(), token).is_ok()
    }

    /// Waits for so many milliseconds at most until sockets are ready, and notes which. Whether it could wait.
    pub fn wait(&mut self, millis: u64) -> bool {
        let outcome = self
            .poll
            .poll(&mut self.events, Some(Duration::from_millis(millis)));
        self.tokens.clear();
        for event in &self.events {
            let _ = self.tokens.push(event.token().0);
        }
        outcome.is_ok()
    }

    /// How many sockets the last wait told of.
    pub fn len(&self) -> usize {
        self.tokens.len()
    }

    /// Whether it told of none.
    pub fn is_empty(&self) -> bool {
        self.tokens.is_empty()
    }

    /// The token of one of them.
    pub fn token(&self, at: usize) -> Option<usize> {
        self.tokens.get(at).copied()
    }

    /// A connection that a peer dialled, and the address that it came from, if one waits.
    pub fn take_peer(&self) -> Option<(TcpStream, IpAddr)> {
        match self.peers.accept() {
            Ok((stream, from)) => Some((stream, from.ip())),
            Err(_) => None,
        }
    }

    /// A connection of an application, if one waits.
    pub fn take_app(&self) -> Option<UnixStream> {
        let Some(apps) = &self.apps else {
            return None;
        };
        match apps.accept() {
            Ok((stream, _)) => Some(stream),
            Err(_) => None,
        }
    }
}
