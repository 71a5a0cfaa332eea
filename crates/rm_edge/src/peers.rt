//! Who may reach a service, and whom it may reach.
//!
//! The text that says so has a rule on each line:
//! - `from NETWORK`: a network, as `10.0.0.0/8`, `fd00::/8` or `192.0.2.7`, whose machines may connect;
//! - a prefix of an address, as `http://example.org/in/`, to which packets may be posted.
//!
//! Where no line has `from`, every machine may connect, and where no line has a prefix, every address may be posted to.
//! A line that is empty or begins with `#` says nothing.
ghost use Rattle.std.specs.Prelude.{◌≡◌};
ghost use Rattle.rm_edge.specs.declared.peers.PeersError.TheVariants.{Memory as WantsMemory};

use rm_base::{Blob, Items, Memory, ReadError, StdSource, read_up_to};
use std::alloc::Global;
use std::fs::{File, Files};
use std::io::ErrorKind;
use std::net::IpAddr;
use std::str;
use thiserror::Error;

/// The most bytes of a text of rules.
pub const RULES_BYTES: usize = 65536;

/// Why rules were not read. Lines are counted from 1.
#[derive(Clone, Copy, Debug, PartialEq, Eq, Error)]
pub enum PeersError {
    #[error("out of memory")]
    Memory,
    #[error("it can't be read")]
    Unread,
    #[error("it has more than 65536 bytes")]
    TooLong,
    #[error("it is not UTF-8")]
    NotText,
    #[error("line {line} has no network behind `from`")]
    NoNetwork { line: u64 },
    #[error("line {line} has no prefix of an address that begins with `http://`")]
    NoPrefix { line: u64 },
}

impl From<Memory> for PeersError {
    ghost from_gives = { λ _ e. e ≡ WantsMemory };

    fn from(_memory: Memory) -> PeersError {
        PeersError::Memory
    }
}

/// The addresses whose first bits are those of one address.
#[derive(Clone, Copy, Debug, PartialEq, Eq)]
pub struct Network {
    address: IpAddr,
    bits: u32,
}

// The bits of an address, and how many they are.
fn bits_of(address: IpAddr) -> (u128, u32) {
    match address {
        IpAddr::V4(address) => (u128::from(address.to_bits()), 32),
        IpAddr::V6(address) => (address.to_bits(), 128),
    }
}

/// The network that a word is: an address in digits, and behind `/` how many of its bits are those of the network, or
/// all of them. An address of IPv4 isn't written as one of IPv6.
pub fn read_network(word: &str) -> Option<Network> {
    let (address, bits) = match word.split_once('/') {
        Some((address, bits)) => (address, Some(bits)),
        None => (word, None),
    };
    let Ok(address) = address.parse::<IpAddr>() else {
        return None;
    };
    let (_, most) = bits_of(address);
    let bits = match bits {
        Some(bits) => bits.parse::<u32>().ok()?,
        None => most,
    };
    if bits > most || address.to_canonical() != address {
        return None;
    }
    Some(Network { address, bits })
}

impl Network {
    /// Whether it has an address; one of IPv4 is the same where it is written as one of IPv6.
    pub fn has(&self, address: IpAddr) -> bool {
        let (front, most) = bits_of(self.address);
        let (other, count) = bits_of(address.to_canonical());
        if most != count {
            return false;
        }
        match (front ^ other).checked_shr(most.saturating_sub(self.bits)) {
            Some(rest) => rest == 0,
            None => true,
        }
    }
}

// Whether an address lies behind a prefix: a host's name, a port and a part of a path end where the prefix ends.
fn is_behind(address: &[u8], prefix: &[u8]) -> bool {
    match address.strip_prefix(prefix) {
        Some(rest) => match rest {
            [] => true,
            [first, ..] => prefix.ends_with(b"/") || matches!(first, b'/' | b'?' | b'#'),
        },
        None => false,
    }
}

/// Who may reach a service, and whom it may reach.
#[derive(Debug, Drop)]
pub struct Peers {
    networks: Vec<Network>,
    prefixes: Items<Blob>,
}

impl Peers {
    /// Everybody may reach it, and it everybody.
    pub fn everybody(alloc: Global) -> Peers {
        Peers {
            networks: Vec::new(alloc),
            prefixes: Items::new(alloc),
        }
    }

    /// Whether every machine may connect.
    pub fn is_everybody(&self) -> bool {
        self.networks.is_empty()
    }

    /// Whether a machine with this address may connect.
    pub fn may_come(&self, from: IpAddr) -> bool {
        self.networks.is_empty() || self.networks.iter().any(|network| network.has(from))
    }

    /// Whether packets may be posted to an address. It is compared byte for byte.
    pub fn may_post(&self, address: &[u8]) -> bool {
        self.prefixes.is_empty()
            || self
                .prefixes
                .as_slice()
                .iter()
                .any(|prefix| is_behind(address, prefix.as_slice()))
    }

    // Takes in a line of the rules.
    fn take(&mut self, alloc: Global, rule: &str, line: u64) -> Result<(), PeersError> {
        if rule.is_empty() || rule.starts_with('#') {
            return Ok(());
        }
        if let Some(word) = rule.strip_prefix("from ") {
            let Some(network) = read_network(word.trim()) else {
                return Err(PeersError::NoNetwork { line });
            };
            return match self.networks.push(network) {
                Ok(()) => Ok(()),
                Err(_) => Err(PeersError::Memory),
            };
        }
        if !rule.starts_with("http://") || rule.contains(' ') {
            return Err(PeersError::NoPrefix { line });
        }
        self.prefixes
            .push(Blob::from_slice(alloc, rule.as_bytes())?)?;
        Ok(())
    }
}

/// The rules that a text has, a line each.
pub fn read_peers(alloc: Global, text: &[u8]) -> Result<Peers, PeersError> {
    if text.len() > RULES_BYTES {
        return Err(PeersError::TooLong);
    }
    let Ok(text) = str::from_utf8(text) else {
        return Err(PeersError::NotText);
    };
    let mut peers = Peers::everybody(alloc);
    let mut line: u64 = 0;
    for rule in text.lines() {
        line = line.saturating_add(1);
        peers.take(alloc, rule.trim(), line)?;
    }
    Ok(peers)
}

/// The rules that a file has: everybody where there is none.
pub fn peers_in<R: Files<File = File>>(
    files: &R,
    alloc: Global,
    path: &str,
) -> Result<Peers, PeersError> {
    let file = match File::open(files, path) {
        Ok(file) => file,
        Err(error) => {
            return if error.kind() == ErrorKind::NotFound {
                Ok(Peers::everybody(alloc))
            } else {
                Err(PeersError::Unread)
            };
        }
    };
    let mut source = StdSource::new(file);
    match read_up_to(alloc, &mut source, RULES_BYTES) {
        Ok(text) => read_peers(alloc, text.as_slice()),
        Err(ReadError::TooLong) => Err(PeersError::TooLong),
        Err(ReadError::Failed) => Err(PeersError::Unread),
        Err(ReadError::Memory) => Err(PeersError::Memory),
    }
}
