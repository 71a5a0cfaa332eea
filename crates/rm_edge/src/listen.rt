//! Where a service listens.

use mio::net::{TcpListener, UnixListener};
use std::fs::{self, Files, Permissions};
use std::net::{Ipv4Addr, Ipv6Addr, Net, SocketAddr};
use std::os::unix::fs::{FileTypeExt, PermissionsExt};
use std::{io, str};

/// A port of every address of the machine, or one address and port.
#[derive(Clone, Copy, Debug, PartialEq, Eq)]
pub enum Listen {
    Port(u16),
    Address(SocketAddr),
}

/// Where to listen: `PORT`, or `ADDRESS:PORT` with an address in digits, one of IPv6 in brackets.
pub fn read_listen(text: &[u8]) -> Option<Listen> {
    let Ok(text) = str::from_utf8(text) else {
        return None;
    };
    if let Ok(port) = text.parse::<u16>() {
        return Some(Listen::Port(port));
    }
    match text.parse::<SocketAddr>() {
        Ok(address) => Some(Listen::Address(address)),
        Err(_) => None,
    }
}

/// Takes connections of peers; to every address of the machine by IPv6 first, where it has that.
pub fn bind_peers<R: Net>(net: &R, listen: Listen) -> io::Result<TcpListener> {
    match listen {
        Listen::Address(address) => TcpListener::bind(net, address),
        Listen::Port(port) => {
            let both = SocketAddr::from((Ipv6Addr::UNSPECIFIED, port));
            match TcpListener::bind(net, both) {
                Ok(listener) => Ok(listener),
                Err(_) => TcpListener::bind(net, SocketAddr::from((Ipv4Addr::UNSPECIFIED, port))),
            }
        }
    }
}

// Removes the socket that a process before left at a path. What is no socket stays.
fn clear<R: Files>(files: &R, path: &str) {
    if let Ok(found) = fs::symlink_metadata(files, path)
        && found.file_type().is_socket()
    {
        let _ = fs::remove_file(files, path);
    }
}

/// Takes connections of applications at a path, of this user alone: whoever came before that was so is let go.
pub fn bind_apps<R: Net + Files>(rt: &R, path: &str) -> io::Result<UnixListener> {
    clear(rt, path);
    let listener = UnixListener::bind(rt, path)?;
    fs::set_permissions(rt, path, Permissions::from_mode(0o600))?;
    for _turn in 0..u16::MAX {
        if listener.accept().is_err() {
            break;
        }
    }
    Ok(listener)
}
