//! The rules that say who may reach a service, and whom it may reach.

use rm_edge::peers::read_network;
use rm_edge::{Peers, PeersError, read_peers};
use std::alloc::Global;
use std::net::IpAddr;

fn is_in(network: &str, address: &str) -> Option<bool> {
    let network = read_network(network)?;
    let address = address.parse::<IpAddr>().ok()?;
    Some(network.has(address))
}

// Private networks of RFC 1918, section 3, and addresses for documents of RFC 5737 and RFC 3849.
#[test]
fn networks(rt: HostRuntime) {
    assert_eq!(rt; is_in("172.16.0.0/12", "172.31.255.255"), Some(true));
    assert_eq!(rt; is_in("172.16.0.0/12", "172.32.0.0"), Some(false));
    assert_eq!(rt; is_in("10.0.0.0/8", "::ffff:10.9.8.7"), Some(true));
    assert_eq!(rt; is_in("192.0.2.7", "192.0.2.7"), Some(true));
    assert_eq!(rt; is_in("192.0.2.7", "192.0.2.6"), Some(false));
    assert_eq!(rt; is_in("0.0.0.0/0", "203.0.113.1"), Some(true));
    assert_eq!(rt; is_in("0.0.0.0/0", "2001:db8::1"), Some(false));
    assert_eq!(rt; is_in("2001:db8::/32", "2001:db8:ffff::1"), Some(true));
    assert_eq!(rt; is_in("2001:db8::/32", "2001:db9::"), Some(false));
    assert_eq!(rt; is_in("::/0", "2001:db8::1"), Some(true));
}

#[test]
fn words_that_are_no_networks(rt: HostRuntime) {
    assert!(rt; read_network("10.0.0.0/33").is_none());
    assert!(rt; read_network("10.0.0/8").is_none());
    assert!(rt; read_network("10.0.0.0/").is_none());
    assert!(rt; read_network("::/129").is_none());
    assert!(rt; read_network("::ffff:10.0.0.0/104").is_none());
    assert!(rt; read_network("localhost").is_none());
    assert!(rt; read_network("").is_none());
}

fn posts(alloc: Global, rules: &[u8], address: &[u8]) -> Option<bool> {
    match read_peers(alloc, rules) {
        Ok(peers) => Some(peers.may_post(address)),
        Err(_) => None,
    }
}

// A prefix ends where a host's name, a port or a part of a path does.
#[test]
fn addresses_behind_prefixes(rt: HostRuntime) {
    let alloc = rt.alloc();
    let host = b"# peers\n\nhttp://example.org\n".as_slice();
    assert_eq!(rt; posts(alloc, host, b"http://example.org"), Some(true));
    assert_eq!(rt; posts(alloc, host, b"http://example.org/in"), Some(true));
    assert_eq!(rt; posts(alloc, host, b"http://example.org?a"), Some(true));
    assert_eq!(rt;
        posts(alloc, host, b"http://example.org.example.net/"),
        Some(false)
    );
    assert_eq!(rt;
        posts(alloc, host, b"http://example.org@example.net/"),
        Some(false)
    );
    assert_eq!(rt; posts(alloc, host, b"http://example.org:81/"), Some(false));
    let path = b"http://example.net/\r\nhttp://example.org:81/in/\r\n".as_slice();
    assert_eq!(rt;
        posts(alloc, path, b"http://example.org:81/in/a"),
        Some(true)
    );
    assert_eq!(rt;
        posts(alloc, path, b"http://example.org:81/out"),
        Some(false)
    );
    assert_eq!(rt; posts(alloc, path, b"http://example.net/"), Some(true));
    assert_eq!(rt;
        posts(alloc, b"from 10.0.0.0/8\n", b"http://example.org/"),
        Some(true)
    );
}

fn error_of(alloc: Global, rules: &[u8]) -> Option<PeersError> {
    read_peers(alloc, rules).err()
}

#[test]
fn rules_that_are_refused(rt: HostRuntime) {
    let alloc = rt.alloc();
    assert!(rt; error_of(alloc, b"from\n") == Some(PeersError::NoPrefix { line: 1 }));
    assert!(rt; error_of(alloc, b"from here\n") == Some(PeersError::NoNetwork { line: 1 }));
    assert!(rt;
        error_of(alloc, b"# a\nhttps://example.org/\n") == Some(PeersError::NoPrefix { line: 2 })
    );
    assert!(rt;
        error_of(alloc, b"http://example.org/ http://example.net/\n")
            == Some(PeersError::NoPrefix { line: 1 })
    );
    assert!(rt; error_of(alloc, b"\xff\n") == Some(PeersError::NotText));
}

#[test]
fn everybody(rt: HostRuntime) {
    let alloc = rt.alloc();
    let peers = Peers::everybody(alloc);
    assert!(rt; peers.is_everybody());
    assert!(rt; peers.may_post(b"http://example.org/"));
    let some = read_peers(alloc, b"from 192.0.2.0/24\n");
    assert!(rt; some.is_ok_and(|peers| !peers.is_everybody()));
}
