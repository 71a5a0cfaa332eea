//! Where a request to an address goes.
ghost use Rattle.std.specs.Prelude.{◌≡◌, ◌++◌, IfOk, OnOk};
ghost use Rattle.std.specs.Option.{option_copied};
ghost use Rattle.http_endpoint.specs.Targets.{query_text, target_of_url, target_of, has_no_room as has_no_room_by};

use rm_base::{Blob, Memory, Uri};
use std::alloc::Global;
use std::str;
use url::{ParseError, Url};

/// The host and the port to dial, and the path with the query.
#[derive(Debug, Drop)]
pub struct Target {
    pub host: Blob,
    pub port: u16,
    pub path: Blob,
}

fn push_query(path: &mut Blob, query: Option<&str>) -> Result<(), Memory>
    ensures { OnOk result (path.new ≡ path.old ++ query_text (option_copied query.entry)) }
{
    match query {
        None => Ok(()),
        Some(text) => {
            path.push_all(b"?")?;
            path.push_all(text.as_bytes())
        }
    }
}

// The target of a URL, where it is one of http with a host.
fn target_of_url(alloc: Global, url: &Url) -> Result<Option<Target>, Memory>
    ensures { IfOk result (λ target. target ≡ target_of_url url.now) }
{
    if url.scheme() != "http" {
        return Ok(None);
    }
    let Some(host) = url.host_str() else {
        return Ok(None);
    };
    let host = Blob::from_slice(alloc, host.as_bytes())?;
    let mut path = Blob::from_slice(alloc, url.path().as_bytes())?;
    push_query(&mut path, url.query())?;
    Ok(Some(Target {
        host,
        port: url.port().unwrap_or(80),
        path,
    }))
}

/// The target of an address, or None exactly where it is no URL of the scheme http with a host (URL Standard). A URL
/// that comes to 4 GB, as none of an address does, counts as want of memory. It has the host as it is written, the port
/// or 80, and the path with the query.
pub fn read_target(alloc: Global, address: &Uri) -> Result<Option<Target>, Memory>
    ensures { IfOk result (λ target. target ≡ target_of address.now) }
{
    let Ok(text) = str::from_utf8(address.as_slice()) else {
        unreachable!()
    };
    match Url::parse(alloc, text) {
        Ok(url) => target_of_url(alloc, &url),
        Err(error) => {
            if has_no_room(error) {
                return Err(Memory);
            }
            Ok(None)
        }
    }
}

// Whether a parse had no room, and so tells nothing of its text.
fn has_no_room(error: ParseError) -> bool
    ensures { result ≡ has_no_room_by error }
{
    match error {
        ParseError::OutOfMemory => true,
        ParseError::Overflow => true,
        _ => false,
    }
}
