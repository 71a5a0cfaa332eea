//! One packet, posted to where its address says.
ghost use Rattle.std.specs.Prelude.{◌≡◌, IfOk, OnErr};
ghost use Rattle.http_endpoint.specs.Targets.{target_of};
ghost use Rattle.http_endpoint.specs.Texts.{request_text_as};
ghost use Rattle.rm_base.specs.Outside.{AppendsFront};
ghost use Rattle.http_endpoint.specs.Link.Lines.{line_of};
ghost use Rattle.http_endpoint.specs.Link.Posts.{Ends, IsBegun, IsBegunAs, IsBegunTo, IsPost, IsPostAs, IsPostTo};
ghost use Rattle.http_endpoint.specs.Link.Posts.{Writes};
ghost use Rattle.http_endpoint.specs.Link.Posts.{ended_by};

use crate::link::link::Link;
use crate::{HttpError, Media, Response, Target, read_response, read_target, write_request_as};
use rm_base::{Blob, Memory, Uri};
use std::alloc::Global;

/// What became of a packet: the body of the response, nothing, or no connection was made.
#[derive(Debug, Drop)]
pub enum Fate {
    Answered(Blob),
    Missed,
    Undialled,
}

/// Posts bytes of SOAP 1.2 to an address, on a connection of their own, and reads the response. Where memory is wanting
/// the bytes may have been sent, all or some.
/// - `posts`: a packet whose address is no URL of http with a host is missed, and the link is as before; for any other
///   one connection is asked for, at the host and port of its address. What is written on it is the text of the request
///   with this packet: whole where there is a response and where the connection never fails, else some first bytes. On
///   a connection that tells its bytes, a body that is answered is that of the response which they are.
/// - Undialled: exactly where the address has a target and no connection was made; on a sound link none was left
///   (`posts`).
/// - Missed: exactly where the address has no target, or where an exchange gave no response (`posts`).
pub fn post<L: Link>(
    alloc: Global,
    link: &mut L,
    address: &Uri,
    bytes: &[u8],
) -> Result<Fate, Memory>
    ensures posts { IfOk result (IsPost (L.told link.old) (L.told link.new) (target_of address.now) bytes.now) }
    ensures begins { OnErr result (IsBegun (L.told link.old) (L.told link.new) (target_of address.now) bytes.now) }
{
    post_as(alloc, link, address, bytes, Media::Soap12)
}

/// Posts bytes of this media type, as `post` does.
pub fn post_as<L: Link>(
    alloc: Global,
    link: &mut L,
    address: &Uri,
    bytes: &[u8],
    media: Media,
) -> Result<Fate, Memory>
    ensures posts { IfOk result (IsPostAs media (L.told link.old) (L.told link.new) (target_of address.now) bytes.now) }
    ensures begins { OnErr result (IsBegunAs media (L.told link.old) (L.told link.new)
        (target_of address.now) bytes.now) }
{
    match read_target(alloc, address)? {
        Some(target) => post_to(alloc, link, &target, bytes, media),
        None => Ok(Fate::Missed),
    }
}

// Posts bytes to a target.
fn post_to<L: Link>(
    alloc: Global,
    link: &mut L,
    target: &Target,
    bytes: &[u8],
    media: Media,
) -> Result<Fate, Memory>
    ensures posts { IfOk result (IsPostTo media (L.told link.old) (L.told link.new) target.now bytes.now) }
    ensures begins { OnErr result (IsBegunTo media (L.told link.old) (L.told link.new) target.now bytes.now) }
{
    match link.dial(target.host.as_slice(), target.port) {
        Ok(conn) => {
            let (conn, fate) = exchange::<L>(alloc, conn, target, bytes, media);
            link.hang_up(conn);
            fate
        }
        Err(_) => Ok(Fate::Undialled),
    }
}

// Sends a request, and then reads the response.
fn exchange<L: Link>(
    alloc: Global,
    mut conn: L::Asking,
    target: &Target,
    bytes: &[u8],
    media: Media,
) -> (L::Hearing, Result<Fate, Memory>)
    ensures ends { IfOk result.1 (Ends (line_of (L.Asking.told conn))) }
    ensures writes { IfOk result.1 (Writes (line_of (L.Asking.told conn)) (request_text_as media target.now bytes.now)
        (L.Hearing.told result.0).held) }
    ensures begins { OnErr result.1 (AppendsFront (L.Asking.told conn).held (L.Hearing.told result.0).held
        (request_text_as media target.now bytes.now)) }
{
    let wrote = write_request_as(alloc, &mut conn, target, bytes, media);
    let mut conn = L::asked(conn);
    match wrote {
        Ok(()) => {
            let fate = ended(read_response(alloc, &mut conn));
            (conn, fate)
        }
        Err(HttpError::Memory) => (conn, Err(Memory)),
        Err(_) => (conn, Ok(Fate::Missed)),
    }
}

// What a response that was read makes of a packet.
fn ended(read: Result<Response, HttpError>) -> Result<Fate, Memory>
    ensures { result ≡ ended_by read }
{
    match read {
        Ok(response) => {
            let Response { body, .. } = response;
            Ok(Fate::Answered(body))
        }
        Err(HttpError::Memory) => Err(Memory),
        Err(_) => Ok(Fate::Missed),
    }
}
