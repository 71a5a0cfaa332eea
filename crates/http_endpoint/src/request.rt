//! Requests, read from a connection (RFC 9112).
ghost use Rattle.std.specs.Prelude.{◌≡◌, ◌≤◌, ◌+◌, ℕ, ◌⊎◌, if◌then◌else◌, List, Some, Ok, Err, IfErr, OnOk, true, []};
ghost use Rattle.std.specs.Io.KnownBytes.{Appends};
ghost use Rattle.rm_base.specs.Count.{Rose};
ghost use Rattle.rm_base.specs.Outside.{AppendsFront, Lasts};
ghost use Rattle.http_endpoint.specs.Limits.{part_bytes};
ghost use Rattle.http_endpoint.specs.Part.{IfTold};
ghost use Rattle.http_endpoint.specs.Heads.{IsRefusal};
ghost use Rattle.http_endpoint.specs.Messages.{continue_text, IsRequest, IsRequestAs};
ghost use Rattle.http_endpoint.specs.Kept.{KeepsSink};
ghost use Rattle.http_endpoint.specs.Taken.{most_taken};

use crate::body::{Framing, read_body};
use crate::error::HttpError;
use crate::heads::{HeadOfRequest, verdict};
use crate::input::Input;
use crate::media::Media;
use crate::part::read_part;
use rm_base::{Blob, Connection, write_all};
use std::alloc::Global;

// Tells the peer to send the body, where it waits for that.
fn invite<C: Connection>(conn: &mut C, expects: bool) -> Result<(), HttpError>
    ensures said { OnOk result (Appends (C.Source.told conn.old).held (C.Source.told conn.new).held
        (if expects then continue_text else [])) }
    ensures front { AppendsFront (C.Source.told conn.old).held (C.Source.told conn.new).held continue_text }
    ensures keeps { KeepsSink result (C.Source.told conn.old) (C.Source.told conn.new) }
{
    if expects {
        write_all(conn, b"HTTP/1.1 100 Continue\r\n\r\n")?;
    }
    Ok(())
}

/// Reads one request of SOAP 1.2, and gives its body. A peer that waits to be told so is told to send it. Of an error
/// other than want of memory or a fault it is exact which one comes, by the bytes that the connection has left, however
/// they arrive. RFC 9112, sections 2 to 7; RFC 9110, section 10.1.1.
pub fn read_request<C: Connection>(alloc: Global, conn: &mut C) -> Result<Blob, HttpError>
    ensures answer { (all : List ℕ) → (C.Source.told conn.old).left ≡ Some all
        → IfTold result ((said : List ℕ) × Appends (C.Source.told conn.old).held (C.Source.told conn.new).held said
        × IsRequest result said all) }
    ensures stops { (C.Source.told conn.new).taken
        ≤ (C.Source.told conn.old).taken + (part_bytes + 1 + most_taken Framing.Chunked) }
    ensures front { AppendsFront (C.Source.told conn.old).held (C.Source.told conn.new).held continue_text }
    ensures read_fault { result ≡ Err HttpError.ReadFault
        → Rose (C.Source.told conn.old).faults (C.Source.told conn.new).faults }
    ensures write_fault { result ≡ Err HttpError.WriteFault
        → Rose (C.Source.told conn.old).faults (C.Source.told conn.new).faults }
    ensures refusal { IfErr result IsRefusal }
    ensures lasts { Lasts (C.Source.told conn.old) (C.Source.told conn.new) }
{
    read_request_as(alloc, conn, Media::Soap12)
}

/// Reads one request of this media type, and gives its body, as `read_request` does.
/// - `answer`: the body behind a head of at most 16384 bytes and 64 fields, by its length or in chunks, or the first
///   reason why there is none: a bad head, another method (405), another transfer coding (501), a content coding (415),
///   another media type (415), and then the body's. A body of more than 2097152 bytes is TooLong.
/// - `front`: `HTTP/1.1 100 Continue` is written exactly for a request that expects it and is not refused by its head,
///   and nothing else is; some first bytes of it where a fault or want of memory ended the call.
/// - `stops`: at most 16385 bytes are taken and what `most_taken` has for a body in chunks; a body that isn't in chunks
///   takes at most 2097153 bytes.
/// - ReadFault, WriteFault: only where the connection's count of faults rose (`read_fault`, `write_fault`).
/// - `lasts`: on a connection that tells that it is sound the count stays.
pub fn read_request_as<C: Connection>(
    alloc: Global,
    conn: &mut C,
    media: Media,
) -> Result<Blob, HttpError>
    ensures answer { (all : List ℕ) → (C.Source.told conn.old).left ≡ Some all
        → IfTold result ((said : List ℕ) × Appends (C.Source.told conn.old).held (C.Source.told conn.new).held said
        × IsRequestAs media result said all) }
    ensures stops { (C.Source.told conn.new).taken
        ≤ (C.Source.told conn.old).taken + (part_bytes + 1 + most_taken Framing.Chunked) }
    ensures front { AppendsFront (C.Source.told conn.old).held (C.Source.told conn.new).held continue_text }
    ensures read_fault { result ≡ Err HttpError.ReadFault
        → Rose (C.Source.told conn.old).faults (C.Source.told conn.new).faults }
    ensures write_fault { result ≡ Err HttpError.WriteFault
        → Rose (C.Source.told conn.old).faults (C.Source.told conn.new).faults }
    ensures refusal { IfErr result IsRefusal }
    ensures lasts { Lasts (C.Source.told conn.old) (C.Source.told conn.new) }
{
    let mut input = Input::new(alloc);
    let facts = read_part::<C, HeadOfRequest>(alloc, conn, &mut input)?;
    let framing = verdict(media, facts)?;
    invite(conn, facts.known.expect_continue)?;
    read_body(alloc, conn, &mut input, framing)
}
