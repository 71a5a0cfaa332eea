//! What the fields of a head say of the body.
ghost use Rattle.std.specs.Prelude.{◌≡◌, length, take, drop, map, All};
ghost use Rattle.httparse.specs.Spans.{IsHeaderWithin, header_bytes};
ghost use Rattle.http_endpoint.specs.Fields.{ends_type, is_type_of, is_identity, is_soap, is_plain};

use crate::media::{Media, type_name};
use http1::text::eq_ignore_case;
use httparse::is_space_or_tab;
use httparse::spans::HeaderSpan;

// Whether only parameters follow, or nothing.
fn ends_type(bytes: &[u8]) -> bool
    ensures { result ≡ ends_type bytes.now }
{
    let mut rest = bytes;
    while let [first, more @ ..] = rest {
        if *first == b';' {
            return true;
        }
        if !is_space_or_tab(*first) {
            return false;
        }
        rest = more;
    }
    true
}

fn is_type_of(media: Media, value: &[u8]) -> bool
    ensures { result ≡ is_type_of media value.now }
{
    let name = type_name(media);
    let (front, rest) = value.split_at(name.len().min(value.len()));
    eq_ignore_case(front, name) && ends_type(rest)
}

fn is_identity(value: &[u8]) -> bool
    ensures { result ≡ is_identity value.now }
{
    value.is_empty() || eq_ignore_case(value, b"identity")
}

/// Whether there is a media type, and none but this one.
pub(crate) fn is_soap(media: Media, bytes: &[u8], headers: &[HeaderSpan]) -> bool
    requires { All (IsHeaderWithin (length bytes.now)) headers.now }
    ensures { result ≡ is_soap media (map (header_bytes bytes.now) headers.now) }
{
    let mut has_type = false;
    let mut all_soap = true;
    for header in headers {
        let name = header.name.of(bytes);
        let value = header.value.of(bytes);
        let is_type = eq_ignore_case(name, b"content-type");
        has_type |= is_type;
        all_soap &= !is_type | is_type_of(media, value);
    }
    has_type & all_soap
}

/// Whether there is no content coding but identity.
pub(crate) fn is_plain(bytes: &[u8], headers: &[HeaderSpan]) -> bool
    requires { All (IsHeaderWithin (length bytes.now)) headers.now }
    ensures { result ≡ is_plain (map (header_bytes bytes.now) headers.now) }
{
    let mut all_plain = true;
    for header in headers {
        let name = header.name.of(bytes);
        let value = header.value.of(bytes);
        all_plain &= !eq_ignore_case(name, b"content-encoding") | is_identity(value);
    }
    all_plain
}
