//! The versions of SOAP, by the media type that a message of each has.
ghost use Rattle.std.specs.Prelude.{◌≡◌};
ghost use Rattle.http_endpoint.specs.Medias.{type_name};

/// The media type of a message: that of SOAP 1.2 (RFC 3902), or that of SOAP 1.1 (SOAP 1.1, section 6).
#[derive(Clone, Copy, Debug, PartialEq, Eq)]
pub enum Media {
    Soap12,
    Soap11,
}

// Its name.
pub(crate) fn type_name(media: Media) -> &'static [u8]
    ensures { result.now ≡ type_name media }
{
    match media {
        Media::Soap12 => b"application/soap+xml",
        Media::Soap11 => b"text/xml",
    }
}
