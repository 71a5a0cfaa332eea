//! Whether the bytes that came hold a whole message: it says when they are handed over, and never what they mean.

use crate::limits::MOST_GATHERED;
use http_endpoint::body::Framing;
use http_endpoint::heads::{
    HeadOfRequest, HeadOfResponse, RequestFacts, response_framing, verdict,
};
use http_endpoint::part::{PART_LIMIT, Parsed, Part};
use http_endpoint::parts::{ChunkSize, Trailer};
use http_endpoint::{HttpError, Media};
use http1::fields::{ContentLength, TransferEncoding};
use rm_base::Memory;
use rm_base::limits::{ENVELOPE_BYTES, PAYLOAD_BYTES};
use std::alloc::Global;

/// A peer's request, a call of the application, or a response.
#[derive(Clone, Copy, Debug, PartialEq, Eq)]
pub enum Sort {
    Request(Media),
    Call,
    Response,
}

// What is read next: a head, a body up to a place, a chunk's line, a trailer, or all that comes.
#[derive(Clone, Copy, Debug, PartialEq, Eq)]
enum Way {
    Head,
    Counted,
    Chunk,
    Trailer,
    ToEnd,
}

// What a look at a part gives: the message has so many bytes, more must come, or another part is next.
#[derive(Clone, Copy, Debug, PartialEq, Eq)]
enum Step {
    Whole(usize),
    More,
    On,
}

/// What is known of the bytes of a message that came so far.
#[derive(Clone, Copy, Debug)]
pub struct Gather {
    sort: Sort,
    way: Way,
    // Where the part begins that is read next, or where a counted body ends.
    at: usize,
    // How many bytes were looked at.
    seen: usize,
    waits: bool,
    closes: bool,
}

impl Gather {
    /// Nothing came yet.
    pub fn new(sort: Sort) -> Gather {
        Gather {
            sort,
            way: Way::Head,
            at: 0,
            seen: 0,
            waits: false,
            closes: false,
        }
    }

    /// Whether the peer waits to be told that it may send the body.
    pub fn waits(&self) -> bool {
        self.waits
    }

    /// Whether the connection ends with this message, as its head says.
    pub fn closes(&self) -> bool {
        self.closes
    }

    /// The connection ends with this message.
    pub fn close(&mut self) {
        self.closes = true;
    }

    /// Whether the message is whole where the bytes end.
    pub fn lasts_to_end(&self) -> bool {
        self.way == Way::ToEnd
    }

    /// Looks at all bytes that came: how many the message has, once it is whole. One that will be refused is whole at
    /// once.
    pub fn look(&mut self, alloc: Global, bytes: &[u8]) -> Result<Option<usize>, Memory> {
        if bytes.len() > MOST_GATHERED {
            return Ok(Some(bytes.len()));
        }
        for _turn in 0..u64::MAX {
            match self.step(alloc, bytes)? {
                Step::Whole(len) => return Ok(Some(len.min(bytes.len()))),
                Step::More => break,
                Step::On => {}
            }
        }
        self.seen = bytes.len();
        Ok(None)
    }

    fn step(&mut self, alloc: Global, bytes: &[u8]) -> Result<Step, Memory> {
        match self.way {
            Way::Head => match self.sort {
                Sort::Request(media) => self.request(alloc, Some(media), bytes),
                Sort::Call => self.request(alloc, None, bytes),
                Sort::Response => self.response(alloc, bytes),
            },
            Way::Counted => {
                if bytes.len() >= self.at {
                    Ok(Step::Whole(self.at))
                } else {
                    Ok(Step::More)
                }
            }
            Way::Chunk => self.chunk(alloc, bytes),
            Way::Trailer => self.trailer(alloc, bytes),
            Way::ToEnd => Ok(Step::More),
        }
    }

    // The head of a request; of the application's any method and media type will do.
    fn request(
        &mut self,
        alloc: Global,
        media: Option<Media>,
        bytes: &[u8],
    ) -> Result<Step, Memory> {
        match self.part::<HeadOfRequest>(alloc, bytes)? {
            Parsed::Found(len, facts) => {
                self.waits = facts.known.expect_continue;
                self.closes = facts.known.close;
                let framing = match media {
                    Some(media) => verdict(media, facts),
                    None => call_framing(facts),
                };
                Ok(self.begin(framing, len, bytes.len()))
            }
            Parsed::Unfinished => Ok(Step::More),
            Parsed::Refused => {
                self.closes = true;
                Ok(Step::Whole(bytes.len()))
            }
        }
    }

    // The head of a response; one of status 100 is passed over once.
    fn response(&mut self, alloc: Global, bytes: &[u8]) -> Result<Step, Memory> {
        match self.part::<HeadOfResponse>(alloc, bytes)? {
            Parsed::Found(len, facts) => {
                if facts.status == 100 && self.at == 0 {
                    self.at = len;
                    return Ok(Step::On);
                }
                Ok(self.begin(response_framing(facts), len, bytes.len()))
            }
            Parsed::Unfinished => Ok(Step::More),
            Parsed::Refused => Ok(Step::Whole(bytes.len())),
        }
    }

    // The most bytes of a body.
    fn most(&self) -> usize {
        match self.sort {
            Sort::Call => PAYLOAD_BYTES,
            Sort::Request(_) => ENVELOPE_BYTES,
            Sort::Response => ENVELOPE_BYTES,
        }
    }

    // A body begins behind a head of so many bytes.
    fn begin(&mut self, framing: Result<Framing, HttpError>, len: usize, have: usize) -> Step {
        self.at = self.at.saturating_add(len);
        match framing {
            Ok(Framing::Empty) => Step::Whole(self.at),
            Ok(Framing::Counted(size)) => {
                if size > self.most() as u64 {
                    self.closes = true;
                    return Step::Whole(have);
                }
                self.at = self.at.saturating_add(size as usize);
                self.way = Way::Counted;
                Step::On
            }
            Ok(Framing::Chunked) => {
                self.way = Way::Chunk;
                Step::On
            }
            Ok(Framing::ToEnd) => {
                self.way = Way::ToEnd;
                Step::On
            }
            Err(_) => {
                self.closes = true;
                Step::Whole(have)
            }
        }
    }

    fn chunk(&mut self, alloc: Global, bytes: &[u8]) -> Result<Step, Memory> {
        match self.part::<ChunkSize>(alloc, bytes)? {
            Parsed::Found(len, size) => {
                if size > self.most() as u64 {
                    self.closes = true;
                    return Ok(Step::Whole(bytes.len()));
                }
                self.at = self.at.saturating_add(len);
                if size == 0 {
                    self.way = Way::Trailer;
                } else {
                    self.at = self.at.saturating_add(size as usize).saturating_add(2);
                }
                Ok(Step::On)
            }
            Parsed::Unfinished => Ok(Step::More),
            Parsed::Refused => {
                self.closes = true;
                Ok(Step::Whole(bytes.len()))
            }
        }
    }

    fn trailer(&mut self, alloc: Global, bytes: &[u8]) -> Result<Step, Memory> {
        match self.part::<Trailer>(alloc, bytes)? {
            Parsed::Found(len, _) => Ok(Step::Whole(self.at.saturating_add(len))),
            Parsed::Unfinished => Ok(Step::More),
            Parsed::Refused => {
                self.closes = true;
                Ok(Step::Whole(bytes.len()))
            }
        }
    }

    // The part that begins at the place. It is parsed only where it may end among the bytes that are new.
    fn part<P: Part>(&self, alloc: Global, bytes: &[u8]) -> Result<Parsed<P::Out>, Memory> {
        let rest = bytes.split_at(self.at.min(bytes.len())).1;
        let rest = rest.split_at((PART_LIMIT + 1).min(rest.len())).0;
        if P::may_end(rest, self.seen.saturating_sub(self.at)) {
            let parsed = P::parse(alloc, rest)?;
            if let Parsed::Found(_, _) = parsed {
                return Ok(parsed);
            }
            if let Parsed::Refused = parsed {
                return Ok(parsed);
            }
        }
        if rest.len() > PART_LIMIT {
            Ok(Parsed::Refused)
        } else {
            Ok(Parsed::Unfinished)
        }
    }
}

// How the body of a call is read.
fn call_framing(facts: RequestFacts) -> Result<Framing, HttpError> {
    match facts.known.content_length {
        ContentLength::Invalid => Err(HttpError::BadHead),
        ContentLength::Value(size) => match facts.known.transfer_encoding {
            TransferEncoding::Absent => Ok(Framing::Counted(size)),
            _ => Err(HttpError::BadHead),
        },
        ContentLength::Absent => match facts.known.transfer_encoding {
            TransferEncoding::Absent => Ok(Framing::Empty),
            TransferEncoding::Chunked => Ok(Framing::Chunked),
            _ => Err(HttpError::BadHead),
        },
    }
}

/// Whether a connection goes on behind this response: it does where the head doesn't say that it ends, and the body's
/// length is told.
pub fn is_kept(alloc: Global, response: &[u8]) -> Result<bool, Memory> {
    let front = response.split_at((PART_LIMIT + 1).min(response.len())).0;
    match HeadOfResponse::parse(alloc, front)? {
        Parsed::Found(_, facts) => Ok(
            !facts.known.close
                && (facts.status == 204 || response_framing(facts) != Ok(Framing::ToEnd)),
        ),
        _ => Ok(false),
    }
}
