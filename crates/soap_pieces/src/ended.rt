//! What a reader of envelopes knows once a root has ended.
ghost use Rattle.std.specs.Prelude.{◌≡◌, ◌≢◌, ◌↔◌, ◌+◌, ◌++◌, ◌<◌, ◌≤◌, ◌^◌, ℕ, List, length, IsTrue, IfOk};
ghost use Rattle.std.specs.Prelude.{IfSome, None, Err, true, false};
ghost use Rattle.rm_base.specs.Limits.{envelope_bytes};
ghost use Rattle.soap_document.specs.Machine.{State, start, run, root_of, is_refused};
ghost use Rattle.soap_document.specs.Seen.{Sees, IsTold, fed_len};
ghost use Rattle.soap_document.specs.Profile.Document.{IsPlaced};
ghost use Rattle.soap_document.specs.Profile.View.{element_view};
ghost use Rattle.soap_pieces.specs.Answer.{Reads};
ghost use Rattle.soap_pieces.specs.Behind.{least};
ghost use Rattle.soap_pieces.specs.Depth.{IsDepth, open_count};
ghost use Rattle.soap_pieces.specs.Front.{front_len, tail_len};
ghost use Rattle.soap_pieces.specs.Hopeless.{IsHopeless};
ghost use Rattle.soap_pieces.specs.Stage.{HasCome, HasEnded, HasRoot, IsKnown, IsSound, IsSoundBehind, is_out};
ghost use Rattle.soap_pieces.specs.Stage.{said_root};

use crate::depth::Depth;
use crate::front::Front;
use crate::stage::Stage;
use rm_base::Memory;
use soap_document::Reader;
use soap_document::laws::{
    content_stands_between, document_is_read, document_is_utf8, pieces_are_joined, refused_stays,
};
use soap_document::profile::{EnvelopeError, Placed};
use soap_envelope::laws::one_answer;
use soap_envelope::{Envelope, envelope_of, read_envelope};
use std::alloc::Global;

/// What is answered of bytes in which a root has ended, what reads on, and how much of all bytes is UTF-8.
pub(crate) struct Ended {
    answer: Result<Envelope, EnvelopeError>,
    // It was fed another root.
    tail: Reader<Depth>,
    front: Front,
}

impl Drop for Ended {
    fn drop(self) {
        let Ended {
            answer: _,
            tail: _,
            front: _,
        } = self;
    }
}

impl Ended {
    /// The bytes are a document with this tree.
    pub(crate) fn at(alloc: Global, bytes: &[u8], placed: Placed) -> Result<Self, Memory>
        requires fits { length bytes.now ≤ envelope_bytes }
        requires placed { IsPlaced bytes.now (element_view placed.root) placed.last }
        ensures ended { IfOk result (λ ended. HasEnded ended bytes.now) }
        ensures sound { IfOk result (λ ended. IsSoundBehind ended (length bytes.now)) }
    {
        document_is_read();
        document_is_utf8();
        let Placed { root, last } = placed;
        let answer = envelope_of(alloc, bytes, root, last);
        let is_short = is_out(&answer);
        if is_short {
            return Err(Memory);
        }
        answered(alloc, bytes, answer)
    }

    /// None where the bytes are no document.
    pub(crate) fn of(alloc: Global, bytes: &[u8]) -> Result<Option<Self>, Memory>
        requires { length bytes.now ≤ envelope_bytes }
        ensures ended { IfOk result (λ found. IfSome found (λ ended. HasEnded ended bytes.now)) }
        ensures sound { IfOk result (λ found. IfSome found (λ ended. IsSoundBehind ended (length bytes.now))) }
    {
        document_is_read();
        let answer = read_envelope(alloc, bytes);
        let is_whole = is_document(alloc, &answer, bytes)?;
        if is_whole {
            return Ok(Some(answered(alloc, bytes, answer)?));
        }
        Ok(None)
    }

    /// More bytes follow.
    pub(crate) fn next(self, alloc: Global, piece: &[u8]) -> Result<Stage, Memory>
        requires told { IsTold open_count self.tail }
        requires place { fed_len self.tail + length piece.now < 2 ^ 64 }
        requires fits { front_len self.front + length piece.now < 2 ^ 64 }
        ensures come { (bytes : List ℕ) → HasEnded self bytes → length (bytes ++ piece.now) ≤ envelope_bytes
            → IfOk result (λ next. HasCome next (bytes ++ piece.now)) }
        ensures sound { (n : ℕ) → IsSoundBehind self n → IfOk result (λ next. IsSound next (n + length piece.now)) }
        ensures out { IfOk result (λ next. is_out next ≡ false) }
    {
        pieces_are_joined();
        let Ended {
            answer,
            mut tail,
            mut front,
        } = self;
        tail.feed(piece)?;
        front.feed(alloc, piece)?;
        let ends = tail.is_refused();
        if ends {
            return Ok(Stage::Refused(front));
        }
        Ok(Stage::Behind(Ended {
            answer,
            tail,
            front,
        }))
    }

    /// No envelope has ended.
    pub(crate) fn is_other(&self) -> bool
        ensures { (bytes : List ℕ) → HasEnded self.now bytes → IsTrue result ↔ IsHopeless bytes }
    {
        document_is_read();
        document_is_utf8();
        pieces_are_joined();
        content_stands_between();
        one_answer();
        match &self.answer {
            Ok(_) => false,
            Err(_) => true,
        }
    }

    /// What is answered of all bytes, which have this length.
    pub(crate) fn finish(self, len: usize) -> Result<Envelope, EnvelopeError>
        ensures reads { (bytes : List ℕ) → HasEnded self bytes → len ≡ length bytes → Reads bytes result }
        ensures known { (bytes : List ℕ) → HasEnded self bytes → result ≢ Err EnvelopeError.Memory }
    {
        document_is_read();
        document_is_utf8();
        pieces_are_joined();
        content_stands_between();
        let Ended {
            answer,
            tail,
            front,
        } = self;
        match tail.finish() {
            Some(_) => answer,
            None => Err(front.why_none(len)),
        }
    }
}

// What is known where the bytes are a document and this is answered of them.
fn answered(
    alloc: Global,
    bytes: &[u8],
    answer: Result<Envelope, EnvelopeError>,
) -> Result<Ended, Memory>
    requires fits { length bytes.now ≤ envelope_bytes }
    requires reads { Reads bytes.now answer }
    requires known { IsKnown answer bytes.now }
    ensures ended { IfOk result (λ ended. HasEnded ended bytes.now) }
    ensures sound { IfOk result (λ ended. IsSoundBehind ended (length bytes.now)) }
{
    document_is_read();
    document_is_utf8();
    let tail = behind_root(alloc)?;
    let front = Front::whole(alloc, bytes);
    Ok(Ended {
        answer,
        tail,
        front,
    })
}

// Memory was wanting.
fn is_out(answer: &Result<Envelope, EnvelopeError>) -> bool
    ensures { result ≡ false → answer.now ≢ Err EnvelopeError.Memory }
{
    match answer {
        Ok(_) => false,
        Err(error) => matches!(error, EnvelopeError::Memory),
    }
}

// Whether the bytes are a document: of one with a broken rule of namespaces the machine is asked.
fn is_document(
    alloc: Global,
    answer: &Result<Envelope, EnvelopeError>,
    bytes: &[u8],
) -> Result<bool, Memory>
    ensures { IfOk result (λ is. is ≡ true → HasRoot answer.now bytes.now) }
{
    match says_root(answer) {
        Some(is) => Ok(is),
        None => has_root(alloc, bytes),
    }
}

// Whether the answer says that the bytes are a document; None where it leaves that open.
fn says_root(answer: &Result<Envelope, EnvelopeError>) -> Option<bool>
    ensures { result ≡ said_root answer.now }
{
    match answer {
        Ok(_) => Some(true),
        Err(EnvelopeError::WrongVersion) => Some(true),
        Err(EnvelopeError::NotEnvelope) => Some(true),
        Err(EnvelopeError::NotProfile) => None,
        Err(EnvelopeError::NotUtf8 { valid_up_to: _ }) => Some(false),
        Err(EnvelopeError::TooLong { len: _ }) => Some(false),
        Err(EnvelopeError::Memory) => Some(false),
    }
}

// Whether the bytes are a document, told by the machine.
fn has_root(alloc: Global, bytes: &[u8]) -> Result<bool, Memory>
    ensures { IfOk result (λ is. is ≡ true → root_of (run start bytes.now) ≢ None) }
{
    let depth = Depth::new();
    let mut reader = Reader::new(alloc, depth);
    reader.feed(bytes)?;
    match reader.finish() {
        Some(depth) => Ok(depth.ended),
        None => Ok(false),
    }
}

// A reader behind the least root.
fn behind_root(alloc: Global) -> Result<Reader<Depth>, Memory>
    ensures sees { IfOk result (λ reader. Sees IsDepth reader (run start least)) }
    ensures told { IfOk result (λ reader. IsTold open_count reader) }
    ensures place { IfOk result (λ reader. fed_len reader ≡ 4) }
{
    let depth = Depth::new();
    let mut reader = Reader::new(alloc, depth);
    reader.feed(b"<a/>")?;
    Ok(reader)
}
