//! How far a reader of envelopes has come.
ghost use Rattle.std.specs.Prelude.{◌≡◌, ◌≢◌, ◌↔◌, ◌+◌, ◌++◌, ◌<◌, ◌≤◌, ◌^◌, ℕ, List, [], length, IsTrue, IfOk, IsErr};
ghost use Rattle.std.specs.Prelude.{Err, true, false};
ghost use Rattle.rm_base.specs.Limits.{envelope_bytes};
ghost use Rattle.soap_document.specs.Profile.Fed.{IsReady, WasFed, total};
ghost use Rattle.soap_document.specs.Profile.Document.{Document};
ghost use Rattle.soap_document.specs.Profile.Tree.{Element};
ghost use Rattle.soap_pieces.specs.Answer.{Reads};
ghost use Rattle.soap_pieces.specs.Hopeless.{IsHopeless};
ghost use Rattle.soap_pieces.specs.Stage.{HasCome, IsInRoot, IsRefused, IsSound, IsSoundRoot, is_out, kept_count};
ghost use Rattle.soap_pieces.specs.Front.{front_len, tail_len};

use crate::depth::Depth;
use crate::ended::Ended;
use crate::front::Front;
use rm_base::limits::ENVELOPE_BYTES;
use rm_base::{Blob, Memory};
use soap_document::Reader;
use soap_document::laws::{document_is_read, pieces_are_joined, refused_stays};
use soap_document::profile::{DocumentReader, EnvelopeError};
use soap_envelope::Envelope;
use soap_lex::{first_byte, utf8_prefix};
use std::alloc::Global;

/// How far it has come with what it was fed.
pub(crate) enum Stage {
    /// Nothing was fed.
    Before,
    /// No root has ended: what makes its tree, and all bytes.
    Root(DocumentReader, Blob),
    /// One has.
    Behind(Ended),
    /// No document begins so.
    Refused(Front),
    /// There are more bytes than an envelope may have.
    TooLong,
    /// Memory was wanting.
    Short,
}

// It's written, and not derived: a value whose drop is derived is taken apart at each place where it may be let go.
impl Drop for Stage {
    fn drop(self) {
        match self {
            Stage::Before => {}
            Stage::Root(_, _) => {}
            Stage::Behind(_) => {}
            Stage::Refused(_) => {}
            Stage::TooLong => {}
            Stage::Short => {}
        }
    }
}

impl Stage {
    /// A piece more, behind so many bytes.
    pub(crate) fn next(self, alloc: Global, before: usize, piece: &[u8]) -> Result<Self, Memory>
        requires sound { IsSound self before }
        requires fits { before + length piece.now < 2 ^ 63 }
        ensures come { (bytes : List ℕ) → HasCome self bytes → before ≡ length bytes
            → IfOk result (λ next. HasCome next (bytes ++ piece.now)) }
        ensures sound { IfOk result (λ next. IsSound next (before + length piece.now)) }
        ensures most { IfOk result (λ next. kept_count next ≤ envelope_bytes) }
        ensures out { IfOk result (λ next. is_out next ≡ false) }
        ensures short { is_out self ≡ true → IsErr result }
    {
        let fed = before + piece.len();
        if fed > ENVELOPE_BYTES {
            return self.overrun();
        }
        match self {
            Stage::Before => first(alloc, piece),
            Stage::Root(reader, bytes) => in_root(alloc, reader, bytes, piece),
            Stage::Behind(ended) => ended.next(alloc, piece),
            Stage::Refused(front) => refused(alloc, front, piece),
            Stage::TooLong => Ok(Stage::TooLong),
            Stage::Short => Err(Memory),
        }
    }

    // There are more bytes than an envelope may have.
    fn overrun(self) -> Result<Self, Memory>
        ensures come { (bytes : List ℕ) → envelope_bytes < length bytes → IfOk result (λ next. HasCome next bytes) }
        ensures sound { (n : ℕ) → IfOk result (λ next. IsSound next n) }
        ensures most { IfOk result (λ next. kept_count next ≡ 0) }
        ensures out { IfOk result (λ next. is_out next ≡ false) }
        ensures short { is_out self ≡ true → IsErr result }
    {
        let is_short = self.is_short();
        if is_short {
            return Err(Memory);
        }
        Ok(Stage::TooLong)
    }

    // Memory was wanting.
    fn is_short(&self) -> bool
        ensures { result ≡ is_out self.now }
    {
        match self {
            Stage::Before => false,
            Stage::Root(_, _) => false,
            Stage::Behind(_) => false,
            Stage::Refused(_) => false,
            Stage::TooLong => false,
            Stage::Short => true,
        }
    }

    /// No envelope begins with the bytes, whatever follows; or memory was wanting.
    pub(crate) fn is_dead(&self) -> bool
        ensures dead { (bytes : List ℕ) → HasCome self.now bytes → is_out self.now ≡ false
            → IsTrue result ↔ IsHopeless bytes }
        ensures short { is_out self.now ≡ true → IsTrue result }
    {
        document_is_read();
        pieces_are_joined();
        match self {
            Stage::Before => false,
            Stage::Root(_, _) => false,
            Stage::Behind(ended) => ended.is_other(),
            Stage::Refused(_) => true,
            Stage::TooLong => true,
            Stage::Short => true,
        }
    }

    /// What is answered of the bytes, which have this length.
    pub(crate) fn finish(self, len: usize) -> Result<Envelope, EnvelopeError>
        ensures reads { (bytes : List ℕ) → HasCome self bytes → len ≡ length bytes → is_out self ≡ false
            → Reads bytes result }
        ensures known { (bytes : List ℕ) → HasCome self bytes → is_out self ≡ false
            → result ≢ Err EnvelopeError.Memory }
        ensures short { is_out self ≡ true → result ≡ Err EnvelopeError.Memory }
    {
        document_is_read();
        refused_stays();
        match self {
            Stage::Before => Err(EnvelopeError::NotProfile),
            Stage::Root(_, bytes) => Err(why_unended(bytes.as_slice())),
            Stage::Behind(ended) => ended.finish(len),
            Stage::Refused(front) => Err(front.why_none(len)),
            Stage::TooLong => Err(EnvelopeError::TooLong { len }),
            Stage::Short => Err(EnvelopeError::Memory),
        }
    }
}

// The first piece.
fn first(alloc: Global, piece: &[u8]) -> Result<Stage, Memory>
    requires { length piece.now ≤ envelope_bytes }
    ensures come { IfOk result (λ next. HasCome next piece.now) }
    ensures sound { (n : ℕ) → IfOk result (λ next. IsSound next (n + length piece.now)) }
    ensures out { IfOk result (λ next. is_out next ≡ false) }
{
    let reader = DocumentReader::new(alloc)?;
    let bytes = Blob::new(alloc);
    in_root(alloc, reader, bytes, piece)
}

// A piece more, where no root has ended before.
fn in_root(
    alloc: Global,
    mut reader: DocumentReader,
    mut bytes: Blob,
    piece: &[u8],
) -> Result<Stage, Memory>
    requires ready { IsReady reader }
    requires place { total reader + length piece.now < 2 ^ 64 }
    requires fits { length bytes + length piece.now ≤ envelope_bytes }
    requires fed { WasFed reader bytes }
    ensures come { (fed : List ℕ) → IsInRoot bytes fed
        → IfOk result (λ next. HasCome next (fed ++ piece.now)) }
    ensures sound { (n : ℕ) → IsSoundRoot reader bytes n → IfOk result (λ next. IsSound next (n + length piece.now)) }
    ensures out { IfOk result (λ next. is_out next ≡ false) }
{
    bytes.push_all(piece)?;
    reader.feed(piece)?;
    on(alloc, reader, bytes)
}

// The reader was fed the bytes; it may refuse them, or their root has ended.
fn on(alloc: Global, reader: DocumentReader, bytes: Blob) -> Result<Stage, Memory>
    requires fits { length bytes ≤ envelope_bytes }
    requires fed { WasFed reader bytes }
    ensures come { IfOk result (λ next. HasCome next bytes) }
    ensures sound { (n : ℕ) → IsSoundRoot reader bytes n → IfOk result (λ next. IsSound next n) }
    ensures out { IfOk result (λ next. is_out next ≡ false) }
{
    let ends = reader.is_refused();
    if ends {
        let front = Front::of(alloc, bytes.as_slice())?;
        return Ok(Stage::Refused(front));
    }
    let is_ended = reader.is_ended();
    if is_ended {
        return at_end(alloc, reader, bytes.as_slice());
    }
    Ok(Stage::Root(reader, bytes))
}

// The root of the bytes has ended, which the reader was fed. They may be no document yet, where a comment goes on
// behind it.
fn at_end(alloc: Global, reader: DocumentReader, bytes: &[u8]) -> Result<Stage, Memory>
    requires fits { length bytes.now ≤ envelope_bytes }
    requires fed { WasFed reader bytes.now }
    ensures come { IfOk result (λ next. HasCome next bytes.now) }
    ensures sound { IfOk result (λ next. IsSound next (length bytes.now)) }
    ensures out { IfOk result (λ next. is_out next ≡ false) }
{
    match reader.finish() {
        Some(placed) => {
            let ended = Ended::at(alloc, bytes, placed)?;
            Ok(Stage::Behind(ended))
        }
        None => again(alloc, bytes),
    }
}

// The same, where the bytes are read again: no tree was made of them, or they are no document yet.
fn again(alloc: Global, bytes: &[u8]) -> Result<Stage, Memory>
    requires { length bytes.now ≤ envelope_bytes }
    ensures come { IfOk result (λ next. HasCome next bytes.now) }
    ensures sound { IfOk result (λ next. IsSound next (length bytes.now)) }
    ensures out { IfOk result (λ next. is_out next ≡ false) }
{
    let whole = Ended::of(alloc, bytes)?;
    match whole {
        Some(ended) => Ok(Stage::Behind(ended)),
        None => within(alloc, bytes),
    }
}

// The same, where it ends before the last of the bytes.
fn within(alloc: Global, bytes: &[u8]) -> Result<Stage, Memory>
    requires { length bytes.now ≤ envelope_bytes }
    ensures come { IfOk result (λ next. HasCome next bytes.now) }
    ensures sound { IfOk result (λ next. IsSound next (length bytes.now)) }
    ensures out { IfOk result (λ next. is_out next ≡ false) }
{
    let end = root_end(alloc, bytes)?;
    let (front, more) = bytes.split_at(end);
    let begun = Ended::of(alloc, front)?;
    match begun {
        Some(ended) => ended.next(alloc, more),
        None => Err(Memory),
    }
}

// Where among the bytes a root ends; a > ends it.
fn root_end(alloc: Global, bytes: &[u8]) -> Result<usize, Memory>
    ensures { IfOk result (λ end. end ≤ length bytes.now) }
{
    let mut reader = Reader::new(alloc, Depth::new());
    let mut end = 0;
    while let Some(more) = first_byte(b'>', &bytes[end..]) {
        let next = end + more + 1;
        reader.feed(&bytes[end..next])?;
        end = next;
        if reader.is_ended() {
            return Ok(end);
        }
    }
    Ok(end)
}

// A piece more, where no document begins so.
fn refused(alloc: Global, mut front: Front, piece: &[u8]) -> Result<Stage, Memory>
    requires fits { front_len front + length piece.now < 2 ^ 64 }
    ensures come { (fed : List ℕ) → IsRefused front fed → length (fed ++ piece.now) ≤ envelope_bytes
        → IfOk result (λ next. HasCome next (fed ++ piece.now)) }
    ensures sound { (n : ℕ) → front_len front ≤ n → tail_len front.tail ≤ 3
        → IfOk result (λ next. IsSound next (n + length piece.now)) }
    ensures out { IfOk result (λ next. is_out next ≡ false) }
{
    pieces_are_joined();
    refused_stays();
    front.feed(alloc, piece)?;
    Ok(Stage::Refused(front))
}

// Why bytes in which no root has ended are no envelope.
fn why_unended(bytes: &[u8]) -> EnvelopeError
    ensures reads { length bytes.now ≤ envelope_bytes → ((tree : Element) → ¬ (Document bytes.now tree))
        → Reads bytes.now (Err result) }
    ensures known { result ≢ EnvelopeError.Memory }
{
    let valid_up_to = utf8_prefix(bytes);
    if valid_up_to < bytes.len() {
        return EnvelopeError::NotUtf8 { valid_up_to };
    }
    EnvelopeError::NotProfile
}
