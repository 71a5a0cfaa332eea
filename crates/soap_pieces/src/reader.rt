//! The reader of envelopes that is fed pieces.
ghost use Rattle.std.specs.Prelude.{
  ◌≡◌,
  ◌≢◌,
  ◌↔◌,
  ◌+◌,
  ◌++◌,
  ◌<◌,
  ◌≤◌,
  ◌^◌,
  ℕ,
  List,
  [],
  length,
  true,
  false,
  IsTrue,
  OnOk,
  OnErr,
  IsErr,
  Err,
};
ghost use Rattle.rm_base.specs.Limits.{envelope_bytes};
ghost use Rattle.soap_pieces.specs.Answer.{Reads};
ghost use Rattle.soap_pieces.specs.Fed.{IsIdle, IsReady, WasFed, is_short, kept_bytes, total};
ghost use Rattle.soap_pieces.specs.Hopeless.{BeginsNone, IsHopeless};

use crate::stage::Stage;
use rm_base::Memory;
use soap_document::laws::{content_stands_between, document_is_read, pieces_are_joined};
use soap_document::profile::EnvelopeError;
use soap_envelope::Envelope;
use std::alloc::Global;
use std::mem;

/// A reader of an envelope, which is fed its bytes in pieces. It keeps them up to the end of their root, with the tree
/// that it makes of them meanwhile, and then the envelope instead, where they are one; what follows that is only looked
/// through. Where no envelope begins with them, it keeps at most three bytes between two pieces. Where memory was
/// wanting once, all later calls say so. What stands behind a root is read by a second reader of documents, which was
/// fed `<a/>`: behind the ends of two roots the machine does the same. Where a piece ends within a comment there, or a
/// rule of namespaces is broken, the bytes are read once more.
pub struct EnvelopeReader {
    alloc: Global,
    stage: Stage,
    fed: usize,
}

impl Drop for EnvelopeReader {
    fn drop(self) {
        let EnvelopeReader {
            alloc: _,
            stage: _,
            fed: _,
        } = self;
    }
}

impl EnvelopeReader {
    /// A reader that was fed nothing. It takes no memory.
    pub fn new(alloc: Global) -> Self
        ensures ready { IsReady result }
        ensures fed { WasFed result [] }
        ensures total { total result ≡ 0 }
        ensures short { is_short result ≡ false }
        ensures keeps { kept_bytes result ≡ 0 }
    {
        EnvelopeReader {
            alloc,
            stage: Stage::Before,
            fed: 0,
        }
    }

    /// Takes the next piece of the envelope.
    /// - `fed`, `total`: each piece is joined to what was fed before, up to 2^63 bytes, whatever else happens.
    /// - `keeps`: never more than 2097152 bytes are kept, the payload of an envelope counted, also where memory ran
    ///   out.
    /// - `spent`: a dead reader keeps three bytes at most, unless memory ran out.
    /// - `idle`: where no document begins with what was fed, nothing more is read as one, unless memory ran out.
    /// - Memory: once it came, each later piece and the end answer it too (`err`, `short`).
    pub fn feed(&mut self, piece: &[u8]) -> Result<(), Memory>
        requires ready { IsReady self.old }
        requires fits { total self.old + length piece.now < 2 ^ 63 }
        ensures ready { IsReady self.new }
        ensures fed { (bytes : List ℕ) → WasFed self.old bytes → WasFed self.new (bytes ++ piece.now) }
        ensures total { total self.new ≡ total self.old + length piece.now }
        ensures short { is_short self.old ≡ true → IsErr result }
        ensures ok { OnOk result (is_short self.new ≡ false) }
        ensures err { OnErr result (is_short self.new ≡ true) }
        ensures keeps { kept_bytes self.new ≤ envelope_bytes }
        ensures spent { (bytes : List ℕ) → WasFed self.old bytes → IsHopeless (bytes ++ piece.now)
            → OnOk result (kept_bytes self.new ≤ 3) }
        ensures idle { (bytes : List ℕ) → WasFed self.old bytes → BeginsNone (bytes ++ piece.now)
            → OnOk result (IsIdle self.new) }
    {
        content_stands_between();
        document_is_read();
        pieces_are_joined();
        let before = self.fed;
        self.fed += piece.len();
        let stage = mem::replace(&mut self.stage, Stage::Short);
        let next = stage.next(self.alloc, before, piece)?;
        self.stage = next;
        Ok(())
    }

    /// What was fed begins no envelope, whatever follows: it is too long, no document begins with it, or a document
    /// that is no envelope begins it. A reader that was short of memory is dead too.
    pub fn is_dead(&self) -> bool
        ensures dead { (bytes : List ℕ) → WasFed self.now bytes → is_short self.now ≡ false
            → IsTrue result ↔ IsHopeless bytes }
        ensures short { is_short self.now ≡ true → IsTrue result }
    {
        self.stage.is_dead()
    }

    /// What `read_envelope` answers of all that was fed.
    /// - Memory: exactly where a piece was answered so (`short`, `known`).
    pub fn finish(self) -> Result<Envelope, EnvelopeError>
        ensures reads { (bytes : List ℕ) → WasFed self bytes → is_short self ≡ false → Reads bytes result }
        ensures known { (bytes : List ℕ) → WasFed self bytes → is_short self ≡ false
            → result ≢ Err EnvelopeError.Memory }
        ensures short { is_short self ≡ true → result ≡ Err EnvelopeError.Memory }
    {
        let EnvelopeReader {
            alloc: _,
            stage,
            fed,
        } = self;
        stage.finish(fed)
    }
}
