//! The reader of a document's tree that is fed pieces.
ghost use Rattle.std.specs.Prelude.{◌≡◌, ◌+◌, ◌++◌, ◌<◌, ◌^◌, ℕ, [], List, length, IfOk, IfSome, IfNone, OnOk};
ghost use Rattle.std.specs.Str.{IsUtf8};
ghost use Rattle.soap_document.specs.Machine.{run, start, is_refused};
ghost use Rattle.soap_document.specs.Seen.{is_ended};
ghost use Rattle.soap_document.specs.Profile.Document.{Document, IsPlaced};
ghost use Rattle.soap_document.specs.Profile.Fed.{IsReady, WasFed, total};
ghost use Rattle.soap_document.specs.Profile.Tree.{Element as Tree};
ghost use Rattle.soap_document.specs.Profile.View.{element_view};

use crate::Reader;
use crate::laws::{document_is_read, document_is_utf8, pieces_are_joined};
use crate::profile::read::Placed;
use crate::profile::resolver::{Resolver, root_read};
use rm_base::Memory;
use std::alloc::Global;

/// A reader of a document that is fed its bytes in pieces, and makes its tree meanwhile. It keeps the tree so far, and
/// of the bytes only a token that has not ended. It doesn't count what it is fed: a document may have fewer bytes.
pub struct DocumentReader {
    reader: Reader<Resolver>,
}

impl Drop for DocumentReader {
    fn drop(self) {
        let DocumentReader { reader: _ } = self;
    }
}

impl DocumentReader {
    /// A reader that was fed nothing.
    pub fn new(alloc: Global) -> Result<Self, Memory>
        ensures ready { IfOk result IsReady }
        ensures total { IfOk result (λ reader. total reader ≡ 0) }
        ensures fed { IfOk result (λ reader. WasFed reader []) }
    {
        let resolver = Resolver::new(alloc)?;
        let reader = Reader::new(alloc, resolver);
        Ok(DocumentReader { reader })
    }

    /// Takes the next piece of the document. After an error the reader is of no more use.
    pub fn feed(&mut self, piece: &[u8]) -> Result<(), Memory>
        requires ready { IsReady self.old }
        requires fits { total self.old + length piece.now < 2 ^ 64 }
        ensures ready { OnOk result (IsReady self.new) }
        ensures total { OnOk result (total self.new ≡ total self.old + length piece.now) }
        ensures fed { (bytes : List ℕ) → WasFed self.old bytes → OnOk result (WasFed self.new (bytes ++ piece.now)) }
    {
        pieces_are_joined();
        self.reader.feed(piece)
    }

    /// What was fed begins no document, whatever follows; a broken rule of namespaces counts for nothing here.
    pub fn is_refused(&self) -> bool
        ensures { (bytes : List ℕ) → WasFed self.now bytes → result ≡ is_refused (run start bytes).mode }
    {
        self.reader.is_refused()
    }

    /// The root has ended, whatever stands behind it.
    pub fn is_ended(&self) -> bool
        ensures { (bytes : List ℕ) → WasFed self.now bytes
            → result ≡ is_ended (run start bytes).top (run start bytes).below }
    {
        self.reader.is_ended()
    }

    /// The tree, where what was fed is a document. It is the tree of the pieces joined, and None comes exactly where
    /// these are no document.
    pub fn finish(self) -> Option<Placed>
        ensures found { (bytes : List ℕ) → WasFed self bytes
            → IfSome result (λ placed. IsPlaced bytes (element_view placed.root) placed.last) }
        ensures utf8 { (bytes : List ℕ) → WasFed self bytes → IfSome result (λ _. IsUtf8 bytes) }
        ensures none { (bytes : List ℕ) → WasFed self bytes
            → IfNone result ((other : Tree) → ¬ (Document bytes other)) }
    {
        document_is_read();
        document_is_utf8();
        let DocumentReader { reader } = self;
        let Some(root) = root_read(reader) else {
            return None;
        };
        Some(Placed {
            root: root.tree,
            last: root.last,
        })
    }
}
