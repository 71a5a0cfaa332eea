//! The elements that are open.
ghost use Rattle.std.specs.Prelude.{◌≡◌, ◌≢◌, ◌==◌, ◌<◌, ◌∷◌, [], ℕ, List, OnOk, vec_len};
ghost use Rattle.soap_document.specs.Machine.{Frame, with_parts, nothing_open, has_room};
ghost use Rattle.soap_lex.specs.Tests.{is_nil};
ghost use Rattle.soap_document.specs.Tree.{element, onto, none, child};
ghost use Rattle.soap_document.specs.Seen.{Counts, Holds, is_ended};

use crate::attribute::WrittenAttribute;
use crate::handler::Handler;
use rm_base::limits::DOCUMENT_DEPTH;
use rm_base::{Bytes, Memory};
use std::alloc::Global;
use std::mem;

/// The written names of the open elements, and what is made of them.
#[derive(Drop)]
pub(crate) struct OpenElements<H> {
    // Of the innermost; of the document itself it is empty.
    name: Bytes,
    // Of those around it, the innermost last.
    names: Vec<Bytes>,
    // The document has a part.
    begun: bool,
    handler: H,
}

impl<H: Handler> OpenElements<H> {
    /// The document, where nothing was read.
    pub(crate) fn new(alloc: Global, handler: H) -> Self
        requires { H.depth handler ≡ 0 }
        ensures told { Counts H.depth result }
        ensures holds { H.stands handler nothing_open [] → Holds H.stands result nothing_open [] }
    {
        OpenElements {
            name: Bytes::new(),
            names: Vec::new(alloc),
            begun: false,
            handler,
        }
    }

    pub(crate) fn into_handler(self) -> H
        ensures { (top : Frame) (below : List Frame) → Holds H.stands self top below → H.stands result top below }
    {
        self.handler
    }

    /// The written name of the innermost element.
    pub(crate) fn name(&self) -> &[u8]
        ensures { (top : Frame) (below : List Frame) → Holds H.stands self.now top below → result.now ≡ top.name }
    {
        self.name.as_slice()
    }

    /// No element is open.
    pub(crate) fn is_outside(&self) -> bool
        ensures empty { result ≡ (vec_len self.now.names == 0) }
        ensures outside { (top : Frame) (below : List Frame) → Holds H.stands self.now top below
            → result ≡ is_nil below }
    {
        self.names.is_empty()
    }

    /// The root has ended: no element is open, and the document has a part.
    pub(crate) fn is_ended(&self) -> bool
        ensures { (top : Frame) (below : List Frame) → Holds H.stands self.now top below
            → result ≡ is_ended top below }
    {
        self.is_outside() && self.begun
    }

    /// An element may begin.
    pub(crate) fn has_room(&self) -> bool
        ensures { (top : Frame) (below : List Frame) → Holds H.stands self.now top below
            → result ≡ has_room below top.parts }
    {
        if self.is_outside() {
            !self.begun
        } else {
            self.names.len() < DOCUMENT_DEPTH
        }
    }

    /// Text becomes a part.
    pub(crate) fn text(&mut self, text: &[u8]) -> Result<(), Memory>
        requires some { text.now ≢ [] }
        requires told { Counts H.depth self.old }
        ensures told { OnOk result (Counts H.depth self.new) }
        ensures holds { (top : Frame) (below : List Frame) → Holds H.stands self.old top below
            → OnOk result (Holds H.stands self.new (with_parts top (onto text.now none)) below) }
    {
        self.begun = true;
        self.handler.text(text)
    }

    pub(crate) fn open(
        &mut self,
        name: Bytes,
        attributes: &[WrittenAttribute],
        start: usize,
    ) -> Result<(), Memory>
        requires { Counts H.depth self.old }
        ensures told { OnOk result (Counts H.depth self.new) }
        ensures holds { (top : Frame) (below : List Frame) → Holds H.stands self.old top below
            → OnOk result (Holds H.stands self.new (record {
              name = name;
              attributes = attributes.now;
              start = start;
              parts = none;
            }) (top ∷ below)) }
    {
        self.handler.open(name.as_slice(), attributes, start)?;
        let outer = mem::replace(&mut self.name, name);
        self.names.push(outer)?;
        self.begun = true;
        Ok(())
    }

    pub(crate) fn empty(
        &mut self,
        name: &[u8],
        attributes: &[WrittenAttribute],
        place: usize,
    ) -> Result<(), Memory>
        requires { Counts H.depth self.old }
        ensures told { OnOk result (Counts H.depth self.new) }
        ensures holds { (top : Frame) (below : List Frame) → Holds H.stands self.old top below
            → OnOk result (Holds H.stands self.new (with_parts top (child (element name.now attributes.now place
            place none) none)) below) }
    {
        self.begun = true;
        self.handler.empty(name, attributes, place)
    }

    /// The innermost element is over.
    pub(crate) fn close(&mut self, end: usize) -> Result<(), Memory>
        requires told { Counts H.depth self.old }
        requires inside { 0 < vec_len self.old.names }
        ensures told { OnOk result (Counts H.depth self.new) }
        ensures holds { (top outer : Frame) (below : List Frame) → Holds H.stands self.old top (outer ∷ below)
            → OnOk result (Holds H.stands self.new (with_parts outer (child (element top.name top.attributes top.start
            end top.parts) none)) below) }
    {
        let Some(outer) = self.names.pop() else {
            unreachable!();
        };
        self.name = outer;
        self.handler.close(end)
    }
}
