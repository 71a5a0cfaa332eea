//! What is made of a document's elements.
ghost use Rattle.std.specs.Prelude.{◌≡◌, ◌≢◌, ◌+◌, ◌<◌, ℕ, [], ◌∷◌, List, OnOk};
ghost use Rattle.soap_document.specs.Machine.{Frame, with_parts};
ghost use Rattle.soap_document.specs.Tree.{element, onto, none, child};

use crate::attribute::WrittenAttribute;
use rm_base::Memory;

/// What is made of a document's elements while they are read. After an error it is of no more use.
pub trait Handler: Drop {
    /// It stands for the elements that are open: the innermost, and those around it from the inside out. The last is
    /// the document itself, without a name.
    ghost stands: { Self → Frame → List Frame → Type 0 };

    /// How many elements are open by what it was told.
    ghost depth: { Self → ℕ };

    /// Text in the innermost element. It is not empty.
    fn text(&mut self, text: &[u8]) -> Result<(), Memory>
        requires { text.now ≢ [] }
        ensures count { OnOk result (depth self.new ≡ depth self.old) }
        ensures made { (top : Frame) (below : List Frame) → stands self.old top below
            → OnOk result (stands self.new (with_parts top (onto text.now none)) below) };

    /// The start tag of an element, whose content begins at this place in the document.
    fn open(
        &mut self,
        name: &[u8],
        attributes: &[WrittenAttribute],
        start: usize,
    ) -> Result<(), Memory>
        ensures count { OnOk result (depth self.new ≡ depth self.old + 1) }
        ensures made { (top : Frame) (below : List Frame) → stands self.old top below
            → OnOk result (stands self.new (record {
              name = name.now;
              attributes = attributes.now;
              start = start;
              parts = none;
            }) (top ∷ below)) };

    /// An empty-element tag, which ends at this place.
    fn empty(
        &mut self,
        name: &[u8],
        attributes: &[WrittenAttribute],
        place: usize,
    ) -> Result<(), Memory>
        ensures count { OnOk result (depth self.new ≡ depth self.old) }
        ensures made { (top : Frame) (below : List Frame) → stands self.old top below
            → OnOk result (stands self.new (with_parts top (child (element name.now attributes.now place place none)
            none)) below) };

    /// The end tag of the innermost element, whose content ends at this place. There is such an element.
    fn close(&mut self, end: usize) -> Result<(), Memory>
        requires { 0 < depth self.old }
        ensures count { OnOk result (depth self.new + 1 ≡ depth self.old) }
        ensures made { (top outer : Frame) (below : List Frame) → stands self.old top (outer ∷ below)
            → OnOk result (stands self.new (with_parts outer (child (element top.name top.attributes top.start end
            top.parts) none)) below) };
}
