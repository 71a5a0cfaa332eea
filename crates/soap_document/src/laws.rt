//! Laws of documents and of the reader, each the contract of a function that does nothing: some call laws of
//! `soap_lex`.

ghost use Rattle.std.specs.Prelude.{◌≡◌, ◌↔◌, ◌+◌, ◌++◌, List, ℕ, length, None, Some, true};
ghost use Rattle.std.specs.Str.{IsUtf8};
ghost use Rattle.soap_document.specs.Grammar.{IsDocument};
ghost use Rattle.soap_document.specs.Inside.{IsInside, around, root_around};
ghost use Rattle.soap_document.specs.Machine.{State, start, run, is_refused, root_of};
ghost use Rattle.soap_document.specs.Tree.{Attribute, Element, element, Parts};
ghost use Rattle.soap_document.specs.Within.{IsWithin, StandsBetween};

use soap_lex::laws::{
    comment_is_tested, text_is_read, text_is_taken, value_is_read, value_is_taken,
};

/// The root that the machine reads of bytes is their tree, where they have one. The trees are those of the productions
/// of XML 1.0, at most 100 elements deep; of bytes that have none the machine reads none.
pub fn document_is_read()
    ensures { (bytes : List ℕ) (root : Element)
        → IsDocument bytes root ↔ (root_of (run start bytes) ≡ Some root) }
{
    text_is_taken();
    text_is_read();
    value_is_taken();
    value_is_read();
    comment_is_tested();
}

/// Bytes have at most one tree.
pub fn one_tree()
    ensures { (bytes : List ℕ) (one other : Element)
        → IsDocument bytes one → IsDocument bytes other → one ≡ other }
{
    text_is_taken();
    text_is_read();
    value_is_taken();
    value_is_read();
    comment_is_tested();
}

/// A document is UTF-8.
pub fn document_is_utf8()
    ensures { (bytes : List ℕ) (root : Element) → IsDocument bytes root → IsUtf8 bytes }
{}

/// What stands between an element's places is its content.
pub fn content_stands_between()
    ensures { (bytes : List ℕ) (root e : Element)
        → IsDocument bytes root → IsWithin root e → StandsBetween bytes e }
{}

/// Bytes are content of a root exactly where they make a document between the tags `<a>` and `</a>` and stand between
/// its places.
pub fn content_makes_a_document()
    ensures made { (bytes : List ℕ) (parts : Parts)
        → IsInside bytes parts → IsDocument (around bytes) (root_around bytes parts) }
    ensures found { (bytes name : List ℕ) (attributes : List Attribute) (start end : ℕ) (parts : Parts)
        → IsDocument (around bytes) (element name attributes start end parts) → start ≡ 3 → end ≡ 3 + length bytes
        → IsInside bytes parts × (element name attributes start end parts ≡ root_around bytes parts) }
{
    text_is_taken();
    text_is_read();
    value_is_taken();
    value_is_read();
    comment_is_tested();
}

/// Pieces that are read one after the other are read as they are when joined, however bytes are cut.
pub fn pieces_are_joined()
    ensures { (s : State) (bytes more : List ℕ) → run s (bytes ++ more) ≡ run (run s bytes) more }
{}

/// What is refused stays refused, and is no document.
pub fn refused_stays()
    ensures stays { (s : State) (bytes : List ℕ) → is_refused s.mode ≡ true → is_refused (run s bytes).mode ≡ true }
    ensures none { (s : State) (bytes : List ℕ) → is_refused s.mode ≡ true → root_of (run s bytes) ≡ None }
{}
