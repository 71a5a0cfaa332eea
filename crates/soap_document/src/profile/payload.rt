//! What a message may carry.
ghost use Rattle.std.specs.Prelude.{◌≡◌, ◌+◌, [], ◌∷◌, ◌↔◌, ◌&&◌, IsTrue, IfOk, OnOk, length, option_map};
ghost use Rattle.std.specs.Prelude.{nat_eq, nat_le};
ghost use Rattle.rm_base.specs.Limits.{content_depth};
ghost use Rattle.soap_document.specs.Inside.{around};
ghost use Rattle.soap_document.specs.Machine.{root_of, run, start};
ghost use Rattle.soap_document.specs.Seen.{fed_len, IsTold, Sees};
ghost use Rattle.soap_document.specs.Profile.Opened.{rooted};
ghost use Rattle.soap_document.specs.Profile.Payload.{depth, height, is_white_outside, IsClosedContent};
ghost use Rattle.soap_document.specs.Profile.Resolving.{Stands, open_count, root_view};
ghost use Rattle.soap_document.specs.Profile.View.{element_view, parts_view};

use crate::laws::{content_makes_a_document, document_is_read, pieces_are_joined};
use crate::profile::place::Place;
use crate::profile::resolver::{Resolver, Root, root_read};
use crate::profile::tree::{Element, Item};
use crate::{Reader, is_white};
use rm_base::Memory;
use rm_base::limits::CONTENT_DEPTH;
use std::alloc::Global;

/// Whether the bytes are content that is closed under its own declarations: well formed within the profile between a
/// start tag and an end tag where nothing but `xml` is bound, no deeper than `CONTENT_DEPTH`, and with no text but
/// white space beside its elements.
pub fn check_payload(alloc: Global, bytes: &[u8]) -> Result<bool, Memory>
    ensures { IfOk result (λ answer. IsTrue answer ↔ IsClosedContent bytes.now) }
{
    document_is_read();
    content_makes_a_document();
    let Some(root) = read_around(alloc, bytes)? else {
        return Ok(false);
    };
    Ok(is_whole(bytes, root.place) && is_payload(root.tree.items.as_slice()))
}

// The root of the document around the bytes.
fn read_around(alloc: Global, bytes: &[u8]) -> Result<Option<Root>, Memory>
    ensures { IfOk result (λ found. option_map root_view found ≡ rooted (root_of (run start (around bytes.now)))) }
{
    let mut reader = Reader::new(alloc, Resolver::new(alloc)?);
    feed_around(&mut reader, bytes)?;
    Ok(root_read(reader))
}

// Feeds a new reader the document around the bytes.
fn feed_around(reader: &mut Reader<Resolver>, bytes: &[u8]) -> Result<(), Memory>
    requires told { IsTold open_count reader.old }
    requires new { fed_len reader.old ≡ 0 }
    ensures { Sees Stands reader.old start → OnOk result (Sees Stands reader.new (run start (around bytes.now))) }
{
    pieces_are_joined();
    reader.feed(b"<a>")?;
    reader.feed(bytes)?;
    reader.feed(b"</a>")
}

// Whether this is the place of the content in the document around it.
fn is_whole(bytes: &[u8], place: Place) -> bool
    ensures { result ≡ (nat_eq place.start 3 && nat_eq place.end (3 + length bytes.now)) }
{
    let whole = Place {
        start: 3,
        end: 3 + bytes.len(),
    };
    place == whole
}

fn is_payload(items: &[Item]) -> bool
    ensures { result ≡ (nat_le (depth (parts_view items.now)) content_depth
        && is_white_outside (parts_view items.now)) }
{
    are_shallow(items, CONTENT_DEPTH) && is_white_outside(items)
}

/// Whether no more elements than so many stand in one another, this one counted.
#[cycle(depth)]
pub fn is_shallow(element: &Element, levels: usize) -> bool
    ensures { result ≡ nat_le (height (element_view element.now)) levels }
{
    if levels == 0 {
        return false;
    }
    are_shallow(element.items.as_slice(), levels - 1)
}

/// Whether no more elements than so many stand in one another among these.
#[cycle(depth)]
pub fn are_shallow(items: &[Item], levels: usize) -> bool
    ensures { result ≡ nat_le (depth (parts_view items.now)) levels }
{
    for item in items {
        if !is_item_shallow(item, levels) {
            return false;
        }
    }
    true
}

#[cycle(depth)]
fn is_item_shallow(item: &Item, levels: usize) -> bool
    ensures { result ≡ nat_le (depth (parts_view (item.now ∷ []))) levels }
{
    match item {
        Item::Child(element) => is_shallow(element, levels),
        _ => true,
    }
}

fn is_white_outside(items: &[Item]) -> bool
    ensures { result ≡ is_white_outside (parts_view items.now) }
{
    for item in items {
        if !is_item_white(item) {
            return false;
        }
    }
    true
}

fn is_item_white(item: &Item) -> bool
    ensures { result ≡ is_white_outside (parts_view (item.now ∷ [])) }
{
    match item {
        Item::Text(text) => is_white(text.as_slice()),
        _ => true,
    }
}
