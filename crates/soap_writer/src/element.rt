//! The writer of elements.
ghost use Rattle.std.specs.Prelude.{◌≡◌, ◌++◌, OnOk, OnErr};
ghost use Rattle.soap_document.specs.Profile.View.{element_view, item_view, parts_view};
ghost use Rattle.soap_writer.specs.ElementText.{element_text, parts_text};
ghost use Rattle.soap_writer.specs.Steps.{Grows, part_text};

use crate::tags::{push_end_tag, push_start_tag};
use crate::text::push_text;
use rm_base::{Blob, Memory};
use soap_document::profile::{Element, Item};
use std::alloc::Global;
use std::mem;

/// Appends an element that stands on its own, where it is marked as a reference parameter with the attribute that says
/// so, for which `a` has to be bound around it. The declarations of the tree are not written.
pub fn write_element(
    alloc: Global,
    element: &Element,
    marked: bool,
    out: &mut Blob,
) -> Result<(), Memory>
    ensures ok { OnOk result (out.new ≡ out.old ++ element_text marked (element_view element.now)) }
    ensures err { OnErr result (out.new ≡ out.old) }
{
    let mut bytes = mem::replace(out, Blob::new(alloc)).into_vec();
    let start = bytes.len();
    let written = push_element(element, marked, &mut bytes);
    if written.is_err() {
        bytes.truncate(start);
    }
    *out = Blob::from_vec(bytes);
    written
}

// Up to a want of memory, as the writers of pieces.
#[cycle(writing)]
fn push_element(element: &Element, marked: bool, out: &mut Vec<u8>) -> Result<(), Memory>
    ensures ok { OnOk result (out.new.items ≡ out.old.items ++ element_text marked (element_view element.now)) }
    ensures err { OnErr result (Grows out.old.items out.new.items) }
{
    push_start_tag(&element.name, marked, element.items.as_slice(), out)?;
    push_parts(element.items.as_slice(), out)?;
    push_end_tag(&element.name, out)
}

#[cycle(writing)]
fn push_parts(items: &[Item], out: &mut Vec<u8>) -> Result<(), Memory>
    ensures ok { OnOk result (out.new.items ≡ out.old.items ++ parts_text (parts_view items.now)) }
    ensures err { OnErr result (Grows out.old.items out.new.items) }
{
    for item in items {
        push_part(item, out)?;
    }
    Ok(())
}

// Nothing, where the item is no part.
#[cycle(writing)]
fn push_part(item: &Item, out: &mut Vec<u8>) -> Result<(), Memory>
    ensures ok { OnOk result (out.new.items ≡ out.old.items ++ part_text (item_view item.now)) }
    ensures err { OnErr result (Grows out.old.items out.new.items) }
{
    match item {
        Item::Text(text) => push_text(text.as_slice(), out),
        Item::Child(element) => push_element(element, false, out),
        _ => Ok(()),
    }
}
