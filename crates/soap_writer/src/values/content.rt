//! The text of an element and the values of its attributes.
ghost use Rattle.std.specs.Cow.{cow_slice_items};
ghost use Rattle.std.specs.Prelude.{◌≡◌, option_map, map};
ghost use Rattle.soap_document.specs.Profile.View.{element_view, parts_view, attrs_view};
ghost use Rattle.soap_writer.specs.Values.Children.{name_in, text_among, value_among};
ghost use Rattle.soap_writer.specs.Values.Outcome.{Gives};
ghost use Rattle.soap_writer.specs.Values.Values.{trimmed, trimmed_start, trimmed_end, trimmed_text, is_true};

use crate::values::children::is_named;
use crate::values::flaw::Flaw;
use soap_document::profile::{Element, Item};
use std::alloc::Global;
use std::borrow::CowSlice;
use xml_chars::is_space;

/// The text of content, put together; it is lent where nothing else stands there. A child element makes it unreadable.
/// Malformed exactly where a child stands among the text.
pub fn read_text(alloc: Global, items: &[Item]) -> Result<CowSlice<'_, u8>, Flaw>
    ensures { Gives cow_slice_items result (text_among (parts_view items.now)) }
{
    if let [Item::Text(bytes)] = items {
        return Ok(CowSlice::Borrowed(bytes.as_slice()));
    }
    Ok(CowSlice::Owned(joined_text(alloc, items)?))
}

fn joined_text(alloc: Global, items: &[Item]) -> Result<Vec<u8>, Flaw>
    ensures { Gives (λ v. v.items) result (text_among (parts_view items.now)) }
{
    let mut text = Vec::new(alloc);
    for item in items {
        match item {
            Item::Text(bytes) => text.extend_from_slice(bytes.as_slice())?,
            Item::Child(_) => return Err(Flaw::Malformed),
            _ => {}
        }
    }
    Ok(text)
}

/// The text of an element, without white space at its ends.
pub fn read_trimmed(alloc: Global, element: &Element) -> Result<Vec<u8>, Flaw>
    ensures { Gives (λ v. v.items) result (trimmed_text (element_view element.now)) }
{
    let text = read_text(alloc, element.items.as_slice())?;
    Ok(Vec::from_slice(alloc, trim(text.as_slice()))?)
}

/// The bytes without white space at their ends.
pub fn trim(bytes: &[u8]) -> &[u8]
    ensures { result.now ≡ trimmed bytes.now }
{
    trim_end(trim_start(bytes))
}

fn trim_start(bytes: &[u8]) -> &[u8]
    ensures { result.now ≡ trimmed_start bytes.now }
{
    for i in 0..bytes.len() {
        if !is_space(bytes[i]) {
            return &bytes[i..];
        }
    }
    &bytes[bytes.len()..]
}

fn trim_end(bytes: &[u8]) -> &[u8]
    ensures { result.now ≡ trimmed_end bytes.now }
{
    let mut end = bytes.len();
    while end > 0 && is_space(bytes[end - 1]) {
        end -= 1;
    }
    &bytes[..end]
}

/// The value of the attribute of a name.
pub fn find_value<'a>(items: &'a [Item], space: &[u8], local: &[u8]) -> Option<&'a [u8]>
    ensures { option_map (λ v. v.now) result ≡ value_among (name_in space.now local.now) (attrs_view items.now) }
{
    for item in items {
        if let Item::Attribute(attr) = item {
            if is_named(&attr.name, space, local) {
                return Some(attr.value.as_slice());
            }
        }
    }
    None
}

/// Whether a mark says that something holds: `true` or `1`, without white space at its ends.
pub fn is_true_mark(bytes: &[u8]) -> bool
    ensures { result ≡ is_true bytes.now }
{
    let mark = trim(bytes);
    mark == b"true".as_slice() || mark == b"1".as_slice()
}
