//! Whether reference parameters keep their limits. Their texts are measured and not written, and no further than there
//! is room, since a namespace that is declared once is written wherever it is used.
ghost use Rattle.std.specs.Prelude.{◌≡◌, ◌<◌, ◌+◌, ◌^◌, ◌∷◌, [], length, map, decimal, nat_le};
ghost use Rattle.std.specs.List.{list_all};
ghost use Rattle.soap_lex.specs.Escapes.{text_escape, value_escape};
ghost use Rattle.soap_document.specs.Profile.Payload.{height};
ghost use Rattle.soap_document.specs.Profile.View.{element_view, attrs_view, parts_view};
ghost use Rattle.wsa_headers.specs.Endpoint.{may_keep as may_keep_of};
ghost use Rattle.wsa_headers.specs.Room.{
  left_of,
  text_room,
  value_room,
  name_length as name_length_of,
  declaration_room,
  attribute_room,
  attributes_room,
  tags_room,
  element_room,
  parts_room,
  elements_room,
};

use itoa::Buffer;
use rm_base::limits::{CONTENT_DEPTH, PARAMETER_BYTES};
use soap_document::profile::{Attr, Element, Item, Name, is_shallow};

/// Whether no parameter is nested too deeply, and their texts are together not too long.
#[tactic(auto, using(crate::proofs::RoomLemmas::room_decides))]
pub(crate) fn may_keep(params: &[Element]) -> bool
    ensures { result ≡ may_keep_of (map element_view params.now) }
{
    are_within(params, CONTENT_DEPTH) && after_elements(params, PARAMETER_BYTES).is_some()
}

fn are_within(params: &[Element], levels: usize) -> bool
    ensures { result ≡ list_all (λ p. nat_le (height p) levels) (map element_view params.now) }
{
    for param in params {
        if !is_shallow(param, levels) {
            return false;
        }
    }
    true
}

fn after(cost: usize, room: usize) -> Option<usize>
    ensures { result ≡ left_of cost room }
{
    if cost <= room {
        return Some(room - cost);
    }
    None
}

fn text_cost(byte: u8) -> usize
    ensures { result ≡ length (text_escape byte) }
{
    match byte {
        b'&' => 5,
        b'<' => 4,
        b'>' => 4,
        b'\r' => 5,
        _ => 1,
    }
}

fn value_cost(byte: u8) -> usize
    ensures { result ≡ length (value_escape byte) }
{
    match byte {
        b'"' => 6,
        b'\t' => 4,
        b'\n' => 5,
        _ => text_cost(byte),
    }
}

fn after_text(text: &[u8], room: usize) -> Option<usize>
    ensures { result ≡ text_room text.now room }
{
    let mut left = room;
    for byte in text {
        left = after(text_cost(*byte), left)?;
    }
    Some(left)
}

fn after_value(value: &[u8], room: usize) -> Option<usize>
    ensures { result ≡ value_room value.now room }
{
    let mut left = room;
    for byte in value {
        left = after(value_cost(*byte), left)?;
    }
    Some(left)
}

// The length of a name with a prefix of so many bytes.
fn name_length(prefix: usize, name: &Name) -> usize
    requires { prefix < 100 }
    ensures value { result ≡ name_length_of prefix name.now }
    ensures bound { result < 2 ^ 63 + 101 }
{
    if name.is_bare() {
        return name.local().len();
    }
    if name.is_of_xml() {
        return 4 + name.local().len();
    }
    prefix + (1 + name.local().len())
}

#[tactic(auto, unfolding(crate::specs::Room::declaration_room))]
fn after_declaration(prefix: usize, name: &Name, room: usize) -> Option<usize>
    requires { prefix < 100 }
    ensures { result ≡ declaration_room prefix name.now room }
{
    if name.is_bare() || name.is_of_xml() {
        return Some(room);
    }
    let left = after(10 + prefix, room)?;
    after_value(name.space(), left)
}

#[tactic(auto, unfolding(crate::specs::Room::attribute_room))]
fn after_attribute(prefix: usize, attr: &Attr, room: usize) -> Option<usize>
    requires { prefix < 100 }
    ensures { result ≡ attribute_room prefix attr.now room }
{
    let first = after_declaration(prefix, &attr.name, room)?;
    let second = after(4 + name_length(prefix, &attr.name), first)?;
    after_value(attr.value.as_slice(), second)
}

// How many bytes the prefix of the attribute with this number has.
fn prefix_length(number: usize) -> usize
    ensures value { result ≡ 1 + length (decimal number) }
    ensures bound { result < 100 }
{
    1 + Buffer::new().format(number).as_bytes().len()
}

fn after_attributes(items: &[Item], room: usize) -> Option<usize>
    ensures { result ≡ attributes_room 0 (attrs_view items.now) room }
{
    let mut number = 0;
    let mut left = room;
    for item in items {
        if let Item::Attribute(attr) = item {
            left = after_attribute(prefix_length(number), attr, left)?;
            number += 1;
        }
    }
    Some(left)
}

#[tactic(auto, unfolding(crate::specs::Room::tags_room))]
fn after_tags(name: &Name, items: &[Item], room: usize) -> Option<usize>
    ensures { result ≡ tags_room name.now (attrs_view items.now) room }
{
    let length = name_length(1, name);
    let first = after(5 + length, room)?;
    let second = after(length, first)?;
    let third = after_declaration(1, name, second)?;
    after_attributes(items, third)
}

#[cycle(measuring)]
fn after_element(element: &Element, room: usize) -> Option<usize>
    ensures { result ≡ element_room (element_view element.now) room }
{
    let left = after_tags(&element.name, element.items.as_slice(), room)?;
    after_parts(element.items.as_slice(), left)
}

#[tactic(auto, using(crate::proofs::RoomLemmas::parts_more))]
#[cycle(measuring)]
fn after_parts(items: &[Item], room: usize) -> Option<usize>
    ensures { result ≡ parts_room (parts_view items.now) room }
{
    let mut left = room;
    for item in items {
        left = after_part(item, left)?;
    }
    Some(left)
}

#[cycle(measuring)]
fn after_part(item: &Item, room: usize) -> Option<usize>
    ensures { result ≡ parts_room (parts_view (item.now ∷ [])) room }
{
    match item {
        Item::Text(text) => after_text(text.as_slice(), room),
        Item::Child(element) => after_element(element, room),
        _ => Some(room),
    }
}

fn after_elements(elements: &[Element], room: usize) -> Option<usize>
    ensures { result ≡ elements_room (map element_view elements.now) room }
{
    let mut left = room;
    for element in elements {
        left = after_element(element, left)?;
    }
    Some(left)
}
