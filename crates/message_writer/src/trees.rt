//! The elements that stand in the Detail of a fault, as trees: WS-ReliableMessaging 1.2, sections 3.4, 3.9 and 4.5.
ghost use Rattle.std.specs.Prelude.{◌≡◌, ◌++◌, [], ◌∷◌, IfOk, OnOk, decimal};
ghost use Rattle.soap_document.specs.Profile.Items.{a_text, a_child, an_attribute, listed};
ghost use Rattle.soap_envelope.specs.Soap.{soap_space};
ghost use Rattle.soap_document.specs.Profile.Tree.{element};
ghost use Rattle.soap_document.specs.Profile.View.{
  element_view,
  items_view,
  decls_view,
  attrs_view,
  parts_view,
};
ghost use Rattle.soap_writer.specs.Nodes.Node.{leaf, void, nothing, node_tree, nodes_tree, each_node};
ghost use Rattle.rm_message.specs.Elements.Outcome.{rm};
ghost use Rattle.rm_message.specs.Elements.Texts.{r, range_node, nack_node, kind_nodes, final_nodes};
ghost use Rattle.message_writer.specs.Faults.{ident_element, max_element, ack_element};

use itoa::Buffer;
use rm_base::{Bytes, Ident, Memory};
use rm_message::elements::{AckBlock, AckKind, MESSAGING};
use rm_sides::ranges::Range;
use soap_document::profile::{Attr, Element, Item, Name, Shared};
use std::alloc::Global;

// An element of the protocol with these items.
fn tree(alloc: Global, local: &[u8], items: Vec<Item>) -> Result<Element, Memory>
    ensures { IfOk result (λ e. element_view e
        ≡ element (rm local.now) (decls_view items.items) (attrs_view items.items) (parts_view items.items)) }
{
    let space = Shared::from_slice(alloc, MESSAGING)?;
    let name = Name::new(alloc, space, local)?;
    Ok(Element { name, items })
}

fn text_item(alloc: Global, text: &[u8]) -> Result<Vec<Item>, Memory>
    ensures { IfOk result (λ items. items_view items.items ≡ a_text text.now ∷ []) }
{
    let mut items = Vec::new(alloc);
    items.push(Item::Text(Bytes::from_slice(alloc, text)?))?;
    Ok(items)
}

fn text_tree(alloc: Global, local: &[u8], text: &[u8]) -> Result<Element, Memory>
    ensures { IfOk result (λ e. element_view e ≡ node_tree soap_space (leaf (r local.now) text.now)) }
{
    let items = text_item(alloc, text)?;
    tree(alloc, local, items)
}

fn void_tree(alloc: Global, local: &[u8]) -> Result<Element, Memory>
    ensures { IfOk result (λ e. element_view e ≡ node_tree soap_space (void (r local.now) [])) }
{
    tree(alloc, local, Vec::new(alloc))
}

/// An Identifier.
pub fn ident_tree(alloc: Global, ident: &Ident) -> Result<Element, Memory>
    ensures { IfOk result (λ e. element_view e ≡ ident_element ident.now) }
{
    text_tree(alloc, b"Identifier", ident.as_slice())
}

/// The MaxMessageNumber.
pub fn max_tree(alloc: Global) -> Result<Element, Memory>
    ensures { IfOk result (λ e. element_view e ≡ max_element) }
{
    text_tree(alloc, b"MaxMessageNumber", b"9223372036854775807")
}

fn push_child(child: Element, items: &mut Vec<Item>) -> Result<(), Memory>
    ensures { OnOk result (items_view items.new.items
        ≡ items_view items.old.items ++ a_child (element_view child) ∷ []) }
{
    items.push(Item::Child(child))?;
    Ok(())
}

fn push_bound(alloc: Global, local: &[u8], number: u64, items: &mut Vec<Item>) -> Result<(), Memory>
    ensures { OnOk result (items_view items.new.items ≡ items_view items.old.items
        ++ an_attribute (record { name = record { space = []; local = local.now }; value = decimal number }) ∷ []) }
{
    let name = Name::new(alloc, Shared::from_slice(alloc, b"")?, local)?;
    let value = Bytes::from_slice(alloc, Buffer::new().format(number).as_bytes())?;
    items.push(Item::Attribute(Attr { name, value }))?;
    Ok(())
}

fn range_tree(alloc: Global, range: &Range) -> Result<Element, Memory>
    ensures { IfOk result (λ e. element_view e ≡ node_tree soap_space (range_node range.now)) }
{
    let mut items = Vec::new(alloc);
    push_bound(alloc, b"Lower", range.lower, &mut items)?;
    push_bound(alloc, b"Upper", range.upper, &mut items)?;
    tree(alloc, b"AcknowledgementRange", items)
}

fn nack_tree(alloc: Global, number: u64) -> Result<Element, Memory>
    ensures { IfOk result (λ e. element_view e ≡ node_tree soap_space (nack_node number)) }
{
    text_tree(alloc, b"Nack", Buffer::new().format(number).as_bytes())
}

fn push_ranges(alloc: Global, ranges: &[Range], items: &mut Vec<Item>) -> Result<(), Memory>
    ensures { OnOk result (items_view items.new.items ≡ items_view items.old.items
        ++ listed (nodes_tree soap_space (each_node range_node ranges.now nothing))) }
{
    for range in ranges {
        push_child(range_tree(alloc, range)?, items)?;
    }
    Ok(())
}

fn push_nacks(alloc: Global, numbers: &[u64], items: &mut Vec<Item>) -> Result<(), Memory>
    ensures { OnOk result (items_view items.new.items ≡ items_view items.old.items
        ++ listed (nodes_tree soap_space (each_node nack_node numbers.now nothing))) }
{
    for number in numbers {
        push_child(nack_tree(alloc, *number)?, items)?;
    }
    Ok(())
}

fn push_void(alloc: Global, local: &[u8], items: &mut Vec<Item>) -> Result<(), Memory>
    ensures { OnOk result (items_view items.new.items ≡ items_view items.old.items
        ++ a_child (node_tree soap_space (void (r local.now) [])) ∷ []) }
{
    push_child(void_tree(alloc, local)?, items)?;
    Ok(())
}

fn push_kind(alloc: Global, kind: &AckKind, items: &mut Vec<Item>) -> Result<(), Memory>
    ensures { OnOk result (items_view items.new.items ≡ items_view items.old.items
        ++ listed (nodes_tree soap_space (kind_nodes kind.now nothing))) }
{
    match kind {
        AckKind::Ranges(ranges) => push_ranges(alloc, ranges.as_slice(), items),
        AckKind::Nothing => push_void(alloc, b"None", items),
        AckKind::Nack(numbers) => push_nacks(alloc, numbers.as_slice(), items),
    }
}

fn push_final(alloc: Global, last: bool, items: &mut Vec<Item>) -> Result<(), Memory>
    ensures { OnOk result (items_view items.new.items ≡ items_view items.old.items
        ++ listed (nodes_tree soap_space (final_nodes last))) }
{
    if last {
        return push_void(alloc, b"Final", items);
    }
    Ok(())
}

#[tactic(auto, using(crate::proofs::TreeLemmas::kind_listed))]
fn ack_items(alloc: Global, block: &AckBlock) -> Result<Vec<Item>, Memory>
    ensures { IfOk result (λ items. items_view items.items ≡ a_child (ident_element block.now.ident)
        ∷ listed (nodes_tree soap_space (kind_nodes block.now.kind (final_nodes block.now.last)))) }
{
    let mut items = Vec::new(alloc);
    push_child(ident_tree(alloc, &block.ident)?, &mut items)?;
    push_kind(alloc, &block.kind, &mut items)?;
    push_final(alloc, block.last, &mut items)?;
    Ok(items)
}

/// A SequenceAcknowledgement.
pub fn ack_tree(alloc: Global, block: &AckBlock) -> Result<Element, Memory>
    ensures { IfOk result (λ e. element_view e ≡ ack_element block.now) }
{
    let items = ack_items(alloc, block)?;
    let tree = tree(alloc, b"SequenceAcknowledgement", items)?;
    Ok(tree)
}
