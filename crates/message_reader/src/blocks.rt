//! Header blocks by name, and those that had to be understood: SOAP 1.2 Part 1, section 2.4.
ghost use Rattle.std.specs.Prelude.{◌≡◌, ◌++◌, map, option_map, IfOk};
ghost use Rattle.std.specs.Str.{bytes_eq};
ghost use Rattle.soap_document.specs.Profile.View.{element_view};
ghost use Rattle.soap_document.specs.Profile.Tree.{attrs_of};
ghost use Rattle.soap_writer.specs.Values.Children.{name_in, is_same, value_among};
ghost use Rattle.soap_writer.specs.Values.Outcome.{Gives, optional};
ghost use Rattle.soap_writer.specs.Values.Steps.{lent_trees};
ghost use Rattle.message_reader.specs.Blocks.{
  is_block as is_block_of,
  blocks,
  has_block as has_block_of,
  is_addressing as is_addressing_name,
  version_header as version_header_name,
  is_understood as is_understood_name,
  demands as demands_of,
  role_name as role_name_of,
  must_be_understood as must_be_understood_of,
  is_role12 as is_role12_of,
  is_own_role as is_own_role_of,
  is_own as is_own_by,
  is_not_understood as is_not_understood_of,
  not_understood as not_understood_of,
};

use rm_base::{Items, Memory};
use rm_message::Names;
use rm_message::elements::{MESSAGING, header_name};
use soap_document::profile::{Element, Name};
use soap_envelope::is_soap11;
use soap_writer::values::{Flaw, find_value, is_named, is_true_mark, trim};
use std::alloc::Global;
use wsa_headers::{ADDRESSING, is_parameter};

/// The role of the next node on the way: SOAP 1.1, section 4.2.2.
const NEXT_ACTOR: &[u8] = b"http://schemas.xmlsoap.org/soap/actor/next";

fn is_block(block: &Element, space: &[u8], local: &[u8]) -> bool
    ensures { result ≡ is_block_of (name_in space.now local.now) (element_view block.now) }
{
    is_named(&block.name, space, local) && !is_parameter(block)
}

/// Whether there is a header block of a name.
pub(crate) fn has_block(headers: &[Element], space: &[u8], local: &[u8]) -> bool
    ensures { result ≡ has_block_of (name_in space.now local.now) (map element_view headers.now) }
{
    for block in headers {
        if is_block(block, space, local) {
            return true;
        }
    }
    false
}

/// The header block of a name, of which there is one at most.
#[tactic(auto, using(crate::proofs::BlockLemmas::blocks_more))]
pub(crate) fn find_block<'a>(
    headers: &'a [Element],
    space: &[u8],
    local: &[u8],
) -> Result<Option<&'a Element>, Flaw>
    ensures { Gives (λ found. option_map (λ e. element_view e.now) found) result
        (optional (blocks (name_in space.now local.now) (map element_view headers.now))) }
{
    let mut found = None;
    for block in headers {
        if is_block(block, space, local) {
            if found.is_some() {
                return Err(Flaw::Malformed);
            }
            found = Some(block);
        }
    }
    Ok(found)
}

/// The header blocks of a name, in order.
#[tactic(auto, using(crate::proofs::BlockLemmas::blocks_more))]
pub(crate) fn find_blocks<'a>(
    alloc: Global,
    headers: &'a [Element],
    space: &[u8],
    local: &[u8],
) -> Result<Vec<&'a Element>, Memory>
    ensures { IfOk result (λ v. lent_trees v.items ≡ blocks (name_in space.now local.now)
        (map element_view headers.now)) }
{
    let mut found = Vec::new(alloc);
    for block in headers {
        if is_block(block, space, local) {
            found.push(block)?;
        }
    }
    Ok(found)
}

fn is_addressing(name: &Name) -> bool
    ensures { result ≡ is_addressing_name name.now }
{
    if is_named(name, ADDRESSING, b"To") {
        return true;
    }
    if is_named(name, ADDRESSING, b"From") {
        return true;
    }
    if is_named(name, ADDRESSING, b"ReplyTo") {
        return true;
    }
    if is_named(name, ADDRESSING, b"FaultTo") {
        return true;
    }
    if is_named(name, ADDRESSING, b"Action") {
        return true;
    }
    if is_named(name, ADDRESSING, b"MessageID") {
        return true;
    }
    is_named(name, ADDRESSING, b"RelatesTo")
}

// Whether it is the header that only one version has.
fn is_version_header(name: &Name, soap: &[u8]) -> bool
    ensures { result ≡ is_same name.now (version_header_name soap.now) }
{
    if is_soap11(soap) {
        return is_named(name, MESSAGING, b"SequenceFault");
    }
    is_named(name, soap, b"NotUnderstood")
}

fn is_understood(name: &Name, soap: &[u8]) -> bool
    ensures { result ≡ is_understood_name soap.now name.now }
{
    is_addressing(name) || header_name(name).is_some() || is_version_header(name, soap)
}

fn demands(first: bool, mark: Option<&[u8]>) -> bool
    ensures { result ≡ demands_of first (option_map (λ mark. mark.now) mark.entry) }
{
    match mark {
        Some(mark) => {
            if first {
                return trim(mark) == b"1".as_slice();
            }
            is_true_mark(mark)
        }
        None => false,
    }
}

fn must_be_understood(block: &Element, soap: &[u8]) -> bool
    ensures { result ≡ must_be_understood_of soap.now (element_view block.now) }
{
    demands(
        is_soap11(soap),
        find_value(block.items.as_slice(), soap, b"mustUnderstand"),
    )
}

// What names the role of a block.
fn role_of<'a>(block: &'a Element, soap: &[u8]) -> Option<&'a [u8]>
    ensures { option_map (λ value. value.now) result
        ≡ value_among (role_name_of soap.now) (attrs_of (element_view block.now)) }
{
    if is_soap11(soap) {
        return find_value(block.items.as_slice(), soap, b"actor");
    }
    find_value(block.items.as_slice(), soap, b"role")
}

// Whether the bytes are the front and then the back.
#[tactic(auto, using(crate::proofs::Joined::joined, crate::proofs::Joined::not_joined))]
fn is_joined(bytes: &[u8], front: &[u8], back: &[u8]) -> bool
    ensures { result ≡ bytes_eq bytes.now (front.now ++ back.now) }
{
    match bytes.strip_prefix(front) {
        Some(rest) => rest == back,
        None => false,
    }
}

fn is_role12(role: &[u8], soap: &[u8]) -> bool
    ensures { result ≡ is_role12_of soap.now role.now }
{
    is_joined(role, soap, b"/role/next") || is_joined(role, soap, b"/role/ultimateReceiver")
}

fn is_own_role(role: &[u8], soap: &[u8]) -> bool
    ensures { result ≡ is_own_role_of soap.now role.now }
{
    if is_soap11(soap) {
        return role == NEXT_ACTOR;
    }
    is_role12(role, soap)
}

fn is_own(role: Option<&[u8]>, soap: &[u8]) -> bool
    ensures { result ≡ is_own_by soap.now (option_map (λ role. role.now) role.entry) }
{
    match role {
        Some(role) => is_own_role(role, soap),
        None => true,
    }
}

fn is_not_understood(block: &Element, soap: &[u8]) -> bool
    ensures { result ≡ is_not_understood_of soap.now (element_view block.now) }
{
    !is_parameter(block)
        && !is_understood(&block.name, soap)
        && must_be_understood(block, soap)
        && is_own(role_of(block, soap), soap)
}

/// The names of the blocks that had to be understood and are not, in order.
#[tactic(auto, using(crate::proofs::BlockLemmas::refused_more))]
pub(crate) fn not_understood(
    alloc: Global,
    headers: &[Element],
    soap: &[u8],
) -> Result<Names, Memory>
    ensures { IfOk result (λ names. names ≡ not_understood_of soap.now (map element_view headers.now)) }
{
    let mut names = Items::new(alloc);
    for block in headers {
        if is_not_understood(block, soap) {
            names.push(block.name.share()?)?;
        }
    }
    Ok(names)
}
