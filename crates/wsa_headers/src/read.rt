//! Message addressing properties from header blocks: WS-Addressing 1.0 Core, section 3.
ghost use Rattle.std.specs.Prelude.{◌≡◌, ◌||◌, map, option_map, codes, IfOk, Some};
ghost use Rattle.std.specs.List.{filter};
ghost use Rattle.soap_document.specs.Profile.View.{element_view};
ghost use Rattle.soap_writer.specs.Values.Outcome.{Gives, optional, each};
ghost use Rattle.soap_writer.specs.Values.Steps.{lent_trees};
ghost use Rattle.wsa_headers.specs.Endpoint.{uri_of};
ghost use Rattle.wsa_headers.specs.Addressing.{
  Answers,
  is_marked,
  is_header as is_header_of,
  blocks_named,
  is_repeated as is_repeated_in,
  repeated as repeated_in,
  uri_header,
  epr_header,
  is_reply as is_reply_of,
  first_of,
  relates_in,
  or_anonymous,
  params_of,
  replies_in,
  properties_in,
  is_unreadable as is_unreadable_block,
  unreadable,
  is_missing as is_missing_in,
  addressing_in,
};

use crate::addressing::Addressing;
use crate::endpoint::{ADDRESSING, Epr, read_address_of, read_reference, unmark};
use crate::error::AddressingError;
use rm_base::{Blob, Items, Memory, Uri};
use soap_document::profile::{Element, Elements};
use soap_writer::values::{Flaw, find_value, is_named, is_true_mark, read_uri};
use std::alloc::Global;

const REPLY: &[u8] = b"http://www.w3.org/2005/08/addressing/reply";

/// The address of whoever is at the other end of the connection: Core, section 2.1.
pub const ANONYMOUS: &[u8] = b"http://www.w3.org/2005/08/addressing/anonymous";

/// Whether a block is a reference parameter of the endpoint that the message was sent to. Then it is no header,
/// whatever its name: SOAP Binding, section 3.3.
pub fn is_parameter(block: &Element) -> bool
    ensures { result ≡ is_marked (element_view block.now) }
{
    match find_value(block.items.as_slice(), ADDRESSING, b"IsReferenceParameter") {
        Some(value) => is_true_mark(value),
        None => false,
    }
}

fn is_header(block: &Element, local: &[u8]) -> bool
    ensures { result ≡ is_header_of local.now (element_view block.now) }
{
    is_named(&block.name, ADDRESSING, local) && !is_parameter(block)
}

// The header of a name, and None where it stands there twice.
#[tactic(auto, using(crate::proofs::Blocks::blocks_more))]
fn at_most_one<'a>(headers: &'a [Element], local: &[u8]) -> Option<Option<&'a Element>>
    ensures { option_map (λ found. option_map (λ e. element_view e.now) found) result
        ≡ optional (blocks_named local.now (map element_view headers.now)) }
{
    let mut found = None;
    for block in headers {
        if is_header(block, local) {
            if found.is_some() {
                return None;
            }
            found = Some(block);
        }
    }
    Some(found)
}

#[tactic(auto, using(crate::proofs::Blocks::blocks_more))]
fn find_headers<'a>(
    alloc: Global,
    headers: &'a [Element],
    local: &[u8],
) -> Result<Vec<&'a Element>, Memory>
    ensures { IfOk result (λ v. lent_trees v.items ≡ blocks_named local.now (map element_view headers.now)) }
{
    let mut blocks = Vec::new(alloc);
    for block in headers {
        if is_header(block, local) {
            blocks.push(block)?;
        }
    }
    Ok(blocks)
}

fn is_repeated(headers: &[Element], local: &[u8]) -> bool
    ensures { result ≡ is_repeated_in local.now (map element_view headers.now) }
{
    at_most_one(headers, local).is_none()
}

// The first header, in the order of the properties, that stands there twice.
fn repeated(headers: &[Element]) -> Option<&'static [u8]>
    ensures { option_map (λ name. name.now) result ≡ repeated_in (map element_view headers.now) }
{
    if is_repeated(headers, b"To") {
        return Some(b"To");
    }
    if is_repeated(headers, b"Action") {
        return Some(b"Action");
    }
    if is_repeated(headers, b"MessageID") {
        return Some(b"MessageID");
    }
    if is_repeated(headers, b"ReplyTo") {
        return Some(b"ReplyTo");
    }
    if is_repeated(headers, b"FaultTo") {
        return Some(b"FaultTo");
    }
    None
}

fn is_missing(headers: &[Element], local: &[u8]) -> bool
    ensures { result ≡ is_missing_in local.now (map element_view headers.now) }
{
    for block in headers {
        if is_header(block, local) {
            return false;
        }
    }
    true
}

fn read_uri_header(alloc: Global, headers: &[Element], local: &[u8]) -> Result<Option<Uri>, Flaw>
    ensures { Gives (λ o. o) result (uri_header local.now (map element_view headers.now)) }
{
    let Some(found) = at_most_one(headers, local) else {
        return Err(Flaw::Malformed);
    };
    let Some(block) = found else {
        return Ok(None);
    };
    Ok(Some(read_address_of(alloc, block)?))
}

fn read_epr_header(alloc: Global, headers: &[Element], local: &[u8]) -> Result<Option<Epr>, Flaw>
    ensures { Gives (λ o. o) result (epr_header local.now (map element_view headers.now)) }
{
    let Some(found) = at_most_one(headers, local) else {
        return Err(Flaw::Malformed);
    };
    let Some(block) = found else {
        return Ok(None);
    };
    Ok(Some(read_reference(alloc, block)?))
}

fn is_reply(block: &Element) -> bool
    ensures { result ≡ is_reply_of (element_view block.now) }
{
    match find_value(block.items.as_slice(), b"", b"RelationshipType") {
        Some(value) => value == REPLY,
        None => true,
    }
}

fn read_addresses(alloc: Global, blocks: &[&Element]) -> Result<Items<Uri>, Flaw>
    ensures { Gives (λ us. us) result (each uri_of (lent_trees blocks.now)) }
{
    let mut addresses = Items::new(alloc);
    for block in blocks {
        addresses.push(read_address_of(alloc, block)?)?;
    }
    Ok(addresses)
}

fn first_reply<'a>(blocks: &[&'a Element]) -> Option<&'a Element>
    ensures { option_map (λ e. element_view e.now) result ≡ first_of (filter is_reply_of (lent_trees blocks.now)) }
{
    for block in blocks {
        if is_reply(block) {
            return Some(*block);
        }
    }
    None
}

fn read_relates(alloc: Global, headers: &[Element]) -> Result<Option<Uri>, Flaw>
    ensures { Gives (λ o. o) result (relates_in (map element_view headers.now)) }
{
    let blocks = find_headers(alloc, headers, b"RelatesTo")?;
    let _addresses = read_addresses(alloc, blocks.as_slice())?;
    let Some(block) = first_reply(blocks.as_slice()) else {
        return Ok(None);
    };
    Ok(Some(read_address_of(alloc, block)?))
}

fn to_or_anonymous(alloc: Global, to: Option<Uri>) -> Result<Uri, Flaw>
    ensures { Gives (λ uri. uri) result (Some (or_anonymous to)) }
{
    match to {
        Some(to) => Ok(to),
        None => read_uri(alloc, ANONYMOUS),
    }
}

#[tactic(auto, using(crate::proofs::Blocks::params_more))]
fn read_message_params(alloc: Global, headers: &[Element]) -> Result<Elements, Memory>
    ensures { IfOk result (λ params. params ≡ params_of (map element_view headers.now)) }
{
    let mut params = Elements::new(alloc);
    for block in headers {
        if is_parameter(block) {
            params.push(unmark(alloc, block)?)?;
        }
    }
    Ok(params)
}

#[tactic(auto, unfolding(crate::specs::Addressing::replies_in))]
fn read_replies(alloc: Global, headers: &[Element]) -> Result<(Option<Epr>, Option<Epr>), Flaw>
    ensures { Gives (λ r. r) result (replies_in (map element_view headers.now)) }
{
    let reply_to = read_epr_header(alloc, headers, b"ReplyTo")?;
    let fault_to = read_epr_header(alloc, headers, b"FaultTo")?;
    Ok((reply_to, fault_to))
}

#[tactic(auto, unfolding(crate::specs::Addressing::properties_in))]
fn read_properties(alloc: Global, headers: &[Element]) -> Result<Addressing, Flaw>
    ensures { Gives (λ a. a) result (properties_in (map element_view headers.now)) }
{
    let to = read_uri_header(alloc, headers, b"To")?;
    let Some(action) = read_uri_header(alloc, headers, b"Action")? else {
        return Err(Flaw::Malformed);
    };
    let message_id = read_uri_header(alloc, headers, b"MessageID")?;
    let relates = read_relates(alloc, headers)?;
    let (reply_to, fault_to) = read_replies(alloc, headers)?;
    Ok(Addressing {
        to: to_or_anonymous(alloc, to)?,
        action,
        message_id,
        relates,
        reply_to,
        fault_to,
        params: read_message_params(alloc, headers)?,
    })
}

fn is_address_header(block: &Element) -> bool
    ensures { result ≡ (is_header_of (codes "To") (element_view block.now)
        || is_header_of (codes "Action") (element_view block.now)
        || is_header_of (codes "MessageID") (element_view block.now)
        || is_header_of (codes "RelatesTo") (element_view block.now)) }
{
    is_header(block, b"To")
        || is_header(block, b"Action")
        || is_header(block, b"MessageID")
        || is_header(block, b"RelatesTo")
}

fn is_reference_header(block: &Element) -> bool
    ensures { result ≡ (is_header_of (codes "ReplyTo") (element_view block.now)
        || is_header_of (codes "FaultTo") (element_view block.now)) }
{
    is_header(block, b"ReplyTo") || is_header(block, b"FaultTo")
}

fn is_unreadable(alloc: Global, block: &Element) -> Result<bool, Memory>
    ensures { IfOk result (λ answer. answer ≡ is_unreadable_block (element_view block.now)) }
{
    if is_address_header(block) {
        return match read_address_of(alloc, block) {
            Ok(_) => Ok(false),
            Err(Flaw::Memory) => Err(Memory),
            Err(Flaw::Malformed) => Ok(true),
        };
    }
    if is_reference_header(block) {
        return match read_reference(alloc, block) {
            Ok(_) => Ok(false),
            Err(Flaw::Memory) => Err(Memory),
            Err(Flaw::Malformed) => Ok(true),
        };
    }
    Ok(false)
}

// The local name of the first header that has no value of its kind.
fn first_unreadable(alloc: Global, headers: &[Element]) -> Result<Blob, Memory>
    ensures { IfOk result (λ name. name ≡ unreadable (map element_view headers.now)) }
{
    for block in headers {
        if is_unreadable(alloc, block)? {
            return Blob::from_slice(alloc, block.name.local());
        }
    }
    Ok(Blob::new(alloc))
}

/// The addressing properties of a message with these header blocks. Blocks of other names are passed over. The first
/// error that holds is answered: a header that stands there twice, the missing Action, a header without a value.
/// - Cardinality, HeaderMissing, BadHeader: exactly with the first that holds of the blocks, and the header's name.
pub fn read_addressing(alloc: Global, headers: &Elements) -> Result<Addressing, AddressingError>
    ensures { Answers result (addressing_in headers.now) }
{
    read_blocks(alloc, headers.as_slice())
}

fn read_blocks(alloc: Global, headers: &[Element]) -> Result<Addressing, AddressingError>
    ensures { Answers result (addressing_in (map element_view headers.now)) }
{
    if let Some(name) = repeated(headers) {
        return Err(AddressingError::Cardinality {
            name: Blob::from_slice(alloc, name)?,
        });
    }
    if is_missing(headers, b"Action") {
        return Err(AddressingError::HeaderMissing {
            name: Blob::from_slice(alloc, b"Action")?,
        });
    }
    match read_properties(alloc, headers) {
        Ok(properties) => Ok(properties),
        Err(Flaw::Memory) => Err(AddressingError::Memory),
        Err(Flaw::Malformed) => Err(AddressingError::BadHeader {
            name: first_unreadable(alloc, headers)?,
        }),
    }
}
