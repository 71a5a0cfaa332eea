//! Responses: WS-ReliableMessaging 1.2, sections 3.4 to 3.6.
ghost use Rattle.std.specs.Prelude.{◌≡◌, ◌<◌, ◌^◌, ◌∷◌, [], List, true, false, IfOk, None, Some};
ghost use Rattle.record_batch.specs.Fact.{Fact};
ghost use Rattle.rm_message.specs.declared.elements.lifecycle.Lifecycle.TheVariants as life;
ghost use Rattle.rm_protocol.specs.Addresses.{reply_endpoint as reply_endpoint_of};
ghost use Rattle.rm_protocol.specs.Messages.{response_of};
ghost use Rattle.rm_protocol.specs.Said.{accept_by};
ghost use Rattle.record_batch.specs.Sequences.Find.{plain_endpoint as plain_endpoint_of};
ghost use Rattle.record_batch.specs.Sequences.Idents.{issue as issue_of};
ghost use Rattle.record_batch.specs.Sequences.Makers.{number};
ghost use Rattle.node_messages.specs.Homes.{IsHome};
ghost use Rattle.node_messages.specs.Names.{name_text};

use crate::endpoint::{plain_endpoint, reply_endpoint};
use crate::home::Home;
use crate::name::Name;
use crate::plain::plain;
use record_batch::sequences::issue;
use rm_base::{Behaviour, Ident, Lapse, Memory, Uri, copy_optional_uri};
use rm_message::elements::{AckBlock, CreateResponse, Lifecycle};
use rm_message::{Acks, Body, Message};
use std::alloc::Global;
use wsa_headers::{Addressing, Epr};

// A response to a message, with the blocks that belong to it.
fn response(
    alloc: Global,
    to: Epr,
    relates: Option<Uri>,
    name: Name,
    content: Lifecycle,
    blocks: Acks,
) -> Result<Message, Memory>
    ensures { IfOk result (λ m. m ≡ response_of to relates (name_text name) content blocks) }
{
    let mut message = plain(alloc, to, name.action(), Body::Lifecycle(content))?;
    message.addressing.relates = relates;
    message.acks = blocks;
    Ok(message)
}

// The AcksTo of Accept: the node's address, where an offer was taken.
fn accept(alloc: Global, address: &Uri, is_taken: bool) -> Result<Option<Epr>, Memory>
    ensures none { is_taken ≡ false → IfOk result (λ given. given ≡ None) }
    ensures some { is_taken ≡ true → IfOk result (λ given. given ≡ Some (plain_endpoint_of address.now)) }
{
    if !is_taken {
        return Ok(None);
    }
    Ok(Some(plain_endpoint(alloc, address.copy()?)))
}

/// The response to a CreateSequence for which a sequence was granted: its identifier was drawn with the counter, and
/// the node's address stands in Accept where the offer was taken.
pub fn grant_response(
    alloc: Global,
    home: Home<'_>,
    to: Epr,
    relates: &Uri,
    counter: u64,
    lapse: Lapse,
    behaviour: Behaviour,
    is_taken: bool,
) -> Result<Message, Memory>
    requires node { home.number < 2 ^ 60 }
    requires counter { counter < 2 ^ 62 }
    ensures { (r : List Fact) → IsHome home.entry r
        → IfOk result (λ m. m ≡ response_of to (Some relates.now) (name_text Name.CreateSequenceResponse)
        (life.CreateResponse (record {
          ident = issue_of (number r) counter;
          expires = lapse;
          behaviour = behaviour;
          accept = accept_by r is_taken;
        })) []) }
{
    let ident = issue(alloc, home.number, counter)?;
    let accept = accept(alloc, home.address, is_taken)?;
    let content = Lifecycle::CreateResponse(CreateResponse {
        ident,
        expires: lapse,
        behaviour,
        accept,
    });
    let relates = Some(relates.copy()?);
    response(
        alloc,
        to,
        relates,
        Name::CreateSequenceResponse,
        content,
        Acks::new(alloc),
    )
}

// A list of one block.
pub(crate) fn one_block(alloc: Global, block: AckBlock) -> Result<Acks, Memory>
    ensures { IfOk result (λ blocks. blocks ≡ block ∷ []) }
{
    let mut blocks = Acks::new(alloc);
    blocks.push(block)?;
    Ok(blocks)
}

// The response to the end of a sequence, with the final acknowledgement.
fn finish_response(
    alloc: Global,
    addressing: &Addressing,
    name: Name,
    content: Lifecycle,
    block: AckBlock,
) -> Result<Message, Memory>
    ensures { IfOk result (λ m. m ≡ response_of (reply_endpoint_of addressing.now) addressing.now.message_id
        (name_text name) content (block ∷ [])) }
{
    let to = reply_endpoint(alloc, addressing)?;
    let relates = copy_optional_uri(&addressing.message_id)?;
    let blocks = one_block(alloc, block)?;
    response(alloc, to, relates, name, content, blocks)
}

/// The response to a CloseSequence with these headers, with the final acknowledgement.
pub fn close_response(
    alloc: Global,
    addressing: &Addressing,
    ident: &Ident,
    block: AckBlock,
) -> Result<Message, Memory>
    ensures { IfOk result (λ m. m ≡ response_of (reply_endpoint_of addressing.now) addressing.now.message_id
        (name_text Name.CloseSequenceResponse) (life.CloseResponse ident.now) (block ∷ [])) }
{
    let content = Lifecycle::CloseResponse(ident.copy()?);
    finish_response(
        alloc,
        addressing,
        Name::CloseSequenceResponse,
        content,
        block,
    )
}

/// The response to a TerminateSequence with these headers, with the final acknowledgement.
pub fn terminate_response(
    alloc: Global,
    addressing: &Addressing,
    ident: &Ident,
    block: AckBlock,
) -> Result<Message, Memory>
    ensures { IfOk result (λ m. m ≡ response_of (reply_endpoint_of addressing.now) addressing.now.message_id
        (name_text Name.TerminateSequenceResponse) (life.TerminateResponse ident.now) (block ∷ [])) }
{
    let content = Lifecycle::TerminateResponse(ident.copy()?);
    finish_response(
        alloc,
        addressing,
        Name::TerminateSequenceResponse,
        content,
        block,
    )
}
