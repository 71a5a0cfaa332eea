//! The fault that answers a refusal.
ghost use Rattle.std.specs.Prelude.{◌≡◌, IfOk, option_map};
ghost use Rattle.std.specs.Option.{option_to_list};
ghost use Rattle.message_writer.specs.Faults.{
  table,
  named,
  detail_of,
  acks_of,
  names_of,
  ident_element,
  ack_element,
  fault_body as body_of,
  fault_of,
  addressing_of,
};

use crate::table::{Vocabulary, code, inner, subcode, whose as whose_of};
use crate::trees::{ack_tree, ident_tree, max_tree};
use rm_base::{Blob, Ident, Memory, copy_optional_uri, uri_of};
use rm_message::elements::AckBlock;
use rm_message::{Acks, Body, FaultBody, FaultKind, Idents, Message, Names, Refusal};
use soap_document::profile::{Elements, Name, Shared};
use std::alloc::Global;
use wsa_headers::Addressing;

fn name_in(
    alloc: Global,
    whose: Vocabulary,
    local: Option<&'static [u8]>,
) -> Result<Option<Name>, Memory>
    ensures { IfOk result (λ name. name ≡ option_map (named whose) (option_map (λ l. l.now) local.entry)) }
{
    let Some(local) = local else {
        return Ok(None);
    };
    let space = Shared::from_slice(alloc, whose.space())?;
    Ok(Some(Name::new(alloc, space, local)?))
}

fn fault_body(alloc: Global, kind: FaultKind, detail: Elements) -> Result<FaultBody, Memory>
    ensures { IfOk result (λ fault. fault ≡ body_of (table kind) detail) }
{
    let subcode = name_in(alloc, whose_of(kind), subcode(kind))?;
    let inner = name_in(alloc, whose_of(kind), inner(kind))?;
    let reason = Blob::from_slice(alloc, kind.name())?;
    Ok(FaultBody {
        code: code(kind),
        subcode,
        inner,
        reason,
        detail,
    })
}

fn ident_detail(alloc: Global, ident: &Option<Ident>) -> Result<Elements, Memory>
    ensures { IfOk result (λ detail. detail ≡ option_to_list (option_map ident_element ident.now)) }
{
    let mut detail = Elements::new(alloc);
    if let Some(ident) = ident {
        detail.push(ident_tree(alloc, ident)?)?;
    }
    Ok(detail)
}

fn ack_detail(alloc: Global, block: &Option<AckBlock>) -> Result<Elements, Memory>
    ensures { IfOk result (λ detail. detail ≡ option_to_list (option_map ack_element block.now)) }
{
    let mut detail = Elements::new(alloc);
    if let Some(block) = block {
        detail.push(ack_tree(alloc, block)?)?;
    }
    Ok(detail)
}

fn rollover_detail(alloc: Global, ident: &Option<Ident>) -> Result<Elements, Memory>
    ensures { IfOk result (λ detail. detail ≡ detail_of FaultKind.Rollover ident.now None) }
{
    let mut detail = ident_detail(alloc, ident)?;
    detail.push(max_tree(alloc)?)?;
    Ok(detail)
}

fn detail(alloc: Global, refusal: &Refusal, block: &Option<AckBlock>) -> Result<Elements, Memory>
    ensures { IfOk result (λ detail. detail ≡ detail_of refusal.now.kind refusal.now.ident block.now) }
{
    match refusal.kind {
        FaultKind::Rollover => rollover_detail(alloc, &refusal.ident),
        FaultKind::UnknownSequence | FaultKind::SequenceTerminated | FaultKind::SequenceClosed =>
            ident_detail(alloc, &refusal.ident),
        FaultKind::InvalidAcknowledgement => ack_detail(alloc, block),
        _ => Ok(Elements::new(alloc)),
    }
}

fn one_ack(alloc: Global, block: Option<AckBlock>) -> Result<Acks, Memory>
    ensures { IfOk result (λ acks. acks ≡ option_to_list block) }
{
    let mut acks = Acks::new(alloc);
    if let Some(block) = block {
        acks.push(block)?;
    }
    Ok(acks)
}

fn acks(alloc: Global, kind: FaultKind, block: Option<AckBlock>) -> Result<Acks, Memory>
    ensures { IfOk result (λ acks. acks ≡ acks_of kind block) }
{
    match kind {
        FaultKind::SequenceClosed => one_ack(alloc, block),
        _ => Ok(Acks::new(alloc)),
    }
}

fn share_names(alloc: Global, names: &Names) -> Result<Names, Memory>
    ensures { IfOk result (λ shared. shared ≡ names.now) }
{
    let mut shared = Names::new(alloc);
    for name in names.as_slice() {
        shared.push(name.share()?)?;
    }
    Ok(shared)
}

fn names(alloc: Global, kind: FaultKind, names: &Names) -> Result<Names, Memory>
    ensures { IfOk result (λ given. given ≡ names_of kind names.now) }
{
    match kind {
        FaultKind::NotUnderstood => share_names(alloc, names),
        _ => Ok(Names::new(alloc)),
    }
}

fn addressing(alloc: Global, refusal: &Refusal) -> Result<Addressing, Memory>
    ensures { IfOk result (λ properties. properties ≡ addressing_of refusal.now) }
{
    let to = refusal.endpoint.address.copy()?;
    let action = uri_of(alloc, whose_of(refusal.kind).action())?;
    let relates = copy_optional_uri(&refusal.relates)?;
    let params = refusal.endpoint.params.copy(alloc)?;
    Ok(Addressing {
        to,
        action,
        message_id: None,
        relates,
        reply_to: None,
        fault_to: None,
        params,
    })
}

/// The fault that answers a refusal. The block is the final acknowledgement that SequenceClosed carries, or the first
/// refused one, which InvalidAcknowledgement repeats in its Detail; of another kind it is dropped. The table of faults
/// gives reason, code, subcode, action, Detail, acknowledgement and names of each of the twenty kinds; the fault goes
/// to the refusal's endpoint, with its parameters echoed, in relation to its message.
pub fn fault_message(
    alloc: Global,
    refusal: &Refusal,
    block: Option<AckBlock>,
) -> Result<Message, Memory>
    ensures { IfOk result (λ message. message ≡ fault_of refusal.now block) }
{
    let addressing = addressing(alloc, refusal)?;
    let not_understood = names(alloc, refusal.kind, &refusal.names)?;
    let detail = detail(alloc, refusal, &block)?;
    let fault = fault_body(alloc, refusal.kind, detail)?;
    let acks = acks(alloc, refusal.kind, block)?;
    Ok(Message {
        addressing,
        sequence: None,
        acks,
        asks: Idents::new(alloc),
        pending: None,
        not_understood,
        body: Body::Fault(fault),
    })
}
