//! Faults of SOAP 1.1, section 4.4, and the header SequenceFault that goes with them: WS-ReliableMessaging 1.2, section
//! 4. No Fault is refused: what can't be read is absent.
ghost use Rattle.std.specs.Prelude.{◌≡◌, map, option_map, IfOk};
ghost use Rattle.soap_document.specs.Profile.View.{element_view};
ghost use Rattle.soap_writer.specs.Values.Outcome.{Gives, if_present};
ghost use Rattle.message_reader.specs.Faults.{spaced, fault_with as fault_of_parts};
ghost use Rattle.message_reader.specs.Faults11.{
  faultcode_in,
  code11_called as code_of_local,
  code11_named as code_of,
  is_subcode as is_subcode_name,
  code11_above as code_above_name,
  both as both_of,
  codes11_alone,
  codes11 as codes_of,
  faultstring_in,
  detail11 as detail_of,
  fault11_in,
};
ghost use Rattle.message_reader.specs.Headers.{fault_code_name, sequence_fault_of, sequence_fault_in};

use crate::blocks::find_block;
use crate::fault::{Codes, blob_or_empty, find_first, if_readable, read_stripped};
use rm_base::{Binding, Blob, Memory};
use rm_message::elements::{CONNECTION, MESSAGING};
use rm_message::{FaultBody, FaultCode};
use soap_document::profile::{Element, Elements, Name};
use soap_envelope::is_soap11;
use soap_writer::values::{Flaw, find_optional, find_single, is_named, read_qname, read_trimmed};
use std::alloc::Global;
use wsa_headers::ADDRESSING;

/// What a SequenceFault says: a subcode, if its name is in a namespace, and a detail.
#[derive(Debug, Drop)]
pub(crate) struct SequenceFault {
    pub(crate) subcode: Option<Name>,
    pub(crate) detail: Elements,
}

// ---- the header

#[tactic(auto, unfolding(crate::specs::Headers::fault_code_name))]
fn read_fault_code(alloc: Global, scope: &[Binding], block: &Element) -> Result<Name, Flaw>
    ensures { Gives (λ name. name) result (fault_code_name scope.now (element_view block.now)) }
{
    let code = find_single(block.items.as_slice(), MESSAGING, b"FaultCode")?;
    let bytes = read_trimmed(alloc, code)?;
    read_qname(alloc, bytes.as_slice(), &[code, block], scope)
}

fn if_spaced(name: Name) -> Option<Name>
    ensures { result ≡ spaced name }
{
    if name.space().is_empty() {
        return None;
    }
    Some(name)
}

#[tactic(auto, unfolding(crate::specs::Headers::sequence_fault_of))]
fn read_sequence_fault(
    alloc: Global,
    scope: &[Binding],
    block: &Element,
) -> Result<SequenceFault, Flaw>
    ensures { Gives (λ told. told) result (sequence_fault_of scope.now (element_view block.now)) }
{
    let name = read_fault_code(alloc, scope, block)?;
    let detail = find_optional(block.items.as_slice(), MESSAGING, b"Detail")?;
    Ok(SequenceFault {
        subcode: if_spaced(name),
        detail: read_stripped(alloc, detail)?,
    })
}

fn read_if_there(
    alloc: Global,
    scope: &[Binding],
    block: Option<&Element>,
) -> Result<Option<SequenceFault>, Flaw>
    ensures { Gives (λ told. told) result
        (if_present (sequence_fault_of scope.now) (option_map (λ e. element_view e.now) block.entry)) }
{
    match block {
        Some(block) => Ok(Some(read_sequence_fault(alloc, scope, block)?)),
        None => Ok(None),
    }
}

/// The one SequenceFault of a message of SOAP 1.1, where these bindings are in force in the header.
#[tactic(auto, unfolding(crate::specs::Headers::sequence_fault_in))]
pub(crate) fn read_told_fault(
    alloc: Global,
    soap: &[u8],
    scope: &[Binding],
    headers: &[Element],
) -> Result<Option<SequenceFault>, Flaw>
    ensures { Gives (λ told. told) result (sequence_fault_in soap.now scope.now (map element_view headers.now)) }
{
    if !is_soap11(soap) {
        return Ok(None);
    }
    let found = find_block(headers, MESSAGING, b"SequenceFault")?;
    read_if_there(alloc, scope, found)
}

// ---- the Fault

#[tactic(auto, unfolding(crate::specs::Faults11::faultcode_in))]
fn read_faultcode(alloc: Global, scope: &[Binding], fault: &Element) -> Result<Name, Flaw>
    ensures { Gives (λ name. name) result (faultcode_in scope.now (element_view fault.now)) }
{
    let Some(holder) = find_first(fault.items.as_slice(), b"", b"faultcode") else {
        return Err(Flaw::Malformed);
    };
    let bytes = read_trimmed(alloc, holder)?;
    read_qname(alloc, bytes.as_slice(), &[holder, fault], scope)
}

fn code_called(local: &[u8]) -> FaultCode
    ensures { result ≡ code_of_local local.now }
{
    if local == b"Client".as_slice() {
        return FaultCode::Sender;
    }
    if local == b"VersionMismatch".as_slice() {
        return FaultCode::VersionMismatch;
    }
    if local == b"MustUnderstand".as_slice() {
        return FaultCode::MustUnderstand;
    }
    FaultCode::Receiver
}

fn code_named(soap: &[u8], name: &Option<Name>) -> FaultCode
    ensures { result ≡ code_of soap.now name.now }
{
    match name {
        Some(name) if name.space() == soap => code_called(name.local()),
        _ => FaultCode::Receiver,
    }
}

fn is_subcode(name: &Name) -> bool
    ensures { result ≡ is_subcode_name name.now }
{
    name.space() == MESSAGING || name.space() == ADDRESSING || name.space() == CONNECTION
}

fn code_above(name: &Name) -> FaultCode
    ensures { result ≡ code_above_name name.now }
{
    if name.space() == CONNECTION || is_named(name, MESSAGING, b"CreateSequenceRefused") {
        return FaultCode::Receiver;
    }
    FaultCode::Sender
}

fn both(code: FaultCode, subcode: Option<Name>) -> Codes
    ensures { result ≡ both_of code subcode }
{
    Codes {
        code,
        subcode,
        inner: None,
    }
}

fn codes_alone(soap: &[u8], name: Option<Name>) -> Codes
    ensures { result ≡ codes11_alone soap.now name }
{
    match name {
        Some(name) => {
            if is_subcode(&name) {
                return both(code_above(&name), Some(name));
            }
            both(code_named(soap, &Some(name)), None)
        }
        None => both(FaultCode::Receiver, None),
    }
}

#[tactic(auto, unfolding(crate::specs::Faults11::faultstring_in))]
fn read_faultstring(alloc: Global, fault: &Element) -> Result<Blob, Flaw>
    ensures { Gives (λ reason. reason) result (faultstring_in (element_view fault.now)) }
{
    let Some(words) = find_first(fault.items.as_slice(), b"", b"faultstring") else {
        return Err(Flaw::Malformed);
    };
    Ok(Blob::from_vec(read_trimmed(alloc, words)?))
}

fn fault_with(codes: Codes, reason: Blob, detail: Elements) -> FaultBody
    ensures { result ≡ fault_of_parts codes reason detail }
{
    let Codes {
        code,
        subcode,
        inner,
    } = codes;
    FaultBody {
        code,
        subcode,
        inner,
        reason,
        detail,
    }
}

fn codes_and_detail(
    alloc: Global,
    soap: &[u8],
    told: Option<SequenceFault>,
    name: Option<Name>,
    fault: &Element,
) -> Result<(Codes, Elements), Memory>
    ensures codes { IfOk result (λ found. found.0 ≡ codes_of soap.now told name) }
    ensures detail { IfOk result (λ found. found.1 ≡ detail_of told (element_view fault.now)) }
{
    match told {
        Some(told) => {
            let SequenceFault { subcode, detail } = told;
            Ok((both(code_named(soap, &name), subcode), detail))
        }
        None => {
            let detail = read_stripped(alloc, find_first(fault.items.as_slice(), b"", b"detail"))?;
            Ok((codes_alone(soap, name), detail))
        }
    }
}

/// What a Fault of SOAP 1.1 says, with a SequenceFault or without, where these bindings are in force around it.
pub(crate) fn read_fault11(
    alloc: Global,
    soap: &[u8],
    told: Option<SequenceFault>,
    scope: &[Binding],
    fault: &Element,
) -> Result<FaultBody, Memory>
    ensures { IfOk result (λ body. body ≡ fault11_in soap.now told scope.now (element_view fault.now)) }
{
    let name = if_readable(read_faultcode(alloc, scope, fault))?;
    let reason = blob_or_empty(alloc, if_readable(read_faultstring(alloc, fault))?);
    let (codes, detail) = codes_and_detail(alloc, soap, told, name, fault)?;
    Ok(fault_with(codes, reason, detail))
}
