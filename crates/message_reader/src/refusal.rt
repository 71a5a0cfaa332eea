//! Refusals, with where their faults go: WS-Addressing 1.0 Core, section 3.4.
ghost use Rattle.std.specs.Prelude.{◌≡◌, Option, Some, None, option_map, IfOk};
ghost use Rattle.soap_writer.specs.Values.Outcome.{Gives};
ghost use Rattle.wsa_headers.specs.Addressing.{anonymous as anonymous_uri};
ghost use Rattle.message_reader.specs.Outcome.{wrong_of};
ghost use Rattle.message_reader.specs.Refusals.{
  anonymous as back_on_the_connection,
  fault_endpoint as fault_endpoint_of,
  blind as blind_refusal,
  addressed_refusal as addressed_refusal_of,
  refusal_of,
};

use crate::cause::Cause;
use rm_base::{Ident, Items, Memory, Uri};
use rm_message::{FaultKind, Names, Refusal};
use soap_document::profile::Elements;
use soap_writer::values::{Flaw, read_uri};
use std::alloc::Global;
use wsa_headers::{ANONYMOUS, Addressing, Epr};

// The address of the other end of the connection that a message came on.
fn anonymous_address(alloc: Global) -> Result<Uri, Flaw>
    ensures { Gives (λ uri. uri) result (Some anonymous_uri) }
{
    read_uri(alloc, ANONYMOUS)
}

// The endpoint there.
fn anonymous(alloc: Global) -> Result<Epr, Memory>
    ensures { IfOk result (λ endpoint. endpoint ≡ back_on_the_connection) }
{
    match anonymous_address(alloc) {
        Ok(address) => Ok(Epr {
            address,
            params: Elements::new(alloc),
        }),
        Err(Flaw::Memory) => Err(Memory),
        Err(Flaw::Malformed) => unreachable!(),
    }
}

fn fault_endpoint(
    alloc: Global,
    fault_to: Option<Epr>,
    reply_to: Option<Epr>,
) -> Result<Epr, Memory>
    ensures { IfOk result (λ endpoint. endpoint ≡ fault_endpoint_of fault_to reply_to) }
{
    if let Some(endpoint) = fault_to {
        return Ok(endpoint);
    }
    match reply_to {
        Some(endpoint) => Ok(endpoint),
        None => anonymous(alloc),
    }
}

// The refusal of bytes whose addressing properties are not known, with names that were not understood.
fn blind_with(alloc: Global, kind: FaultKind, names: Names) -> Result<Refusal, Memory>
    ensures { IfOk result (λ refusal. refusal ≡ record (blind_refusal kind) { names = names }) }
{
    Ok(Refusal {
        kind,
        endpoint: anonymous(alloc)?,
        relates: None,
        names,
        ident: None,
    })
}

/// The same with no names.
pub(crate) fn blind(alloc: Global, kind: FaultKind) -> Result<Refusal, Memory>
    ensures { IfOk result (λ refusal. refusal ≡ blind_refusal kind) }
{
    blind_with(alloc, kind, Items::new(alloc))
}

// The refusal of a message with these properties.
fn addressed_refusal(
    alloc: Global,
    kind: FaultKind,
    addressing: Addressing,
    ident: Option<Ident>,
) -> Result<Refusal, Memory>
    ensures { IfOk result (λ refusal. refusal ≡ addressed_refusal_of kind addressing ident) }
{
    let mut addressing = addressing;
    let endpoint = fault_endpoint(
        alloc,
        addressing.fault_to.take(),
        addressing.reply_to.take(),
    );
    let relates = addressing.message_id.take();
    drop(addressing);
    Ok(Refusal {
        kind,
        endpoint: endpoint?,
        relates,
        names: Items::new(alloc),
        ident,
    })
}

/// The refusal that comes of a cause, unless that is want of memory.
pub(crate) fn refusal(alloc: Global, cause: Cause) -> Result<Refusal, Memory>
    ensures { IfOk result (λ refusal. option_map refusal_of (wrong_of cause) ≡ Some refusal) }
{
    match cause {
        Cause::Memory => Err(Memory),
        Cause::NotUnderstood(names) => blind_with(alloc, FaultKind::NotUnderstood, names),
        Cause::Cardinality => blind(alloc, FaultKind::Cardinality),
        Cause::HeaderMissing => blind(alloc, FaultKind::HeaderMissing),
        Cause::BadHeader => blind(alloc, FaultKind::BadHeader),
        Cause::Malformed(addressing) => {
            addressed_refusal(alloc, FaultKind::Malformed, addressing, None)
        }
        Cause::Rollover(addressing, ident) => {
            addressed_refusal(alloc, FaultKind::Rollover, addressing, Some(ident))
        }
    }
}
