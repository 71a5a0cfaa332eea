//! Requests for an acknowledgement of the node's own: WS-ReliableMessaging 1.2, section 3.8.
ghost use Rattle.std.specs.Prelude.{◌≡◌, ◌++◌, IfOk};
ghost use Rattle.std.specs.Option.{option_to_list};
ghost use Rattle.rm_protocol.specs.Calls.{ask_ack as ask_ack_of, ask_out as ask_out_of, ask_to};
ghost use Rattle.record_batch.specs.Sequences.Find.{peer as peer_in};
ghost use Rattle.record_batch.specs.Sequences.Sources.{out_ident};
ghost use Rattle.node_laws.specs.Answers.Answers.{seen};
ghost use Rattle.tables_ahead.specs.Known.{all_records};

use crate::answers::added;
use crate::reads::{may_end, phase, side_refusal};
use crate::requests::peer;
use node_laws::answers::{Answer, Cause, refused};
use node_messages::ask_message;
use node_tables::Tables;
use rm_base::Memory;
use rm_message::Message;
use std::alloc::Global;
use tables_ahead::Known;

// The request for an acknowledgement of an outgoing sequence, where its peer and its identifier are known.
fn ask_request(alloc: Global, ahead: &Known<'_>, seq: u32) -> Result<Option<Message>, Memory>
    ensures { let r = all_records ahead.now in
        IfOk result (λ m. option_to_list m ≡ ask_to (peer_in r seq) (out_ident r seq)) }
{
    let Some(to) = peer(alloc, ahead, seq)? else {
        return Ok(None);
    };
    let Some(ident) = ahead.ident(seq) else {
        return Ok(None);
    };
    let ident = ident.copy()?;
    Ok(Some(ask_message(alloc, to, ident)?))
}

// Asks for an acknowledgement of an outgoing sequence in phase Open, Closing or Closed.
fn ask_out(alloc: Global, tables: &Tables, seq: u32) -> Result<Answer, Memory>
    ensures { IfOk result (λ a. seen a ≡ ask_out_of tables.now.records seq) }
{
    if !may_end(phase(alloc, tables, seq)) {
        return Ok(refused(alloc, Cause::NotOpen));
    }
    let ahead = Known::new(alloc, tables);
    let request = ask_request(alloc, &ahead, seq)?;
    added(alloc, ahead, request)
}

/// Asks the peer of an outgoing sequence for an acknowledgement.
pub(crate) fn ask_ack(alloc: Global, tables: &Tables, seq: u32) -> Result<Answer, Memory>
    ensures { IfOk result (λ a. seen a ≡ ask_ack_of tables.now.records seq) }
{
    match side_refusal(tables, seq) {
        Some(cause) => Ok(refused(alloc, cause)),
        None => ask_out(alloc, tables, seq),
    }
}
