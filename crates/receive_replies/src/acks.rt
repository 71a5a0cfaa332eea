//! The acknowledgements that a message gets: WS-ReliableMessaging 1.2, sections 3.7 to 3.9.
ghost use Rattle.std.specs.Prelude.{◌≡◌, ◌++◌, [], ℕ, true, IfOk, OnOk};
ghost use Rattle.std.specs.Option.{option_copied};
ghost use Rattle.rm_base.specs.NumberSet.{has_number};
ghost use Rattle.record_batch.specs.Sequences.Find.{acks_to as acks_to_for, find_incoming};
ghost use Rattle.record_batch.specs.Sequences.Fits.{all_fit};
ghost use Rattle.rm_protocol.specs.Said.{
  ack_of,
  acks_said as acks_said_of,
  ask_ack as ask_ack_of,
  ask_acks as ask_acks_of,
  data_acks as data_acks_of,
  data_ident as data_ident_of,
  found_in,
  given_with,
};
ghost use Rattle.tables_ahead.specs.Known.{all_records};

use crate::block::block_of;
use node_messages::Ack;
use node_tables::Maker;
use rm_base::{Ident, Memory};
use rm_message::{Body, Message};
use std::alloc::Global;
use tables_ahead::Known;
use wsa_headers::Epr;

/// The AcksTo of a sequence, where that is known.
pub fn acks_to<'a>(ahead: &'a Known<'_>, seq: u32) -> Option<&'a Epr>
    requires fit { all_fit ahead.now.records ahead.now.delta ≡ true }
    ensures { option_copied result ≡ acks_to_for (all_records ahead.now) seq }
{
    match ahead.maker(seq) {
        Some(Maker::Granted { acks_to, .. }) => Some(acks_to),
        Some(Maker::Offered { .. }) => ahead.accepted_by(seq.saturating_sub(1)),
        Some(Maker::Asked { .. }) => None,
        Some(Maker::Taken { .. }) => None,
        None => None,
    }
}

// Adds the acknowledgement of a sequence of ours, where its AcksTo is known.
fn push_ack(
    alloc: Global,
    ahead: &Known<'_>,
    now: u64,
    ident: &Ident,
    seq: u32,
    acks: &mut Vec<Ack>,
) -> Result<(), Memory>
    requires fit { all_fit ahead.now.records ahead.now.delta ≡ true }
    ensures { OnOk result (acks.new.items ≡
        acks.old.items ++ ack_of (all_records ahead.now) now ident.now (Some seq)) }
{
    match acks_to(ahead, seq) {
        Some(to) => {
            let to = to.copy(alloc)?;
            let block = block_of(alloc, ahead, seq, ident, now)?;
            acks.push((to, block))?;
            Ok(())
        }
        None => Ok(()),
    }
}

// Whether a sequence has its acknowledgement.
fn is_given(given: &[u32], seq: u32) -> bool
    ensures { result ≡ has_number given.now seq }
{
    given.contains(&seq)
}

// Adds what one AckRequested gets, where these sequences have theirs.
fn ask_ack(
    alloc: Global,
    ahead: &Known<'_>,
    now: u64,
    ident: &Ident,
    given: &mut Vec<u32>,
    acks: &mut Vec<Ack>,
) -> Result<(), Memory>
    requires fit { all_fit ahead.now.records ahead.now.delta ≡ true }
    ensures said { let r = all_records ahead.now in
        OnOk result (acks.new.items ≡
        acks.old.items ++ ask_ack_of r now given.old.items ident.now (find_incoming r ident.now)) }
    ensures given { let r = all_records ahead.now in
        OnOk result ((n : ℕ) → has_number given.new.items n ≡
        has_number (given_with (find_incoming r ident.now) given.old.items) n) }
{
    let Some(seq) = ahead.find_incoming(ident) else {
        return Ok(());
    };
    if is_given(given.as_slice(), seq) {
        return Ok(());
    }
    push_ack(alloc, ahead, now, ident, seq, acks)?;
    given.push(seq)?;
    Ok(())
}

// Adds what all of them get.
fn ask_acks(
    alloc: Global,
    ahead: &Known<'_>,
    now: u64,
    asks: &[Ident],
    given: &mut Vec<u32>,
    acks: &mut Vec<Ack>,
) -> Result<(), Memory>
    requires fit { all_fit ahead.now.records ahead.now.delta ≡ true }
    ensures { OnOk result (acks.new.items ≡
        acks.old.items ++ ask_acks_of (all_records ahead.now) now given.old.items asks.now) }
{
    for ident in asks {
        ask_ack(alloc, ahead, now, ident, given, acks)?;
    }
    Ok(())
}

// The sequence that a message has data of.
fn data_ident(message: &Message) -> Option<&Ident>
    ensures { option_copied result ≡ data_ident_of message.now.sequence message.now.body }
{
    let Some(header) = &message.sequence else {
        return None;
    };
    match message.body {
        Body::Payload(_) => Some(&header.ident),
        Body::Empty => None,
        Body::Lifecycle(_) => None,
        Body::Fault(_) => None,
    }
}

// Adds what data gets, where no sequence has its acknowledgement yet: as if it were asked for.
fn data_acks(
    alloc: Global,
    ahead: &Known<'_>,
    now: u64,
    message: &Message,
    given: &mut Vec<u32>,
    acks: &mut Vec<Ack>,
) -> Result<(), Memory>
    requires fit { all_fit ahead.now.records ahead.now.delta ≡ true }
    requires none { given.old.items ≡ [] }
    ensures said { OnOk result (acks.new.items ≡
        acks.old.items ++ data_acks_of (all_records ahead.now) now
        (data_ident_of message.now.sequence message.now.body)) }
    ensures given { let r = all_records ahead.now in
        OnOk result ((n : ℕ) → has_number given.new.items n ≡
        has_number (given_with (found_in r (data_ident_of message.now.sequence message.now.body)) []) n) }
{
    match data_ident(message) {
        Some(ident) => ask_ack(alloc, ahead, now, ident, given, acks),
        None => Ok(()),
    }
}

/// The acknowledgements that a message gets, each with the AcksTo that it goes to: of its data, and once a sequence of
/// those that it asks for.
pub(crate) fn acks_said(
    alloc: Global,
    ahead: &Known<'_>,
    now: u64,
    message: &Message,
) -> Result<Vec<Ack>, Memory>
    requires fit { all_fit ahead.now.records ahead.now.delta ≡ true }
    ensures { IfOk result (λ acks. acks.items ≡
        acks_said_of (all_records ahead.now) now message.now) }
{
    let mut acks = Vec::new(alloc);
    let mut given = Vec::new(alloc);
    data_acks(alloc, ahead, now, message, &mut given, &mut acks)?;
    let asks = message.asks.as_slice();
    ask_acks(alloc, ahead, now, asks, &mut given, &mut acks)?;
    Ok(acks)
}
