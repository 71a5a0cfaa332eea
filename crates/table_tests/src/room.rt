//! Room that is made for records, also for records of sequences that others of them make.
use crate::parts::{NEVER, at_new, endpoint, made, payload, uri};
use node_tables::{TableError, Tables};
use record_batch::{Record, Via};
use rm_base::{Behaviour, Blob};
use std::alloc::Global;
use std::test::Fail;

// A node grants a sequence.
fn grant(alloc: Global) -> Result<Record, Fail> {
    let acks_to = endpoint(alloc, "urn:b")?;
    let message_id = uri(alloc, "urn:m")?;
    Ok(Record::Granted {
        counter: 1,
        message_id,
        acks_to,
        behaviour: Behaviour::FollowingFirstGap,
        deadline: Some(100),
        lapse: NEVER,
        offer: None,
    })
}

// It receives a message of it.
fn received(alloc: Global) -> Result<Record, Fail> {
    let bytes = Blob::from_slice(alloc, b"one")?;
    Ok(Record::Received {
        seq: 1,
        number: 1,
        payload: payload(bytes, alloc),
    })
}

// It asks for another.
fn asked(alloc: Global) -> Result<Record, Fail> {
    let to = uri(alloc, "urn:b")?;
    Ok(Record::Creating {
        ticket: 1,
        to,
        via: Via::Back,
        lapse: NEVER,
        offer: None,
    })
}

// A node is made, grants a sequence, and receives a message of it.
fn push_granted(alloc: Global, batch: &mut Vec<Record>) -> Result<(), Fail> {
    batch.push(made(alloc)?)?;
    batch.push(grant(alloc)?)?;
    batch.push(received(alloc)?)?;
    Ok(())
}

fn granted(alloc: Global) -> Result<Vec<Record>, Fail> {
    let mut batch = Vec::new(alloc);
    push_granted(alloc, &mut batch)?;
    Ok(batch)
}

// The same, and it asks for another.
fn push_misfit(alloc: Global, batch: &mut Vec<Record>) -> Result<(), Fail> {
    push_granted(alloc, batch)?;
    batch.push(asked(alloc)?)?;
    Ok(())
}

fn misfit(alloc: Global) -> Result<Vec<Record>, Fail> {
    let mut batch = Vec::new(alloc);
    push_misfit(alloc, &mut batch)?;
    Ok(batch)
}

// Applies a batch, for which room is made.
fn apply(tables: &mut Tables, batch: Vec<Record>) -> Result<(), Fail> {
    tables.reserve(batch.as_slice())?;
    tables.apply_all(batch)?;
    Ok(())
}

// How many messages are in the inbox of the first sequence.
fn inbox_len(tables: &Tables) -> Option<u64> {
    let incoming = tables.incoming(1)?;
    Some(incoming.inbox_len())
}

fn applies_all(alloc: Global, tables: &mut Tables) -> Result<bool, Fail> {
    apply(tables, granted(alloc)?)?;
    Ok((tables.len() == 1) & (inbox_len(tables) == Some(1)))
}

#[test]
fn a_batch_makes_a_sequence_and_uses_it(rt: HostRuntime) -> Result<(), Fail> {
    assert!(rt; at_new(rt.alloc(), applies_all)?);
    Ok(())
}

fn applies_up_to_a_misfit(alloc: Global, tables: &mut Tables) -> Result<bool, Fail> {
    let applied = tables.apply_all(misfit(alloc)?);
    let are_left = (tables.len() == 1) & (tables.counter() == 1);
    Ok((applied == Err(TableError::Misfit)) & are_left)
}

#[test]
fn a_batch_is_applied_up_to_a_misfit(rt: HostRuntime) -> Result<(), Fail> {
    assert!(rt; at_new(rt.alloc(), applies_up_to_a_misfit)?);
    Ok(())
}
