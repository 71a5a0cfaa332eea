//! Snapshots of the records of tables: what they say in short.
use crate::parts::{NEVER, at_new, endpoint, ident, made, payload, uri};
use node_tables::Tables;
use record_batch::{Record, Records, Via};
use rm_base::{Behaviour, Blob, is_message_number};
use rm_sides::ranges::RangeSet;
use rm_sides::source::OutPhase;
use std::alloc::Global;
use std::test::Fail;

// Node 7 asks for a sequence.
fn asked(alloc: Global, ticket: u64) -> Result<Record, Fail> {
    let to = uri(alloc, "urn:b")?;
    Ok(Record::Creating {
        ticket,
        to,
        via: Via::Direct,
        lapse: NEVER,
        offer: None,
    })
}

// It gets it.
fn created(alloc: Global, seq: u32, text: &str) -> Result<Record, Fail> {
    let ident = ident(alloc, text)?;
    Ok(Record::Created {
        seq,
        ident,
        accept: None,
    })
}

// It grants one.
fn granted(alloc: Global) -> Result<Record, Fail> {
    let message_id = uri(alloc, "urn:m")?;
    let acks_to = endpoint(alloc, "urn:c")?;
    Ok(Record::Granted {
        counter: 3,
        message_id,
        acks_to,
        behaviour: Behaviour::FollowingFirstGap,
        deadline: None,
        lapse: NEVER,
        offer: None,
    })
}

fn accepted(alloc: Global, seq: u32, text: &str) -> Result<Record, Fail> {
    let payload = Blob::from_slice(alloc, text.as_bytes())?;
    Ok(Record::Accepted { seq, payload })
}

fn received(alloc: Global, number: u64, text: &str) -> Result<Record, Fail> {
    let bytes = Blob::from_slice(alloc, text.as_bytes())?;
    Ok(Record::Received {
        seq: 3,
        number,
        payload: payload(bytes, alloc),
    })
}

fn acked(alloc: Global, seq: u32, number: u64) -> Result<Record, Fail> {
    if !is_message_number(number) {
        return Err("a number of a message".into());
    }
    let mut numbers = RangeSet::new(alloc);
    numbers.insert(number)?;
    Ok(Record::Acked { seq, numbers })
}

// Two sequences that send, and one that receives.
fn begin(alloc: Global, tables: &mut Tables) -> Result<(), Fail> {
    tables.apply(made(alloc)?)?;
    tables.apply(asked(alloc, 1)?)?;
    tables.apply(created(alloc, 1, "urn:s")?)?;
    tables.apply(asked(alloc, 2)?)?;
    tables.apply(created(alloc, 2, "urn:t")?)?;
    tables.apply(granted(alloc)?)?;
    Ok(())
}

// Their messages.
fn exchange(alloc: Global, tables: &mut Tables) -> Result<(), Fail> {
    tables.apply(accepted(alloc, 1, "a")?)?;
    tables.apply(accepted(alloc, 1, "b")?)?;
    tables.apply(accepted(alloc, 1, "c")?)?;
    tables.apply(accepted(alloc, 2, "d")?)?;
    tables.apply(accepted(alloc, 2, "e")?)?;
    tables.apply(received(alloc, 2, "two")?)?;
    tables.apply(received(alloc, 1, "one")?)?;
    Ok(())
}

// Two acknowledgements of the first sequence, which leave one message out, two of the second. The application of the
// third one consumes an item.
fn learn(alloc: Global, tables: &mut Tables) -> Result<(), Fail> {
    tables.apply(acked(alloc, 1, 1)?)?;
    tables.apply(acked(alloc, 2, 1)?)?;
    tables.apply(acked(alloc, 1, 3)?)?;
    tables.apply(acked(alloc, 2, 2)?)?;
    tables.apply(Record::Consumed { seq: 3, upto: 1 })?;
    Ok(())
}

// Whether numbers are those of one range.
fn are(numbers: &RangeSet, lower: u64, upper: u64) -> bool {
    match numbers.ranges() {
        [range] => (range.lower == lower) & (range.upper == upper),
        _ => false,
    }
}

// Whether a record acknowledges a number of a sequence.
fn is_acked(record: Option<&Record>, of: u32, number: u64) -> bool {
    match record {
        Some(Record::Acked { seq, numbers }) => (*seq == of) & are(numbers, number, number),
        _ => false,
    }
}

// Whether a record says that the first messages of a sequence that sends are gone.
fn is_dropped(record: Option<&Record>, of: u32, last: u64) -> bool {
    match record {
        Some(Record::Dropped { seq, upto }) => (*seq == of) & (*upto == last),
        _ => false,
    }
}

// Whether a record says that the first messages of the one that receives are gone.
fn is_purged(record: Option<&Record>, upto: u64) -> bool {
    match record {
        Some(Record::Purged { seq, numbers }) => (*seq == 3) & are(numbers, 1, upto),
        _ => false,
    }
}

// Whether a record is of this message.
fn is_received(record: Option<&Record>, of: u64, bytes: &[u8]) -> bool {
    match record {
        Some(
            Record::Received {
                number,
                payload,
                ..
            },
        ) => (*number == of) & (payload.bytes.as_slice() == bytes),
        _ => false,
    }
}

// Whether a record is of this payload.
fn is_accepted(record: Option<&Record>, bytes: &[u8]) -> bool {
    match record {
        Some(Record::Accepted { payload, .. }) => payload.as_slice() == bytes,
        _ => false,
    }
}

// Whether the payloads are left out that are settled and that was consumed, and of the acknowledgements all but the
// number behind the gap.
fn is_short(records: &Records) -> bool {
    let gone = is_dropped(records.get(6), 1, 1) & is_dropped(records.get(9), 2, 2);
    let sent = is_accepted(records.get(7), b"b") & is_accepted(records.get(8), b"c");
    let came = is_purged(records.get(10), 1) & is_received(records.get(11), 2, b"two");
    (records.len() == 13) & gone & sent & came & is_acked(records.get(12), 1, 3)
}

// Of a sequence that sends: how many messages it has, and how many wait.
fn sent(tables: &Tables, seq: u32) -> Option<(u64, u64, OutPhase)> {
    let outgoing = tables.outgoing(seq)?;
    Some((
        outgoing.accepted_len(),
        outgoing.unacked(),
        outgoing.phase(),
    ))
}

// Of the one that receives: how many messages it has released, the second of them, and how many were consumed.
fn has_come(tables: &Tables) -> bool {
    match tables.incoming(3) {
        Some(incoming) => match incoming.inbox_item(2) {
            Some(payload) => (incoming.inbox_len() == 2)
                & (incoming.consumed() == 1)
                & (payload.bytes.as_slice() == b"two".as_slice()),
            None => false,
        },
        None => false,
    }
}

// Whether the payloads are there that a snapshot leaves out.
fn has_first(tables: &Tables) -> bool {
    let first = match tables.outgoing(1) {
        Some(outgoing) => outgoing.accepted(1).is_some(),
        None => false,
    };
    match tables.incoming(3) {
        Some(incoming) => first & incoming.inbox_item(1).is_some(),
        None => false,
    }
}

// What the tables answer of all that.
fn says_all(tables: &Tables) -> bool {
    let first = sent(tables, 1) == Some((3, 1, OutPhase::Open));
    let second = sent(tables, 2) == Some((2, 0, OutPhase::Open));
    let counts = (tables.len() == 3) & (tables.counter() == 3) & (tables.unacked() == 1);
    let found = tables.find_outgoing(b"urn:t") == Some(2);
    first & second & counts & found & has_come(tables)
}

fn is_the_same_in_short(alloc: Global, tables: &mut Tables) -> Result<bool, Fail> {
    begin(alloc, tables)?;
    exchange(alloc, tables)?;
    learn(alloc, tables)?;
    let mut are_so = says_all(tables);
    are_so &= is_short(&tables.snapshot()?);
    are_so &= is_short(&tables.snapshot()?) & says_all(tables) & has_first(tables);
    tables.compact();
    are_so &= says_all(tables) & !has_first(tables);
    are_so &= is_short(&tables.snapshot()?);
    Ok(are_so)
}

#[test]
fn a_snapshot_says_the_same_in_short(rt: HostRuntime) -> Result<(), Fail> {
    assert!(rt; at_new(rt.alloc(), is_the_same_in_short)?);
    Ok(())
}

// A snapshot is of no use once a record came.
fn goes_on(alloc: Global, tables: &mut Tables) -> Result<bool, Fail> {
    begin(alloc, tables)?;
    exchange(alloc, tables)?;
    learn(alloc, tables)?;
    tables.snapshot()?;
    tables.compact();
    tables.apply(accepted(alloc, 1, "f")?)?;
    tables.apply(acked(alloc, 1, 2)?)?;
    let records = tables.snapshot()?;
    let is_first = is_dropped(records.get(6), 1, 3) & is_dropped(records.get(7), 2, 2);
    let is_last = is_received(records.get(9), 2, b"two") & is_accepted(records.get(10), b"f");
    Ok(is_first & is_last & (records.len() == 11) & (tables.unacked() == 1))
}

#[test]
fn tables_go_on_behind_a_snapshot(rt: HostRuntime) -> Result<(), Fail> {
    assert!(rt; at_new(rt.alloc(), goes_on)?);
    Ok(())
}
