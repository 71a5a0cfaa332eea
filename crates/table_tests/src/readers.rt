//! What tables answer after a few records.
use crate::parts::{NEVER, at_new, endpoint, ident, made, payload, uri};
use node_tables::{Maker, Peer, TableError, Tables};
use record_batch::sequences::issue;
use record_batch::{OwnOffer, PeerOffer, Record, Via};
use rm_base::{Behaviour, Blob, Ident, Uri};
use std::alloc::Global;
use std::test::Fail;
use wsa_headers::Epr;

// Node 7 asks for sequence 1, and offers sequence 2, which has this behaviour.
fn asked_with(alloc: Global, behaviour: Behaviour) -> Result<Record, Fail> {
    let to = uri(alloc, "urn:b")?;
    Ok(Record::Creating {
        ticket: 1,
        to,
        via: Via::Direct,
        lapse: NEVER,
        offer: Some(OwnOffer {
            counter: 2,
            behaviour,
        }),
    })
}

// One that drops what follows its first gap.
fn asked(alloc: Global) -> Result<Record, Fail> {
    asked_with(alloc, Behaviour::FollowingFirstGap)
}

// Sequence 1 is granted, and the offer is taken.
fn created(alloc: Global) -> Result<Record, Fail> {
    let accept = endpoint(alloc, "urn:acks")?;
    let ident = ident(alloc, "urn:s")?;
    Ok(Record::Created {
        seq: 1,
        ident,
        accept: Some(accept),
    })
}

fn peer_offer(alloc: Global) -> Result<PeerOffer, Fail> {
    let endpoint = endpoint(alloc, "urn:d")?;
    let ident = ident(alloc, "urn:t")?;
    Ok(PeerOffer { ident, endpoint })
}

// The record of these parts.
fn grant_of(message_id: Uri, acks_to: Epr, behaviour: Behaviour, offer: PeerOffer) -> Record {
    Record::Granted {
        counter: 3,
        message_id,
        acks_to,
        behaviour,
        deadline: None,
        lapse: NEVER,
        offer: Some(offer),
    }
}

// Node 7 grants a sequence, which has this behaviour, and takes the offer that came along.
fn granted_with(alloc: Global, behaviour: Behaviour) -> Result<Record, Fail> {
    let message_id = uri(alloc, "urn:m")?;
    let acks_to = endpoint(alloc, "urn:c")?;
    Ok(grant_of(message_id, acks_to, behaviour, peer_offer(alloc)?))
}

// One that drops all of it.
fn granted(alloc: Global) -> Result<Record, Fail> {
    granted_with(alloc, Behaviour::EntireSequence)
}

// Node 7 is made, and asks.
fn begin(alloc: Global, tables: &mut Tables) -> Result<(), Fail> {
    tables.apply(made(alloc)?)?;
    tables.apply(asked(alloc)?)?;
    Ok(())
}

// The identifier that node 7 issues for a number.
fn issued(alloc: Global, counter: u64) -> Result<Ident, Fail> {
    if counter >= 1 << 62 {
        return Err("a small number".into());
    }
    Ok(issue(alloc, 7, counter)?)
}

// Its text.
fn issued_text(alloc: Global, counter: u64) -> Result<Uri, Fail> {
    let ident = issued(alloc, counter)?;
    Ok(Uri::from_slice(alloc, ident.as_slice())?)
}

// Whether this is the sequence that was asked for by the identifier of a number.
fn is_asked_by(
    alloc: Global,
    tables: &Tables,
    counter: u64,
    seq: Option<u32>,
) -> Result<bool, Fail> {
    let text = issued_text(alloc, counter)?;
    Ok(tables.find_creating(&text) == seq)
}

// Whether this is the incoming sequence with the identifier of a number.
fn is_incoming(
    alloc: Global,
    tables: &Tables,
    counter: u64,
    seq: Option<u32>,
) -> Result<bool, Fail> {
    let ident = issued(alloc, counter)?;
    Ok(tables.find_incoming(&ident) == seq)
}

// Whether both sequences are found by what the node issued.
fn are_found(alloc: Global, tables: &Tables) -> Result<bool, Fail> {
    let mut are_so = tables.len() == 2;
    are_so &= is_asked_by(alloc, tables, 1, Some(1))?;
    are_so &= is_asked_by(alloc, tables, 2, None)?;
    are_so &= is_incoming(alloc, tables, 2, Some(2))?;
    are_so &= is_incoming(alloc, tables, 1, None)?;
    Ok(are_so & tables.ident(1).is_none())
}

// Whether the first sequence has this identifier.
fn has_ident(tables: &Tables, bytes: &[u8]) -> bool {
    match tables.ident(1) {
        Some(ident) => ident.as_slice() == bytes,
        None => false,
    }
}

// Whether its peer takes the acknowledgements of what was offered here.
fn is_taken_at(tables: &Tables, bytes: &[u8]) -> bool {
    match tables.accepted_by(1) {
        Some(endpoint) => endpoint.address.as_slice() == bytes,
        None => false,
    }
}

// Whether the first sequence is found by its identifier alone once it is granted.
fn is_found_by_ident(alloc: Global, tables: &Tables) -> Result<bool, Fail> {
    let is_gone = is_asked_by(alloc, tables, 1, None)?;
    let is_found = tables.find_outgoing(b"urn:s") == Some(1);
    Ok(is_gone & is_found & has_ident(tables, b"urn:s") & is_taken_at(tables, b"urn:acks"))
}

fn finds_sequences(alloc: Global, tables: &mut Tables) -> Result<bool, Fail> {
    begin(alloc, tables)?;
    let are_so = are_found(alloc, tables)?;
    tables.apply(created(alloc)?)?;
    Ok(are_so & is_found_by_ident(alloc, tables)?)
}

#[test]
fn sequences_are_found_by_what_the_node_issued(rt: HostRuntime) -> Result<(), Fail> {
    assert!(rt; at_new(rt.alloc(), finds_sequences)?);
    Ok(())
}

// A text, and the incoming sequence with that identifier: sequence 2 of node 7, by number 2.
const IDENTS: [(&str, Option<u32>); 6] = [
    ("urn:uuid:00000000-0000-8007-8000-000000000002", Some(2)),
    ("urn:uuid:00000000-0000-8007-8000-000000000001", None),
    ("urn:uuid:00000000-0000-8007-8000-000000000020", None),
    ("urn:uuid:00000000-0000-8008-8000-000000000002", None),
    ("URN:UUID:00000000-0000-8007-8000-000000000002", None),
    ("00000000-0000-8007-8000-000000000002", None),
];

fn finds_by_texts(alloc: Global, tables: &mut Tables) -> Result<bool, Fail> {
    begin(alloc, tables)?;
    let mut are_so = true;
    for (text, seq) in &IDENTS {
        are_so &= tables.find_incoming(&ident(alloc, text)?) == *seq;
    }
    Ok(are_so)
}

#[test]
fn a_sequence_is_found_by_its_identifier_alone(rt: HostRuntime) -> Result<(), Fail> {
    assert!(rt; at_new(rt.alloc(), finds_by_texts)?);
    Ok(())
}

// Whether this is the node's address.
fn has_address(tables: &Tables, bytes: &[u8]) -> bool {
    match tables.address() {
        Some(address) => address.as_slice() == bytes,
        None => false,
    }
}

// Whether sequence 1 was asked for, by ticket 1 and at this address.
fn was_asked_for(tables: &Tables, bytes: &[u8]) -> bool {
    match tables.maker(1) {
        Some(Maker::Asked { ticket, to, .. }) => (ticket == 1) & (to.as_slice() == bytes),
        _ => false,
    }
}

// Whether sequence 2 was offered, by number 2.
fn was_offered(tables: &Tables) -> bool {
    match tables.maker(2) {
        Some(Maker::Offered { counter, .. }) => counter == 2,
        _ => false,
    }
}

fn lends_makers(alloc: Global, tables: &mut Tables) -> Result<bool, Fail> {
    begin(alloc, tables)?;
    let are_so = has_address(tables, b"urn:a") & was_asked_for(tables, b"urn:b");
    let are_no_others = tables.maker(0).is_none() & tables.maker(3).is_none();
    Ok(are_so & was_offered(tables) & are_no_others)
}

#[test]
fn makers_are_lent(rt: HostRuntime) -> Result<(), Fail> {
    assert!(rt; at_new(rt.alloc(), lends_makers)?);
    Ok(())
}

// The address of a peer.
fn address_of(tables: &Tables, seq: u32) -> Option<&[u8]> {
    match tables.peer(seq)? {
        Peer::Address(to) => Some(to.as_slice()),
        Peer::Reference(endpoint) => Some(endpoint.address.as_slice()),
    }
}

// Whether this is the address of a peer, or there is none.
fn is_at(tables: &Tables, seq: u32, address: Option<&[u8]>) -> bool {
    address_of(tables, seq) == address
}

fn tells_peers(alloc: Global, tables: &mut Tables) -> Result<bool, Fail> {
    begin(alloc, tables)?;
    let are_so = is_at(tables, 1, Some(b"urn:b")) & is_at(tables, 2, None);
    tables.apply(created(alloc)?)?;
    Ok(are_so & is_at(tables, 2, Some(b"urn:acks")) & is_at(tables, 3, None))
}

#[test]
fn peers_are_told(rt: HostRuntime) -> Result<(), Fail> {
    assert!(rt; at_new(rt.alloc(), tells_peers)?);
    Ok(())
}

// The sequence of the offer with which a sequence was asked for, or that was taken along with one.
fn beside(tables: &Tables, seq: u32) -> Option<u32> {
    match tables.asked(seq) {
        Some(asked) => asked.offered,
        None => tables.grant(seq)?.taken,
    }
}

// A sequence, and the one beside it.
const BESIDE: [(u32, Option<u32>); 4] = [(1, Some(2)), (2, None), (3, Some(4)), (4, None)];

fn are_beside(tables: &Tables) -> bool {
    let mut are_so = true;
    for (seq, other) in &BESIDE {
        are_so &= beside(tables, *seq) == *other;
    }
    are_so
}

fn tells_offers(alloc: Global, tables: &mut Tables) -> Result<bool, Fail> {
    begin(alloc, tables)?;
    tables.apply(granted(alloc)?)?;
    let are_so = is_at(tables, 3, Some(b"urn:c")) & is_at(tables, 4, Some(b"urn:d"));
    Ok(are_so & are_beside(tables))
}

#[test]
fn offers_are_told(rt: HostRuntime) -> Result<(), Fail> {
    assert!(rt; at_new(rt.alloc(), tells_offers)?);
    Ok(())
}

// Message 5 of sequence 2.
fn received(alloc: Global) -> Record {
    Record::Received {
        seq: 2,
        number: 5,
        payload: payload(Blob::new(alloc), alloc),
    }
}

fn receives_once(alloc: Global, tables: &mut Tables) -> Result<bool, Fail> {
    begin(alloc, tables)?;
    tables.apply(received(alloc))?;
    Ok(tables.apply(received(alloc)) == Err(TableError::Misfit))
}

#[test]
fn a_number_is_received_once(rt: HostRuntime) -> Result<(), Fail> {
    assert!(rt; at_new(rt.alloc(), receives_once)?);
    Ok(())
}

// Node 7 asks for a sequence with an offer of NoDiscard, and grants one.
fn grants_no_discard(alloc: Global, tables: &mut Tables) -> Result<bool, Fail> {
    tables.apply(made(alloc)?)?;
    tables.apply(asked_with(alloc, Behaviour::NoDiscard)?)?;
    tables.apply(granted_with(alloc, Behaviour::NoDiscard)?)?;
    Ok(true)
}

#[test]
fn a_sequence_may_be_loose(rt: HostRuntime) -> Result<(), Fail> {
    assert!(rt; at_new(rt.alloc(), grants_no_discard)?);
    Ok(())
}
