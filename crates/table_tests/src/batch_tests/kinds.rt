//! The bytes of a batch of each kind of record.
use crate::batch_tests::parts::{
    NEVER, accepted, acked, endpoint, ident, is_written, is_written_again, purged, received, uri,
};
use record_batch::{OwnOffer, PeerOffer, Record, Via, read_batch};
use rm_base::{Behaviour, Binding, Blob, Cause, Items, Lapse, Memory, Payload};
use std::alloc::Global;
use std::test::Fail;

const MADE: &[u8] = b"\0\0\0\x01\x01\0\0\0\0\0\x01\x02\x03\0\0\0\x05urn:a";

const ASKED: &[u8] =
    b"\0\0\0\x01\x02\0\0\0\0\0\0\0\x09\0\0\0\x05urn:b\x02\0\0\0\0\0\0\0\x01\0\0\0\0\0\0\x03\xe8\0";

const OFFERED: &[u8] = b"\0\0\0\x01\x02\0\0\0\0\0\0\0\x09\0\0\0\x05urn:b\0\
      \0\0\0\0\0\0\0\0\0\0\0\0\0\0\0\0\x01\0\0\0\0\0\0\0\x0a\x02";

const CREATED: &[u8] = b"\0\0\0\x01\x03\0\0\0\x02\0\0\0\x05urn:s\0";

const TAKEN: &[u8] = b"\0\0\0\x01\x03\0\0\0\x02\0\0\0\x05urn:s\x01\0\0\0\x05urn:c\0\0\0\0";

const GRANTED: &[u8] = b"\0\0\0\x01\x04\0\0\0\0\0\0\0\x03\0\0\0\x05urn:m\0\0\0\x05urn:c\0\0\0\0\x01\
      \x01\0\0\0\0\0\0\x01\0\0\0\0\0\0\0\0\x01\0\0\0\0\0\0\x03\xe8\0";

const ENDLESS: &[u8] = b"\0\0\0\x01\x04\0\0\0\0\0\0\0\x03\0\0\0\x05urn:m\0\0\0\x05urn:c\0\0\0\0\0\
      \0\0\0\0\0\0\0\0\0\0\0\0\0\0\0\0\0\x01\0\0\0\x05urn:o\0\0\0\x05urn:d\0\0\0\0";

const WITH_PARAMETER: &[u8] =
    b"\0\0\0\x01\x03\0\0\0\x02\0\0\0\x05urn:s\x01\0\0\0\x05urn:c\0\0\0\x01\0\0\0\x18<n:k xmlns:n=\"u\">1</n:k>";

fn asked(alloc: Global, via: Via, lapse: Lapse, offer: Option<OwnOffer>) -> Result<Record, Fail> {
    Ok(Record::Creating {
        ticket: 9,
        to: uri(alloc, "urn:b")?,
        via,
        lapse,
        offer,
    })
}

fn granted(
    alloc: Global,
    behaviour: Behaviour,
    deadline: Option<u64>,
    lapse: Lapse,
    offer: Option<PeerOffer>,
) -> Result<Record, Fail> {
    Ok(Record::Granted {
        counter: 3,
        message_id: uri(alloc, "urn:m")?,
        acks_to: endpoint(alloc, "urn:c")?,
        behaviour,
        deadline,
        lapse,
        offer,
    })
}

const MONTH_AND_SECOND: Lapse = Lapse {
    months: 1,
    ms: 1000,
};

#[test]
fn a_node_is_made_and_asks(rt: HostRuntime) -> Result<(), Fail> {
    let alloc = rt.alloc();
    let made = Record::Made {
        node: 66051,
        address: uri(alloc, "urn:a")?,
    };
    assert!(rt; is_written(alloc, made, MADE)?);
    let known = asked(alloc, Via::Back, MONTH_AND_SECOND, None)?;
    assert!(rt; is_written(alloc, known, ASKED)?);
    let offer = OwnOffer {
        counter: 10,
        behaviour: Behaviour::FollowingFirstGap,
    };
    let known = asked(alloc, Via::Direct, NEVER, Some(offer))?;
    assert!(rt; is_written(alloc, known, OFFERED)?);
    Ok(())
}

#[test]
fn a_sequence_is_created(rt: HostRuntime) -> Result<(), Fail> {
    let alloc = rt.alloc();
    let created = Record::Created {
        seq: 2,
        ident: ident(alloc, "urn:s")?,
        accept: None,
    };
    assert!(rt; is_written(alloc, created, CREATED)?);
    let taken = Record::Created {
        seq: 2,
        ident: ident(alloc, "urn:s")?,
        accept: Some(endpoint(alloc, "urn:c")?),
    };
    assert!(rt; is_written(alloc, taken, TAKEN)?);
    Ok(())
}

// Whether the first record has one parameter of the endpoint that was accepted.
fn has_parameter(batch: &Items<Record>) -> bool {
    match batch.get(0) {
        Some(
            Record::Created {
                accept: Some(accept),
                ..
            },
        ) => accept.params.len() == 1,
        _ => false,
    }
}

fn is_parameter_read(alloc: Global, bytes: &[u8]) -> Result<bool, Fail> {
    let batch = read_batch(alloc, bytes)?;
    Ok(has_parameter(&batch))
}

#[test]
fn a_parameter_is_the_text_of_its_element(rt: HostRuntime) -> Result<(), Fail> {
    assert!(rt; is_written_again(rt.alloc(), WITH_PARAMETER)?);
    assert!(rt; is_parameter_read(rt.alloc(), WITH_PARAMETER)?);
    Ok(())
}

#[test]
fn a_sequence_is_granted(rt: HostRuntime) -> Result<(), Fail> {
    let alloc = rt.alloc();
    let known = granted(
        alloc,
        Behaviour::EntireSequence,
        Some(256),
        MONTH_AND_SECOND,
        None,
    )?;
    assert!(rt; is_written(alloc, known, GRANTED)?);
    let offer = PeerOffer {
        ident: ident(alloc, "urn:o")?,
        endpoint: endpoint(alloc, "urn:d")?,
    };
    let known = granted(alloc, Behaviour::NoDiscard, None, NEVER, Some(offer))?;
    assert!(rt; is_written(alloc, known, ENDLESS)?);
    Ok(())
}

#[test]
fn payloads_and_acknowledgements(rt: HostRuntime) -> Result<(), Fail> {
    let alloc = rt.alloc();
    let known = accepted(alloc, 1, "<p/>")?;
    assert!(rt; is_written(alloc, known, b"\0\0\0\x01\x05\0\0\0\x01\0\0\0\x04<p/>")?);
    let known = acked(alloc, 1, &[])?;
    assert!(rt; is_written(alloc, known, b"\0\0\0\x01\x06\0\0\0\x01\0\0\0\0")?);
    let known = acked(alloc, 1, [(1, 2), (4, 4)].as_slice())?;
    let bytes = b"\0\0\0\x01\x06\0\0\0\x01\0\0\0\x02\
                  \0\0\0\0\0\0\0\x01\0\0\0\0\0\0\0\x02\0\0\0\0\0\0\0\x04\0\0\0\0\0\0\0\x04";
    assert!(rt; is_written(alloc, known, bytes)?);
    let known = received(alloc, 2, 3, "<p/>")?;
    let bytes = b"\0\0\0\x01\x07\0\0\0\x02\0\0\0\0\0\0\0\x03\0\0\0\x04<p/>\0\0\0\0";
    assert!(rt; is_written(alloc, known, bytes)?);
    Ok(())
}

#[test]
fn what_was_consumed_and_what_is_gone(rt: HostRuntime) -> Result<(), Fail> {
    let alloc = rt.alloc();
    let known = Record::Consumed { seq: 2, upto: 3 };
    assert!(rt; is_written(alloc, known, b"\0\0\0\x01\x0f\0\0\0\x02\0\0\0\0\0\0\0\x03")?);
    let known = Record::Dropped { seq: 1, upto: 258 };
    assert!(rt;
        is_written(
            alloc,
            known,
            b"\0\0\0\x01\x10\0\0\0\x01\0\0\0\0\0\0\x01\x02"
        )?
    );
    let known = Record::Dropped { seq: 1, upto: 0 };
    assert!(rt; is_written(alloc, known, b"\0\0\0\x01\x10\0\0\0\x01\0\0\0\0\0\0\0\0")?);
    let known = purged(alloc, 2, &[])?;
    assert!(rt; is_written(alloc, known, b"\0\0\0\x01\x11\0\0\0\x02\0\0\0\0")?);
    let known = purged(alloc, 2, [(1, 3)].as_slice())?;
    let bytes = b"\0\0\0\x01\x11\0\0\0\x02\0\0\0\x01\0\0\0\0\0\0\0\x01\0\0\0\0\0\0\0\x03";
    assert!(rt; is_written(alloc, known, bytes)?);
    Ok(())
}

fn binding(alloc: Global) -> Result<Binding, Memory> {
    let prefix = Blob::from_slice(alloc, b"n")?;
    let space = Blob::from_slice(alloc, b"urn:n")?;
    Ok(Binding { prefix, space })
}

fn scope(alloc: Global) -> Result<Items<Binding>, Memory> {
    let mut scope = Items::new(alloc);
    scope.push(binding(alloc)?)?;
    Ok(scope)
}

// A payload with a binding, as the last message of all.
fn bound(alloc: Global) -> Result<Record, Memory> {
    let bytes = Blob::from_slice(alloc, b"<n:p/>")?;
    let scope = scope(alloc)?;
    Ok(Record::Received {
        seq: 2,
        number: 9223372036854775807,
        payload: Payload { bytes, scope },
    })
}

const BOUND: &[u8] = b"\0\0\0\x01\x07\0\0\0\x02\x7f\xff\xff\xff\xff\xff\xff\xff\0\0\0\x06<n:p/>\
                  \0\0\0\x01\0\0\0\x01n\0\0\0\x05urn:n";

#[test]
fn bindings_of_a_payload(rt: HostRuntime) -> Result<(), Fail> {
    assert!(rt; is_written(rt.alloc(), bound(rt.alloc())?, BOUND)?);
    Ok(())
}

#[test]
fn a_source_closes_and_ends(rt: HostRuntime) -> Result<(), Fail> {
    let alloc = rt.alloc();
    let known = Record::Closing { seq: 1, ticket: 2 };
    assert!(rt; is_written(alloc, known, b"\0\0\0\x01\x08\0\0\0\x01\0\0\0\0\0\0\0\x02")?);
    let known = Record::ClosedOut { seq: 258 };
    assert!(rt; is_written(alloc, known, b"\0\0\0\x01\x09\0\0\x01\x02")?);
    let known = Record::Ending { seq: 1, ticket: 3 };
    assert!(rt; is_written(alloc, known, b"\0\0\0\x01\x0b\0\0\0\x01\0\0\0\0\0\0\0\x03")?);
    let known = Record::EndedOut { seq: 1 };
    assert!(rt; is_written(alloc, known, b"\0\0\0\x01\x0c\0\0\0\x01")?);
    let known = Record::Failed { seq: 1, fault: 7 };
    assert!(rt; is_written(alloc, known, b"\0\0\0\x01\x0e\0\0\0\x01\x07")?);
    Ok(())
}

#[test]
fn a_destination_closes_and_ends(rt: HostRuntime) -> Result<(), Fail> {
    let alloc = rt.alloc();
    let known = Record::Closed {
        seq: 1,
        cause: Cause::NotTaken,
        last: 0,
    };
    assert!(rt;
        is_written(
            alloc,
            known,
            b"\0\0\0\x01\x0a\0\0\0\x01\x03\0\0\0\0\0\0\0\0"
        )?
    );
    let known = Record::Ended {
        seq: 1,
        cause: Cause::Expired,
        last: 5,
    };
    assert!(rt;
        is_written(
            alloc,
            known,
            b"\0\0\0\x01\x0d\0\0\0\x01\x02\0\0\0\0\0\0\0\x05"
        )?
    );
    Ok(())
}
