//! Bytes that are no batch, and records that don't fit.
use crate::batch_tests::parts::{accepted, is_refused, uri};
use node_tables::{TableError, Tables};
use record_batch::Record;
use std::test::Fail;

#[test]
fn bytes_that_are_cut_or_left(rt: HostRuntime) -> Result<(), Fail> {
    let alloc = rt.alloc();
    assert!(rt; is_refused(alloc, b"", 0));
    assert!(rt; is_refused(alloc, b"\0\0\0\0", 0));
    // One byte behind the record.
    assert!(rt; is_refused(alloc, b"\0\0\0\x01\x09\0\0\0\x01\x09", 9));
    // The second record is cut in its number.
    assert!(rt; is_refused(alloc, b"\0\0\0\x02\x09\0\0\0\x01\x09\0\0", 9));
    // There is no second record.
    assert!(rt; is_refused(alloc, b"\0\0\0\x02\x09\0\0\0\x01", 9));
    // There is no such kind.
    assert!(rt; is_refused(alloc, b"\0\0\0\x01\x12\0\0\0\x01", 4));
    Ok(())
}

#[test]
fn ranges_that_are_not_canonical(rt: HostRuntime) -> Result<(), Fail> {
    let alloc = rt.alloc();
    let touching = b"\0\0\0\x01\x06\0\0\0\x01\0\0\0\x02\
                     \0\0\0\0\0\0\0\x01\0\0\0\0\0\0\0\x02\0\0\0\0\0\0\0\x03\0\0\0\0\0\0\0\x03";
    assert!(rt; is_refused(alloc, touching, 4));
    let falling = b"\0\0\0\x01\x06\0\0\0\x01\0\0\0\x02\
                    \0\0\0\0\0\0\0\x04\0\0\0\0\0\0\0\x04\0\0\0\0\0\0\0\x01\0\0\0\0\0\0\0\x02";
    assert!(rt; is_refused(alloc, falling, 4));
    let from_zero = b"\0\0\0\x01\x06\0\0\0\x01\0\0\0\x01\0\0\0\0\0\0\0\0\0\0\0\0\0\0\0\x02";
    assert!(rt; is_refused(alloc, from_zero, 4));
    let too_great = b"\0\0\0\x01\x06\0\0\0\x01\0\0\0\x01\0\0\0\0\0\0\0\x01\x80\0\0\0\0\0\0\0";
    assert!(rt; is_refused(alloc, too_great, 4));
    Ok(())
}

#[test]
fn a_payload_without_a_sequence(rt: HostRuntime) -> Result<(), Fail> {
    let alloc = rt.alloc();
    let mut tables = Tables::new(alloc);
    let known = accepted(alloc, 1, "<p/>")?;
    assert_eq!(rt; tables.apply(known), Err(TableError::Misfit));
    assert_eq!(rt; tables.len(), 0);
    Ok(())
}

#[test]
fn room_is_made_for_the_first_record(rt: HostRuntime) -> Result<(), Fail> {
    let alloc = rt.alloc();
    let mut batch = Vec::new(alloc);
    batch.push(Record::Made {
        node: 7,
        address: uri(alloc, "urn:a")?,
    })?;
    let mut tables = Tables::new(alloc);
    assert!(rt; tables.reserve(batch.as_slice()).is_ok());
    assert_eq!(rt; tables.number(), 0);
    assert!(rt; tables.apply_all(batch).is_ok());
    assert_eq!(rt; tables.number(), 7);
    Ok(())
}
