//! Assertions that ask for security of sequences.
use crate::forms::{ASSERTION, POLICY, Place, asks_by};
use rm_base::Memory;
use std::alloc::Global;

// What stands at a place, and the name of what asks for security there.
type Row = (Place, &'static [u8], &'static [u8]);

// How many rows hold before the first that doesn't.
fn count_asking(alloc: Global, rows: &[Row]) -> Result<usize, Memory> {
    for i in 0..rows.len() {
        let (place, content, name) = rows[i];
        if !asks_by(alloc, place, content, name)? {
            return Ok(i);
        }
    }
    Ok(rows.len())
}

const TOKEN: &[u8] = b"SequenceSTR";

const TRANSPORT: &[u8] = b"SequenceTransportSecurity";

const NAMES: [Row; 6] = [
    (POLICY, b"<p:SequenceSTR/>", TOKEN),
    (POLICY, b"<p:SequenceTransportSecurity/>", TRANSPORT),
    (
        POLICY,
        b"<p:SequenceSTR/><p:SequenceTransportSecurity/>",
        TOKEN,
    ),
    (
        POLICY,
        b"<p:SequenceTransportSecurity/><p:SequenceSTR/>",
        TRANSPORT,
    ),
    (
        POLICY,
        b"<o:SequenceSTR/> <p:SequenceTransportSecurity x='y'/>",
        TRANSPORT,
    ),
    (ASSERTION, b"<v:Policy><p:SequenceSTR/></v:Policy>", TOKEN),
];

#[test]
fn names(rt: HostRuntime) -> Result<(), Memory> {
    assert_eq!(rt; count_asking(rt.alloc(), &NAMES)?, NAMES.len());
    Ok(())
}

const BEHIND: &[u8] =
    b"<p:DeliveryAssurance><w:Policy><p:AtMostOnce/></w:Policy></p:DeliveryAssurance><p:SequenceSTR/>";

#[test]
fn behind_a_delivery_assurance(rt: HostRuntime) -> Result<(), Memory> {
    assert!(rt; asks_by(rt.alloc(), POLICY, BEHIND, TOKEN)?);
    Ok(())
}
