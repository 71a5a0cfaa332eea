//! What the rows of a table need: the parts of records, and the bytes of a batch both ways.
use node_laws::sizes::batch_len;
use node_laws::sizes::laws::a_batch_that_fits_is_short;
use record_batch::{BatchError, Record, read_batch, write_batch};
use rm_base::{Blob, Ident, Items, Lapse, Payload, Uri};
use rm_sides::ranges::RangeSet;
use soap_document::profile::Elements;
use std::alloc::Global;
use std::test::Fail;
use wsa_headers::Epr;

pub(crate) const NEVER: Lapse = Lapse { months: 0, ms: 0 };

pub(crate) fn uri(alloc: Global, text: &str) -> Result<Uri, Fail> {
    Ok(Uri::from_slice(alloc, text.as_bytes())?)
}

pub(crate) fn ident(alloc: Global, text: &str) -> Result<Ident, Fail> {
    Ok(Ident::from_slice(alloc, text.as_bytes())?)
}

pub(crate) fn endpoint(alloc: Global, text: &str) -> Result<Epr, Fail> {
    let address = uri(alloc, text)?;
    Ok(Epr {
        address,
        params: Elements::new(alloc),
    })
}

pub(crate) fn accepted(alloc: Global, seq: u32, text: &str) -> Result<Record, Fail> {
    let payload = Blob::from_slice(alloc, text.as_bytes())?;
    Ok(Record::Accepted { seq, payload })
}

fn numbers(alloc: Global, ranges: &[(u64, u64)]) -> Result<RangeSet, Fail> {
    let mut numbers = RangeSet::new(alloc);
    for (lower, upper) in ranges {
        if *lower < 1 || *lower > *upper || *upper >= 1 << 63 {
            return Err("message numbers".into());
        }
        numbers.insert_range(*lower, *upper)?;
    }
    Ok(numbers)
}

pub(crate) fn acked(alloc: Global, seq: u32, ranges: &[(u64, u64)]) -> Result<Record, Fail> {
    let numbers = numbers(alloc, ranges)?;
    Ok(Record::Acked { seq, numbers })
}

pub(crate) fn purged(alloc: Global, seq: u32, ranges: &[(u64, u64)]) -> Result<Record, Fail> {
    let numbers = numbers(alloc, ranges)?;
    Ok(Record::Purged { seq, numbers })
}

pub(crate) fn received(alloc: Global, seq: u32, number: u64, text: &str) -> Result<Record, Fail> {
    let bytes = Blob::from_slice(alloc, text.as_bytes())?;
    let payload = Payload {
        bytes,
        scope: Items::new(alloc),
    };
    Ok(Record::Received {
        seq,
        number,
        payload,
    })
}

fn written(alloc: Global, batch: &[Record]) -> Result<Blob, Fail> {
    a_batch_that_fits_is_short();
    if batch_len(alloc, batch)? > 4294967295 {
        return Err("a batch that fits".into());
    }
    Ok(write_batch(alloc, batch)?)
}

// How a batch that was read is written.
fn written_again(alloc: Global, batch: Items<Record>) -> Result<Blob, Fail> {
    written(alloc, batch.as_slice())
}

// Whether bytes are a batch, which is written as they are.
pub(crate) fn is_written_again(alloc: Global, bytes: &[u8]) -> Result<bool, Fail> {
    let text = written_again(alloc, read_batch(alloc, bytes)?)?;
    Ok(text.as_slice() == bytes)
}

// How a batch of one record is written.
fn written_alone(alloc: Global, known: Record) -> Result<Blob, Fail> {
    let batch = [known];
    written(alloc, batch.as_slice())
}

// Whether a batch of one record has these bytes, and they are read and written again.
pub(crate) fn is_written(alloc: Global, known: Record, bytes: &[u8]) -> Result<bool, Fail> {
    let text = written_alone(alloc, known)?;
    Ok((text.as_slice() == bytes) & is_written_again(alloc, bytes)?)
}

// Whether bytes are no batch, and this is the place.
pub(crate) fn is_refused(alloc: Global, bytes: &[u8], at: usize) -> bool {
    match read_batch(alloc, bytes) {
        Ok(_) => false,
        Err(error) => error == BatchError::NotABatch { at },
    }
}
