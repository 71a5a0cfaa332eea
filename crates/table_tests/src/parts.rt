//! New tables, and the parts of records. What a test does stands in a helper that is lent the tables: the proof of a
//! function that lets them go takes long.
use node_tables::Tables;
use record_batch::Record;
use rm_base::{Blob, Ident, Items, Lapse, Payload, Uri};
use soap_document::profile::Elements;
use std::alloc::Global;
use std::test::Fail;
use wsa_headers::Epr;

pub(crate) const NEVER: Lapse = Lapse { months: 0, ms: 0 };

pub(crate) fn uri(alloc: Global, text: &str) -> Result<Uri, Fail> {
    Ok(Uri::from_slice(alloc, text.as_bytes())?)
}

pub(crate) fn ident(alloc: Global, text: &str) -> Result<Ident, Fail> {
    Ok(Ident::from_slice(alloc, text.as_bytes())?)
}

pub(crate) fn endpoint(alloc: Global, text: &str) -> Result<Epr, Fail> {
    let address = uri(alloc, text)?;
    Ok(Epr {
        address,
        params: Elements::new(alloc),
    })
}

pub(crate) fn payload(bytes: Blob, alloc: Global) -> Payload {
    Payload {
        bytes,
        scope: Items::new(alloc),
    }
}

/// Node 7 is made.
pub(crate) fn made(alloc: Global) -> Result<Record, Fail> {
    let address = uri(alloc, "urn:a")?;
    Ok(Record::Made { node: 7, address })
}

/// What comes of doing something with new tables.
pub(crate) fn at_new<T, F>(alloc: Global, act: F) -> Result<T, Fail>
where
    F: FnOnce(Global, &mut Tables) -> Result<T, Fail> + Drop,
    requires { F.IsAlwaysCallable act }
{
    let mut tables = Tables::new(alloc);
    act(alloc, &mut tables)
}
