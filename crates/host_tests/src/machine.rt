//! A node over a disk and a link in memory, and the commands that it is given.
use http_endpoint::link::MemLink;
use rm_base::{Blob, Items, MemClock, MemConn, MemSink, MemSource, Memory, Numbers};
use rm_disk::MemDisk;
use rm_host::{Host, run};
use std::alloc::Global;

/// A node over a disk and a link in memory.
pub(crate) type Machine = Host<MemDisk, MemLink, MemClock>;

/// The command that makes node 1.
pub(crate) const MAKE: &[&[u8]] = &[b"make", b"1", b"http://localhost:18473/"];

// Words of a command.
fn words_of(alloc: Global, given: &[&[u8]]) -> Result<Items<Blob>, Memory> {
    let mut words = Items::new(alloc);
    for word in given {
        words.push(Blob::from_slice(alloc, word)?)?;
    }
    Ok(words)
}

// The status of a command that reads this input, and what it wrote.
fn ran(
    alloc: Global,
    machine: &mut Machine,
    given: &[&[u8]],
    input: &[u8],
) -> Result<(u8, MemSink), Memory> {
    let words = words_of(alloc, given)?;
    let mut input = MemSource::new(Blob::from_slice(alloc, input)?, Numbers::new(alloc));
    let mut out = MemSink::new(alloc, Numbers::new(alloc));
    let status = run(alloc, words.as_slice(), &mut input, &mut out, machine);
    Ok((status, out))
}

/// Whether a command that reads nothing has this status and writes this text.
pub(crate) fn prints(
    alloc: Global,
    machine: &mut Machine,
    given: &[&[u8]],
    status: u8,
    text: &[u8],
) -> Result<bool, Memory> {
    let (ended, out) = ran(alloc, machine, given, b"")?;
    Ok((ended == status) & (out.as_slice() == text))
}

/// Whether `import` has this status with this input, and writes this text.
pub(crate) fn imports(
    alloc: Global,
    machine: &mut Machine,
    input: &[u8],
    status: u8,
    text: &[u8],
) -> Result<bool, Memory> {
    let (ended, out) = ran(alloc, machine, &[b"import"], input)?;
    Ok((ended == status) & (out.as_slice() == text))
}

/// A connection on which these bytes come.
pub(crate) fn conn(alloc: Global, text: &[u8]) -> Result<MemConn, Memory> {
    let input = Blob::from_slice(alloc, text)?;
    Ok(MemConn::new(alloc, input, Numbers::new(alloc)))
}
