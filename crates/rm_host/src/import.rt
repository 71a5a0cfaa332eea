//! The command `import`.
ghost use Rattle.std.specs.Prelude.{◌≡◌, IfOk, IsTrue, false};
ghost use Rattle.rm_base.specs.Limits.{journal_bytes};
ghost use Rattle.rm_host.specs.Ends.{HasReason, Took, faults_of, is_outer};
ghost use Rattle.rm_host.specs.Importation.{Importation, ImportsBytes, IsSpared};
ghost use Rattle.rm_host.specs.Texts.{imported_line};

use crate::calls::import_node;
use crate::commands::check_empty;
use crate::end::End;
use crate::host::Host;
use http_endpoint::link::Link;
use rm_base::limits::JOURNAL_BYTES;
use rm_base::{Blob, Clock, Memory, ReadError, Source, push_decimal, read_up_to};
use rm_disk::ReadDisk;
use std::alloc::Global;

/// Reads a journal of the layout before, to the end of the input, and makes an empty disk that of its node. After a
/// fault of the disk and want of memory an empty disk holds anything; where the bytes make no node it stays empty. The
/// input is read before the disk is looked at, so 4 and 8 leave the disk alone. It stands in memory beside the journal
/// that is made of it, of which there are four copies at most.
/// - `imports`: where a count is printed, the input was the journal of a node by the layout before, of so many batches;
///   a disk that tells was empty, and has the batches now, in the first bank and for good. It refuses where the disk
///   had bytes or the journal would be longer than 268435456, and ends with 11 where the input is no node's journal.
/// - `spared`: a disk that tells and had a byte has made no call that changes it.
pub fn import<D: ReadDisk, L: Link, C: Clock, S: Source>(
    alloc: Global,
    host: &mut Host<D, L, C>,
    input: &mut S,
) -> Result<Blob, End>
    ensures imports { Importation D.tells (D.told host.old.disk) (D.told host.new.disk) (S.told input.old) result }
    ensures spared { IsTrue D.tells → IsSpared (D.told host.old.disk) (D.told host.new.disk) }
    ensures took { Took journal_bytes (S.told input.old) (S.told input.new) result }
    ensures link { L.told host.new.link ≡ L.told host.old.link }
    ensures reason { HasReason (faults_of D.told L.told host.old) (faults_of D.told L.told host.new) result }
{
    match read_up_to(alloc, input, JOURNAL_BYTES as usize) {
        Ok(bytes) => import_bytes(alloc, host, bytes.as_slice()),
        Err(ReadError::Failed) => Err(End::ReadFault),
        Err(ReadError::TooLong) => Err(End::TooLong),
        Err(ReadError::Memory) => Err(End::Memory),
    }
}

// Makes an empty disk that of the node whose journal these bytes are.
fn import_bytes<D: ReadDisk, L: Link, C>(
    alloc: Global,
    host: &mut Host<D, L, C>,
    bytes: &[u8],
) -> Result<Blob, End>
    ensures imports { ImportsBytes D.tells (D.told host.old.disk) (D.told host.new.disk) bytes.now result }
    ensures spared { IsTrue D.tells → IsSpared (D.told host.old.disk) (D.told host.new.disk) }
    ensures link { L.told host.new.link ≡ L.told host.old.link }
    ensures reason { HasReason (faults_of D.told L.told host.old) (faults_of D.told L.told host.new) result }
    ensures inner { is_outer result ≡ false }
{
    check_empty(host)?;
    let node = import_node(alloc, host, bytes)?;
    Ok(imported_text(alloc, node.entries())?)
}

fn imported_text(alloc: Global, entries: u64) -> Result<Blob, Memory>
    ensures { IfOk result (λ text. text ≡ imported_line entries) }
{
    let mut text = Blob::from_slice(alloc, b"imported ")?;
    push_decimal(&mut text, entries)?;
    text.push_all(b"\n")?;
    Ok(text)
}
