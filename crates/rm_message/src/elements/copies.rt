//! The same acknowledgement again.
ghost use Rattle.std.specs.Prelude.{◌≡◌, IfOk};

use crate::elements::header::{AckBlock, AckKind};
use rm_base::{Items, Memory};
use std::alloc::Global;

fn copy_items<T: Copy>(alloc: Global, items: &Items<T>) -> Result<Items<T>, Memory>
    ensures { IfOk result (λ copy. copy ≡ items.now) }
{
    Ok(Items::from_vec(Vec::from_slice(alloc, items.as_slice())?))
}

fn copy_kind(alloc: Global, kind: &AckKind) -> Result<AckKind, Memory>
    ensures { IfOk result (λ copy. copy ≡ kind.now) }
{
    match kind {
        AckKind::Ranges(ranges) => Ok(AckKind::Ranges(copy_items(alloc, ranges)?)),
        AckKind::Nothing => Ok(AckKind::Nothing),
        AckKind::Nack(numbers) => Ok(AckKind::Nack(copy_items(alloc, numbers)?)),
    }
}

/// The same acknowledgement again.
pub fn copy_block(alloc: Global, block: &AckBlock) -> Result<AckBlock, Memory>
    ensures { IfOk result (λ copy. copy ≡ block.now) }
{
    let ident = block.ident.copy()?;
    let kind = copy_kind(alloc, &block.kind)?;
    Ok(AckBlock {
        ident,
        kind,
        last: block.last,
    })
}
