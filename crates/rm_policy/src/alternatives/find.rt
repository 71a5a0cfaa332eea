//! Policies from bytes to their alternatives.
ghost use Rattle.std.specs.Prelude.{◌≡◌};
ghost use Rattle.rm_policy.specs.Alternatives.Finds.{FindsCommon, FindsNormal};

use crate::alternatives::common::intersect;
use crate::alternatives::error::WspError;
use crate::alternatives::normal::normalise;
use crate::alternatives::read::{read_pair, read_policy};
use crate::alternatives::term::Alternatives;
use std::alloc::Global;

/// The normal form of a policy. Each refusal comes exactly with the first cause that holds of the bytes.
pub fn find_normal(alloc: Global, bytes: &[u8]) -> Result<Alternatives, WspError>
    ensures { FindsNormal bytes.now result }
{
    let policy = read_policy(alloc, bytes)?;
    let lists = normalise(alloc, &policy)?;
    Ok(lists)
}

/// What a pair of policies has in common. The first is brought to its normal form first. Each refusal comes exactly
/// with the first cause that holds: those of the first policy, those of the second, and then those of what they have in
/// common.
pub fn find_common(alloc: Global, bytes: &[u8]) -> Result<Alternatives, WspError>
    ensures { FindsCommon bytes.now result }
{
    let pair = read_pair(alloc, bytes)?;
    let lists = normalise(alloc, &pair.0)?;
    let others = normalise(alloc, &pair.1)?;
    let common = intersect(alloc, &lists, &others)?;
    Ok(common)
}
