//! The identifiers that a node issues: UUIDs of version 8, RFC 9562, section 5.8, as URNs.
ghost use Rattle.std.specs.Prelude.{◌≡◌, ◌<◌, ◌^◌, IfOk};
ghost use Rattle.std.specs.Str.{bytes_eq};
ghost use Rattle.record_batch.specs.Sequences.Idents.{
  IsIssuedFor,
  issue as issue_of,
  lower_half as lower_half_of,
  upper_half as upper_half_of,
};

use rm_base::{Ident, Memory, TextError};
use std::alloc::Global;
use uuid::Uuid;

/// The bytes of the text of an identifier.
const LENGTH: usize = 45;

// The upper 48 bits of the node's number, the version, and its lower 12 bits.
fn upper_half(node: u64) -> u64
    requires { node < 2 ^ 60 }
    ensures { result ≡ upper_half_of node }
{
    (node / 4096) * 65536 + 32768 + node % 4096
}

// The variant in two bits, and the counter.
fn lower_half(counter: u64) -> u64
    requires { counter < 2 ^ 62 }
    ensures { result ≡ lower_half_of counter }
{
    9223372036854775808 + counter
}

/// The identifier of a node for a number that it drew, as `urn:uuid:00000000-0000-8001-8000-000000000001` for number 1
/// of node 1. It is the URN of version 8 of the node's number and the counter.
pub fn issue(alloc: Global, node: u64, counter: u64) -> Result<Ident, Memory>
    requires node { node < 2 ^ 60 }
    requires counter { counter < 2 ^ 62 }
    ensures { IfOk result (λ ident. ident ≡ issue_of node counter) }
{
    let uuid = Uuid::from_u64_pair(upper_half(node), lower_half(counter));
    let mut buffer = [0; LENGTH];
    let text = uuid.urn().encode_lower(&mut buffer);
    match Ident::from_slice(alloc, text.as_bytes()) {
        Ok(ident) => Ok(ident),
        Err(TextError::Memory) => Err(Memory),
        Err(TextError::Empty) => unreachable!(),
        Err(TextError::TooLong { len: _ }) => unreachable!(),
        Err(TextError::NotText) => unreachable!(),
    }
}

/// Whether a text is the identifier that a node issues for a number. It takes no memory.
pub fn is_issued(node: u64, counter: u64, text: &[u8]) -> bool
    requires { node < 2 ^ 60 }
    ensures { result ≡ bytes_eq (issue_of node counter) text.now }
{
    let upper = (upper_half(node) as u128) * (1 << 64);
    let uuid = Uuid::from_u128(upper + ((1 << 63) + counter as u128));
    let mut buffer = [0; LENGTH];
    let issued = uuid.urn().encode_lower(&mut buffer);
    issued.as_bytes() == text
}

/// The number that a node issues a text for, where there is one. It takes no memory.
pub fn issued_counter(node: u64, text: &[u8]) -> Option<u64>
    requires { node < 2 ^ 60 }
    ensures { IsIssuedFor node text.now result }
{
    let Ok(uuid) = Uuid::try_parse_ascii(text) else {
        return None;
    };
    let (_, lower) = uuid.as_u64_pair();
    let counter = lower.wrapping_sub(1 << 63);
    if is_issued(node, counter, text) {
        Some(counter)
    } else {
        None
    }
}
