//! Where a token ends. The end is mostly near, so the first few bytes are looked at one by one.
ghost use Rattle.std.specs.Prelude.{◌≡◌, true, option_map};
ghost use Rattle.memchr.specs.Find.{IsFirstByte, is_byte, is_byte2};
ghost use Rattle.soap_lex.specs.Tests.{without};

use memchr::memchr2;

// So many bytes are near.
const NEAR: usize = 16;

// Where the first byte is one of the two.
pub(crate) fn first_of_two(a: u8, b: u8, bytes: &[u8]) -> Option<usize>
    ensures { IsFirstByte (is_byte2 a b) bytes.now result }
{
    let near = bytes.len().min(NEAR);
    for i in 0..near {
        if is_either(a, b, bytes[i]) {
            return Some(i);
        }
    }
    if bytes.len() <= NEAR {
        return None;
    }
    match memchr2(a, b, &bytes[near..]) {
        Some(further) => Some(near + further),
        None => None,
    }
}

#[inline]
fn is_either(a: u8, b: u8, byte: u8) -> bool
    ensures { result ≡ is_byte2 a b byte }
{
    byte == a || byte == b
}

/// Where the first such byte is.
pub fn first_byte(byte: u8, bytes: &[u8]) -> Option<usize>
    ensures { IsFirstByte (is_byte byte) bytes.now result }
{
    first_of_two(byte, byte, bytes)
}

/// The front of the bytes, where they end in the word.
pub fn before<'a>(word: &[u8], bytes: &'a [u8]) -> Option<&'a [u8]>
    ensures { option_map (λ x. x.now) result ≡ without word.now bytes.now }
{
    bytes.strip_suffix(word)
}

// The first byte, if there is one.
pub(crate) fn first(bytes: &[u8]) -> Option<usize>
    ensures { IsFirstByte (λ _. true) bytes.now result }
{
    if bytes.is_empty() { None } else { Some(0) }
}
