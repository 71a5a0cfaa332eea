//! The words of a line.
ghost use Rattle.std.specs.Prelude.{◌≡◌, ◌≤◌, option_map, IfSome};
ghost use Rattle.rm_script.specs.Reading.{
  behind as behind_of,
  word_of,
  behind_word,
  is_same as is_same_text,
  number_in,
  behaviour_in,
  node_in,
  call_in,
  numbered_in,
};

use crate::decimal::number_of;
use crate::event::Side;
use rm_base::Behaviour;

/// The number of a node, and what stands behind it.
#[derive(Clone, Copy)]
pub(crate) struct Arguments<'a> {
    pub node: Side,
    pub rest: &'a [u8],
}

/// What stands behind a word at the front of bytes.
pub fn behind<'a>(bytes: &'a [u8], word: &[u8]) -> Option<&'a [u8]>
    ensures { option_map (λ rest. rest.now) result ≡ behind_of word.now bytes.now }
{
    bytes.strip_prefix(word)
}

/// The bytes up to the first space, and those from it on.
pub fn cut_word(bytes: &[u8]) -> (&[u8], &[u8])
    ensures word { result.0.now ≡ word_of bytes.now }
    ensures rest { result.1.now ≡ behind_word bytes.now }
{
    for i in 0..bytes.len() {
        if bytes[i] == b' ' {
            return bytes.split_at(i);
        }
    }
    (bytes, &[])
}

/// The number from `low` to `high` whose digits these are.
pub fn number(digits: &[u8], low: u64, high: u64) -> Option<u64>
    ensures number { result ≡ number_in low high digits.now }
    ensures within { IfSome result (λ number. number ≤ high) }
{
    let number = number_of(digits)?;
    if number < low || number > high {
        return None;
    }
    Some(number)
}

/// The behaviour that a word names.
pub(crate) fn behaviour(word: &[u8]) -> Option<Behaviour>
    ensures { result ≡ behaviour_in word.now }
{
    if is_same(word, b"dfg") {
        return Some(Behaviour::FollowingFirstGap);
    }
    if is_same(word, b"des") {
        return Some(Behaviour::EntireSequence);
    }
    if is_same(word, b"loose") {
        return Some(Behaviour::NoDiscard);
    }
    None
}

/// Whether two texts are one.
pub fn is_same(word: &[u8], other: &[u8]) -> bool
    ensures { result ≡ is_same_text word.now other.now }
{
    word == other
}

/// The number of a node at the front of bytes.
pub(crate) fn node(bytes: &[u8]) -> Option<Arguments<'_>>
    ensures { option_map (λ a. (a.node, a.rest.now)) result ≡ node_in bytes.now }
{
    match bytes {
        [b'1', rest @ ..] => Some(Arguments {
            node: Side::One,
            rest,
        }),
        [b'2', rest @ ..] => Some(Arguments {
            node: Side::Two,
            rest,
        }),
        _ => None,
    }
}

/// The number of a node at the front of bytes, and the arguments behind it.
pub(crate) fn call(bytes: &[u8]) -> Option<Arguments<'_>>
    ensures { option_map (λ a. (a.node, a.rest.now)) result ≡ call_in bytes.now }
{
    let arguments = node(bytes)?;
    let rest = behind(arguments.rest, b" ")?;
    Some(Arguments {
        node: arguments.node,
        rest,
    })
}

/// The number of a node at the front of bytes, and a number from `low` to `high` behind it.
pub(crate) fn numbered(bytes: &[u8], low: u64, high: u64) -> Option<(Side, u64)>
    ensures number { result ≡ numbered_in low high bytes.now }
    ensures within { IfSome result (λ n. n.1 ≤ high) }
{
    let arguments = call(bytes)?;
    let number = number(arguments.rest, low, high)?;
    Some((arguments.node, number))
}
