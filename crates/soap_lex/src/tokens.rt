//! Whole tokens, tested.
ghost use Rattle.std.specs.Prelude.{◌≡◌, ◌≢◌, ◌↔◌, ◌⊎◌, ℕ, ◌-◌, ◌<◌, List, [], ◌∷◌, ◌++◌, length, take, codes};
ghost use Rattle.std.specs.Prelude.{IsTrue, IfSome};
ghost use Rattle.std.specs.List.{All, list_all, list_any};
ghost use Rattle.std.specs.Str.{chars};
ghost use Rattle.xml_chars.specs.Classes.{is_char, is_name_char};
ghost use Rattle.xml_chars.specs.Classes.{is_name_start};
ghost use Rattle.soap_lex.specs.Characters.{IsChars, IsName, Holds};
ghost use Rattle.soap_lex.specs.Coded.{BeginsWithChar};
ghost use Rattle.soap_lex.specs.Text.{IsCharData, IsCdata, IsComment};
ghost use Rattle.soap_lex.specs.Value.{IsPlainValue};

use memchr::{memchr2, memchr3, memmem};
use std::str;
use xml_chars::{is_char, is_name_char, is_name_start};

/// A name without a colon: Namespaces in XML 1.0, section 3, production 4.
pub fn is_name(bytes: &[u8]) -> bool
    ensures { IsTrue result ↔ IsName bytes.now }
{
    if is_ascii_name(bytes) {
        return true;
    }
    is_utf8_name(bytes)
}

// A name of any characters; it stands apart, so that the common case is short.
#[inline(never)]
fn is_utf8_name(bytes: &[u8]) -> bool
    ensures { IsTrue result ↔ IsName bytes.now }
{
    match str::from_utf8(bytes) {
        Ok(text) => begins_name(text) && has_name_chars(text),
        Err(_) => false,
    }
}

// A name of ASCII characters.
fn is_ascii_name(bytes: &[u8]) -> bool
    ensures { IsTrue result → IsName bytes.now }
{
    match bytes {
        [first, others @ ..] => begins_ascii_name(*first) && are_ascii_name_chars(others),
        [] => false,
    }
}

// Each byte is an ASCII character that may stand in a name.
fn are_ascii_name_chars(bytes: &[u8]) -> bool
    ensures { IsTrue result → All (λ byte. (byte < 128) × IsTrue (is_name_char byte)) bytes.now }
{
    for byte in bytes {
        if !is_ascii_name_char(*byte) {
            return false;
        }
    }
    true
}

#[inline]
fn begins_ascii_name(byte: u8) -> bool
    ensures { IsTrue result → (byte < 128) × IsTrue (is_name_start byte) }
{
    (byte >= b'a' && byte <= b'z') || (byte >= b'A' && byte <= b'Z') || byte == b'_'
}

#[inline]
fn is_ascii_name_char(byte: u8) -> bool
    ensures { IsTrue result → (byte < 128) × IsTrue (is_name_char byte) }
{
    // Most are small letters.
    if byte >= b'a' && byte <= b'z' {
        return true;
    }
    begins_ascii_name(byte) || (byte >= b'0' && byte <= b'9') || byte == b'-' || byte == b'.'
}

/// Character data: XML 1.0, section 2.4, production 14.
pub fn is_char_data(bytes: &[u8]) -> bool
    ensures { IsTrue result ↔ IsCharData bytes.now }
{
    if is_plain_run(bytes, b']') {
        return true;
    }
    lacks_markup(bytes) && is_cdata(bytes)
}

/// What may stand in a CDATA section: XML 1.0, section 2.7, production 20.
pub fn is_cdata(bytes: &[u8]) -> bool
    ensures { IsTrue result ↔ IsCdata bytes.now }
{
    lacks(bytes, b"]]>") && is_chars(bytes)
}

/// What may stand in a comment: XML 1.0, section 2.5, production 15.
pub fn is_comment(bytes: &[u8]) -> bool
    ensures { IsTrue result ↔ IsComment bytes.now }
{
    lacks_dashes(bytes) && is_chars(bytes)
}

/// What may stand in an attribute value between these quotes, but for references: XML 1.0, section 2.3, production 10.
pub fn is_plain_value(bytes: &[u8], quote: u8) -> bool
    requires { (quote ≡ 34) ⊎ (quote ≡ 39) }
    ensures { IsTrue result ↔ IsPlainValue quote bytes.now }
{
    if is_plain_run(bytes, quote) {
        return true;
    }
    lacks_quote_and_markup(bytes, quote) && is_chars(bytes)
}

/// Characters of a document: XML 1.0, section 2.2, production 2.
pub fn is_chars(bytes: &[u8]) -> bool
    ensures { IsTrue result ↔ IsChars bytes.now }
{
    if is_plain_ascii(bytes) {
        return true;
    }
    let rest = after_chars(bytes);
    if rest.is_empty() {
        return true;
    }
    is_text(rest)
}

// What follows the characters of up to three bytes at the front.
fn after_chars(bytes: &[u8]) -> &[u8]
    ensures { IsChars result.now ↔ IsChars bytes.now }
{
    let mut rest = bytes;
    while let Some(others) = after_char(rest) {
        rest = others;
    }
    rest
}

// What follows the character at the front, where it has up to three bytes.
#[inline]
fn after_char(bytes: &[u8]) -> Option<&[u8]>
    ensures begins { IfSome result (λ rest. BeginsWithChar bytes.now rest.now) }
    ensures shorter { IfSome result (λ rest. length rest.now < length bytes.now) }
{
    match bytes {
        [first, ..] if *first >= 0xE0 => after_triple(bytes),
        _ => after_short(bytes),
    }
}

// The same, where it has up to two bytes.
#[inline]
fn after_short(bytes: &[u8]) -> Option<&[u8]>
    ensures begins { IfSome result (λ rest. BeginsWithChar bytes.now rest.now) }
    ensures shorter { IfSome result (λ rest. length rest.now < length bytes.now) }
{
    match bytes {
        [a, rest @ ..] if is_plain(*a) => Some(rest),
        [a, b, rest @ ..] if is_pair(*a, *b) => Some(rest),
        _ => None,
    }
}

// The same, where it has three.
#[inline]
fn after_triple(bytes: &[u8]) -> Option<&[u8]>
    ensures begins { IfSome result (λ rest. BeginsWithChar bytes.now rest.now) }
    ensures shorter { IfSome result (λ rest. length rest.now < length bytes.now) }
{
    match bytes {
        [a, b, c, rest @ ..] if is_triple(*a, *b, *c) => Some(rest),
        _ => None,
    }
}

#[inline]
fn is_pair(a: u8, b: u8) -> bool
    ensures { IsTrue result → (rest : List ℕ) → BeginsWithChar (a ∷ b ∷ rest) rest }
{
    if a < 0xC2 || a > 0xDF {
        return false;
    }
    b >= 0x80 && b <= 0xBF
}

#[inline]
fn is_triple(a: u8, b: u8, c: u8) -> bool
    ensures { IsTrue result → (rest : List ℕ) → BeginsWithChar (a ∷ b ∷ c ∷ rest) rest }
{
    if a < 0xE0 || a > 0xEF {
        return false;
    }
    if b < 0x80 || b > 0xBF {
        return false;
    }
    if c < 0x80 || c > 0xBF {
        return false;
    }
    let number = (a as u32 - 0xE0) * 4096 + (b as u32 - 0x80) * 64 + (c as u32 - 0x80);
    if number < 0xE000 {
        return number >= 0x800 && number <= 0xD7FF;
    }
    number <= 0xFFFD
}

// UTF-8, and characters of a document.
fn is_text(bytes: &[u8]) -> bool
    ensures { IsTrue result ↔ IsChars bytes.now }
{
    match str::from_utf8(bytes) {
        Ok(text) => has_all_chars(text),
        Err(_) => false,
    }
}

// Each byte is an ASCII character of a document; no exit from the loop, so that it is run over many bytes at once.
fn is_plain_ascii(bytes: &[u8]) -> bool
    ensures { IsTrue result → All (λ byte. (byte < 128) × IsTrue (is_char byte)) bytes.now }
{
    let mut plain = true;
    for byte in bytes {
        plain &= is_plain(*byte);
    }
    plain
}

// Each byte is an ASCII character of a document, and none begins markup or is that other; no exit from the loop either.
fn is_plain_run(bytes: &[u8], other: u8) -> bool
    ensures chars { IsTrue result → IsChars bytes.now }
    ensures no_less { IsTrue result → ¬ (Holds bytes.now (codes "<")) }
    ensures no_ampersand { IsTrue result → ¬ (Holds bytes.now (codes "&")) }
    ensures no_other { IsTrue result → ¬ (Holds bytes.now (other ∷ [])) }
{
    let mut plain = true;
    for byte in bytes {
        plain &= is_plain_but(*byte, other);
    }
    plain
}

#[inline]
fn is_plain_but(byte: u8, other: u8) -> bool
    ensures { IsTrue result → (byte < 128) × IsTrue (is_char byte) × (byte ≢ 60) × (byte ≢ 38) × (byte ≢ other) }
{
    is_plain(byte) && byte != b'<' && byte != b'&' && byte != other
}

#[inline]
fn is_plain(byte: u8) -> bool
    ensures { IsTrue result → (byte < 128) × IsTrue (is_char byte) }
{
    (byte >= 32 && byte < 128) || byte == 9 || byte == 10 || byte == 13
}

// The word stands nowhere in the bytes.
fn lacks(bytes: &[u8], word: &[u8]) -> bool
    ensures { IsTrue result ↔ ¬ (Holds bytes.now word.now) }
{
    if lacks_first(bytes, word) {
        return true;
    }
    memmem::find(bytes, word).is_none()
}

// No byte is the word's first, which is sooner found out than that the word stands nowhere.
fn lacks_first(bytes: &[u8], word: &[u8]) -> bool
    ensures { IsTrue result → ¬ (Holds bytes.now word.now) }
{
    match word {
        [first, ..] => lacks_byte(bytes, *first),
        [] => false,
    }
}

// No byte is the other; no exit from the loop either.
pub(crate) fn lacks_byte(bytes: &[u8], other: u8) -> bool
    ensures { IsTrue result → ¬ (Holds bytes.now (other ∷ [])) }
{
    let mut lacks = true;
    for byte in bytes {
        lacks &= is_not(*byte, other);
    }
    lacks
}

#[inline]
fn is_not(byte: u8, other: u8) -> bool
    ensures { IsTrue result → byte ≢ other }
{
    byte != other
}

// No byte begins markup.
fn lacks_markup(bytes: &[u8]) -> bool
    ensures { IsTrue result ↔ (¬ (Holds bytes.now (codes "<")) × ¬ (Holds bytes.now (codes "&"))) }
{
    memchr2(b'<', b'&', bytes).is_none()
}

// No byte begins markup or is the quote.
fn lacks_quote_and_markup(bytes: &[u8], quote: u8) -> bool
    ensures { IsTrue result ↔ (¬ (Holds bytes.now (codes "<")) × ¬ (Holds bytes.now (codes "&"))
        × ¬ (Holds bytes.now (quote ∷ []))) }
{
    memchr3(b'<', b'&', quote, bytes).is_none()
}

// No two dashes stand side by side, also where one more follows.
fn lacks_dashes(bytes: &[u8]) -> bool
    ensures { IsTrue result ↔ ¬ (Holds (bytes.now ++ codes "-") (codes "--")) }
{
    !ends_with_dash(bytes) && lacks(bytes, b"--")
}

// Each character may stand in a document.
#[tactic(auto, using(std::proofs::lemmas::Str::chars_from_encodes))]
fn has_all_chars(text: &str) -> bool
    ensures { result ≡ list_all is_char (chars text.now) }
{
    text.chars().all(|c| is_char(c))
}

// Each character may stand in a name.
#[tactic(auto, using(std::proofs::lemmas::Str::chars_from_encodes))]
fn has_name_chars(text: &str) -> bool
    ensures { result ≡ list_all is_name_char (chars text.now) }
{
    text.chars().all(|c| is_name_char(c))
}

// The first character may begin a name.
pub(crate) fn begins_name(text: &str) -> bool
    ensures { result ≡ list_any is_name_start (take 1 (chars text.now)) }
{
    match text.chars().next() {
        Some(first) => is_name_start(first),
        None => false,
    }
}

fn ends_with_dash(bytes: &[u8]) -> bool
    ensures yes { IsTrue result → bytes.now ≡ take (length bytes.now - 1) bytes.now ++ 45 ∷ [] }
    ensures no { (front : List ℕ) → bytes.now ≡ front ++ 45 ∷ [] → IsTrue result }
{
    match bytes {
        [.., last] => *last == b'-',
        [] => false,
    }
}
