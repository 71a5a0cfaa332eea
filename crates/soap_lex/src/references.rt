//! References to characters.
ghost use Rattle.std.specs.Prelude.{◌≡◌, ◌≢◌, ◌⊎◌, ℕ, ◌≤◌, List, [], ◌++◌, min, encode_utf8, IfSome, IfNone, OnOk};
ghost use Rattle.std.specs.Prelude.{OnErr, IsTrue, codes};
ghost use Rattle.std.specs.Str.Parse.{AllDigits, digits_value};
ghost use Rattle.xml_chars.specs.Classes.{is_char};
ghost use Rattle.soap_lex.specs.References.{IsReference};

use crate::Memory;
use memchr::memchr;
use xml_chars::is_char;

/// The character that a reference stands for, which is the whole of the bytes, from `&` to `;`: XML 1.0, section 4.1,
/// productions 66 and 68, with the five names of section 4.6.
pub fn reference(bytes: &[u8]) -> Option<char>
    ensures found { IfSome result (IsReference bytes.now) }
    ensures none { IfNone result ((c : ℕ) → IsReference bytes.now c → ⊥) }
{
    if let Some(digits) = between(b"&#x", bytes, b";") {
        return character(digits, 16);
    }
    if let Some(digits) = between(b"&#", bytes, b";") {
        return character(digits, 10);
    }
    named(bytes)
}

// What stands between the two words.
fn between<'a>(before: &[u8], bytes: &'a [u8], after: &[u8]) -> Option<&'a [u8]>
    ensures found { IfSome result (λ inner. bytes.now ≡ before.now ++ (inner.now ++ after.now)) }
    ensures none { IfNone result ((inner : List ℕ) → bytes.now ≡ before.now ++ (inner ++ after.now) → ⊥) }
{
    let Some(rest) = bytes.strip_prefix(before) else {
        return None;
    };
    rest.strip_suffix(after)
}

// The character of a reference by name.
fn named(bytes: &[u8]) -> Option<char>
    ensures found { IfSome result (IsReference bytes.now) }
    ensures none { IfNone result ((bytes.now ≢ codes "&amp;") × (bytes.now ≢ codes "&lt;") × (bytes.now ≢ codes "&gt;")
        × (bytes.now ≢ codes "&apos;") × (bytes.now ≢ codes "&quot;")) }
{
    match bytes {
        b"&amp;" => Some('&'),
        b"&lt;" => Some('<'),
        b"&gt;" => Some('>'),
        b"&apos;" => Some('\''),
        b"&quot;" => Some('"'),
        _ => None,
    }
}

// The character with this number.
fn character(digits: &[u8], base: u32) -> Option<char>
    requires { (base ≡ 10) ⊎ (base ≡ 16) }
    ensures found { IfSome result (λ c. (digits.now ≢ []) × AllDigits base digits.now × IsTrue (is_char c)
        × (c ≡ digits_value base digits.now)) }
    ensures none { IfNone result (digits.now ≢ [] → AllDigits base digits.now
        → IsTrue (is_char (digits_value base digits.now)) → ⊥) }
{
    if digits.is_empty() {
        return None;
    }
    let c = char::from_u32(number(digits, base)?)?;
    if is_char(c) { Some(c) } else { None }
}

// The number that the digits write, or one above all characters where theirs is.
fn number(digits: &[u8], base: u32) -> Option<u32>
    requires { (base ≡ 10) ⊎ (base ≡ 16) }
    ensures found { IfSome result (λ n. AllDigits base digits.now × (n ≡ min (digits_value base digits.now) 0x110000)) }
    ensures none { IfNone result (AllDigits base digits.now → ⊥) }
{
    let mut number: u32 = 0;
    for digit in digits {
        let value = (*digit as char).to_digit(base)?;
        number = (number * base + value).min(0x11_0000);
    }
    Some(number)
}

// Appends a character.
pub(crate) fn push_character(c: char, out: &mut Vec<u8>) -> Result<(), Memory>
    ensures ok { OnOk result (out.new.items ≡ out.old.items ++ encode_utf8 c) }
    ensures err { OnErr result (out.new.items ≡ out.old.items) }
{
    let mut room = [0; 4];
    out.extend_from_slice(c.encode_utf8(&mut room).as_bytes())?;
    Ok(())
}
