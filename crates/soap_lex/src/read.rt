//! Names, text and values read at a place.
ghost use Rattle.std.specs.Prelude.{◌≡◌, ◌⊎◌, ℕ, ◌+◌, ◌-◌, ◌<◌, ◌≤◌, List, [], ◌∷◌, ◌++◌, length, take, drop, Some};
ghost use Rattle.std.specs.Prelude.{None};
ghost use Rattle.std.specs.Prelude.{IfOk, IfErr, IfSome, IfNone, OnErr};
ghost use Rattle.std.specs.Str.{IsUtf8};
ghost use Rattle.soap_lex.specs.Characters.{IsName, IsLongestName};
ghost use Rattle.soap_lex.specs.Cut.{EndsOrWants, IsNameRun, IsTextFirst, IsValueFirst, OnRefusal};
ghost use Rattle.soap_lex.specs.Cut.{ReadsText, ReadsValue};
ghost use Rattle.soap_lex.specs.Readers.{quote_byte};
ghost use Rattle.soap_lex.specs.TextMachine.{begun, counted, reads};
ghost use Rattle.soap_lex.specs.ValueMachine.{begun as begun_value, reads as reads_value};

use crate::tokens::begins_name;
use crate::{LexError, Quote, TextReader, ValueReader};
use std::str;
use xml_chars::is_name_char;

/// How many bytes the longest front has that is UTF-8.
pub fn utf8_prefix(bytes: &[u8]) -> usize
    ensures within { result ≤ length bytes.now }
    ensures valid { IsUtf8 (take result bytes.now) }
    ensures longest { (n : ℕ) → n ≤ length bytes.now → IsUtf8 (take n bytes.now) → n ≤ result }
{
    match str::from_utf8(bytes) {
        Ok(text) => text.len(),
        Err(error) => error.valid_up_to(),
    }
}

/// The end of the longest name at that place, a name without a colon.
pub fn read_name(bytes: &[u8], at: usize) -> Option<usize>
    requires within { at ≤ length bytes.now }
    requires text { IsUtf8 (drop at bytes.now) }
    ensures bound { IfSome result (λ end. (at ≤ end) × (end ≤ length bytes.now)) }
    ensures found { IfSome result (λ end. IsLongestName (drop at bytes.now) (take (end - at) (drop at bytes.now))
        (drop end bytes.now)) }
    ensures none { IfNone result ((name rest : List ℕ) → drop at bytes.now ≡ name ++ rest → IsName name → ⊥) }
{
    // SAFETY: the bytes from there on are UTF-8, as the caller shows; a test would read them all for each name.
    let text = unsafe { str::from_utf8_unchecked(&bytes[at..]) };
    match name_len(text) {
        Some(len) => Some(at + len),
        None => None,
    }
}

// How many bytes the longest name at the front has.
fn name_len(text: &str) -> Option<usize>
    ensures bound { IfSome result (λ n. n ≤ length text.now) }
    ensures found { IfSome result (λ n. IsLongestName text.now (take n text.now) (drop n text.now)) }
    ensures none { IfNone result ((name rest : List ℕ) → text.now ≡ name ++ rest → IsName name → ⊥) }
{
    if begins_name(text) {
        Some(name_chars_len(text))
    } else {
        None
    }
}

// How many bytes the characters at the front have that may stand in a name.
fn name_chars_len(text: &str) -> usize
    ensures { IsNameRun text.now result }
{
    let mut characters = text.chars();
    let mut end = 0;
    while let Some(c) = characters.next() {
        if !is_name_char(c) {
            return end;
        }
        end += c.len_utf8();
    }
    end
}

/// Appends what the text at that place means, and gives its end: the next `<` that begins no CDATA section and no
/// comment, or the end of the bytes. XML 1.0, section 2.4. After an error nothing is appended.
/// - NotProfile: exactly where no text stands at the place (`found`, `only`).
pub fn read_text(bytes: &[u8], at: usize, out: &mut Vec<u8>) -> Result<usize, LexError>
    requires { at ≤ length bytes.now }
    ensures found { IfOk result (λ end. ReadsText bytes.now at end out.old.items out.new.items) }
    ensures only { (text rest meaning : List ℕ) → IsTextFirst (drop at bytes.now) text rest meaning
        → EndsOrWants result (at + length text) }
    ensures err { OnErr result (out.new.items ≡ out.old.items) }
{
    let start = out.len();
    match push_text(&bytes[at..], out) {
        Ok(rest) => Ok(bytes.len() - rest.len()),
        Err(error) => {
            out.truncate(start);
            Err(error)
        }
    }
}

/// Appends what the attribute value at that place means, a value in quotes, and gives the end of the closing quote.
/// XML 1.0, section 2.3, production 10, and section 3.3.3. After an error nothing is appended.
/// - NotProfile: exactly where no value in quotes stands at the place (`found`, `only`).
pub fn read_attr(bytes: &[u8], at: usize, out: &mut Vec<u8>) -> Result<usize, LexError>
    requires { at ≤ length bytes.now }
    ensures found { IfOk result (λ end. ReadsValue bytes.now at end out.old.items out.new.items) }
    ensures only { (value rest meaning : List ℕ) → IsValueFirst (drop at bytes.now) value rest meaning
        → EndsOrWants result (at + length value) }
    ensures err { OnErr result (out.new.items ≡ out.old.items) }
{
    let start = out.len();
    match push_value(&bytes[at..], out) {
        Ok(rest) => Ok(bytes.len() - rest.len()),
        Err(error) => {
            out.truncate(start);
            Err(error)
        }
    }
}

// Appends what the text at the front means, and gives what follows it.
fn push_text<'a>(bytes: &'a [u8], out: &mut Vec<u8>) -> Result<&'a [u8], LexError>
    ensures found { IfOk result (λ rest. (text : List ℕ) × (meaning : List ℕ)
        × IsTextFirst bytes.now text rest.now meaning × (out.new.items ≡ out.old.items ++ meaning)) }
    ensures only { IfOk result (λ left. (text rest meaning : List ℕ) → IsTextFirst bytes.now text rest meaning
        → rest ≡ left.now) }
    ensures refused { IfErr result
        (λ error. OnRefusal error ((text rest meaning : List ℕ) → IsTextFirst bytes.now text rest meaning → ⊥)) }
    ensures err { OnErr result (take (length out.old.items) out.new.items ≡ out.old.items) }
{
    let left = run_text(bytes, out)?;
    Ok(&bytes[bytes.len() - left..])
}

// Appends what the text at the front means, and says how many bytes follow it.
fn run_text(bytes: &[u8], out: &mut Vec<u8>) -> Result<usize, LexError>
    ensures ok { IfOk result (λ left. counted (reads (begun out.old.items) bytes.now) ≡ Some (out.new.items, left)) }
    ensures refused { IfErr result (λ error. OnRefusal error (reads (begun out.old.items) bytes.now ≡ None)) }
    ensures front { take (length out.old.items) out.new.items ≡ out.old.items }
{
    let mut reader = TextReader::new(*out.allocator());
    let mut rest = bytes;
    loop {
        let taken = reader.feed(rest, out)?;
        if taken == 0 {
            return match reader.finish(out)? {
                Some(held) => Ok(held + rest.len()),
                None => Err(LexError::NotProfile),
            };
        }
        rest = &rest[taken..];
    }
}

// Appends what the value at the front means, and gives what follows it.
fn push_value<'a>(bytes: &'a [u8], out: &mut Vec<u8>) -> Result<&'a [u8], LexError>
    ensures found { IfOk result (λ rest. (value : List ℕ) × (meaning : List ℕ)
        × IsValueFirst bytes.now value rest.now meaning × (out.new.items ≡ out.old.items ++ meaning)) }
    ensures only { IfOk result (λ left. (value rest meaning : List ℕ) → IsValueFirst bytes.now value rest meaning
        → rest ≡ left.now) }
    ensures refused { IfErr result
        (λ error. OnRefusal error ((value rest meaning : List ℕ) → IsValueFirst bytes.now value rest meaning → ⊥)) }
    ensures err { OnErr result (take (length out.old.items) out.new.items ≡ out.old.items) }
{
    let [first, inner @ ..] = bytes else {
        return Err(LexError::NotProfile);
    };
    match Quote::from_byte(*first) {
        Some(quote) => run_value(quote, inner, out),
        None => Err(LexError::NotProfile),
    }
}

// Appends what stands before the closing quote means, and gives what follows that.
fn run_value<'a>(quote: Quote, bytes: &'a [u8], out: &mut Vec<u8>) -> Result<&'a [u8], LexError>
    ensures ok { IfOk result (λ rest. reads_value (begun_value (quote_byte quote) out.old.items) bytes.now
        ≡ Some (out.new.items, rest.now)) }
    ensures refused { IfErr result (λ error. OnRefusal error
        (reads_value (begun_value (quote_byte quote) out.old.items) bytes.now ≡ None)) }
    ensures front { take (length out.old.items) out.new.items ≡ out.old.items }
{
    let mut reader = ValueReader::new(*out.allocator(), quote);
    let mut rest = bytes;
    loop {
        let taken = reader.feed(rest, out)?;
        if taken == 0 {
            if reader.is_closed() {
                return Ok(rest);
            }
            return Err(LexError::NotProfile);
        }
        rest = &rest[taken..];
    }
}
