//! The test of an XML declaration: XML 1.0, section 2.8, production 23.
ghost use Rattle.std.specs.Prelude.{◌≡◌, option_map, Some, codes};
ghost use Rattle.soap_document.specs.Declaration.{
  is_declaration,
  skip,
  after,
  quoted,
  valued,
  setting,
  ends,
  stands_alone,
  is_encoded,
  is_versioned,
};

use crate::tokens::cut;
use xml_chars::is_space;

/// What stands between `<?` and `>` is an XML declaration.
#[tactic(auto, unfolding(crate::specs::Declaration::is_declaration))]
pub(crate) fn is_declaration(bytes: &[u8]) -> bool
    ensures { result ≡ is_declaration bytes.now }
{
    match after(b"xml", bytes) {
        Some(rest) => is_versioned(rest),
        None => false,
    }
}

fn is_versioned(bytes: &[u8]) -> bool
    ensures { result ≡ is_versioned (setting (codes "version") bytes.now) }
{
    match setting(b"version", bytes) {
        Some((value, rest)) => value == b"1.0".as_slice() && is_encoded(rest),
        None => false,
    }
}

fn is_encoded(bytes: &[u8]) -> bool
    ensures { result ≡ is_encoded bytes.now }
{
    match setting(b"encoding", bytes) {
        Some((value, rest)) => value.eq_ignore_ascii_case(b"utf-8") && stands_alone(rest),
        None => stands_alone(bytes),
    }
}

fn stands_alone(bytes: &[u8]) -> bool
    ensures { result ≡ stands_alone bytes.now }
{
    match setting(b"standalone", bytes) {
        Some((value, rest)) => (value == b"yes".as_slice() || value == b"no".as_slice())
            && ends(rest),
        None => ends(bytes),
    }
}

fn ends(bytes: &[u8]) -> bool
    ensures { result ≡ ends bytes.now }
{
    skip(bytes) == b"?".as_slice()
}

// The value of a setting of this name, and what follows.
fn setting<'a>(name: &[u8], bytes: &'a [u8]) -> Option<(&'a [u8], &'a [u8])>
    ensures { option_map (λ p. (p.0.now, p.1.now)) result ≡ setting name.now bytes.now }
{
    let [first, rest @ ..] = bytes else {
        return None;
    };
    if !is_space(*first) {
        return None;
    }
    match after(name, skip(rest)) {
        Some(rest) => value(rest),
        None => None,
    }
}

fn value(bytes: &[u8]) -> Option<(&[u8], &[u8])>
    ensures { option_map (λ p. (p.0.now, p.1.now)) result ≡ valued (Some bytes.now) }
{
    match after(b"=", skip(bytes)) {
        Some(rest) => quoted(skip(rest)),
        None => None,
    }
}

// What follows the word.
fn after<'a>(word: &[u8], bytes: &'a [u8]) -> Option<&'a [u8]>
    ensures { option_map (λ x. x.now) result ≡ after word.now bytes.now }
{
    bytes.strip_prefix(word)
}

fn quoted(bytes: &[u8]) -> Option<(&[u8], &[u8])>
    ensures { option_map (λ p. (p.0.now, p.1.now)) result ≡ quoted bytes.now }
{
    match bytes {
        [quote, rest @ ..] if *quote == b'"' || *quote == b'\'' => cut(*quote, rest),
        _ => None,
    }
}

// The bytes from the first that is no white space.
fn skip(bytes: &[u8]) -> &[u8]
    ensures { result.now ≡ skip bytes.now }
{
    let mut rest = bytes;
    while let [first, others @ ..] = rest {
        if !is_space(*first) {
            return rest;
        }
        rest = others;
    }
    rest
}
