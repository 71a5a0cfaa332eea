//! The tests of whole tokens.
ghost use Rattle.std.specs.Prelude.{◌≡◌, option_map};
ghost use Rattle.soap_document.specs.Machine.{is_mark, is_end};
ghost use Rattle.soap_document.specs.Tokens.{is_white, cut, is_name, is_qname};
ghost use Rattle.soap_lex.specs.Tests.{is_comment};

use soap_lex::first_byte;

/// The three bytes of a byte order mark.
const MARK: [u8; 3] = [0xEF, 0xBB, 0xBF];

/// White space, or nothing: XML 1.0, section 2.3, production 3.
pub fn is_white(bytes: &[u8]) -> bool
    ensures { result ≡ is_white bytes.now }
{
    bytes.iter().all(|byte| xml_chars::is_space(*byte))
}

pub(crate) fn is_mark(bytes: &[u8]) -> bool
    ensures { result ≡ is_mark bytes.now }
{
    bytes.is_empty() || bytes == MARK.as_slice()
}

/// A name, or a prefix and a local name: Namespaces in XML 1.0, section 4, productions 7 to 11.
pub fn is_qname(bytes: &[u8]) -> bool
    ensures { result ≡ is_qname bytes.now }
{
    match cut(b':', bytes) {
        Some((prefix, name)) => is_name(prefix) && is_name(name),
        None => is_name(bytes),
    }
}

fn is_name(bytes: &[u8]) -> bool
    ensures { result ≡ is_name bytes.now }
{
    soap_lex::is_name(bytes)
}

/// What stands before the first such byte, and what after it.
pub fn cut(byte: u8, bytes: &[u8]) -> Option<(&[u8], &[u8])>
    ensures { option_map (λ p. (p.0.now, p.1.now)) result ≡ cut byte bytes.now }
{
    match first_byte(byte, bytes) {
        Some(place) => Some((&bytes[..place], &bytes[place + 1..])),
        None => None,
    }
}

pub(crate) fn is_comment(bytes: &[u8]) -> bool
    ensures { result ≡ is_comment bytes.now }
{
    soap_lex::laws::comment_is_tested();
    soap_lex::is_comment(bytes)
}

/// The end tag's name is this one, and white space may follow it.
pub(crate) fn is_end(name: &[u8], token: &[u8]) -> bool
    ensures { result ≡ is_end name.now token.now }
{
    match token.strip_prefix(name) {
        Some(space) => is_white(space),
        None => false,
    }
}
