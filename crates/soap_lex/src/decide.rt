//! The tests of whole tokens, as the machines make them.
ghost use Rattle.std.specs.Prelude.{◌≡◌, ◌⊎◌, ◌++◌, ◌∷◌, []};
ghost use Rattle.soap_lex.specs.Tests.{
  begins,
  is_char_data,
  is_cdata,
  is_comment,
  is_plain,
  reference,
};

pub(crate) fn is_char_data(bytes: &[u8]) -> bool
    ensures { result ≡ is_char_data bytes.now }
{
    crate::is_char_data(bytes)
}

pub(crate) fn is_cdata(bytes: &[u8]) -> bool
    ensures { result ≡ is_cdata bytes.now }
{
    crate::is_cdata(bytes)
}

pub(crate) fn is_comment(bytes: &[u8]) -> bool
    ensures { result ≡ is_comment bytes.now }
{
    crate::is_comment(bytes)
}

pub(crate) fn is_plain(bytes: &[u8], quote: u8) -> bool
    requires { (quote ≡ 34) ⊎ (quote ≡ 39) }
    ensures { result ≡ is_plain quote bytes.now }
{
    crate::is_plain_value(bytes, quote)
}

pub(crate) fn reference(bytes: &[u8]) -> Option<char>
    ensures { result ≡ reference bytes.now }
{
    crate::reference(bytes)
}

/// The word begins with the token and this byte.
pub(crate) fn goes_on(word: &[u8], token: &[u8], byte: u8) -> bool
    ensures { result ≡ begins (token.now ++ byte ∷ []) word.now }
{
    match word.strip_prefix(token) {
        Some(rest) => starts(rest, byte),
        None => false,
    }
}

fn starts(bytes: &[u8], byte: u8) -> bool
    ensures { result ≡ begins (byte ∷ []) bytes.now }
{
    match bytes {
        [first, ..] => *first == byte,
        [] => false,
    }
}
