//! What elements are in a policy, by name: WS-Policy 1.5, section 4.3.
ghost use Rattle.std.specs.Prelude.{◌≡◌};
ghost use Rattle.rm_policy.specs.Alternatives.Reading.{is_word, kind_of as kind_named};

use crate::{ASSERTION, OLDER_POLICY, POLICY};
use soap_document::profile::Name;
use soap_writer::values::is_named;

/// What an element is in a policy: an operator, where Policy counts as All, an assertion of reliable messaging, another
/// one, or nothing that may stand there.
#[derive(Clone, Copy, Debug, PartialEq, Eq)]
pub(crate) enum Kind {
    All,
    ExactlyOne,
    Reliable,
    Other,
    Nothing,
}

/// Whether a name is this one in either namespace of policies.
pub(crate) fn is_word(name: &Name, word: &[u8]) -> bool
    ensures { result ≡ is_word word.now name.now }
{
    is_named(name, POLICY, word) || is_named(name, OLDER_POLICY, word)
}

/// What an element of a name is.
pub(crate) fn kind_of(name: &Name) -> Kind
    ensures { result ≡ kind_named name.now }
{
    if is_word(name, b"Policy") || is_word(name, b"All") {
        return Kind::All;
    }
    if is_word(name, b"ExactlyOne") {
        return Kind::ExactlyOne;
    }
    if is_named(name, ASSERTION, b"RMAssertion") {
        return Kind::Reliable;
    }
    let space = name.space();
    if space == POLICY || space == OLDER_POLICY || space.is_empty() {
        return Kind::Nothing;
    }
    Kind::Other
}
