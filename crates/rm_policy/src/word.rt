//! The elements that mean something in an assertion, by name: WS-RM Policy 1.2, section 2.
ghost use Rattle.std.specs.Prelude.{◌≡◌, ◌≢◌, IfSome};
ghost use Rattle.rm_policy.specs.declared.assertion.Assurance.TheVariants.{Unsaid};
ghost use Rattle.rm_policy.specs.Words.{assurance_named as assurance_of, is_called as is_called_so};
ghost use Rattle.rm_policy.specs.Words.{is_ours as is_one_of_ours, is_one_of as is_any};

use crate::assertion::Assurance;
use soap_document::profile::Name;
use soap_writer::values::is_named;

/// The namespace of WS-RM Policy 1.2.
pub const ASSERTION: &[u8] = b"http://docs.oasis-open.org/ws-rx/wsrmp/200702";

/// The namespace of WS-Policy 1.5.
pub const POLICY: &[u8] = b"http://www.w3.org/ns/ws-policy";

/// The namespace of WS-Policy 1.2.
pub const OLDER_POLICY: &[u8] = b"http://schemas.xmlsoap.org/ws/2004/09/policy";

/// What an element is in an assertion. `Assurance` is one of ExactlyOnce, AtLeastOnce and AtMostOnce, and `Security`
/// one of SequenceSTR and SequenceTransportSecurity.
#[derive(Clone, Copy, Debug, PartialEq, Eq)]
pub(crate) enum Word {
    Policy,
    DeliveryAssurance,
    Assurance,
    InOrder,
    Security,
}

/// Whether a name is of such elements.
pub(crate) fn is_called(name: &Name, word: Word) -> bool
    ensures { result ≡ is_called_so word name.now }
{
    match word {
        Word::Policy => {
            is_named(name, POLICY, b"Policy") || is_named(name, OLDER_POLICY, b"Policy")
        }
        Word::DeliveryAssurance => is_named(name, ASSERTION, b"DeliveryAssurance"),
        Word::Assurance => assurance_named(name).is_some(),
        Word::InOrder => is_named(name, ASSERTION, b"InOrder"),
        Word::Security => {
            is_named(name, ASSERTION, b"SequenceSTR")
                || is_named(name, ASSERTION, b"SequenceTransportSecurity")
        }
    }
}

/// Whether a name is of one of several.
pub(crate) fn is_one_of(name: &Name, words: &[Word]) -> bool
    ensures { result ≡ is_any words.now name.now }
{
    for word in words {
        if is_called(name, *word) {
            return true;
        }
    }
    false
}

/// Which assurance a name is of.
pub(crate) fn assurance_named(name: &Name) -> Option<Assurance>
    ensures gives { result ≡ assurance_of name.now }
    ensures said { IfSome result (λ assurance. assurance ≢ Unsaid) }
{
    if is_named(name, ASSERTION, b"ExactlyOnce") {
        return Some(Assurance::ExactlyOnce);
    }
    if is_named(name, ASSERTION, b"AtLeastOnce") {
        return Some(Assurance::AtLeastOnce);
    }
    if is_named(name, ASSERTION, b"AtMostOnce") {
        return Some(Assurance::AtMostOnce);
    }
    None
}

/// Whether a name is in a namespace of policies, so that it means something wherever it stands.
pub(crate) fn is_ours(name: &Name) -> bool
    ensures { result ≡ is_one_of_ours name.now }
{
    let space = name.space();
    space == ASSERTION || space == POLICY || space == OLDER_POLICY
}
