//! What an assertion says: WS-RM Policy 1.2, section 2.
ghost use Rattle.std.specs.Prelude.{◌≡◌};
ghost use Rattle.rm_policy.specs.Assertion.{is_granted};
ghost use Rattle.rm_policy.specs.Texts.{assurance_word};

/// How often a message is delivered: WS-ReliableMessaging 1.2, section 2.4.
#[derive(Clone, Copy, Debug, PartialEq, Eq)]
pub enum Assurance {
    /// Nothing is said of it.
    Unsaid,
    ExactlyOnce,
    AtLeastOnce,
    AtMostOnce,
}

impl Assurance {
    /// The word for it, where it is printed.
    pub fn word(self) -> &'static [u8]
        ensures { result.now ≡ assurance_word self }
    {
        match self {
            Assurance::Unsaid => b"unsaid",
            Assurance::ExactlyOnce => b"exactly-once",
            Assurance::AtLeastOnce => b"at-least-once",
            Assurance::AtMostOnce => b"at-most-once",
        }
    }
}

/// An assertion of reliable messaging. `in_order` says that messages are delivered in the order of their numbers, and
/// `optional` that the assertion may be left out.
#[derive(Clone, Copy, Debug, PartialEq, Eq)]
pub struct Assertion {
    pub assurance: Assurance,
    pub in_order: bool,
    pub optional: bool,
}

/// Whether our nodes keep the assertion on an ordered sequence, or on a loose one. They deliver each message exactly
/// once, on an ordered sequence in the order of the numbers and on a loose one as the messages come. An ordered
/// sequence is granted exactly where the assurance is unsaid or exactly-once, with InOrder or without; a loose one
/// exactly where besides that InOrder isn't asked for.
pub fn grants(assertion: &Assertion, loose: bool) -> bool
    ensures { result ≡ is_granted assertion.now loose }
{
    match assertion.assurance {
        Assurance::Unsaid | Assurance::ExactlyOnce => !(loose && assertion.in_order),
        Assurance::AtLeastOnce | Assurance::AtMostOnce => false,
    }
}
