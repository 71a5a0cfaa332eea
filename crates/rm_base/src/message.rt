//! What the messages of a sequence carry.
ghost use Rattle.std.specs.Prelude.{◌≡◌};
ghost use Rattle.rm_base.specs.Message.{is_number};

use crate::blob::Blob;
use crate::items::Items;
use crate::limits::MAX_NUMBER;

/// Whether a message may have this number.
pub fn is_message_number(number: u64) -> bool
    ensures { result ≡ is_number number }
{
    0 < number && number <= MAX_NUMBER
}

/// What a Destination does with messages after a gap once a sequence is closed or ended: IncompleteSequenceBehavior of
/// WS-ReliableMessaging 1.2, section 3.4.
#[derive(Clone, Copy, Debug, PartialEq, Eq)]
pub enum Behaviour {
    NoDiscard,
    EntireSequence,
    FollowingFirstGap,
}

/// Why a Destination closed or ended a sequence: its peer asked for it, its operator did, its time ran out, or it was
/// offered and not taken.
#[derive(Clone, Copy, Debug, PartialEq, Eq)]
pub enum Cause {
    Peer,
    Operator,
    Expired,
    NotTaken,
}

/// A namespace prefix and the namespace that it is bound to. The default namespace has the empty prefix.
#[derive(Debug, Drop)]
pub struct Binding {
    pub prefix: Blob,
    pub space: Blob,
}

pub type Bindings = Items<Binding>;

/// The content of a message's Body, byte for byte, and the bindings that are in force there.
#[derive(Debug, Drop)]
pub struct Payload {
    pub bytes: Blob,
    pub scope: Bindings,
}
