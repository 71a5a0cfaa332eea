//! What brings to a service what comes, and takes what it gives back.
ghost use Rattle.std.specs.Prelude.{◌≡◌, [], ◌∷◌};
ghost use Rattle.service_turns.specs.Traffic.{Answered, Comes, Gives, Posted, Scene, came_of};

use rm_base::{Blob, Connection, Failed, Items, Uri};

/// What came: nothing in the time that was waited; a request of a peer or of the application, whole, on the connection
/// that its answer is written to; or the body of a response to a packet.
#[derive(Debug, Drop)]
pub enum Event<P, A> {
    Quiet,
    Asked(P),
    Called(A),
    Heard(Blob),
}

/// A text, and the address that it goes to.
#[derive(Debug, Drop)]
pub struct Packet {
    pub address: Uri,
    pub bytes: Blob,
}

pub type Packets = Items<Packet>;

/// What brings what comes.
pub trait Traffic {
    /// A peer's request, whole, and what is written of its answer.
    type Peer: Connection + Drop;

    /// The application's.
    type App: Connection + Drop;

    /// What it tells: what is to come, what was given back, its count of faults, and whether it fails only where
    /// nothing is left to come.
    ghost told: { Self → Scene };

    /// What comes next, waiting for so many milliseconds at most. Where that time is over it is `Quiet`, also where
    /// something else came meanwhile, so that what is due is done however much comes.
    fn next(&mut self, wait: u64) -> Result<Event<Self::Peer, Self::App>, Failed>
        ensures { Comes (told self.old) (told self.new)
            (came_of Self.Peer.Source.told Self.App.Source.told result) };

    /// A packet is to be posted, when its turn comes.
    fn post(&mut self, packet: Packet)
        ensures { Gives (told self.old) (told self.new) (Posted packet.address packet.bytes ∷ []) };

    /// What was written on a peer's connection goes to the peer.
    fn reply(&mut self, conn: Self::Peer)
        ensures { Gives (told self.old) (told self.new) (Answered (Self.Peer.Source.told conn).held ∷ []) };

    /// What was written on a connection of the application goes there.
    fn answer(&mut self, conn: Self::App)
        ensures { Gives (told self.old) (told self.new) (Answered (Self.App.Source.told conn).held ∷ []) };
}
