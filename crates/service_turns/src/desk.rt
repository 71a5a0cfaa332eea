//! What does the work of a service.
ghost use Rattle.std.specs.Prelude.{◌≡◌, Bool, List, OnOk, Result};
ghost use Rattle.service_turns.specs.Turns.{Did, Rested, Served, Told, Took};
ghost use Rattle.service_turns.specs.declared.traffic.Packet.{Packet};

use crate::traffic::Packets;
use rm_base::{Blob, Connection};

/// What does the work of a service, a piece for each thing that comes.
pub trait Desk {
    /// Why it goes on no longer.
    type Why: Drop;

    /// What it does: from a state, with what came, to these packets and a state.
    ghost does: { Self → Did → Result (List Packet) Self.Why → Self → Type 0 };

    /// It can do more.
    ghost ready: { Self → Type 0 };

    /// It was told to stop.
    ghost stops: { Self → Bool };

    /// Nothing came: what is due is done.
    fn rest(&mut self) -> Result<Packets, Self::Why>
        requires { ready self.old }
        ensures does { does self.old Rested result self.new }
        ensures ready { OnOk result (ready self.new) };

    /// A peer's request is answered.
    fn serve<C: Connection>(&mut self, conn: &mut C) -> Result<Packets, Self::Why>
        requires { ready self.old }
        ensures does { does self.old (Served (C.Source.told conn.old) (C.Source.told conn.new)) result self.new }
        ensures ready { OnOk result (ready self.new) };

    /// A request of the application is answered.
    fn tell<C: Connection>(&mut self, conn: &mut C) -> Result<Packets, Self::Why>
        requires { ready self.old }
        ensures does { does self.old (Told (C.Source.told conn.old) (C.Source.told conn.new)) result self.new }
        ensures ready { OnOk result (ready self.new) };

    /// The body of a response is taken.
    fn take(&mut self, body: Blob) -> Result<Packets, Self::Why>
        requires { ready self.old }
        ensures does { does self.old (Took body) result self.new }
        ensures ready { OnOk result (ready self.new) };

    /// For how many milliseconds nothing is due, as far as it knows: so long what comes next may be waited for.
    fn patience(&self) -> u64;

    /// Whether it was told to stop.
    fn is_stopped(&self) -> bool
        ensures { result ≡ stops self.now };
}
