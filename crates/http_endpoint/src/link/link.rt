//! What brings connections to and from other nodes.
ghost use Rattle.std.specs.Prelude.{◌≡◌, [], ◌∷◌, is_err};
ghost use Rattle.http_endpoint.specs.Link.Lines.{Asks, Connects, Dialled, Ended, Listens, Net, brought};

use rm_base::{Connection, Failed, Sink, Source};

/// What brings connections: those that come to a port, and those to other hosts. On one to another host the request is
/// written first, and then the response is read: it is a sink until `asked`, and a source from then on.
pub trait Link {
    /// A connection that came.
    type Conn: Connection + Drop;

    /// One that was dialled, on which the request is written.
    type Asking: Sink + Drop;

    /// The same once nothing more is written on it, of which the response is read.
    type Hearing: Source + Drop;

    /// What it tells: the connections that `accept` and `dial` are to bring, what `listen`, `dial` and `hang_up` were
    /// asked for, its count of faults, and whether it fails only where there is no connection to come.
    ghost told: { Self → Net };

    /// From now on connections to a port are taken. It keeps what is to come, fails only where the count of faults
    /// rose, and on a sound link never.
    fn listen(&mut self, port: u16) -> Result<(), Failed>
        ensures { Listens (told self.old) (told self.new) port (is_err result) };

    /// The next connection to the port.
    /// - `connects`: the first of the connections to come; a call that fails takes none, and fails only where the count
    ///   of faults rose, on a sound link exactly where none is left.
    fn accept(&mut self) -> Result<Self::Conn, Failed>
        ensures connects { Connects (told self.old) (told self.new) (brought Self.Conn.Source.told result) }
        ensures past { (told self.new).past ≡ (told self.old).past };

    /// A connection to a port of a host.
    /// - `connects`, `asks`: as `accept`; the host and port are noted, whether or not a connection is made.
    fn dial(&mut self, host: &[u8], port: u16) -> Result<Self::Asking, Failed>
        ensures connects { Connects (told self.old) (told self.new) (brought Self.Asking.told result) }
        ensures asks { Asks (told self.old).past (told self.new).past (Dialled host.now port ∷ []) };

    /// Nothing more is written on a connection: what comes on it is read from now on.
    fn asked(conn: Self::Asking) -> Self::Hearing
        ensures { Self.Hearing.told result ≡ Self.Asking.told conn };

    /// Ends a connection. What was written on it is known from then on, where link and connection tell it. It notes
    /// what the connection holds; nothing else is noted.
    fn hang_up(&mut self, conn: Self::Hearing)
        ensures { Ended (told self.old) (told self.new) (Self.Hearing.told conn).held };
}
