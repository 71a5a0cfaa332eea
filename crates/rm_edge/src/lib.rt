//! The edge of a service: all its connections on one thread, over sockets that don't wait. It gathers what comes until
//! it is whole, posts packets in order, a connection at a time for each host, and keeps the limits that stand in
//! `limits`. `Edge` is the trusted end of `service_turns::Traffic`, as `TcpLink` is of `Link`: it tells nothing of what
//! comes and goes.
//! - `gather`: whether bytes hold a whole message. Nothing rests on that: who is given them reads them again.
//! - `call`: a request of an application, which speaks HTTP: the line that the desk is told, and the answer that what
//!   it writes becomes. `ask` has the paths, and `status` the statuses.
//! - `ears`: the listeners, and the one wait for all sockets.
//! - `line`: one connection, from its first byte to its last.
//! - `outbox`: the packets that wait for each host.
//! - `peers`: who may connect, and to whom packets may be posted.
#![tactic(auto)]

pub mod ask;
pub mod call;
pub mod ears;
pub mod edge;
pub mod gather;
pub mod held;
pub mod limits;
pub mod line;
pub mod listen;
pub mod outbox;
pub mod peers;
pub mod pipe;
pub mod ready;
pub mod status;
pub mod table;
pub mod tally;

pub use edge::Edge;
pub use held::Held;
pub use listen::{Listen, read_listen};
pub use peers::{Peers, PeersError, peers_in, read_peers};
pub use tally::Tally;
