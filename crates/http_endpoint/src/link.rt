//! What brings connections to and from other nodes: the trait `Link`, a link over connections in memory, and one over
//! TCP; and `post`, which takes one packet to where its address says and reads the response.

mod fault;
pub mod link;
pub mod mem;
pub mod packet;
mod past;
pub mod tcp;

pub use fault::Fault;
pub use link::Link;
pub use mem::MemLink;
pub use packet::{Fate, post, post_as};
pub use tcp::{TcpConn, TcpLink};
