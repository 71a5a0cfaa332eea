//! What every crate of wsrm shares: bytes, lists, texts, limits, and the traits by which a program reaches the outside.
//! `Blob` and `Bytes` are bytes, `Items` is a list, `Uri` an address, `Ident` an identifier.
//! `Source`, `Sink`, `Connection` and `Clock` are the traits of the outside.
//! `MemSource`, `MemSink`, `MemConn` and `MemClock` are in memory, `StdSource`, `StdSink` and `StdClock` over std.
//! `read_up_to` and `write_all` move whole texts.
//! - `limits`: each limit of a node once for the code; `specs/Limits` has the same numbers for definitions.
//! - `wire`: the network between the nodes of a script, which keeps every packet: the trait `Wire`, and `MemWire`.
//! - `words`: the words that a program was given.
#![tactic(auto)]

pub mod blob;
pub mod bytes;
pub mod clocks;
pub mod digits;
pub mod failures;
pub mod items;
pub mod lapse;
pub mod laws;
pub mod limits;
pub mod mem_streams;
pub mod message;
pub mod outside;
pub mod streams;
pub mod text;
pub mod transfer;

pub use blob::Blob;
pub use bytes::Bytes;
pub use clocks::{MemClock, StdClock};
pub use digits::{push_decimal, push_hex};
pub use failures::{Failed, Memory};
pub use items::{Items, Numbers, RoomyItems, numbered};
pub use lapse::Lapse;
pub use limits::{MAX_NUMBER, NOW_MAX};
pub use mem_streams::{MemConn, MemSink, MemSource};
pub use message::{Behaviour, Binding, Bindings, Cause, Payload, is_message_number};
pub use outside::{Clock, Connection, Sink, SinkError, Source};
pub use streams::{StdSink, StdSource};
pub use text::{Ident, TextError, Uri, copy_optional_uri, uri_of};
pub use transfer::{ReadError, read_up_to, write_all};

pub mod wire;
pub mod words;
