//! Whole messages, as values: a `Message` has addressing headers, header blocks of reliable messaging, and a `Body`.
//! - `message`: the message, its bodies, and faults.
//! - `refusal`: why bytes or a message are not taken: a `FaultKind`, and a `Refusal` with where its fault goes.
//! - `actions`: the addressing action of each message.
//! - `elements`: header blocks and body elements of WS-ReliableMessaging and WS-MakeConnection, and durations. Its
//!   `read_header`, `read_lifecycle`, `write_header` and `write_lifecycle` read and write them.
#![tactic(auto)]

pub mod actions;
pub mod message;
pub mod refusal;

pub use message::{Acks, Body, FaultBody, FaultCode, Idents, Message, Names};
pub use refusal::{DecodeError, FaultKind, ROLLOVER, Refusal};

pub mod elements;
