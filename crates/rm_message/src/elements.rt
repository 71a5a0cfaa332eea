//! The header blocks and body elements of WS-ReliableMessaging 1.2 and WS-MakeConnection 1.1, as values: trees are
//! read, and values are written. By the laws what is written is read back.

mod copies;
pub mod duration;
pub mod error;
pub mod expiry;
pub mod header;
pub mod laws;
pub mod lifecycle;
pub mod read;
pub mod tag;
pub mod write;

pub use copies::copy_block;
pub use duration::read_duration;
pub use error::ElementError;
pub use expiry::deadline;
pub use header::{AckBlock, AckKind, Header, MESSAGING, Ranges, SeqHeader};
pub use laws::{
    header_is_foreign, header_is_good, header_is_read_back, lapse_is_read_back, lifecycle_is_good,
    lifecycle_is_read_back,
};
pub use lifecycle::{
    CONNECTION, CreateResponse, CreateSequence, Finish, Lifecycle, MakeConnection, Offer,
};
pub use read::{BodyName, HeaderName, body_name, header_name, read_header, read_lifecycle};
pub use tag::Tag;
pub use write::{push_ack, push_ask, push_pending, push_sequence, write_header, write_lifecycle};
