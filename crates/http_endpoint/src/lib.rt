//! HTTP/1.1, one message in each direction of a connection, and what brings connections.
//! `read_request` and `read_response` read a message a piece at a time, `write_request` and `write_response` write one.
//! Contracts speak of all the bytes that a source has left, however they arrive; by the laws these have one answer.
//! - `link`: the trait `Link`, with `TcpLink` and `MemLink`; `post` takes one packet to its address.
#![tactic(auto)]

pub mod body;
pub mod error;
pub mod fields;
pub mod heads;
pub mod input;
pub mod laws;
pub mod media;
pub mod part;
pub mod parts;
pub mod request;
pub mod response;
pub mod target;
pub mod write;

pub use error::HttpError;
pub use input::Input;
pub use media::Media;
pub use request::{read_request, read_request_as};
pub use response::{Response, read_response};
pub use target::{Target, read_target};
pub use write::{write_request, write_request_as, write_response, write_response_as};

pub mod link;
