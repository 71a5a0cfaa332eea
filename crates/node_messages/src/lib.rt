//! What a node says, as values: each message that `rm_protocol` names, built.
//! `data_message` carries a payload, `ack_message` and `ask_message` are for acknowledgements, `create_request` and its
//! like are requests, `grant_response` and its like are responses.
//! `place_of` tells where an address goes, `fault_endpoint` and `reply_endpoint` where an answer goes.
#![tactic(auto)]

pub mod acks;
pub mod address;
pub mod data;
pub mod detail;
pub mod endpoint;
pub mod home;
pub mod name;
mod plain;
pub mod request;
pub mod response;
pub mod said;

pub use acks::{ack_block, ack_message, ask_message, ranges_of, with_blocks};
pub use address::{Place, is_anonymous, is_nowhere, place_of};
pub use data::{data_message, into_payload};
pub use detail::ident_of;
pub use endpoint::{anonymous, fault_endpoint, plain_endpoint, reply_endpoint};
pub use home::Home;
pub use name::Name;
pub use request::{close_request, create_request, make_request, terminate_request};
pub use response::{close_response, grant_response, terminate_response};
pub use said::{Ack, answered};
