//! Whole messages to bytes, of SOAP 1.2 or 1.1, and the faults that answer refusals.
//! `encode` writes a `Message` in SOAP 1.2, `encode11` in SOAP 1.1.
//! `fault_message` makes the fault that answers a refusal; `table` has the code and the subcodes of each kind of fault.
//! By the laws the text of a message is an envelope of exactly its blocks and its payload.
#![tactic(auto)]

pub mod fault;
mod fault11_text;
mod fault_text;
pub mod laws;
mod qname;
pub mod table;
pub mod tag;
mod trees;
pub mod write;
pub mod write11;

pub use fault::fault_message;
pub use laws::{header_blocks_are_read_back, text_is_an_envelope, text11_is_an_envelope};
pub use table::Vocabulary;
pub use tag::Tag;
pub use write::{encode, push_header};
pub use write11::encode11;
