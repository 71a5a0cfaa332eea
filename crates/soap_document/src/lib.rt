//! XML documents, read: as they are written, and as trees with expanded names.
//! `Reader` is fed the bytes in pieces, and tells a `Handler` of each tag and text. It follows the machine in
//! `specs/Machine`, and a law joins that to the grammar in `specs/Grammar`.
//! - `profile`: names resolved by the declarations in force. Its `DocumentReader` makes the tree of a document that
//!   comes in pieces, `read_element` that of whole bytes, and `check_payload` tests what a message may carry.
#![tactic(auto)]

pub mod attribute;
mod declaration;
pub mod handler;
pub mod laws;
mod open_elements;
pub mod reader;
mod scan;
mod tokens;

pub use attribute::WrittenAttribute;
pub use handler::Handler;
pub use reader::Reader;
pub use tokens::{cut, is_qname, is_white};

pub mod profile;
