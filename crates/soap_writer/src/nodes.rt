//! Elements within a frame, by the prefixes that it binds, to bytes: the pieces that their writers append, and the law
//! that what is written is read back exactly, whatever the namespace of SOAP. `specs/Nodes` has the nodes.

pub mod laws;
pub mod pieces;

pub use pieces::{
    push_attribute, push_begin, push_close, push_declaration, push_leaf, push_number, push_start,
    push_void,
};
