//! Elements, written so that they are read back as they were.
//! `write_element` writes one that stands on its own, with each namespace declared where it is used. The pieces of
//! `text` append bytes, text and values.
//! - `nodes`: elements within the frame of an envelope, by the prefixes that it binds: what writers of headers append.
//! - `stripped`: laws alone: an element of a document, without its declarations, may be written.
//! - `values`: what an element has, as values: children by name, text, attributes, numbers, marks, addresses and names.
#![tactic(auto)]

pub mod element;
pub mod laws;
mod tags;
pub mod text;

pub use element::write_element;
pub use text::{push_bytes, push_quoted, push_text, push_value};

pub mod nodes;
pub mod stripped;
pub mod values;
