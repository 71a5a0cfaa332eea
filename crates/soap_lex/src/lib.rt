//! The tokens of XML 1.0, as bytes: names, references, text and attribute values.
//! Whole tokens are tested (`is_name`, `is_char_data` ..), by readers that cut the bytes at delimiters of ASCII.
//! `TextReader` and `ValueReader` read text and values that come in pieces; `read_text` and `read_attr` one at a place.
//! `write_text` and `write_attr` write them, and what is written is read back (`laws`).
#![tactic(auto)]

pub(crate) mod decide;
pub mod error;
pub mod laws;
pub mod lines;
pub mod read;
pub mod references;
pub mod search;
pub mod text;
pub mod tokens;
pub mod value;
pub(crate) mod visible;
pub mod write;

pub use error::{LexError, Memory};
pub use lines::{push_line_ends, push_spaces};
pub use read::{read_attr, read_name, read_text, utf8_prefix};
pub use references::reference;
pub use search::{before, first_byte};
pub use text::TextReader;
pub use tokens::{is_cdata, is_char_data, is_comment, is_name, is_plain_value};
pub use value::{Quote, ValueReader};
pub use write::{write_attr, write_text};
