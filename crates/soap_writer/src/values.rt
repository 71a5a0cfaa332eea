//! What an element has, as values: children by name, text, attributes, numbers, marks, addresses and names in values.
//! `find_single` and its like find children, `read_text`, `read_number`, `read_qname` .. read what they hold.
//! Each is a function of the tree (`specs/`); want of memory is the only other answer.

pub mod children;
pub mod content;
pub mod flaw;
pub mod laws;
pub mod number;
pub mod qnames;
pub mod texts;

pub use children::{find_all, find_optional, find_single, is_named};
pub use content::{find_value, is_true_mark, read_text, read_trimmed, trim};
pub use flaw::Flaw;
pub use laws::{number_is_read_back, text_is_read_back};
pub use number::read_number;
pub use qnames::read_qname;
pub use texts::{read_ident, read_uri};
