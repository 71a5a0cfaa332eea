//! Documents with expanded names: the tree of a whole document's bytes (`specs/Profile/Document`), the tree without its
//! declarations, and the test of a payload (`specs/Profile/Payload`).

mod copies;
pub mod document;
pub mod elements;
pub mod error;
mod keys;
pub mod name;
mod names;
pub mod parts;
pub mod payload;
pub mod place;
mod pool;
mod predeclared;
pub mod read;
mod recent;
mod resolver;
mod scope;
pub mod shared;
mod stacks;
mod stripped;
mod tag;
pub mod tree;

pub use document::DocumentReader;
pub use elements::Elements;
pub use error::EnvelopeError;
pub use name::Name;
pub use names::XML_SPACE;
pub use parts::{Parts, is_part};
pub use payload::{are_shallow, check_payload, is_shallow};
pub use place::Place;
pub use read::{Placed, read_element, read_placed};
pub use shared::Shared;
pub use stripped::strip;
pub use tree::{Attr, Attrs, Declaration, Element, Item};
