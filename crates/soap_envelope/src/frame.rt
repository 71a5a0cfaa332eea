//! The frame of an envelope, to bytes, and the law that what is written in it is read back as an envelope: its header
//! blocks, the exact bytes of its payload, and the bindings in force at both. `specs/Frame/Framed` has its text, and
//! `Tagged`, `BodyTag` and `Covers` beside it that of a Body with a start tag of its own.

pub mod frame;
pub mod laws;

pub use frame::{begin_body, begin_envelope, begin_envelope11, end_envelope};
