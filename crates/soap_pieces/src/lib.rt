//! Envelopes, read while they come: `EnvelopeReader` is fed pieces, and answers at the end what `read_envelope` answers
//! of all pieces joined. `is_dead` tells early that no envelope begins with what was fed.
//! `read_source` feeds such a reader from a `Source`, to the end of the root.
//! `specs/Fed` says what a reader was fed, `specs/Source` what a source gave, `specs/Answer` what comes of it.
#![tactic(auto)]

mod depth;
mod ended;
mod front;
pub mod laws;
pub mod reader;
pub mod source;
mod stage;

pub use reader::EnvelopeReader;
pub use source::read_source;
