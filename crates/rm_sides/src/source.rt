//! The source's side of one sequence: the payloads that it accepted, by number, and the numbers that it knows to be
//! acknowledged. Contracts see `Outgoing` as what is known of the sequence with the room for more beside it. They say
//! exactly for which reasons a payload or an acknowledgement is refused.

pub mod error;
pub mod laws;
pub mod outgoing;
pub mod phase;

pub use error::SourceError;
pub use laws::each_is_counted_once;
pub use outgoing::Outgoing;
pub use phase::OutPhase;
