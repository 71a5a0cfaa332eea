//! Addressing headers and endpoint references of WS-Addressing 1.0, read and written.
//! `read_addressing` makes `Addressing` of an envelope's header blocks, or answers the first cause that there is none.
//! `read_epr` makes an `Epr` of an element. `write_addressing` and `write_epr` write them.
//! By the laws what is written is read back, among other header blocks too.
#![tactic(auto)]

pub mod addressing;
pub mod endpoint;
pub mod error;
pub mod laws;
pub mod read;
mod room;
pub mod tag;
pub mod write;

pub use addressing::Addressing;
pub use endpoint::{
    ADDRESSING, Epr, copy_reference, read_address_of, read_epr, read_reference, unmark,
};
pub use error::AddressingError;
pub use laws::{
    addressing_blocks_are_told, addressing_is_good, addressing_is_read_back, epr_is_good,
    epr_is_read_back,
};
pub use read::{ANONYMOUS, is_parameter, read_addressing};
pub use tag::Tag;
pub use write::{push_epr, write_addressing, write_epr};
