//! A gate between peers that speak SOAP 1.1 and a node that speaks SOAP 1.2: messages of SOAP 1.1 from bytes, what they
//! are in SOAP 1.2, and what messages of SOAP 1.2 are in SOAP 1.1.

pub mod decoder;
pub mod laws;
pub mod lifting;
pub mod lowering;
mod prefixes;

pub use decoder::decode11;
pub use lifting::lift;
pub use lowering::lower;
