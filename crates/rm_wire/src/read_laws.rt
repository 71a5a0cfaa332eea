//! What is read may be written: the laws that a message, as it is read, keeps the rules of those that are written, but
//! for its payload, and that each refusal of bytes may be answered with a fault. It has no code.

pub mod laws;
