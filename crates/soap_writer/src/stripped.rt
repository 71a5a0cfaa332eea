//! What the tree of a document may be, so that its elements may be written again: the law that each element of a
//! document, without its declarations, may be written. It has no code. Lemmas stand in `specs/Stripped`.

pub mod laws;
