//! Attributes as they are written.
use rm_base::Bytes;

/// An attribute as it is written: the value is normalised, and a declaration of a namespace is an attribute too.
#[derive(Debug, Drop)]
pub struct WrittenAttribute {
    /// With its prefix, where it has one.
    pub name: Bytes,
    pub value: Bytes,
}
