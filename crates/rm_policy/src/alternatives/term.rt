//! Assertions as terms, and their order.
use crate::Assurance;
use rm_base::{Items, Memory};
use soap_document::profile::Name;

/// An assertion: one of reliable messaging, by its assurance and whether messages are delivered in order, or another
/// one, by its name (WS-Policy 1.5, section 2.4).
#[derive(Debug, Drop)]
pub enum Term {
    Rm(Assurance, bool),
    Other(Name),
}

/// An alternative: a set of terms as its rising list.
pub type Terms = Items<Term>;

/// Alternatives, in their order.
pub type Alternatives = Items<Terms>;
