//! Assertions of reliable messaging, as policies carry them: read, written and judged.
//! `read_assertion` reads an `Assertion` from a document, as a function of its tree. `write_assertion` writes it.
//! `grants` tells whether our nodes keep to it.
//! - `alternatives`: policies with operators. `find_normal` answers which sets of assertions a policy admits,
//!   `find_common` what two policies have in common; `write_normal` writes that.
#![tactic(auto)]

pub mod assertion;
mod content;
pub mod error;
pub mod laws;
pub mod read;
mod word;
pub mod write;

pub use assertion::{Assertion, Assurance, grants};
pub use error::PolicyError;
pub use read::{find_security, read_assertion, read_assertion_element, read_form, read_optional};
pub use word::{ASSERTION, OLDER_POLICY, POLICY};
pub use write::write_assertion;

pub mod alternatives;
