//! Tests of the crates from `soap_lex` to `wsa_headers`, of `rm_message::elements` and of `rm_policy`.
//! The policies are in `secured`, `common` and `written`, and `forms` has what they share.
//! Tests stand in crates of their own, since a crate with tests is proved a second time with them.
#![tactic(auto)]

#[cfg(test)]
mod addressing;
#[cfg(test)]
mod broken;
#[cfg(test)]
mod common;
#[cfg(test)]
mod document;
#[cfg(test)]
mod elements;
#[cfg(test)]
mod envelope;
#[cfg(test)]
mod forms;
#[cfg(test)]
mod frame;
#[cfg(test)]
mod lex;
#[cfg(test)]
mod nodes;
#[cfg(test)]
mod pieces;
#[cfg(test)]
mod profile;
#[cfg(test)]
mod secured;
#[cfg(test)]
mod values;
#[cfg(test)]
mod writer;
#[cfg(test)]
mod written;
