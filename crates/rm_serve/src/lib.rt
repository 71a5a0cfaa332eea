//! A node on connections, with peers that speak SOAP 1.2 or SOAP 1.1.
//! - `serving`: `serve_one` serves a connection that came: it reads the request, gives the body to the node, and writes
//!   the answer. It answers `Served`.
//! - `posting`: `post_due` posts packets where they go, and gives the node the responses. It answers `Posted`.
//! `serve_one11` and `post_due11` do the same in SOAP 1.1.
//! Contracts say each as the list of calls that it makes of the node, and what is written meanwhile.
#![tactic(auto)]

pub mod laws;
pub mod posting;
pub mod serving;
pub mod taking;
mod version;

pub use posting::{Posted, post_due, post_due11};
pub use serving::{ConnEnd, Served, serve_one, serve_one11};
