//! Policies as trees of operators: WS-Policy 1.5, section 4.3.
use crate::alternatives::term::Term;

/// A policy. An assertion says besides whether it is optional.
#[derive(Debug, Drop)]
#[cycle(tree)]
pub enum Policy {
    All(Policies),
    ExactlyOne(Policies),
    Assert(Term, bool),
}

/// Policies in order.
#[derive(Debug, Drop)]
#[cycle(tree)]
pub struct Policies {
    pub items: Vec<Policy>,
}
