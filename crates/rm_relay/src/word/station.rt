//! The nodes of a relay.

/// One of the three nodes.
#[derive(Clone, Copy, Debug, PartialEq, Eq)]
pub enum Station {
    One,
    Two,
    Three,
}
