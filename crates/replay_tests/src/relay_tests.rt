//! Tests of a relay of three nodes.

#[cfg(test)]
mod calls;
#[cfg(test)]
mod generated;
#[cfg(test)]
mod rows;
#[cfg(test)]
mod stage;
