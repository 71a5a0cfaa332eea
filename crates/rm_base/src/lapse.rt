//! Durations as values.

/// A duration: whole months, and besides them milliseconds. One that is zero never expires.
#[derive(Clone, Copy, Debug, PartialEq, Eq)]
pub struct Lapse {
    pub months: u64,
    pub ms: u64,
}
