//! How far an outgoing sequence is in its life.
/// How far an outgoing sequence is in its life: asked for, open, being closed, closed, being terminated, terminated, or
/// given up after a fault.
#[derive(Clone, Copy, Debug, PartialEq, Eq)]
pub enum OutPhase {
    Creating,
    Open,
    Closing,
    Closed,
    Ending,
    Ended,
    Failed,
}
