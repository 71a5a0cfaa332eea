//! What the definitions of waiting packets mean.
ghost use Rattle.timers.specs.Pending.Laws.{StaysWithin};

/// However packets are put and polled, at most 64 wait for an address and at most 256 addresses have one that waits,
/// each of them once.
pub fn what_waits_is_within_the_limits<T>()
    ensures { StaysWithin T }
{}
