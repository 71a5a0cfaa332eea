//! A clock that stands at one moment, and the clock of the system.
ghost use Rattle.std.specs.Prelude.{◌≡◌, ◌≤◌, ℕ, Some, None, IfSome, min};
ghost use Rattle.rm_base.specs.Limits.{now_max};

use crate::limits::NOW_MAX;
use crate::outside::Clock;
use std::marker::Model;
use std::time::{Clock as SystemClock, SystemTime, UNIX_EPOCH};

/// A clock that always tells one moment.
#[derive(Debug, Drop)]
pub struct MemClock {
    moment: u64,
}

impl Model for MemClock {
    ghost Value = { ℕ };

    ghost view = { λ c. c.moment };

    ghost invariant = { λ c. c.moment ≤ now_max };
}

impl MemClock {
    /// A clock that stands at this moment, in milliseconds since 1970 UTC.
    pub fn new(now: u64) -> Self
        requires { now ≤ now_max }
        ensures { result ≡ now }
    {
        MemClock { moment: now }
    }
}

impl Clock for MemClock {
    ghost next = { λ c. Some c };

    fn now(&mut self) -> u64
        ensures within { result ≤ now_max }
        ensures told { result ≡ self.old }
        ensures same { self.new ≡ self.old }
    {
        self.moment
    }
}

/// The clock of the system, which tells no moment beforehand. One that can't be read, or stands before 1970, counts as
/// at 0.
#[derive(Drop)]
pub struct StdClock<C> {
    clock: C,
}

impl<C> StdClock<C> {
    /// The time that a clock of std tells.
    pub fn new(clock: C) -> Self {
        StdClock { clock }
    }
}

impl<C: SystemClock> Clock for StdClock<C> {
    ghost next = { λ _. None };

    fn now(&mut self) -> u64 {
        let Ok(time) = SystemTime::now(&self.clock) else {
            return 0;
        };
        match time.duration_since(UNIX_EPOCH) {
            Ok(since) => nearest(since.as_millis()),
            Err(_) => 0,
        }
    }
}

// The moment that is nearest to so many milliseconds.
fn nearest(millis: u128) -> u64
    ensures { result ≡ min millis now_max }
{
    millis.min(NOW_MAX as u128) as u64
}
