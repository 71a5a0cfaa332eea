//! What a node keeps that is not on its disk.
ghost use Rattle.std.specs.Prelude.{◌≡◌, [], IfOk};
ghost use Rattle.rm_base.specs.declared.message.Behaviour.TheVariants.{FollowingFirstGap as FirstGap};
ghost use Rattle.timers.specs.Keys.Keyed.{StandsFor};
ghost use Rattle.timers.specs.Pending.Waiting.{nothing_waits};

use rm_base::{Behaviour, Memory};
use rm_message::Message;
use std::alloc::Global;
use timers::keys::KeyTimers;
use timers::pending::Pending;

/// What a node keeps besides its records. It is not on the disk: a mount works it out anew.
pub struct Kept {
    /// What the node announces for the sequences that it grants from now on.
    pub granted: Behaviour,
    /// The keys that wait to be emitted, and the greatest moment of a tick.
    pub timers: KeyTimers,
    /// The messages that wait for addresses that nobody can reach, until they are asked for.
    pub polled: Pending<Message>,
}

impl Drop for Kept {
    fn drop(self) {
        let Kept {
            granted: _,
            timers: _,
            polled: _,
        } = self;
    }
}

impl Kept {
    /// What is kept where no key waits and no message, at time 0.
    pub(crate) fn first(alloc: Global) -> Result<Kept, Memory>
        ensures granted { IfOk result (λ kept. kept.granted ≡ FirstGap) }
        ensures waits { IfOk result (λ kept. StandsFor kept.timers []) }
        ensures cells { IfOk result (λ kept. kept.timers.cells ≡ []) }
        ensures time { IfOk result (λ kept. kept.timers.time ≡ 0) }
        ensures polled { IfOk result (λ kept. kept.polled.waits ≡ nothing_waits) }
    {
        Ok(Kept {
            granted: Behaviour::FollowingFirstGap,
            timers: KeyTimers::new(alloc)?,
            polled: Pending::new(alloc),
        })
    }
}
