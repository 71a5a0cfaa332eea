//! The space that was declared last, which documents declare again and again.
ghost use Rattle.std.specs.Prelude.{◌≡◌, IfOk};

use crate::profile::shared::Shared;
use rm_base::Memory;
use std::alloc::Global;

/// The space that was declared last. None at first.
#[derive(Drop)]
pub(crate) struct Recent {
    space: Option<Shared>,
}

impl Recent {
    pub(crate) fn new() -> Recent {
        Recent { space: None }
    }

    /// These bytes, which are not copied where they were declared last.
    pub(crate) fn shared(&mut self, alloc: Global, bytes: &[u8]) -> Result<Shared, Memory>
        ensures { IfOk result (λ shared. shared ≡ bytes.now) }
    {
        if let Some(space) = &self.space
            && space.as_slice() == bytes
        {
            return space.share();
        }
        let space = Shared::from_slice(alloc, bytes)?;
        self.space = Some(space.share()?);
        Ok(space)
    }
}
