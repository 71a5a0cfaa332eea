//! Bytes that many values share.
ghost use Rattle.std.specs.Prelude.{◌≡◌, [], IsTrue, ◌↔◌, IfOk};

use rm_base::{Blob, Memory};
use std::alloc::Global;
use std::marker::Model;
use std::rc::Rc;

/// Bytes that any number of names may share. It is one word, of no bytes too.
#[derive(Debug, Drop)]
pub struct Shared {
    bytes: Rc<Blob>,
}

impl Model for Shared {
    ghost use Rattle.std.specs.Prelude.{List, ℕ};

    ghost Value = { List ℕ };

    ghost view = { λ s. s.bytes.value };
}

impl Shared {
    /// The same bytes, copied.
    pub fn from_slice(alloc: Global, bytes: &[u8]) -> Result<Self, Memory>
        ensures { IfOk result (λ shared. shared ≡ bytes.now) }
    {
        let bytes = Rc::new(alloc, Blob::from_slice(alloc, bytes)?)?;
        Ok(Shared { bytes })
    }

    /// The bytes.
    pub fn as_slice(&self) -> &[u8]
        ensures { result.now ≡ self.now }
    {
        self.bytes.as_slice()
    }

    /// Whether there are none.
    pub fn is_empty(&self) -> bool
        ensures { IsTrue result ↔ (self.now ≡ []) }
    {
        self.as_slice().is_empty()
    }

    /// The same bytes, which are not copied: it wants memory only where the count of those who share them is full.
    pub fn share(&self) -> Result<Self, Memory>
        ensures { IfOk result (λ shared. shared ≡ self.now) }
    {
        Ok(Shared {
            bytes: self.bytes.clone()?,
        })
    }
}
