//! Bytes that take little room where they are few.
ghost use Rattle.std.specs.Prelude.{◌≡◌, ◌↔◌, [], length, IsTrue, IfOk};

use crate::blob::Blob;
use crate::failures::Memory;
use std::alloc::Global;
use std::marker::Model;
use std::mem::size_of;

// The most bytes that take no memory of their own.
const FEW: usize = 22;

const _: () = prove!(size_of::<Bytes>() == 24);

/// Bytes of any kind. Up to 22 of them take no memory of their own.
#[derive(Debug, Drop)]
pub struct Bytes {
    kept: Kept,
}

#[derive(Debug, Drop)]
enum Kept {
    Few { len: u8, bytes: [u8; FEW] },
    Many(Box<Blob>),
}

impl Model for Bytes {
    ghost use Rattle.std.specs.Prelude.{ℕ, List};

    ghost Value = { List ℕ };

    ghost use Rattle.rm_base.specs.Bytes.{kept_bytes, IsKept};

    ghost view = { λ b. kept_bytes b.kept };

    ghost invariant = { λ b. IsKept b.kept };
}

impl Bytes {
    /// No bytes.
    pub fn new() -> Self
        ensures { result ≡ [] }
    {
        Bytes {
            kept: Kept::Few {
                len: 0,
                bytes: [0; FEW],
            },
        }
    }

    /// Takes no memory for up to 22 bytes.
    pub fn from_slice(alloc: Global, bytes: &[u8]) -> Result<Self, Memory>
        ensures { IfOk result (λ b. b ≡ bytes.now) }
    {
        if bytes.len() > FEW {
            let many = Blob::from_slice(alloc, bytes)?;
            return Ok(Bytes {
                kept: Kept::Many(Box::new(alloc, many)?),
            });
        }
        let mut few = [0; FEW];
        few[..bytes.len()].copy_from_slice(bytes);
        Ok(Bytes {
            kept: Kept::Few {
                len: bytes.len() as u8,
                bytes: few,
            },
        })
    }

    /// All bytes.
    #[inline(always)]
    pub fn as_slice(&self) -> &[u8]
        ensures { result.now ≡ self.now }
    {
        match &self.kept {
            Kept::Few { len, bytes } => &bytes[..usize::from(*len)],
            Kept::Many(blob) => blob.as_slice(),
        }
    }

    /// How many bytes there are.
    pub fn len(&self) -> usize
        ensures { result ≡ length self.now }
    {
        self.as_slice().len()
    }

    /// Whether there are none.
    pub fn is_empty(&self) -> bool
        ensures { IsTrue result ↔ (self.now ≡ []) }
    {
        self.as_slice().is_empty()
    }

    /// The same bytes again.
    pub fn copy(&self, alloc: Global) -> Result<Self, Memory>
        ensures { IfOk result (λ b. b ≡ self.now) }
    {
        let kept = match &self.kept {
            Kept::Few { len, bytes } => Kept::Few {
                len: *len,
                bytes: *bytes,
            },
            Kept::Many(blob) => {
                let again = Blob::from_slice(alloc, blob.as_slice())?;
                Kept::Many(Box::new(alloc, again)?)
            }
        };
        Ok(Bytes { kept })
    }
}
