//! What is made of a document's elements where nothing of them is kept.
ghost use Rattle.std.specs.Prelude.{◌≡◌, false};

use rm_base::Memory;
use soap_document::{Handler, WrittenAttribute};

/// How many elements are open, and whether the root has ended.
#[derive(Drop)]
pub(crate) struct Depth {
    open: usize,
    pub(crate) ended: bool,
}

impl Depth {
    /// Before a document was read.
    pub(crate) fn new() -> Self
        ensures open { result.open ≡ 0 }
        ensures ended { result.ended ≡ false }
    {
        Depth {
            open: 0,
            ended: false,
        }
    }
}

// A document has no text outside of its root, no second root, and no room for more elements than a number counts.
impl Handler for Depth {
    ghost use Rattle.soap_pieces.specs.Depth.{IsDepth, open_count};

    ghost stands = { IsDepth };

    ghost depth = { open_count };

    fn text(&mut self, _text: &[u8]) -> Result<(), Memory> {
        if self.open == 0 {
            return Err(Memory);
        }
        Ok(())
    }

    fn open(
        &mut self,
        _name: &[u8],
        _attributes: &[WrittenAttribute],
        _start: usize,
    ) -> Result<(), Memory> {
        let Some(open) = self.open.checked_add(1) else {
            return Err(Memory);
        };
        self.open = open;
        Ok(())
    }

    fn empty(
        &mut self,
        _name: &[u8],
        _attributes: &[WrittenAttribute],
        _place: usize,
    ) -> Result<(), Memory> {
        let open = self.open;
        if open > 0 {
            return Ok(());
        }
        if self.ended {
            return Err(Memory);
        }
        self.ended = true;
        Ok(())
    }

    fn close(&mut self, _end: usize) -> Result<(), Memory> {
        self.open -= 1;
        let open = self.open;
        if open > 0 {
            return Ok(());
        }
        if self.ended {
            return Err(Memory);
        }
        self.ended = true;
        Ok(())
    }
}
