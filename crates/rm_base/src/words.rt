//! The words that a program was given.

ghost use Rattle.std.specs.Prelude.{◌≡◌, drop};

use crate::{Blob, Items, Memory};
use std::alloc::Global;
use std::env;
use std::io::ErrorKind;

/// The texts that the program was given, of which the first is its name. Where one of them isn't UTF-8 std hands out
/// none.
pub fn texts_given(rt: &HostRuntime) -> Result<Items<Blob>, Memory> {
    match env::args(rt) {
        Ok(args) => texts_of(rt.alloc(), args),
        Err(error) => match error.kind() {
            ErrorKind::InvalidData => Ok(Items::new(rt.alloc())),
            _ => Err(Memory),
        },
    }
}

/// The words behind the first of the texts, which is the program's name.
pub fn words_behind(given: &[Blob]) -> &[Blob]
    ensures { result.now ≡ drop 1 given.now }
{
    match given.split_first() {
        Some((_program, words)) => words,
        None => &[],
    }
}

// The texts that were given, of which the first is the program's name.
fn texts_of(alloc: Global, given: env::Args) -> Result<Items<Blob>, Memory> {
    let mut texts = Items::new(alloc);
    for text in given {
        texts.push(Blob::from_slice(alloc, text.as_bytes())?)?;
    }
    Ok(texts)
}
