//! The reader of scripts.
ghost use Rattle.std.specs.Prelude.{◌≡◌, ℕ, ◌<◌, ◌==◌, position, count_by, ◌∷◌, length, IfOk, IfSome, Err};
ghost use Rattle.rm_script.specs.Script.{lines_of, IsScript, IsFirstBad};
ghost use Rattle.rm_script.specs.declared.script.ScriptError.TheVariants.{Memory as WantsMemory};

use crate::event::Event;
use crate::line::event;
use rm_base::Memory;
use std::alloc::{AllocError, Global};
use thiserror::Error;

/// Why a script was not read.
#[derive(Clone, Copy, Debug, PartialEq, Eq, Error)]
pub enum ScriptError {
    #[error("out of memory")]
    Memory,
    /// The first line that says nothing that a script may say. Lines count from 1.
    #[error("bad line {line}")]
    BadLine { line: u64 },
}

impl From<Memory> for ScriptError {
    ghost from_gives = { λ _ error. error ≡ WantsMemory };

    fn from(_memory: Memory) -> ScriptError {
        ScriptError::Memory
    }
}

impl From<AllocError> for ScriptError {
    ghost from_gives = { λ _ error. error ≡ WantsMemory };

    fn from(_error: AllocError) -> ScriptError {
        ScriptError::Memory
    }
}

/// Reads a script: one event a line, empty lines and comments among them, so that an event's place tells its line. Room
/// for all events is made at once; besides it, memory is taken for texts and noise alone.
/// - BadLine: exactly with the first line that says nothing that a script may say, counted from 1 (`bad_line`).
pub fn read_script(alloc: Global, bytes: &[u8]) -> Result<Vec<Event>, ScriptError>
    ensures script { IfOk result (λ events. IsScript (lines_of bytes.now) events.items) }
    ensures bad_line { (line : ℕ) → result ≡ Err (ScriptError.BadLine line) → IsFirstBad (lines_of bytes.now) line }
{
    let mut events = Vec::with_capacity(alloc, count_of_lines(bytes))?;
    let mut rest = bytes;
    while !rest.is_empty() {
        let (line, after) = first_line(rest);
        match event(alloc, line)? {
            Some(event) => match events.push(event) {
                Ok(()) => {}
                Err(_) => unreachable!(),
            },
            None => {
                return Err(ScriptError::BadLine {
                    line: events.len() as u64 + 1,
                });
            }
        }
        rest = after;
    }
    Ok(events)
}

/// How many lines there are: each LF but a last one stands before another line.
pub fn count_of_lines(bytes: &[u8]) -> usize
    ensures { result ≡ length (lines_of bytes.now) }
{
    match bytes.split_last() {
        Some((_, front)) => count_of_ends(front) + 1,
        None => 0,
    }
}

fn count_of_ends(bytes: &[u8]) -> usize
    ensures { result ≡ count_by (λ byte. byte == 10) bytes.now }
{
    bytes.iter().filter(|byte| **byte == b'\n').count()
}

/// The first line, without its LF, and the bytes behind it.
pub fn first_line(bytes: &[u8]) -> (&[u8], &[u8])
    requires { 0 < length bytes.now }
    ensures lines { lines_of bytes.now ≡ result.0.now ∷ lines_of result.1.now }
    ensures shorter { length result.1.now < length bytes.now }
{
    match line_end(bytes) {
        Some(end) => (&bytes[..end], &bytes[end + 1..]),
        None => (bytes, &[]),
    }
}

// Where the first LF stands.
fn line_end(bytes: &[u8]) -> Option<usize>
    ensures within { IfSome result (λ end. end < length bytes.now) }
    ensures end { result ≡ position (λ byte. byte == 10) bytes.now }
{
    bytes.iter().position(|byte| *byte == b'\n')
}
