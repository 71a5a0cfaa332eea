//! The reader of a relay's scripts.
ghost use Rattle.std.specs.Prelude.{◌≡◌, ℕ, Err, IfOk};
ghost use Rattle.rm_script.specs.Script.{lines_of};
ghost use Rattle.rm_script.specs.declared.script.ScriptError.{ScriptError};
ghost use Rattle.rm_relay.specs.Script.{IsFirstBad, IsScript};

use crate::event::Event;
use crate::line::event;
use rm_base::Memory;
use rm_script::ScriptError;
use rm_script::script::{count_of_lines, first_line};
use std::alloc::Global;

/// Reads a script: one event a line, empty lines and comments among them, so that an event's place tells its line.
/// - BadLine: exactly with the first line that is not in the grammar (`script`, `bad_line`).
pub fn read_relay(alloc: Global, bytes: &[u8]) -> Result<Vec<Event>, ScriptError>
    ensures script { IfOk result (λ events. IsScript (lines_of bytes.now) events.items) }
    ensures bad_line { (line : ℕ) → result ≡ Err (ScriptError.BadLine line) → IsFirstBad (lines_of bytes.now) line }
{
    let mut events = Vec::with_capacity(alloc, count_of_lines(bytes))?;
    let mut rest = bytes;
    while !rest.is_empty() {
        let (line, after) = first_line(rest);
        match event(alloc, line)? {
            Some(event) => match events.push(event) {
                Ok(()) => {}
                Err(_) => unreachable!(),
            },
            None => {
                return Err(ScriptError::BadLine {
                    line: events.len() as u64 + 1,
                });
            }
        }
        rest = after;
    }
    Ok(events)
}
