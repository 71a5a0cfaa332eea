//! The lines of the items of an inbox.
ghost use Rattle.std.specs.Prelude.{◌≡◌, ◌≤◌, ◌++◌, length, OnOk};
ghost use Rattle.std.specs.Option.{option_copied};
ghost use Rattle.rm_sides.specs.Destination.Incoming.{inbox};
ghost use Rattle.rm_host.specs.Sequences.{item_lines, passed_lines, there_line};
ghost use Rattle.rm_host.specs.Texts.{item_line};

use rm_base::{Blob, Memory, Payload, push_decimal, push_hex};
use rm_sides::destination::Incoming;

/// Appends the items of an inbox, but for those that are gone, which it passes over.
pub(crate) fn push_inbox(text: &mut Blob, seq: u32, incoming: &Incoming) -> Result<(), Memory>
    ensures { OnOk result (text.new ≡ text.old ++ item_lines seq 0 (inbox incoming.now.facts)) }
{
    push_items(text, seq, incoming, incoming.gone(), incoming.inbox_len())
}

/// Appends the items of an inbox past one place, up to another, but for those that are gone.
pub fn push_items(
    text: &mut Blob,
    seq: u32,
    incoming: &Incoming,
    from: u64,
    upto: u64,
) -> Result<(), Memory>
    requires { upto ≤ length (inbox incoming.now.facts) }
    ensures { OnOk result (text.new ≡ text.old ++ passed_lines seq from upto (inbox incoming.now.facts)) }
{
    for before in from..upto {
        push_there(text, seq, before + 1, incoming.inbox_item(before + 1))?;
    }
    Ok(())
}

// Appends the line of an item, where it isn't gone.
fn push_there(text: &mut Blob, seq: u32, number: u64, item: Option<&Payload>) -> Result<(), Memory>
    ensures { OnOk result (text.new ≡ text.old ++ there_line seq number (option_copied item.entry)) }
{
    match item {
        Some(payload) => push_item(text, seq, number, payload.bytes.as_slice()),
        None => Ok(()),
    }
}

fn push_item(text: &mut Blob, seq: u32, number: u64, bytes: &[u8]) -> Result<(), Memory>
    ensures { OnOk result (text.new ≡ text.old ++ item_line seq number bytes.now) }
{
    text.push_all(b"item ")?;
    push_decimal(text, u64::from(seq))?;
    text.push_all(b" ")?;
    push_decimal(text, number)?;
    text.push_all(b" ")?;
    push_hex(text, bytes)?;
    text.push_all(b"\n")
}
