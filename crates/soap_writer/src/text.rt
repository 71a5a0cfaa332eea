//! Bytes, text and values, as they stand among tags. Each writer appends, up to a want of memory.
ghost use Rattle.std.specs.Prelude.{◌≡◌, ◌++◌, OnOk, OnErr};
ghost use Rattle.soap_lex.specs.Escapes.{escaped_text, escaped_value};
ghost use Rattle.soap_writer.specs.ElementText.{quoted};
ghost use Rattle.soap_writer.specs.Steps.{Grows};

use rm_base::Memory;
use soap_lex::{write_attr, write_text};

/// Appends bytes as they are.
pub fn push_bytes(bytes: &[u8], out: &mut Vec<u8>) -> Result<(), Memory>
    ensures ok { OnOk result (out.new.items ≡ out.old.items ++ bytes.now) }
    ensures err { OnErr result (out.new.items ≡ out.old.items) }
{
    out.extend_from_slice(bytes)?;
    Ok(())
}

/// Appends text, escaped.
pub fn push_text(text: &[u8], out: &mut Vec<u8>) -> Result<(), Memory>
    ensures ok { OnOk result (out.new.items ≡ out.old.items ++ escaped_text text.now) }
    ensures err { OnErr result (out.new.items ≡ out.old.items) }
{
    match write_text(text, out) {
        Ok(()) => Ok(()),
        Err(_) => Err(Memory),
    }
}

/// Appends the value of an attribute, escaped.
pub fn push_value(value: &[u8], out: &mut Vec<u8>) -> Result<(), Memory>
    ensures ok { OnOk result (out.new.items ≡ out.old.items ++ escaped_value value.now) }
    ensures err { OnErr result (out.new.items ≡ out.old.items) }
{
    match write_attr(value, out) {
        Ok(()) => Ok(()),
        Err(_) => Err(Memory),
    }
}

/// Appends the value of an attribute between its quotes.
pub fn push_quoted(value: &[u8], out: &mut Vec<u8>) -> Result<(), Memory>
    ensures ok { OnOk result (out.new.items ≡ out.old.items ++ quoted value.now) }
    ensures err { OnErr result (Grows out.old.items out.new.items) }
{
    push_bytes(b"\"", out)?;
    push_value(value, out)?;
    push_bytes(b"\"", out)
}
