//! Text and attribute values, written.
ghost use Rattle.std.specs.Prelude.{◌≡◌, ◌∷◌, ◌++◌, [], length, take, IfSome, IfNone, OnOk, OnErr};
ghost use Rattle.std.specs.List.{flat_map};
ghost use Rattle.soap_lex.specs.Escapes.{escape_of, escaped_text, escaped_value};

use crate::Memory;

/// Appends the bytes as text between tags, with `&`, `<`, `>` and CR as references. After an error nothing is appended.
pub fn write_text(bytes: &[u8], out: &mut Vec<u8>) -> Result<(), Memory>
    ensures ok { OnOk result (out.new.items ≡ out.old.items ++ escaped_text bytes.now) }
    ensures err { OnErr result (out.new.items ≡ out.old.items) }
{
    write_escaped(bytes, false, out)
}

/// Appends the bytes as they stand in an attribute value between double quotes, with `"`, tab and LF as references
/// besides. After an error nothing is appended.
pub fn write_attr(bytes: &[u8], out: &mut Vec<u8>) -> Result<(), Memory>
    ensures ok { OnOk result (out.new.items ≡ out.old.items ++ escaped_value bytes.now) }
    ensures err { OnErr result (out.new.items ≡ out.old.items) }
{
    write_escaped(bytes, true, out)
}

fn write_escaped(bytes: &[u8], quoted: bool, out: &mut Vec<u8>) -> Result<(), Memory>
    ensures ok { OnOk result (out.new.items ≡ out.old.items ++ flat_map (escape_of quoted) bytes.now) }
    ensures err { OnErr result (out.new.items ≡ out.old.items) }
{
    let start = out.len();
    match push_escaped(bytes, quoted, out) {
        Ok(()) => Ok(()),
        Err(memory) => {
            out.truncate(start);
            Err(memory)
        }
    }
}

// Appends run by run, up to a want of memory.
fn push_escaped(bytes: &[u8], quoted: bool, out: &mut Vec<u8>) -> Result<(), Memory>
    ensures ok { OnOk result (out.new.items ≡ out.old.items ++ flat_map (escape_of quoted) bytes.now) }
    ensures err { OnErr result (take (length out.old.items) out.new.items ≡ out.old.items) }
{
    let mut start = 0;
    for i in 0..bytes.len() {
        if let Some(reference) = escape(bytes[i], quoted) {
            out.extend_from_slice(&bytes[start..i])?;
            out.extend_from_slice(reference)?;
            start = i + 1;
        }
    }
    out.extend_from_slice(&bytes[start..])?;
    Ok(())
}

// The reference that stands for a byte that may not stand itself, in text or in a value between double quotes.
#[inline]
fn escape(byte: u8, quoted: bool) -> Option<&'static [u8]>
    ensures none { IfNone result (escape_of quoted byte ≡ byte ∷ []) }
    ensures some { IfSome result (λ reference. reference.now ≡ escape_of quoted byte) }
{
    match byte {
        b'&' => Some(b"&amp;"),
        b'<' => Some(b"&lt;"),
        b'>' => Some(b"&gt;"),
        b'\r' => Some(b"&#13;"),
        b'"' if quoted => Some(b"&quot;"),
        b'\t' if quoted => Some(b"&#9;"),
        b'\n' if quoted => Some(b"&#10;"),
        _ => None,
    }
}
