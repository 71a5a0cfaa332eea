//! Short runs of visible ASCII characters and spaces: they need no normalising, and one look at each byte is enough.
ghost use Rattle.std.specs.Prelude.{◌≡◌, ◌≢◌, ◌≤◌, ◌<◌, ◌++◌, true, IsTrue, OnOk, OnErr};
ghost use Rattle.xml_chars.specs.Classes.{is_char};
ghost use Rattle.soap_lex.specs.Tests.{is_char_data, is_plain};
ghost use Rattle.soap_lex.specs.Text.{with_line_ends};
ghost use Rattle.soap_lex.specs.Value.{with_spaces};

use crate::Memory;

// Up to so many bytes a run is short.
const SHORT: usize = 32;

// A short run of visible characters and spaces, where none begins markup or is that other.
pub(crate) fn is_visible(bytes: &[u8], other: u8) -> bool
    ensures value { IsTrue result → is_plain other bytes.now ≡ true }
    ensures data { IsTrue result → other ≡ 93 → is_char_data bytes.now ≡ true }
    ensures lines { IsTrue result → with_line_ends bytes.now ≡ bytes.now }
    ensures spaces { IsTrue result → with_spaces bytes.now ≡ bytes.now }
{
    if bytes.len() > SHORT {
        return false;
    }
    for byte in bytes {
        if !is_visible_but(*byte, other) {
            return false;
        }
    }
    true
}

#[inline]
fn is_visible_but(byte: u8, other: u8) -> bool
    ensures { IsTrue result → (byte < 128) × IsTrue (is_char byte) × (byte ≢ 60) × (byte ≢ 38) × (byte ≢ other)
        × (32 ≤ byte) }
{
    byte >= b' ' && byte < 127 && byte != b'<' && byte != b'&' && byte != other
}

// Appends the bytes; often there are none.
pub(crate) fn append(bytes: &[u8], out: &mut Vec<u8>) -> Result<(), Memory>
    ensures ok { OnOk result (out.new.items ≡ out.old.items ++ bytes.now) }
    ensures err { OnErr result (out.new.items ≡ out.old.items) }
{
    if bytes.is_empty() {
        return Ok(());
    }
    out.extend_from_slice(bytes)?;
    Ok(())
}
