//! Line ends and white space, as they are normalised.
ghost use Rattle.std.specs.Prelude.{◌≡◌, ◌≤◌, ◌++◌, true, false, length, take, map, OnOk, OnErr};
ghost use Rattle.soap_lex.specs.Text.{with_line_ends, line_ends_after};
ghost use Rattle.soap_lex.specs.Value.{with_spaces, space_of};

use crate::Memory;
use crate::tokens::lacks_byte;
use crate::visible::append;
use memchr::memchr;

/// Appends the bytes with their line ends normalised: XML 1.0, section 2.11. After an error nothing is appended.
pub fn push_line_ends(bytes: &[u8], out: &mut Vec<u8>) -> Result<(), Memory>
    ensures ok { OnOk result (out.new.items ≡ out.old.items ++ with_line_ends bytes.now) }
    ensures err { OnErr result (out.new.items ≡ out.old.items) }
{
    // Most have no CR, which is sooner found out than where the first one stands.
    if lacks_byte(bytes, b'\r') {
        return append(bytes, out);
    }
    let start = out.len();
    match push_lines(bytes, out) {
        Ok(()) => Ok(()),
        Err(memory) => {
            out.truncate(start);
            Err(memory)
        }
    }
}

/// Appends the bytes with each white space as a space: XML 1.0, section 3.3.3. After an error nothing is appended.
pub fn push_spaces(bytes: &[u8], out: &mut Vec<u8>) -> Result<(), Memory>
    ensures ok { OnOk result (out.new.items ≡ out.old.items ++ with_spaces bytes.now) }
    ensures err { OnErr result (out.new.items ≡ out.old.items) }
{
    let start = out.len();
    push_line_ends(bytes, out)?;
    blank(&mut out[start..]);
    Ok(())
}

// Appends line by line, up to a want of memory.
fn push_lines(bytes: &[u8], out: &mut Vec<u8>) -> Result<(), Memory>
    ensures ok { OnOk result (out.new.items ≡ out.old.items ++ with_line_ends bytes.now) }
    ensures err { OnErr result (take (length out.old.items) out.new.items ≡ out.old.items) }
{
    let mut rest = bytes;
    while let Some(end) = memchr(b'\r', rest) {
        out.extend_from_slice(&rest[..end])?;
        out.push(b'\n')?;
        rest = after_line_end(&rest[end + 1..]);
    }
    out.extend_from_slice(rest)?;
    Ok(())
}

// What follows a CR, without an LF at its front.
fn after_line_end(bytes: &[u8]) -> &[u8]
    ensures same { line_ends_after false result.now ≡ line_ends_after true bytes.now }
    ensures bound { length result.now ≤ length bytes.now }
{
    match bytes {
        [b'\n', after @ ..] => after,
        _ => bytes,
    }
}

// Each tab and LF becomes a space.
fn blank(bytes: &mut [u8])
    ensures { bytes.new ≡ map space_of bytes.old }
{
    for byte in bytes.iter_mut() {
        *byte = space_for(*byte);
    }
}

#[inline]
fn space_for(byte: u8) -> u8
    ensures { result ≡ space_of byte }
{
    if byte == b'\t' || byte == b'\n' {
        b' '
    } else {
        byte
    }
}
