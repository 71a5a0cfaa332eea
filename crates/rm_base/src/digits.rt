//! Numbers and bytes printed as digits.
ghost use Rattle.std.specs.Prelude.{◌≡◌, ◌++◌, decimal, OnOk, OnErr};
ghost use Rattle.hex.specs.Hex.{encode_lower};

use crate::blob::Blob;
use crate::failures::Memory;
use itoa::Buffer;

/// Appends a number in decimal digits.
pub fn push_decimal(out: &mut Blob, number: u64) -> Result<(), Memory>
    ensures ok { OnOk result (out.new ≡ out.old ++ decimal number) }
    ensures err { OnErr result (out.new ≡ out.old) }
{
    let mut buffer = Buffer::new();
    out.push_all(buffer.format(number).as_bytes())
}

/// Appends bytes as two hexadecimal digits each, in lower case.
pub fn push_hex(out: &mut Blob, bytes: &[u8]) -> Result<(), Memory>
    ensures ok { OnOk result (out.new ≡ out.old ++ encode_lower bytes.now) }
    ensures err { OnErr result (out.new ≡ out.old) }
{
    let digits = hex::encode(out.allocator(), bytes)?;
    out.push_all(digits.as_bytes())
}
