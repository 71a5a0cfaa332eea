//! Values as they are printed. Each writer appends, up to a want of memory.
ghost use Rattle.std.specs.Prelude.{◌≡◌, ◌<◌, ◌++◌, OnOk, codes, slice_index};
ghost use Rattle.hex.specs.Hex.{upper_digits};
ghost use Rattle.rm_script.specs.MessageLines.Lines.{is_plain, escaped_byte, escaped, text_line, bool_text};
ghost use Rattle.rm_script.specs.MessageLines.Lines.{range_text, ranges_text, numbers_text, kind_text, final_text};

use rm_base::{Blob, Memory, push_decimal};
use rm_message::elements::AckKind;
use rm_sides::ranges::Range;

/// Appends bytes, each as it is or as `%` and two digits.
pub(crate) fn push_escaped(out: &mut Blob, bytes: &[u8]) -> Result<(), Memory>
    ensures { OnOk result (out.new ≡ out.old ++ escaped bytes.now) }
{
    for byte in bytes {
        push_byte(out, *byte)?;
    }
    Ok(())
}

// Appends a byte as it is, or as `%` and two digits.
fn push_byte(out: &mut Blob, byte: u8) -> Result<(), Memory>
    ensures { OnOk result (out.new ≡ out.old ++ escaped_byte byte) }
{
    if is_visible(byte) {
        return out.push_all(&[byte]);
    }
    out.push_all(&[b'%', upper_digit(byte / 16), upper_digit(byte % 16)])
}

// Whether a byte is a visible character of ASCII that isn't `%`.
fn is_visible(byte: u8) -> bool
    ensures { result ≡ is_plain byte }
{
    0x21 <= byte && byte <= 0x7e && byte != b'%'
}

// The hexadecimal digit of a number.
fn upper_digit(number: u8) -> u8
    requires { number < 16 }
    ensures { result ≡ slice_index upper_digits number }
{
    b"0123456789ABCDEF"[number as usize]
}

/// Appends the line of a word and a text.
pub(crate) fn push_text(out: &mut Blob, word: &[u8], value: &[u8]) -> Result<(), Memory>
    ensures { OnOk result (out.new ≡ out.old ++ text_line word.now value.now) }
{
    out.push_all(word)?;
    out.push_all(b" ")?;
    push_escaped(out, value)?;
    out.push_all(b"\n")
}

/// The word for a truth.
pub(crate) fn bool_word(truth: bool) -> &'static [u8]
    ensures { result.now ≡ bool_text truth }
{
    if truth { b"true" } else { b"false" }
}

fn push_range(out: &mut Blob, range: Range) -> Result<(), Memory>
    ensures { OnOk result (out.new ≡ out.old ++ range_text range) }
{
    push_decimal(out, range.lower)?;
    out.push_all(b"-")?;
    push_decimal(out, range.upper)
}

/// Appends ranges, such as `1-3,5-5`.
pub fn push_ranges(out: &mut Blob, ranges: &[Range]) -> Result<(), Memory>
    ensures { OnOk result (out.new ≡ out.old ++ ranges_text ranges.now) }
{
    let Some((first, rest)) = ranges.split_first() else {
        return Ok(());
    };
    push_range(out, *first)?;
    for range in rest {
        out.push_all(b",")?;
        push_range(out, *range)?;
    }
    Ok(())
}

fn push_numbers(out: &mut Blob, numbers: &[u64]) -> Result<(), Memory>
    ensures { OnOk result (out.new ≡ out.old ++ numbers_text numbers.now) }
{
    let Some((first, rest)) = numbers.split_first() else {
        return Ok(());
    };
    push_decimal(out, *first)?;
    for number in rest {
        out.push_all(b",")?;
        push_decimal(out, *number)?;
    }
    Ok(())
}

/// Appends what an acknowledgement tells.
pub(crate) fn push_kind(out: &mut Blob, kind: &AckKind) -> Result<(), Memory>
    ensures { OnOk result (out.new ≡ out.old ++ kind_text kind.now) }
{
    match kind {
        AckKind::Ranges(ranges) => push_ranges(out, ranges.as_slice()),
        AckKind::Nothing => out.push_all(b"none"),
        AckKind::Nack(numbers) => {
            out.push_all(b"nack ")?;
            push_numbers(out, numbers.as_slice())
        }
    }
}

/// Appends whether it is the final one.
pub(crate) fn push_final(out: &mut Blob, last: bool) -> Result<(), Memory>
    ensures { OnOk result (out.new ≡ out.old ++ final_text last) }
{
    if last {
        return out.push_all(b" final");
    }
    Ok(())
}
