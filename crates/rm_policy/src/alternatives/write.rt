//! Alternatives as text: in memory, or to an output, block by block.
ghost use Rattle.std.specs.Prelude.{◌≡◌, ◌≢◌, ◌<◌, ◌++◌, [], Err, false, IfOk, OnErr, OnOk, slice_index};
ghost use Rattle.std.specs.Io.KnownBytes.{Appends};
ghost use Rattle.hex.specs.Hex.{upper_digits};
ghost use Rattle.rm_base.specs.Count.{Rose};
ghost use Rattle.rm_base.specs.Outside.{AppendsFront, Lasts};
ghost use Rattle.rm_policy.specs.Alternatives.Pieces.{piece_text, pieces_text};
ghost use Rattle.rm_policy.specs.Alternatives.Sending.{Goes};
ghost use Rattle.rm_policy.specs.Alternatives.Texts.{
  escaped,
  escaped_byte,
  is_plain as is_written_so,
  normal_text,
};

use crate::alternatives::pieces::{Piece, pieces_of};
use crate::alternatives::term::Alternatives;
use arrayvec::ArrayVec;
use rm_base::{Blob, Memory, Sink, SinkError, write_all};
use std::alloc::Global;

/// How many bytes an output is given at once.
const BLOCK: usize = 4096;

// Bytes that wait to be written.
type Block = ArrayVec<u8, BLOCK>;

/// The text of alternatives. It may be far longer than the policy that they were read from, and then memory runs out.
pub fn write_normal(alloc: Global, alternatives: &Alternatives) -> Result<Blob, Memory>
    ensures { IfOk result (λ text. text ≡ normal_text alternatives.now) }
{
    let pieces = pieces_of(alloc, alternatives)?;
    let mut text = Blob::new(alloc);
    push_pieces(&mut text, pieces.as_slice())?;
    Ok(text)
}

fn push_pieces(out: &mut Blob, pieces: &[Piece<'_>]) -> Result<(), Memory>
    ensures { OnOk result (out.new ≡ out.old ++ pieces_text pieces.now) }
{
    for piece in pieces {
        push_piece(out, piece)?;
    }
    Ok(())
}

fn push_piece(out: &mut Blob, piece: &Piece<'_>) -> Result<(), Memory>
    ensures { OnOk result (out.new ≡ out.old ++ piece_text piece.now) }
{
    match piece {
        Piece::Word(word) => out.push_all(word),
        Piece::Number(digits) => out.push_all(digits.as_slice()),
        Piece::Name(bytes) => push_escaped(out, bytes),
    }
}

// Appends bytes, each as it is or as `%` and two digits.
fn push_escaped(out: &mut Blob, bytes: &[u8]) -> Result<(), Memory>
    ensures { OnOk result (out.new ≡ out.old ++ escaped bytes.now) }
{
    for byte in bytes {
        push_byte(out, *byte)?;
    }
    Ok(())
}

fn push_byte(out: &mut Blob, byte: u8) -> Result<(), Memory>
    ensures { OnOk result (out.new ≡ out.old ++ escaped_byte byte) }
{
    if is_plain(byte) {
        return out.push_all(&[byte]);
    }
    out.push_all(&[b'%', upper_digit(byte / 16), upper_digit(byte % 16)])
}

/// Writes the text of pieces to an output, and takes no memory. After an `Err` some first bytes were written.
/// - Failed: only where the output's count of faults rose; some first bytes of the text were written (`failed`, `err`).
/// - Memory: only of an output whose calls may want memory; some first bytes of the text were written (`memory`,
///   `err`).
pub fn write_pieces<K: Sink>(out: &mut K, pieces: &[Piece<'_>]) -> Result<(), SinkError>
    ensures ok { OnOk result (Appends (K.told out.old).held (K.told out.new).held (pieces_text pieces.now)) }
    ensures err { OnErr result (AppendsFront (K.told out.old).held (K.told out.new).held (pieces_text pieces.now)) }
    ensures failed { result ≡ Err SinkError.Failed → Rose (K.told out.old).faults (K.told out.new).faults }
    ensures memory { K.wants_memory ≡ false → result ≢ Err SinkError.Memory }
    ensures lasts { Lasts (K.told out.old) (K.told out.new) }
{
    let mut block = Block::new();
    put_pieces(out, &mut block, pieces)?;
    write_all(out, block.as_slice())
}

fn put_pieces<K: Sink>(
    out: &mut K,
    block: &mut Block,
    pieces: &[Piece<'_>],
) -> Result<(), SinkError>
    ensures { Goes K.wants_memory (K.told out.old) (K.told out.new) block.old.items (pieces_text pieces.now)
        block.new.items result }
{
    for piece in pieces {
        put_piece(out, block, piece)?;
    }
    Ok(())
}

fn put_piece<K: Sink>(out: &mut K, block: &mut Block, piece: &Piece<'_>) -> Result<(), SinkError>
    ensures { Goes K.wants_memory (K.told out.old) (K.told out.new) block.old.items (piece_text piece.now)
        block.new.items result }
{
    match piece {
        Piece::Word(word) => put(out, block, word),
        Piece::Number(digits) => put(out, block, digits.as_slice()),
        Piece::Name(bytes) => put_escaped(out, block, bytes),
    }
}

fn put_escaped<K: Sink>(out: &mut K, block: &mut Block, bytes: &[u8]) -> Result<(), SinkError>
    ensures { Goes K.wants_memory (K.told out.old) (K.told out.new) block.old.items (escaped bytes.now)
        block.new.items result }
{
    for byte in bytes {
        put_byte(out, block, *byte)?;
    }
    Ok(())
}

fn put_byte<K: Sink>(out: &mut K, block: &mut Block, byte: u8) -> Result<(), SinkError>
    ensures { Goes K.wants_memory (K.told out.old) (K.told out.new) block.old.items (escaped_byte byte)
        block.new.items result }
{
    if is_plain(byte) {
        return put(out, block, &[byte]);
    }
    put(
        out,
        block,
        &[b'%', upper_digit(byte / 16), upper_digit(byte % 16)],
    )
}

// Puts bytes behind those that wait, which are written where there is no room for more.
fn put<K: Sink>(out: &mut K, block: &mut Block, bytes: &[u8]) -> Result<(), SinkError>
    ensures { Goes K.wants_memory (K.told out.old) (K.told out.new) block.old.items bytes.now block.new.items result }
{
    match block.try_extend_from_slice(bytes) {
        Ok(()) => Ok(()),
        Err(_) => begin(out, block, bytes),
    }
}

// Writes the bytes that wait, and lets others wait, or writes them too where they are more than a block.
fn begin<K: Sink>(out: &mut K, block: &mut Block, bytes: &[u8]) -> Result<(), SinkError>
    ensures { Goes K.wants_memory (K.told out.old) (K.told out.new) block.old.items bytes.now block.new.items result }
{
    write_all(out, block.as_slice())?;
    block.clear();
    match block.try_extend_from_slice(bytes) {
        Ok(()) => Ok(()),
        Err(_) => write_all(out, bytes),
    }
}

// Whether a byte is a visible character of ASCII that is neither `%` nor a comma.
fn is_plain(byte: u8) -> bool
    ensures { result ≡ is_written_so byte }
{
    0x21 <= byte && byte <= 0x7e && byte != b'%' && byte != b','
}

// The hexadecimal digit of a number.
fn upper_digit(number: u8) -> u8
    requires { number < 16 }
    ensures { result ≡ slice_index upper_digits number }
{
    b"0123456789ABCDEF"[number as usize]
}
