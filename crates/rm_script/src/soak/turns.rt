//! The script that a number generates.
ghost use Rattle.std.specs.Prelude.{◌≡◌, ◌≤◌, ◌++◌, ◌/◌, ◌%◌, decimal, IfOk, OnOk};
ghost use Rattle.std.specs.List.{flat_map};
ghost use Rattle.rm_script.specs.Lines.{ended};
ghost use Rattle.rm_script.specs.Soak.Soak.{lines_for, soak_script};

use rand_core::utils::NextWord;
use rand_pcg::Lcg64Xsh32;
use rm_base::{Blob, Memory, push_decimal};
use std::alloc::Global;

/// How many turns follow the opening.
const TURNS: u32 = 3000;

/// The script of a number.
pub fn script(alloc: Global, number: u64) -> Result<Blob, Memory>
    ensures { IfOk result (λ script. script ≡ soak_script number) }
{
    let mut out = Blob::from_slice(alloc, b"create 1\ndeliver 1\ndeliver 2\n")?;
    let mut words = Lcg64Xsh32::new(number, 1);
    for i in 1..=TURNS {
        let word = words.next_word();
        push_turn(&mut out, i, word % 16, word / 16)?;
    }
    Ok(out)
}

// Appends the lines of a turn.
fn push_turn(out: &mut Blob, i: u32, case: u32, rest: u32) -> Result<(), Memory>
    requires { i ≤ 3000 }
    ensures { OnOk result (out.new ≡ out.old ++ flat_map ended (lines_for i case rest)) }
{
    let packet = 1 + rest % (i + 2);
    match case {
        0..=4 => push_line(out, b"send 1 1 <p>", i, b"</p>"),
        5..=11 => push_line(out, b"deliver ", packet, b""),
        12 => out.push_all(b"ask 1 1\n"),
        13 => push_line(out, b"tick 1 ", 1000 * i, b""),
        14 => {
            push_line(out, b"arm 2 ", 1 + rest % 4, b"")?;
            push_line(out, b"deliver ", packet, b"")?;
            push_line(out, b"crash 2 ", rest % 4, b"")
        }
        _ => push_line(out, b"crash 1 ", rest % 4, b""),
    }
}

// Appends a line with a number in it.
fn push_line(out: &mut Blob, front: &[u8], number: u32, back: &[u8]) -> Result<(), Memory>
    ensures { OnOk result (out.new ≡ out.old ++ ended (front.now ++ decimal number ++ back.now)) }
{
    out.push_all(front)?;
    push_decimal(out, u64::from(number))?;
    out.push_all(back)?;
    out.push_all(b"\n")
}
