//! The summary of a report.
ghost use Rattle.std.specs.Prelude.{◌≡◌, ◌++◌, count_by, filter, decimal, IfOk, OnOk};
ghost use Rattle.std.specs.List.{flat_map};
ghost use Rattle.rm_script.specs.Lines.{ended};
ghost use Rattle.rm_script.specs.Script.{lines_of};
ghost use Rattle.rm_script.specs.Soak.Summary.{
  is_answer as is_answer_line,
  is_ok_answer as is_ok_line,
  is_other_answer as is_other_line,
  is_state as is_state_line,
  says_ok as says_ok_in,
  second_word as second_word_of,
  summary_of,
};

use crate::soak::cut::{Lines, cut};
use rm_base::{Blob, Memory, push_decimal};
use std::alloc::Global;

/// The summary of the report of the script of a number. It says how many lines of the report begin with a digit, of how
/// many of these the second word is `ok` and of how many not, and then has the lines that begin with `out`, `in` and
/// `down`.
pub fn summary(alloc: Global, number: u64, report: &[u8]) -> Result<Blob, Memory>
    ensures { IfOk result (λ summary. summary ≡ summary_of number report.now) }
{
    let mut out = Blob::from_slice(alloc, b"soak ")?;
    push_decimal(&mut out, number)?;
    push_count(&mut out, b" lines ", answers(report))?;
    push_count(&mut out, b" ok ", ok_answers(report))?;
    push_count(&mut out, b" other ", other_answers(report))?;
    out.push_all(b"\n")?;
    push_states(&mut out, report)?;
    Ok(out)
}

fn push_count(out: &mut Blob, word: &[u8], count: usize) -> Result<(), Memory>
    ensures { OnOk result (out.new ≡ out.old ++ (word.now ++ decimal count)) }
{
    out.push_all(word)?;
    push_decimal(out, count as u64)
}

// How many lines answer a line of the script.
fn answers(report: &[u8]) -> usize
    ensures { result ≡ count_by is_answer_line (lines_of report.now) }
{
    Lines { rest: report }
        .filter(|line| is_answer(line))
        .count()
}

// And how many of these are ok.
fn ok_answers(report: &[u8]) -> usize
    ensures { result ≡ count_by is_ok_line (lines_of report.now) }
{
    Lines { rest: report }
        .filter(|line| is_answer(line) && says_ok(line))
        .count()
}

// And how many are not.
fn other_answers(report: &[u8]) -> usize
    ensures { result ≡ count_by is_other_line (lines_of report.now) }
{
    Lines { rest: report }
        .filter(|line| is_answer(line) && !says_ok(line))
        .count()
}

// Appends the lines of what the nodes know, but for the items.
fn push_states(out: &mut Blob, report: &[u8]) -> Result<(), Memory>
    ensures { OnOk result (out.new ≡ out.old ++ flat_map ended (filter is_state_line (lines_of report.now))) }
{
    for line in (Lines { rest: report }) {
        if is_state(line) {
            out.push_all(line)?;
            out.push_all(b"\n")?;
        }
    }
    Ok(())
}

fn is_answer(line: &[u8]) -> bool
    ensures { result ≡ is_answer_line line.now }
{
    match line {
        [] => false,
        [byte, ..] => byte.is_ascii_digit(),
    }
}

fn says_ok(line: &[u8]) -> bool
    ensures { result ≡ says_ok_in line.now }
{
    second_word(line) == b"ok".as_slice()
}

fn second_word(line: &[u8]) -> &[u8]
    ensures { result.now ≡ second_word_of line.now }
{
    let (_, behind) = cut(line, b' ');
    cut(behind, b' ').0
}

fn is_state(line: &[u8]) -> bool
    ensures { result ≡ is_state_line line.now }
{
    line.starts_with(b"out ") || line.starts_with(b"in ") || line.starts_with(b"down ")
}
