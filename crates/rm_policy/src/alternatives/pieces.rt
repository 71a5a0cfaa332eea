//! The text of alternatives in pieces, which take little memory however long it is. Each function appends, up to a want
//! of memory.
ghost use Rattle.std.specs.Prelude.{◌≡◌, ◌++◌, decimal, IfOk, OnOk};
ghost use Rattle.rm_policy.specs.Alternatives.Pieces.{piece_text, pieces_text};
ghost use Rattle.rm_policy.specs.Alternatives.Texts.{
  alternative_line,
  escaped,
  lines_from,
  normal_text,
  order_text,
  term_text,
  terms_text,
};

use crate::alternatives::term::{Alternatives, Term, Terms};
use rm_base::{Blob, Memory, push_decimal};
use std::alloc::Global;

/// A piece of text: a word as it stands, the digits of a number, or a part of a name, whose bytes are to be escaped.
#[derive(Debug, Drop)]
pub enum Piece<'a> {
    Word(&'a [u8]),
    Number(Blob),
    Name(&'a [u8]),
}

/// The text of alternatives.
pub fn pieces_of<'a>(
    alloc: Global,
    alternatives: &'a Alternatives,
) -> Result<Vec<Piece<'a>>, Memory>
    ensures { IfOk result (λ pieces. pieces_text pieces.items ≡ normal_text alternatives.now) }
{
    let mut pieces = Vec::new(alloc);
    push_word(&mut pieces, b"alternatives ")?;
    push_number(alloc, &mut pieces, alternatives.len() as u64)?;
    push_word(&mut pieces, b"\n")?;
    push_lines(alloc, &mut pieces, alternatives.as_slice())?;
    Ok(pieces)
}

fn push_lines<'a>(
    alloc: Global,
    pieces: &mut Vec<Piece<'a>>,
    lists: &'a [Terms],
) -> Result<(), Memory>
    ensures { OnOk result (pieces_text pieces.new.items ≡ pieces_text pieces.old.items ++ lines_from 1 lists.now) }
{
    for (i, terms) in lists.iter().enumerate() {
        push_line(alloc, pieces, i as u64 + 1, terms.as_slice())?;
    }
    Ok(())
}

fn push_line<'a>(
    alloc: Global,
    pieces: &mut Vec<Piece<'a>>,
    number: u64,
    terms: &'a [Term],
) -> Result<(), Memory>
    ensures { OnOk result (pieces_text pieces.new.items
        ≡ pieces_text pieces.old.items ++ alternative_line number terms.now) }
{
    push_word(pieces, b"alt ")?;
    push_number(alloc, pieces, number)?;
    push_word(pieces, b" ")?;
    push_terms(pieces, terms)?;
    push_word(pieces, b"\n")
}

fn push_terms<'a>(pieces: &mut Vec<Piece<'a>>, terms: &'a [Term]) -> Result<(), Memory>
    ensures { OnOk result (pieces_text pieces.new.items ≡ pieces_text pieces.old.items ++ terms_text terms.now) }
{
    let Some((first, rest)) = terms.split_first() else {
        return push_word(pieces, b"-");
    };
    push_term(pieces, first)?;
    for term in rest {
        push_word(pieces, b",")?;
        push_term(pieces, term)?;
    }
    Ok(())
}

fn push_term<'a>(pieces: &mut Vec<Piece<'a>>, term: &'a Term) -> Result<(), Memory>
    ensures { OnOk result (pieces_text pieces.new.items ≡ pieces_text pieces.old.items ++ term_text term.now) }
{
    match term {
        Term::Rm(assurance, in_order) => {
            push_word(pieces, b"rm:")?;
            push_word(pieces, assurance.word())?;
            push_word(pieces, order_word(*in_order))
        }
        Term::Other(name) => {
            push_word(pieces, b"{")?;
            push_name(pieces, name.space())?;
            push_word(pieces, b"}")?;
            push_name(pieces, name.local())
        }
    }
}

fn order_word(in_order: bool) -> &'static [u8]
    ensures { result.now ≡ order_text in_order }
{
    if in_order { b"+in-order" } else { b"" }
}

fn push_word<'a>(pieces: &mut Vec<Piece<'a>>, word: &'a [u8]) -> Result<(), Memory>
    ensures { OnOk result (pieces_text pieces.new.items ≡ pieces_text pieces.old.items ++ word.now) }
{
    push(pieces, Piece::Word(word))
}

fn push_number<'a>(alloc: Global, pieces: &mut Vec<Piece<'a>>, number: u64) -> Result<(), Memory>
    ensures { OnOk result (pieces_text pieces.new.items ≡ pieces_text pieces.old.items ++ decimal number) }
{
    let mut digits = Blob::new(alloc);
    push_decimal(&mut digits, number)?;
    push(pieces, Piece::Number(digits))
}

fn push_name<'a>(pieces: &mut Vec<Piece<'a>>, bytes: &'a [u8]) -> Result<(), Memory>
    ensures { OnOk result (pieces_text pieces.new.items ≡ pieces_text pieces.old.items ++ escaped bytes.now) }
{
    push(pieces, Piece::Name(bytes))
}

#[tactic(auto, using(crate::proofs::AlternativesLemmas::PieceLemmas::text_more))]
fn push<'a>(pieces: &mut Vec<Piece<'a>>, piece: Piece<'a>) -> Result<(), Memory>
    ensures { OnOk result (pieces_text pieces.new.items ≡ pieces_text pieces.old.items ++ piece_text piece.entry) }
{
    pieces.push(piece)?;
    Ok(())
}
