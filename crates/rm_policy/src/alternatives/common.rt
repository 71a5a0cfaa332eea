//! What two policies have in common: WS-Policy 1.5, section 4.5.
ghost use Rattle.std.specs.Prelude.{◌≡◌, ◌≤◌, length, IfOk};
ghost use Rattle.std.specs.List.{list_any};
ghost use Rattle.std.specs.List.Sorted.{IsBinarySearchResult, IsSearchInRange};
ghost use Rattle.std.specs.Ordering.{eq_by_cmp};
ghost use Rattle.rm_policy.specs.Alternatives.Answers.{AddsAnswer, Intersects};
ghost use Rattle.rm_policy.specs.Alternatives.Normal.{AreAlternatives};
ghost use Rattle.rm_policy.specs.Alternatives.Sets.{Rises, list_cmp};

use crate::alternatives::error::WspError;
use crate::alternatives::masks::ALTERNATIVES;
use crate::alternatives::order::{compare_lists, copy};
use crate::alternatives::term::{Alternatives, Term, Terms};
use rm_base::Memory;
use std::alloc::Global;
use std::cmp::Ordering;

/// The unions of an alternative of either policy where these are compatible, which they are where they are equal. Of
/// lists that are no alternatives nothing is said. It is the rising list of exactly these unions. TooManyAlternatives
/// comes exactly where there are more than 256.
pub fn intersect(
    alloc: Global,
    one: &Alternatives,
    other: &Alternatives,
) -> Result<Alternatives, WspError>
    ensures { AreAlternatives one.now → AreAlternatives other.now → Intersects one.now other.now result }
{
    let mut common = Alternatives::new(alloc);
    for terms in one.as_slice() {
        if is_among(terms, other.as_slice()) {
            add(alloc, &mut common, terms)?;
        }
    }
    Ok(common)
}

// Whether an alternative is among others.
fn is_among(terms: &Terms, others: &[Terms]) -> bool
    ensures { Rises list_cmp others.now → result ≡ list_any (eq_by_cmp list_cmp terms.now) others.now }
{
    match search(others, terms) {
        Ok(_) => true,
        Err(_) => false,
    }
}

fn search(lists: &[Terms], terms: &Terms) -> Result<usize, usize>
    ensures within { IsSearchInRange result (length lists.now) }
    ensures found { IsBinarySearchResult (λ l. list_cmp l terms.now) lists.now result }
{
    lists.binary_search_by(
        |one: &Terms| -> Ordering
            ensures { result ≡ list_cmp one.now terms.entry.now }
        { compare_lists(one.as_slice(), terms.as_slice()) },
    )
}

// An alternative more.
fn add(alloc: Global, common: &mut Alternatives, terms: &Terms) -> Result<(), WspError>
    ensures { AddsAnswer common.old terms.now common.new result }
{
    if common.len() >= ALTERNATIVES {
        return Err(WspError::TooManyAlternatives);
    }
    common.push(copy_terms(alloc, terms.as_slice())?)?;
    Ok(())
}

// The same terms again.
fn copy_terms(alloc: Global, terms: &[Term]) -> Result<Terms, Memory>
    ensures { IfOk result (λ copy. copy ≡ terms.now) }
{
    let mut copies = Terms::new(alloc);
    for term in terms {
        copies.push(copy(term)?)?;
    }
    Ok(copies)
}
