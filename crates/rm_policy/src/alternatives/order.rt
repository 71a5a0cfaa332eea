//! The order of terms, and lists of terms that rise.
ghost use Rattle.std.specs.Prelude.{◌≡◌, length, IfOk, OnOk};
ghost use Rattle.std.specs.BTreeSet.{insert_key};
ghost use Rattle.std.specs.Cmp.Lexicographic.{slice_cmp};
ghost use Rattle.std.specs.List.Sorted.{IsBinarySearchResult, IsSearchInRange};
ghost use Rattle.std.specs.Ordering.{nat_cmp, ordering_then};
ghost use Rattle.rm_policy.specs.Alternatives.Sets.{Rises, list_cmp};
ghost use Rattle.rm_policy.specs.Alternatives.Terms.{term_cmp, assurance_place, bool_place};

use crate::Assurance;
use crate::alternatives::term::Term;
use rm_base::Memory;
use soap_document::profile::Name;
use std::cmp::Ordering;

/// The order of terms.
pub(crate) fn compare(one: &Term, other: &Term) -> Ordering
    ensures { result ≡ term_cmp one.now other.now }
{
    match (one, other) {
        (Term::Rm(a, b), Term::Rm(c, d)) => compare_rm(*a, *b, *c, *d),
        (Term::Rm(_, _), Term::Other(_)) => Ordering::Less,
        (Term::Other(_), Term::Rm(_, _)) => Ordering::Greater,
        (Term::Other(a), Term::Other(b)) => compare_names(a, b),
    }
}

fn compare_rm(a: Assurance, b: bool, c: Assurance, d: bool) -> Ordering
    ensures { result ≡ ordering_then (nat_cmp (assurance_place a) (assurance_place c))
        (nat_cmp (bool_place b) (bool_place d)) }
{
    match place(a).cmp(&place(c)) {
        Ordering::Equal => u8::from(b).cmp(&u8::from(d)),
        other => other,
    }
}

fn place(assurance: Assurance) -> u8
    ensures { result ≡ assurance_place assurance }
{
    match assurance {
        Assurance::Unsaid => 0,
        Assurance::ExactlyOnce => 1,
        Assurance::AtLeastOnce => 2,
        Assurance::AtMostOnce => 3,
    }
}

fn compare_names(a: &Name, b: &Name) -> Ordering
    ensures { result ≡ ordering_then (slice_cmp nat_cmp a.now.space b.now.space)
        (slice_cmp nat_cmp a.now.local b.now.local) }
{
    match a.space().cmp(b.space()) {
        Ordering::Equal => a.local().cmp(b.local()),
        other => other,
    }
}

/// The order of alternatives.
pub(crate) fn compare_lists(one: &[Term], other: &[Term]) -> Ordering
    ensures { result ≡ list_cmp one.now other.now }
{
    for (i, first) in one.iter().enumerate() {
        let Some(second) = other.get(i) else {
            return Ordering::Greater;
        };
        match compare(first, second) {
            Ordering::Equal => {}
            answer => return answer,
        }
    }
    if one.len() < other.len() {
        Ordering::Less
    } else {
        Ordering::Equal
    }
}

/// The same term again.
pub(crate) fn copy(term: &Term) -> Result<Term, Memory>
    ensures { IfOk result (λ t. t ≡ term.now) }
{
    Ok(match term {
        Term::Rm(assurance, in_order) => Term::Rm(*assurance, *in_order),
        Term::Other(name) => Term::Other(name.share()?),
    })
}

/// Where a term stands among terms that rise, or where it is to stand.
pub(crate) fn search(terms: &[Term], term: &Term) -> Result<usize, usize>
    ensures within { IsSearchInRange result (length terms.now) }
    ensures found { IsBinarySearchResult (λ t. term_cmp t term.now) terms.now result }
{
    terms.binary_search_by(
        |one: &Term| -> Ordering
            ensures { result ≡ term_cmp one.now term.entry.now }
        { compare(one, term) },
    )
}

/// Puts a term to others that rise, at its place, unless it is there.
pub(crate) fn insert(terms: &mut Vec<Term>, term: &Term) -> Result<(), Memory>
    ensures { OnOk result (Rises term_cmp terms.old.items
        → terms.new.items ≡ insert_key term_cmp terms.old.items term.now) }
{
    let Err(place) = search(terms.as_slice(), term) else {
        return Ok(());
    };
    let term = copy(term)?;
    terms.insert(place, term)?;
    Ok(())
}
