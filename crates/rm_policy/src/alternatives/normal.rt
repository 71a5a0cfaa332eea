//! Normal form: WS-Policy 1.5, section 4.1.
ghost use Rattle.std.specs.Prelude.{◌≡◌, ◌≤◌, ◌<◌, length, map, true, ◌||◌, ◌==◌, IfOk, IfErr, IfSome, IfNone, OnOk};
ghost use Rattle.std.specs.BTreeSet.{insert_key};
ghost use Rattle.std.specs.Int.{bit_at};
ghost use Rattle.std.specs.List.{insert as inserted};
ghost use Rattle.rm_policy.specs.Alternatives.Answers.{Normalises};
ghost use Rattle.rm_policy.specs.Alternatives.Limits.{most_terms};
ghost use Rattle.rm_policy.specs.Alternatives.Listed.{ListedSoFar, mask_cmp, order_step};
ghost use Rattle.rm_policy.specs.Alternatives.Masks.{HasNoTermList, IsTermList, has_mask, picked_list};
ghost use Rattle.rm_policy.specs.Alternatives.Sets.{Rises};
ghost use Rattle.rm_policy.specs.Alternatives.Terms.{term_cmp};
ghost use Rattle.rm_policy.specs.Alternatives.Tree.{policy_view};

use crate::alternatives::combine::masks_of;
use crate::alternatives::error::WspError;
use crate::alternatives::gather::gather;
use crate::alternatives::order::copy;
use crate::alternatives::policy::Policy;
use crate::alternatives::term::{Alternatives, Term, Terms};
use rm_base::Memory;
use std::alloc::Global;
use std::cmp::Ordering;

/// How many terms a policy may have.
const TERMS: usize = 64;

/// The alternatives of a policy: the rising list of exactly the sets that it admits. TooManyTerms comes exactly where
/// the policy has more than 64 different terms, with how many; TooManyAlternatives exactly where it hasn't and some
/// operator of the tree, over some of its first policies, has more than 256 alternatives.
pub fn normalise(alloc: Global, policy: &Policy) -> Result<Alternatives, WspError>
    ensures { Normalises (policy_view policy.now) result }
{
    let terms = terms_of(alloc, policy)?;
    let listed = terms.as_slice();
    let masks = masks_of(alloc, policy, listed)?;
    let ordered = ordered(alloc, listed, masks.as_slice())?;
    let lists = lists_of(alloc, listed, ordered.as_slice())?;
    Ok(lists)
}

// The terms of a policy, which are not too many.
fn terms_of(alloc: Global, policy: &Policy) -> Result<Vec<Term>, WspError>
    ensures ok { IfOk result (λ terms. IsTermList (policy_view policy.now) terms.items) }
    ensures err { IfErr result (HasNoTermList (policy_view policy.now)) }
{
    let mut terms = Vec::new(alloc);
    gather(policy, &mut terms)?;
    let listed = terms.as_slice();
    if listed.len() > TERMS {
        return Err(WspError::TooManyTerms {
            count: listed.len() as u64,
        });
    }
    Ok(terms)
}

// The masks in the order of their alternatives.
fn ordered(alloc: Global, terms: &[Term], masks: &[u64]) -> Result<Vec<u64>, Memory>
    requires few { length terms.now ≤ most_terms }
    requires rises { Rises term_cmp terms.now }
    ensures { IfOk result (λ ordered. ListedSoFar terms.now (λ m. has_mask masks.now m ≡ true)
        (map (picked_list 0 terms.now) ordered.items)) }
{
    let mut ordered = Vec::new(alloc);
    for mask in masks {
        insert(&mut ordered, terms, *mask)?;
    }
    Ok(ordered)
}

fn insert(ordered: &mut Vec<u64>, terms: &[Term], mask: u64) -> Result<(), Memory>
    requires few { length terms.now ≤ most_terms }
    requires rises { Rises term_cmp terms.now }
    ensures { OnOk result (ordered.new.items ≡ insert_key (mask_cmp terms.now) ordered.old.items mask) }
{
    let Some(place) = place_in(ordered.as_slice(), terms, mask) else {
        return Ok(());
    };
    ordered.insert(place, mask)?;
    Ok(())
}

// Where a mask is to stand, or nothing where its alternative stands already.
fn place_in(ordered: &[u64], terms: &[Term], mask: u64) -> Option<usize>
    requires few { length terms.now ≤ most_terms }
    requires rises { Rises term_cmp terms.now }
    ensures within { IfSome result (λ i. i ≤ length ordered.now) }
    ensures place { IfSome result (λ i.
        insert_key (mask_cmp terms.now) ordered.now mask ≡ inserted ordered.now i mask) }
    ensures none { IfNone result (insert_key (mask_cmp terms.now) ordered.now mask ≡ ordered.now) }
{
    for (i, one) in ordered.iter().enumerate() {
        match compare_masks(terms, mask, *one) {
            Ordering::Less => return Some(i),
            Ordering::Equal => return None,
            Ordering::Greater => {}
        }
    }
    Some(ordered.len())
}

// How the alternatives of two masks are ordered. No names are compared: the terms rise.
fn compare_masks(terms: &[Term], one: u64, other: u64) -> Ordering
    requires few { length terms.now ≤ most_terms }
    requires rises { Rises term_cmp terms.now }
    ensures { result ≡ mask_cmp terms.now one other }
{
    let mut order = Ordering::Equal;
    let mut some = false;
    let mut other_some = false;
    let mut i = terms.len();
    while i > 0 {
        i -= 1;
        let has = has_term(one, i);
        let other_has = has_term(other, i);
        order = step(has, other_has, some, other_some, order);
        some = any(some, has);
        other_some = any(other_some, other_has);
    }
    order
}

// How two lists of terms are ordered that may have a term more before all that they have, by whether they have it,
// whether they have any behind it, and how these are ordered.
fn step(has: bool, other_has: bool, some: bool, other_some: bool, order: Ordering) -> Ordering
    ensures { result ≡ order_step has other_has some other_some order }
{
    match (has, other_has) {
        (true, false) => {
            if other_some {
                Ordering::Less
            } else {
                Ordering::Greater
            }
        }
        (false, true) => {
            if some {
                Ordering::Greater
            } else {
                Ordering::Less
            }
        }
        _ => order,
    }
}

// Whether a mask has the term at a place.
fn has_term(mask: u64, place: usize) -> bool
    requires { place < most_terms }
    ensures { result ≡ (bit_at mask place == 1) }
{
    (mask >> place) & 1 == 1
}

fn any(one: bool, other: bool) -> bool
    ensures { result ≡ (one || other) }
{
    one || other
}

// The alternatives of masks.
fn lists_of(alloc: Global, terms: &[Term], masks: &[u64]) -> Result<Alternatives, Memory>
    requires { length terms.now ≤ most_terms }
    ensures { IfOk result (λ lists. lists ≡ map (picked_list 0 terms.now) masks.now) }
{
    let mut lists = Alternatives::new(alloc);
    for mask in masks {
        lists.push(list_of(alloc, terms, *mask)?)?;
    }
    Ok(lists)
}

// The terms whose bits are set, in order.
fn list_of(alloc: Global, terms: &[Term], mask: u64) -> Result<Terms, Memory>
    requires { length terms.now ≤ most_terms }
    ensures { IfOk result (λ l. l ≡ picked_list 0 terms.now mask) }
{
    let mut list = Terms::new(alloc);
    for (i, term) in terms.iter().enumerate() {
        if has_term(mask, i) {
            list.push(copy(term)?)?;
        }
    }
    Ok(list)
}
