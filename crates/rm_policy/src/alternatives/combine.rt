//! The alternatives of a policy as masks: WS-Policy 1.5, section 4.3.
ghost use Rattle.std.specs.Prelude.{◌≡◌, ◌<◌, ◌≤◌, ◌^◌, length, false, IfSome, slice_index_or, None};
ghost use Rattle.std.specs.Ordering.{nat_cmp};
ghost use Rattle.rm_policy.specs.Alternatives.Limits.{most_alternatives, most_terms};
ghost use Rattle.rm_policy.specs.Alternatives.Masks.{AreListed, AreTermsApart, Gathers, GathersAnswer, MasksAnswer};
ghost use Rattle.rm_policy.specs.Alternatives.Masks.{OfBoth, OfEither, is_listed};
ghost use Rattle.rm_policy.specs.Alternatives.Sets.{Rises};
ghost use Rattle.rm_policy.specs.Alternatives.Terms.{term_cmp};
ghost use Rattle.rm_policy.specs.Alternatives.Tree.{policy_view, policies_view, all, exactly_one, assertion};
ghost use Rattle.rm_policy.specs.declared.alternatives.term.Term.{Term as ATerm};

use crate::alternatives::error::WspError;
use crate::alternatives::masks::Masks;
use crate::alternatives::order::search;
use crate::alternatives::policy::Policy;
use crate::alternatives::term::Term;
use std::alloc::Global;

// The masks of either list.
fn either(masks: &mut Masks, other: &[u64]) -> Result<(), WspError>
    ensures { length masks.old ≤ most_alternatives → Rises nat_cmp masks.old
        → Gathers (OfEither masks.old other.now) masks.new result }
{
    for mask in other {
        masks.add(*mask)?;
    }
    Ok(())
}

// What a mask of each list makes together.
fn together(alloc: Global, one: &[u64], other: &[u64]) -> Result<Masks, WspError>
    ensures { GathersAnswer (OfBoth one.now other.now) result }
{
    let mut masks = Masks::new(alloc);
    for first in one {
        for second in other {
            masks.add(*first | *second)?;
        }
    }
    Ok(masks)
}

/// The masks of exactly the sets that a policy admits, where each of its terms is listed.
#[cycle(masks)]
pub(crate) fn masks_of(alloc: Global, policy: &Policy, terms: &[Term]) -> Result<Masks, WspError>
    requires few { length terms.now ≤ most_terms }
    requires rises { Rises term_cmp terms.now }
    ensures { AreListed terms.now (policy_view policy.now) → MasksAnswer terms.now (policy_view policy.now) result }
{
    match policy {
        Policy::Assert(term, optional) => masks_of_term(alloc, term, *optional, terms),
        Policy::ExactlyOne(policies) => masks_of_one(alloc, policies.items.as_slice(), terms),
        Policy::All(policies) => masks_of_all(alloc, policies.items.as_slice(), terms),
    }
}

#[cycle(masks)]
fn masks_of_one(alloc: Global, policies: &[Policy], terms: &[Term]) -> Result<Masks, WspError>
    requires few { length terms.now ≤ most_terms }
    requires rises { Rises term_cmp terms.now }
    ensures { AreListed terms.now (exactly_one (policies_view policies.now))
        → MasksAnswer terms.now (exactly_one (policies_view policies.now)) result }
{
    let mut masks = Masks::new(alloc);
    for policy in policies {
        let more = masks_of(alloc, policy, terms)?;
        either(&mut masks, more.as_slice())?;
    }
    Ok(masks)
}

#[cycle(masks)]
fn masks_of_all(alloc: Global, policies: &[Policy], terms: &[Term]) -> Result<Masks, WspError>
    requires few { length terms.now ≤ most_terms }
    requires rises { Rises term_cmp terms.now }
    ensures { AreListed terms.now (all (policies_view policies.now))
        → MasksAnswer terms.now (all (policies_view policies.now)) result }
{
    let none = Masks::one(alloc, 0)?;
    let mut masks = none;
    for policy in policies {
        let more = masks_of(alloc, policy, terms)?;
        masks = together(alloc, masks.as_slice(), more.as_slice())?;
    }
    Ok(masks)
}

fn masks_of_term(
    alloc: Global,
    term: &Term,
    optional: bool,
    terms: &[Term],
) -> Result<Masks, WspError>
    requires few { length terms.now ≤ most_terms }
    requires rises { Rises term_cmp terms.now }
    ensures { AreListed terms.now (assertion term.now optional)
        → MasksAnswer terms.now (assertion term.now optional) result }
{
    let Some(place) = place_of(terms, term) else {
        return Ok(Masks::new(alloc));
    };
    if optional {
        return Ok(Masks::none_and(alloc, bit(place))?);
    }
    Ok(Masks::one(alloc, bit(place))?)
}

// The mask of one place.
fn bit(place: usize) -> u64
    requires { place < most_terms }
    ensures { result ≡ 2 ^ place }
{
    1 << place
}

// Where a term is listed.
fn place_of(terms: &[Term], term: &Term) -> Option<usize>
    requires { Rises term_cmp terms.now }
    ensures within { IfSome result (λ i. i < length terms.now) }
    ensures found { IfSome result (λ i. (d : ATerm) → slice_index_or terms.now i d ≡ term.now) }
    ensures none { result ≡ None → is_listed terms.now term.now ≡ false }
{
    match search(terms, term) {
        Ok(place) => Some(place),
        Err(_) => None,
    }
}
