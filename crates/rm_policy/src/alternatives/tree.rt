//! Policies from trees: WS-Policy 1.5, section 4.3.
ghost use Rattle.std.specs.Prelude.{◌≡◌, ◌∷◌, [], OnOk, option_map};
ghost use Rattle.soap_document.specs.Profile.View.{element_view, parts_view};
ghost use Rattle.soap_writer.specs.Values.Outcome.{Gives};
ghost use Rattle.rm_policy.specs.Alternatives.Reading.{
  asked_in,
  asked_among,
  count_in,
  count_among,
  counted,
  is_childless as has_no_child,
  other_in,
  policy_in,
  policies_in,
  reliable_in,
};
ghost use Rattle.rm_policy.specs.Alternatives.Tree.{policy_view, policies_view, policies_found, put_to};

use crate::alternatives::kind::{Kind, kind_of};
use crate::alternatives::policy::{Policies, Policy};
use crate::alternatives::term::Term;
use crate::{find_security, read_form, read_optional};
use rm_base::Memory;
use soap_document::is_white;
use soap_document::profile::{Element, Item};
use soap_writer::values::Flaw;
use std::alloc::Global;

/// The policy that an element is, whether or not an assertion in it asks for security.
#[cycle(reading)]
pub(crate) fn read_tree(alloc: Global, element: &Element) -> Result<Policy, Flaw>
    ensures { Gives policy_view result (policy_in (element_view element.now)) }
{
    match kind_of(&element.name) {
        Kind::All => Ok(Policy::All(read_each(alloc, element.items.as_slice())?)),
        Kind::ExactlyOne => Ok(Policy::ExactlyOne(read_each(alloc, element.items.as_slice())?)),
        Kind::Reliable => read_reliable(element),
        Kind::Other => read_other(element),
        Kind::Nothing => Err(Flaw::Malformed),
    }
}

#[cycle(reading)]
#[tactic(auto, using(crate::proofs::AlternativesLemmas::ReadLemmas::policies_more))]
fn read_each(alloc: Global, items: &[Item]) -> Result<Policies, Flaw>
    ensures { Gives (λ ps. policies_view ps.items.items) result (policies_in (parts_view items.now)) }
{
    let mut policies = Vec::new(alloc);
    for item in items {
        let found = read_item(alloc, item)?;
        put(&mut policies, found)?;
    }
    Ok(Policies { items: policies })
}

// Puts a policy behind others, where there is one.
fn put(policies: &mut Vec<Policy>, found: Option<Policy>) -> Result<(), Memory>
    ensures { OnOk result (policies.new.items ≡ put_to found policies.old.items) }
{
    match found {
        Some(policy) => {
            policies.push(policy)?;
            Ok(())
        }
        None => Ok(()),
    }
}

// The policy that an item is, where it isn't passed over.
#[cycle(reading)]
fn read_item(alloc: Global, item: &Item) -> Result<Option<Policy>, Flaw>
    ensures { Gives policies_found result (policies_in (parts_view (item.now ∷ []))) }
{
    match item {
        Item::Text(bytes) if !is_white(bytes.as_slice()) => Err(Flaw::Malformed),
        Item::Child(child) => Ok(Some(read_tree(alloc, child)?)),
        _ => Ok(None),
    }
}

fn read_reliable(element: &Element) -> Result<Policy, Flaw>
    ensures { Gives policy_view result (reliable_in (element_view element.now)) }
{
    let Some(assertion) = read_form(element) else {
        return Err(Flaw::Malformed);
    };
    Ok(Policy::Assert(
        Term::Rm(assertion.assurance, assertion.in_order),
        assertion.optional,
    ))
}

fn read_other(element: &Element) -> Result<Policy, Flaw>
    ensures { Gives policy_view result (other_in (element_view element.now)) }
{
    let items = element.items.as_slice();
    if !is_childless(items) {
        return Err(Flaw::Malformed);
    }
    let Some(optional) = read_optional(items) else {
        return Err(Flaw::Malformed);
    };
    Ok(Policy::Assert(Term::Other(element.name.share()?), optional))
}

#[tactic(auto, using(crate::proofs::AlternativesLemmas::ReadLemmas::childless_more))]
fn is_childless(items: &[Item]) -> bool
    ensures { result ≡ has_no_child (parts_view items.now) }
{
    for item in items {
        if let Item::Child(_) = item {
            return false;
        }
    }
    true
}

/// The first element of an assertion of reliable messaging that asks for security of sequences.
#[cycle(asking)]
pub(crate) fn find_asked(element: &Element) -> Option<&Element>
    ensures { option_map (λ e. element_view e.now) result ≡ asked_in (element_view element.now) }
{
    match kind_of(&element.name) {
        Kind::All | Kind::ExactlyOne => find_asked_among(element.items.as_slice()),
        Kind::Reliable => find_security(element),
        Kind::Other | Kind::Nothing => None,
    }
}

/// The first one in content.
#[cycle(asking)]
#[tactic(auto, using(crate::proofs::AlternativesLemmas::ReadLemmas::asked_more))]
pub(crate) fn find_asked_among(items: &[Item]) -> Option<&Element>
    ensures { option_map (λ e. element_view e.now) result ≡ asked_among (parts_view items.now) }
{
    for item in items {
        if let Some(found) = find_asked_at(item) {
            return Some(found);
        }
    }
    None
}

#[cycle(asking)]
fn find_asked_at(item: &Item) -> Option<&Element>
    ensures { option_map (λ e. element_view e.now) result ≡ asked_among (parts_view (item.now ∷ [])) }
{
    match item {
        Item::Child(child) => find_asked(child),
        _ => None,
    }
}

/// How many elements there are, the outermost counted.
#[cycle(counting)]
pub(crate) fn count_elements(element: &Element) -> u64
    ensures { result ≡ counted (count_in (element_view element.now)) }
{
    count_among(element.items.as_slice()).saturating_add(1)
}

#[cycle(counting)]
#[tactic(auto, using(crate::proofs::AlternativesLemmas::ReadLemmas::count_more))]
fn count_among(items: &[Item]) -> u64
    ensures { result ≡ counted (count_among (parts_view items.now)) }
{
    let mut count: u64 = 0;
    for item in items {
        count = count.saturating_add(count_at(item));
    }
    count
}

#[cycle(counting)]
fn count_at(item: &Item) -> u64
    ensures { result ≡ counted (count_among (parts_view (item.now ∷ []))) }
{
    match item {
        Item::Child(child) => count_elements(child),
        _ => 0,
    }
}
