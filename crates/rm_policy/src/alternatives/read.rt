//! Policies and pairs of policies from bytes.
ghost use Rattle.std.specs.Prelude.{◌≡◌, ◌∷◌, [], ℕ, IfOk, Some, option_map};
ghost use Rattle.soap_document.specs.Profile.Payload.{is_white_outside};
ghost use Rattle.soap_document.specs.Profile.Tree.{children_of as children_among};
ghost use Rattle.soap_document.specs.Profile.View.{element_view, parts_view};
ghost use Rattle.soap_writer.specs.Values.Outcome.{Gives};
ghost use Rattle.soap_writer.specs.Values.Steps.{lent_trees};
ghost use Rattle.rm_policy.specs.Alternatives.Reading.{
  Answers,
  Reads,
  counted,
  judged,
  pair_in,
  pair_of,
  policy_of,
  root_in,
};
ghost use Rattle.rm_policy.specs.Alternatives.Tree.{policy_view, pair_view};

use crate::alternatives::error::WspError;
use crate::alternatives::kind::is_word;
use crate::alternatives::policy::Policy;
use crate::alternatives::tree::{count_elements, find_asked, find_asked_among, read_tree};
use rm_base::{Blob, Memory};
use soap_document::is_white;
use soap_document::profile::{Element, Item, read_element};
use soap_writer::values::{Flaw, is_named};
use std::alloc::Global;

/// How many elements a document may have.
const ELEMENTS: u64 = 4096;

/// The policy that a document is. TooLong, NotUtf8 and NotProfile (in Envelope) come exactly with the first cause that
/// the bytes are no document; Malformed, SecurityUnsupported and TooLarge exactly where the tree is read so, the first
/// that holds.
pub fn read_policy(alloc: Global, bytes: &[u8]) -> Result<Policy, WspError>
    ensures { Reads policy_of policy_view bytes.now result }
{
    let root = read_element(alloc, bytes)?;
    policy_at(alloc, &root)
}

/// The two policies of a document that is a pair. The refusals are those of `read_policy`, by the tree of the pair.
pub fn read_pair(alloc: Global, bytes: &[u8]) -> Result<(Policy, Policy), WspError>
    ensures { Reads pair_of pair_view bytes.now result }
{
    let root = read_element(alloc, bytes)?;
    pair_at(alloc, &root)
}

fn policy_at(alloc: Global, root: &Element) -> Result<Policy, WspError>
    ensures { Answers policy_view result (policy_of (element_view root.now)) }
{
    let policy = read_root(alloc, root)?;
    check(alloc, find_asked(root), count_elements(root))?;
    Ok(policy)
}

fn pair_at(alloc: Global, root: &Element) -> Result<(Policy, Policy), WspError>
    ensures { Answers pair_view result (pair_of (element_view root.now)) }
{
    let pair = read_two(alloc, root)?;
    check(
        alloc,
        find_asked_among(root.items.as_slice()),
        count_elements(root),
    )?;
    Ok(pair)
}

// A policy that stands as the root of a document does.
fn read_root(alloc: Global, element: &Element) -> Result<Policy, Flaw>
    ensures { Gives policy_view result (root_in (element_view element.now)) }
{
    if !is_word(&element.name, b"Policy") {
        return Err(Flaw::Malformed);
    }
    read_tree(alloc, element)
}

// The two policies of a pair.
fn read_two(alloc: Global, element: &Element) -> Result<(Policy, Policy), Flaw>
    ensures { Gives pair_view result (pair_in (element_view element.now)) }
{
    let items = element.items.as_slice();
    if !is_named(&element.name, b"", b"pair") || !is_white_beside(items) {
        return Err(Flaw::Malformed);
    }
    let children = children_of(alloc, items)?;
    let [first, second] = children.as_slice() else {
        return Err(Flaw::Malformed);
    };
    let one = read_root(alloc, first)?;
    let other = read_root(alloc, second)?;
    Ok((one, other))
}

// Whether no text but white space stands beside the elements.
#[tactic(auto, using(crate::proofs::AlternativesLemmas::ReadLemmas::white_more))]
fn is_white_beside(items: &[Item]) -> bool
    ensures { result ≡ is_white_outside (parts_view items.now) }
{
    for item in items {
        if !is_white_item(item) {
            return false;
        }
    }
    true
}

fn is_white_item(item: &Item) -> bool
    ensures { result ≡ is_white_outside (parts_view (item.now ∷ [])) }
{
    match item {
        Item::Text(bytes) => is_white(bytes.as_slice()),
        _ => true,
    }
}

// The elements in content, in order.
#[tactic(auto, using(crate::proofs::AlternativesLemmas::ReadLemmas::children_more))]
fn children_of(alloc: Global, items: &[Item]) -> Result<Vec<&Element>, Memory>
    ensures { IfOk result (λ v. lent_trees v.items ≡ children_among (parts_view items.now)) }
{
    let mut children = Vec::new(alloc);
    for item in items {
        if let Item::Child(child) = item {
            children.push(child)?;
        }
    }
    Ok(children)
}

// Whether what was read is not refused for what it asks, or for how many elements it has.
fn check(alloc: Global, asked: Option<&Element>, elements: u64) -> Result<(), WspError>
    ensures { (n : ℕ) → elements ≡ counted n
        → Answers (λ u. u) result (judged (Some tt) (option_map (λ e. element_view e.now) asked.entry) n) }
{
    if let Some(first) = asked {
        return Err(WspError::SecurityUnsupported {
            name: Blob::from_slice(alloc, first.name.local())?,
        });
    }
    if elements > ELEMENTS {
        return Err(WspError::TooLarge { elements });
    }
    Ok(())
}
