//! Assertions from bytes and from trees: WS-RM Policy 1.2, section 2.
ghost use Rattle.std.specs.Prelude.{◌≡◌, option_map, IfOk, IfSome};
ghost use Rattle.soap_document.specs.Profile.View.{element_view, attrs_view};
ghost use Rattle.rm_policy.specs.Assertion.{
  truth_of,
  optional_in,
  delivery_in,
  delivery_of,
  said_by,
  said_or_unsaid,
  assertion_in,
  security_in,
  assertion_of,
  IsOrdered,
  IsWritable,
};
ghost use Rattle.rm_policy.specs.Reading.{Answers, Reads};

use crate::assertion::{Assertion, Assurance};
use crate::content::{find_first, find_optional, find_single, holds_only};
use crate::error::PolicyError;
use crate::word::{ASSERTION, OLDER_POLICY, POLICY, Word, assurance_named};
use rm_base::Blob;
use soap_document::profile::{Element, Item, read_element};
use soap_writer::values::{find_value, is_named, is_true_mark, trim};
use std::alloc::Global;

// What an assertion says of deliveries.
#[derive(Clone, Copy, Debug)]
struct Delivery {
    assurance: Assurance,
    in_order: bool,
}

/// The assertion that a document is.
/// - TooLong, NotUtf8, NotProfile: in Envelope: exactly with the first cause that the bytes are no document; no other
///   comes in Envelope (`reads`).
/// - Malformed, SecurityUnsupported: exactly where they are a document whose root is read so (`reads`). Malformed comes
///   whether or not security is asked for; SecurityUnsupported has the local name of the first element that asks for
///   it.
/// - `writable`: InOrder is read only beside an assurance.
pub fn read_assertion(alloc: Global, bytes: &[u8]) -> Result<Assertion, PolicyError>
    ensures reads { Reads bytes.now result }
    ensures writable { IfOk result IsWritable }
{
    let root = read_element(alloc, bytes)?;
    read_assertion_element(alloc, &root)
}

/// The assertion that an element is. It answers no `Envelope`.
/// - Malformed, SecurityUnsupported: exactly where the element is read so; no other answer but Memory comes
///   (`answers`).
pub fn read_assertion_element(alloc: Global, element: &Element) -> Result<Assertion, PolicyError>
    ensures answers { Answers result (assertion_of (element_view element.now)) }
    ensures writable { IfOk result IsWritable }
{
    let Some(assertion) = read_form(element) else {
        return Err(PolicyError::Malformed);
    };
    match find_security(element) {
        Some(first) => Err(PolicyError::SecurityUnsupported {
            name: Blob::from_slice(alloc, first.name.local())?,
        }),
        None => Ok(assertion),
    }
}

/// What an assertion says, whether or not it asks for security. It takes no memory.
#[tactic(auto, unfolding(crate::specs::Assertion::assertion_in))]
pub fn read_form(element: &Element) -> Option<Assertion>
    ensures form { result ≡ assertion_in (element_view element.now) }
    ensures writable { IfSome result IsWritable }
{
    if !is_named(&element.name, ASSERTION, b"RMAssertion") {
        return None;
    }
    let items = element.items.as_slice();
    let optional = read_optional(items)?;
    if !holds_only(items, &[Word::Policy]) {
        return None;
    }
    let Delivery {
        assurance,
        in_order,
    } = read_found(find_optional(items, Word::Policy)?)?;
    Some(Assertion {
        assurance,
        in_order,
        optional,
    })
}

/// Whether Optional of either namespace is set, and None where it is no truth value: WS-Policy 1.5, section 4.3.1. It
/// takes no memory.
#[tactic(auto, unfolding(crate::specs::Assertion::optional_in))]
pub fn read_optional(items: &[Item]) -> Option<bool>
    ensures { result ≡ optional_in (attrs_view items.now) }
{
    let is_optional = read_truth(find_value(items, POLICY, b"Optional"))?;
    let was_optional = read_truth(find_value(items, OLDER_POLICY, b"Optional"))?;
    Some(is_optional || was_optional)
}

fn read_truth(value: Option<&[u8]>) -> Option<bool>
    ensures { result ≡ truth_of (option_map (λ v. v.now) value.entry) }
{
    let Some(bytes) = value else {
        return Some(false);
    };
    if is_true_mark(bytes) {
        return Some(true);
    }
    let mark = trim(bytes);
    if mark == b"false".as_slice() || mark == b"0".as_slice() {
        return Some(false);
    }
    None
}

fn read_found(policy: Option<&Element>) -> Option<Delivery>
    ensures says { result ≡ said_or_unsaid said_by (option_map (λ e. element_view e.now) policy.entry) }
    ensures ordered { IfSome result (λ d. IsOrdered d.assurance d.in_order) }
{
    match policy {
        Some(policy) => read_policy(policy),
        None => Some(UNSAID),
    }
}

const UNSAID: Delivery = Delivery {
    assurance: Assurance::Unsaid,
    in_order: false,
};

// The Policy of an assertion.
#[tactic(auto, unfolding(crate::specs::Assertion::said_by))]
fn read_policy(policy: &Element) -> Option<Delivery>
    ensures says { result ≡ said_by (element_view policy.now) }
    ensures ordered { IfSome result (λ d. IsOrdered d.assurance d.in_order) }
{
    let items = policy.items.as_slice();
    if !holds_only(items, &[Word::DeliveryAssurance, Word::Security]) {
        return None;
    }
    match find_optional(items, Word::DeliveryAssurance)? {
        Some(element) => read_delivery(element),
        None => Some(UNSAID),
    }
}

// A DeliveryAssurance.
#[tactic(auto, unfolding(crate::specs::Assertion::delivery_of))]
fn read_delivery(element: &Element) -> Option<Delivery>
    ensures says { result ≡ delivery_of (element_view element.now) }
    ensures ordered { IfSome result (λ d. IsOrdered d.assurance d.in_order) }
{
    let items = element.items.as_slice();
    if !holds_only(items, &[Word::Policy]) {
        return None;
    }
    read_qualities(find_single(items, Word::Policy)?)
}

// The Policy of a DeliveryAssurance.
#[tactic(auto, unfolding(crate::specs::Assertion::delivery_in))]
fn read_qualities(policy: &Element) -> Option<Delivery>
    ensures says { result ≡ delivery_in (element_view policy.now) }
    ensures ordered { IfSome result (λ d. IsOrdered d.assurance d.in_order) }
{
    let items = policy.items.as_slice();
    if !holds_only(items, &[Word::Assurance, Word::InOrder]) {
        return None;
    }
    let element = find_single(items, Word::Assurance)?;
    let assurance = assurance_named(&element.name)?;
    let order = find_optional(items, Word::InOrder)?;
    Some(Delivery {
        assurance,
        in_order: order.is_some(),
    })
}

/// The first element of the assertion's Policy that asks for security of sequences. It takes no memory.
pub fn find_security(element: &Element) -> Option<&Element>
    ensures { option_map (λ e. element_view e.now) result ≡ security_in (element_view element.now) }
{
    let policy = find_first(element.items.as_slice(), Word::Policy)?;
    find_first(policy.items.as_slice(), Word::Security)
}
