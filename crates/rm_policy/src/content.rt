//! What stands in the elements of an assertion.
ghost use Rattle.std.specs.Prelude.{◌≡◌, ◌∷◌, [], option_map};
ghost use Rattle.soap_document.specs.Profile.View.{element_view, parts_view};
ghost use Rattle.soap_writer.specs.Values.Outcome.{optional, single};
ghost use Rattle.soap_writer.specs.Values.Steps.{listed};
ghost use Rattle.rm_policy.specs.Content.{children_as, first_of, holds_only as holds_only_in};

use crate::word::{Word, is_called, is_one_of, is_ours};
use soap_document::is_white;
use soap_document::profile::{Element, Item};

/// Whether content holds nothing but such elements, elements of other namespaces, and white space.
#[tactic(auto, using(crate::proofs::Items::holds_only_more))]
pub(crate) fn holds_only(items: &[Item], words: &[Word]) -> bool
    ensures { result ≡ holds_only_in words.now (parts_view items.now) }
{
    for item in items {
        if !may_stand(item, words) {
            return false;
        }
    }
    true
}

fn may_stand(item: &Item, words: &[Word]) -> bool
    ensures { result ≡ holds_only_in words.now (parts_view (item.now ∷ [])) }
{
    match item {
        Item::Text(bytes) => is_white(bytes.as_slice()),
        Item::Child(child) => is_one_of(&child.name, words) || !is_ours(&child.name),
        _ => true,
    }
}

// The item, where it is such a child.
fn child_as<'a>(item: &'a Item, word: Word) -> Option<&'a Element>
    ensures { listed result ≡ children_as word (parts_view (item.now ∷ [])) }
{
    match item {
        Item::Child(child) if is_called(&child.name, word) => Some(child),
        _ => None,
    }
}

/// The first child that is such an element.
#[tactic(auto, using(crate::proofs::Items::children_more))]
pub(crate) fn find_first<'a>(items: &'a [Item], word: Word) -> Option<&'a Element>
    ensures { option_map (λ e. element_view e.now) result ≡ first_of (children_as word (parts_view items.now)) }
{
    for item in items {
        if let Some(child) = child_as(item, word) {
            return Some(child);
        }
    }
    None
}

/// The child that is such an element, if there is one, and None where there are two.
#[tactic(auto, using(crate::proofs::Items::children_more))]
pub(crate) fn find_optional<'a>(items: &'a [Item], word: Word) -> Option<Option<&'a Element>>
    ensures { option_map (λ found. option_map (λ e. element_view e.now) found) result
        ≡ optional (children_as word (parts_view items.now)) }
{
    let mut found = None;
    for item in items {
        if let Some(child) = child_as(item, word) {
            if found.is_some() {
                return None;
            }
            found = Some(child);
        }
    }
    Some(found)
}

/// The one child that is such an element, and None where there is none, or two.
pub(crate) fn find_single<'a>(items: &'a [Item], word: Word) -> Option<&'a Element>
    ensures { option_map (λ e. element_view e.now) result ≡ single (children_as word (parts_view items.now)) }
{
    find_optional(items, word)?
}
