//! The tree with expanded names, while a document is read.
ghost use Rattle.std.specs.Prelude.{◌≡◌, ◌+◌, [], None, Some, true, IfOk, OnOk, option_map};
ghost use Rattle.soap_document.specs.Machine.{Frame, State, nothing_open, only_child, root_of};
ghost use Rattle.soap_document.specs.Seen.{Sees};
ghost use Rattle.soap_document.specs.Profile.Opened.{lone, no_tag, rooted};
ghost use Rattle.soap_document.specs.Profile.Resolving.{Stands, open_count, opened_view, root_view};
ghost use Rattle.soap_document.specs.Profile.Steps.{join};
ghost use Rattle.soap_document.specs.Profile.Tree.{child, none};
ghost use Rattle.soap_document.specs.Profile.View.{element_view, decls_view, attrs_view, parts_view};

use crate::profile::name::Name;
use crate::profile::place::Place;
use crate::profile::scope::Scope;
use crate::profile::shared::Shared;
use crate::profile::tag::resolved_tag;
use crate::profile::tree::{Element, Item};
use crate::{Handler, Reader, WrittenAttribute};
use rm_base::{Bytes, Memory};
use std::alloc::Global;
use std::mem;

// Elements that have more keep the vector in which this was gathered.
const FEW_ITEMS: usize = 16;

// An element that is open, with its parts so far.
#[derive(Drop)]
pub(crate) struct Opened {
    element: Element,
    start: usize,
    // The place of the last element within, and of the last within that.
    last: Option<Place>,
    inner: Option<Place>,
}

impl Opened {
    // The document itself, of which nothing was read: it has no tag.
    fn untagged(alloc: Global) -> Result<Self, Memory>
        ensures { IfOk result (λ untagged. opened_view untagged ≡ record {
          tag = no_tag;
          start = 0;
          parts = none;
          last = None;
          inner = None;
        }) }
    {
        Ok(Opened {
            element: Element {
                name: Name::new(alloc, Shared::from_slice(alloc, b"")?, b"")?,
                items: Vec::new(alloc),
            },
            start: 0,
            last: None,
            inner: None,
        })
    }

    // An element becomes a part.
    fn add(&mut self, element: Element, place: Place, inner: Option<Place>) -> Result<(), Memory>
        ensures { OnOk result (opened_view self.new ≡ record (opened_view self.old) {
          parts = join (opened_view self.old).parts (child (element_view element) none);
          last = Some place;
          inner = inner;
        }) }
    {
        self.element.items.push(Item::Child(element))?;
        self.last = Some(place);
        self.inner = inner;
        Ok(())
    }
}

// The same items, in a vector with little room to spare.
fn fitted(alloc: Global, items: Vec<Item>, spare: &mut Vec<Vec<Item>>) -> Result<Vec<Item>, Memory>
    ensures { IfOk result (λ fitted. fitted.items ≡ items.items) }
{
    let mut items = items;
    if items.len() > FEW_ITEMS {
        items.shrink_to_fit();
        return Ok(items);
    }
    let mut fitted = Vec::with_capacity(alloc, items.len())?;
    fitted.append(&mut items)?;
    spare.push(items)?;
    Ok(fitted)
}

// The element that these are, where they are one element and nothing else.
fn lone(items: Vec<Item>) -> Option<Element>
    ensures { decls_view items.items ≡ [] → attrs_view items.items ≡ []
        → option_map element_view result ≡ lone (parts_view items.items) }
{
    let mut items = items;
    let Item::Child(tree) = items.pop()? else {
        return None;
    };
    if !items.is_empty() {
        return None;
    }
    Some(tree)
}

/// A root, where its content stands, and where that of the last element within it stands.
#[derive(Drop)]
pub(crate) struct Root {
    pub(crate) tree: Element,
    pub(crate) place: Place,
    pub(crate) last: Option<Place>,
}

/// Resolves the names of the elements of which a reader tells it.
pub(crate) struct Resolver {
    scope: Scope,
    // The innermost element, and those around it, the outermost first, which is the document itself.
    top: Opened,
    below: Vec<Opened>,
    // A rule of namespaces was broken, and nothing more is kept.
    broken: bool,
    // Vectors without items.
    spare: Vec<Vec<Item>>,
    alloc: Global,
}

impl Drop for Resolver {
    fn drop(self) {
        let Resolver {
            scope: _,
            top: _,
            below: _,
            broken: _,
            spare: _,
            alloc: _,
        } = self;
    }
}

impl Resolver {
    /// Before a document was read.
    pub(crate) fn new(alloc: Global) -> Result<Self, Memory>
        ensures outside { IfOk result (λ resolver. open_count resolver ≡ 0) }
        ensures stands { IfOk result (λ resolver. Stands resolver nothing_open []) }
    {
        Ok(Resolver {
            scope: Scope::new(alloc)?,
            top: Opened::untagged(alloc)?,
            below: Vec::new(alloc),
            broken: false,
            spare: Vec::new(alloc),
            alloc,
        })
    }

    // An element within what broke a rule is counted, and nothing of it is kept.
    fn skip(&mut self) -> Result<(), Memory>
        ensures broken { OnOk result (self.new.broken ≡ true) }
        ensures count { OnOk result (open_count self.new ≡ open_count self.old + 1) }
    {
        self.broken = true;
        self.below.push(Opened::untagged(self.alloc)?)?;
        Ok(())
    }

    /// The root, where the document has one element and nothing else, and no rule of namespaces was broken.
    pub(crate) fn finish(self) -> Option<Root>
        ensures { (top : Frame) → Stands self top [] → option_map root_view result ≡ rooted (only_child top.parts) }
    {
        let Resolver {
            scope: _,
            top,
            below: _,
            broken,
            spare: _,
            alloc: _,
        } = self;
        if broken {
            return None;
        }
        let Opened {
            element,
            start: _,
            last,
            inner,
        } = top;
        Some(Root {
            tree: lone(element.items)?,
            place: last?,
            last: inner,
        })
    }
}

/// The root that a reader read, where what it was fed is a document and no rule of namespaces was broken.
pub(crate) fn root_read(reader: Reader<Resolver>) -> Option<Root>
    ensures { (s : State) → Sees Stands reader s → option_map root_view result ≡ rooted (root_of s) }
{
    let Some(resolver) = reader.finish() else {
        return None;
    };
    resolver.finish()
}

impl Handler for Resolver {
    ghost use Rattle.soap_document.specs.Profile.Resolving.{Stands, open_count};

    ghost stands = { Stands };

    ghost depth = { open_count };

    fn text(&mut self, text: &[u8]) -> Result<(), Memory> {
        if self.broken {
            return Ok(());
        }
        let text = Bytes::from_slice(self.alloc, text)?;
        self.top.element.items.push(Item::Text(text))?;
        Ok(())
    }

    fn open(
        &mut self,
        name: &[u8],
        attributes: &[WrittenAttribute],
        start: usize,
    ) -> Result<(), Memory> {
        if self.broken {
            return self.skip();
        }
        let mut items = match self.spare.pop() {
            Some(spare) => spare,
            None => Vec::new(self.alloc),
        };
        items.clear();
        let Some(element) = resolved_tag(self.alloc, name, attributes, items, &mut self.scope)?
        else {
            return self.skip();
        };
        let inner = Opened {
            element,
            start,
            last: None,
            inner: None,
        };
        let outer = mem::replace(&mut self.top, inner);
        self.below.push(outer)?;
        Ok(())
    }

    fn empty(
        &mut self,
        name: &[u8],
        attributes: &[WrittenAttribute],
        place: usize,
    ) -> Result<(), Memory> {
        if self.broken {
            return Ok(());
        }
        let items = Vec::with_capacity(self.alloc, attributes.len())?;
        let Some(element) = resolved_tag(self.alloc, name, attributes, items, &mut self.scope)?
        else {
            self.broken = true;
            return Ok(());
        };
        self.scope.leave(element.items.as_slice());
        let place = Place {
            start: place,
            end: place,
        };
        self.top.add(element, place, None)
    }

    fn close(&mut self, end: usize) -> Result<(), Memory> {
        let Some(outer) = self.below.pop() else {
            unreachable!();
        };
        if self.broken {
            return Ok(());
        }
        let inner = mem::replace(&mut self.top, outer);
        let Opened {
            element,
            start,
            last,
            inner: _,
        } = inner;
        let Element { name, items } = element;
        self.scope.leave(items.as_slice());
        let items = fitted(self.alloc, items, &mut self.spare)?;
        let element = Element { name, items };
        self.top.add(element, Place { start, end }, last)
    }
}
