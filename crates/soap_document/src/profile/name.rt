//! Expanded names.
ghost use Rattle.std.specs.Prelude.{◌≡◌, IsTrue, ◌↔◌, IfOk};
ghost use Rattle.std.specs.Str.{bytes_eq};
ghost use Rattle.soap_lex.specs.Tests.{is_nil};
ghost use Rattle.soap_document.specs.Profile.Namespaces.{xml_space};

use crate::profile::names::XML_SPACE;
use crate::profile::shared::Shared;
use rm_base::{Bytes, Memory};
use std::alloc::Global;
use std::marker::Model;
use std::mem::size_of;
use std::rc::Rc;

const _: () = prove!(size_of::<Name>() == 8);

/// An expanded name: Namespaces in XML 1.0, section 2.1. A name in no namespace has the empty space. It is one word,
/// and elements and attributes of one name share what it stands for.
#[derive(Debug, Drop)]
pub struct Name {
    expanded: Rc<Expanded>,
}

#[derive(Debug, Drop)]
struct Expanded {
    space: Shared,
    local: Bytes,
}

impl Model for Name {
    ghost use Rattle.soap_document.specs.declared.profile.name.Expanded.{Expanded};

    ghost Value = { Expanded };

    ghost view = { λ name. name.expanded.value };
}

impl Name {
    /// A name with this local part in this namespace, which is empty for none.
    pub fn new(alloc: Global, space: Shared, local: &[u8]) -> Result<Self, Memory>
        ensures { IfOk result (λ name. name ≡ record { space = space; local = local.now }) }
    {
        let local = Bytes::from_slice(alloc, local)?;
        let expanded = Rc::new(alloc, Expanded { space, local })?;
        Ok(Name { expanded })
    }

    /// The namespace, which is empty where there is none.
    pub fn space(&self) -> &[u8]
        ensures { result.now ≡ self.now.space }
    {
        self.expanded.space.as_slice()
    }

    /// The local part.
    pub fn local(&self) -> &[u8]
        ensures { result.now ≡ self.now.local }
    {
        self.expanded.local.as_slice()
    }

    /// Whether it is in no namespace.
    pub fn is_bare(&self) -> bool
        ensures { result ≡ is_nil self.now.space }
    {
        self.space().is_empty()
    }

    /// Whether it is in the namespace that the prefix `xml` is bound to.
    pub fn is_of_xml(&self) -> bool
        ensures { result ≡ bytes_eq self.now.space xml_space }
    {
        self.space() == XML_SPACE
    }

    /// The same name, of which nothing is copied: it wants memory only where the count of those who share it is full.
    pub fn share(&self) -> Result<Self, Memory>
        ensures { IfOk result (λ name. name ≡ self.now) }
    {
        Ok(Name {
            expanded: self.expanded.clone()?,
        })
    }
}
