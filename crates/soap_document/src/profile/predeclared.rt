//! The spaces of names that need no declaration.
ghost use Rattle.std.specs.Prelude.{◌≡◌, []};
ghost use Rattle.soap_document.specs.Profile.Namespaces.{xml_space};
ghost use Rattle.std.proofs.Props.{props};

use crate::profile::names::XML_SPACE;
use crate::profile::shared::Shared;
use rm_base::Memory;
use std::alloc::Global;

/// The namespace of the prefix `xml`, and the space of names in no namespace.
#[derive(Drop)]
pub(crate) struct Predeclared {
    xml: Shared,
    none: Shared,
    ghost is_xml: { xml ≡ xml_space } by { Prim.hlevel props },
    ghost is_none: { none ≡ [] } by { Prim.hlevel props },
}

impl Predeclared {
    pub(crate) fn new(alloc: Global) -> Result<Predeclared, Memory> {
        Ok(Predeclared {
            xml: Shared::from_slice(alloc, XML_SPACE)?,
            none: Shared::from_slice(alloc, b"")?,
        })
    }

    pub(crate) fn xml(&self) -> &Shared
        ensures { result.now ≡ xml_space }
    {
        &self.xml
    }

    pub(crate) fn none(&self) -> &Shared
        ensures { result.now ≡ [] }
    {
        &self.none
    }
}
