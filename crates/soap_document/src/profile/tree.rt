//! The tree of a document, as the code keeps it.
use crate::profile::name::Name;
use crate::profile::shared::Shared;
use rm_base::{Bytes, Items};
use std::marker::Model;
use std::mem::size_of;

const _: () = prove!(size_of::<Element>() == 32);

const _: () = prove!(size_of::<Item>() == 40);

/// A declaration of a namespace: Namespaces in XML 1.0, section 3. That of the default namespace has the empty prefix.
#[derive(Debug, Drop)]
pub struct Declaration {
    pub prefix: Bytes,
    pub space: Shared,
}

impl Model for Declaration {
    ghost use Rattle.rm_base.specs.declared.message.Binding.{Binding};

    ghost Value = { Binding };

    ghost view = { λ d. record { prefix = d.prefix; space = d.space } };
}

/// An attribute with its expanded name, and its normalised value.
#[derive(Debug, Drop)]
pub struct Attr {
    pub name: Name,
    pub value: Bytes,
}

/// Attributes in order.
pub type Attrs = Items<Attr>;

/// What an element has: a declaration, an attribute, or a part of its content, which is text that is not empty or an
/// element.
#[derive(Debug, Drop)]
#[cycle(tree)]
pub enum Item {
    Declaration(Declaration),
    Attribute(Attr),
    Text(Bytes),
    Child(Element),
}

/// An element. What it has stands in one list, so that it takes little memory: its declarations, then its attributes,
/// then its parts, each in their order. No two texts are neighbours.
#[derive(Debug, Drop)]
#[cycle(tree)]
pub struct Element {
    pub name: Name,
    pub items: Vec<Item>,
}
