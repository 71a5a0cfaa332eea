//! The pieces of a start tag. Each writer appends its piece, up to a want of memory.
ghost use Rattle.std.specs.Prelude.{◌≡◌, ◌<◌, ◌+◌, ◌^◌, [], ◌∷◌, ◌++◌, length, codes, IfOk, OnOk, OnErr};
ghost use Rattle.soap_document.specs.Grammar.{start_tag, end_tag};
ghost use Rattle.soap_document.specs.Profile.View.{attrs_view};
ghost use Rattle.soap_writer.specs.ElementText.{written_name, declaration, attribute_text, attributes_text};
ghost use Rattle.soap_writer.specs.ElementText.{mark, tag_text};
ghost use Rattle.soap_writer.specs.Steps.{Grows, prefix_text};

use crate::text::{push_bytes, push_quoted};
use itoa::Buffer;
use rm_base::Memory;
use soap_document::profile::{Attr, Item, Name};

// The prefix that the namespace of a name is bound to.
#[derive(Clone, Copy, Debug)]
enum Prefix {
    OfElement,
    OfAttribute(usize),
}

fn push_prefix(prefix: Prefix, out: &mut Vec<u8>) -> Result<(), Memory>
    ensures ok { OnOk result (out.new.items ≡ out.old.items ++ prefix_text prefix) }
    ensures err { OnErr result (Grows out.old.items out.new.items) }
{
    match prefix {
        Prefix::OfElement => push_bytes(b"n", out),
        Prefix::OfAttribute(i) => {
            push_bytes(b"q", out)?;
            push_bytes(Buffer::new().format(i).as_bytes(), out)
        }
    }
}

fn push_name(prefix: Prefix, name: &Name, out: &mut Vec<u8>) -> Result<(), Memory>
    ensures ok { OnOk result (out.new.items ≡ out.old.items ++ written_name (prefix_text prefix) name.now) }
    ensures err { OnErr result (Grows out.old.items out.new.items) }
{
    if name.is_bare() {
        return push_bytes(name.local(), out);
    }
    if name.is_of_xml() {
        push_bytes(b"xml:", out)?;
        return push_bytes(name.local(), out);
    }
    push_prefix(prefix, out)?;
    push_bytes(b":", out)?;
    push_bytes(name.local(), out)
}

fn push_declaration(prefix: Prefix, name: &Name, out: &mut Vec<u8>) -> Result<(), Memory>
    ensures ok { OnOk result (out.new.items ≡ out.old.items ++ declaration (prefix_text prefix) name.now) }
    ensures err { OnErr result (Grows out.old.items out.new.items) }
{
    if name.is_bare() || name.is_of_xml() {
        return Ok(());
    }
    push_bytes(b" xmlns:", out)?;
    push_prefix(prefix, out)?;
    push_bytes(b"=", out)?;
    push_quoted(name.space(), out)
}

fn push_attribute(prefix: Prefix, attr: &Attr, out: &mut Vec<u8>) -> Result<(), Memory>
    ensures ok { OnOk result (out.new.items ≡ out.old.items ++ attribute_text (prefix_text prefix) attr.now) }
    ensures err { OnErr result (Grows out.old.items out.new.items) }
{
    push_declaration(prefix, &attr.name, out)?;
    push_bytes(b" ", out)?;
    push_name(prefix, &attr.name, out)?;
    push_bytes(b"=", out)?;
    push_quoted(attr.value.as_slice(), out)
}

// An item, if it is an attribute, and the number of the attribute behind it.
fn push_item(number: usize, item: &Item, out: &mut Vec<u8>) -> Result<usize, Memory>
    requires { number + 1 < 2 ^ 64 }
    ensures next { IfOk result (λ next. next ≡ number + length (attrs_view (item.now ∷ []))) }
    ensures ok { OnOk result (out.new.items ≡ out.old.items ++ attributes_text number (attrs_view (item.now ∷ []))) }
    ensures err { OnErr result (Grows out.old.items out.new.items) }
{
    let Item::Attribute(attr) = item else {
        return Ok(number);
    };
    push_attribute(Prefix::OfAttribute(number), attr, out)?;
    Ok(number + 1)
}

fn push_attributes(items: &[Item], out: &mut Vec<u8>) -> Result<(), Memory>
    ensures ok { OnOk result (out.new.items ≡ out.old.items ++ attributes_text 0 (attrs_view items.now)) }
    ensures err { OnErr result (Grows out.old.items out.new.items) }
{
    let mut number = 0;
    for item in items {
        number = push_item(number, item, out)?;
    }
    Ok(())
}

fn push_mark(marked: bool, out: &mut Vec<u8>) -> Result<(), Memory>
    ensures ok { OnOk result (out.new.items ≡ out.old.items ++ mark marked) }
    ensures err { OnErr result (Grows out.old.items out.new.items) }
{
    if marked {
        push_bytes(b" a:IsReferenceParameter=\"true\"", out)
    } else {
        Ok(())
    }
}

pub(crate) fn push_start_tag(
    name: &Name,
    marked: bool,
    items: &[Item],
    out: &mut Vec<u8>,
) -> Result<(), Memory>
    ensures ok { OnOk result (out.new.items ≡ out.old.items
        ++ start_tag (written_name (codes "n") name.now) (tag_text marked name.now (attrs_view items.now))) }
    ensures err { OnErr result (Grows out.old.items out.new.items) }
{
    push_bytes(b"<", out)?;
    push_name(Prefix::OfElement, name, out)?;
    push_declaration(Prefix::OfElement, name, out)?;
    push_mark(marked, out)?;
    push_attributes(items, out)?;
    push_bytes(b">", out)
}

pub(crate) fn push_end_tag(name: &Name, out: &mut Vec<u8>) -> Result<(), Memory>
    ensures ok { OnOk result (out.new.items ≡ out.old.items ++ end_tag (written_name (codes "n") name.now) []) }
    ensures err { OnErr result (Grows out.old.items out.new.items) }
{
    push_bytes(b"</", out)?;
    push_name(Prefix::OfElement, name, out)?;
    push_bytes(b">", out)
}
