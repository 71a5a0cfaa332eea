//! Names in values: the name of a header that was not understood, and a subcode.
ghost use Rattle.std.specs.Prelude.{◌≡◌, ◌++◌, IfOk, OnOk};
ghost use Rattle.soap_writer.specs.Nodes.Node.{notes_text};
ghost use Rattle.message_writer.specs.Text.{qname as qname_text, qname_notes};

use rm_base::Memory;
use soap_document::profile::Name;
use soap_writer::nodes::push_declaration;
use soap_writer::push_bytes;
use std::alloc::Global;

/// A name as it is written in a value.
pub fn qname(alloc: Global, name: &Name) -> Result<Vec<u8>, Memory>
    ensures { IfOk result (λ text. text.items ≡ qname_text name.now) }
{
    let mut text = Vec::new(alloc);
    if name.is_bare() {
        push_bytes(name.local(), &mut text)?;
        return Ok(text);
    }
    if name.is_of_xml() {
        push_bytes(b"xml:", &mut text)?;
        push_bytes(name.local(), &mut text)?;
        return Ok(text);
    }
    push_bytes(b"q:", &mut text)?;
    push_bytes(name.local(), &mut text)?;
    Ok(text)
}

/// Appends the declaration of the prefix of a name, where the name needs one.
pub fn push_qname_declaration(name: &Name, out: &mut Vec<u8>) -> Result<(), Memory>
    ensures { OnOk result (out.new.items ≡ out.old.items ++ notes_text (qname_notes name.now)) }
{
    if name.is_bare() || name.is_of_xml() {
        return Ok(());
    }
    push_declaration(b"q", name.space(), out)?;
    Ok(())
}
