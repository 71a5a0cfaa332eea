//! The pieces of a written element. Each writer appends its piece, up to a want of memory.
ghost use Rattle.std.specs.Prelude.{◌≡◌, ◌++◌, OnOk, OnErr, codes, decimal};
ghost use Rattle.soap_lex.specs.Escapes.{escaped_text};
ghost use Rattle.soap_writer.specs.Steps.{Grows};
ghost use Rattle.soap_writer.specs.Nodes.Node.{note_text, begin_text, close_text, plain, declared};

use crate::{push_bytes, push_quoted, push_text};
use itoa::Buffer;
use rm_base::Memory;

/// Appends the front of a start tag with this written name.
#[tactic(auto, unfolding(crate::specs::Nodes::Node::begin_text))]
pub fn push_begin(name: &[u8], out: &mut Vec<u8>) -> Result<(), Memory>
    ensures ok { OnOk result (out.new.items ≡ out.old.items ++ begin_text name.now) }
    ensures err { OnErr result (Grows out.old.items out.new.items) }
{
    push_bytes(b"<", out)?;
    push_bytes(name, out)
}

/// Appends a start tag without attributes.
pub fn push_start(name: &[u8], out: &mut Vec<u8>) -> Result<(), Memory>
    ensures ok { OnOk result (out.new.items ≡ out.old.items ++ (begin_text name.now ++ codes ">")) }
    ensures err { OnErr result (Grows out.old.items out.new.items) }
{
    push_begin(name, out)?;
    push_bytes(b">", out)
}

/// Appends an end tag.
#[tactic(auto, unfolding(crate::specs::Nodes::Node::close_text))]
pub fn push_close(name: &[u8], out: &mut Vec<u8>) -> Result<(), Memory>
    ensures ok { OnOk result (out.new.items ≡ out.old.items ++ close_text name.now) }
    ensures err { OnErr result (Grows out.old.items out.new.items) }
{
    push_bytes(b"</", out)?;
    push_bytes(name, out)?;
    push_bytes(b">", out)
}

/// Appends an attribute in no namespace, with a space before it.
#[tactic(auto, unfolding(crate::specs::Nodes::Node::note_text))]
pub fn push_attribute(local: &[u8], value: &[u8], out: &mut Vec<u8>) -> Result<(), Memory>
    ensures ok { OnOk result (out.new.items ≡ out.old.items ++ note_text (plain local.now value.now)) }
    ensures err { OnErr result (Grows out.old.items out.new.items) }
{
    push_bytes(b" ", out)?;
    push_bytes(local, out)?;
    push_bytes(b"=", out)?;
    push_quoted(value, out)
}

/// Appends the declaration of a prefix, with a space before it.
#[tactic(auto, unfolding(crate::specs::Nodes::Node::note_text))]
pub fn push_declaration(prefix: &[u8], space: &[u8], out: &mut Vec<u8>) -> Result<(), Memory>
    ensures ok { OnOk result (out.new.items ≡ out.old.items ++ note_text (declared prefix.now space.now)) }
    ensures err { OnErr result (Grows out.old.items out.new.items) }
{
    push_bytes(b" xmlns:", out)?;
    push_bytes(prefix, out)?;
    push_bytes(b"=", out)?;
    push_quoted(space, out)
}

/// Appends an element of text.
pub fn push_leaf(name: &[u8], text: &[u8], out: &mut Vec<u8>) -> Result<(), Memory>
    ensures ok { OnOk result (out.new.items ≡ out.old.items
        ++ (begin_text name.now ++ (codes ">" ++ (escaped_text text.now ++ close_text name.now)))) }
    ensures err { OnErr result (Grows out.old.items out.new.items) }
{
    push_start(name, out)?;
    push_text(text, out)?;
    push_close(name, out)
}

/// Appends an element whose text is a number.
pub fn push_number(name: &[u8], number: u64, out: &mut Vec<u8>) -> Result<(), Memory>
    ensures ok { OnOk result (out.new.items ≡ out.old.items
        ++ (begin_text name.now ++ (codes ">" ++ (escaped_text (decimal number) ++ close_text name.now)))) }
    ensures err { OnErr result (Grows out.old.items out.new.items) }
{
    push_leaf(name, Buffer::new().format(number).as_bytes(), out)
}

/// Appends an empty-element tag without attributes.
pub fn push_void(name: &[u8], out: &mut Vec<u8>) -> Result<(), Memory>
    ensures ok { OnOk result (out.new.items ≡ out.old.items ++ (begin_text name.now ++ codes "/>")) }
    ensures err { OnErr result (Grows out.old.items out.new.items) }
{
    push_begin(name, out)?;
    push_bytes(b"/>", out)
}
