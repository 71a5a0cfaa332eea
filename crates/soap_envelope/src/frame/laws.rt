//! Laws of frames, each the contract of a function that does nothing but to bring in the laws that it stands on.

ghost use Rattle.std.specs.Prelude.{◌≡◌, ◌≤◌, ◌+◌, ◌++◌, ℕ, List, [], None, Some, codes, map, false};
ghost use Rattle.std.specs.List.{AllByRecursion};
ghost use Rattle.std.specs.Str.{bytes_eq};
ghost use Rattle.rm_base.specs.Limits.{content_depth};
ghost use Rattle.rm_base.specs.declared.message.Binding.{Binding};
ghost use Rattle.soap_lex.specs.Characters.{IsName};
ghost use Rattle.soap_lex.specs.Tests.{is_nil};
ghost use Rattle.soap_document.specs.Grammar.{max_depth, IsContent, IsQName};
ghost use Rattle.soap_document.specs.Tree.{Parts as WrittenParts};
ghost use Rattle.soap_document.specs.declared.attribute.WrittenAttribute.{WrittenAttribute};
ghost use Rattle.soap_document.specs.Profile.Namespaces.{bound, resolve_parts, tag_of};
ghost use Rattle.soap_document.specs.Profile.Payload.{IsClosedContent, depth as nested};
ghost use Rattle.soap_envelope.specs.Soap.{soap_space};
ghost use Rattle.soap_document.specs.Profile.Tree.{Parts};
ghost use Rattle.soap_envelope.specs.Envelope.{IsEnvelope, name_in};
ghost use Rattle.soap_envelope.specs.Scope.{IsScope};
ghost use Rattle.soap_writer.specs.Frame.{frame_scope};
ghost use Rattle.soap_writer.specs.ReadBack.{ContentReadsAs, content_of, IsAttributeWritten};
ghost use Rattle.soap_envelope.specs.Frame.BodyTag.{declaration, AreApart, MayBeDeclared, body_name, body_bindings};
ghost use Rattle.soap_envelope.specs.Frame.Covers.{Covers};
ghost use Rattle.soap_envelope.specs.Frame.Tagged.{tagged_text, tagged_envelope};
ghost use Rattle.soap_envelope.specs.Frame.Framed.{Block, IsBlock, MayBeSoap, bytes_of, trees_of, framed_text};
ghost use Rattle.soap_envelope.specs.Frame.Framed.{framed_envelope};

use soap_writer::laws::{attributes_are_read_back, content_is_read_back};

/// A frame around header blocks and content is an envelope of exactly these blocks and this payload. The payload is the
/// exact bytes of the content, the frame's bindings are in force in both, and the body is what the content is, whatever
/// the namespace of SOAP.
pub fn frame_is_an_envelope()
    ensures { (soap : List ℕ) (header : List Block) (payload : List ℕ) (body : Parts) → MayBeSoap soap
        → AllByRecursion (IsBlock soap) header → ((at : ℕ) → ContentReadsAs 2 at (frame_scope soap) payload body)
        → IsEnvelope soap (framed_text soap (bytes_of header) payload)
        (framed_envelope soap (trees_of header) payload body) }
{
    attributes_are_read_back();
    content_is_read_back();
}

/// A frame may give SOAP the namespace of SOAP 1.2.
pub fn soap_may_be_soap()
    ensures { MayBeSoap soap_space }
{}

/// Blocks are content of a frame, and nothing else is in it.
pub fn blocks_are_content()
    ensures { (soap : List ℕ) (blocks : List Block) (at : ℕ) → AllByRecursion (IsBlock soap) blocks
        → ContentReadsAs 2 at (frame_scope soap) (bytes_of blocks) (content_of (trees_of blocks)) }
{
    content_is_read_back();
}

/// Content that is closed under its own declarations is read as the same parts at any place that is not too deep, where
/// no default namespace is in force, as within a frame.
pub fn closed_content_is_read_alike()
    ensures { (bytes : List ℕ) (closed : IsClosedContent bytes) (depth at : ℕ) (scope : List Binding)
        → depth + content_depth ≤ max_depth → bound [] scope ≡ None
        → ContentReadsAs depth at scope bytes closed.parts }
{}

/// Content that is read where some prefixes are bound is read alike at another place that is not too deep, where they
/// are bound so too.
pub fn content_is_read_where_more_is_bound()
    ensures { (depth start : ℕ) (bytes : List ℕ) (raw : WrittenParts) → IsContent depth start bytes raw
        → (outer wider : List Binding) (parts : Parts) → resolve_parts outer raw ≡ Some parts → Covers outer wider
        → (within at : ℕ) → within + nested parts ≤ max_depth → ContentReadsAs within at wider bytes parts }
{}

/// A frame whose Body has a start tag of its own is an envelope of its blocks and its payload, in what is bound there.
pub fn tagged_frame_is_an_envelope()
    ensures { (soap : List ℕ) (header : List Block) (name : List ℕ) (attributes : List WrittenAttribute)
        (decls : List Binding) (payload : List ℕ) (body : Parts) (scope : List Binding) → MayBeSoap soap
        → AllByRecursion (IsBlock soap) header → IsQName name → AllByRecursion IsAttributeWritten attributes
        → tag_of (frame_scope soap) name attributes
        ≡ Some (record { name = name_in soap (codes "Body"); decls = decls; attrs = [] })
        → ((at : ℕ) → ContentReadsAs 2 at (decls ++ frame_scope soap) payload body)
        → IsScope (decls ++ frame_scope soap) scope
        → IsEnvelope soap (tagged_text soap (bytes_of header) name attributes payload)
        (tagged_envelope soap (trees_of header) payload body scope) }
{
    attributes_are_read_back();
    content_is_read_back();
}

/// A Body with a prefix of its own, which declares it and other bindings, is Body where SOAP is what the prefix is
/// bound to.
pub fn declaring_body_is_body()
    ensures { (soap w : List ℕ) (outer scope : List Binding) → IsName w → is_nil w ≡ false
        → bytes_eq w (codes "xml") ≡ false → AreApart (body_bindings soap w scope)
        → MayBeDeclared (body_bindings soap w scope)
        → tag_of outer (body_name w) (map declaration (body_bindings soap w scope))
        ≡ Some (record { name = name_in soap (codes "Body"); decls = body_bindings soap w scope; attrs = [] }) }
{}
