//! Assertions to bytes: WS-RM Policy 1.2, section 2.
ghost use Rattle.std.specs.Prelude.{◌≡◌, Ok, IfOk};
ghost use Rattle.rm_policy.specs.Assertion.{IsWritable};
ghost use Rattle.rm_policy.specs.Reading.{Reads};
ghost use Rattle.rm_policy.specs.Texts.{assertion_text, assurance_text as text_of_assurance, end_text as text_of_end};
ghost use Rattle.rm_policy.specs.Texts.{optional_text as text_of_optional, order_text as text_of_order};

use crate::assertion::{Assertion, Assurance};
use crate::laws::assertion_is_read_back;
use crate::word::{ASSERTION, POLICY};
use rm_base::{Blob, Memory};
use std::alloc::Global;

/// The text of an assertion, which is read back as it. In order is said only beside an assurance.
pub fn write_assertion(alloc: Global, assertion: &Assertion) -> Result<Blob, Memory>
    requires { IsWritable assertion.now }
    ensures text { IfOk result (λ text. text ≡ assertion_text assertion.now) }
    ensures back { IfOk result (λ text. Reads text (Ok assertion.now)) }
{
    assertion_is_read_back();
    text_of(alloc, assertion)
}

fn text_of(alloc: Global, assertion: &Assertion) -> Result<Blob, Memory>
    ensures { IfOk result (λ text. text ≡ assertion_text assertion.now) }
{
    let mut text = Blob::from_slice(alloc, b"<p:RMAssertion xmlns:p=\"")?;
    text.push_all(ASSERTION)?;
    text.push_all(b"\" xmlns:w=\"")?;
    text.push_all(POLICY)?;
    text.push_all(b"\"")?;
    text.push_all(optional_text(assertion.optional))?;
    text.push_all(b"><w:Policy>")?;
    text.push_all(assurance_text(assertion.assurance))?;
    text.push_all(order_text(assertion.in_order))?;
    text.push_all(end_text(assertion.assurance))?;
    text.push_all(b"</w:Policy></p:RMAssertion>")?;
    Ok(text)
}

fn optional_text(is_optional: bool) -> &'static [u8]
    ensures { result.now ≡ text_of_optional is_optional }
{
    if is_optional {
        b" w:Optional=\"true\""
    } else {
        b""
    }
}

fn assurance_text(assurance: Assurance) -> &'static [u8]
    ensures { result.now ≡ text_of_assurance assurance }
{
    match assurance {
        Assurance::Unsaid => b"",
        Assurance::ExactlyOnce => b"<p:DeliveryAssurance><w:Policy><p:ExactlyOnce/>",
        Assurance::AtLeastOnce => b"<p:DeliveryAssurance><w:Policy><p:AtLeastOnce/>",
        Assurance::AtMostOnce => b"<p:DeliveryAssurance><w:Policy><p:AtMostOnce/>",
    }
}

fn order_text(in_order: bool) -> &'static [u8]
    ensures { result.now ≡ text_of_order in_order }
{
    if in_order { b"<p:InOrder/>" } else { b"" }
}

fn end_text(assurance: Assurance) -> &'static [u8]
    ensures { result.now ≡ text_of_end assurance }
{
    match assurance {
        Assurance::Unsaid => b"",
        _ => b"</w:Policy></p:DeliveryAssurance>",
    }
}
