//! What `policy` prints of an assertion.
ghost use Rattle.std.specs.Prelude.{◌≡◌, ◌≤◌, length, IfOk, Err};
ghost use Rattle.rm_base.specs.Limits.{envelope_bytes};
ghost use Rattle.rm_command.specs.Policy.{answer_word, policy_text, HasPolicyFault, IsPolicyTextOf};
ghost use Rattle.rm_command.specs.declared.end.Fault.{Fault as AFault};

use crate::end::Fault;
use crate::filter::NoText;
use rm_base::{Blob, Memory};
use rm_policy::{Assertion, PolicyError, grants, read_assertion};
use soap_document::profile::EnvelopeError;
use std::alloc::Global;

/// What is printed of bytes, where they are an assertion.
pub fn text_of(alloc: Global, bytes: &[u8]) -> Result<Blob, NoText>
    requires { length bytes.now ≤ envelope_bytes }
    ensures text { IfOk result (λ text. IsPolicyTextOf bytes.now text) }
    ensures faulty { (fault : AFault) → result ≡ Err (NoText.Faulty fault) → HasPolicyFault bytes.now fault }
{
    match read_assertion(alloc, bytes) {
        Ok(assertion) => Ok(text_of_assertion(alloc, &assertion)?),
        Err(PolicyError::Envelope(EnvelopeError::NotUtf8 { .. })) => {
            Err(NoText::Faulty(Fault::NotUtf8))
        }
        Err(PolicyError::Envelope(EnvelopeError::NotProfile)) => {
            Err(NoText::Faulty(Fault::NotProfile))
        }
        Err(PolicyError::Malformed) => Err(NoText::Faulty(Fault::Malformed)),
        Err(PolicyError::SecurityUnsupported { .. }) => {
            Err(NoText::Faulty(Fault::SecurityUnsupported))
        }
        Err(PolicyError::Memory) => Err(NoText::Memory),
        Err(PolicyError::Envelope(_)) => unreachable!(),
    }
}

fn text_of_assertion(alloc: Global, assertion: &Assertion) -> Result<Blob, Memory>
    ensures { IfOk result (λ text. text ≡ policy_text assertion.now) }
{
    let mut text = Blob::from_slice(alloc, b"assurance ")?;
    text.push_all(assertion.assurance.word())?;
    text.push_all(b"\nin-order ")?;
    text.push_all(answer(assertion.in_order))?;
    text.push_all(b"\noptional ")?;
    text.push_all(answer(assertion.optional))?;
    text.push_all(b"\ngranted ")?;
    text.push_all(answer(grants(assertion, false)))?;
    text.push_all(b"\ngranted-loose ")?;
    text.push_all(answer(grants(assertion, true)))?;
    text.push_all(b"\n")?;
    Ok(text)
}

fn answer(is_so: bool) -> &'static [u8]
    ensures { result.now ≡ answer_word is_so }
{
    if is_so { b"yes" } else { b"no" }
}
