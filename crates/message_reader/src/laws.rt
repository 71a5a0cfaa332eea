//! Laws of messages, each the contract of a function that does nothing but to bring in the laws that it stands on.
ghost use Rattle.std.specs.Prelude.{◌≡◌, ℕ, List};
ghost use Rattle.rm_message.specs.declared.message.Message.{Message as Value};
ghost use Rattle.rm_message.specs.declared.refusal.Refusal.{Refusal};
ghost use Rattle.message_reader.specs.Refusals.{Spells, Refuses};

use soap_document::laws::document_is_utf8;
use soap_envelope::laws::{one_answer, one_envelope};

/// Bytes spell at most one message.
pub fn one_message()
    ensures { (soap bytes : List ℕ) (one other : Value) → Spells soap bytes one → Spells soap bytes other
        → one ≡ other }
{
    one_envelope();
}

/// Bytes that spell a message are not refused. So `decode` answers exactly these wherever memory does not run out.
pub fn a_message_is_not_refused()
    ensures { (soap bytes : List ℕ) (m : Value) (refusal : Refusal) → Spells soap bytes m
        → ¬ (Refuses soap bytes refusal) }
{
    one_envelope();
    one_answer();
    document_is_utf8();
}

/// Bytes have at most one refusal: the first kind that holds, and all that belongs to it.
pub fn one_refusal()
    ensures { (soap bytes : List ℕ) (one other : Refusal) → Refuses soap bytes one → Refuses soap bytes other
        → one ≡ other }
{
    one_envelope();
    one_answer();
}
