//! Laws of messages as they are read, each the contract of a function that does nothing but to bring in the laws that
//! it stands on.

ghost use Rattle.std.specs.Prelude.{◌≡◌, ℕ, List, None};
ghost use Rattle.rm_base.specs.declared.message.Payload.{Payload as Held};
ghost use Rattle.rm_message.specs.declared.message.Body.TheVariants as body;
ghost use Rattle.rm_message.specs.declared.message.Message.{Message as Value};
ghost use Rattle.rm_message.specs.declared.refusal.Refusal.{Refusal as Refused};
ghost use Rattle.message_reader.specs.Refusals.{Spells, Refuses};
ghost use Rattle.message_writer.specs.Faults.{fault_of};
ghost use Rattle.message_writer.specs.Rules.{KeepsRules};
ghost use Rattle.rm_wire.specs.Writable.{IsRefusalWritable};
ghost use Rattle.rm_wire.specs.ReadLaws.Stands.{Stands};
ghost use Rattle.rm_wire.specs.ReadLaws.WasRead.{WasRead, PayloadFits};

use crate::a_fault_keeps_the_rules;
use soap_envelope::laws::payload_stands;
use soap_writer::stripped::laws::{elements_may_be_written, names_may_be_written};

/// A message that bytes spell keeps the rules of those that are written, but for its payload. The rules are of headers,
/// acknowledgements, requests, names, a body element, a fault, and that action and headers are those of the body.
pub fn what_is_read_may_be_written()
    ensures { (soap bytes : List ℕ) (m : Value) → Spells soap bytes m → WasRead m }
{
    elements_may_be_written();
    names_may_be_written();
}

/// Its payload is content that stood in the Body of its envelope. It has the parts of the body where what is bound
/// around it is bound so; the bindings may be declared, and two elements more may stand around it.
pub fn what_is_read_stands()
    ensures { (soap bytes : List ℕ) (m : Value) (spells : Spells soap bytes m) (p : Held) → m.body ≡ body.Payload p
        → Stands p.bytes p.scope spells.envelope.body }
{
    elements_may_be_written();
    payload_stands();
}

/// With those of its payload it keeps all of them.
pub fn what_was_read_keeps_the_rules()
    ensures { (soap : List ℕ) (m : Value) → WasRead m → PayloadFits soap m.sequence m.body → KeepsRules soap m }
{}

/// The fault that answers a refusal of bytes may be written: what it takes from the refusal may be, and so it keeps the
/// rules.
pub fn a_refusal_may_be_answered()
    ensures refusal { (soap bytes : List ℕ) (refusal : Refused) → Refuses soap bytes refusal
        → IsRefusalWritable refusal None }
    ensures fault { (soap bytes : List ℕ) (refusal : Refused) → Refuses soap bytes refusal
        → KeepsRules soap (fault_of refusal None) }
{
    elements_may_be_written();
    names_may_be_written();
    a_fault_keeps_the_rules();
}
