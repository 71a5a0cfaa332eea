//! Messages of SOAP 1.1 from bytes.
ghost use Rattle.std.specs.Prelude.{IfOk, IfErr};
ghost use Rattle.rm_wire.specs.Soap11.Spells11.{Spells11, IsRefusal11};

use message_reader::decode_in;
use rm_message::{DecodeError, Message};
use soap_envelope::SOAP11_SPACE;
use std::alloc::Global;

/// The message that the bytes spell in SOAP 1.1, or the refusal of the first kind that holds, with where its fault
/// goes.
pub fn decode11(alloc: Global, bytes: &[u8]) -> Result<Message, DecodeError>
    ensures ok { IfOk result (Spells11 bytes.now) }
    ensures err { IfErr result (IsRefusal11 bytes.now) }
{
    decode_in(alloc, bytes, SOAP11_SPACE)
}
