//! Messages of SOAP 1.2 to bytes of SOAP 1.1.
ghost use Rattle.std.specs.Prelude.{◌≡◌, IfOk};
ghost use Rattle.rm_wire.specs.Soap11.Lower.{lowered_text};

use message_writer::encode11;
use rm_base::{Blob, Memory};
use rm_message::Message;
use std::alloc::Global;

/// The text of a message in SOAP 1.1; none exactly for a fault whose code is DataEncodingUnknown, which SOAP 1.1 lacks.
/// An inner subcode isn't written.
pub fn lower(alloc: Global, message: &Message) -> Result<Option<Blob>, Memory>
    ensures { IfOk result (λ bytes. bytes ≡ lowered_text message.now) }
{
    encode11(alloc, message)
}
