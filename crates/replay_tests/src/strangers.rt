//! A packet that answers bytes which come from elsewhere.

use crate::stage::{has, joined, played_with_wire};
use rm_base::wire::Wire;
use rm_base::{Blob, Memory, push_hex};
use std::alloc::Global;
use std::test::Fail;

// A message with two Sequence headers, whose fault goes to node 1 with an acknowledgement as a reference parameter.
const ECHOED: &[u8] = b"<?xml version=\"1.0\" encoding=\"UTF-8\"?><!-- x --><S:Envelope \
    xmlns:S='http://www.w3.org/2003/05/soap-envelope' \
    xmlns:wsa=\"http://www.w3.org/2005/08/addressing\" \
    xmlns:rm=\"http://docs.oasis-open.org/ws-rx/wsrm/200702\" xmlns:o=\"urn:o\"><S:Header>\
    <wsa:Action S:mustUnderstand=\"1\">urn:buy&amp;sell</wsa:Action>\
    <wsa:ReplyTo><wsa:Address>http://node1.example/</wsa:Address><wsa:ReferenceParameters>\
    <rm:SequenceAcknowledgement>\
    <rm:Identifier>urn:uuid:00000000-0000-8002-8000-000000000001</rm:Identifier>\
    <rm:AcknowledgementRange Lower=\"1\" Upper=\"1\"/></rm:SequenceAcknowledgement>\
    </wsa:ReferenceParameters></wsa:ReplyTo>\
    <rm:Sequence S:mustUnderstand=\"1\"><rm:Identifier>urn:q</rm:Identifier>\
    <rm:MessageNumber> 07 </rm:MessageNumber></rm:Sequence>\
    <rm:Sequence S:mustUnderstand=\"1\"><rm:Identifier>urn:q</rm:Identifier>\
    <rm:MessageNumber> 07 </rm:MessageNumber></rm:Sequence>\
    </S:Header><S:Body><o:x/></S:Body></S:Envelope>";

// The script that brings it to node 2, and the fault to node 1.
fn echo(alloc: Global) -> Result<Blob, Memory> {
    let mut hex = Blob::new(alloc);
    push_hex(&mut hex, ECHOED)?;
    joined(
        alloc,
        &[
            b"create 1\ndeliver 1\ndeliver 2\nsend 1 1 <p>1</p>\nnoise 2 ",
            hex.as_slice(),
            b"\ndeliver 4\n",
        ],
    )
}

// The acknowledgement, marked as a reference parameter.
const MARKED: &[u8] =
    b"<n:SequenceAcknowledgement xmlns:n=\"http://docs.oasis-open.org/ws-rx/wsrm/200702\" \
    a:IsReferenceParameter=\"true\">";

#[test]
fn a_reference_parameter_acknowledges_nothing(rt: HostRuntime) -> Result<(), Fail> {
    let script = echo(rt.alloc())?;
    let (_report, wire) = played_with_wire(rt.alloc(), script.as_slice())?;
    let packet = wire.get(4).ok_or("a fourth packet")?;
    assert!(rt; has(packet.bytes, MARKED));
    Ok(())
}
