//! The texts of packets. The reports of scripts are cases of the command `replay`.

use crate::stage::{has, played_with_wire};
use rm_base::wire::Wire;
use std::test::Fail;

/// Three messages, which all come in order, and their acknowledgements.
pub(crate) const IN_ORDER: &[u8] = b"create 1\ndeliver 1\ndeliver 2\n\
    send 1 1 <p>1</p>\nsend 1 1 <p>2</p>\nsend 1 1 <p>3</p>\n\
    deliver 3\ndeliver 4\ndeliver 5\ndeliver 6\ndeliver 7\ndeliver 8\n";

// The acknowledgement of the first message alone.
const FIRST_ACKNOWLEDGED: &[u8] =
    b"<s:Envelope xmlns:s=\"http://www.w3.org/2003/05/soap-envelope\" \
    xmlns:a=\"http://www.w3.org/2005/08/addressing\" \
    xmlns:r=\"http://docs.oasis-open.org/ws-rx/wsrm/200702\" \
    xmlns:c=\"http://docs.oasis-open.org/ws-rx/wsmc/200702\"><s:Header>\
    <a:To>http://node1.example/</a:To>\
    <a:Action>http://docs.oasis-open.org/ws-rx/wsrm/200702/SequenceAcknowledgement</a:Action>\
    <r:SequenceAcknowledgement><r:Identifier>urn:uuid:00000000-0000-8002-8000-000000000001</r:Identifier>\
    <r:AcknowledgementRange Lower=\"1\" Upper=\"1\"/></r:SequenceAcknowledgement></s:Header><s:Body></s:Body>\
    </s:Envelope>";

#[test]
fn a_packet_is_an_envelope(rt: HostRuntime) -> Result<(), Fail> {
    let (_report, wire) = played_with_wire(rt.alloc(), IN_ORDER)?;
    let packet = wire.get(6).ok_or("a sixth packet")?;
    assert_eq!(rt; packet.to, 1);
    assert_eq!(rt; packet.bytes, FIRST_ACKNOWLEDGED);
    Ok(())
}

// A sequence is asked for once, and that comes twice.
const ASKED_TWICE: &[u8] = b"create 1\ndeliver 1\ndeliver 1\n";

// The identifier of node 2's first sequence, as a response has it.
const FIRST_IDENTIFIER: &[u8] =
    b"<r:CreateSequenceResponse><r:Identifier>urn:uuid:00000000-0000-8002-8000-000000000001</r:Identifier>";

#[test]
fn a_sequence_is_granted_once(rt: HostRuntime) -> Result<(), Fail> {
    let (_report, wire) = played_with_wire(rt.alloc(), ASKED_TWICE)?;
    for number in [2, 3] {
        let packet = wire.get(number).ok_or("a response")?;
        assert!(rt; has(packet.bytes, FIRST_IDENTIFIER), "in packet {number}");
    }
    Ok(())
}
