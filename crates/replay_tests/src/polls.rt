//! The texts of what a node asks for that nobody can reach, and of what it is given.

use crate::stage::played_with_wire;
use rm_base::wire::Wire;
use std::test::Fail;

// Two messages of a node that is polled for, whose acknowledgements wait and are then given to it.
const TWO_WAIT: &[u8] = b"create 1 polled\ndeliver 1\npoll 1\ndeliver 2\ndeliver 3\n\
    send 1 1 <p>1</p>\nsend 1 1 <p>2</p>\ndeliver 4\ndeliver 5\ndeliver 2\ndeliver 2\n";

// What node 1 asks with.
const ASKED: &[u8] = b"<s:Envelope xmlns:s=\"http://www.w3.org/2003/05/soap-envelope\" \
    xmlns:a=\"http://www.w3.org/2005/08/addressing\" \
    xmlns:r=\"http://docs.oasis-open.org/ws-rx/wsrm/200702\" \
    xmlns:c=\"http://docs.oasis-open.org/ws-rx/wsmc/200702\"><s:Header>\
    <a:To>http://node2.example/</a:To>\
    <a:Action>http://docs.oasis-open.org/ws-rx/wsmc/200702/MakeConnection</a:Action>\
    </s:Header><s:Body><c:MakeConnection>\
    <c:Address>http://docs.oasis-open.org/ws-rx/wsmc/200702/anonymous?id=00000000-0000-8001-8000-000000000000\
    </c:Address></c:MakeConnection></s:Body></s:Envelope>";

// The acknowledgement of the first message, behind which another one waits.
const FIRST: &[u8] = b"<s:Envelope xmlns:s=\"http://www.w3.org/2003/05/soap-envelope\" \
    xmlns:a=\"http://www.w3.org/2005/08/addressing\" \
    xmlns:r=\"http://docs.oasis-open.org/ws-rx/wsrm/200702\" \
    xmlns:c=\"http://docs.oasis-open.org/ws-rx/wsmc/200702\"><s:Header>\
    <a:To>http://docs.oasis-open.org/ws-rx/wsmc/200702/anonymous?id=00000000-0000-8001-8000-000000000000</a:To>\
    <a:Action>http://docs.oasis-open.org/ws-rx/wsrm/200702/SequenceAcknowledgement</a:Action>\
    <r:SequenceAcknowledgement><r:Identifier>urn:uuid:00000000-0000-8002-8000-000000000001</r:Identifier>\
    <r:AcknowledgementRange Lower=\"1\" Upper=\"1\"/></r:SequenceAcknowledgement>\
    <c:MessagePending pending=\"true\"/></s:Header><s:Body></s:Body></s:Envelope>";

// That of both, the last.
const SECOND: &[u8] = b"<s:Envelope xmlns:s=\"http://www.w3.org/2003/05/soap-envelope\" \
    xmlns:a=\"http://www.w3.org/2005/08/addressing\" \
    xmlns:r=\"http://docs.oasis-open.org/ws-rx/wsrm/200702\" \
    xmlns:c=\"http://docs.oasis-open.org/ws-rx/wsmc/200702\"><s:Header>\
    <a:To>http://docs.oasis-open.org/ws-rx/wsmc/200702/anonymous?id=00000000-0000-8001-8000-000000000000</a:To>\
    <a:Action>http://docs.oasis-open.org/ws-rx/wsrm/200702/SequenceAcknowledgement</a:Action>\
    <r:SequenceAcknowledgement><r:Identifier>urn:uuid:00000000-0000-8002-8000-000000000001</r:Identifier>\
    <r:AcknowledgementRange Lower=\"1\" Upper=\"2\"/></r:SequenceAcknowledgement>\
    <c:MessagePending pending=\"false\"/></s:Header><s:Body></s:Body></s:Envelope>";

#[test]
fn what_waits_is_given_one_by_one(rt: HostRuntime) -> Result<(), Fail> {
    let (_report, wire) = played_with_wire(rt.alloc(), TWO_WAIT)?;
    for (number, to, bytes) in [(2, 2, ASKED), (6, 1, FIRST), (7, 1, SECOND)] {
        let packet = wire.get(number).ok_or("a packet")?;
        assert!(rt; packet.to == to, "in packet {number}");
        assert!(rt; packet.bytes == bytes, "in packet {number}");
    }
    Ok(())
}
