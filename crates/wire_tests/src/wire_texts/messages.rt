//! Messages in the form that is written, which are read and written as they came.
use crate::wire_texts::forms::{Same, is_kept};
use rm_base::Memory;

const WRITTEN: [Same; 11] = [
    (
        "every block",
        b"<a:To>http://b.example/</a:To><a:Action>urn:x</a:Action><a:MessageID>urn:m</a:MessageID><a:RelatesTo>\
        urn:r</a:RelatesTo><a:ReplyTo><a:Address>http://a.example/</a:Address><a:ReferenceParameters><n:k \
        xmlns:n=\"urn:n\">1</n:k></a:ReferenceParameters></a:ReplyTo><a:FaultTo><a:Address>\
        http://www.w3.org/2005/08/addressing/none</a:Address></a:FaultTo><n:k xmlns:n=\"urn:n\" \
        a:IsReferenceParameter=\"true\" w=\"1\">2</n:k><l a:IsReferenceParameter=\"true\"></l><r:Sequence \
        s:mustUnderstand=\"true\"><r:Identifier>urn:q</r:Identifier><r:MessageNumber>9223372036854775807\
        </r:MessageNumber></r:Sequence><r:SequenceAcknowledgement><r:Identifier>urn:1</r:Identifier>\
        <r:AcknowledgementRange Lower=\"1\" Upper=\"2\"/><r:AcknowledgementRange Lower=\"4\" \
        Upper=\"9223372036854775807\"/><r:Final/></r:SequenceAcknowledgement><r:SequenceAcknowledgement>\
        <r:Identifier>urn:2</r:Identifier><r:None/><r:Final/></r:SequenceAcknowledgement>\
        <r:SequenceAcknowledgement><r:Identifier>urn:3</r:Identifier><r:Nack>2</r:Nack><r:Nack>1</r:Nack>\
        </r:SequenceAcknowledgement><r:AckRequested><r:Identifier>urn:4</r:Identifier></r:AckRequested>\
        <r:AckRequested><r:Identifier>urn:5</r:Identifier></r:AckRequested><c:MessagePending pending=\"false\"/>\
        <s:NotUnderstood qname=\"q:h\" xmlns:q=\"urn:x\"/><s:NotUnderstood qname=\"h\"/>",
        b"<o>1</o>",
    ),
    (
        "CreateSequence",
        b"<a:To>http://b.example/</a:To><a:Action>http://docs.oasis-open.org/ws-rx/wsrm/200702/CreateSequence\
        </a:Action><a:MessageID>urn:m</a:MessageID>",
        b"<r:CreateSequence><r:AcksTo><a:Address>http://a.example/</a:Address></r:AcksTo><r:Expires>P1MT86400S\
        </r:Expires><r:Offer><r:Identifier>urn:o</r:Identifier><r:Endpoint><a:Address>http://a.example/\
        </a:Address></r:Endpoint><r:Expires>PT0.001S</r:Expires><r:IncompleteSequenceBehavior>\
        DiscardFollowingFirstGap</r:IncompleteSequenceBehavior></r:Offer></r:CreateSequence>",
    ),
    (
        "CreateSequenceResponse",
        b"<a:To>http://a.example/</a:To><a:Action>\
        http://docs.oasis-open.org/ws-rx/wsrm/200702/CreateSequenceResponse</a:Action><a:RelatesTo>urn:m\
        </a:RelatesTo>",
        b"<r:CreateSequenceResponse><r:Identifier>urn:q</r:Identifier><r:Expires>P1M</r:Expires>\
        <r:IncompleteSequenceBehavior>DiscardEntireSequence</r:IncompleteSequenceBehavior><r:Accept><r:AcksTo>\
        <a:Address>http://www.w3.org/2005/08/addressing/anonymous</a:Address></r:AcksTo></r:Accept>\
        </r:CreateSequenceResponse>",
    ),
    (
        "CloseSequence",
        b"<a:To>http://b.example/</a:To><a:Action>http://docs.oasis-open.org/ws-rx/wsrm/200702/CloseSequence\
        </a:Action><a:MessageID>urn:m</a:MessageID>",
        b"<r:CloseSequence><r:Identifier>urn:q</r:Identifier><r:LastMsgNumber>3</r:LastMsgNumber>\
        </r:CloseSequence>",
    ),
    (
        "CloseSequenceResponse",
        b"<a:To>http://a.example/</a:To><a:Action>\
        http://docs.oasis-open.org/ws-rx/wsrm/200702/CloseSequenceResponse</a:Action><a:RelatesTo>urn:m\
        </a:RelatesTo><r:SequenceAcknowledgement><r:Identifier>urn:q</r:Identifier><r:AcknowledgementRange \
        Lower=\"1\" Upper=\"3\"/><r:Final/></r:SequenceAcknowledgement>",
        b"<r:CloseSequenceResponse><r:Identifier>urn:q</r:Identifier></r:CloseSequenceResponse>",
    ),
    (
        "TerminateSequence",
        b"<a:To>http://b.example/</a:To><a:Action>http://docs.oasis-open.org/ws-rx/wsrm/200702/TerminateSequence\
        </a:Action><a:MessageID>urn:m</a:MessageID>",
        b"<r:TerminateSequence><r:Identifier>urn:q</r:Identifier><r:LastMsgNumber>3</r:LastMsgNumber>\
        </r:TerminateSequence>",
    ),
    (
        "TerminateSequenceResponse",
        b"<a:To>http://a.example/</a:To><a:Action>\
        http://docs.oasis-open.org/ws-rx/wsrm/200702/TerminateSequenceResponse</a:Action><a:RelatesTo>urn:m\
        </a:RelatesTo><r:SequenceAcknowledgement><r:Identifier>urn:q</r:Identifier><r:AcknowledgementRange \
        Lower=\"1\" Upper=\"3\"/><r:Final/></r:SequenceAcknowledgement>",
        b"<r:TerminateSequenceResponse><r:Identifier>urn:q</r:Identifier></r:TerminateSequenceResponse>",
    ),
    (
        "MakeConnection",
        b"<a:To>http://b.example/</a:To><a:Action>http://docs.oasis-open.org/ws-rx/wsmc/200702/MakeConnection\
        </a:Action>",
        b"<c:MakeConnection><c:Address>http://docs.oasis-open.org/ws-rx/wsmc/200702/anonymous?id=1</c:Address>\
        <c:Other/></c:MakeConnection>",
    ),
    (
        "Fault",
        b"<a:To>http://a.example/</a:To><a:Action>http://www.w3.org/2005/08/addressing/fault</a:Action>\
        <a:RelatesTo>urn:m</a:RelatesTo>",
        b"<s:Fault><s:Code><s:Value>s:Sender</s:Value><s:Subcode><s:Value xmlns:q=\"urn:x\">q:one</s:Value>\
        <s:Subcode><s:Value xmlns:q=\"urn:y\">q:two</s:Value></s:Subcode></s:Subcode></s:Code><s:Reason><s:Text \
        xml:lang=\"en\">a &amp; b</s:Text></s:Reason><s:Detail><n:e xmlns:n=\"urn:n\" xmlns:q0=\"urn:o\" \
        q0:p=\"&quot;&#9;&#10;&#13;\" xml:lang=\"de\" z=\"1\">&lt;<f></f>&gt;&#13;</n:e></s:Detail></s:Fault>",
    ),
    (
        "AckRequested",
        b"<a:To>http://b.example/</a:To><a:Action>http://docs.oasis-open.org/ws-rx/wsrm/200702/AckRequested\
        </a:Action><r:AckRequested><r:Identifier>urn:q</r:Identifier></r:AckRequested>",
        b"",
    ),
    (
        "in no sequence",
        b"<a:To>http://b.example/</a:To><a:Action>urn:wsrm:payload</a:Action>",
        b"<p>1</p>",
    ),
];

#[test]
fn each_form_is_kept(rt: HostRuntime) -> Result<(), Memory> {
    for row in &WRITTEN {
        assert!(rt; is_kept(rt.alloc(), row)?, "{}", row.0);
    }
    Ok(())
}
