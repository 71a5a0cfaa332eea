//! Bodies of many forms in the frame of an envelope, each with the message that it has.
use crate::wire_texts::forms::{BARE, Framed, is_read_in_frame};
use rm_base::Memory;

const BODIES: [Framed; 14] = [
    (
        "no Fault by the action of faults",
        b"<a:Action>http://docs.oasis-open.org/ws-rx/wsrm/200702/fault</a:Action>",
        b"<o/>",
        b"<a:To>http://www.w3.org/2005/08/addressing/anonymous</a:To><a:Action>\
        http://docs.oasis-open.org/ws-rx/wsrm/200702/fault</a:Action>",
        b"",
    ),
    (
        "something besides an acknowledgement",
        b"<a:Action>http://docs.oasis-open.org/ws-rx/wsrm/200702/SequenceAcknowledgement</a:Action>",
        b"x<o/><r:CreateSequence/>",
        b"<a:To>http://www.w3.org/2005/08/addressing/anonymous</a:To><a:Action>\
        http://docs.oasis-open.org/ws-rx/wsrm/200702/SequenceAcknowledgement</a:Action>",
        b"",
    ),
    (
        "something besides a request",
        b"<a:Action>http://docs.oasis-open.org/ws-rx/wsrm/200702/AckRequested</a:Action><r:AckRequested>\
        <r:Identifier>urn:q</r:Identifier></r:AckRequested>",
        b" <o/> ",
        b"<a:To>http://www.w3.org/2005/08/addressing/anonymous</a:To><a:Action>\
        http://docs.oasis-open.org/ws-rx/wsrm/200702/AckRequested</a:Action><r:AckRequested><r:Identifier>urn:q\
        </r:Identifier></r:AckRequested>",
        b"",
    ),
    (
        "a lifecycle element by another action",
        b"<a:Action>urn:x</a:Action>",
        b"<r:CreateSequence/>",
        BARE,
        b"<r:CreateSequence/>",
    ),
    (
        "the element of another lifecycle action of an older version",
        b"<a:Action>http://schemas.xmlsoap.org/ws/2005/02/rm/TerminateSequence</a:Action>",
        b"<r:CloseSequence/>",
        b"<a:To>http://www.w3.org/2005/08/addressing/anonymous</a:To><a:Action>\
        http://schemas.xmlsoap.org/ws/2005/02/rm/TerminateSequence</a:Action>",
        b"<r:CloseSequence/>",
    ),
    (
        "children in another order",
        b"<a:MessageID>urn:m</a:MessageID><a:Action>http://docs.oasis-open.org/ws-rx/wsrm/200702/CloseSequence\
        </a:Action>",
        b"x<!-- --><r:CloseSequence x='1'>x<x:LastMsgNumber xmlns:x='urn:x'>1</x:LastMsgNumber><r:LastMsgNumber> \
        +009 </r:LastMsgNumber><r:Other/><r:Identifier> urn:q </r:Identifier></r:CloseSequence>x",
        b"<a:To>http://www.w3.org/2005/08/addressing/anonymous</a:To><a:Action>\
        http://docs.oasis-open.org/ws-rx/wsrm/200702/CloseSequence</a:Action><a:MessageID>urn:m</a:MessageID>",
        b"<r:CloseSequence><r:Identifier>urn:q</r:Identifier><r:LastMsgNumber>9</r:LastMsgNumber>\
        </r:CloseSequence>",
    ),
    (
        "no last number",
        b"<a:Action>http://docs.oasis-open.org/ws-rx/wsrm/200702/TerminateSequence</a:Action>",
        b"<r:TerminateSequence><r:Identifier>urn:q</r:Identifier></r:TerminateSequence>",
        b"<a:To>http://www.w3.org/2005/08/addressing/anonymous</a:To><a:Action>\
        http://docs.oasis-open.org/ws-rx/wsrm/200702/TerminateSequence</a:Action>",
        b"<r:TerminateSequence><r:Identifier>urn:q</r:Identifier></r:TerminateSequence>",
    ),
    (
        "a response with more children",
        b"<a:Action>http://docs.oasis-open.org/ws-rx/wsrm/200702/TerminateSequenceResponse</a:Action>",
        b"<TerminateSequenceResponse xmlns='http://docs.oasis-open.org/ws-rx/wsrm/200702'><LastMsgNumber>x\
        </LastMsgNumber><Identifier>urn:q</Identifier></TerminateSequenceResponse>",
        b"<a:To>http://www.w3.org/2005/08/addressing/anonymous</a:To><a:Action>\
        http://docs.oasis-open.org/ws-rx/wsrm/200702/TerminateSequenceResponse</a:Action>",
        b"<r:TerminateSequenceResponse><r:Identifier>urn:q</r:Identifier></r:TerminateSequenceResponse>",
    ),
    (
        "years, days and hours",
        b"<a:MessageID>urn:m</a:MessageID><a:Action>http://docs.oasis-open.org/ws-rx/wsrm/200702/CreateSequence\
        </a:Action>",
        b"<r:CreateSequence><r:AcksTo><a:Address>urn:a</a:Address></r:AcksTo><r:Expires> P1Y2M3DT4H5M6.7009S \
        </r:Expires></r:CreateSequence>",
        b"<a:To>http://www.w3.org/2005/08/addressing/anonymous</a:To><a:Action>\
        http://docs.oasis-open.org/ws-rx/wsrm/200702/CreateSequence</a:Action><a:MessageID>urn:m</a:MessageID>",
        b"<r:CreateSequence><r:AcksTo><a:Address>urn:a</a:Address></r:AcksTo><r:Expires>P14MT273906.700S\
        </r:Expires></r:CreateSequence>",
    ),
    (
        "no time at all",
        b"<a:MessageID>urn:m</a:MessageID><a:Action>http://docs.oasis-open.org/ws-rx/wsrm/200702/CreateSequence\
        </a:Action>",
        b"<r:CreateSequence><r:AcksTo><a:Address>urn:a</a:Address></r:AcksTo><r:Expires>P0DT0.000S</r:Expires>\
        </r:CreateSequence>",
        b"<a:To>http://www.w3.org/2005/08/addressing/anonymous</a:To><a:Action>\
        http://docs.oasis-open.org/ws-rx/wsrm/200702/CreateSequence</a:Action><a:MessageID>urn:m</a:MessageID>",
        b"<r:CreateSequence><r:AcksTo><a:Address>urn:a</a:Address></r:AcksTo></r:CreateSequence>",
    ),
    (
        "an offer with parameters and an empty Expires element of others",
        b"<a:MessageID>urn:m</a:MessageID><a:Action>http://docs.oasis-open.org/ws-rx/wsrm/200702/CreateSequence\
        </a:Action>",
        b"<r:CreateSequence><r:Offer><r:IncompleteSequenceBehavior>\nDiscardFollowingFirstGap \
        </r:IncompleteSequenceBehavior><r:Endpoint><a:ReferenceParameters><k>1</k></a:ReferenceParameters>\
        <a:Address>urn:e</a:Address></r:Endpoint><r:Identifier>urn:q</r:Identifier><Expires/></r:Offer><r:AcksTo>\
        <a:Address>urn:a</a:Address></r:AcksTo></r:CreateSequence>",
        b"<a:To>http://www.w3.org/2005/08/addressing/anonymous</a:To><a:Action>\
        http://docs.oasis-open.org/ws-rx/wsrm/200702/CreateSequence</a:Action><a:MessageID>urn:m</a:MessageID>",
        b"<r:CreateSequence><r:AcksTo><a:Address>urn:a</a:Address></r:AcksTo><r:Offer><r:Identifier>urn:q\
        </r:Identifier><r:Endpoint><a:Address>urn:e</a:Address><a:ReferenceParameters><k>1</k>\
        </a:ReferenceParameters></r:Endpoint><r:IncompleteSequenceBehavior>DiscardFollowingFirstGap\
        </r:IncompleteSequenceBehavior></r:Offer></r:CreateSequence>",
    ),
    (
        "a response without more than it needs",
        b"<a:Action>http://docs.oasis-open.org/ws-rx/wsrm/200702/CreateSequenceResponse</a:Action>",
        b"<r:CreateSequenceResponse><r:Identifier>urn:q</r:Identifier></r:CreateSequenceResponse>",
        b"<a:To>http://www.w3.org/2005/08/addressing/anonymous</a:To><a:Action>\
        http://docs.oasis-open.org/ws-rx/wsrm/200702/CreateSequenceResponse</a:Action>",
        b"<r:CreateSequenceResponse><r:Identifier>urn:q</r:Identifier><r:IncompleteSequenceBehavior>NoDiscard\
        </r:IncompleteSequenceBehavior></r:CreateSequenceResponse>",
    ),
    (
        "a poll that selects nothing",
        b"<a:Action>http://docs.oasis-open.org/ws-rx/wsmc/200702/MakeConnection</a:Action>",
        b"<c:MakeConnection>x<!-- --></c:MakeConnection>",
        b"<a:To>http://www.w3.org/2005/08/addressing/anonymous</a:To><a:Action>\
        http://docs.oasis-open.org/ws-rx/wsmc/200702/MakeConnection</a:Action>",
        b"<c:MakeConnection></c:MakeConnection>",
    ),
    (
        "a poll for a sequence",
        b"<a:Action>http://docs.oasis-open.org/ws-rx/wsmc/200702/MakeConnection</a:Action>",
        b"<MakeConnection xmlns='http://docs.oasis-open.org/ws-rx/wsmc/200702'><Identifier \
        xmlns='http://docs.oasis-open.org/ws-rx/wsrm/200702'>urn:q</Identifier><Address>\
        http://docs.oasis-open.org/ws-rx/wsmc/200702/anonymous?id=1</Address></MakeConnection>",
        b"<a:To>http://www.w3.org/2005/08/addressing/anonymous</a:To><a:Action>\
        http://docs.oasis-open.org/ws-rx/wsmc/200702/MakeConnection</a:Action>",
        b"<c:MakeConnection><c:Address>http://docs.oasis-open.org/ws-rx/wsmc/200702/anonymous?id=1</c:Address>\
        <c:Other/></c:MakeConnection>",
    ),
];

#[test]
fn of_bodies(rt: HostRuntime) -> Result<(), Memory> {
    for row in &BODIES {
        assert!(rt; is_read_in_frame(rt.alloc(), row)?, "{}", row.0);
    }
    Ok(())
}
