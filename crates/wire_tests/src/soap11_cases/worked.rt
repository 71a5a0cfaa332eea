//! The message examples of WS-ReliableMessaging 1.2 and its faults bound to SOAP 1.1 (section 4), as documents of SOAP
//! 1.1 with the prefixes of that standard, and the examples of SOAP 1.1's note: what each is written as in either
//! version.
use crate::soap11_cases::forms::{START11, START12, is_lifted, is_written, joined, kind_of};
use rm_base::{Blob, Memory};
use rm_message::FaultKind;
use std::alloc::Global;

// What an envelope is named, what stands in it as the standard writes it, and what stands in it as it is written in
// SOAP 1.1 and in SOAP 1.2.
type Worked = (&'static str, &'static [u8], &'static [u8], &'static [u8]);

const BEFORE: &[u8] = b"<?xml version=\"1.0\" encoding=\"UTF-8\"?>\n\
    <S:Envelope xmlns:S=\"http://schemas.xmlsoap.org/soap/envelope/\"\n\
    xmlns:wsrm=\"http://docs.oasis-open.org/ws-rx/wsrm/200702\"\nxmlns:wsa=\"http://www.w3.org/2005/08/addressing\">\n";

const BEHIND: &[u8] = b"\n</S:Envelope>\n";

const MESSAGES: [Worked; 7] = [
    (
        "CreateSequence",
        b"<S:Header>\n<wsa:MessageID>\nhttp://Business456.com/guid/0baaf88d-483b-4ecf-a6d8-a7c2eb546817\n\
        </wsa:MessageID>\n<wsa:To>http://example.com/serviceB/123</wsa:To>\n\
        <wsa:Action>http://docs.oasis-open.org/ws-rx/wsrm/200702/CreateSequence</wsa:Action>\n<wsa:ReplyTo>\n\
        <wsa:Address>http://Business456.com/serviceA/789</wsa:Address>\n</wsa:ReplyTo>\n</S:Header>\n<S:Body>\n\
        <wsrm:CreateSequence>\n<wsrm:AcksTo>\n<wsa:Address>http://Business456.com/serviceA/789</wsa:Address>\n\
        </wsrm:AcksTo>\n</wsrm:CreateSequence>\n</S:Body>",
        b"<s:Header><a:To>http://example.com/serviceB/123</a:To>\
        <a:Action>http://docs.oasis-open.org/ws-rx/wsrm/200702/CreateSequence</a:Action>\
        <a:MessageID>http://Business456.com/guid/0baaf88d-483b-4ecf-a6d8-a7c2eb546817</a:MessageID>\
        <a:ReplyTo><a:Address>http://Business456.com/serviceA/789</a:Address></a:ReplyTo></s:Header><s:Body>\
        <r:CreateSequence><r:AcksTo><a:Address>http://Business456.com/serviceA/789</a:Address></r:AcksTo>\
        </r:CreateSequence></s:Body>",
        b"<s:Header><a:To>http://example.com/serviceB/123</a:To>\
        <a:Action>http://docs.oasis-open.org/ws-rx/wsrm/200702/CreateSequence</a:Action>\
        <a:MessageID>http://Business456.com/guid/0baaf88d-483b-4ecf-a6d8-a7c2eb546817</a:MessageID>\
        <a:ReplyTo><a:Address>http://Business456.com/serviceA/789</a:Address></a:ReplyTo></s:Header><s:Body>\
        <r:CreateSequence><r:AcksTo><a:Address>http://Business456.com/serviceA/789</a:Address></r:AcksTo>\
        </r:CreateSequence></s:Body>",
    ),
    (
        "CreateSequenceResponse",
        b"<S:Header>\n<wsa:To>http://Business456.com/serviceA/789</wsa:To>\n<wsa:RelatesTo>\n\
        http://Business456.com/guid/0baaf88d-483b-4ecf-a6d8-a7c2eb546817\n</wsa:RelatesTo>\n<wsa:Action>\n\
        http://docs.oasis-open.org/ws-rx/wsrm/200702/CreateSequenceResponse\n</wsa:Action>\n</S:Header>\n<S:Body>\n\
        <wsrm:CreateSequenceResponse>\n<wsrm:Identifier>http://Business456.com/RM/ABC</wsrm:Identifier>\n\
        </wsrm:CreateSequenceResponse>\n</S:Body>",
        b"<s:Header><a:To>http://Business456.com/serviceA/789</a:To>\
        <a:Action>http://docs.oasis-open.org/ws-rx/wsrm/200702/CreateSequenceResponse</a:Action>\
        <a:RelatesTo>http://Business456.com/guid/0baaf88d-483b-4ecf-a6d8-a7c2eb546817</a:RelatesTo></s:Header>\
        <s:Body><r:CreateSequenceResponse><r:Identifier>http://Business456.com/RM/ABC</r:Identifier>\
        <r:IncompleteSequenceBehavior>NoDiscard</r:IncompleteSequenceBehavior></r:CreateSequenceResponse></s:Body>",
        b"<s:Header><a:To>http://Business456.com/serviceA/789</a:To>\
        <a:Action>http://docs.oasis-open.org/ws-rx/wsrm/200702/CreateSequenceResponse</a:Action>\
        <a:RelatesTo>http://Business456.com/guid/0baaf88d-483b-4ecf-a6d8-a7c2eb546817</a:RelatesTo></s:Header>\
        <s:Body><r:CreateSequenceResponse><r:Identifier>http://Business456.com/RM/ABC</r:Identifier>\
        <r:IncompleteSequenceBehavior>NoDiscard</r:IncompleteSequenceBehavior></r:CreateSequenceResponse></s:Body>",
    ),
    (
        "message 1",
        b"<S:Header>\n<wsa:MessageID>\nhttp://Business456.com/guid/71e0654e-5ce8-477b-bb9d-34f05cfcbc9e\n\
        </wsa:MessageID>\n<wsa:To>http://example.com/serviceB/123</wsa:To>\n<wsa:From>\n\
        <wsa:Address>http://Business456.com/serviceA/789</wsa:Address>\n</wsa:From>\n\
        <wsa:Action>http://example.com/serviceB/123/request</wsa:Action>\n<wsrm:Sequence>\n\
        <wsrm:Identifier>http://Business456.com/RM/ABC</wsrm:Identifier>\n\
        <wsrm:MessageNumber>1</wsrm:MessageNumber>\n</wsrm:Sequence>\n</S:Header>\n\
        <S:Body><!-- Some Application Data --></S:Body>",
        b"<s:Header><a:To>http://example.com/serviceB/123</a:To>\
        <a:Action>http://example.com/serviceB/123/request</a:Action>\
        <a:MessageID>http://Business456.com/guid/71e0654e-5ce8-477b-bb9d-34f05cfcbc9e</a:MessageID>\
        <r:Sequence s:mustUnderstand=\"1\"><r:Identifier>http://Business456.com/RM/ABC</r:Identifier>\
        <r:MessageNumber>1</r:MessageNumber></r:Sequence></s:Header><s:Body><!-- Some Application Data --></s:Body>",
        b"<s:Header><a:To>http://example.com/serviceB/123</a:To>\
        <a:Action>http://example.com/serviceB/123/request</a:Action>\
        <a:MessageID>http://Business456.com/guid/71e0654e-5ce8-477b-bb9d-34f05cfcbc9e</a:MessageID>\
        <r:Sequence s:mustUnderstand=\"true\"><r:Identifier>http://Business456.com/RM/ABC</r:Identifier>\
        <r:MessageNumber>1</r:MessageNumber></r:Sequence></s:Header>\
        <w0:Body xmlns:w0=\"http://www.w3.org/2003/05/soap-envelope\" \
        xmlns:S=\"http://schemas.xmlsoap.org/soap/envelope/\" xmlns:wsa=\"http://www.w3.org/2005/08/addressing\" \
        xmlns:wsrm=\"http://docs.oasis-open.org/ws-rx/wsrm/200702\"><!-- Some Application Data --></w0:Body>",
    ),
    (
        "message 3, with an AckRequested",
        b"<S:Header>\n<wsa:MessageID>\nhttp://Business456.com/guid/0baaf88d-483b-4ecf-a6d8-a7c2eb546819\n\
        </wsa:MessageID>\n<wsa:To>http://example.com/serviceB/123</wsa:To>\n<wsa:From>\n\
        <wsa:Address>http://Business456.com/serviceA/789</wsa:Address>\n</wsa:From>\n\
        <wsa:Action>http://example.com/serviceB/123/request</wsa:Action>\n<wsrm:Sequence>\n\
        <wsrm:Identifier>http://Business456.com/RM/ABC</wsrm:Identifier>\n\
        <wsrm:MessageNumber>3</wsrm:MessageNumber>\n</wsrm:Sequence>\n<wsrm:AckRequested>\n\
        <wsrm:Identifier>http://Business456.com/RM/ABC</wsrm:Identifier>\n</wsrm:AckRequested>\n</S:Header>\n\
        <S:Body><!-- Some Application Data --></S:Body>",
        b"<s:Header><a:To>http://example.com/serviceB/123</a:To>\
        <a:Action>http://example.com/serviceB/123/request</a:Action>\
        <a:MessageID>http://Business456.com/guid/0baaf88d-483b-4ecf-a6d8-a7c2eb546819</a:MessageID>\
        <r:Sequence s:mustUnderstand=\"1\"><r:Identifier>http://Business456.com/RM/ABC</r:Identifier>\
        <r:MessageNumber>3</r:MessageNumber></r:Sequence><r:AckRequested>\
        <r:Identifier>http://Business456.com/RM/ABC</r:Identifier></r:AckRequested></s:Header>\
        <s:Body><!-- Some Application Data --></s:Body>",
        b"<s:Header><a:To>http://example.com/serviceB/123</a:To>\
        <a:Action>http://example.com/serviceB/123/request</a:Action>\
        <a:MessageID>http://Business456.com/guid/0baaf88d-483b-4ecf-a6d8-a7c2eb546819</a:MessageID>\
        <r:Sequence s:mustUnderstand=\"true\"><r:Identifier>http://Business456.com/RM/ABC</r:Identifier>\
        <r:MessageNumber>3</r:MessageNumber></r:Sequence><r:AckRequested>\
        <r:Identifier>http://Business456.com/RM/ABC</r:Identifier></r:AckRequested></s:Header>\
        <w0:Body xmlns:w0=\"http://www.w3.org/2003/05/soap-envelope\" \
        xmlns:S=\"http://schemas.xmlsoap.org/soap/envelope/\" xmlns:wsa=\"http://www.w3.org/2005/08/addressing\" \
        xmlns:wsrm=\"http://docs.oasis-open.org/ws-rx/wsrm/200702\"><!-- Some Application Data --></w0:Body>",
    ),
    (
        "the first acknowledgement",
        b"<S:Header>\n<wsa:MessageID>\nhttp://example.com/guid/0baaf88d-483b-4ecf-a6d8-a7c2eb546818\n\
        </wsa:MessageID>\n<wsa:To>http://Business456.com/serviceA/789</wsa:To>\n<wsa:From>\n\
        <wsa:Address>http://example.com/serviceB/123</wsa:Address>\n</wsa:From>\n<wsa:Action>\n\
        http://docs.oasis-open.org/ws-rx/wsrm/200702/SequenceAcknowledgement\n</wsa:Action>\n\
        <wsrm:SequenceAcknowledgement>\n<wsrm:Identifier>http://Business456.com/RM/ABC</wsrm:Identifier>\n\
        <wsrm:AcknowledgementRange Upper=\"1\" Lower=\"1\"/>\n<wsrm:AcknowledgementRange Upper=\"3\" Lower=\"3\"/>\n\
        </wsrm:SequenceAcknowledgement>\n</S:Header>\n<S:Body/>",
        b"<s:Header><a:To>http://Business456.com/serviceA/789</a:To>\
        <a:Action>http://docs.oasis-open.org/ws-rx/wsrm/200702/SequenceAcknowledgement</a:Action>\
        <a:MessageID>http://example.com/guid/0baaf88d-483b-4ecf-a6d8-a7c2eb546818</a:MessageID>\
        <r:SequenceAcknowledgement><r:Identifier>http://Business456.com/RM/ABC</r:Identifier>\
        <r:AcknowledgementRange Lower=\"1\" Upper=\"1\"/><r:AcknowledgementRange Lower=\"3\" Upper=\"3\"/>\
        </r:SequenceAcknowledgement></s:Header><s:Body></s:Body>",
        b"<s:Header><a:To>http://Business456.com/serviceA/789</a:To>\
        <a:Action>http://docs.oasis-open.org/ws-rx/wsrm/200702/SequenceAcknowledgement</a:Action>\
        <a:MessageID>http://example.com/guid/0baaf88d-483b-4ecf-a6d8-a7c2eb546818</a:MessageID>\
        <r:SequenceAcknowledgement><r:Identifier>http://Business456.com/RM/ABC</r:Identifier>\
        <r:AcknowledgementRange Lower=\"1\" Upper=\"1\"/><r:AcknowledgementRange Lower=\"3\" Upper=\"3\"/>\
        </r:SequenceAcknowledgement></s:Header><s:Body></s:Body>",
    ),
    (
        "TerminateSequence",
        b"<S:Header>\n<wsa:MessageID>\nhttp://Business456.com/guid/0baaf88d-483b-4ecf-a6d8-a7c2eb546820\n\
        </wsa:MessageID>\n<wsa:To>http://example.com/serviceB/123</wsa:To>\n<wsa:Action>\n\
        http://docs.oasis-open.org/ws-rx/wsrm/200702/TerminateSequence\n</wsa:Action>\n<wsa:From>\n\
        <wsa:Address>http://Business456.com/serviceA/789</wsa:Address>\n</wsa:From>\n</S:Header>\n<S:Body>\n\
        <wsrm:TerminateSequence>\n<wsrm:Identifier>http://Business456.com/RM/ABC</wsrm:Identifier>\n\
        <wsrm:LastMsgNumber> 3 </wsrm:LastMsgNumber>\n</wsrm:TerminateSequence>\n</S:Body>",
        b"<s:Header><a:To>http://example.com/serviceB/123</a:To>\
        <a:Action>http://docs.oasis-open.org/ws-rx/wsrm/200702/TerminateSequence</a:Action>\
        <a:MessageID>http://Business456.com/guid/0baaf88d-483b-4ecf-a6d8-a7c2eb546820</a:MessageID></s:Header>\
        <s:Body><r:TerminateSequence><r:Identifier>http://Business456.com/RM/ABC</r:Identifier>\
        <r:LastMsgNumber>3</r:LastMsgNumber></r:TerminateSequence></s:Body>",
        b"<s:Header><a:To>http://example.com/serviceB/123</a:To>\
        <a:Action>http://docs.oasis-open.org/ws-rx/wsrm/200702/TerminateSequence</a:Action>\
        <a:MessageID>http://Business456.com/guid/0baaf88d-483b-4ecf-a6d8-a7c2eb546820</a:MessageID></s:Header>\
        <s:Body><r:TerminateSequence><r:Identifier>http://Business456.com/RM/ABC</r:Identifier>\
        <r:LastMsgNumber>3</r:LastMsgNumber></r:TerminateSequence></s:Body>",
    ),
    (
        "TerminateSequenceResponse",
        b"<S:Header>\n<wsa:MessageID>\nhttp://Business456.com/guid/0baaf88d-483b-4ecf-a6d8-a7c2eb546821\n\
        </wsa:MessageID>\n<wsa:To>http://example.com/serviceA/789</wsa:To>\n<wsa:Action>\n\
        http://docs.oasis-open.org/ws-rx/wsrm/200702/TerminateSequenceResponse\n</wsa:Action>\n<wsa:RelatesTo>\n\
        http://Business456.com/guid/0baaf88d-483b-4ecf-a6d8-a7c2eb546820\n</wsa:RelatesTo>\n<wsa:From>\n\
        <wsa:Address>http://Business456.com/serviceA/789</wsa:Address>\n</wsa:From>\n</S:Header>\n<S:Body>\n\
        <wsrm:TerminateSequenceResponse>\n<wsrm:Identifier>http://Business456.com/RM/ABC</wsrm:Identifier>\n\
        </wsrm:TerminateSequenceResponse>\n</S:Body>",
        b"<s:Header><a:To>http://example.com/serviceA/789</a:To>\
        <a:Action>http://docs.oasis-open.org/ws-rx/wsrm/200702/TerminateSequenceResponse</a:Action>\
        <a:MessageID>http://Business456.com/guid/0baaf88d-483b-4ecf-a6d8-a7c2eb546821</a:MessageID>\
        <a:RelatesTo>http://Business456.com/guid/0baaf88d-483b-4ecf-a6d8-a7c2eb546820</a:RelatesTo></s:Header>\
        <s:Body><r:TerminateSequenceResponse><r:Identifier>http://Business456.com/RM/ABC</r:Identifier>\
        </r:TerminateSequenceResponse></s:Body>",
        b"<s:Header><a:To>http://example.com/serviceA/789</a:To>\
        <a:Action>http://docs.oasis-open.org/ws-rx/wsrm/200702/TerminateSequenceResponse</a:Action>\
        <a:MessageID>http://Business456.com/guid/0baaf88d-483b-4ecf-a6d8-a7c2eb546821</a:MessageID>\
        <a:RelatesTo>http://Business456.com/guid/0baaf88d-483b-4ecf-a6d8-a7c2eb546820</a:RelatesTo></s:Header>\
        <s:Body><r:TerminateSequenceResponse><r:Identifier>http://Business456.com/RM/ABC</r:Identifier>\
        </r:TerminateSequenceResponse></s:Body>",
    ),
];

// Two with the reasons and the detail that WS-ReliableMessaging 1.2 gives them, 4.3 and 4.6, and examples 9 and 10 of
// SOAP 1.1's note, with the Action that WS-Addressing wants.
const FAULTS: [Worked; 4] = [
    (
        "UnknownSequence",
        b"<S:Header><wsa:To>http://Business456.com/serviceA/789</wsa:To>\n\
        <wsa:Action>http://docs.oasis-open.org/ws-rx/wsrm/200702/fault</wsa:Action>\n<wsrm:SequenceFault>\n\
        <wsrm:FaultCode> wsrm:UnknownSequence </wsrm:FaultCode>\n<wsrm:Detail>\n\
        <wsrm:Identifier>http://Business456.com/RM/ABC</wsrm:Identifier>\n</wsrm:Detail>\n</wsrm:SequenceFault>\n\
        </S:Header>\n<S:Body>\n<S:Fault>\n<faultcode> S:Client </faultcode>\n\
        <faultstring> The value of wsrm:Identifier is not a known Sequence identifier. </faultstring>\n</S:Fault>\n\
        </S:Body>",
        b"<s:Header><a:To>http://Business456.com/serviceA/789</a:To>\
        <a:Action>http://docs.oasis-open.org/ws-rx/wsrm/200702/fault</a:Action><r:SequenceFault>\
        <r:FaultCode>r:UnknownSequence</r:FaultCode><r:Detail>\
        <n:Identifier xmlns:n=\"http://docs.oasis-open.org/ws-rx/wsrm/200702\">http://Business456.com/RM/ABC\
        </n:Identifier></r:Detail></r:SequenceFault></s:Header><s:Body><s:Fault><faultcode>s:Client</faultcode>\
        <faultstring>The value of wsrm:Identifier is not a known Sequence identifier.</faultstring></s:Fault></s:Body>",
        b"<s:Header><a:To>http://Business456.com/serviceA/789</a:To>\
        <a:Action>http://docs.oasis-open.org/ws-rx/wsrm/200702/fault</a:Action></s:Header><s:Body><s:Fault><s:Code>\
        <s:Value>s:Sender</s:Value><s:Subcode>\
        <s:Value xmlns:q=\"http://docs.oasis-open.org/ws-rx/wsrm/200702\">q:UnknownSequence</s:Value></s:Subcode>\
        </s:Code><s:Reason><s:Text xml:lang=\"en\">The value of wsrm:Identifier is not a known Sequence identifier.\
        </s:Text></s:Reason><s:Detail>\
        <n:Identifier xmlns:n=\"http://docs.oasis-open.org/ws-rx/wsrm/200702\">http://Business456.com/RM/ABC\
        </n:Identifier></s:Detail></s:Fault></s:Body>",
    ),
    (
        "CreateSequenceRefused",
        b"<S:Header><wsa:To>http://Business456.com/serviceA/789</wsa:To>\n\
        <wsa:Action>http://docs.oasis-open.org/ws-rx/wsrm/200702/fault</wsa:Action>\n<wsa:RelatesTo>\n\
        http://Business456.com/guid/0baaf88d-483b-4ecf-a6d8-a7c2eb546817\n</wsa:RelatesTo>\n</S:Header>\n<S:Body>\n\
        <S:Fault>\n<faultcode> wsrm:CreateSequenceRefused </faultcode>\n\
        <faultstring>The Create Sequence request has been refused by the RM Destination.</faultstring>\n</S:Fault>\n\
        </S:Body>",
        b"<s:Header><a:To>http://Business456.com/serviceA/789</a:To>\
        <a:Action>http://docs.oasis-open.org/ws-rx/wsrm/200702/fault</a:Action>\
        <a:RelatesTo>http://Business456.com/guid/0baaf88d-483b-4ecf-a6d8-a7c2eb546817</a:RelatesTo></s:Header>\
        <s:Body><s:Fault>\
        <faultcode xmlns:q=\"http://docs.oasis-open.org/ws-rx/wsrm/200702\">q:CreateSequenceRefused</faultcode>\
        <faultstring>The Create Sequence request has been refused by the RM Destination.</faultstring></s:Fault>\
        </s:Body>",
        b"<s:Header><a:To>http://Business456.com/serviceA/789</a:To>\
        <a:Action>http://docs.oasis-open.org/ws-rx/wsrm/200702/fault</a:Action>\
        <a:RelatesTo>http://Business456.com/guid/0baaf88d-483b-4ecf-a6d8-a7c2eb546817</a:RelatesTo></s:Header>\
        <s:Body><s:Fault><s:Code><s:Value>s:Receiver</s:Value><s:Subcode>\
        <s:Value xmlns:q=\"http://docs.oasis-open.org/ws-rx/wsrm/200702\">q:CreateSequenceRefused</s:Value>\
        </s:Subcode></s:Code><s:Reason>\
        <s:Text xml:lang=\"en\">The Create Sequence request has been refused by the RM Destination.</s:Text>\
        </s:Reason></s:Fault></s:Body>",
    ),
    (
        "a block that was not understood",
        b"<S:Header><wsa:Action>http://www.w3.org/2005/08/addressing/soap/fault</wsa:Action></S:Header>\n\
        <S:Body>\n<S:Fault>\n<faultcode>S:MustUnderstand</faultcode>\n\
        <faultstring>SOAP Must Understand Error</faultstring>\n</S:Fault>\n</S:Body>",
        b"<s:Header><a:To>http://www.w3.org/2005/08/addressing/anonymous</a:To>\
        <a:Action>http://www.w3.org/2005/08/addressing/soap/fault</a:Action></s:Header><s:Body><s:Fault>\
        <faultcode>s:MustUnderstand</faultcode><faultstring>SOAP Must Understand Error</faultstring></s:Fault>\
        </s:Body>",
        b"<s:Header><a:To>http://www.w3.org/2005/08/addressing/anonymous</a:To>\
        <a:Action>http://www.w3.org/2005/08/addressing/soap/fault</a:Action></s:Header><s:Body><s:Fault><s:Code>\
        <s:Value>s:MustUnderstand</s:Value></s:Code><s:Reason>\
        <s:Text xml:lang=\"en\">SOAP Must Understand Error</s:Text></s:Reason></s:Fault></s:Body>",
    ),
    (
        "an error of an application",
        b"<S:Header><wsa:Action>http://www.w3.org/2005/08/addressing/soap/fault</wsa:Action></S:Header>\n\
        <S:Body>\n<S:Fault>\n<faultcode>S:Server</faultcode>\n<faultstring>Server Error</faultstring>\n<detail>\n\
        <e:myfaultdetails xmlns:e=\"Some-URI\"><message>My application didn't work</message>\
        <errorcode>1001</errorcode></e:myfaultdetails>\n</detail>\n</S:Fault>\n</S:Body>",
        b"<s:Header><a:To>http://www.w3.org/2005/08/addressing/anonymous</a:To>\
        <a:Action>http://www.w3.org/2005/08/addressing/soap/fault</a:Action></s:Header><s:Body><s:Fault>\
        <faultcode>s:Server</faultcode><faultstring>Server Error</faultstring><detail>\
        <n:myfaultdetails xmlns:n=\"Some-URI\"><message>My application didn't work</message>\
        <errorcode>1001</errorcode></n:myfaultdetails></detail></s:Fault></s:Body>",
        b"<s:Header><a:To>http://www.w3.org/2005/08/addressing/anonymous</a:To>\
        <a:Action>http://www.w3.org/2005/08/addressing/soap/fault</a:Action></s:Header><s:Body><s:Fault><s:Code>\
        <s:Value>s:Receiver</s:Value></s:Code><s:Reason><s:Text xml:lang=\"en\">Server Error</s:Text></s:Reason>\
        <s:Detail><n:myfaultdetails xmlns:n=\"Some-URI\"><message>My application didn't work</message>\
        <errorcode>1001</errorcode></n:myfaultdetails></s:Detail></s:Fault></s:Body>",
    ),
];

// The whole envelope of which this stands within the tags.
fn written(alloc: Global, start: &[u8], content: &[u8]) -> Result<Blob, Memory> {
    joined(alloc, &[start, content, b"</s:Envelope>"])
}

fn is_told_in_11(alloc: Global, row: &Worked) -> Result<bool, Memory> {
    let document = joined(alloc, &[BEFORE, row.1, BEHIND])?;
    let text = written(alloc, START11, row.2)?;
    is_written(alloc, document.as_slice(), text.as_slice())
}

fn is_told_in_12(alloc: Global, row: &Worked) -> Result<bool, Memory> {
    let document = joined(alloc, &[BEFORE, row.1, BEHIND])?;
    let text = written(alloc, START12, row.3)?;
    is_lifted(alloc, document.as_slice(), text.as_slice())
}

// What is written in SOAP 1.1 is read as the same message.
fn is_read_again(alloc: Global, row: &Worked) -> Result<bool, Memory> {
    let text = written(alloc, START11, row.2)?;
    is_written(alloc, text.as_slice(), text.as_slice())
}

#[test]
fn messages_of_the_standard(rt: HostRuntime) -> Result<(), Memory> {
    for row in &MESSAGES {
        assert!(rt; is_told_in_11(rt.alloc(), row)?, "{} in 1.1", row.0);
        assert!(rt; is_told_in_12(rt.alloc(), row)?, "{} in 1.2", row.0);
        assert!(rt; is_read_again(rt.alloc(), row)?, "{} again", row.0);
    }
    Ok(())
}

#[test]
fn faults_of_the_standards(rt: HostRuntime) -> Result<(), Memory> {
    for row in &FAULTS {
        assert!(rt; is_told_in_11(rt.alloc(), row)?, "{} in 1.1", row.0);
        assert!(rt; is_told_in_12(rt.alloc(), row)?, "{} in 1.2", row.0);
        assert!(rt; is_read_again(rt.alloc(), row)?, "{} again", row.0);
    }
    Ok(())
}

// The note's example 1: it has no Action, which WS-Addressing wants.
const PRICE: &[u8] =
    b"<SOAP-ENV:Envelope\n  xmlns:SOAP-ENV=\"http://schemas.xmlsoap.org/soap/envelope/\"\n  \
    SOAP-ENV:encodingStyle=\"http://schemas.xmlsoap.org/soap/encoding/\">\n   <SOAP-ENV:Body>\n       \
    <m:GetLastTradePrice xmlns:m=\"Some-URI\">\n           <symbol>DIS</symbol>\n       </m:GetLastTradePrice>\n   \
    </SOAP-ENV:Body>\n</SOAP-ENV:Envelope>";

// Its example 5, with a block that has to be understood.
const TRANSACTION: &[u8] =
    b"<SOAP-ENV:Envelope\n  xmlns:SOAP-ENV=\"http://schemas.xmlsoap.org/soap/envelope/\"\n  \
    SOAP-ENV:encodingStyle=\"http://schemas.xmlsoap.org/soap/encoding/\">\n   <SOAP-ENV:Header>\n   \
    <t:Transaction\n     xmlns:t=\"some-URI\" SOAP-ENV:mustUnderstand=\"1\">\n       5\n   </t:Transaction>\n\
    </SOAP-ENV:Header>\n   <SOAP-ENV:Body>\n       <m:GetLastTradePrice xmlns:m=\"Some-URI\">\n           \
    <symbol>DEF</symbol>\n       </m:GetLastTradePrice>\n   </SOAP-ENV:Body>\n</SOAP-ENV:Envelope>";

#[test]
fn examples_of_the_note_that_are_no_messages(rt: HostRuntime) {
    assert!(rt; kind_of(rt.alloc(), PRICE) == Some(FaultKind::HeaderMissing));
    assert!(rt; kind_of(rt.alloc(), TRANSACTION) == Some(FaultKind::NotUnderstood));
}
