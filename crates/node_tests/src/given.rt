//! What comes to a node for one of its sequences: each message of the protocol, and each of its faults.
use crate::texts::{FIRST_OF_1, envelope};
use rm_base::{Blob, Memory};
use std::alloc::Global;

/// A message that names a sequence, or a fault.
#[derive(Clone, Copy)]
pub(crate) enum Given {
    Second,
    First,
    Ack,
    Final,
    Asked,
    Create,
    Response,
    Close,
    Closed,
    End,
    Ended,
    Terminated,
    Unknown,
    Rollover,
    Shut,
    Refused,
    Required,
    Invalid,
}

// The action of a message, a block, what stands between Body's tags, and a name. In these, `@` stands for the
// identifier of a sequence, and `#` for the name.
type Form = [&'static [u8]; 4];

// The second message of a sequence.
const SECOND: Form = [
    b"urn:wsrm:payload",
    b"<r:Sequence s:mustUnderstand=\"true\"><r:Identifier>@</r:Identifier><r:MessageNumber>2</r:MessageNumber>\
        </r:Sequence>",
    b"<p/>",
    b"",
];

// The first one.
const FIRST: Form = [
    b"urn:wsrm:payload",
    b"<r:Sequence s:mustUnderstand=\"true\"><r:Identifier>@</r:Identifier><r:MessageNumber>1</r:MessageNumber>\
        </r:Sequence>",
    b"<p/>",
    b"",
];

// Message 1 is acknowledged.
const ACK: Form = [
    b"http://docs.oasis-open.org/ws-rx/wsrm/200702/SequenceAcknowledgement",
    b"<r:SequenceAcknowledgement><r:Identifier>@</r:Identifier><r:AcknowledgementRange Lower=\"1\" Upper=\"1\"/>\
        </r:SequenceAcknowledgement>",
    b"",
    b"",
];

// No message is acknowledged, and none will be.
const FINAL: Form = [
    b"http://docs.oasis-open.org/ws-rx/wsrm/200702/SequenceAcknowledgement",
    b"<r:SequenceAcknowledgement><r:Identifier>@</r:Identifier><r:None/><r:Final/></r:SequenceAcknowledgement>",
    b"",
    b"",
];

// An acknowledgement is asked for.
const ASKED: Form = [
    b"http://docs.oasis-open.org/ws-rx/wsrm/200702/AckRequested",
    b"<r:AckRequested><r:Identifier>@</r:Identifier></r:AckRequested>",
    b"",
    b"",
];

// The request for a sequence again.
const CREATE: Form = [
    b"http://docs.oasis-open.org/ws-rx/wsrm/200702/CreateSequence",
    b"<a:MessageID>urn:m</a:MessageID>",
    b"<r:CreateSequence><r:AcksTo><a:Address>http://node1.example/</a:Address></r:AcksTo></r:CreateSequence>",
    b"",
];

// A sequence is granted.
const RESPONSE: Form = [
    b"http://docs.oasis-open.org/ws-rx/wsrm/200702/CreateSequenceResponse",
    b"",
    b"<r:CreateSequenceResponse><r:Identifier>@</r:Identifier></r:CreateSequenceResponse>",
    b"",
];

// A sequence is closed behind its first message.
const CLOSE: Form = [
    b"http://docs.oasis-open.org/ws-rx/wsrm/200702/CloseSequence",
    b"",
    b"<r:CloseSequence><r:Identifier>@</r:Identifier><r:LastMsgNumber>1</r:LastMsgNumber></r:CloseSequence>",
    b"",
];

// And the answer to that.
const CLOSED: Form = [
    b"http://docs.oasis-open.org/ws-rx/wsrm/200702/CloseSequenceResponse",
    b"",
    b"<r:CloseSequenceResponse><r:Identifier>@</r:Identifier></r:CloseSequenceResponse>",
    b"",
];

// A sequence is ended behind its first message.
const END: Form = [
    b"http://docs.oasis-open.org/ws-rx/wsrm/200702/TerminateSequence",
    b"",
    b"<r:TerminateSequence><r:Identifier>@</r:Identifier><r:LastMsgNumber>1</r:LastMsgNumber></r:TerminateSequence>",
    b"",
];

// And the answer to that.
const ENDED: Form = [
    b"http://docs.oasis-open.org/ws-rx/wsrm/200702/TerminateSequenceResponse",
    b"",
    b"<r:TerminateSequenceResponse><r:Identifier>@</r:Identifier></r:TerminateSequenceResponse>",
    b"",
];

const FAULT: &[u8] = b"http://docs.oasis-open.org/ws-rx/wsrm/200702/fault";

const FAULT_BODY: &[u8] = b"<s:Fault><s:Code><s:Value>s:Sender</s:Value><s:Subcode>\
    <s:Value xmlns:q=\"http://docs.oasis-open.org/ws-rx/wsrm/200702\">q:#</s:Value></s:Subcode></s:Code>\
    <s:Reason><s:Text xml:lang=\"en\">#</s:Text></s:Reason>\
    <s:Detail><r:Identifier>@</r:Identifier></s:Detail></s:Fault>";

// The sequence was ended.
const TERMINATED: Form = [FAULT, b"", FAULT_BODY, b"SequenceTerminated"];

// There is no such sequence.
const UNKNOWN: Form = [FAULT, b"", FAULT_BODY, b"UnknownSequence"];

// The numbers are used up.
const ROLLOVER: Form = [FAULT, b"", FAULT_BODY, b"MessageNumberRollover"];

// The sequence takes no further message.
const SHUT: Form = [FAULT, b"", FAULT_BODY, b"SequenceClosed"];

// No sequence is granted.
const REFUSED: Form = [FAULT, b"", FAULT_BODY, b"CreateSequenceRefused"];

// A message has no Sequence header.
const REQUIRED: Form = [FAULT, b"", FAULT_BODY, b"WSRMRequired"];

// A message is acknowledged that was not sent.
const INVALID: Form = [FAULT, b"", FAULT_BODY, b"InvalidAcknowledgement"];

// The form of each.
fn form_of(given: Given) -> Form {
    match given {
        Given::Second => SECOND,
        Given::First => FIRST,
        Given::Ack => ACK,
        Given::Final => FINAL,
        Given::Asked => ASKED,
        Given::Create => CREATE,
        Given::Response => RESPONSE,
        Given::Close => CLOSE,
        Given::Closed => CLOSED,
        Given::End => END,
        Given::Ended => ENDED,
        Given::Terminated => TERMINATED,
        Given::Unknown => UNKNOWN,
        Given::Rollover => ROLLOVER,
        Given::Shut => SHUT,
        Given::Refused => REFUSED,
        Given::Required => REQUIRED,
        Given::Invalid => INVALID,
    }
}

// Puts a text down with an identifier and a name in it.
fn fill(text: &mut Blob, form: &[u8], ident: &[u8], name: &[u8]) -> Result<(), Memory> {
    for byte in form {
        match *byte {
            b'@' => text.push_all(ident)?,
            b'#' => text.push_all(name)?,
            other => text.push_all(&[other])?,
        }
    }
    Ok(())
}

// Texts one behind the other, with an identifier and a name in them.
fn filled(alloc: Global, forms: &[&[u8]], ident: &[u8], name: &[u8]) -> Result<Blob, Memory> {
    let mut text = Blob::new(alloc);
    for form in forms {
        fill(&mut text, form, ident, name)?;
    }
    Ok(text)
}

const TO: &[u8] = b"<a:To>http://node.example/</a:To><a:Action>";

/// The envelope of what comes for the sequence with an identifier. It relates to the first request of node 1.
pub(crate) fn text_of(alloc: Global, given: Given, ident: &[u8]) -> Result<Blob, Memory> {
    let [action, block, body, name] = form_of(given);
    let relates = b"</a:Action><a:RelatesTo>";
    let forms = [TO, action, relates, FIRST_OF_1, b"</a:RelatesTo>", block];
    let blocks = filled(alloc, &forms, ident, name)?;
    let content = filled(alloc, &[body], ident, name)?;
    envelope(alloc, blocks.as_slice(), content.as_slice())
}
