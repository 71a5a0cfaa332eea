//! The texts that messages are lifted and lowered to.
use crate::soap11_cases::forms::{is_lifted, is_text, lowered};
use message_reader::decode;
use rm_base::Memory;
use std::alloc::Global;

// What a document of one version is named, its bytes, and its text in the other.
type Row = (&'static str, &'static [u8], &'static [u8]);

const LIFTED: [Row; 2] = [
    (
        "a payload with what is bound around it",
        b"<w0:Envelope xmlns:w0='http://schemas.xmlsoap.org/soap/envelope/' xmlns='urn:d'><w0:Header><a:Action \
        xmlns:a='http://www.w3.org/2005/08/addressing'>urn:x</a:Action></w0:Header><w0:Body xmlns:o='urn:&quot;'>\
        <o:x a='1'/>&#65;</w0:Body></w0:Envelope>",
        b"<s:Envelope xmlns:s=\"http://www.w3.org/2003/05/soap-envelope\" \
        xmlns:a=\"http://www.w3.org/2005/08/addressing\" xmlns:r=\"http://docs.oasis-open.org/ws-rx/wsrm/200702\" \
        xmlns:c=\"http://docs.oasis-open.org/ws-rx/wsmc/200702\"><s:Header>\
        <a:To>http://www.w3.org/2005/08/addressing/anonymous</a:To><a:Action>urn:x</a:Action></s:Header>\
        <w1:Body xmlns:w1=\"http://www.w3.org/2003/05/soap-envelope\" xmlns=\"urn:d\" xmlns:o=\"urn:&quot;\" \
        xmlns:w0=\"http://schemas.xmlsoap.org/soap/envelope/\"><o:x a='1'/>&#65;</w1:Body></s:Envelope>",
    ),
    (
        "an acknowledgement",
        b"<s:Envelope xmlns:s='http://schemas.xmlsoap.org/soap/envelope/' \
        xmlns:a='http://www.w3.org/2005/08/addressing' xmlns:r='http://docs.oasis-open.org/ws-rx/wsrm/200702'>\
        <s:Header><a:Action>http://docs.oasis-open.org/ws-rx/wsrm/200702/AckRequested</a:Action>\
        <r:AckRequested><r:Identifier>urn:q</r:Identifier></r:AckRequested></s:Header><s:Body/></s:Envelope>",
        b"<s:Envelope xmlns:s=\"http://www.w3.org/2003/05/soap-envelope\" \
        xmlns:a=\"http://www.w3.org/2005/08/addressing\" xmlns:r=\"http://docs.oasis-open.org/ws-rx/wsrm/200702\" \
        xmlns:c=\"http://docs.oasis-open.org/ws-rx/wsmc/200702\"><s:Header>\
        <a:To>http://www.w3.org/2005/08/addressing/anonymous</a:To>\
        <a:Action>http://docs.oasis-open.org/ws-rx/wsrm/200702/AckRequested</a:Action>\
        <r:AckRequested><r:Identifier>urn:q</r:Identifier></r:AckRequested></s:Header><s:Body></s:Body></s:Envelope>",
    ),
];

const LOWERED: [Row; 3] = [
    (
        "a fault of a sequence",
        b"<s:Envelope xmlns:s='http://www.w3.org/2003/05/soap-envelope' xmlns:a='http://www.w3.org/2005/08/addressing' \
        xmlns:r='http://docs.oasis-open.org/ws-rx/wsrm/200702'><s:Header>\
        <a:Action>http://docs.oasis-open.org/ws-rx/wsrm/200702/fault</a:Action></s:Header><s:Body><s:Fault><s:Code>\
        <s:Value>s:Sender</s:Value><s:Subcode><s:Value>r:SequenceTerminated</s:Value></s:Subcode></s:Code><s:Reason>\
        <s:Text xml:lang='en'>SequenceTerminated</s:Text></s:Reason><s:Detail><r:Identifier>urn:q</r:Identifier>\
        </s:Detail></s:Fault></s:Body></s:Envelope>",
        b"<s:Envelope xmlns:s=\"http://schemas.xmlsoap.org/soap/envelope/\" \
        xmlns:a=\"http://www.w3.org/2005/08/addressing\" xmlns:r=\"http://docs.oasis-open.org/ws-rx/wsrm/200702\" \
        xmlns:c=\"http://docs.oasis-open.org/ws-rx/wsmc/200702\"><s:Header>\
        <a:To>http://www.w3.org/2005/08/addressing/anonymous</a:To>\
        <a:Action>http://docs.oasis-open.org/ws-rx/wsrm/200702/fault</a:Action>\
        <r:SequenceFault><r:FaultCode>r:SequenceTerminated</r:FaultCode><r:Detail>\
        <n:Identifier xmlns:n=\"http://docs.oasis-open.org/ws-rx/wsrm/200702\">urn:q</n:Identifier></r:Detail>\
        </r:SequenceFault></s:Header><s:Body><s:Fault><faultcode>s:Client</faultcode>\
        <faultstring>SequenceTerminated</faultstring></s:Fault></s:Body></s:Envelope>",
    ),
    (
        "a fault of addressing",
        b"<s:Envelope xmlns:s='http://www.w3.org/2003/05/soap-envelope' xmlns:a='http://www.w3.org/2005/08/addressing'>\
        <s:Header><a:Action>urn:x</a:Action></s:Header><s:Body><s:Fault><s:Code><s:Value>s:Sender</s:Value><s:Subcode>\
        <s:Value>a:InvalidAddressingHeader</s:Value></s:Subcode></s:Code><s:Reason><s:Text xml:lang='en'>no</s:Text>\
        </s:Reason><s:Detail><d xmlns=''/></s:Detail></s:Fault></s:Body></s:Envelope>",
        b"<s:Envelope xmlns:s=\"http://schemas.xmlsoap.org/soap/envelope/\" \
        xmlns:a=\"http://www.w3.org/2005/08/addressing\" xmlns:r=\"http://docs.oasis-open.org/ws-rx/wsrm/200702\" \
        xmlns:c=\"http://docs.oasis-open.org/ws-rx/wsmc/200702\"><s:Header>\
        <a:To>http://www.w3.org/2005/08/addressing/anonymous</a:To><a:Action>urn:x</a:Action></s:Header><s:Body>\
        <s:Fault><faultcode xmlns:q=\"http://www.w3.org/2005/08/addressing\">q:InvalidAddressingHeader</faultcode>\
        <faultstring>no</faultstring><detail><d></d></detail></s:Fault></s:Body></s:Envelope>",
    ),
    (
        "a number, and names that were not understood",
        b"<s:Envelope xmlns:s='http://www.w3.org/2003/05/soap-envelope' xmlns:a='http://www.w3.org/2005/08/addressing' \
        xmlns:r='http://docs.oasis-open.org/ws-rx/wsrm/200702'><s:Header><a:Action>urn:x</a:Action><r:Sequence>\
        <r:Identifier>urn:q</r:Identifier><r:MessageNumber>3</r:MessageNumber></r:Sequence>\
        <s:NotUnderstood qname='r:x'/></s:Header><s:Body><p/></s:Body></s:Envelope>",
        b"<s:Envelope xmlns:s=\"http://schemas.xmlsoap.org/soap/envelope/\" \
        xmlns:a=\"http://www.w3.org/2005/08/addressing\" xmlns:r=\"http://docs.oasis-open.org/ws-rx/wsrm/200702\" \
        xmlns:c=\"http://docs.oasis-open.org/ws-rx/wsmc/200702\"><s:Header>\
        <a:To>http://www.w3.org/2005/08/addressing/anonymous</a:To><a:Action>urn:x</a:Action>\
        <r:Sequence s:mustUnderstand=\"1\"><r:Identifier>urn:q</r:Identifier>\
        <r:MessageNumber>3</r:MessageNumber></r:Sequence></s:Header><s:Body><p/></s:Body></s:Envelope>",
    ),
];

// A fault with a code that SOAP 1.1 doesn't have.
const ENCODING: &[u8] =
    b"<s:Envelope xmlns:s='http://www.w3.org/2003/05/soap-envelope' xmlns:a='http://www.w3.org/2005/08/addressing'>\
    <s:Header><a:Action>urn:x</a:Action></s:Header><s:Body><s:Fault><s:Code><s:Value>s:DataEncodingUnknown</s:Value>\
    </s:Code><s:Reason><s:Text xml:lang='en'>no</s:Text></s:Reason></s:Fault></s:Body></s:Envelope>";

fn is_lowered(alloc: Global, row: &Row) -> Result<bool, Memory> {
    match decode(alloc, row.1) {
        Ok(message) => Ok(is_text(&lowered(alloc, message)?, row.2)),
        Err(_) => Ok(false),
    }
}

fn has_no_text(alloc: Global, document: &[u8]) -> Result<bool, Memory> {
    match decode(alloc, document) {
        Ok(message) => Ok(lowered(alloc, message)?.is_none()),
        Err(_) => Ok(false),
    }
}

#[test]
fn messages_lifted(rt: HostRuntime) -> Result<(), Memory> {
    for row in &LIFTED {
        assert!(rt; is_lifted(rt.alloc(), row.1, row.2)?, "{}", row.0);
    }
    Ok(())
}

#[test]
fn messages_lowered(rt: HostRuntime) -> Result<(), Memory> {
    for row in &LOWERED {
        assert!(rt; is_lowered(rt.alloc(), row)?, "{}", row.0);
    }
    assert!(rt; has_no_text(rt.alloc(), ENCODING)?);
    Ok(())
}
