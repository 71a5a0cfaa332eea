//! Blocks of many forms in the frame of an envelope, each with the message that it has.
use crate::wire_texts::forms::{BARE, Framed, is_read_in_frame};
use rm_base::Memory;

// Blocks of WS-Addressing, and those of others.
const ADDRESSING: [Framed; 15] = [
    (
        "blocks in the reverse order",
        b"<s:NotUnderstood xmlns:x='urn:x' qname='x:h'/><c:MessagePending pending='0'/><r:AckRequested>\
        <r:Identifier>urn:q</r:Identifier></r:AckRequested><r:SequenceAcknowledgement><r:Identifier>urn:q\
        </r:Identifier><r:None/></r:SequenceAcknowledgement><r:Sequence><r:MessageNumber>1</r:MessageNumber>\
        <r:Identifier>urn:q</r:Identifier></r:Sequence><x:k xmlns:x='urn:x' a:IsReferenceParameter='1'/>\
        <a:FaultTo><a:Address>urn:f</a:Address></a:FaultTo><a:ReplyTo><a:Address>urn:r</a:Address></a:ReplyTo>\
        <a:RelatesTo>urn:o</a:RelatesTo><a:MessageID>urn:m</a:MessageID><a:Action>urn:x</a:Action><a:To>urn:t\
        </a:To>",
        b"<o/>",
        b"<a:To>urn:t</a:To><a:Action>urn:x</a:Action><a:MessageID>urn:m</a:MessageID><a:RelatesTo>urn:o\
        </a:RelatesTo><a:ReplyTo><a:Address>urn:r</a:Address></a:ReplyTo><a:FaultTo><a:Address>urn:f</a:Address>\
        </a:FaultTo><n:k xmlns:n=\"urn:x\" a:IsReferenceParameter=\"true\"></n:k><r:Sequence \
        s:mustUnderstand=\"true\"><r:Identifier>urn:q</r:Identifier><r:MessageNumber>1</r:MessageNumber>\
        </r:Sequence><r:SequenceAcknowledgement><r:Identifier>urn:q</r:Identifier><r:None/>\
        </r:SequenceAcknowledgement><r:AckRequested><r:Identifier>urn:q</r:Identifier></r:AckRequested>\
        <c:MessagePending pending=\"false\"/><s:NotUnderstood qname=\"q:h\" xmlns:q=\"urn:x\"/>",
        b"<o/>",
    ),
    (
        "security that need not be understood",
        b"<w:Security xmlns:w='http://docs.oasis-open.org/wss/2004/01/oasis-200401-wss-wssecurity-secext-1.0.xsd'>\
        <u:Timestamp xmlns:u='http://docs.oasis-open.org/wss/2004/01/oasis-200401-wss-wssecurity-utility-1.0.xsd' \
        u:Id='TS'><u:Created>2026-01-01T00:00:00Z</u:Created></u:Timestamp><w:UsernameToken><w:Username>a\
        </w:Username></w:UsernameToken></w:Security><a:Action>urn:x</a:Action><w:Security \
        xmlns:w='http://docs.oasis-open.org/wss/2004/01/oasis-200401-wss-wssecurity-secext-1.0.xsd' \
        s:mustUnderstand='false'><u:Timestamp \
        xmlns:u='http://docs.oasis-open.org/wss/2004/01/oasis-200401-wss-wssecurity-utility-1.0.xsd' u:Id='TS'>\
        <u:Created>2026-01-01T00:00:00Z</u:Created></u:Timestamp><w:UsernameToken><w:Username>a</w:Username>\
        </w:UsernameToken></w:Security><w:Security \
        xmlns:w='http://docs.oasis-open.org/wss/2004/01/oasis-200401-wss-wssecurity-secext-1.0.xsd' \
        s:mustUnderstand='0'><u:Timestamp \
        xmlns:u='http://docs.oasis-open.org/wss/2004/01/oasis-200401-wss-wssecurity-utility-1.0.xsd' u:Id='TS'>\
        <u:Created>2026-01-01T00:00:00Z</u:Created></u:Timestamp><w:UsernameToken><w:Username>a</w:Username>\
        </w:UsernameToken></w:Security>",
        b"<o/>",
        BARE,
        b"<o/>",
    ),
    (
        "security for another node",
        b"<a:Action>urn:x</a:Action><w:Security \
        xmlns:w='http://docs.oasis-open.org/wss/2004/01/oasis-200401-wss-wssecurity-secext-1.0.xsd' \
        s:mustUnderstand='1' s:role='urn:other'><u:Timestamp \
        xmlns:u='http://docs.oasis-open.org/wss/2004/01/oasis-200401-wss-wssecurity-utility-1.0.xsd' u:Id='TS'>\
        <u:Created>2026-01-01T00:00:00Z</u:Created></u:Timestamp><w:UsernameToken><w:Username>a</w:Username>\
        </w:UsernameToken></w:Security><w:Security \
        xmlns:w='http://docs.oasis-open.org/wss/2004/01/oasis-200401-wss-wssecurity-secext-1.0.xsd' \
        s:role='http://www.w3.org/2003/05/soap-envelope/role/none' s:mustUnderstand='true'><u:Timestamp \
        xmlns:u='http://docs.oasis-open.org/wss/2004/01/oasis-200401-wss-wssecurity-utility-1.0.xsd' u:Id='TS'>\
        <u:Created>2026-01-01T00:00:00Z</u:Created></u:Timestamp><w:UsernameToken><w:Username>a</w:Username>\
        </w:UsernameToken></w:Security>",
        b"<o/>",
        BARE,
        b"<o/>",
    ),
    (
        "roles that are none of ours by a space or a letter",
        b"<h s:mustUnderstand='1' s:role=' http://www.w3.org/2003/05/soap-envelope/role/next'/><h \
        s:mustUnderstand='1' s:role='http://www.w3.org/2003/05/soap-envelope/role/Next'/><h s:mustUnderstand='1' \
        s:role=''/><a:Action>urn:x</a:Action>",
        b"<o/>",
        BARE,
        b"<o/>",
    ),
    (
        "marks that are none",
        b"<a:Action>urn:x</a:Action><h s:mustUnderstand='yes'/><h mustUnderstand='1'/><h s:mustUnderstand=''/><h \
        a:mustUnderstand='true'/><h s:mustUnderstand='TRUE'/>",
        b"<o/>",
        BARE,
        b"<o/>",
    ),
    (
        "names of ours in other namespaces",
        b"<x:To xmlns:x='urn:x'>urn:1</x:To><To>urn:2</To><a:Sequence/><r:Action/><s:Action/><To \
        xmlns='http://schemas.xmlsoap.org/ws/2004/08/addressing'>urn:3</To><x:Sequence \
        xmlns:x='http://schemas.xmlsoap.org/ws/2005/02/rm'><x:Identifier>urn:q</x:Identifier></x:Sequence>\
        <a:Action>urn:x</a:Action><r:None/><a:Address/>",
        b"<o/>",
        BARE,
        b"<o/>",
    ),
    (
        "no parameters",
        b"<a:Action>urn:x</a:Action><a:ReplyTo><a:Address>urn:r</a:Address><a:ReferenceParameters/></a:ReplyTo>\
        <a:FaultTo><a:ReferenceParameters> <!-- --> </a:ReferenceParameters><a:Address>urn:f</a:Address>\
        </a:FaultTo>",
        b"<o/>",
        b"<a:To>http://www.w3.org/2005/08/addressing/anonymous</a:To><a:Action>urn:x</a:Action><a:ReplyTo>\
        <a:Address>urn:r</a:Address></a:ReplyTo><a:FaultTo><a:Address>urn:f</a:Address></a:FaultTo>",
        b"<o/>",
    ),
    (
        "two lists of parameters, of other things too",
        b"<a:Action>urn:x</a:Action><a:ReplyTo x='1'>x<a:Metadata><a:Address>no</a:Address></a:Metadata>\
        <a:ReferenceParameters b='1'><j xmlns='urn:j'/>y</a:ReferenceParameters> <a:Address b='1'>urn:r\
        </a:Address><z/><a:ReferenceParameters><x:k xmlns:x='urn:x' a:IsReferenceParameter='0'> </x:k><a:l/>\
        </a:ReferenceParameters></a:ReplyTo>",
        b"<o/>",
        b"<a:To>http://www.w3.org/2005/08/addressing/anonymous</a:To><a:Action>urn:x</a:Action><a:ReplyTo>\
        <a:Address>urn:r</a:Address><a:ReferenceParameters><n:j xmlns:n=\"urn:j\"></n:j><n:k xmlns:n=\"urn:x\"> \
        </n:k><n:l xmlns:n=\"http://www.w3.org/2005/08/addressing\"></n:l></a:ReferenceParameters></a:ReplyTo>",
        b"<o/>",
    ),
    (
        "marked parameters with names of headers",
        b"<a:Action a:IsReferenceParameter='true'>urn:no</a:Action><a:Action>urn:x</a:Action><r:Sequence k='1' \
        a:IsReferenceParameter=' 1 '><r:Identifier>i</r:Identifier></r:Sequence><x:h xmlns:x='urn:x' \
        s:mustUnderstand='1' a:IsReferenceParameter='true' xml:lang='en'>&lt;</x:h><a:ReplyTo \
        a:IsReferenceParameter='1'/><a:ReplyTo a:IsReferenceParameter='1'/>",
        b"<o/>",
        b"<a:To>http://www.w3.org/2005/08/addressing/anonymous</a:To><a:Action>urn:x</a:Action><n:Action \
        xmlns:n=\"http://www.w3.org/2005/08/addressing\" a:IsReferenceParameter=\"true\">urn:no</n:Action>\
        <n:Sequence xmlns:n=\"http://docs.oasis-open.org/ws-rx/wsrm/200702\" a:IsReferenceParameter=\"true\" \
        k=\"1\"><n:Identifier xmlns:n=\"http://docs.oasis-open.org/ws-rx/wsrm/200702\">i</n:Identifier>\
        </n:Sequence><n:h xmlns:n=\"urn:x\" a:IsReferenceParameter=\"true\" \
        xmlns:q0=\"http://www.w3.org/2003/05/soap-envelope\" q0:mustUnderstand=\"1\" xml:lang=\"en\">&lt;</n:h>\
        <n:ReplyTo xmlns:n=\"http://www.w3.org/2005/08/addressing\" a:IsReferenceParameter=\"true\"></n:ReplyTo>\
        <n:ReplyTo xmlns:n=\"http://www.w3.org/2005/08/addressing\" a:IsReferenceParameter=\"true\"></n:ReplyTo>",
        b"<o/>",
    ),
    (
        "marks of parameters that are none",
        b"<a:Action a:IsReferenceParameter='false'>urn:x</a:Action><a:To IsReferenceParameter='true'>urn:t</a:To>\
        <h a:IsReferenceParameter='True'/><h a:IsReferenceParameter=''/>",
        b"<o/>",
        b"<a:To>urn:t</a:To><a:Action>urn:x</a:Action>",
        b"<o/>",
    ),
    (
        "attributes of a parameter",
        b"<a:Action>urn:x</a:Action><k a:IsReferenceParameter='1' b='a\tb&#9;c\"&quot;' a:c='1' xml:d='&#10;&#13;' \
        a:e='\r\n'/>",
        b"<o/>",
        b"<a:To>http://www.w3.org/2005/08/addressing/anonymous</a:To><a:Action>urn:x</a:Action><k \
        a:IsReferenceParameter=\"true\" b=\"a b&#9;c&quot;&quot;\" \
        xmlns:q1=\"http://www.w3.org/2005/08/addressing\" q1:c=\"1\" xml:d=\"&#10;&#13;\" \
        xmlns:q3=\"http://www.w3.org/2005/08/addressing\" q3:e=\" \"></k>",
        b"<o/>",
    ),
    (
        "relationships of other kinds",
        b"<a:Action>urn:x</a:Action><a:RelatesTo RelationshipType='urn:other'>urn:1</a:RelatesTo><a:RelatesTo \
        RelationshipType='http://www.w3.org/2005/08/addressing/reply'> urn:2 </a:RelatesTo><a:RelatesTo>urn:3\
        </a:RelatesTo>",
        b"<o/>",
        b"<a:To>http://www.w3.org/2005/08/addressing/anonymous</a:To><a:Action>urn:x</a:Action><a:RelatesTo>urn:2\
        </a:RelatesTo>",
        b"<o/>",
    ),
    (
        "no reply among the relationships",
        b"<a:RelatesTo RelationshipType=' http://www.w3.org/2005/08/addressing/reply'>urn:1</a:RelatesTo>\
        <a:RelatesTo RelationshipType=''>urn:2</a:RelatesTo><a:Action>urn:x</a:Action><a:RelatesTo \
        RelationshipType='reply'>urn:3</a:RelatesTo>",
        b"<o/>",
        BARE,
        b"<o/>",
    ),
    (
        "an attribute of another namespace is no relationship",
        b"<a:Action>urn:x</a:Action><a:RelatesTo a:RelationshipType='urn:other'>urn:1</a:RelatesTo>",
        b"<o/>",
        b"<a:To>http://www.w3.org/2005/08/addressing/anonymous</a:To><a:Action>urn:x</a:Action><a:RelatesTo>urn:1\
        </a:RelatesTo>",
        b"<o/>",
    ),
    (
        "From, of any form, and text between blocks",
        b"x<a:From/>y<a:Action>urn:x</a:Action><![CDATA[z]]><a:From><a:Address> </a:Address></a:From>",
        b"<o/>",
        BARE,
        b"<o/>",
    ),
];

#[test]
fn of_addressing(rt: HostRuntime) -> Result<(), Memory> {
    for row in &ADDRESSING {
        assert!(rt; is_read_in_frame(rt.alloc(), row)?, "{}", row.0);
    }
    Ok(())
}

// Blocks of WS-ReliableMessaging, and those beside them.
const MESSAGING: [Framed; 7] = [
    (
        "several acknowledgements",
        b"<r:SequenceAcknowledgement><r:Identifier>urn:q</r:Identifier><r:AcknowledgementRange Upper='2' \
        Lower='1'/></r:SequenceAcknowledgement><a:Action>\
        http://docs.oasis-open.org/ws-rx/wsrm/200702/SequenceAcknowledgement</a:Action><r:SequenceAcknowledgement>\
        <r:Final/><r:None/><r:Identifier> urn:2 </r:Identifier></r:SequenceAcknowledgement>\
        <r:SequenceAcknowledgement><r:Nack> 5 </r:Nack><r:Identifier>urn:3</r:Identifier><r:Nack>+3</r:Nack>\
        <r:Nack>005</r:Nack></r:SequenceAcknowledgement><r:SequenceAcknowledgement><r:Identifier>urn:q\
        </r:Identifier><r:None> </r:None></r:SequenceAcknowledgement>",
        b"",
        b"<a:To>http://www.w3.org/2005/08/addressing/anonymous</a:To><a:Action>\
        http://docs.oasis-open.org/ws-rx/wsrm/200702/SequenceAcknowledgement</a:Action><r:SequenceAcknowledgement>\
        <r:Identifier>urn:q</r:Identifier><r:AcknowledgementRange Lower=\"1\" Upper=\"2\"/>\
        </r:SequenceAcknowledgement><r:SequenceAcknowledgement><r:Identifier>urn:2</r:Identifier><r:None/>\
        <r:Final/></r:SequenceAcknowledgement><r:SequenceAcknowledgement><r:Identifier>urn:3</r:Identifier>\
        <r:Nack>5</r:Nack><r:Nack>3</r:Nack><r:Nack>5</r:Nack></r:SequenceAcknowledgement>\
        <r:SequenceAcknowledgement><r:Identifier>urn:q</r:Identifier><r:None/></r:SequenceAcknowledgement>",
        b"",
    ),
    (
        "ranges in any order, which overlap",
        b"<a:Action>http://docs.oasis-open.org/ws-rx/wsrm/200702/SequenceAcknowledgement</a:Action>\
        <r:SequenceAcknowledgement><r:Final>x</r:Final><r:AcknowledgementRange Lower='+7' Upper='09' x='1'>x\
        <r:Nack>1</r:Nack></r:AcknowledgementRange><r:Identifier>urn:q</r:Identifier><x:None xmlns:x='urn:x'/>\
        <a:Final/><r:AcknowledgementRange Lower='1' Upper='8'/><r:Other/><r:AcknowledgementRange Lower='1' \
        Upper='8'/></r:SequenceAcknowledgement>",
        b"",
        b"<a:To>http://www.w3.org/2005/08/addressing/anonymous</a:To><a:Action>\
        http://docs.oasis-open.org/ws-rx/wsrm/200702/SequenceAcknowledgement</a:Action><r:SequenceAcknowledgement>\
        <r:Identifier>urn:q</r:Identifier><r:AcknowledgementRange Lower=\"7\" Upper=\"9\"/><r:AcknowledgementRange \
        Lower=\"1\" Upper=\"8\"/><r:AcknowledgementRange Lower=\"1\" Upper=\"8\"/><r:Final/>\
        </r:SequenceAcknowledgement>",
        b"",
    ),
    (
        "acknowledgements that go with a payload, in a sequence",
        b"<a:Action>urn:x</a:Action><r:Sequence x='1'>x<a:x/><r:LastMessage/><r:MessageNumber>+9223372036854775807\
        </r:MessageNumber> <r:Identifier a:b='1'> urn:q </r:Identifier></r:Sequence><r:SequenceAcknowledgement>\
        <r:Identifier>urn:q</r:Identifier><r:None/></r:SequenceAcknowledgement>",
        b"<o/>",
        b"<a:To>http://www.w3.org/2005/08/addressing/anonymous</a:To><a:Action>urn:x</a:Action><r:Sequence \
        s:mustUnderstand=\"true\"><r:Identifier>urn:q</r:Identifier><r:MessageNumber>9223372036854775807\
        </r:MessageNumber></r:Sequence><r:SequenceAcknowledgement><r:Identifier>urn:q</r:Identifier><r:None/>\
        </r:SequenceAcknowledgement>",
        b"<o/>",
    ),
    (
        "requests, one of them twice",
        b"<a:Action>http://docs.oasis-open.org/ws-rx/wsrm/200702/AckRequested</a:Action><r:AckRequested \
        s:mustUnderstand='1'><r:Identifier>urn:q</r:Identifier><r:MessageNumber>3</r:MessageNumber>\
        </r:AckRequested><r:AckRequested>x<r:Identifier>urn:o</r:Identifier></r:AckRequested><r:AckRequested>\
        <r:Identifier>urn:q</r:Identifier></r:AckRequested>",
        b"",
        b"<a:To>http://www.w3.org/2005/08/addressing/anonymous</a:To><a:Action>\
        http://docs.oasis-open.org/ws-rx/wsrm/200702/AckRequested</a:Action><r:AckRequested><r:Identifier>urn:q\
        </r:Identifier></r:AckRequested><r:AckRequested><r:Identifier>urn:o</r:Identifier></r:AckRequested>\
        <r:AckRequested><r:Identifier>urn:q</r:Identifier></r:AckRequested>",
        b"",
    ),
    (
        "MessagePending without its attribute",
        b"<a:Action>urn:x</a:Action><c:MessagePending c:pending='true'><c:Other/></c:MessagePending>",
        b"<o/>",
        b"<a:To>http://www.w3.org/2005/08/addressing/anonymous</a:To><a:Action>urn:x</a:Action><c:MessagePending \
        pending=\"false\"/>",
        b"<o/>",
    ),
    (
        "MessagePending with spaces",
        b"<a:Action>urn:x</a:Action><c:MessagePending pending='\n true\t'/>",
        b"<o/>",
        b"<a:To>http://www.w3.org/2005/08/addressing/anonymous</a:To><a:Action>urn:x</a:Action><c:MessagePending \
        pending=\"true\"/>",
        b"<o/>",
    ),
    (
        "names not understood, some of them none",
        b"<a:Action>http://www.w3.org/2005/08/addressing/soap/fault</a:Action><s:NotUnderstood qname='x:h' \
        xmlns:x='urn:x'/><s:NotUnderstood qname='h' xmlns='urn:d'/><s:NotUnderstood qname='h'/><s:NotUnderstood \
        qname='xml:h'/><s:NotUnderstood qname='no:h'/><s:NotUnderstood qname=' s:h'/><s:NotUnderstood/>\
        <s:NotUnderstood qname='s:'/><s:NotUnderstood qname='xmlns:h'/><s:NotUnderstood qname='s:h:i'/>\
        <s:NotUnderstood s:qname='h'/><s:NotUnderstood qname='1'/><s:NotUnderstood qname='s:h' \
        s:mustUnderstand='1'/>",
        b"<o/>",
        b"<a:To>http://www.w3.org/2005/08/addressing/anonymous</a:To><a:Action>\
        http://www.w3.org/2005/08/addressing/soap/fault</a:Action><s:NotUnderstood qname=\"q:h\" \
        xmlns:q=\"urn:x\"/><s:NotUnderstood qname=\"q:h\" xmlns:q=\"urn:d\"/><s:NotUnderstood qname=\"h\"/>\
        <s:NotUnderstood qname=\"xml:h\"/><s:NotUnderstood qname=\"q:h\" \
        xmlns:q=\"http://www.w3.org/2003/05/soap-envelope\"/>",
        b"<o/>",
    ),
];

#[test]
fn of_messaging(rt: HostRuntime) -> Result<(), Memory> {
    for row in &MESSAGING {
        assert!(rt; is_read_in_frame(rt.alloc(), row)?, "{}", row.0);
    }
    Ok(())
}
