//! Envelopes in the styles of several stacks, each with the message that it has.
use crate::wire_cases::forms::is_read;
use rm_base::Memory;
use std::alloc::Global;

// What a document is named, its bytes, and the blocks and the body that its message is written with.
type Style = (&'static str, &'static [u8], &'static [u8], &'static [u8]);

fn is_style(alloc: Global, row: &Style) -> Result<bool, Memory> {
    is_read(alloc, row.1, row.2, row.3)
}

// Default namespaces element for element, as Metro writes them.
const METRO: &[u8] = b"<?xml version='1.0' encoding='UTF-8'?>\
    <S:Envelope xmlns:S=\"http://www.w3.org/2003/05/soap-envelope\"><S:Header>\
    <To xmlns=\"http://www.w3.org/2005/08/addressing\">http://b.example/s</To>\
    <Action xmlns=\"http://www.w3.org/2005/08/addressing\" S:mustUnderstand=\"true\">urn:buy</Action>\
    <ReplyTo xmlns=\"http://www.w3.org/2005/08/addressing\">\
    <Address>http://www.w3.org/2005/08/addressing/anonymous</Address></ReplyTo>\
    <MessageID xmlns=\"http://www.w3.org/2005/08/addressing\">uuid:1</MessageID>\
    <ns2:Sequence xmlns=\"http://www.w3.org/2005/08/addressing\" \
    xmlns:ns2=\"http://docs.oasis-open.org/ws-rx/wsrm/200702\" S:mustUnderstand=\"true\">\
    <ns2:Identifier>urn:q</ns2:Identifier><ns2:MessageNumber>3</ns2:MessageNumber></ns2:Sequence></S:Header>\
    <S:Body><order xmlns=\"urn:o\">1</order></S:Body></S:Envelope>";

const METRO_BLOCKS: &[u8] = b"<a:To>http://b.example/s</a:To><a:Action>urn:buy</a:Action>\
    <a:MessageID>uuid:1</a:MessageID>\
    <a:ReplyTo><a:Address>http://www.w3.org/2005/08/addressing/anonymous</a:Address></a:ReplyTo>\
    <r:Sequence s:mustUnderstand=\"true\"><r:Identifier>urn:q</r:Identifier><r:MessageNumber>3</r:MessageNumber>\
    </r:Sequence>";

// The blocks of reliable messaging before those of addressing, and attributes of others, as WCF writes them.
const WCF: &[u8] = b"<s:Envelope xmlns:s=\"http://www.w3.org/2003/05/soap-envelope\" \
    xmlns:r=\"http://docs.oasis-open.org/ws-rx/wsrm/200702\" xmlns:a=\"http://www.w3.org/2005/08/addressing\" \
    xmlns:u=\"urn:utility\"><s:Header>\
    <r:AckRequested u:Id=\"_1\"><r:Identifier>urn:uuid:1</r:Identifier></r:AckRequested>\
    <r:Sequence s:mustUnderstand=\"1\" u:Id=\"_2\"><r:Identifier>urn:uuid:1</r:Identifier>\
    <r:MessageNumber>1</r:MessageNumber></r:Sequence>\
    <a:Action s:mustUnderstand=\"1\" u:Id=\"_3\">urn:ping</a:Action>\
    <a:MessageID u:Id=\"_4\">urn:uuid:2</a:MessageID>\
    <a:To s:mustUnderstand=\"1\">http://b.example/</a:To></s:Header>\
    <s:Body u:Id=\"_0\"><Ping xmlns=\"urn:p\"/></s:Body></s:Envelope>";

const WCF_BLOCKS: &[u8] = b"<a:To>http://b.example/</a:To><a:Action>urn:ping</a:Action>\
    <a:MessageID>urn:uuid:2</a:MessageID><r:Sequence s:mustUnderstand=\"true\"><r:Identifier>urn:uuid:1</r:Identifier>\
    <r:MessageNumber>1</r:MessageNumber></r:Sequence>\
    <r:AckRequested><r:Identifier>urn:uuid:1</r:Identifier></r:AckRequested>";

// White space between all elements and within values, as a stack that indents writes them.
const INDENTED: &[u8] = b"<?xml version=\"1.0\" encoding=\"utf-8\" standalone=\"yes\"?>\r\n\
    <soapenv:Envelope xmlns:soapenv=\"http://www.w3.org/2003/05/soap-envelope\">\r\n  <soapenv:Header \
    xmlns:wsa=\"http://www.w3.org/2005/08/addressing\">\r\n    <wsa:To>\r\n      http://b.example/\r\n    </wsa:To>\r\n\
    \t<wsa:Action>http://docs.oasis-open.org/ws-rx/wsrm/200702/CreateSequence</wsa:Action>\r\n\
    <wsa:MessageID> urn:m </wsa:MessageID>\r\n  </soapenv:Header>\r\n  <soapenv:Body>\r\n    <wsrm:CreateSequence \
    xmlns:wsrm=\"http://docs.oasis-open.org/ws-rx/wsrm/200702\">\r\n      <wsrm:Expires> PT1H </wsrm:Expires>\r\n\
    <wsrm:AcksTo><wsa:Address xmlns:wsa=\"http://www.w3.org/2005/08/addressing\">\r\n http://a.example/ </wsa:Address>\
    </wsrm:AcksTo>\r\n    </wsrm:CreateSequence>\r\n  </soapenv:Body>\r\n</soapenv:Envelope>\r\n";

const INDENTED_BLOCKS: &[u8] = b"<a:To>http://b.example/</a:To>\
    <a:Action>http://docs.oasis-open.org/ws-rx/wsrm/200702/CreateSequence</a:Action><a:MessageID>urn:m</a:MessageID>";

const INDENTED_BODY: &[u8] =
    b"<r:CreateSequence><r:AcksTo><a:Address>http://a.example/</a:Address></r:AcksTo>\
    <r:Expires>PT3600S</r:Expires></r:CreateSequence>";

const STACKS: [Style; 3] = [
    (
        "Metro",
        METRO,
        METRO_BLOCKS,
        b"<order xmlns=\"urn:o\">1</order>",
    ),
    ("WCF", WCF, WCF_BLOCKS, b"<Ping xmlns=\"urn:p\"/>"),
    ("indented", INDENTED, INDENTED_BLOCKS, INDENTED_BODY),
];

#[test]
fn of_stacks(rt: HostRuntime) -> Result<(), Memory> {
    for row in &STACKS {
        assert!(rt; is_style(rt.alloc(), row)?, "{}", row.0);
    }
    Ok(())
}

// The same prefix for each element, with another namespace at each.
const ONE_PREFIX: &[u8] =
    b"<p:Envelope xmlns:p=\"http://www.w3.org/2003/05/soap-envelope\"><p:Header>\
    <p:Action xmlns:p=\"http://www.w3.org/2005/08/addressing\">urn:x</p:Action>\
    <p:AckRequested xmlns:p=\"http://docs.oasis-open.org/ws-rx/wsrm/200702\"><p:Identifier>urn:q</p:Identifier>\
    </p:AckRequested><p:MessagePending xmlns:p=\"http://docs.oasis-open.org/ws-rx/wsmc/200702\" pending=\"1\"/>\
    </p:Header><p:Body></p:Body></p:Envelope>";

// A prefix of its own for each element.
const MANY_PREFIXES: &[u8] = b"<p1:Envelope xmlns:p1=\"http://www.w3.org/2003/05/soap-envelope\">\
    <p2:Header xmlns:p2=\"http://www.w3.org/2003/05/soap-envelope\">\
    <p3:Action xmlns:p3=\"http://www.w3.org/2005/08/addressing\">urn:x</p3:Action>\
    <p4:AckRequested xmlns:p4=\"http://docs.oasis-open.org/ws-rx/wsrm/200702\">\
    <p5:Identifier xmlns:p5=\"http://docs.oasis-open.org/ws-rx/wsrm/200702\">urn:q</p5:Identifier></p4:AckRequested>\
    <p6:MessagePending xmlns:p6=\"http://docs.oasis-open.org/ws-rx/wsmc/200702\" pending=\"true\"/></p2:Header>\
    <p7:Body xmlns:p7=\"http://www.w3.org/2003/05/soap-envelope\"></p7:Body></p1:Envelope>";

// No prefix at all.
const NO_PREFIX: &[u8] = b"<Envelope xmlns=\"http://www.w3.org/2003/05/soap-envelope\"><Header>\
    <Action xmlns=\"http://www.w3.org/2005/08/addressing\">urn:x</Action>\
    <AckRequested xmlns=\"http://docs.oasis-open.org/ws-rx/wsrm/200702\"><Identifier>urn:q</Identifier></AckRequested>\
    <MessagePending xmlns=\"http://docs.oasis-open.org/ws-rx/wsmc/200702\" pending=\"true\"/></Header>\
    <Body/></Envelope>";

const ASKING: &[u8] =
    b"<a:To>http://www.w3.org/2005/08/addressing/anonymous</a:To><a:Action>urn:x</a:Action>\
    <r:AckRequested><r:Identifier>urn:q</r:Identifier></r:AckRequested><c:MessagePending pending=\"true\"/>";

const PREFIXES: [Style; 3] = [
    ("one prefix", ONE_PREFIX, ASKING, b""),
    ("many prefixes", MANY_PREFIXES, ASKING, b""),
    ("no prefix", NO_PREFIX, ASKING, b""),
];

#[test]
fn of_prefixes(rt: HostRuntime) -> Result<(), Memory> {
    for row in &PREFIXES {
        assert!(rt; is_style(rt.alloc(), row)?, "{}", row.0);
    }
    Ok(())
}

// A byte order mark, and a declaration.
const MARKED: &[u8] =
    b"\xef\xbb\xbf<?xml version='1.0'?><Envelope xmlns='http://www.w3.org/2003/05/soap-envelope'>\
    <Header><Action xmlns='http://www.w3.org/2005/08/addressing'>urn:x</Action></Header><Body>\
    <\xc3\xa9/></Body></Envelope>";

// Comments and white space between blocks, and within a value.
const COMMENTED: &[u8] =
    b"<!-- a --><e:Envelope xmlns:e='http://www.w3.org/2003/05/soap-envelope'><!-- b -->\n\
    <e:Header><!-- c --> <a:Action xmlns:a='http://www.w3.org/2005/08/addressing'>urn<!-- d -->:x</a:Action>\t\
    <!-- e --></e:Header> <!-- f --> <e:Body><!-- g --><p/></e:Body><!-- h --></e:Envelope><!-- i -->\n";

// Single quotes, character references and CDATA sections.
const REFERRED: &[u8] =
    b"<e:Envelope xmlns:e='http://www.w3.org/2003/05/soap-&#101;nvelope'><e:Header>\
    <a:To xmlns:a='http://www.w3.org/2005/08/addressing'>&#x20;http://b.example/?<![CDATA[p&q]]>&#32;</a:To>\
    <a:Action xmlns:a=\"http://www.w3.org/2005/08/addressing\">urn:&lt;&#x78;&#13;&gt;&quot;&apos;</a:Action>\
    </e:Header><e:Body><![CDATA[ ]]></e:Body></e:Envelope>";

const REFERRED_BLOCKS: &[u8] =
    b"<a:To>http://b.example/?p&amp;q</a:To><a:Action>urn:&lt;x&#13;&gt;\"'</a:Action>";

const BARE: &[u8] =
    b"<a:To>http://www.w3.org/2005/08/addressing/anonymous</a:To><a:Action>urn:x</a:Action>";

const CHARACTERS: [Style; 3] = [
    ("marked", MARKED, BARE, b"<\xc3\xa9/>"),
    ("commented", COMMENTED, BARE, b"<!-- g --><p/>"),
    (
        "with references",
        REFERRED,
        REFERRED_BLOCKS,
        b"<![CDATA[ ]]>",
    ),
];

#[test]
fn of_characters(rt: HostRuntime) -> Result<(), Memory> {
    for row in &CHARACTERS {
        assert!(rt; is_style(rt.alloc(), row)?, "{}", row.0);
    }
    Ok(())
}
