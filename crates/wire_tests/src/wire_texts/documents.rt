//! Whole documents in many styles, each with the message that it has.
use crate::wire_texts::forms::{BARE, Document, is_read};
use rm_base::Memory;

const DOCUMENTS: [Document; 12] = [
    (
        "default namespaces, as CXF writes a CreateSequence",
        b"<soap:Envelope xmlns:soap=\"http://www.w3.org/2003/05/soap-envelope\"><soap:Header><Action \
        xmlns=\"http://www.w3.org/2005/08/addressing\">http://docs.oasis-open.org/ws-rx/wsrm/200702/CreateSequence\
        </Action><MessageID xmlns=\"http://www.w3.org/2005/08/addressing\">urn:uuid:1</MessageID><To \
        xmlns=\"http://www.w3.org/2005/08/addressing\">http://b.example/</To><ReplyTo \
        xmlns=\"http://www.w3.org/2005/08/addressing\"><Address>http://www.w3.org/2005/08/addressing/anonymous\
        </Address></ReplyTo></soap:Header><soap:Body><CreateSequence \
        xmlns=\"http://docs.oasis-open.org/ws-rx/wsrm/200702\" xmlns:ns2=\"http://www.w3.org/2005/08/addressing\">\
        <AcksTo><ns2:Address>http://www.w3.org/2005/08/addressing/anonymous</ns2:Address></AcksTo><Expires>\
        P0Y0M0DT0H30M0.0S</Expires><Offer><Identifier>urn:uuid:2</Identifier><Expires>PT0S</Expires><Endpoint>\
        <ns2:Address>http://www.w3.org/2005/08/addressing/anonymous</ns2:Address></Endpoint></Offer>\
        </CreateSequence></soap:Body></soap:Envelope>",
        b"<a:To>http://b.example/</a:To><a:Action>http://docs.oasis-open.org/ws-rx/wsrm/200702/CreateSequence\
        </a:Action><a:MessageID>urn:uuid:1</a:MessageID><a:ReplyTo><a:Address>\
        http://www.w3.org/2005/08/addressing/anonymous</a:Address></a:ReplyTo>",
        b"<r:CreateSequence><r:AcksTo><a:Address>http://www.w3.org/2005/08/addressing/anonymous</a:Address>\
        </r:AcksTo><r:Expires>PT1800S</r:Expires><r:Offer><r:Identifier>urn:uuid:2</r:Identifier><r:Endpoint>\
        <a:Address>http://www.w3.org/2005/08/addressing/anonymous</a:Address></r:Endpoint>\
        <r:IncompleteSequenceBehavior>NoDiscard</r:IncompleteSequenceBehavior></r:Offer></r:CreateSequence>",
    ),
    (
        "a prefix for each element of a CreateSequenceResponse",
        b"<p1:Envelope xmlns:p1='http://www.w3.org/2003/05/soap-envelope'><p2:Header \
        xmlns:p2='http://www.w3.org/2003/05/soap-envelope'><p3:To xmlns:p3='http://www.w3.org/2005/08/addressing'>\
        http://a.example/</p3:To><p4:Action xmlns:p4='http://www.w3.org/2005/08/addressing'>\
        http://docs.oasis-open.org/ws-rx/wsrm/200702/CreateSequenceResponse</p4:Action><p5:RelatesTo \
        xmlns:p5='http://www.w3.org/2005/08/addressing'>urn:m</p5:RelatesTo></p2:Header><p6:Body \
        xmlns:p6='http://www.w3.org/2003/05/soap-envelope'><p7:CreateSequenceResponse \
        xmlns:p7='http://docs.oasis-open.org/ws-rx/wsrm/200702'><p8:Accept \
        xmlns:p8='http://docs.oasis-open.org/ws-rx/wsrm/200702'><p9:AcksTo \
        xmlns:p9='http://docs.oasis-open.org/ws-rx/wsrm/200702'><q1:Address \
        xmlns:q1='http://www.w3.org/2005/08/addressing'>http://b.example/</q1:Address></p9:AcksTo></p8:Accept>\
        <q2:IncompleteSequenceBehavior xmlns:q2='http://docs.oasis-open.org/ws-rx/wsrm/200702'>\
        DiscardEntireSequence</q2:IncompleteSequenceBehavior><q3:Identifier \
        xmlns:q3='http://docs.oasis-open.org/ws-rx/wsrm/200702'>urn:q</q3:Identifier></p7:CreateSequenceResponse>\
        </p6:Body></p1:Envelope>",
        b"<a:To>http://a.example/</a:To><a:Action>\
        http://docs.oasis-open.org/ws-rx/wsrm/200702/CreateSequenceResponse</a:Action><a:RelatesTo>urn:m\
        </a:RelatesTo>",
        b"<r:CreateSequenceResponse><r:Identifier>urn:q</r:Identifier><r:IncompleteSequenceBehavior>\
        DiscardEntireSequence</r:IncompleteSequenceBehavior><r:Accept><r:AcksTo><a:Address>http://b.example/\
        </a:Address></r:AcksTo></r:Accept></r:CreateSequenceResponse>",
    ),
    (
        "one namespace with two prefixes, and a prefix that is bound anew",
        b"<x:Envelope xmlns:x='http://www.w3.org/2003/05/soap-envelope' \
        xmlns:y='http://www.w3.org/2003/05/soap-envelope' xmlns='http://www.w3.org/2005/08/addressing'><y:Header>\
        <Action>urn:x</Action><x:AckRequested xmlns:x='http://docs.oasis-open.org/ws-rx/wsrm/200702'>\
        <x:Identifier>urn:q</x:Identifier></x:AckRequested><x:To xmlns:x='http://www.w3.org/2005/08/addressing'>\
        urn:t</x:To></y:Header><y:Body><y:o/></y:Body></x:Envelope>",
        b"<a:To>urn:t</a:To><a:Action>urn:x</a:Action><r:AckRequested><r:Identifier>urn:q</r:Identifier>\
        </r:AckRequested>",
        b"<y:o/>",
    ),
    (
        "a byte order mark, no declaration and single quotes",
        b"\xef\xbb\xbf<e:Envelope xmlns:e='http://www.w3.org/2003/05/soap-envelope' \
        xmlns:w='http://www.w3.org/2005/08/addressing' xmlns:m='http://docs.oasis-open.org/ws-rx/wsrm/200702'>\
        <e:Header><w:Action>http://docs.oasis-open.org/ws-rx/wsrm/200702/SequenceAcknowledgement</w:Action><w:To>\
        http://a.example/</w:To><m:SequenceAcknowledgement><m:Identifier>urn:q</m:Identifier>\
        <m:AcknowledgementRange Upper='3' Lower='1'></m:AcknowledgementRange></m:SequenceAcknowledgement>\
        </e:Header><e:Body/></e:Envelope>",
        b"<a:To>http://a.example/</a:To><a:Action>\
        http://docs.oasis-open.org/ws-rx/wsrm/200702/SequenceAcknowledgement</a:Action><r:SequenceAcknowledgement>\
        <r:Identifier>urn:q</r:Identifier><r:AcknowledgementRange Lower=\"1\" Upper=\"3\"/>\
        </r:SequenceAcknowledgement>",
        b"",
    ),
    (
        "a declaration with all of its parts, and comments before the root",
        b"\xef\xbb\xbf<?xml  version = '1.0' encoding=\"utf-8\" standalone='no' ?><!-- 1 -->\r\n<!--2-->\
        <e:Envelope xmlns:e=\"http://www.w3.org/2003/05/soap-envelope\"\n><e:Header\t><a:Action\n \
        xmlns:a\n=\n'http://www.w3.org/2005/08/addressing'\n>urn:x</a:Action\n></e:Header\n><e:Body\n/>\
        </e:Envelope\n><!--3-->",
        BARE,
        b"",
    ),
    (
        "comments and white space in all places",
        b"<e:Envelope xmlns:e='http://www.w3.org/2003/05/soap-envelope' \
        xmlns:a='http://www.w3.org/2005/08/addressing' xmlns:r='http://docs.oasis-open.org/ws-rx/wsrm/200702'> \
        <!-- 1 --> <e:Header> <!-- 2 --> <a:MessageID><!-- 3 --> urn<!-- 4 -->:m <!-- 5 --></a:MessageID> <!-- 6 \
        -->\n<a:Action>http://docs.oasis-open.org/ws-rx/wsrm/200702/CloseSequence</a:Action></e:Header>\n<e:Body> \
        <!-- 7 --> <r:CloseSequence> <!-- 8 --> <r:LastMsgNumber> <!-- 9 -->1<!-- 10 -->2 </r:LastMsgNumber>\n\t\
        <r:Identifier> <!-- 11 -->urn:q </r:Identifier> </r:CloseSequence> <!-- 12 --> </e:Body> <!-- 13 --> \
        </e:Envelope> ",
        b"<a:To>http://www.w3.org/2005/08/addressing/anonymous</a:To><a:Action>\
        http://docs.oasis-open.org/ws-rx/wsrm/200702/CloseSequence</a:Action><a:MessageID>urn:m</a:MessageID>",
        b"<r:CloseSequence><r:Identifier>urn:q</r:Identifier><r:LastMsgNumber>12</r:LastMsgNumber>\
        </r:CloseSequence>",
    ),
    (
        "attributes on Envelope, Header and Body",
        b"<e:Envelope xmlns:e='http://www.w3.org/2003/05/soap-envelope' \
        xmlns:u='http://docs.oasis-open.org/wss/2004/01/oasis-200401-wss-wssecurity-utility-1.0.xsd' u:Id='1' \
        e:encodingStyle='urn:none' xml:lang='en'><e:Header u:Id='2' b='1'><a:Action \
        xmlns:a='http://www.w3.org/2005/08/addressing' u:Id='3' e:mustUnderstand='1' e:relay='true'>urn:x\
        </a:Action></e:Header><e:Body u:Id='4' xml:space='preserve' b='1'> <o/> </e:Body></e:Envelope>",
        BARE,
        b" <o/> ",
    ),
    (
        "sections of CDATA in values",
        b"<e:Envelope xmlns:e='http://www.w3.org/2003/05/soap-envelope' \
        xmlns:a='http://www.w3.org/2005/08/addressing' xmlns:r='http://docs.oasis-open.org/ws-rx/wsrm/200702'>\
        <e:Header><a:Action><![CDATA[urn:<a>&b;]]></a:Action><r:Sequence><r:Identifier><![CDATA[ ]]>urn:\
        <![CDATA[q]]><![CDATA[]]></r:Identifier><r:MessageNumber><![CDATA[4]]>2</r:MessageNumber></r:Sequence>\
        </e:Header><e:Body><![CDATA[]]><o><![CDATA[<p>]]></o></e:Body></e:Envelope>",
        b"<a:To>http://www.w3.org/2005/08/addressing/anonymous</a:To><a:Action>urn:&lt;a&gt;&amp;b;</a:Action>\
        <r:Sequence s:mustUnderstand=\"true\"><r:Identifier>urn:q</r:Identifier><r:MessageNumber>42\
        </r:MessageNumber></r:Sequence>",
        b"<![CDATA[]]><o><![CDATA[<p>]]></o>",
    ),
    (
        "character references in names of namespaces and in values",
        b"<e:Envelope xmlns:e='http://www.w3.org/2003/05/soap-envelope' \
        xmlns:a='http://www.w3.org/2005/08/&#97;ddressing' \
        xmlns:c='http://docs.oasis-open.org/ws-rx/ws&#x6d;&#x63;/200702'><e:Header><a:Action>\
        &#104;ttp&#x3A;//docs.oasis-open.org/ws-rx/wsmc/200702/MakeConnection</a:Action></e:Header><e:Body>\
        <c:MakeConnection><c:Address>http://b.example/?p&amp;q=&#233;&#x1F600;</c:Address></c:MakeConnection>\
        </e:Body></e:Envelope>",
        b"<a:To>http://www.w3.org/2005/08/addressing/anonymous</a:To><a:Action>\
        http://docs.oasis-open.org/ws-rx/wsmc/200702/MakeConnection</a:Action>",
        b"<c:MakeConnection><c:Address>http://b.example/?p&amp;q=\xc3\xa9\xf0\x9f\x98\x80</c:Address>\
        </c:MakeConnection>",
    ),
    (
        "line ends, in a value and in a payload",
        b"<e:Envelope xmlns:e='http://www.w3.org/2003/05/soap-envelope'>\r<e:Header>\r\n<a:Action \
        xmlns:a='http://www.w3.org/2005/08/addressing'>\r\nurn:x\r\ny\rz&#13;w\r\n</a:Action></e:Header><e:Body>\
        \r\n<o p='\r\n'>\r</o>&#13;<!--\r--></e:Body></e:Envelope>\r",
        b"<a:To>http://www.w3.org/2005/08/addressing/anonymous</a:To><a:Action>urn:x\ny\nz&#13;w</a:Action>",
        b"\r\n<o p='\r\n'>\r</o>&#13;<!--\r-->",
    ),
    (
        "prefixes that the payload alone uses, and a number with spaces and a zero",
        b"<?xml version=\"1.0\" encoding=\"UTF-8\"?><!-- x --><S:Envelope \
        xmlns:S='http://www.w3.org/2003/05/soap-envelope' xmlns:wsa=\"http://www.w3.org/2005/08/addressing\" \
        xmlns:rm=\"http://docs.oasis-open.org/ws-rx/wsrm/200702\" xmlns:o=\"urn:o\"><S:Header><wsa:Action \
        S:mustUnderstand=\"1\">urn:buy&amp;sell</wsa:Action><rm:Sequence S:mustUnderstand=\"1\"><rm:Identifier>\
        urn:q</rm:Identifier><rm:MessageNumber> 07 </rm:MessageNumber></rm:Sequence></S:Header><S:Body><o:x/>\
        </S:Body></S:Envelope>",
        b"<a:To>http://www.w3.org/2005/08/addressing/anonymous</a:To><a:Action>urn:buy&amp;sell</a:Action>\
        <r:Sequence s:mustUnderstand=\"true\"><r:Identifier>urn:q</r:Identifier><r:MessageNumber>7\
        </r:MessageNumber></r:Sequence>",
        b"<o:x/>",
    ),
    (
        "an acknowledgement as a parameter of ReplyTo",
        b"<S:Envelope xmlns:S='http://www.w3.org/2003/05/soap-envelope' \
        xmlns:wsa='http://www.w3.org/2005/08/addressing' xmlns:rm='http://docs.oasis-open.org/ws-rx/wsrm/200702'>\
        <S:Header><wsa:Action>urn:x</wsa:Action><wsa:ReplyTo><wsa:Address>http://node1.example/</wsa:Address>\
        <wsa:ReferenceParameters><rm:SequenceAcknowledgement><rm:Identifier>\
        urn:uuid:00000000-0000-8002-8000-000000000001</rm:Identifier><rm:AcknowledgementRange Lower=\"1\" \
        Upper=\"1\"/></rm:SequenceAcknowledgement></wsa:ReferenceParameters></wsa:ReplyTo></S:Header><S:Body>\
        <wsa:o/></S:Body></S:Envelope>",
        b"<a:To>http://www.w3.org/2005/08/addressing/anonymous</a:To><a:Action>urn:x</a:Action><a:ReplyTo>\
        <a:Address>http://node1.example/</a:Address><a:ReferenceParameters><n:SequenceAcknowledgement \
        xmlns:n=\"http://docs.oasis-open.org/ws-rx/wsrm/200702\"><n:Identifier \
        xmlns:n=\"http://docs.oasis-open.org/ws-rx/wsrm/200702\">urn:uuid:00000000-0000-8002-8000-000000000001\
        </n:Identifier><n:AcknowledgementRange xmlns:n=\"http://docs.oasis-open.org/ws-rx/wsrm/200702\" \
        Lower=\"1\" Upper=\"1\"></n:AcknowledgementRange></n:SequenceAcknowledgement></a:ReferenceParameters>\
        </a:ReplyTo>",
        b"<wsa:o/>",
    ),
];

#[test]
fn of_documents(rt: HostRuntime) -> Result<(), Memory> {
    for row in &DOCUMENTS {
        assert!(rt; is_read(rt.alloc(), row)?, "{}", row.0);
    }
    Ok(())
}
