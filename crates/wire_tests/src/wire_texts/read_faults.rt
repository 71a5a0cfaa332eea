//! Faults of many forms in the frame of an envelope, each with the message that it has.
use crate::wire_texts::forms::{BARE, Framed, is_read_in_frame};
use rm_base::Memory;

const FAULTS: [Framed; 18] = [
    (
        "without Detail",
        b"<a:Action>urn:x</a:Action>",
        b"<s:Fault><s:Code><s:Value> s:MustUnderstand </s:Value></s:Code><s:Reason><s:Text> not this </s:Text>\
        </s:Reason></s:Fault>",
        BARE,
        b"<s:Fault><s:Code><s:Value>s:MustUnderstand</s:Value></s:Code><s:Reason><s:Text xml:lang=\"en\">not this\
        </s:Text></s:Reason></s:Fault>",
    ),
    (
        "an empty Detail",
        b"<a:Action>urn:x</a:Action>",
        b"<s:Fault><s:Code><s:Value>s:Sender</s:Value></s:Code><s:Reason><s:Text>a</s:Text></s:Reason><s:Detail> \
        <!-- none --> text </s:Detail></s:Fault>",
        BARE,
        b"<s:Fault><s:Code><s:Value>s:Sender</s:Value></s:Code><s:Reason><s:Text xml:lang=\"en\">a</s:Text>\
        </s:Reason></s:Fault>",
    ),
    (
        "Detail with elements",
        b"<a:Action>urn:x</a:Action>",
        b"<s:Fault><s:Code><s:Value>s:Sender</s:Value></s:Code><s:Reason><s:Text>a</s:Text></s:Reason><s:Detail \
        xmlns:d='urn:d' d:x='1'> <d:e d:x='1' y='&lt;2\"' xml:lang='de'>t<f/><!-- c -->u<![CDATA[&]]></d:e>stray<g \
        xmlns='urn:g'/></s:Detail></s:Fault>",
        BARE,
        b"<s:Fault><s:Code><s:Value>s:Sender</s:Value></s:Code><s:Reason><s:Text xml:lang=\"en\">a</s:Text>\
        </s:Reason><s:Detail><n:e xmlns:n=\"urn:d\" xmlns:q0=\"urn:d\" q0:x=\"1\" y=\"&lt;2&quot;\" \
        xml:lang=\"de\">t<f></f>u&amp;</n:e><n:g xmlns:n=\"urn:g\"></n:g></s:Detail></s:Fault>",
    ),
    (
        "Detail before the others, and an Identifier in it",
        b"<a:Action>http://docs.oasis-open.org/ws-rx/wsrm/200702/fault</a:Action>",
        b"<s:Fault><s:Detail><r:Identifier>urn:q</r:Identifier></s:Detail><s:Reason><s:Text>b</s:Text></s:Reason>\
        <s:Code><s:Subcode><s:Value>r:UnknownSequence</s:Value></s:Subcode><s:Value>s:Sender</s:Value></s:Code>\
        </s:Fault>",
        b"<a:To>http://www.w3.org/2005/08/addressing/anonymous</a:To><a:Action>\
        http://docs.oasis-open.org/ws-rx/wsrm/200702/fault</a:Action>",
        b"<s:Fault><s:Code><s:Value>s:Sender</s:Value><s:Subcode><s:Value \
        xmlns:q=\"http://docs.oasis-open.org/ws-rx/wsrm/200702\">q:UnknownSequence</s:Value></s:Subcode></s:Code>\
        <s:Reason><s:Text xml:lang=\"en\">b</s:Text></s:Reason><s:Detail><n:Identifier \
        xmlns:n=\"http://docs.oasis-open.org/ws-rx/wsrm/200702\">urn:q</n:Identifier></s:Detail></s:Fault>",
    ),
    (
        "CDATA and references in the text, and another language",
        b"<a:Action>urn:x</a:Action>",
        b"<s:Fault><s:Code><s:Value>s:Sender</s:Value></s:Code><s:Reason><s:Text xml:lang='de'> <![CDATA[a<b]]> \
        &amp; &#x63;\r\n<!-- -->d&#13; </s:Text><s:Text xml:lang='en'>other</s:Text></s:Reason></s:Fault>",
        BARE,
        b"<s:Fault><s:Code><s:Value>s:Sender</s:Value></s:Code><s:Reason><s:Text xml:lang=\"en\">a&lt;b &amp; c\nd\
        </s:Text></s:Reason></s:Fault>",
    ),
    (
        "Node and Role, and each child twice",
        b"<a:Action>urn:x</a:Action>",
        b"<s:Fault><s:Code><s:Value>s:Sender</s:Value></s:Code><s:Code><s:Value>s:Receiver</s:Value></s:Code>\
        <s:Reason><s:Text>1</s:Text></s:Reason><s:Reason><s:Text>2</s:Text></s:Reason><s:Node>urn:n</s:Node>\
        <s:Role>urn:r</s:Role><s:Detail><d/></s:Detail><s:Detail><e/></s:Detail></s:Fault>",
        BARE,
        b"<s:Fault><s:Code><s:Value>s:Sender</s:Value></s:Code><s:Reason><s:Text xml:lang=\"en\">1</s:Text>\
        </s:Reason><s:Detail><d></d></s:Detail></s:Fault>",
    ),
    (
        "names by the default namespace",
        b"<a:Action>urn:x</a:Action>",
        b"<s:Fault><s:Code><s:Value xmlns='http://www.w3.org/2003/05/soap-envelope'>DataEncodingUnknown</s:Value>\
        <s:Subcode><s:Value xmlns='urn:x'>one</s:Value></s:Subcode></s:Code></s:Fault>",
        BARE,
        b"<s:Fault><s:Code><s:Value>s:DataEncodingUnknown</s:Value><s:Subcode><s:Value xmlns:q=\"urn:x\">q:one\
        </s:Value></s:Subcode></s:Code><s:Reason><s:Text xml:lang=\"en\"></s:Text></s:Reason></s:Fault>",
    ),
    (
        "names by prefixes of the Fault",
        b"<a:Action>urn:x</a:Action>",
        b"<e:Fault xmlns:e='http://www.w3.org/2003/05/soap-envelope' \
        xmlns:w='http://www.w3.org/2005/08/addressing'><e:Code><e:Value>e:Sender</e:Value><e:Subcode><e:Value>\
        w:InvalidAddressingHeader</e:Value><e:Subcode><e:Value>w:InvalidCardinality</e:Value><e:Subcode><e:Value>\
        w:x</e:Value></e:Subcode></e:Subcode></e:Subcode></e:Code></e:Fault>",
        BARE,
        b"<s:Fault><s:Code><s:Value>s:Sender</s:Value><s:Subcode><s:Value \
        xmlns:q=\"http://www.w3.org/2005/08/addressing\">q:InvalidAddressingHeader</s:Value><s:Subcode><s:Value \
        xmlns:q=\"http://www.w3.org/2005/08/addressing\">q:InvalidCardinality</s:Value></s:Subcode></s:Subcode>\
        </s:Code><s:Reason><s:Text xml:lang=\"en\"></s:Text></s:Reason></s:Fault>",
    ),
    (
        "an unreadable Code",
        b"<a:Action>urn:x</a:Action>",
        b"<s:Fault><s:Code><s:Value>Sender</s:Value><s:Subcode><s:Value>r:WSRMRequired</s:Value></s:Subcode>\
        </s:Code><s:Reason><s:Text>c</s:Text></s:Reason></s:Fault>",
        BARE,
        b"<s:Fault><s:Code><s:Value>s:Receiver</s:Value></s:Code><s:Reason><s:Text xml:lang=\"en\">c</s:Text>\
        </s:Reason></s:Fault>",
    ),
    (
        "a Code of no fault",
        b"<a:Action>urn:x</a:Action>",
        b"<s:Fault><s:Code><s:Value>s:Client</s:Value></s:Code><s:Reason></s:Reason></s:Fault>",
        BARE,
        b"<s:Fault><s:Code><s:Value>s:Receiver</s:Value></s:Code><s:Reason><s:Text xml:lang=\"en\"></s:Text>\
        </s:Reason></s:Fault>",
    ),
    (
        "a subcode without a namespace",
        b"<a:Action>urn:x</a:Action>",
        b"<s:Fault><s:Code><s:Value>s:Sender</s:Value><s:Subcode><s:Value>one</s:Value><s:Subcode><s:Value>r:two\
        </s:Value></s:Subcode></s:Subcode></s:Code></s:Fault>",
        BARE,
        b"<s:Fault><s:Code><s:Value>s:Sender</s:Value></s:Code><s:Reason><s:Text xml:lang=\"en\"></s:Text>\
        </s:Reason></s:Fault>",
    ),
    (
        "an inner subcode without a binding",
        b"<a:Action>urn:x</a:Action>",
        b"<s:Fault><s:Code><s:Value>s:Sender</s:Value><s:Subcode><s:Value>r:one</s:Value><s:Subcode><s:Value>\
        no:two</s:Value></s:Subcode></s:Subcode></s:Code></s:Fault>",
        BARE,
        b"<s:Fault><s:Code><s:Value>s:Sender</s:Value><s:Subcode><s:Value \
        xmlns:q=\"http://docs.oasis-open.org/ws-rx/wsrm/200702\">q:one</s:Value></s:Subcode></s:Code><s:Reason>\
        <s:Text xml:lang=\"en\"></s:Text></s:Reason></s:Fault>",
    ),
    (
        "an unreadable text",
        b"<a:Action>urn:x</a:Action>",
        b"<s:Fault><s:Code><s:Value>s:Sender</s:Value></s:Code><s:Reason><s:Text>a<b/></s:Text><s:Text>c</s:Text>\
        </s:Reason></s:Fault>",
        BARE,
        b"<s:Fault><s:Code><s:Value>s:Sender</s:Value></s:Code><s:Reason><s:Text xml:lang=\"en\"></s:Text>\
        </s:Reason></s:Fault>",
    ),
    (
        "an empty Fault, behind a comment, and more behind it",
        b"<a:Action>urn:x</a:Action>",
        b"x<!-- 1 --> <s:Fault/><o/>",
        BARE,
        b"<s:Fault><s:Code><s:Value>s:Receiver</s:Value></s:Code><s:Reason><s:Text xml:lang=\"en\"></s:Text>\
        </s:Reason></s:Fault>",
    ),
    (
        "instead of what the action says",
        b"<a:Action>http://docs.oasis-open.org/ws-rx/wsrm/200702/CreateSequence</a:Action>",
        b"<s:Fault><s:Code><s:Value>s:Sender</s:Value></s:Code></s:Fault>",
        b"<a:To>http://www.w3.org/2005/08/addressing/anonymous</a:To><a:Action>\
        http://docs.oasis-open.org/ws-rx/wsrm/200702/CreateSequence</a:Action>",
        b"<s:Fault><s:Code><s:Value>s:Sender</s:Value></s:Code><s:Reason><s:Text xml:lang=\"en\"></s:Text>\
        </s:Reason></s:Fault>",
    ),
    (
        "beside a Sequence",
        b"<a:Action>urn:x</a:Action><r:Sequence s:mustUnderstand=\"true\"><r:Identifier>urn:q</r:Identifier>\
        <r:MessageNumber>2</r:MessageNumber></r:Sequence>",
        b"<s:Fault><s:Code><s:Value>s:Sender</s:Value></s:Code></s:Fault>",
        b"<a:To>http://www.w3.org/2005/08/addressing/anonymous</a:To><a:Action>urn:x</a:Action><r:Sequence \
        s:mustUnderstand=\"true\"><r:Identifier>urn:q</r:Identifier><r:MessageNumber>2</r:MessageNumber>\
        </r:Sequence>",
        b"<s:Fault><s:Code><s:Value>s:Sender</s:Value></s:Code></s:Fault>",
    ),
    (
        "as the second element",
        b"<a:Action>urn:x</a:Action>",
        b"<o/><s:Fault><s:Code><s:Value>s:Sender</s:Value></s:Code></s:Fault>",
        BARE,
        b"<o/><s:Fault><s:Code><s:Value>s:Sender</s:Value></s:Code></s:Fault>",
    ),
    (
        "in another namespace",
        b"<a:Action>urn:x</a:Action>",
        b"<Fault xmlns='http://schemas.xmlsoap.org/soap/envelope/'/>",
        BARE,
        b"<Fault xmlns='http://schemas.xmlsoap.org/soap/envelope/'/>",
    ),
];

#[test]
fn of_faults(rt: HostRuntime) -> Result<(), Memory> {
    for row in &FAULTS {
        assert!(rt; is_read_in_frame(rt.alloc(), row)?, "{}", row.0);
    }
    Ok(())
}
