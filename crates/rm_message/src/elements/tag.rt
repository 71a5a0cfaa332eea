//! The names of what is written, with the prefixes that a frame binds.
ghost use Rattle.std.specs.Prelude.{◌≡◌};
ghost use Rattle.soap_writer.specs.Nodes.Node.{tag_name};
ghost use Rattle.rm_message.specs.Elements.Texts.{tag_of};

/// An element of WS-ReliableMessaging or of WS-MakeConnection. `NoRange` is the element None.
#[derive(Clone, Copy, Debug)]
pub enum Tag {
    Sequence,
    Identifier,
    MessageNumber,
    SequenceAcknowledgement,
    AcknowledgementRange,
    NoRange,
    Nack,
    Final,
    AckRequested,
    MessagePending,
    CreateSequence,
    CreateSequenceResponse,
    CloseSequence,
    CloseSequenceResponse,
    TerminateSequence,
    TerminateSequenceResponse,
    LastMsgNumber,
    AcksTo,
    Expires,
    Offer,
    Endpoint,
    IncompleteSequenceBehavior,
    Accept,
    MakeConnection,
    Address,
    Other,
}

impl Tag {
    /// Its written name.
    #[tactic(auto, unfolding(soap_writer::specs::Nodes::Node::tag_name))]
    pub fn name(self) -> &'static [u8]
        ensures { result.now ≡ tag_name (tag_of self) }
    {
        match self {
            Tag::Sequence => b"r:Sequence",
            Tag::Identifier => b"r:Identifier",
            Tag::MessageNumber => b"r:MessageNumber",
            Tag::SequenceAcknowledgement => b"r:SequenceAcknowledgement",
            Tag::AcknowledgementRange => b"r:AcknowledgementRange",
            Tag::NoRange => b"r:None",
            Tag::Nack => b"r:Nack",
            Tag::Final => b"r:Final",
            Tag::AckRequested => b"r:AckRequested",
            Tag::MessagePending => b"c:MessagePending",
            Tag::CreateSequence => b"r:CreateSequence",
            Tag::CreateSequenceResponse => b"r:CreateSequenceResponse",
            Tag::CloseSequence => b"r:CloseSequence",
            Tag::CloseSequenceResponse => b"r:CloseSequenceResponse",
            Tag::TerminateSequence => b"r:TerminateSequence",
            Tag::TerminateSequenceResponse => b"r:TerminateSequenceResponse",
            Tag::LastMsgNumber => b"r:LastMsgNumber",
            Tag::AcksTo => b"r:AcksTo",
            Tag::Expires => b"r:Expires",
            Tag::Offer => b"r:Offer",
            Tag::Endpoint => b"r:Endpoint",
            Tag::IncompleteSequenceBehavior => b"r:IncompleteSequenceBehavior",
            Tag::Accept => b"r:Accept",
            Tag::MakeConnection => b"c:MakeConnection",
            Tag::Address => b"c:Address",
            Tag::Other => b"c:Other",
        }
    }
}
