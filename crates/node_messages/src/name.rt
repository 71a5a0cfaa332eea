//! The messages of the protocol by name, and their actions: WS-ReliableMessaging 1.2, section 1.4.
ghost use Rattle.std.specs.Prelude.{◌≡◌};
ghost use Rattle.rm_base.specs.Text.{IsText};
ghost use Rattle.rm_protocol.specs.Addresses.{payload_action, rm_action};
ghost use Rattle.node_messages.specs.Names.{name_text};

use rm_message::actions;

/// A message of the protocol, named by the element that it is for.
#[derive(Clone, Copy, Debug, PartialEq, Eq)]
pub enum Name {
    CreateSequence,
    CreateSequenceResponse,
    CloseSequence,
    CloseSequenceResponse,
    TerminateSequence,
    TerminateSequenceResponse,
    SequenceAcknowledgement,
    AckRequested,
}

impl Name {
    /// The addressing action of the message.
    pub fn action(self) -> &'static [u8]
        ensures is { result.now ≡ rm_action (name_text self) }
        ensures is_text { IsText 2048 result.now }
    {
        self.bytes()
    }

    #[tactic(auto, unfolding(rm_protocol::specs::Addresses::rm_action))]
    fn bytes(self) -> &'static [u8]
        ensures { result.now ≡ rm_action (name_text self) }
    {
        match self {
            Name::CreateSequence => actions::CREATE_SEQUENCE,
            Name::CreateSequenceResponse => actions::CREATE_SEQUENCE_RESPONSE,
            Name::CloseSequence => actions::CLOSE_SEQUENCE,
            Name::CloseSequenceResponse => actions::CLOSE_SEQUENCE_RESPONSE,
            Name::TerminateSequence => actions::TERMINATE_SEQUENCE,
            Name::TerminateSequenceResponse => actions::TERMINATE_SEQUENCE_RESPONSE,
            Name::SequenceAcknowledgement => actions::SEQUENCE_ACKNOWLEDGEMENT,
            Name::AckRequested => actions::ACK_REQUESTED,
        }
    }
}

/// The action of a message of the application.
#[tactic(auto, unfolding(rm_protocol::specs::Addresses::payload_action))]
pub(crate) fn application_action() -> &'static [u8]
    ensures is { result.now ≡ payload_action }
    ensures is_text { IsText 2048 result.now }
{
    b"urn:wsrm:payload"
}
