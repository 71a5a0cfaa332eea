//! The names of what is written, with the prefix that a frame binds to WS-Addressing.
ghost use Rattle.std.specs.Prelude.{◌≡◌};
ghost use Rattle.soap_writer.specs.Nodes.Node.{tag_name};
ghost use Rattle.wsa_headers.specs.Texts.{tag_of};

/// An element of WS-Addressing.
#[derive(Clone, Copy, Debug)]
pub enum Tag {
    To,
    Action,
    MessageID,
    RelatesTo,
    ReplyTo,
    FaultTo,
    Address,
    ReferenceParameters,
}

impl Tag {
    /// Its written name.
    #[tactic(auto, unfolding(soap_writer::specs::Nodes::Node::tag_name))]
    pub fn name(self) -> &'static [u8]
        ensures { result.now ≡ tag_name (tag_of self) }
    {
        match self {
            Tag::To => b"a:To",
            Tag::Action => b"a:Action",
            Tag::MessageID => b"a:MessageID",
            Tag::RelatesTo => b"a:RelatesTo",
            Tag::ReplyTo => b"a:ReplyTo",
            Tag::FaultTo => b"a:FaultTo",
            Tag::Address => b"a:Address",
            Tag::ReferenceParameters => b"a:ReferenceParameters",
        }
    }
}
