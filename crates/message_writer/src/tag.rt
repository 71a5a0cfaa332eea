//! The names of what is written of SOAP, with the prefix that a frame binds to it.
ghost use Rattle.std.specs.Prelude.{◌≡◌};
ghost use Rattle.soap_writer.specs.Nodes.Node.{tag_name};
ghost use Rattle.message_writer.specs.Text.{tag_of};

/// An element of SOAP 1.2 Part 1, section 5.4.
#[derive(Clone, Copy, Debug)]
pub enum Tag {
    NotUnderstood,
    Fault,
    Code,
    Value,
    Subcode,
    Reason,
    Text,
    Detail,
}

impl Tag {
    /// Its written name.
    #[tactic(auto, unfolding(soap_writer::specs::Nodes::Node::tag_name))]
    pub fn name(self) -> &'static [u8]
        ensures { result.now ≡ tag_name (tag_of self) }
    {
        match self {
            Tag::NotUnderstood => b"s:NotUnderstood",
            Tag::Fault => b"s:Fault",
            Tag::Code => b"s:Code",
            Tag::Value => b"s:Value",
            Tag::Subcode => b"s:Subcode",
            Tag::Reason => b"s:Reason",
            Tag::Text => b"s:Text",
            Tag::Detail => b"s:Detail",
        }
    }
}
