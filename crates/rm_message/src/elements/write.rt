//! Header blocks and body elements to bytes. Each writer of a piece appends it, up to a want of memory.
ghost use Rattle.std.specs.Prelude.{◌≡◌, ◌<◌, ◌++◌, OnOk, OnErr, IfOk, [], decimal, codes};
ghost use Rattle.soap_writer.specs.Nodes.Node.{
  tag_name,
  begin_text,
  node_text,
  nodes_text,
  note_text,
  void,
  leaf,
  more,
  each_node,
  nothing,
};
ghost use Rattle.rm_message.specs.Elements.Texts.{
  tag_of,
  must,
  sequence_node,
  range_node,
  nack_node,
  final_nodes,
  kind_nodes,
  ack_node,
  ask_node,
  flag_text,
  pending_node,
  header_node,
  months_text,
  three_digits,
  seconds_text,
  time_text,
  lapse_text,
  expires_before,
  behaviour_text,
  behaviour_node,
  epr_node,
  offer_node,
  offer_nodes,
  create_node,
  accept_nodes,
  response_node,
  last_nodes,
  finish_node,
  ident_node,
  other_nodes,
  address_before,
  make_node,
  lifecycle_node,
};

use crate::elements::header::{AckBlock, AckKind, Header, SeqHeader};
use crate::elements::lifecycle::{
    CreateResponse, CreateSequence, Finish, Lifecycle, MakeConnection, Offer,
};
use crate::elements::tag::Tag;
use itoa::Buffer;
use rm_base::{Behaviour, Blob, Ident, Lapse, Memory, Uri};
use rm_sides::ranges::Range;
use soap_writer::nodes::{
    push_attribute, push_begin, push_close, push_leaf, push_number, push_start, push_void,
};
use soap_writer::push_bytes;
use std::alloc::Global;
use wsa_headers::{Epr, push_epr};

/// Appends a header block, for which the prefixes of a frame have to be bound around it.
pub fn write_header(alloc: Global, header: &Header, out: &mut Blob) -> Result<(), Memory>
    ensures ok { OnOk result (out.new ≡ out.old ++ node_text (header_node header.now)) }
    ensures err { OnErr result (out.new ≡ out.old) }
{
    let mut text = Vec::new(alloc);
    push_header(header, &mut text)?;
    out.push_all(text.as_slice())
}

fn push_header(header: &Header, out: &mut Vec<u8>) -> Result<(), Memory>
    ensures { OnOk result (out.new.items ≡ out.old.items ++ node_text (header_node header.now)) }
{
    match header {
        Header::Sequence(sequence) => push_sequence(sequence, out),
        Header::Ack(ack) => push_ack(ack, out),
        Header::Ask(ident) => push_ask(ident, out),
        Header::Pending(pending) => push_pending(*pending, out),
    }
}

fn push_text_of(tag: Tag, text: &[u8], out: &mut Vec<u8>) -> Result<(), Memory>
    ensures { OnOk result (out.new.items ≡ out.old.items ++ node_text (leaf (tag_of tag) text.now)) }
{
    push_leaf(tag.name(), text, out)
}

fn push_number_of(tag: Tag, number: u64, out: &mut Vec<u8>) -> Result<(), Memory>
    ensures { OnOk result (out.new.items ≡ out.old.items ++ node_text (leaf (tag_of tag) (decimal number))) }
{
    push_number(tag.name(), number, out)
}

fn push_empty(tag: Tag, out: &mut Vec<u8>) -> Result<(), Memory>
    ensures { OnOk result (out.new.items ≡ out.old.items ++ node_text (void (tag_of tag) [])) }
{
    push_void(tag.name(), out)
}

// That a block has to be understood.
#[tactic(auto, unfolding(soap_writer::specs::Nodes::Node::note_text))]
fn push_must(out: &mut Vec<u8>) -> Result<(), Memory>
    ensures { OnOk result (out.new.items ≡ out.old.items ++ note_text must) }
{
    push_bytes(b" s:mustUnderstand=\"true\"", out)
}

/// Appends a Sequence block: section 3.7. Up to a want of memory, as the next three.
pub fn push_sequence(sequence: &SeqHeader, out: &mut Vec<u8>) -> Result<(), Memory>
    ensures { OnOk result (out.new.items ≡ out.old.items ++ node_text (sequence_node sequence.now)) }
{
    push_begin(Tag::Sequence.name(), out)?;
    push_must(out)?;
    push_bytes(b">", out)?;
    push_text_of(Tag::Identifier, sequence.ident.as_slice(), out)?;
    push_number_of(Tag::MessageNumber, sequence.number, out)?;
    push_close(Tag::Sequence.name(), out)?;
    Ok(())
}

fn push_range(range: &Range, out: &mut Vec<u8>) -> Result<(), Memory>
    ensures { OnOk result (out.new.items ≡ out.old.items ++ node_text (range_node range.now)) }
{
    push_begin(Tag::AcknowledgementRange.name(), out)?;
    push_attribute(b"Lower", Buffer::new().format(range.lower).as_bytes(), out)?;
    push_attribute(b"Upper", Buffer::new().format(range.upper).as_bytes(), out)?;
    push_bytes(b"/>", out)?;
    Ok(())
}

fn push_ranges(ranges: &[Range], out: &mut Vec<u8>) -> Result<(), Memory>
    ensures { OnOk result (out.new.items ≡ out.old.items ++ nodes_text (each_node range_node ranges.now nothing)) }
{
    for range in ranges {
        push_range(range, out)?;
    }
    Ok(())
}

fn push_nacks(numbers: &[u64], out: &mut Vec<u8>) -> Result<(), Memory>
    ensures { OnOk result (out.new.items ≡ out.old.items ++ nodes_text (each_node nack_node numbers.now nothing)) }
{
    for number in numbers {
        push_number_of(Tag::Nack, *number, out)?;
    }
    Ok(())
}

fn push_kind(kind: &AckKind, out: &mut Vec<u8>) -> Result<(), Memory>
    ensures { OnOk result (out.new.items ≡ out.old.items ++ nodes_text (kind_nodes kind.now nothing)) }
{
    match kind {
        AckKind::Ranges(ranges) => push_ranges(ranges.as_slice(), out),
        AckKind::Nothing => push_empty(Tag::NoRange, out),
        AckKind::Nack(numbers) => push_nacks(numbers.as_slice(), out),
    }
}

fn push_final(last: bool, out: &mut Vec<u8>) -> Result<(), Memory>
    ensures { OnOk result (out.new.items ≡ out.old.items ++ nodes_text (final_nodes last)) }
{
    if last {
        return push_empty(Tag::Final, out);
    }
    Ok(())
}

#[tactic(auto, using(crate::proofs::ElementsLemmas::NodeLemmas::kind_first))]
fn push_rest(kind: &AckKind, last: bool, out: &mut Vec<u8>) -> Result<(), Memory>
    ensures { OnOk result (out.new.items ≡ out.old.items ++ nodes_text (kind_nodes kind.now (final_nodes last))) }
{
    push_kind(kind, out)?;
    push_final(last, out)?;
    Ok(())
}

/// Appends a SequenceAcknowledgement block: section 3.9.
pub fn push_ack(ack: &AckBlock, out: &mut Vec<u8>) -> Result<(), Memory>
    ensures { OnOk result (out.new.items ≡ out.old.items ++ node_text (ack_node ack.now)) }
{
    push_start(Tag::SequenceAcknowledgement.name(), out)?;
    push_text_of(Tag::Identifier, ack.ident.as_slice(), out)?;
    push_rest(&ack.kind, ack.last, out)?;
    push_close(Tag::SequenceAcknowledgement.name(), out)?;
    Ok(())
}

// An element that holds nothing but an Identifier.
fn push_ident(tag: Tag, ident: &Ident, out: &mut Vec<u8>) -> Result<(), Memory>
    ensures { OnOk result (out.new.items ≡ out.old.items ++ node_text (ident_node tag ident.now)) }
{
    push_start(tag.name(), out)?;
    push_text_of(Tag::Identifier, ident.as_slice(), out)?;
    push_close(tag.name(), out)?;
    Ok(())
}

/// Appends an AckRequested block: section 3.8.
pub fn push_ask(ident: &Ident, out: &mut Vec<u8>) -> Result<(), Memory>
    ensures { OnOk result (out.new.items ≡ out.old.items ++ node_text (ask_node ident.now)) }
{
    push_ident(Tag::AckRequested, ident, out)
}

fn flag(flag: bool) -> &'static [u8]
    ensures { result.now ≡ flag_text flag }
{
    if flag { b"true" } else { b"false" }
}

/// Appends a MessagePending block of WS-MakeConnection 1.1, section 3.3.
pub fn push_pending(pending: bool, out: &mut Vec<u8>) -> Result<(), Memory>
    ensures { OnOk result (out.new.items ≡ out.old.items ++ node_text (pending_node pending)) }
{
    push_begin(Tag::MessagePending.name(), out)?;
    push_attribute(b"pending", flag(pending), out)?;
    push_bytes(b"/>", out)?;
    Ok(())
}

fn push_digits(number: u64, out: &mut Vec<u8>) -> Result<(), Memory>
    ensures { OnOk result (out.new.items ≡ out.old.items ++ decimal number) }
{
    push_bytes(Buffer::new().format(number).as_bytes(), out)
}

fn push_three_digits(number: u64, out: &mut Vec<u8>) -> Result<(), Memory>
    requires { number < 1000 }
    ensures { OnOk result (out.new.items ≡ out.old.items ++ three_digits number) }
{
    let digits = [
        b'0' + (number / 100) as u8,
        b'0' + (number / 10 % 10) as u8,
        b'0' + (number % 10) as u8,
    ];
    push_bytes(&digits, out)
}

fn push_seconds(ms: u64, out: &mut Vec<u8>) -> Result<(), Memory>
    ensures { OnOk result (out.new.items ≡ out.old.items ++ seconds_text ms) }
{
    if ms % 1000 == 0 {
        return push_digits(ms / 1000, out);
    }
    push_digits(ms / 1000, out)?;
    push_bytes(b".", out)?;
    push_three_digits(ms % 1000, out)?;
    Ok(())
}

fn push_time(ms: u64, out: &mut Vec<u8>) -> Result<(), Memory>
    ensures { OnOk result (out.new.items ≡ out.old.items ++ time_text ms) }
{
    if ms == 0 {
        return Ok(());
    }
    push_bytes(b"T", out)?;
    push_seconds(ms, out)?;
    push_bytes(b"S", out)?;
    Ok(())
}

fn push_months(months: u64, out: &mut Vec<u8>) -> Result<(), Memory>
    ensures { OnOk result (out.new.items ≡ out.old.items ++ months_text months) }
{
    if months == 0 {
        return Ok(());
    }
    push_digits(months, out)?;
    push_bytes(b"M", out)?;
    Ok(())
}

// A duration as it is written.
fn duration_text(alloc: Global, lapse: Lapse) -> Result<Vec<u8>, Memory>
    ensures { IfOk result (λ text. text.items ≡ lapse_text lapse) }
{
    let mut text = Vec::new(alloc);
    push_bytes(b"P", &mut text)?;
    push_months(lapse.months, &mut text)?;
    push_time(lapse.ms, &mut text)?;
    Ok(text)
}

fn push_expires(alloc: Global, lapse: Lapse, out: &mut Vec<u8>) -> Result<(), Memory>
    ensures { OnOk result (out.new.items ≡ out.old.items ++ nodes_text (expires_before lapse nothing)) }
{
    if lapse.months == 0 && lapse.ms == 0 {
        return Ok(());
    }
    let text = duration_text(alloc, lapse)?;
    push_text_of(Tag::Expires, text.as_slice(), out)?;
    Ok(())
}

fn behaviour_name(behaviour: Behaviour) -> &'static [u8]
    ensures { result.now ≡ behaviour_text behaviour }
{
    match behaviour {
        Behaviour::NoDiscard => b"NoDiscard",
        Behaviour::EntireSequence => b"DiscardEntireSequence",
        Behaviour::FollowingFirstGap => b"DiscardFollowingFirstGap",
    }
}

fn push_behaviour(behaviour: Behaviour, out: &mut Vec<u8>) -> Result<(), Memory>
    ensures { OnOk result (out.new.items ≡ out.old.items ++ node_text (behaviour_node behaviour)) }
{
    push_text_of(
        Tag::IncompleteSequenceBehavior,
        behaviour_name(behaviour),
        out,
    )
}

// An element that is an endpoint reference.
fn push_reference(alloc: Global, tag: Tag, reference: &Epr, out: &mut Vec<u8>) -> Result<(), Memory>
    ensures { OnOk result (out.new.items ≡ out.old.items ++ node_text (epr_node tag reference.now)) }
{
    push_start(tag.name(), out)?;
    push_epr(alloc, reference, out)?;
    push_close(tag.name(), out)?;
    Ok(())
}

// When an offer expires, and what is discarded.
#[tactic(auto, using(crate::proofs::ElementsLemmas::NodeLemmas::expires_first))]
fn push_terms(
    alloc: Global,
    expires: Lapse,
    behaviour: Behaviour,
    out: &mut Vec<u8>,
) -> Result<(), Memory>
    ensures { OnOk result (out.new.items
        ≡ out.old.items ++ nodes_text (expires_before expires (more (behaviour_node behaviour) nothing))) }
{
    push_expires(alloc, expires, out)?;
    push_behaviour(behaviour, out)?;
    Ok(())
}

fn push_offer(alloc: Global, offer: &Offer, out: &mut Vec<u8>) -> Result<(), Memory>
    ensures { OnOk result (out.new.items ≡ out.old.items ++ node_text (offer_node offer.now)) }
{
    push_start(Tag::Offer.name(), out)?;
    push_text_of(Tag::Identifier, offer.ident.as_slice(), out)?;
    push_reference(alloc, Tag::Endpoint, &offer.endpoint, out)?;
    push_terms(alloc, offer.expires, offer.behaviour, out)?;
    push_close(Tag::Offer.name(), out)?;
    Ok(())
}

fn push_offered(alloc: Global, offer: &Option<Offer>, out: &mut Vec<u8>) -> Result<(), Memory>
    ensures { OnOk result (out.new.items ≡ out.old.items ++ nodes_text (offer_nodes offer.now)) }
{
    match offer {
        Some(offer) => push_offer(alloc, offer, out),
        None => Ok(()),
    }
}

// When a sequence expires, and the one that is offered.
#[tactic(auto, using(crate::proofs::ElementsLemmas::NodeLemmas::expires_first))]
fn push_wishes(alloc: Global, create: &CreateSequence, out: &mut Vec<u8>) -> Result<(), Memory>
    ensures { OnOk result (out.new.items
        ≡ out.old.items ++ nodes_text (expires_before create.now.expires (offer_nodes create.now.offer))) }
{
    push_expires(alloc, create.expires, out)?;
    push_offered(alloc, &create.offer, out)?;
    Ok(())
}

fn push_create(alloc: Global, create: &CreateSequence, out: &mut Vec<u8>) -> Result<(), Memory>
    ensures { OnOk result (out.new.items ≡ out.old.items ++ node_text (create_node create.now)) }
{
    push_start(Tag::CreateSequence.name(), out)?;
    push_reference(alloc, Tag::AcksTo, &create.acks_to, out)?;
    push_wishes(alloc, create, out)?;
    push_close(Tag::CreateSequence.name(), out)?;
    Ok(())
}

fn push_accept(alloc: Global, accept: &Option<Epr>, out: &mut Vec<u8>) -> Result<(), Memory>
    ensures { OnOk result (out.new.items ≡ out.old.items ++ nodes_text (accept_nodes accept.now)) }
{
    let Some(accept) = accept else {
        return Ok(());
    };
    push_start(Tag::Accept.name(), out)?;
    push_reference(alloc, Tag::AcksTo, accept, out)?;
    push_close(Tag::Accept.name(), out)?;
    Ok(())
}

// When a sequence expires, what is discarded, and the offer's acceptance.
#[tactic(auto, using(crate::proofs::ElementsLemmas::NodeLemmas::expires_first))]
fn push_grant(alloc: Global, response: &CreateResponse, out: &mut Vec<u8>) -> Result<(), Memory>
    ensures { OnOk result (out.new.items ≡ out.old.items
        ++ nodes_text (expires_before response.now.expires
        (more (behaviour_node response.now.behaviour) (accept_nodes response.now.accept)))) }
{
    push_expires(alloc, response.expires, out)?;
    push_behaviour(response.behaviour, out)?;
    push_accept(alloc, &response.accept, out)?;
    Ok(())
}

fn push_response(alloc: Global, response: &CreateResponse, out: &mut Vec<u8>) -> Result<(), Memory>
    ensures { OnOk result (out.new.items ≡ out.old.items ++ node_text (response_node response.now)) }
{
    push_start(Tag::CreateSequenceResponse.name(), out)?;
    push_text_of(Tag::Identifier, response.ident.as_slice(), out)?;
    push_grant(alloc, response, out)?;
    push_close(Tag::CreateSequenceResponse.name(), out)?;
    Ok(())
}

fn push_last(last: Option<u64>, out: &mut Vec<u8>) -> Result<(), Memory>
    ensures { OnOk result (out.new.items ≡ out.old.items ++ nodes_text (last_nodes last)) }
{
    match last {
        Some(number) => push_number_of(Tag::LastMsgNumber, number, out),
        None => Ok(()),
    }
}

fn push_finish(tag: Tag, finish: &Finish, out: &mut Vec<u8>) -> Result<(), Memory>
    ensures { OnOk result (out.new.items ≡ out.old.items ++ node_text (finish_node tag finish.now)) }
{
    push_start(tag.name(), out)?;
    push_text_of(Tag::Identifier, finish.ident.as_slice(), out)?;
    push_last(finish.last_number, out)?;
    push_close(tag.name(), out)?;
    Ok(())
}

fn push_address(address: &Option<Uri>, out: &mut Vec<u8>) -> Result<(), Memory>
    ensures { OnOk result (out.new.items ≡ out.old.items ++ nodes_text (address_before address.now nothing)) }
{
    match address {
        Some(address) => push_text_of(Tag::Address, address.as_slice(), out),
        None => Ok(()),
    }
}

fn push_other(other: bool, out: &mut Vec<u8>) -> Result<(), Memory>
    ensures { OnOk result (out.new.items ≡ out.old.items ++ nodes_text (other_nodes other)) }
{
    if other {
        return push_empty(Tag::Other, out);
    }
    Ok(())
}

#[tactic(auto, using(crate::proofs::ElementsLemmas::NodeLemmas::address_first))]
fn push_make(make: &MakeConnection, out: &mut Vec<u8>) -> Result<(), Memory>
    ensures { OnOk result (out.new.items ≡ out.old.items ++ node_text (make_node make.now)) }
{
    push_start(Tag::MakeConnection.name(), out)?;
    push_address(&make.address, out)?;
    push_other(make.other, out)?;
    push_close(Tag::MakeConnection.name(), out)?;
    Ok(())
}

fn push_lifecycle(alloc: Global, body: &Lifecycle, out: &mut Vec<u8>) -> Result<(), Memory>
    ensures { OnOk result (out.new.items ≡ out.old.items ++ node_text (lifecycle_node body.now)) }
{
    match body {
        Lifecycle::Create(create) => push_create(alloc, create, out),
        Lifecycle::CreateResponse(response) => push_response(alloc, response, out),
        Lifecycle::Close(finish) => push_finish(Tag::CloseSequence, finish, out),
        Lifecycle::CloseResponse(ident) => push_ident(Tag::CloseSequenceResponse, ident, out),
        Lifecycle::Terminate(finish) => push_finish(Tag::TerminateSequence, finish, out),
        Lifecycle::TerminateResponse(ident) => push_ident(
            Tag::TerminateSequenceResponse,
            ident,
            out,
        ),
        Lifecycle::Make(make) => push_make(make, out),
    }
}

/// Appends a body element, for which the prefixes of a frame have to be bound around it.
pub fn write_lifecycle(alloc: Global, body: &Lifecycle, out: &mut Blob) -> Result<(), Memory>
    ensures ok { OnOk result (out.new ≡ out.old ++ node_text (lifecycle_node body.now)) }
    ensures err { OnErr result (out.new ≡ out.old) }
{
    let mut text = Vec::new(alloc);
    push_lifecycle(alloc, body, &mut text)?;
    out.push_all(text.as_slice())
}
