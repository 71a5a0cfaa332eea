//! The sequence that a message is for, and whether it goes on: WS-ReliableMessaging 1.2, sections 4.3 to 4.8.
ghost use Rattle.std.specs.Prelude.{◌≡◌, ◌++◌, None};
ghost use Rattle.std.specs.Option.{option_copied};
ghost use Rattle.rm_protocol.specs.Verdict.{
  going_on as going_on_of,
  is_ended_at as is_ended_at_in,
  is_ended_for as is_ended_for_in,
  is_shut_at as is_shut_at_in,
  is_shut_for as is_shut_for_in,
  is_unknown as is_unknown_in,
  lacks_header as lacks_header_of,
  target as target_of,
};
ghost use Rattle.tables_ahead.specs.Known.{all_records};

use rm_base::Ident;
use rm_message::elements::Lifecycle;
use rm_message::{Body, Message};
use tables_ahead::Known;

/// Whether a message has a payload without a Sequence header.
pub(crate) fn lacks_header(message: &Message) -> bool
    ensures { result ≡ lacks_header_of message.now.sequence message.now.body }
{
    match &message.sequence {
        Some(_) => false,
        None => matches!(message.body, Body::Payload(_)),
    }
}

/// The sequence that a message is for: of its Sequence header, or of its CloseSequence or TerminateSequence.
pub fn target(message: &Message) -> Option<&Ident>
    ensures { option_copied result ≡ target_of message.now.sequence message.now.body }
{
    match &message.sequence {
        Some(header) => Some(&header.ident),
        None => finished(&message.body),
    }
}

// The sequence of a CloseSequence or a TerminateSequence.
fn finished(body: &Body) -> Option<&Ident>
    ensures { option_copied result ≡ target_of None body.now }
{
    match body {
        Body::Lifecycle(Lifecycle::Close(finish)) => Some(&finish.ident),
        Body::Lifecycle(Lifecycle::Terminate(finish)) => Some(&finish.ident),
        _ => None,
    }
}

/// Whether a message is for a sequence that is no incoming one of ours.
pub(crate) fn is_unknown(ahead: &Known<'_>, message: &Message) -> bool
    ensures { result
        ≡ is_unknown_in (all_records ahead.now) (target_of message.now.sequence message.now.body) }
{
    match target(message) {
        Some(ident) => ahead.find_incoming(ident).is_none(),
        None => false,
    }
}

// The sequence that a message would go on with: TerminateSequence ends one that is ended already.
fn going_on(message: &Message) -> Option<&Ident>
    ensures { option_copied result ≡ going_on_of message.now.sequence message.now.body }
{
    match &message.sequence {
        Some(header) => Some(&header.ident),
        None => closed(&message.body),
    }
}

// The sequence of a CloseSequence.
fn closed(body: &Body) -> Option<&Ident>
    ensures { option_copied result ≡ going_on_of None body.now }
{
    match body {
        Body::Lifecycle(Lifecycle::Close(finish)) => Some(&finish.ident),
        _ => None,
    }
}

// Whether a sequence of ours is ended.
fn is_ended_at(ahead: &Known<'_>, now: u64, seq: Option<u32>) -> bool
    ensures { result ≡ is_ended_at_in (all_records ahead.now) now seq }
{
    match seq {
        Some(seq) => ahead.is_ended(seq, now),
        None => false,
    }
}

/// Whether a message would go on with a sequence of ours that is ended.
pub(crate) fn is_ended_for(ahead: &Known<'_>, now: u64, message: &Message) -> bool
    ensures { let r = all_records ahead.now in
        result ≡ is_ended_for_in r now (going_on_of message.now.sequence message.now.body) }
{
    match going_on(message) {
        Some(ident) => is_ended_at(ahead, now, ahead.find_incoming(ident)),
        None => false,
    }
}

// Whether a number is not received yet, and the sequence is no longer open.
fn is_shut_at(ahead: &Known<'_>, now: u64, number: u64, seq: Option<u32>) -> bool
    ensures { result ≡ is_shut_at_in (all_records ahead.now) now number seq }
{
    match seq {
        Some(seq) => !ahead.has(seq, number) && ahead.is_over(seq, now),
        None => false,
    }
}

/// Whether a message brings a number that is not received yet, for a sequence that is closed.
pub(crate) fn is_shut_for(ahead: &Known<'_>, now: u64, message: &Message) -> bool
    ensures { result ≡ is_shut_for_in (all_records ahead.now) now message.now.sequence }
{
    match &message.sequence {
        Some(header) => is_shut_at(
            ahead,
            now,
            header.number,
            ahead.find_incoming(&header.ident),
        ),
        None => false,
    }
}
