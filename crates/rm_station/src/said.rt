//! What an application is told of what it asks.
ghost use Rattle.std.specs.Prelude.{◌≡◌, ◌⊎◌, [], Err, IfErr, IfOk, List, None, Ok, OnOk, Some, false, true};
ghost use Rattle.node_tables.specs.Reads.{outgoing_in};
ghost use Rattle.rm_serve.specs.Steps.{IsUp, MakesAll, Step, place_of};
ghost use Rattle.rm_host.specs.Ends.{is_refusal};
ghost use Rattle.rm_host.specs.Sequences.{IsFirstTo, is_open};
ghost use Rattle.rm_host.specs.Texts.{consumed_line, line_of};
ghost use Rattle.rm_station.specs.Texts.{accepted_line, closed_line, ended_line, next_line, opening_line, polled_line};
ghost use Rattle.rm_station.specs.Texts.{stopping_line};
ghost use Rattle.rm_station.specs.Works.{Tells, is_memory, is_outlived, is_under, next_number, only, said_failed};
ghost use Rattle.rm_station.specs.Works.{said_of, said_read};

use crate::ask::{Ask, Next};
use crate::calls::{accept, close, consume, create, end, poll};
use crate::reads::{count, fetch, fetch_next, health, list, show};
use node_tables::Tables;
use node_tables::laws::an_outgoing_sequence_is_as_recorded;
use rm_base::{Blob, Memory, Uri, push_decimal};
use rm_disk::Disk;
use rm_host::End;
use rm_host::send::{is_open, sequence_to};
use rm_node::{Made, Node, Outs, Sent};
use std::alloc::Global;

/// What came of a request of the application: the text that it is told, what the node hands out, and whether it stops.
#[derive(Debug, Drop)]
pub(crate) struct Said {
    pub text: Blob,
    pub outs: Outs,
    pub is_stop: bool,
}

/// Does what an application asks, or tells why not.
pub(crate) fn obey<D: Disk>(
    alloc: Global,
    node: &mut Node,
    disk: &mut D,
    now: u64,
    asked: Result<Ask, End>,
) -> Result<Said, End>
    requires up { IsUp D.tells (place_of (D.told disk.old) node.old) }
    ensures tells { (steps : List Step) × MakesAll D.tells (place_of (D.told disk.old) node.old)
        (place_of (D.told disk.new) node.new) steps × Tells now node.old.stored asked steps result }
    ensures up { OnOk result (IsUp D.tells (place_of (D.told disk.new) node.new)) }
{
    match asked {
        Ok(ask) => heed(alloc, node, disk, now, ask),
        Err(end) => unread(alloc, end),
    }
}

// Does what an application asks.
fn heed<D: Disk>(
    alloc: Global,
    node: &mut Node,
    disk: &mut D,
    now: u64,
    ask: Ask,
) -> Result<Said, End>
    requires up { IsUp D.tells (place_of (D.told disk.old) node.old) }
    ensures tells { (steps : List Step) × MakesAll D.tells (place_of (D.told disk.old) node.old)
        (place_of (D.told disk.new) node.new) steps × Tells now node.old.stored (Ok ask) steps result }
    ensures up { OnOk result (IsUp D.tells (place_of (D.told disk.new) node.new)) }
{
    match ask {
        Ask::Stops => stop(alloc),
        Ask::Offers { to, next, payload } => offer(alloc, node, disk, now, to, next, payload),
        Ask::Consumes { seq, upto } => consume_told(alloc, node, disk, now, seq, upto),
        Ask::Closes { seq } => close_told(alloc, node, disk, now, seq),
        Ask::Ends { seq } => end_told(alloc, node, disk, now, seq),
        Ask::Polls { to } => poll_told(alloc, node, disk, now, to),
        Ask::Lists { seq, from, most } => read(alloc, list(alloc, node, seq, from, most)),
        Ask::Fetches { seq, number } => read(alloc, fetch(alloc, node, seq, number)),
        Ask::FetchesNext { seq } => read(alloc, fetch_next(alloc, node, seq)),
        Ask::Shows => read(alloc, show(alloc, node, now)),
        Ask::Counts => read(alloc, count(alloc, node)),
        Ask::Health => read(alloc, health(alloc)),
    }
}

// What is read is told.
fn read(alloc: Global, answer: Result<Blob, End>) -> Result<Said, End>
    ensures { (result ≡ said_read answer) ⊎ (result ≡ Err End.Memory) }
{
    match answer {
        Ok(text) => Ok(text_said(alloc, text)),
        Err(end) => failed(alloc, end),
    }
}

// It is told that the node stops.
fn stop(alloc: Global) -> Result<Said, End>
    ensures { (result ≡ Ok (record { text = stopping_line; outs = []; is_stop = true })) ⊎ (result ≡ Err End.Memory) }
{
    Ok(stopping(alloc)?)
}

// The node stops.
fn stopping(alloc: Global) -> Result<Said, Memory>
    ensures { IfOk result (λ said. said ≡ record { text = stopping_line; outs = []; is_stop = true }) }
{
    Ok(Said {
        text: Blob::from_slice(alloc, b"stopping\n")?,
        outs: Outs::new(alloc),
        is_stop: true,
    })
}

// A text, and no more.
fn text_only(alloc: Global, text: &[u8]) -> Result<Said, Memory>
    ensures { IfOk result (λ said. said ≡ only text.now) }
{
    Ok(Said {
        text: Blob::from_slice(alloc, text)?,
        outs: Outs::new(alloc),
        is_stop: false,
    })
}

// What isn't understood is told so.
fn unread(alloc: Global, end: End) -> Result<Said, End>
    ensures ok { IfOk result (λ said. (is_memory end ≡ false) × (said ≡ only (line_of end))) }
    ensures err { IfErr result (λ e. e ≡ End.Memory) }
{
    if is_memory(end) {
        return Err(end);
    }
    Ok(text_only(alloc, end.line())?)
}

fn is_memory(end: End) -> bool
    ensures { result ≡ is_memory end }
{
    match end {
        End::Memory => true,
        End::Usage => false,
        End::ReadFault => false,
        End::WriteFault => false,
        End::DiskFault => false,
        End::LinkFault => false,
        End::TooLong => false,
        End::BadAddress => false,
        End::NotEmpty => false,
        End::Refused(_) => false,
        End::NotAJournal => false,
    }
}

fn is_refusal(end: End) -> bool
    ensures { result ≡ is_refusal end }
{
    match end {
        End::Refused(_) => true,
        End::Usage => false,
        End::ReadFault => false,
        End::WriteFault => false,
        End::DiskFault => false,
        End::LinkFault => false,
        End::TooLong => false,
        End::BadAddress => false,
        End::NotEmpty => false,
        End::Memory => false,
        End::NotAJournal => false,
    }
}

// The items of an inbox up to one are consumed.
fn consume_told<D: Disk>(
    alloc: Global,
    node: &mut Node,
    disk: &mut D,
    now: u64,
    seq: u32,
    upto: u64,
) -> Result<Said, End>
    requires up { IsUp D.tells (place_of (D.told disk.old) node.old) }
    ensures tells { (steps : List Step) × MakesAll D.tells (place_of (D.told disk.old) node.old)
        (place_of (D.told disk.new) node.new) steps
        × Tells now node.old.stored (Ok (Ask.Consumes seq upto)) steps result }
    ensures up { OnOk result (IsUp D.tells (place_of (D.told disk.new) node.new)) }
{
    let text = consumed_text(alloc, seq, upto)?;
    let outs = consume(alloc, node, disk, seq, upto);
    told(alloc, text, outs)
}

// A sequence is closed.
fn close_told<D: Disk>(
    alloc: Global,
    node: &mut Node,
    disk: &mut D,
    now: u64,
    seq: u32,
) -> Result<Said, End>
    requires up { IsUp D.tells (place_of (D.told disk.old) node.old) }
    ensures tells { (steps : List Step) × MakesAll D.tells (place_of (D.told disk.old) node.old)
        (place_of (D.told disk.new) node.new) steps
        × Tells now node.old.stored (Ok (Ask.Closes seq)) steps result }
    ensures up { OnOk result (IsUp D.tells (place_of (D.told disk.new) node.new)) }
{
    let text = closed_text(alloc, seq)?;
    let outs = close(node, disk, seq, now);
    told(alloc, text, outs)
}

// A sequence is ended.
fn end_told<D: Disk>(
    alloc: Global,
    node: &mut Node,
    disk: &mut D,
    now: u64,
    seq: u32,
) -> Result<Said, End>
    requires up { IsUp D.tells (place_of (D.told disk.old) node.old) }
    ensures tells { (steps : List Step) × MakesAll D.tells (place_of (D.told disk.old) node.old)
        (place_of (D.told disk.new) node.new) steps
        × Tells now node.old.stored (Ok (Ask.Ends seq)) steps result }
    ensures up { OnOk result (IsUp D.tells (place_of (D.told disk.new) node.new)) }
{
    let text = ended_text(alloc, seq)?;
    let outs = end(node, disk, seq);
    told(alloc, text, outs)
}

// An address is asked for what waits there.
fn poll_told<D: Disk>(
    alloc: Global,
    node: &mut Node,
    disk: &mut D,
    now: u64,
    to: Uri,
) -> Result<Said, End>
    requires up { IsUp D.tells (place_of (D.told disk.old) node.old) }
    ensures tells { (steps : List Step) × MakesAll D.tells (place_of (D.told disk.old) node.old)
        (place_of (D.told disk.new) node.new) steps
        × Tells now node.old.stored (Ok (Ask.Polls to)) steps result }
    ensures up { OnOk result (IsUp D.tells (place_of (D.told disk.new) node.new)) }
{
    let text = polled_text(alloc)?;
    let outs = poll(node, disk, to);
    told(alloc, text, outs)
}

// What is said of a call: its line where it is done.
fn told(alloc: Global, text: Blob, outs: Result<Outs, End>) -> Result<Said, End>
    ensures is { (result ≡ said_of text outs) ⊎ (result ≡ Err End.Memory) }
    ensures lasts { OnOk result (is_outlived outs ≡ true) }
{
    match outs {
        Ok(outs) => Ok(Said {
            text,
            outs,
            is_stop: false,
        }),
        Err(end) => failed(alloc, end),
    }
}

// A payload goes to an address.
fn offer<D: Disk>(
    alloc: Global,
    node: &mut Node,
    disk: &mut D,
    now: u64,
    to: Uri,
    next: Option<Next>,
    payload: Blob,
) -> Result<Said, End>
    requires up { IsUp D.tells (place_of (D.told disk.old) node.old) }
    ensures tells { (steps : List Step) × MakesAll D.tells (place_of (D.told disk.old) node.old)
        (place_of (D.told disk.new) node.new) steps
        × Tells now node.old.stored (Ok (Ask.Offers to next payload)) steps result }
    ensures up { OnOk result (IsUp D.tells (place_of (D.told disk.new) node.new)) }
{
    match sequence_to(node.tables(), &to) {
        Some(seq) => go_on(alloc, node, disk, now, &to, seq, next, payload),
        None => begin(alloc, node, disk, now, to, next, &payload),
    }
}

// A payload goes on the first sequence to an address, where that is open.
fn go_on<D: Disk>(
    alloc: Global,
    node: &mut Node,
    disk: &mut D,
    now: u64,
    to: &Uri,
    seq: u32,
    next: Option<Next>,
    payload: Blob,
) -> Result<Said, End>
    requires up { IsUp D.tells (place_of (D.told disk.old) node.old) }
    requires first { IsFirstTo node.old.stored.records to.now (Some seq) }
    ensures tells { (steps : List Step) × MakesAll D.tells (place_of (D.told disk.old) node.old)
        (place_of (D.told disk.new) node.new) steps
        × Tells now node.old.stored (Ok (Ask.Offers to.now next payload)) steps result }
    ensures up { OnOk result (IsUp D.tells (place_of (D.told disk.new) node.new)) }
{
    if is_open(node.tables(), seq) {
        return go_open(alloc, node, disk, now, to, seq, next, payload);
    }
    wait(alloc, seq)
}

// A payload goes on a sequence that is open, where its number comes next.
fn go_open<D: Disk>(
    alloc: Global,
    node: &mut Node,
    disk: &mut D,
    now: u64,
    to: &Uri,
    seq: u32,
    next: Option<Next>,
    payload: Blob,
) -> Result<Said, End>
    requires up { IsUp D.tells (place_of (D.told disk.old) node.old) }
    requires first { IsFirstTo node.old.stored.records to.now (Some seq) }
    requires open { is_open (outgoing_in node.old.stored.records seq) ≡ true }
    ensures tells { (steps : List Step) × MakesAll D.tells (place_of (D.told disk.old) node.old)
        (place_of (D.told disk.new) node.new) steps
        × Tells now node.old.stored (Ok (Ask.Offers to.now next payload)) steps result }
    ensures up { OnOk result (IsUp D.tells (place_of (D.told disk.new) node.new)) }
{
    let number = next_number(node.tables(), seq);
    if is_under(seq, number, next) {
        let sent = accept(node, disk, seq, payload);
        return said_sent(alloc, seq, sent);
    }
    pass(alloc, seq, number)
}

// The number that the next payload on a sequence gets.
fn next_number(tables: &Tables, seq: u32) -> u64
    requires { is_open (outgoing_in tables.now.records seq) ≡ true }
    ensures { result ≡ next_number tables.now.records seq }
{
    an_outgoing_sequence_is_as_recorded();
    match tables.outgoing(seq) {
        Some(outgoing) => outgoing.accepted_len() + 1,
        None => unreachable!(),
    }
}

// Whether a payload may go on a sequence under a number.
fn is_under(seq: u32, number: u64, next: Option<Next>) -> bool
    ensures { result ≡ is_under seq number next }
{
    match next {
        Some(next) => next.seq == seq && next.number == number,
        None => true,
    }
}

// A sequence to an address is asked for.
fn begin<D: Disk>(
    alloc: Global,
    node: &mut Node,
    disk: &mut D,
    now: u64,
    to: Uri,
    next: Option<Next>,
    payload: &Blob,
) -> Result<Said, End>
    requires up { IsUp D.tells (place_of (D.told disk.old) node.old) }
    requires first { IsFirstTo node.old.stored.records to None }
    ensures tells { (steps : List Step) × MakesAll D.tells (place_of (D.told disk.old) node.old)
        (place_of (D.told disk.new) node.new) steps
        × Tells now node.old.stored (Ok (Ask.Offers to next payload.now)) steps result }
    ensures up { OnOk result (IsUp D.tells (place_of (D.told disk.new) node.new)) }
{
    let made = create(node, disk, to);
    said_made(alloc, made)
}

// What is said of a payload.
fn said_sent(alloc: Global, seq: u32, sent: Result<Sent, End>) -> Result<Said, End>
    ensures ok { IfOk sent (λ s.
        (result ≡ said_of (accepted_line seq s.number) (Ok s.outs)) ⊎ (result ≡ Err End.Memory)) }
    ensures err { IfErr sent (λ e. (result ≡ said_failed e) ⊎ (result ≡ Err End.Memory)) }
    ensures lasts { OnOk result (is_outlived sent ≡ true) }
{
    match sent {
        Ok(sent) => Ok(Said {
            text: accepted_text(alloc, seq, sent.number)?,
            outs: sent.outs,
            is_stop: false,
        }),
        Err(end) => failed(alloc, end),
    }
}

// What is said of a sequence that is asked for.
fn said_made(alloc: Global, made: Result<Made, End>) -> Result<Said, End>
    ensures ok { IfOk made (λ m. (result ≡ said_of (opening_line m.seq) (Ok m.outs)) ⊎ (result ≡ Err End.Memory)) }
    ensures err { IfErr made (λ e. (result ≡ said_failed e) ⊎ (result ≡ Err End.Memory)) }
    ensures lasts { OnOk result (is_outlived made ≡ true) }
{
    match made {
        Ok(made) => Ok(Said {
            text: opening_text(alloc, made.seq)?,
            outs: made.outs,
            is_stop: false,
        }),
        Err(end) => failed(alloc, end),
    }
}

// What is said of a call that the node refused; another end is that of the service.
fn failed(alloc: Global, end: End) -> Result<Said, End>
    ensures is { (result ≡ said_failed end) ⊎ (result ≡ Err End.Memory) }
    ensures lasts { OnOk result (is_refusal end ≡ true) }
{
    if is_refusal(end) {
        return Ok(text_only(alloc, end.line())?);
    }
    Err(end)
}

// Nothing is accepted, since the sequence isn't open.
fn wait(alloc: Global, seq: u32) -> Result<Said, End>
    ensures { (result ≡ Ok (only (opening_line seq))) ⊎ (result ≡ Err End.Memory) }
{
    let text = opening_text(alloc, seq)?;
    Ok(text_said(alloc, text))
}

// Nothing is accepted, since another number comes next.
fn pass(alloc: Global, seq: u32, number: u64) -> Result<Said, End>
    ensures { (result ≡ Ok (only (next_line seq number))) ⊎ (result ≡ Err End.Memory) }
{
    let text = next_text(alloc, seq, number)?;
    Ok(text_said(alloc, text))
}

// A text, and no more.
fn text_said(alloc: Global, text: Blob) -> Said
    ensures { result ≡ only text }
{
    Said {
        text,
        outs: Outs::new(alloc),
        is_stop: false,
    }
}

// The line of a payload that was accepted.
fn accepted_text(alloc: Global, seq: u32, number: u64) -> Result<Blob, Memory>
    ensures { IfOk result (λ text. text ≡ accepted_line seq number) }
{
    let mut text = Blob::from_slice(alloc, b"accepted ")?;
    push_decimal(&mut text, u64::from(seq))?;
    text.push_all(b" ")?;
    push_decimal(&mut text, number)?;
    text.push_all(b"\n")?;
    Ok(text)
}

// The line of a sequence that is asked for.
fn opening_text(alloc: Global, seq: u32) -> Result<Blob, Memory>
    ensures { IfOk result (λ text. text ≡ opening_line seq) }
{
    let mut text = Blob::from_slice(alloc, b"opening ")?;
    push_decimal(&mut text, u64::from(seq))?;
    text.push_all(b"\n")?;
    Ok(text)
}

// The line of the number that comes next on a sequence.
fn next_text(alloc: Global, seq: u32, number: u64) -> Result<Blob, Memory>
    ensures { IfOk result (λ text. text ≡ next_line seq number) }
{
    let mut text = Blob::from_slice(alloc, b"next ")?;
    push_decimal(&mut text, u64::from(seq))?;
    text.push_all(b" ")?;
    push_decimal(&mut text, number)?;
    text.push_all(b"\n")?;
    Ok(text)
}

// The line of items that were consumed.
fn consumed_text(alloc: Global, seq: u32, upto: u64) -> Result<Blob, Memory>
    ensures { IfOk result (λ text. text ≡ consumed_line seq upto) }
{
    let mut text = Blob::from_slice(alloc, b"consumed ")?;
    push_decimal(&mut text, u64::from(seq))?;
    text.push_all(b" ")?;
    push_decimal(&mut text, upto)?;
    text.push_all(b"\n")?;
    Ok(text)
}

// The line of a sequence that is closed.
fn closed_text(alloc: Global, seq: u32) -> Result<Blob, Memory>
    ensures { IfOk result (λ text. text ≡ closed_line seq) }
{
    let mut text = Blob::from_slice(alloc, b"closed ")?;
    push_decimal(&mut text, u64::from(seq))?;
    text.push_all(b"\n")?;
    Ok(text)
}

// The line of a sequence that is ended.
fn ended_text(alloc: Global, seq: u32) -> Result<Blob, Memory>
    ensures { IfOk result (λ text. text ≡ ended_line seq) }
{
    let mut text = Blob::from_slice(alloc, b"ended ")?;
    push_decimal(&mut text, u64::from(seq))?;
    text.push_all(b"\n")?;
    Ok(text)
}

// The line of an address that is asked for what waits there.
fn polled_text(alloc: Global) -> Result<Blob, Memory>
    ensures { IfOk result (λ text. text ≡ polled_line) }
{
    Blob::from_slice(alloc, b"polled\n")
}
