//! The command `send`.
ghost use Rattle.std.specs.Prelude.{◌≡◌, ◌<◌, List, IfErr, IfOk, OnOk, false, true};
ghost use Rattle.rm_base.specs.Count.{Rose};
ghost use Rattle.rm_base.specs.Limits.{payload_bytes};
ghost use Rattle.rm_base.specs.declared.message.Behaviour.TheVariants.{FollowingFirstGap};
ghost use Rattle.rm_serve.specs.Steps.{IsUp, MakesAll, Step, place_of};
ghost use Rattle.rm_host.specs.Ends.{HasReason, Took, faults_of, is_of_call, is_outer};
ghost use Rattle.rm_host.specs.HostSteps.{Commands, StandsAt};
ghost use Rattle.rm_host.specs.SendSteps.{Begins, Reached, SendsIfOpen, SendsOn, SendsRead, SendsTo};
ghost use Rattle.rm_host.specs.Sequences.{IsFirstTo, goes_to, is_acked, is_open, is_open_phase, is_usable};
ghost use Rattle.rm_host.specs.Sequences.{is_usable_phase, may_carry};
ghost use Rattle.rm_host.specs.Texts.{acked_words, sent_line};
ghost use Rattle.node_tables.specs.Peers.{peer};
ghost use Rattle.node_tables.specs.Reads.{outgoing_in};

use crate::calls::{accept_payload, create, mount, post, post_all, tick};
use crate::end::End;
use crate::host::Host;
use crate::laws::a_command_leaves_its_records;
use http_endpoint::Media;
use http_endpoint::link::Link;
use node_tables::{Peer, Tables};
use rm_base::limits::PAYLOAD_BYTES;
use rm_base::{Blob, Clock, Memory, ReadError, Source, Uri, push_decimal, read_up_to};
use rm_disk::{Disk, ReadDisk};
use rm_node::{Node, Outs};
use rm_sides::source::OutPhase;
use std::alloc::Global;

/// Reads a payload, and sends it to an address: on the first sequence to it that is open or asked for, or else on a new
/// one. Where a packet found no connection that is told when all else is done.
/// - `does`: the bytes go on the first sequence to the address that is open or asked for, behind a tick, or on a new
///   one whose answers come back on the connection; what this hands out is posted before the message is sent, and what
///   the message hands out after it. Where a packet of the first found no connection it sends only on a sequence that
///   is open. It prints the sequence, the number that the payload got, and `yes` exactly where that number is
///   acknowledged at the end.
pub fn send<D: ReadDisk, L: Link, C: Clock, S: Source>(
    alloc: Global,
    host: &mut Host<D, L, C>,
    input: &mut S,
    to: Uri,
) -> Result<Blob, End>
    ensures does { SendsRead D.tells (D.told host.old.disk) (D.told host.new.disk) (L.told host.old.link)
        (L.told host.new.link) to (C.next host.old.clock) (S.told input.old).left result }
    ensures took { Took payload_bytes (S.told input.old) (S.told input.new) result }
    ensures reason { HasReason (faults_of D.told L.told host.old) (faults_of D.told L.told host.new) result }
{
    match read_up_to(alloc, input, PAYLOAD_BYTES) {
        Ok(payload) => send_payload(alloc, host, to, payload),
        Err(ReadError::Failed) => Err(End::ReadFault),
        Err(ReadError::TooLong) => Err(End::TooLong),
        Err(ReadError::Memory) => Err(End::Memory),
    }
}

// Sends a payload to an address.
fn send_payload<D: ReadDisk, L: Link, C: Clock>(
    alloc: Global,
    host: &mut Host<D, L, C>,
    to: Uri,
    payload: Blob,
) -> Result<Blob, End>
    ensures does { Commands D.tells (D.told host.old.disk) (D.told host.new.disk) (L.told host.old.link)
        (L.told host.new.link) FollowingFirstGap
        (λ x z. SendsTo D.tells x z to payload (C.next host.old.clock) (L.told host.old.link)
        (L.told host.new.link)) result }
    ensures reason { HasReason (faults_of D.told L.told host.old) (faults_of D.told L.told host.new) result }
    ensures inner { is_outer result ≡ false }
{
    a_command_leaves_its_records();
    let mut node = mount(alloc, host)?;
    let (seq, missed) = reach(alloc, host, &mut node, to)?;
    if missed == 0 {
        return send_on(alloc, host, &mut node, seq, payload);
    }
    send_if_open(alloc, host, &mut node, seq, payload)?;
    Err(End::LinkFault)
}

// Sends a payload on a sequence, where that is open.
fn send_if_open<D: Disk, L: Link, C: Clock>(
    alloc: Global,
    host: &mut Host<D, L, C>,
    node: &mut Node,
    seq: u32,
    payload: Blob,
) -> Result<(), End>
    requires up { IsUp D.tells (place_of (D.told host.old.disk) node.old) }
    ensures sends { (steps : List Step) × MakesAll D.tells (place_of (D.told host.old.disk) node.old)
        (place_of (D.told host.new.disk) node.new) steps
        × SendsIfOpen (place_of (D.told host.old.disk) node.old)
        (place_of (D.told host.new.disk) node.new) seq payload (C.next host.old.clock) (L.told host.old.link)
        (L.told host.new.link) steps result }
    ensures reason { HasReason (faults_of D.told L.told host.old) (faults_of D.told L.told host.new) result }
    ensures inner { is_outer result ≡ false }
{
    if !is_open(node.tables(), seq) {
        return Ok(());
    }
    send_on(alloc, host, node, seq, payload)?;
    Ok(())
}

// Sends a payload on a sequence.
fn send_on<D: Disk, L: Link, C: Clock>(
    alloc: Global,
    host: &mut Host<D, L, C>,
    node: &mut Node,
    seq: u32,
    payload: Blob,
) -> Result<Blob, End>
    requires up { IsUp D.tells (place_of (D.told host.old.disk) node.old) }
    ensures sends { (steps : List Step) × MakesAll D.tells (place_of (D.told host.old.disk) node.old)
        (place_of (D.told host.new.disk) node.new) steps
        × SendsOn (place_of (D.told host.old.disk) node.old)
        (place_of (D.told host.new.disk) node.new) seq payload (C.next host.old.clock) (L.told host.old.link)
        (L.told host.new.link) steps result }
    ensures reason { HasReason (faults_of D.told L.told host.old) (faults_of D.told L.told host.new) result }
    ensures inner { is_outer result ≡ false }
{
    let sent = accept_payload(host, node, seq, payload)?;
    let now = host.clock.now();
    post_all(alloc, host, node, now, sent.outs)?;
    let acked = is_acked(node.tables(), seq, sent.number);
    Ok(sent_text(alloc, seq, sent.number, acked)?)
}

// The sequence on which messages to an address go, after its first posts, and how many of these found no connection.
fn reach<D: Disk, L: Link, C: Clock>(
    alloc: Global,
    host: &mut Host<D, L, C>,
    node: &mut Node,
    to: Uri,
) -> Result<(u32, u32), End>
    requires up { IsUp D.tells (place_of (D.told host.old.disk) node.old) }
    ensures up { OnOk result (IsUp D.tells (place_of (D.told host.new.disk) node.new)) }
    ensures undialled { IfOk result (λ r. 0 < r.1
        → Rose (L.told host.old.link).faults (L.told host.new.link).faults) }
    ensures reached { (steps : List Step) × MakesAll D.tells (place_of (D.told host.old.disk) node.old)
        (place_of (D.told host.new.disk) node.new) steps
        × Reached node.old.stored.records to (C.next host.old.clock) (L.told host.old.link)
        (L.told host.new.link) steps result }
    ensures stands { StandsAt (C.next host.old.clock) (C.next host.new.clock) }
    ensures reason { HasReason (faults_of D.told L.told host.old) (faults_of D.told L.told host.new) result }
    ensures inner { is_outer result ≡ false }
{
    let (seq, outs) = begin(host, node, to)?;
    let now = host.clock.now();
    let posted = post(alloc, host, node, now, outs, Media::Soap12)?;
    Ok((seq, posted.undialled))
}

// The sequence on which messages to an address go, and what is to be posted first.
fn begin<D: Disk, L: Link, C: Clock>(
    host: &mut Host<D, L, C>,
    node: &mut Node,
    to: Uri,
) -> Result<(u32, Outs), End>
    requires up { IsUp D.tells (place_of (D.told host.old.disk) node.old) }
    ensures up { OnOk result (IsUp D.tells (place_of (D.told host.new.disk) node.new)) }
    ensures begins { Begins D.tells (place_of (D.told host.old.disk) node.old)
        (place_of (D.told host.new.disk) node.new) to (C.next host.old.clock) (L.told host.old.link)
        (L.told host.new.link) result }
    ensures of_call { IfErr result (λ e. is_of_call e ≡ true) }
    ensures stands { StandsAt (C.next host.old.clock) (C.next host.new.clock) }
    ensures reason { HasReason (faults_of D.told L.told host.old) (faults_of D.told L.told host.new) result }
    ensures inner { is_outer result ≡ false }
{
    match sequence_to(node.tables(), &to) {
        Some(seq) => {
            let now = host.clock.now();
            Ok((seq, tick(host, node, now)?))
        }
        None => {
            let made = create(host, node, to)?;
            Ok((made.seq, made.outs))
        }
    }
}

/// The first sequence to an address that is open or asked for.
pub fn sequence_to(tables: &Tables, to: &Uri) -> Option<u32>
    ensures { IsFirstTo tables.now.records to.now result }
{
    for before in 0..tables.len() {
        if may_carry(tables, before + 1, to) {
            return Some(before + 1);
        }
    }
    None
}

// Whether messages to an address may go on a sequence.
fn may_carry(tables: &Tables, seq: u32, to: &Uri) -> bool
    ensures { result ≡ may_carry tables.now.records to.now seq }
{
    is_usable(tables, seq) && goes_to(tables, seq, to)
}

fn is_usable(tables: &Tables, seq: u32) -> bool
    ensures { result ≡ is_usable (outgoing_in tables.now.records seq) }
{
    match tables.outgoing(seq) {
        Some(outgoing) => is_usable_phase(outgoing.phase()),
        None => false,
    }
}

fn is_usable_phase(phase: OutPhase) -> bool
    ensures { result ≡ is_usable_phase phase }
{
    match phase {
        OutPhase::Creating => true,
        OutPhase::Open => true,
        OutPhase::Closing => false,
        OutPhase::Closed => false,
        OutPhase::Ending => false,
        OutPhase::Ended => false,
        OutPhase::Failed => false,
    }
}

fn goes_to(tables: &Tables, seq: u32, to: &Uri) -> bool
    ensures { result ≡ goes_to (peer tables.now.records seq) to.now }
{
    match tables.peer(seq) {
        Some(Peer::Address(address)) => address.as_slice() == to.as_slice(),
        Some(Peer::Reference(epr)) => epr.address.as_slice() == to.as_slice(),
        None => false,
    }
}

/// Whether a sequence sends, and is open.
pub fn is_open(tables: &Tables, seq: u32) -> bool
    ensures { result ≡ is_open (outgoing_in tables.now.records seq) }
{
    match tables.outgoing(seq) {
        Some(outgoing) => is_open_phase(outgoing.phase()),
        None => false,
    }
}

fn is_open_phase(phase: OutPhase) -> bool
    ensures { result ≡ is_open_phase phase }
{
    match phase {
        OutPhase::Open => true,
        OutPhase::Creating => false,
        OutPhase::Closing => false,
        OutPhase::Closed => false,
        OutPhase::Ending => false,
        OutPhase::Ended => false,
        OutPhase::Failed => false,
    }
}

fn is_acked(tables: &Tables, seq: u32, number: u64) -> bool
    ensures { result ≡ is_acked (outgoing_in tables.now.records seq) number }
{
    match tables.outgoing(seq) {
        Some(outgoing) => outgoing.acked().has(number),
        None => false,
    }
}

fn sent_text(alloc: Global, seq: u32, number: u64, acked: bool) -> Result<Blob, Memory>
    ensures { IfOk result (λ text. text ≡ sent_line seq number acked) }
{
    let mut text = Blob::from_slice(alloc, b"accepted ")?;
    push_decimal(&mut text, u64::from(seq))?;
    text.push_all(b" ")?;
    push_decimal(&mut text, number)?;
    text.push_all(acked_words(acked))?;
    Ok(text)
}

fn acked_words(acked: bool) -> &'static [u8]
    ensures { result.now ≡ acked_words acked }
{
    if acked {
        b" acked yes\n"
    } else {
        b" acked no\n"
    }
}
