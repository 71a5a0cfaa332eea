//! The words of a command.
ghost use Rattle.std.specs.Prelude.{
  ◌≡◌,
  ◌≢◌,
  ◌∷◌,
  ℕ,
  [],
  List,
  MatchOption,
  MatchResult,
  None,
  ◌⊎◌,
  ◌↔◌,
  IsTrue,
  true,
  codes,
};
ghost use Rattle.rm_script.specs.Script.{IsNumber};
ghost use Rattle.rm_host.specs.Words.{
  IsAddress,
  IsReachable,
  IsSequence,
  IsService,
  Reads,
  ReadsAddress,
  behaviour_of,
  grant_word,
  is_node_name,
  is_of_node,
  serve_word,
};
ghost use Rattle.rm_host.specs.declared.words.Grant.{Grant as AGrant};
ghost use Rattle.rm_host.specs.declared.words.Service.{Service as AService};
ghost use Rattle.http_endpoint.specs.Targets.{target_of};

use crate::end::End;
use http_endpoint::{Media, read_target};
use rm_base::limits::{MAX_NUMBER, MOST_SEQUENCES};
use rm_base::{Behaviour, Blob, TextError, Uri};
use rm_script::number_of;
use std::alloc::Global;
use std::str;

/// What a node that serves announces: that a closed sequence drops what follows its first gap, or all of it, or that it
/// releases each message as it comes.
#[derive(Clone, Copy, Debug)]
pub enum Grant {
    DropsFollowing,
    DropsEntire,
    Loose,
}

impl Grant {
    /// What is announced for the sequences that are granted. It is NoDiscard where messages are released as they come.
    pub fn behaviour(self) -> Behaviour
        ensures is { result ≡ behaviour_of self }
    {
        match self {
            Grant::DropsFollowing => Behaviour::FollowingFirstGap,
            Grant::DropsEntire => Behaviour::EntireSequence,
            Grant::Loose => Behaviour::NoDiscard,
        }
    }
}

/// What a node serves: so many connections at a port, and what it announces there.
#[derive(Clone, Copy, Debug)]
pub struct Service {
    pub port: u16,
    pub count: u16,
    pub grant: Grant,
}

/// What the words ask for.
#[derive(Debug, Drop)]
pub enum Command {
    Make { number: u64, address: Uri },
    Serve { media: Media, service: Service },
    Send { to: Uri },
    Push,
    Close { seq: u32 },
    Finish { seq: u32 },
    Inbox { seq: u32 },
    Compact,
    Consume { seq: u32, upto: u64 },
    Import,
}

/// Whether the words are those of a node's command, by the first of them.
pub fn is_of_node(words: &[Blob]) -> bool
    ensures { result ≡ is_of_node words.now }
{
    match words.split_first() {
        Some((name, _)) => is_node_name(name.as_slice()),
        None => false,
    }
}

fn is_node_name(name: &[u8]) -> bool
    ensures { result ≡ is_node_name name.now }
{
    name == b"make".as_slice()
        || name == b"serve".as_slice()
        || name == b"serve11".as_slice()
        || name == b"send".as_slice()
        || name == b"push".as_slice()
        || name == b"close".as_slice()
        || name == b"end".as_slice()
        || name == b"inbox".as_slice()
        || name == b"compact".as_slice()
        || name == b"consume".as_slice()
        || name == b"import".as_slice()
}

/// The command that the words ask for. An address is refused exactly where it is none at all or no URL of http with a
/// host, and all else of the words is a command. `serve` is read as serving in SOAP 1.2, and `serve11` in SOAP 1.1.
pub fn command_of(alloc: Global, words: &[Blob]) -> Result<Command, End>
    ensures { Reads words.now result }
{
    match words.split_first() {
        Some((name, rest)) => named(alloc, name.as_slice(), rest),
        None => Err(End::Usage),
    }
}

// The command with this name, and these words behind it.
fn named(alloc: Global, name: &[u8], words: &[Blob]) -> Result<Command, End>
    ensures { Reads (name.now ∷ words.now) result }
{
    if name == b"make".as_slice() {
        return make_of(alloc, words);
    }
    if name == b"serve".as_slice() {
        return serve_of(words, Media::Soap12);
    }
    if name == b"serve11".as_slice() {
        return serve_of(words, Media::Soap11);
    }
    if name == b"send".as_slice() {
        return send_of(alloc, words);
    }
    if name == b"push".as_slice() {
        return push_of(words);
    }
    if name == b"close".as_slice() {
        return close_of(words);
    }
    if name == b"end".as_slice() {
        return end_of(words);
    }
    if name == b"inbox".as_slice() {
        return inbox_of(words);
    }
    if name == b"compact".as_slice() {
        return compact_of(words);
    }
    if name == b"consume".as_slice() {
        return consume_of(words);
    }
    if name == b"import".as_slice() {
        return import_of(words);
    }
    Err(End::Usage)
}

fn make_of(alloc: Global, words: &[Blob]) -> Result<Command, End>
    ensures { Reads (codes "make" ∷ words.now) result }
{
    let [number, address] = words else {
        return Err(End::Usage);
    };
    let Some(number) = number_in(number, 1, (1 << 60) - 1) else {
        return Err(End::Usage);
    };
    match address_of(alloc, address) {
        Ok(address) => Ok(Command::Make { number, address }),
        Err(end) => Err(end),
    }
}

// To serve peers that speak this version of SOAP.
fn serve_of(words: &[Blob], media: Media) -> Result<Command, End>
    ensures { Reads (serve_word media ∷ words.now) result }
{
    match service_of(words) {
        Some(service) => Ok(Command::Serve { media, service }),
        None => Err(End::Usage),
    }
}

fn send_of(alloc: Global, words: &[Blob]) -> Result<Command, End>
    ensures { Reads (codes "send" ∷ words.now) result }
{
    match words {
        [to] => match address_of(alloc, to) {
            Ok(to) => Ok(Command::Send { to }),
            Err(end) => Err(end),
        },
        _ => Err(End::Usage),
    }
}

fn push_of(words: &[Blob]) -> Result<Command, End>
    ensures { Reads (codes "push" ∷ words.now) result }
{
    match words {
        [] => Ok(Command::Push),
        _ => Err(End::Usage),
    }
}

fn close_of(words: &[Blob]) -> Result<Command, End>
    ensures { Reads (codes "close" ∷ words.now) result }
{
    match sequence_of(words) {
        Some(seq) => Ok(Command::Close { seq }),
        None => Err(End::Usage),
    }
}

fn end_of(words: &[Blob]) -> Result<Command, End>
    ensures { Reads (codes "end" ∷ words.now) result }
{
    match sequence_of(words) {
        Some(seq) => Ok(Command::Finish { seq }),
        None => Err(End::Usage),
    }
}

fn inbox_of(words: &[Blob]) -> Result<Command, End>
    ensures { Reads (codes "inbox" ∷ words.now) result }
{
    match sequence_of(words) {
        Some(seq) => Ok(Command::Inbox { seq }),
        None => Err(End::Usage),
    }
}

fn compact_of(words: &[Blob]) -> Result<Command, End>
    ensures { Reads (codes "compact" ∷ words.now) result }
{
    match words {
        [] => Ok(Command::Compact),
        _ => Err(End::Usage),
    }
}

fn consume_of(words: &[Blob]) -> Result<Command, End>
    ensures { Reads (codes "consume" ∷ words.now) result }
{
    let [seq, upto] = words else {
        return Err(End::Usage);
    };
    let Some(seq) = number_in(seq, 1, u64::from(MOST_SEQUENCES)) else {
        return Err(End::Usage);
    };
    match number_in(upto, 1, MAX_NUMBER) {
        Some(upto) => Ok(Command::Consume {
            seq: seq as u32,
            upto,
        }),
        None => Err(End::Usage),
    }
}

fn import_of(words: &[Blob]) -> Result<Command, End>
    ensures { Reads (codes "import" ∷ words.now) result }
{
    match words {
        [] => Ok(Command::Import),
        _ => Err(End::Usage),
    }
}

// What is served, where the words say that.
fn service_of(words: &[Blob]) -> Option<Service>
    ensures { MatchOption result ((service : AService) → ¬ (IsService words.now service)) (IsService words.now) }
{
    let [port, count, grant] = words else {
        return None;
    };
    let Some(port) = number_in(port, 1, 65535) else {
        return None;
    };
    let Some(count) = number_in(count, 1, 65535) else {
        return None;
    };
    match grant_of(grant) {
        Some(grant) => Some(Service {
            port: port as u16,
            count: count as u16,
            grant,
        }),
        None => None,
    }
}

// The number of a sequence, where that is the only word.
fn sequence_of(words: &[Blob]) -> Option<u32>
    ensures { MatchOption result ((seq : ℕ) → ¬ (IsSequence words.now seq)) (IsSequence words.now) }
{
    match words {
        [seq] => match number_in(seq, 1, u64::from(MOST_SEQUENCES)) {
            Some(seq) => Some(seq as u32),
            None => None,
        },
        _ => None,
    }
}

// What a word announces.
fn grant_of(word: &Blob) -> Option<Grant>
    ensures { MatchOption result ((grant : AGrant) → word.now ≢ grant_word grant)
        (λ grant. word.now ≡ grant_word grant) }
{
    if word.as_slice() == b"dfg".as_slice() {
        return Some(Grant::DropsFollowing);
    }
    if word.as_slice() == b"des".as_slice() {
        return Some(Grant::DropsEntire);
    }
    if word.as_slice() == b"loose".as_slice() {
        return Some(Grant::Loose);
    }
    None
}

// The number in a word, from low to high.
fn number_in(word: &Blob, low: u64, high: u64) -> Option<u64>
    ensures { MatchOption result ((n : ℕ) → ¬ (IsNumber low high word.now n)) (IsNumber low high word.now) }
{
    let number = number_of(word.as_slice())?;
    if number < low || number > high {
        return None;
    }
    Some(number)
}

/// The address that a word is, where a packet can be posted to it.
pub fn address_of(alloc: Global, word: &Blob) -> Result<Uri, End>
    ensures { ReadsAddress word.now result }
{
    if !is_address(word.as_slice()) {
        return Err(End::Usage);
    }
    match Uri::from_slice(alloc, word.as_slice()) {
        Ok(uri) => reachable(alloc, uri),
        Err(TextError::Memory) => Err(End::Memory),
        Err(_) => Err(End::BadAddress),
    }
}

// Whether a word may stand for an address.
fn is_address(word: &[u8]) -> bool
    ensures { IsTrue result ↔ IsAddress word.now }
{
    if let [b'-', ..] = word {
        return false;
    }
    match str::from_utf8(word) {
        Ok(_) => true,
        Err(_) => false,
    }
}

// The address, where a packet can be posted to it.
fn reachable(alloc: Global, address: Uri) -> Result<Uri, End>
    ensures { MatchResult result (λ uri. (uri ≡ address) × (target_of address ≢ None))
        (λ e. (e ≡ End.Memory) ⊎ ((e ≡ End.BadAddress) × (target_of address ≡ None))) }
{
    match read_target(alloc, &address)? {
        Some(_) => Ok(address),
        None => Err(End::BadAddress),
    }
}
