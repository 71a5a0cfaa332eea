//! Whom a sequence is with, and what it was asked for or granted with.
ghost use Rattle.std.specs.Prelude.{◌≡◌, ◌+◌, ◌<◌, ◌^◌, if◌then◌else◌, Some, None, IfSome};
ghost use Rattle.std.specs.Option.{option_map};
ghost use Rattle.record_batch.specs.Sequences.Find.{is_offered, is_taken};
ghost use Rattle.record_batch.specs.Sequences.Makers.{maker};
ghost use Rattle.node_tables.specs.Peers.{asked, grant, peer, peer_seen};
ghost use Rattle.node_tables.specs.Reads.{maker_seen};

use crate::maker::Maker;
use crate::tables::Tables;
use record_batch::Via;
use rm_base::{Lapse, Uri};
use wsa_headers::Epr;

/// Where messages to the peer of a sequence go: a node knows the address alone of one that it asked for a sequence.
#[derive(Clone, Copy)]
pub enum Peer<'a> {
    Address(&'a Uri),
    Reference(&'a Epr),
}

/// What an outgoing sequence was asked for with: CreateSequence of WS-ReliableMessaging 1.2, section 3.4. `offered` is
/// the incoming sequence of its Offer.
#[derive(Clone, Copy)]
pub struct Asked {
    pub via: Via,
    pub lapse: Lapse,
    pub offered: Option<u32>,
}

/// What an incoming sequence was granted with: CreateSequenceResponse of WS-ReliableMessaging 1.2, section 3.4. `taken`
/// is the outgoing sequence of the Offer that was accepted along with it.
#[derive(Clone, Copy)]
pub struct Grant {
    pub lapse: Lapse,
    pub taken: Option<u32>,
}

impl Tables {
    /// Where messages to the peer of the sequence with a number go: the To of one that was asked for, the AcksTo of an
    /// incoming one once it is known, the Endpoint of an offer that was taken.
    pub fn peer(&self, seq: u32) -> Option<Peer<'_>>
        ensures { option_map peer_seen result ≡ peer self.now.records seq }
    {
        match self.maker(seq)? {
            Maker::Asked { to, .. } => Some(Peer::Address(to)),
            Maker::Offered { .. } => self
                .accepted_by(seq.saturating_sub(1))
                .map(|acks_to| Peer::Reference(acks_to)),
            Maker::Granted { acks_to, .. } => Some(Peer::Reference(acks_to)),
            Maker::Taken { endpoint, .. } => Some(Peer::Reference(endpoint)),
        }
    }

    /// What the outgoing sequence with a number was asked for with.
    pub fn asked(&self, seq: u32) -> Option<Asked>
        ensures { result ≡ asked self.now.records seq }
    {
        let Some(Maker::Asked { via, lapse, .. }) = self.maker(seq) else {
            return None;
        };
        let offered = self.offered_behind(seq);
        Some(Asked {
            via,
            lapse,
            offered,
        })
    }

    /// What the incoming sequence with a number was granted with.
    pub fn grant(&self, seq: u32) -> Option<Grant>
        ensures { result ≡ grant self.now.records seq }
    {
        let Some(Maker::Granted { lapse, .. }) = self.maker(seq) else {
            return None;
        };
        let taken = self.taken_behind(seq);
        Some(Grant { lapse, taken })
    }

    /// The sequence behind the one with a number, where it was offered.
    fn offered_behind(&self, seq: u32) -> Option<u32>
        ensures { result ≡ (if is_offered (maker self.now.records (seq + 1)) then Some (seq + 1) else None) }
    {
        match self.maker_behind(seq) {
            Some(Maker::Offered { .. }) => Some(seq + 1),
            _ => None,
        }
    }

    /// The sequence behind the one with a number, where it was taken from an offer.
    fn taken_behind(&self, seq: u32) -> Option<u32>
        ensures { result ≡ (if is_taken (maker self.now.records (seq + 1)) then Some (seq + 1) else None) }
    {
        match self.maker_behind(seq) {
            Some(Maker::Taken { .. }) => Some(seq + 1),
            _ => None,
        }
    }

    /// How the sequence behind the one with a number came to be.
    fn maker_behind(&self, seq: u32) -> Option<Maker<'_>>
        ensures value { option_map maker_seen result ≡ maker self.now.records (seq + 1) }
        ensures fits { IfSome result (λ _. seq + 1 < 2 ^ 32) }
    {
        if seq >= self.len() {
            return None;
        }
        self.maker(seq + 1)
    }
}
