//! The tables of a node with records ahead, which are not written yet.
ghost use Rattle.std.specs.Prelude.{◌≡◌, ◌+◌, ◌^◌, ◌<◌, ◌++◌, ◌∷◌, [], true, length, map, min, IfOk, OnOk, OnErr};
ghost use Rattle.std.specs.Option.{option_copied, option_map};
ghost use Rattle.rm_sides.specs.Ranges.Changes.{covers_all, united};
ghost use Rattle.rm_base.specs.NumberSet.{has_number};
ghost use Rattle.record_batch.specs.Fact.{fact_of};
ghost use Rattle.rm_sides.specs.Destination.Messages.{ranges_onto};
ghost use Rattle.record_batch.specs.Sequences.Destinations.{deadline_of, front, has_end, held, is_ended, is_over};
ghost use Rattle.record_batch.specs.Sequences.Destinations.{is_stopped, received};
ghost use Rattle.record_batch.specs.Sequences.Find.{accepted_by, find_creating, find_grant, find_incoming};
ghost use Rattle.record_batch.specs.Sequences.Find.{find_outgoing};
ghost use Rattle.record_batch.specs.Sequences.Find.{is_creating, is_granted, is_incoming};
ghost use Rattle.record_batch.specs.Sequences.Fits.{all_fit};
ghost use Rattle.record_batch.specs.Sequences.Idents.{IsIssuedFor};
ghost use Rattle.record_batch.specs.Sequences.Makers.{counter, created_from, ident_in, maker, makers, number};
ghost use Rattle.record_batch.specs.Sequences.Sources.{accepted_count, acked, out_ident, phase};
ghost use Rattle.record_batch.specs.Sequences.Words.{Text};
ghost use Rattle.node_tables.specs.Reads.{address_in, is_asking, maker_seen, passes};
ghost use Rattle.tables_ahead.specs.Known.{all_records, find_ahead, may_go_ahead, opened};

use crate::batch::{
    accepted_in, drawn_in, ends_in, find_accept, find_ident, find_named, has_in, maker_in,
    phase_in, stops_in,
};
use crate::numbers::{acks_in, has_all, insert_received, unite_acked};
use crate::sides;
use crate::sought::Sought;
use node_tables::{Maker, Tables};
use record_batch::Record;
use record_batch::sequences::{issued_counter, made_by};
use rm_base::{Ident, Memory, Uri};
use rm_sides::destination::is_past;
use rm_sides::ranges::{Range, RangeSet};
use rm_sides::source::OutPhase;
use std::alloc::Global;
use std::marker::Model;
use wsa_headers::Epr;

/// The tables of a node with records ahead, which are not written yet.
#[derive(Drop)]
pub struct Known<'a> {
    alloc: Global,
    tables: &'a Tables,
    batch: Vec<Record>,
    len: u32,
    sought: Sought,
}

impl<'a> Model for Known<'a> {
    ghost use Rattle.std.specs.Prelude.{map};
    ghost use Rattle.std.specs.Coded.{codes};
    ghost use Rattle.soap_document.specs.Profile.TreeCode.{tree_code};
    ghost use Rattle.record_batch.specs.Fact.{fact_of};
    ghost use Rattle.tables_ahead.specs.Known.{KnownRecords, IsAhead};

    ghost Value = { KnownRecords };

    ghost coded = { Prim.hlevel (codes, tree_code) };

    ghost view = { λ a. record { records = a.tables.now.records; delta = map fact_of a.batch.items } };

    ghost invariant = { λ a. IsAhead a.tables.now.records (map fact_of a.batch.items) a.len a.sought.drawn
        a.sought.seq };
}

impl<'a> Known<'a> {
    /// Nothing is ahead. It takes no memory.
    pub fn new(alloc: Global, tables: &'a Tables) -> Self
        ensures { result ≡ record { records = tables.now.records; delta = [] } }
    {
        Known {
            alloc,
            tables,
            batch: Vec::new(alloc),
            len: tables.len(),
            sought: Sought::nothing(),
        }
    }

    /// Nothing is ahead. The incoming sequence with an identifier, where one is given, is sought at once, so that
    /// `find_incoming` needn't seek it again. It takes no memory.
    pub fn seeking(alloc: Global, tables: &'a Tables, ident: Option<&Ident>) -> Self
        ensures { result ≡ record { records = tables.now.records; delta = [] } }
    {
        Known {
            alloc,
            tables,
            batch: Vec::new(alloc),
            len: tables.len(),
            sought: Sought::new(tables, ident),
        }
    }

    /// Puts one record more ahead. Made doesn't go ahead, nor a record that leaves no place for the sequences that it
    /// makes.
    pub fn push(&mut self, given: Record) -> Result<(), Memory>
        requires { may_go_ahead (all_records self.old) (fact_of given) ≡ true }
        ensures records { self.new.records ≡ self.old.records }
        ensures ok { OnOk result (self.new.delta ≡ self.old.delta ++ fact_of given ∷ []) }
        ensures err { OnErr result (self.new.delta ≡ self.old.delta) }
    {
        self.batch.reserve(1)?;
        self.len += made_by(&given);
        self.batch.push_reserved(given);
        Ok(())
    }

    /// The records ahead.
    pub fn batch(&self) -> &[Record]
        ensures { map fact_of result.now ≡ self.now.delta }
    {
        self.batch.as_slice()
    }

    /// The records ahead, given up.
    pub fn into_batch(self) -> Vec<Record>
        ensures { map fact_of result.items ≡ self.entry.delta }
    {
        self.batch
    }

    /// The tables that the records are ahead of.
    pub fn tables(&self) -> &'a Tables
        ensures { result.now.records ≡ self.now.records }
    {
        self.tables
    }

    /// How many sequences there are.
    pub fn len(&self) -> u32
        ensures count { result ≡ length (makers (all_records self.now)) }
        ensures sound { all_fit [] self.now.records ≡ true }
    {
        self.len
    }

    /// How many numbers were drawn, or the greatest number of 64 bits.
    pub fn counter(&self) -> u64
        ensures { result ≡ min (counter (all_records self.now)) 18446744073709551615 }
    {
        drawn_in(self.batch.as_slice(), self.tables.counter())
    }

    /// The node's number, and 0 before it has one.
    pub fn number(&self) -> u64
        ensures value { result ≡ number (all_records self.now) }
        ensures bits { result < 2 ^ 60 }
    {
        let _batch = &self.batch;
        self.tables.number()
    }

    /// The node's address, once it has one.
    pub fn address(&self) -> Option<&Uri>
        ensures { option_copied result ≡ address_in (all_records self.now) }
    {
        let _batch = &self.batch;
        self.tables.address()
    }

    /// How the sequence with a number came to be.
    pub fn maker(&self, seq: u32) -> Option<Maker<'_>>
        ensures { option_map maker_seen result ≡ maker (all_records self.now) seq }
    {
        let known = self.tables.len();
        if seq <= known {
            return self.tables.maker(seq);
        }
        maker_in(self.batch.as_slice(), (seq - known - 1) as usize)
    }

    /// How the sequence behind the one with a number came to be.
    pub fn maker_behind(&self, seq: u32) -> Option<Maker<'_>>
        ensures { option_map maker_seen result ≡ maker (all_records self.now) (seq + 1) }
    {
        if seq >= self.len() {
            return None;
        }
        self.maker(seq + 1)
    }

    /// The outgoing sequence with an identifier.
    pub fn find_outgoing(&self, ident: &[u8]) -> Option<u32>
        ensures { result ≡ find_outgoing (all_records self.now) ident.now }
    {
        match self.tables.find_outgoing(ident) {
            Some(seq) => Some(seq),
            None => find_named(self.batch.as_slice(), self.tables.len(), ident),
        }
    }

    /// The incoming sequence with an identifier.
    pub fn find_incoming(&self, ident: &Ident) -> Option<u32>
        ensures { result ≡ find_incoming (all_records self.now) ident.now }
    {
        match self.sought.find_incoming(self.tables, ident) {
            Some(seq) => Some(seq),
            None => self.incoming_ahead(ident),
        }
    }

    /// The sequence that was granted for a CreateSequence with this MessageID.
    pub fn find_grant(&self, message_id: &Uri) -> Option<u32>
        ensures { result ≡ find_grant (all_records self.now) message_id.now }
    {
        match self.tables.find_grant(message_id) {
            Some(seq) => Some(seq),
            None => self.grant_ahead(message_id.as_slice()),
        }
    }

    /// The sequence in phase Creating that a CreateSequence with this MessageID asked for.
    pub fn find_creating(&self, message_id: &Uri) -> Option<u32>
        ensures { result ≡ find_creating (all_records self.now) message_id.now }
    {
        let drawn = issued_counter(self.number(), message_id.as_slice());
        for before in 0..self.len() {
            if self.is_creating(before + 1, drawn) {
                return Some(before + 1);
            }
        }
        None
    }

    /// The identifier of the outgoing sequence with a number.
    pub fn ident(&self, seq: u32) -> Option<&Ident>
        ensures { option_copied result ≡ out_ident (all_records self.now) seq }
    {
        match self.tables.ident(seq) {
            Some(ident) => Some(ident),
            None => find_ident(self.batch.as_slice(), self.tables.len(), seq),
        }
    }

    /// The AcksTo of the Accept that came for the offer that went out with the sequence with a number.
    pub fn accepted_by(&self, seq: u32) -> Option<&Epr>
        requires { all_fit self.now.records self.now.delta ≡ true }
        ensures { option_copied result ≡ accepted_by (all_records self.now) seq }
    {
        match find_accept(self.batch.as_slice(), seq) {
            Some(accept) => accept,
            None => self.tables.accepted_by(seq),
        }
    }

    /// How many messages were accepted for a sequence, with those that are gone.
    pub fn accepted_len(&self, seq: u32) -> u64
        ensures { result ≡ accepted_count (all_records self.now) seq }
    {
        let batch = self.batch.as_slice();
        sides::accepted_len(self.tables, seq) + accepted_in(batch, seq)
    }

    /// The phase of an outgoing sequence.
    pub fn phase(&self, seq: u32) -> OutPhase
        ensures { result ≡ phase (all_records self.now) seq }
    {
        phase_in(self.batch.as_slice(), seq, self.opened(seq))
    }

    /// Whether each of the ranges lies in what is acknowledged of a sequence.
    pub fn covers(&self, seq: u32, ranges: &[Range]) -> Result<bool, Memory>
        ensures { IfOk result (λ covered.
            covered ≡ covers_all (united [] (acked (all_records self.now) seq)) ranges.now) }
    {
        if acks_in(self.batch.as_slice(), seq) {
            let acked = self.acked(seq)?;
            return Ok(has_all(acked.ranges(), ranges));
        }
        Ok(sides::covers(self.tables, seq, ranges))
    }

    /// The numbers that are acknowledged of a sequence.
    pub fn acked(&self, seq: u32) -> Result<RangeSet, Memory>
        ensures { IfOk result (λ set. set.ranges ≡ united [] (acked (all_records self.now) seq)) }
    {
        let mut numbers = sides::acked(self.alloc, self.tables, seq)?;
        unite_acked(&mut numbers, self.batch.as_slice(), seq)?;
        Ok(numbers)
    }

    /// The numbers that were received of a sequence.
    pub fn received(&self, seq: u32) -> Result<RangeSet, Memory>
        requires { all_fit self.now.records self.now.delta ≡ true }
        ensures { IfOk result (λ set. set.ranges ≡ ranges_onto [] (held (all_records self.now) seq)) }
    {
        let mut numbers = sides::received(self.alloc, self.tables, seq)?;
        insert_received(&mut numbers, self.batch.as_slice(), seq)?;
        Ok(numbers)
    }

    /// Whether a number was received of a sequence.
    pub fn has(&self, seq: u32, number: u64) -> bool
        ensures { result ≡ has_number (held (all_records self.now) seq) number }
    {
        sides::has(self.tables, seq, number) || has_in(self.batch.as_slice(), seq, number)
    }

    /// The greatest m such that 1 to m were received of a sequence, where no message of it is ahead.
    pub fn front(&self, seq: u32) -> u64
        requires { received self.now.delta seq ≡ [] }
        ensures { result ≡ front (all_records self.now) seq }
    {
        let _batch = &self.batch;
        sides::front(self.tables, seq)
    }

    /// Whether an incoming sequence is no longer open at a moment.
    pub fn is_over(&self, seq: u32, now: u64) -> bool
        ensures { result ≡ is_over (all_records self.now) seq now }
    {
        self.is_stopped(seq) || is_past(self.deadline(seq), now)
    }

    /// Whether an incoming sequence has ended at a moment.
    pub fn is_ended(&self, seq: u32, now: u64) -> bool
        ensures { result ≡ is_ended (all_records self.now) seq now }
    {
        self.has_end(seq) || is_past(self.deadline(seq), now)
    }

    /// Whether a record closes or ends an incoming sequence.
    pub fn is_stopped(&self, seq: u32) -> bool
        ensures { result ≡ is_stopped (all_records self.now) seq }
    {
        sides::is_stopped(self.tables, seq) || stops_in(self.batch.as_slice(), seq)
    }

    /// Whether a record ends an incoming sequence.
    pub fn has_end(&self, seq: u32) -> bool
        ensures { result ≡ has_end (all_records self.now) seq }
    {
        sides::has_end(self.tables, seq) || ends_in(self.batch.as_slice(), seq)
    }

    /// The moment at which a sequence expires, in milliseconds since 1970 UTC.
    pub fn deadline(&self, seq: u32) -> Option<u64>
        ensures { result ≡ deadline_of (maker (all_records self.now) seq) }
    {
        match self.maker(seq) {
            Some(Maker::Granted { deadline, .. }) => deadline,
            _ => None,
        }
    }

    /// The incoming sequence with an identifier, of those that the batch makes.
    fn incoming_ahead(&self, ident: &Ident) -> Option<u32>
        ensures { let k = self.now in
            result ≡ find_ahead (is_incoming (number (all_records k)) ident.now) k }
    {
        let drawn = issued_counter(self.number(), ident.as_slice());
        let known = self.tables.len();
        for before in known..self.len() {
            if self.is_incoming(before + 1, drawn) {
                return Some(before + 1);
            }
        }
        None
    }

    /// The sequence that was granted for a CreateSequence with this MessageID, of those that the batch makes.
    fn grant_ahead(&self, message_id: &[u8]) -> Option<u32>
        ensures { result ≡ find_ahead (is_granted message_id.now) self.now }
    {
        let known = self.tables.len();
        for before in known..self.len() {
            if self.is_granted(before + 1, message_id) {
                return Some(before + 1);
            }
        }
        None
    }

    /// Whether the sequence with a number is incoming and has the identifier that the node issues for a number.
    fn is_incoming(&self, seq: u32, drawn: Option<u64>) -> bool
        ensures { let r = all_records self.now in (q : Text) → IsIssuedFor (number r) q drawn →
            result ≡ passes (is_incoming (number r) q) seq (maker r seq) }
    {
        match self.maker(seq) {
            Some(maker) => maker.is_incoming(drawn),
            None => false,
        }
    }

    /// Whether the sequence with a number was granted for a message.
    fn is_granted(&self, seq: u32, message_id: &[u8]) -> bool
        ensures { let r = all_records self.now in
            result ≡ passes (is_granted message_id.now) seq (maker r seq) }
    {
        match self.maker(seq) {
            Some(
                Maker::Granted {
                    message_id: given,
                    ..
                },
            ) => given.as_slice() == message_id,
            _ => false,
        }
    }

    /// Whether the sequence with a number was asked for with the message that the node issues this number for, and is
    /// in phase Creating.
    fn is_creating(&self, seq: u32, drawn: Option<u64>) -> bool
        ensures { let r = all_records self.now in (q : Text) → IsIssuedFor (number r) q drawn →
            result ≡ passes (is_creating r q) seq (maker r seq) }
    {
        match self.maker(seq) {
            Some(maker) => maker.is_asked(drawn) && self.is_asking(seq),
            None => false,
        }
    }

    /// Whether an outgoing sequence is in phase Creating.
    fn is_asking(&self, seq: u32) -> bool
        ensures { result ≡ is_asking (phase (all_records self.now) seq) }
    {
        matches!(self.phase(seq), OutPhase::Creating)
    }

    /// The phase of an outgoing sequence in the tables, or open where the records ahead give it its identifier.
    fn opened(&self, seq: u32) -> OutPhase
        ensures { let k = self.now in
            result ≡ opened (phase k.records seq) (ident_in (created_from (length (makers k.records)) k.delta) seq) }
    {
        let known = sides::phase(self.tables, seq);
        if !matches!(known, OutPhase::Creating) {
            return known;
        }
        match find_ident(self.batch.as_slice(), self.tables.len(), seq) {
            Some(_) => OutPhase::Open,
            None => OutPhase::Creating,
        }
    }
}
