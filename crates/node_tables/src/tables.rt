//! The records of a node, and what they say.
ghost use Rattle.std.specs.Prelude.{◌≡◌, ◌↔◌, ◌+◌, ◌^◌, ◌++◌, ◌∷◌, ◌<◌, ◌≤◌, [], true, false, Err, length, OnOk};
ghost use Rattle.std.specs.Prelude.{OnErr, IfErr, IfOk, IsOk, List, map};
ghost use Rattle.std.specs.Prelude.{min, vec_len, vec_capacity};
ghost use Rattle.std.specs.Option.{option_copied, option_map};
ghost use Rattle.record_batch.specs.Fact.{Fact, Accepted, Acked, Received, fact_of};
ghost use Rattle.rm_sides.specs.Source.Outgoing.{Sequence as OutSequence};
ghost use Rattle.rm_sides.specs.Destination.Incoming.{Sequence as InSequence};
ghost use Rattle.node_tables.specs.Row.Row.{Seen, draws_next};
ghost use Rattle.record_batch.specs.Sequences.Find.{accepted_by, find_creating, find_grant, find_incoming};
ghost use Rattle.record_batch.specs.Sequences.Find.{find_outgoing};
ghost use Rattle.record_batch.specs.Sequences.Find.{is_creating, is_incoming};
ghost use Rattle.record_batch.specs.Sequences.Fits.{fits, all_fit, has_places, is_outgoing_side};
ghost use Rattle.record_batch.specs.Sequences.Idents.{IsIssuedFor};
ghost use Rattle.record_batch.specs.Sequences.Makers.{counter, maker, makers, number};
ghost use Rattle.record_batch.specs.Sequences.Sources.{all_unacked, out_ident, phase};
ghost use Rattle.record_batch.specs.Sequences.Words.{Text};
ghost use Rattle.node_tables.specs.Kept.{is_naming, is_passing, is_whole, told_in};
ghost use Rattle.node_tables.specs.Reads.{address_in, incoming_in, is_asking, maker_seen, outgoing_in, passes};
ghost use Rattle.node_tables.specs.Reads.{ticket_in};
ghost use Rattle.node_tables.specs.Ready.{IsReady, StopsAt};
ghost use Rattle.node_tables.specs.Room.{has_room};
ghost use Rattle.std.specs.List.{list_all};
ghost use Rattle.record_batch.specs.Snapshot.Snapshot.{snapshot};
ghost use Rattle.node_tables.specs.declared.error.TableError.TheVariants.{Misfit, Memory as WantsMemory};

use crate::ahead::{begin, prepare_all};
use crate::claims::{claim_all, make_room, release_all};
use crate::copies::copies_of;
use crate::error::TableError;
use crate::find::{find_accept, find_address, find_granted, find_ident, find_named};
use crate::maker::{Maker, maker_at};
use crate::note::{Coming, Named, Note, Origin, passed_note};
use crate::record::{drawn_after, name, named_by, number_after, offer_fits, trace};
use crate::row::Row;
use crate::rows::{accept_at, change, forget_all, learn_at, pass_at, receive_at, waiting_in};
use crate::snapshot::shorter;
use record_batch::sequences::{issued_counter, made_by};
use record_batch::{Record, Records};
use rm_base::{Blob, Ident, Memory, Payload, Uri, numbered};
use rm_sides::destination::Incoming;
use rm_sides::ranges::{RangeSet, ends_are_right, same_numbers_same_ranges, union_has_both};
use rm_sides::source::{OutPhase, Outgoing};
use std::alloc::Global;
use std::marker::Model;
use std::mem;
use wsa_headers::Epr;

/// The records of a node, and what they say. Texts of rare records, as addresses and MessageIDs, stay in their records,
/// each once. What the node issued is compared and not kept: an identifier that comes is read to the number that it was
/// issued for.
pub struct Tables {
    alloc: Global,
    kept: Vec<Record>,
    rows: Vec<Row>,
    notes: Vec<Note>,
    origins: Vec<Origin>,
    named: Vec<Named>,
    ahead: Vec<Coming>,
    slots: usize,
    number: u64,
    drawn: u64,
    // whether a snapshot was made and nothing was applied since, and its notes
    marked: bool,
    short: Vec<Note>,
}

impl Drop for Tables {
    fn drop(self) {
        let Tables {
            alloc: _,
            kept: _,
            rows: _,
            notes: _,
            origins: _,
            named: _,
            ahead: _,
            slots: _,
            number: _,
            drawn: _,
            marked: _,
            short: _,
        } = self;
    }
}

impl Model for Tables {
    ghost use Rattle.std.specs.Coded.{codes};
    ghost use Rattle.soap_document.specs.Profile.TreeCode.{tree_code};
    ghost use Rattle.std.specs.Prelude.{◌-◌, vec_len, vec_capacity};
    ghost use Rattle.node_tables.specs.Kept.{Tabled, IsSound, records_in, table_in};
    ghost use Rattle.node_tables.specs.Room.{all_spares, starts};

    ghost Value = { Tabled };

    ghost coded = { Prim.hlevel (codes, tree_code) };

    ghost view = { λ t. record {
      records = records_in
          (table_in t.kept.items t.rows.items t.notes.items t.origins.items t.named.items t.number t.drawn);
      room = record {
        slots = t.slots;
        rows = all_spares t.rows.items t.ahead.items;
        ahead = starts t.ahead.items;
      };
      is_marked = t.marked;
    } };

    ghost invariant = { λ t. IsSound
        (table_in t.kept.items t.rows.items t.notes.items t.origins.items t.named.items t.number t.drawn)
        t.slots
        (record {
          kept = vec_capacity t.kept - vec_len t.kept;
          rows = vec_capacity t.rows - vec_len t.rows;
          notes = vec_capacity t.notes - vec_len t.notes;
          origins = vec_capacity t.origins - vec_len t.origins;
          named = vec_capacity t.named - vec_len t.named;
        })
        t.ahead.items
        t.marked
        t.short.items };
}

impl Tables {
    /// No records. It takes no memory.
    pub fn new(alloc: Global) -> Self
        ensures { result.records ≡ [] }
    {
        Tables {
            alloc,
            kept: Vec::new(alloc),
            rows: Vec::new(alloc),
            notes: Vec::new(alloc),
            origins: Vec::new(alloc),
            named: Vec::new(alloc),
            ahead: Vec::new(alloc),
            slots: 0,
            number: 0,
            drawn: 0,
            marked: false,
            short: Vec::new(alloc),
        }
    }

    /// The node's number, and 0 before it has one.
    pub fn number(&self) -> u64
        ensures value { result ≡ number self.now.records }
        ensures bits { result < 2 ^ 60 }
    {
        self.number
    }

    /// How many numbers were drawn.
    pub fn counter(&self) -> u64
        ensures { result ≡ counter self.now.records }
    {
        self.drawn
    }

    /// How many sequences there are.
    /// - `sound`, `count`: the records fit one after the other at each moment, and their sequences are counted in 32
    ///   bits.
    pub fn len(&self) -> u32
        ensures count { result ≡ length (makers self.now.records) }
        ensures sound { all_fit [] self.now.records ≡ true }
    {
        self.rows.as_slice().len() as u32
    }

    /// The sequence with a number.
    pub fn row(&self, seq: u32) -> Option<&Row>
        ensures { option_map (λ (r : Seen). r.told) (option_copied result) ≡ told_in self.now.records seq }
    {
        numbered(self.rows.as_slice(), seq as u64)
    }

    /// The side that sends of the sequence with a number.
    pub fn outgoing(&self, seq: u32) -> Option<&Outgoing>
        ensures { option_map (λ (o : OutSequence). o.facts) (option_copied result) ≡ outgoing_in self.now.records seq }
    {
        self.row(seq)?.outgoing()
    }

    /// The side that receives of the sequence with a number.
    pub fn incoming(&self, seq: u32) -> Option<&Incoming>
        ensures { option_map (λ (i : InSequence). i.facts) (option_copied result) ≡ incoming_in self.now.records seq }
    {
        self.row(seq)?.incoming()
    }

    /// The ticket of the last request for the sequence with a number.
    pub fn ticket(&self, seq: u32) -> Option<u64>
        ensures { result ≡ ticket_in self.now.records seq }
    {
        self.row(seq)?.ticket()
    }

    /// How many messages of all outgoing sequences wait for an acknowledgement. They are no more than the records.
    pub fn unacked(&self) -> u64
        ensures { result ≡ all_unacked self.now.records }
    {
        let _records = self.notes.as_slice().len();
        waiting_in(self.rows.as_slice())
    }

    /// How the sequence with a number came to be.
    pub fn maker(&self, seq: u32) -> Option<Maker<'_>>
        ensures { option_map maker_seen result ≡ maker self.now.records seq }
    {
        let origin = numbered(self.origins.as_slice(), seq as u64)?;
        maker_at(self.kept.as_slice(), *origin)
    }

    /// The node's address, once it has one.
    pub fn address(&self) -> Option<&Uri>
        ensures { option_copied result ≡ address_in self.now.records }
    {
        find_address(self.kept.as_slice())
    }

    /// The identifier of the outgoing sequence with a number.
    pub fn ident(&self, seq: u32) -> Option<&Ident>
        ensures { option_copied result ≡ out_ident self.now.records seq }
    {
        find_ident(self.kept.as_slice(), self.named.as_slice(), seq)
    }

    /// The AcksTo of the Accept that came for the offer that went out with the sequence with a number.
    pub fn accepted_by(&self, seq: u32) -> Option<&Epr>
        ensures { option_copied result ≡ accepted_by self.now.records seq }
    {
        find_accept(self.kept.as_slice(), self.named.as_slice(), seq)
    }

    /// The incoming sequence with an identifier. It takes no memory.
    pub fn find_incoming(&self, ident: &Ident) -> Option<u32>
        ensures { result ≡ find_incoming self.now.records ident.now }
    {
        let drawn = issued_counter(self.number(), ident.as_slice());
        for before in 0..self.len() {
            if self.is_incoming(before + 1, drawn) {
                return Some(before + 1);
            }
        }
        None
    }

    /// Whether the sequence with a number is incoming and has the identifier that the node issues for a number.
    fn is_incoming(&self, seq: u32, drawn: Option<u64>) -> bool
        ensures { let r = self.now.records in (q : Text) → IsIssuedFor (number r) q drawn →
            result ≡ passes (is_incoming (number r) q) seq (maker r seq) }
    {
        match self.maker(seq) {
            Some(maker) => maker.is_incoming(drawn),
            None => false,
        }
    }

    /// The sequence that a CreateSequence with this MessageID asked for, where that waits for its answer. It takes no
    /// memory.
    pub fn find_creating(&self, message_id: &Uri) -> Option<u32>
        ensures { result ≡ find_creating self.now.records message_id.now }
    {
        let drawn = issued_counter(self.number(), message_id.as_slice());
        for before in 0..self.len() {
            if self.is_creating(before + 1, drawn) {
                return Some(before + 1);
            }
        }
        None
    }

    /// Whether a CreateSequence asked for the sequence with a number and waits for its answer, and its MessageID is
    /// what the node issues for this number.
    fn is_creating(&self, seq: u32, drawn: Option<u64>) -> bool
        ensures { let r = self.now.records in (q : Text) → IsIssuedFor (number r) q drawn →
            result ≡ passes (is_creating r q) seq (maker r seq) }
    {
        match self.maker(seq) {
            Some(maker) => maker.is_asked(drawn) && self.is_asking(seq),
            None => false,
        }
    }

    /// Whether an outgoing sequence waits for the answer to its CreateSequence.
    fn is_asking(&self, seq: u32) -> bool
        requires { is_outgoing_side (maker self.now.records seq) ≡ true }
        ensures { result ≡ is_asking (phase self.now.records seq) }
    {
        match self.outgoing(seq) {
            Some(outgoing) => matches!(outgoing.phase(), OutPhase::Creating),
            None => unreachable!(),
        }
    }

    /// The outgoing sequence with an identifier. It is the one that was given it first: a node gives each identifier
    /// once, since the rows that give one ask for it before.
    pub fn find_outgoing(&self, ident: &[u8]) -> Option<u32>
        ensures { result ≡ find_outgoing self.now.records ident.now }
    {
        find_named(self.kept.as_slice(), self.named.as_slice(), ident)
    }

    /// The sequence that was granted for a CreateSequence with this MessageID.
    pub fn find_grant(&self, message_id: &Uri) -> Option<u32>
        ensures { result ≡ find_grant self.now.records message_id.now }
    {
        find_granted(
            self.kept.as_slice(),
            self.origins.as_slice(),
            message_id.as_slice(),
        )
    }

    /// Whether a record may come next. It goes by the definition, for all seventeen kinds. The record of what is gone
    /// has the numbers of a run from 1, but on a loose sequence those of any set that isn't empty.
    pub fn fits(&self, given: &Record) -> bool
        ensures { result ≡ fits self.now.records (fact_of given.now) }
    {
        match given {
            Record::Made { node, .. } => self.notes.is_empty() && *node > 0 && *node < 1 << 60,
            Record::Creating { ticket, offer, .. } => {
                *ticket > 0
                    && *ticket - 1 == self.drawn
                    && offer_fits(self.drawn, *offer)
                    && self.has_places(given)
            }
            Record::Granted {
                counter,
                deadline,
                ..
            } => {
                *counter > 0
                    && *counter - 1 == self.drawn
                    && *deadline != Some(0)
                    && self.has_places(given)
            }
            Record::Created { .. } | Record::Accepted { .. } | Record::Acked { .. } => {
                self.takes(given)
            }
            Record::Received { .. } | Record::Closing { .. } | Record::ClosedOut { .. } => {
                self.takes(given)
            }
            Record::Closed { .. } | Record::Ending { .. } | Record::EndedOut { .. } => {
                self.takes(given)
            }
            Record::Ended { .. } | Record::Failed { .. } | Record::Consumed { .. } => {
                self.takes(given)
            }
            Record::Dropped { .. } | Record::Purged { .. } => self.takes(given),
        }
    }

    /// Whether places are left for the sequences that a record makes.
    fn has_places(&self, given: &Record) -> bool
        ensures { result ≡ has_places self.now.records (fact_of given.now) }
    {
        let len = self.len() as usize;
        len + made_by(given) as usize <= u32::MAX as usize
    }

    /// Whether the sequence that a record names takes it.
    fn takes(&self, given: &Record) -> bool
        requires { is_naming (fact_of given.now) ≡ true }
        ensures { result ≡ fits self.now.records (fact_of given.now) }
    {
        match self.row(named_by(given)) {
            Some(row) => self.draws_next(given) && row.takes(given),
            None => false,
        }
    }

    /// Whether the number that a request draws is the next one.
    fn draws_next(&self, given: &Record) -> bool
        ensures { result ≡ draws_next self.now.records (fact_of given.now) }
    {
        match given {
            Record::Closing { ticket, .. } | Record::Ending { ticket, .. } => {
                *ticket > 0 && *ticket - 1 == self.drawn
            }
            _ => true,
        }
    }

    /// Makes room for records, and gives up the room that there was: applying exactly these takes no memory then. It
    /// makes none for Dropped and Purged, of which a snapshot alone has some.
    /// - Memory: nothing is said of the room.
    pub fn reserve(&mut self, batch: &[Record]) -> Result<(), Memory>
        ensures records { self.new.records ≡ self.old.records }
        ensures ok { all_fit self.old.records (map fact_of batch.now) ≡ true →
            list_all has_room (map fact_of batch.now) ≡ true →
            OnOk result (IsReady self.new (map fact_of batch.now)) }
        ensures mark { self.new.is_marked ≡ false }
    {
        self.marked = false;
        self.slots = 0;
        self.ahead.clear();
        release_all(&mut self.rows);
        make_room(
            &mut self.kept,
            &mut self.rows,
            &mut self.notes,
            &mut self.origins,
            &mut self.named,
            batch.len(),
        )?;
        prepare_all(self.alloc, &mut self.ahead, batch)?;
        claim_all(&mut self.rows, &mut self.ahead, batch)?;
        self.slots = batch.len();
        Ok(())
    }

    /// What the records say in short, as copies of records. It makes what `compact` needs, so that it takes no memory,
    /// and gives up the room that there was.
    pub fn snapshot(&mut self) -> Result<Records, Memory>
        ensures copies { IfOk result (λ copies. map fact_of copies ≡ snapshot self.old.records) }
        ensures records { self.new.records ≡ self.old.records }
        ensures mark { OnOk result (self.new.is_marked ≡ true) }
        ensures err { OnErr result (self.new ≡ self.old) }
    {
        let short = shorter(self.alloc, &self.kept, &self.rows, &self.notes)?;
        let copies = copies_of(self.alloc, &self.kept, &self.rows, &short)?;
        self.slots = 0;
        self.ahead.clear();
        release_all(&mut self.rows);
        self.short = short;
        self.marked = true;
        Ok(Records::from_vec(copies))
    }

    /// Makes the records the snapshot of them, which was made since the last of them came, and gives up the payloads
    /// that are gone by it. It takes no memory.
    pub fn compact(&mut self)
        requires { self.old.is_marked ≡ true }
        ensures records { self.new.records ≡ snapshot self.old.records }
        ensures mark { self.new.is_marked ≡ false }
    {
        union_has_both();
        ends_are_right();
        same_numbers_same_ranges();
        self.slots = 0;
        self.marked = false;
        forget_all(&mut self.rows);
        mem::swap(&mut self.notes, &mut self.short);
        self.short.clear();
    }

    /// Applies records one after the other, up to the first that does not fit or for which there is no memory.
    /// - `done`, `ok`: records for which there is room, and that fit, are applied whole.
    /// - Misfit, Memory: Misfit exactly where the first record that was not applied does not fit, Memory where it fits
    ///   and there is no room; the records before it are applied, and no more (`err`, `ready`, `done`).
    pub fn apply_all(&mut self, batch: Vec<Record>) -> Result<(), TableError>
        ensures ok { OnOk result (self.new.records ≡ self.old.records ++ map fact_of batch.items) }
        ensures fit { OnOk result (all_fit self.old.records (map fact_of batch.items) ≡ true) }
        ensures err { IfErr result (StopsAt self.old.records self.new.records (map fact_of batch.items)) }
        ensures ready { IsReady self.old (map fact_of batch.items) → ¬ (result ≡ Err WantsMemory) }
        ensures done { IsReady self.old (map fact_of batch.items) →
            all_fit self.old.records (map fact_of batch.items) ≡ true → IsOk result }
    {
        let mut rest = batch.into_iter();
        while let Some(given) = rest.next() {
            self.apply(given)?;
        }
        Ok(())
    }

    /// Applies a record. Where there is room for it, it takes no memory.
    /// - Misfit: exactly where the record does not fit (`misfit`, `err`).
    /// - Memory: where it fits and there is no room for it (`misfit`, `ready`, `err`).
    /// - `ready`, `next`: a record for which there is room leaves the room for those behind it.
    pub fn apply(&mut self, given: Record) -> Result<(), TableError>
        ensures ok { OnOk result (self.new.records ≡ self.old.records ++ fact_of given ∷ []) }
        ensures fit { OnOk result (fits self.old.records (fact_of given) ≡ true) }
        ensures err { OnErr result (self.new.records ≡ self.old.records) }
        ensures mark { OnOk result (self.new.is_marked ≡ false) }
        ensures misfit { (result ≡ Err Misfit) ↔ (fits self.old.records (fact_of given) ≡ false) }
        ensures ready { (more : List Fact) → IsReady self.old (fact_of given ∷ more) → ¬ (result ≡ Err WantsMemory) }
        ensures next { (more : List Fact) → IsReady self.old (fact_of given ∷ more) →
            OnOk result (IsReady self.new more) }
    {
        if !self.fits(&given) {
            return Err(TableError::Misfit);
        }
        self.add(given)?;
        Ok(())
    }

    /// Adds a record that fits.
    fn add(&mut self, given: Record) -> Result<(), Memory>
        requires { fits self.old.records (fact_of given) ≡ true }
        ensures ok { OnOk result (self.new.records ≡ self.old.records ++ fact_of given ∷ []) }
        ensures err { OnErr result (self.new.records ≡ self.old.records) }
        ensures mark { OnOk result (self.new.is_marked ≡ false) }
        ensures ready { (more : List Fact) → IsReady self.old (fact_of given ∷ more) → IsOk result }
        ensures next { (more : List Fact) → IsReady self.old (fact_of given ∷ more) →
            OnOk result (IsReady self.new more) }
    {
        match given {
            Record::Accepted { seq, payload } => self.accept(seq, payload),
            Record::Received {
                seq,
                number,
                payload,
            } => self.receive(seq, number, payload),
            Record::Acked { seq, numbers } => self.learn(seq, numbers),
            Record::Consumed { seq, upto } => self.pass(Record::Consumed { seq, upto }),
            Record::Dropped { seq, upto } => self.pass(Record::Dropped { seq, upto }),
            Record::Purged { seq, numbers } => self.pass(Record::Purged { seq, numbers }),
            whole => self.keep(whole),
        }
    }

    /// Adds a record of a payload that was accepted.
    fn accept(&mut self, seq: u32, payload: Blob) -> Result<(), Memory>
        requires { fits self.old.records (Accepted seq payload) ≡ true }
        ensures ok { OnOk result (self.new.records ≡ self.old.records ++ Accepted seq payload ∷ []) }
        ensures err { OnErr result (self.new.records ≡ self.old.records) }
        ensures mark { OnOk result (self.new.is_marked ≡ false) }
        ensures ready { (more : List Fact) → IsReady self.old (Accepted seq payload ∷ more) → IsOk result }
        ensures next { (more : List Fact) → IsReady self.old (Accepted seq payload ∷ more) →
            OnOk result (IsReady self.new more) }
    {
        self.marked = false;
        self.notes.reserve(1)?;
        let row = seq as usize - 1;
        let number = accept_at(&mut self.rows, row, payload)?;
        self.slots = self.slots.saturating_sub(1);
        self.notes.push_reserved(Note::Accepted { row, number });
        Ok(())
    }

    /// Adds a record of a message that was received.
    fn receive(&mut self, seq: u32, number: u64, payload: Payload) -> Result<(), Memory>
        requires { fits self.old.records (Received seq number payload) ≡ true }
        ensures ok { OnOk result (self.new.records ≡ self.old.records ++ Received seq number payload ∷ []) }
        ensures err { OnErr result (self.new.records ≡ self.old.records) }
        ensures mark { OnOk result (self.new.is_marked ≡ false) }
        ensures ready { (more : List Fact) → IsReady self.old (Received seq number payload ∷ more) → IsOk result }
        ensures next { (more : List Fact) → IsReady self.old (Received seq number payload ∷ more) →
            OnOk result (IsReady self.new more) }
    {
        self.marked = false;
        self.notes.reserve(1)?;
        let row = seq as usize - 1;
        let is_first = receive_at(&mut self.rows, row, number, payload)?;
        self.slots = self.slots.saturating_sub(1);
        self.notes.push_reserved(Note::Received {
            row,
            number,
            is_first,
        });
        Ok(())
    }

    /// Adds a record of numbers that are acknowledged.
    fn learn(&mut self, seq: u32, numbers: RangeSet) -> Result<(), Memory>
        requires { fits self.old.records (Acked seq numbers.ranges) ≡ true }
        ensures ok { OnOk result (self.new.records ≡ self.old.records ++ Acked seq numbers.ranges ∷ []) }
        ensures err { OnErr result (self.new.records ≡ self.old.records) }
        ensures mark { OnOk result (self.new.is_marked ≡ false) }
        ensures ready { (more : List Fact) → IsReady self.old (Acked seq numbers.ranges ∷ more) → IsOk result }
        ensures next { (more : List Fact) → IsReady self.old (Acked seq numbers.ranges ∷ more) →
            OnOk result (IsReady self.new more) }
    {
        self.marked = false;
        self.notes.reserve(1)?;
        learn_at(&mut self.rows, seq as usize - 1, &numbers)?;
        self.slots = self.slots.saturating_sub(1);
        self.notes.push_reserved(Note::Acked { seq, numbers });
        Ok(())
    }

    /// Adds a record of how far a sequence was consumed, or of messages that are gone.
    fn pass(&mut self, given: Record) -> Result<(), Memory>
        requires fit { fits self.old.records (fact_of given) ≡ true }
        requires passing { is_passing (fact_of given) ≡ true }
        ensures ok { OnOk result (self.new.records ≡ self.old.records ++ fact_of given ∷ []) }
        ensures err { OnErr result (self.new.records ≡ self.old.records) }
        ensures mark { OnOk result (self.new.is_marked ≡ false) }
        ensures ready { (more : List Fact) → IsReady self.old (fact_of given ∷ more) → IsOk result }
        ensures next { (more : List Fact) → IsReady self.old (fact_of given ∷ more) →
            OnOk result (IsReady self.new more) }
    {
        self.marked = false;
        self.notes.reserve(1)?;
        let place = named_by(&given) as usize - 1;
        pass_at(&mut self.rows, place, &given)?;
        self.slots = self.slots.saturating_sub(1);
        self.notes.push_reserved(passed_note(given));
        Ok(())
    }

    /// Adds a record that is kept whole.
    fn keep(&mut self, given: Record) -> Result<(), Memory>
        requires fit { fits self.old.records (fact_of given) ≡ true }
        requires whole { is_whole (fact_of given) ≡ true }
        ensures ok { OnOk result (self.new.records ≡ self.old.records ++ fact_of given ∷ []) }
        ensures err { OnErr result (self.new.records ≡ self.old.records) }
        ensures mark { OnOk result (self.new.is_marked ≡ false) }
        ensures ready { (more : List Fact) → IsReady self.old (fact_of given ∷ more) → IsOk result }
        ensures next { (more : List Fact) → IsReady self.old (fact_of given ∷ more) →
            OnOk result (IsReady self.new more) }
    {
        self.marked = false;
        make_room(
            &mut self.kept,
            &mut self.rows,
            &mut self.notes,
            &mut self.origins,
            &mut self.named,
            1,
        )?;
        let place = self.kept.len();
        let len = self.rows.len();
        let number = number_after(self.number, &given);
        let drawn = drawn_after(self.drawn, &given);
        name(&mut self.named, &given, len, place);
        trace(&mut self.origins, &given, place);
        change(&mut self.rows, &given);
        begin(self.alloc, &mut self.rows, &mut self.ahead, &given);
        self.number = number;
        self.drawn = drawn;
        self.slots = self.slots.saturating_sub(1);
        self.notes.push_reserved(Note::Kept { place });
        self.kept.push_reserved(given);
        Ok(())
    }
}
