//! A journal on a disk: made, mounted, added to and read.

ghost use Rattle.std.specs.Prelude.{◌≡◌, ◌≢◌, ◌⊎◌, ◌↔◌, ◌+◌, ◌-◌, ◌^◌, ◌<◌, ◌≤◌, min, ℕ, [], ◌∷◌, ◌++◌, List, Bool};
ghost use Rattle.std.specs.Prelude.{true, false, None, Some, Err, length, slice_get, IsTrue, is_ok, is_err, not, IfOk};
ghost use Rattle.std.specs.Prelude.{OnOk, IfErr, IsErrOf};
ghost use Rattle.rm_base.specs.Limits.{journal_bytes};
ghost use Rattle.rm_disk.specs.Call.{settled, state, seen_of, crashes_of};
ghost use Rattle.rm_disk.specs.Cause.{HasCause};
ghost use Rattle.rm_disk.specs.Fuse.{Burns};
ghost use Rattle.rm_disk.specs.Image.{MayLeave, OnlyLeaves};
ghost use Rattle.rm_disk.specs.Journal.Entries.{AllFit, bytes_of, first_bytes, list_of as list_in, StandsAsBefore};
ghost use Rattle.rm_disk.specs.Journal.Entries.{StandsAt};
ghost use Rattle.rm_disk.specs.Journal.Entries.{StandsFor, StandsForEither, StandsForOneOf};
ghost use Rattle.rm_disk.specs.declared.journal.error.JournalError.TheVariants.{Memory as WantsMemory};
ghost use Rattle.rm_disk.specs.declared.journal.error.JournalError.TheVariants.{Disk as DiskFails};
ghost use Rattle.rm_disk.specs.declared.journal.error.JournalError.TheVariants.{NotAJournal, Down as IsDown};

use crate::journal::JournalError;
use crate::journal::block::{body_of, first_text, list_of, size_of, write_block, write_list};
use crate::journal::place::{last_gate, read_bytes, span_of};
use crate::journal::scan::{HEAD_BEFORE, bank_of, gates_of};
use crate::{Disk, ReadDisk};
use rm_base::Blob;
use rm_base::limits::{ENTRY_BYTES, JOURNAL_BYTES};
use std::alloc::Global;
use std::marker::Model;

/// The list of entries on a disk. It keeps the place of each, and none of their bytes. No checksum is kept: the sync
/// before the gate is what makes the gate safe.
#[derive(Debug, Drop)]
pub struct Journal {
    alloc: Global,
    // which start counts, and that start
    second: bool,
    start: u64,
    // the place of the gate behind each entry
    gates: Vec<u64>,
    down: bool,
}

impl Model for Journal {
    ghost use Rattle.rm_disk.specs.Journal.JournalState.{JournalState};

    ghost Value = { JournalState };

    ghost view = { λ j. record {
      bank = record { second = j.second; start = j.start };
      gates = j.gates.items;
      is_down = j.down;
    } };
}

impl Journal {
    ghost use Rattle.rm_disk.specs.Journal.JournalState.{JournalState, end_of, journal_of};
    ghost use Rattle.rm_disk.specs.Journal.Journal.{Fits, FitsUnlessDown, Answers, AnswersImport, refusal_of, is_disk};
    ghost use Rattle.rm_disk.specs.Journal.Journal.{is_memory};
    ghost use Rattle.rm_disk.specs.Journal.Journal.{with_block, appended, after_reading, compacted, next_bank};
    ghost use Rattle.rm_disk.specs.Journal.Journal.{with_list};
    ghost use Rattle.rm_disk.specs.Journal.Journal.{row_appended, row_refusal as row_refusal_of, with_row};
    ghost use Rattle.rm_disk.specs.Journal.Journal.{list_refusal as list_refusal_of, fits_before as fits_before_of};
    ghost use Rattle.rm_disk.specs.Journal.Journal.{place_for as place_of};

    /// Makes the disk an empty journal, in three device calls: it cuts, writes and syncs. After Disk the disk holds
    /// anything, and must be formatted again.
    /// - `made`: a journal of no entries, on every disk.
    /// - `bytes`, `fits`: the disk has the front of the first bank, a closed gate and nothing behind it, and nothing is
    ///   unsynced; each image stands for no entries.
    /// - Memory: before any device call (`refusals`, `untouched`).
    /// - Disk: exactly where the fuse lies among the device calls (`cause`, `fuse`).
    pub fn format<D: ReadDisk>(alloc: Global, disk: &mut D) -> Result<Journal, JournalError>
        ensures made { IfOk result (λ journal. journal ≡ journal_of []) }
        ensures fits { IsTrue D.tells → IfOk result (Fits [] (D.told disk.new).past) }

        // The disk has the front of a journal and a closed gate, and nothing behind it.
        ensures bytes { IsTrue D.tells → OnOk result (state (D.told disk.new).past ≡ settled first_bytes) }

        ensures refusals { IfErr result (λ error. (error ≡ WantsMemory) ⊎ (error ≡ DiskFails)) }

        // Memory comes before any device call.
        ensures untouched { IsTrue D.tells → is_memory result ≡ true →
            ((D.told disk.new).past ≡ (D.told disk.old).past) × ((D.told disk.new).fuse ≡ (D.told disk.old).fuse) }

        ensures fuse { IsTrue D.tells → is_memory result ≡ false →
            Burns 3 (D.told disk.old).fuse (D.told disk.new).fuse (is_ok result) }
        ensures cause { HasCause (D.told disk.old).faults (D.told disk.new).faults (is_disk result) }
        ensures crashes { IsTrue D.tells → crashes_of (D.told disk.new).past ≡ crashes_of (D.told disk.old).past }
    {
        disk.reserve(3, 26)?;
        disk.cut(0)?;
        disk.write_at(0, b"WSRMJNL2\0\0\0\0\0\0\0\0\x19\0\0\0\0\0\0\0\x19\0")?;
        disk.sync()?;
        Ok(Journal {
            alloc,
            second: false,
            start: 25,
            gates: Vec::new(alloc),
            down: false,
        })
    }

    /// Finds the journal on a disk. It makes three device calls: it syncs, asks for the length and reads all once. It
    /// takes the memory of the disk's length meanwhile. A journal that is longer than its limit is found too: the limit
    /// is on what is added.
    /// - `fits`: the list for which the disk reads, in its bank, and then each image stands for it there.
    /// - `behind`: the journal ends no earlier than its list begins.
    /// - `seen`, `moments`, `settled`: whatever comes, what is read stays, a crash leaves no more than before, and at
    ///   Ok nothing is unsynced.
    /// - NotAJournal: exactly where the disk reads for no list in either bank, and neither Memory nor Disk comes
    ///   (`none`, `fits`).
    /// - Memory: before any device call, or after two or three that went well (`memory`).
    /// - Disk: exactly where the fuse lies among the device calls (`cause`, `fuse`).
    pub fn mount<D: ReadDisk>(alloc: Global, disk: &mut D) -> Result<Journal, JournalError>
        ensures fits { IsTrue D.tells → IfOk result (λ journal. (entries : List (List ℕ)) ×
            StandsAt journal.bank entries (seen_of (D.told disk.old).past)
            × Fits entries (D.told disk.new).past journal) }
        ensures none { IsTrue D.tells → result ≡ Err NotAJournal →
            (entries : List (List ℕ)) → StandsFor entries (seen_of (D.told disk.old).past) → ⊥ }
        ensures up { IfOk result (λ journal. journal.is_down ≡ false) }
        ensures behind { IfOk result (λ journal. journal.bank.start ≤ end_of journal) }
        ensures refusals { IfErr result (λ error. (error ≡ WantsMemory) ⊎ (error ≡ DiskFails) ⊎ (error ≡ NotAJournal)) }

        // It changes nothing that is read, and a crash leaves no more than before. At Ok nothing is unsynced.
        ensures settled { IsTrue D.tells →
            OnOk result (state (D.told disk.new).past ≡ settled (seen_of (D.told disk.old).past)) }
        ensures seen { IsTrue D.tells → seen_of (D.told disk.new).past ≡ seen_of (D.told disk.old).past }
        ensures moments { IsTrue D.tells →
            OnlyLeaves (D.told disk.old).past (D.told disk.new).past (MayLeave (D.told disk.old).past) }

        ensures fuse { IsTrue D.tells → is_memory result ≡ false →
            Burns 3 (D.told disk.old).fuse (D.told disk.new).fuse (not (is_disk result)) }

        // Memory comes before any device call, or after two or three that went well.
        ensures memory { IsTrue D.tells → is_memory result ≡ true → ((D.told disk.new).fuse ≡ (D.told disk.old).fuse)
            ⊎ Burns 2 (D.told disk.old).fuse (D.told disk.new).fuse true
            ⊎ Burns 3 (D.told disk.old).fuse (D.told disk.new).fuse true }

        ensures cause { HasCause (D.told disk.old).faults (D.told disk.new).faults (is_disk result) }
        ensures crashes { IsTrue D.tells → crashes_of (D.told disk.new).past ≡ crashes_of (D.told disk.old).past }
    {
        disk.reserve(1, 0)?;
        disk.sync()?;
        let len = disk.len()?;
        let bytes = read_bytes(alloc, disk, 0, len)?;
        let Some((second, start)) = bank_of(&bytes) else {
            return Err(JournalError::NotAJournal);
        };
        match gates_of(alloc, start as u64, &bytes[start..]) {
            Ok(gates) => Ok(Journal {
                alloc,
                second,
                start: start as u64,
                gates,
                down: false,
            }),
            Err(error) => Err(error),
        }
    }

    /// Makes a disk the journal of the entries for which bytes of the layout before stand, in three device calls. After
    /// Disk the disk holds anything.
    /// - NotAJournal, Full: exactly where the bytes stand for no list; where the journal of their list would be longer
    ///   than 268435456. No device call was made (`answers`, `untouched`).
    /// - Memory: no device call was made (`answers`, `untouched`).
    /// - Disk: of bytes that stand for a list for which a journal has room, exactly where the fuse lies among the
    ///   device calls; nothing is said of what the disk holds (`answers`, `cause`, `fuse`).
    pub fn import<D: ReadDisk>(
        alloc: Global,
        disk: &mut D,
        bytes: &[u8],
    ) -> Result<Journal, JournalError>
        ensures answers { AnswersImport bytes.now result }

        // On a disk that tells, at Ok the list is there for good, with nothing behind it.
        ensures fits { IsTrue D.tells → (entries : List (List ℕ)) → StandsAsBefore entries bytes.now →
            IfOk result (Fits entries (D.told disk.new).past) }
        ensures bytes { IsTrue D.tells → (entries : List (List ℕ)) → StandsAsBefore entries bytes.now →
            OnOk result (state (D.told disk.new).past ≡ settled (bytes_of entries)) }

        // Each answer but Ok and Disk comes before any device call.
        ensures untouched { IsTrue D.tells → IfErr result (λ error. error ≢ DiskFails →
            ((D.told disk.new).past ≡ (D.told disk.old).past) × ((D.told disk.new).fuse ≡ (D.told disk.old).fuse)) }

        ensures fuse { IsTrue D.tells → (is_ok result ≡ true) ⊎ (is_disk result ≡ true) →
            Burns 3 (D.told disk.old).fuse (D.told disk.new).fuse (is_ok result) }
        ensures cause { HasCause (D.told disk.old).faults (D.told disk.new).faults (is_disk result) }
        ensures crashes { IsTrue D.tells → crashes_of (D.told disk.new).past ≡ crashes_of (D.told disk.old).past }
    {
        let Some(rest) = bytes.strip_prefix(HEAD_BEFORE) else {
            return Err(JournalError::NotAJournal);
        };
        let gates = match gates_of(alloc, 25, rest) {
            Ok(gates) => gates,
            Err(error) => return Err(error),
        };
        let end = last_gate(&gates, 25);
        if end >= JOURNAL_BYTES {
            return Err(JournalError::Full {
                end: 25,
                needed: end.saturating_sub(24),
            });
        }
        let text = first_text(alloc, &rest[..end.saturating_sub(25) as usize])?;
        disk.reserve(3, text.len() as u64)?;
        disk.cut(0)?;
        disk.write_at(0, &text)?;
        disk.sync()?;
        Ok(Journal {
            alloc,
            second: false,
            start: 25,
            gates,
            down: false,
        })
    }

    /// Adds an entry, in four device calls: it writes the entry behind the closed gate, syncs, opens the gate, syncs.
    /// After Disk the entry is on the disk or isn't, and the journal is down: mount the disk again. It cuts nothing
    /// off: what stood behind the closed gate stays behind the new one, where it means nothing.
    /// - `moments`: at every moment from the start each image stands for the old entries, or for these with the new
    ///   one.
    /// - `ok`: after Ok each image stands for the new list.
    /// - `bytes`: at Ok the bytes are the old ones up to the gate, the opened gate, the length, the entry, a closed
    ///   gate and what stood further behind, and nothing is unsynced.
    /// - Down, EntryTooLong, Full: exactly with the first that holds of: the journal is down; the entry is longer than
    ///   4194304; the journal would end past 268435456 (`refusals`).
    /// - Memory: where none of these holds; no device call was made (`refusals`, `untouched`).
    /// - Disk: where none of these holds; on a disk that tells, exactly where the fuse lies among the device calls
    ///   (`cause`, `fuse`).
    pub fn append<D: Disk>(&mut self, disk: &mut D, entry: &[u8]) -> Result<(), JournalError>
        requires { IsTrue D.tells → FitsUnlessDown (D.told disk.old).past self.old }

        ensures refusals { Answers (refusal_of self.old (length entry.now)) result }
        ensures journal { self.new ≡ appended self.old (length entry.now) result }

        // On a disk that tells, at Ok the entry is there for good, and a crash at any moment of the call leaves the old
        // entries, or these with the new one.
        ensures ok { IsTrue D.tells → (entries : List (List ℕ)) → Fits entries (D.told disk.old).past self.old →
            OnOk result (Fits (entries ++ entry.now ∷ []) (D.told disk.new).past self.new) }
        ensures bytes { IsTrue D.tells → OnOk result (state (D.told disk.new).past ≡
            settled (with_block (seen_of (D.told disk.old).past) (end_of self.old) entry.now)) }
        ensures moments { IsTrue D.tells → (entries : List (List ℕ)) → Fits entries (D.told disk.old).past self.old →
            OnlyLeaves (D.told disk.old).past (D.told disk.new).past (StandsForEither self.old.bank entries entry.now) }

        // Each answer but Ok and Disk comes before any device call.
        ensures untouched { IsTrue D.tells → IfErr result (λ error. error ≢ DiskFails →
            ((D.told disk.new).past ≡ (D.told disk.old).past) × ((D.told disk.new).fuse ≡ (D.told disk.old).fuse)) }

        ensures fuse { IsTrue D.tells → (is_ok result ≡ true) ⊎ (is_disk result ≡ true) →
            Burns 4 (D.told disk.old).fuse (D.told disk.new).fuse (is_ok result) }
        ensures cause { HasCause (D.told disk.old).faults (D.told disk.new).faults (is_disk result) }
        ensures crashes { IsTrue D.tells → crashes_of (D.told disk.new).past ≡ crashes_of (D.told disk.old).past }
    {
        if let Some(refusal) = self.refusal(entry.len() as u64) {
            return Err(refusal);
        }
        let end = self.end();
        let body = body_of(self.alloc, entry)?;
        self.gates.reserve(1)?;
        disk.reserve(4, body.len() as u64 + 1)?;
        if write_block(disk, end, &body).is_err() {
            self.down = true;
            return Err(JournalError::Disk);
        }
        self.gates.push(end + body.len() as u64).unwrap();
        Ok(())
    }

    /// Adds entries, in the same four device calls as one: it writes them behind the closed gate, each but the first
    /// behind an open gate of its own, syncs, opens the gate before the first, syncs. So one byte decides of all of
    /// them. After Disk all of them are on the disk or none, and the journal is down: mount the disk again.
    pub fn append_all<D: Disk>(&mut self, disk: &mut D, added: &[Blob]) -> Result<(), JournalError>
        requires some { added.now ≢ [] }
        requires short { AllFit added.now }
        requires fits { IsTrue D.tells → FitsUnlessDown (D.told disk.old).past self.old }

        ensures refusals { Answers (row_refusal_of self.old (length (list_in added.now))) result }
        ensures journal { self.new ≡ row_appended self.old added.now result }

        // On a disk that tells, at Ok the entries are there for good, and a crash at any moment of the call leaves the
        // old entries, or these with all of the new ones.
        ensures ok { IsTrue D.tells → (entries : List (List ℕ)) → Fits entries (D.told disk.old).past self.old →
            OnOk result (Fits (entries ++ added.now) (D.told disk.new).past self.new) }
        ensures bytes { IsTrue D.tells → OnOk result (state (D.told disk.new).past ≡
            settled (with_row (seen_of (D.told disk.old).past) (end_of self.old) added.now)) }
        ensures moments { IsTrue D.tells → (entries : List (List ℕ)) → Fits entries (D.told disk.old).past self.old →
            OnlyLeaves (D.told disk.old).past (D.told disk.new).past
            (StandsForOneOf self.old.bank entries self.old.bank (entries ++ added.now)) }

        // Each answer but Ok and Disk comes before any device call.
        ensures untouched { IsTrue D.tells → IfErr result (λ error. error ≢ DiskFails →
            ((D.told disk.new).past ≡ (D.told disk.old).past) × ((D.told disk.new).fuse ≡ (D.told disk.old).fuse)) }

        ensures fuse { IsTrue D.tells → (is_ok result ≡ true) ⊎ (is_disk result ≡ true) →
            Burns 4 (D.told disk.old).fuse (D.told disk.new).fuse (is_ok result) }
        ensures cause { HasCause (D.told disk.old).faults (D.told disk.new).faults (is_disk result) }
        ensures crashes { IsTrue D.tells → crashes_of (D.told disk.new).past ≡ crashes_of (D.told disk.old).past }
    {
        let size = size_of(added);
        if let Some(refusal) = self.row_refusal(size) {
            return Err(refusal);
        }
        let end = self.end();
        let list = list_of(self.alloc, end, added)?;
        self.gates.reserve(list.gates.len())?;
        disk.reserve(4, size)?;
        if write_block(disk, end, &list.bytes[1..]).is_err() {
            self.down = true;
            return Err(JournalError::Disk);
        }
        self.gates.extend_from_slice(&list.gates).unwrap();
        Ok(())
    }

    /// Writes the list anew, in five device calls: it writes the fresh list before the one that stands, where that has
    /// room, else behind it; writes its start into the slot that doesn't count; syncs; writes the selector; syncs.
    /// After Disk one of the two lists is on the disk, and the journal is down: mount the disk again.
    /// - `moments`: at every moment from the start each image stands for the old entries in the old bank, or for the
    ///   fresh ones in the other, at 25 where they have room before the old ones, else behind them.
    /// - `ok`, `bytes`: after Ok each image stands for the fresh ones there; the bytes are the old ones with the list,
    ///   its start and the selector written over them, and nothing is unsynced.
    /// - Down, Full: exactly with the first that holds of: the journal is down; the list is put behind the old one and
    ///   would end past 268435456 (`refusals`).
    /// - Memory: where none of these holds; no device call was made (`refusals`, `untouched`).
    /// - Disk: where none of these holds; on a disk that tells, exactly where the fuse lies among the device calls
    ///   (`cause`, `fuse`).
    pub fn compact<D: Disk>(&mut self, disk: &mut D, fresh: &[Blob]) -> Result<(), JournalError>
        requires short { AllFit fresh.now }
        requires fits { IsTrue D.tells → FitsUnlessDown (D.told disk.old).past self.old }

        ensures refusals { Answers (list_refusal_of self.old (length (list_in fresh.now))) result }
        ensures journal { self.new ≡ compacted self.old fresh.now result }

        // On a disk that tells, at Ok the fresh list is there for good, and a crash at any moment of the call leaves
        // the old entries where they stood, or the fresh ones where they are put.
        ensures ok { IsTrue D.tells → OnOk result (Fits fresh.now (D.told disk.new).past self.new) }
        ensures bytes { IsTrue D.tells → OnOk result (state (D.told disk.new).past ≡
            settled (with_list (seen_of (D.told disk.old).past) (next_bank self.old fresh.now) fresh.now)) }
        ensures moments { IsTrue D.tells → (entries : List (List ℕ)) → Fits entries (D.told disk.old).past self.old →
            OnlyLeaves (D.told disk.old).past (D.told disk.new).past
            (StandsForOneOf self.old.bank entries (next_bank self.old fresh.now) fresh.now) }

        // Each answer but Ok and Disk comes before any device call.
        ensures untouched { IsTrue D.tells → IfErr result (λ error. error ≢ DiskFails →
            ((D.told disk.new).past ≡ (D.told disk.old).past) × ((D.told disk.new).fuse ≡ (D.told disk.old).fuse)) }

        ensures fuse { IsTrue D.tells → (is_ok result ≡ true) ⊎ (is_disk result ≡ true) →
            Burns 5 (D.told disk.old).fuse (D.told disk.new).fuse (is_ok result) }
        ensures cause { HasCause (D.told disk.old).faults (D.told disk.new).faults (is_disk result) }
        ensures crashes { IsTrue D.tells → crashes_of (D.told disk.new).past ≡ crashes_of (D.told disk.old).past }
    {
        let size = size_of(fresh);
        if let Some(refusal) = self.list_refusal(size) {
            return Err(refusal);
        }
        let start = self.place_for(size);
        let second = !self.second;
        let list = list_of(self.alloc, start, fresh)?;
        disk.reserve(5, size + 9)?;
        if write_list(disk, start, &list.bytes, second).is_err() {
            self.down = true;
            return Err(JournalError::Disk);
        }
        self.second = second;
        self.start = start;
        self.gates = list.gates;
        Ok(())
    }

    /// The entry of this number, counted from 1, in one device call. On a disk that tells nothing the bytes that
    /// stand in the entry's place are the answer, whatever they are.
    /// - Down: exactly where the journal is down (`down`).
    /// - Disk: exactly where the fuse lies at its one device call; the journal is down, and what the disk has stays
    ///   (`cause`, `fuse`, `past`).
    pub fn entry<D: ReadDisk>(&mut self, disk: &mut D, i: u64) -> Result<Blob, JournalError>
        requires number { (1 ≤ i) × (i ≤ length self.old.gates) }
        requires fits { IsTrue D.tells → FitsUnlessDown (D.told disk.old).past self.old }
        ensures value { IsTrue D.tells → (entries : List (List ℕ)) → Fits entries (D.told disk.old).past self.old →
            IfOk result (λ bytes. slice_get entries (i - 1) ≡ Some bytes) }
        ensures down { IsErrOf result IsDown ↔ (self.old.is_down ≡ true) }
        ensures refusals { IfErr result (λ error. (error ≡ WantsMemory) ⊎ (error ≡ DiskFails) ⊎ (error ≡ IsDown)) }
        ensures journal { self.new ≡ after_reading self.old result }
        ensures past { IsTrue D.tells → (D.told disk.new).past ≡ (D.told disk.old).past }

        // Memory and Down come before the device call.
        ensures untouched { IsTrue D.tells → IfErr result (λ error. error ≢ DiskFails →
            (D.told disk.new).fuse ≡ (D.told disk.old).fuse) }
        ensures fuse { IsTrue D.tells → (is_ok result ≡ true) ⊎ (is_disk result ≡ true) →
            Burns 1 (D.told disk.old).fuse (D.told disk.new).fuse (is_ok result) }
        ensures cause { HasCause (D.told disk.old).faults (D.told disk.new).faults (is_disk result) }
    {
        if self.down {
            return Err(JournalError::Down);
        }
        let (start, len) = span_of(self.start, &self.gates, i as usize - 1);
        match read_bytes(self.alloc, disk, start, len) {
            Ok(bytes) => Ok(Blob::from_vec(bytes)),
            Err(JournalError::Disk) => {
                self.down = true;
                Err(JournalError::Disk)
            }
            Err(error) => Err(error),
        }
    }

    /// How many entries it has.
    pub fn count(&self) -> u64
        ensures { result ≡ length self.now.gates }
    {
        self.gates.len() as u64
    }

    /// The place of the closed gate.
    pub fn end(&self) -> u64
        ensures { result ≡ end_of self.now }
    {
        match self.gates.last() {
            Some(&gate) => gate,
            None => self.start,
        }
    }

    /// How long the next entry may be.
    pub fn room(&self) -> u64
        ensures { result ≡ journal_bytes - end_of self.now - 6 }
    {
        JOURNAL_BYTES.saturating_sub(self.end()).saturating_sub(6)
    }

    /// Whether a call has answered Disk.
    pub fn is_down(&self) -> bool
        ensures { result ≡ self.now.is_down }
    {
        self.down
    }

    // The refusal of an entry of this length that comes before any call on the disk.
    fn refusal(&self, len: u64) -> Option<JournalError>
        ensures { result ≡ refusal_of self.now len }
    {
        if self.down {
            return Some(JournalError::Down);
        }
        if len > ENTRY_BYTES as u64 {
            return Some(JournalError::EntryTooLong { len });
        }
        let end = self.end();
        let needed = len + 6;
        if end > JOURNAL_BYTES - needed {
            return Some(JournalError::Full { end, needed });
        }
        None
    }

    // The refusal of a row of so many bytes that comes before any call on the disk.
    fn row_refusal(&self, size: u64) -> Option<JournalError>
        ensures { (n : ℕ) → size ≡ min n (2 ^ 64 - 1) → result ≡ row_refusal_of self.now n }
    {
        if self.down {
            return Some(JournalError::Down);
        }
        let end = self.end();
        if end.saturating_add(size) > JOURNAL_BYTES {
            return Some(JournalError::Full { end, needed: size });
        }
        None
    }

    // Whether a list of so many bytes fits between the front and the list that stands.
    fn fits_before(&self, size: u64) -> bool
        ensures { (n : ℕ) → size ≡ min n (2 ^ 64 - 1) → result ≡ fits_before_of self.now n }
    {
        self.start >= 25 && size <= self.start - 25
    }

    // Where a list of so many bytes is put, once that is not refused.
    fn place_for(&self, size: u64) -> u64
        requires { list_refusal_of self.now size ≡ None }
        ensures place { result ≡ place_of self.now size }
        ensures small { self.now.bank.start < 2 ^ 64 }
    {
        let _start = self.start;
        if self.fits_before(size) {
            return 25;
        }
        self.end() + 1
    }

    /// The refusal of a list of so many bytes that comes before any call on the disk: whoever knows the bytes asks
    /// before the list is made.
    pub fn list_refusal(&self, size: u64) -> Option<JournalError>
        ensures { (n : ℕ) → size ≡ min n (2 ^ 64 - 1) → result ≡ list_refusal_of self.now n }
    {
        if self.down {
            return Some(JournalError::Down);
        }
        if self.fits_before(size) {
            return None;
        }
        let end = self.end();
        if end.saturating_add(1).saturating_add(size) > JOURNAL_BYTES {
            return Some(JournalError::Full {
                end,
                needed: size.saturating_add(1),
            });
        }
        None
    }
}
