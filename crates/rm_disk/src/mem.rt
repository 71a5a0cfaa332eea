//! A disk in memory.

ghost use Rattle.std.specs.Prelude.{◌≡◌, ℕ, ◌+◌, ◌<◌, ◌≤◌, [], ◌∷◌, ◌++◌, true, None, refl, length, sum_by, vec_len};
ghost use Rattle.std.specs.Prelude.{vec_capacity, is_ok, is_err, IsTrue, IfOk};
ghost use Rattle.rm_disk.specs.Call.{state, filled, left_by};
ghost use Rattle.rm_disk.specs.Mem.{AgreeOutside};
ghost use Rattle.rm_disk.specs.Cause.{HasCause};
ghost use Rattle.rm_disk.specs.Fuse.{Burns};
ghost use Rattle.rm_disk.specs.Mem.{calls_of, used_by, content};

use crate::disk::{CrashDisk, Disk, ReadDisk};
use crate::note::Note;
use crate::patch::{overwrite, patch};
use rm_base::{Failed, Memory};
use std::alloc::{AllocError, Global};

/// A disk in memory. It fails only once it is armed.
///
/// It keeps every byte that was ever written to it, and a note of three words for each call that changed it or failed
/// to. What might have been left since an earlier moment follows from those calls, and contracts see nothing that no
/// field holds. So its memory grows with all that was written and not with the file, and neither a cut nor a crash
/// gives any back; room for a byte is made three times, in the file, in what the last sync left and in the row of all
/// writes. It is meant for disks that live as long as a test or a script.
#[derive(Debug)]
pub struct MemDisk {
    alloc: Global,

    // The calls since it was made, oldest first, and the bytes of all writes in a row. Contracts see them, and no call
    // reads them.
    notes: Vec<Note>,
    wrote: Vec<u8>,

    file: Vec<u8>,
    synced: Vec<u8>,
    low: usize,
    high: usize,
    ranges: Vec<(usize, usize)>,

    fuse: Option<u64>,
    faults: u64,
    spare_calls: usize,
    spare_bytes: usize,

    ghost content: { state (calls_of notes.items wrote.items) ≡ content file.items synced.items low high ranges.items },
    ghost all_used: { sum_by used_by notes.items ≡ length wrote.items },

    ghost room_notes: { vec_len notes + spare_calls ≤ vec_capacity notes },
    ghost room_ranges: { vec_len ranges + spare_calls ≤ vec_capacity ranges },
    ghost room_wrote: { vec_len wrote + spare_bytes ≤ vec_capacity wrote },
    ghost room_file: { vec_len file + spare_bytes ≤ vec_capacity file },
    ghost room_synced: { vec_len file + spare_bytes ≤ vec_capacity synced },
}

impl Drop for MemDisk {
    fn drop(self) {
        let MemDisk {
            alloc: _,
            notes: _,
            wrote: _,
            file: _,
            synced: _,
            low: _,
            high: _,
            ranges: _,
            fuse: _,
            faults: _,
            spare_calls: _,
            spare_bytes: _,
        } = self;
    }
}

/// One device call: whether it goes well.
fn burn(fuse: &mut Option<u64>, faults: &mut u64) -> Result<(), Failed>
    ensures fuse { Burns 1 fuse.old fuse.new (is_ok result) }
    ensures cause { HasCause faults.old faults.new (is_err result) }
{
    let Some(left) = *fuse else {
        return Ok(());
    };
    *fuse = Some(left.saturating_sub(1));
    if left > 1 {
        return Ok(());
    }
    *faults = faults.saturating_add(1);
    Err(Failed)
}

/// One more item, in the room that there is.
fn push<T: Drop>(items: &mut Vec<T>, item: T)
    requires { vec_len items.old < vec_capacity items.old }
    ensures items { items.new.items ≡ items.old.items ++ item ∷ [] }
    ensures capacity { vec_capacity items.old ≤ vec_capacity items.new }
{
    items.push(item).unwrap();
}

/// More bytes, in the room that there is.
fn append(items: &mut Vec<u8>, more: &[u8])
    requires { vec_len items.old + length more.now ≤ vec_capacity items.old }
    ensures items { items.new.items ≡ items.old.items ++ more.now }
    ensures capacity { vec_capacity items.old ≤ vec_capacity items.new }
{
    items.extend_from_slice(more).unwrap();
}

/// Makes `synced` the same as the file, where they differ only in the ranges and from a length on.
fn settle(synced: &mut Vec<u8>, file: &[u8], ranges: &[(usize, usize)], low: usize)
    requires file { low ≤ length file.now }
    requires synced { low ≤ length synced.old.items }
    requires room { length file.now ≤ vec_capacity synced.old }
    requires alike { AgreeOutside ranges.now low synced.old.items file.now }
    ensures bytes { synced.new.items ≡ file.now }
    ensures capacity { vec_capacity synced.old ≤ vec_capacity synced.new }
{
    synced.truncate(low);
    append(synced, &file[low..]);
    patch(synced, ranges, file);
}

impl MemDisk {
    ghost use Rattle.rm_disk.specs.MemDisk.{past_of, fuse_of, faults_of, state_of};

    /// A disk of no bytes. It takes no memory. It has no fuse and no faults, tells and can crash.
    pub fn new(alloc: Global) -> Self
        ensures past { past_of result ≡ [] }
        ensures fuse { fuse_of result ≡ None }
        ensures faults { faults_of result ≡ 0 }
    {
        MemDisk {
            alloc,
            notes: Vec::new(alloc),
            wrote: Vec::new(alloc),
            file: Vec::new(alloc),
            synced: Vec::new(alloc),
            low: 0,
            high: 0,
            ranges: Vec::new(alloc),
            fuse: None,
            faults: 0,
            spare_calls: 0,
            spare_bytes: 0,
        }
    }

    // So many bytes: this one in each place that may hold anything, and in each other what a read gives.
    fn filled(&self, byte: u8, len: usize) -> Result<Vec<u8>, AllocError>
        requires { self.now.low ≤ len }
        ensures { IfOk result (λ left. left.items ≡ filled (state_of self.now) byte len) }
    {
        let mut left = Vec::from_slice(self.alloc, &self.file[..self.low])?;
        let source = vec![in self.alloc; byte; self.low]?;
        patch(&mut left, &self.ranges, &source);
        left.resize(len, byte)?;
        Ok(left)
    }

    // What a crash of this choice leaves.
    fn left_by(&self, choice: u8) -> Result<Vec<u8>, AllocError>
        ensures { IfOk result (λ left. left.items ≡ left_by choice (state_of self.now)) }
    {
        match choice {
            0 => Vec::from_slice(self.alloc, &self.synced),
            1 => Vec::from_slice(self.alloc, &self.file),
            2 => self.filled(1, self.high),
            _ => self.filled(0, self.low),
        }
    }
}

impl Disk for MemDisk {
    ghost use Rattle.rm_disk.specs.MemDisk.{told_of, spare_of};

    ghost tells = { true };

    ghost told = { told_of };

    ghost spare = { spare_of };

    fn reserve(&mut self, calls: u64, bytes: u64) -> Result<(), Memory> {
        let calls = self.spare_calls.max(calls as usize);
        let bytes = self.spare_bytes.max(bytes as usize);
        self.notes.reserve(calls)?;
        self.ranges.reserve(calls)?;
        self.wrote.reserve(bytes)?;
        self.file.reserve(bytes)?;
        let want = self.file.len() + bytes;
        self.synced.reserve(want.saturating_sub(self.synced.len()))?;
        self.spare_calls = calls;
        self.spare_bytes = bytes;
        Ok(())
    }

    fn write_at(&mut self, at: u64, bytes: &[u8]) -> Result<(), Failed> {
        let at = at as usize;
        let count = bytes.len();
        self.spare_calls -= 1;
        self.high = self.high.max(at + count);
        push(&mut self.ranges, (at, count));
        if let Err(failed) = burn(&mut self.fuse, &mut self.faults) {
            push(&mut self.notes, Note::FailedWrite { at, count });
            return Err(failed);
        }
        self.spare_bytes -= count;
        push(&mut self.notes, Note::Write { at, count });
        append(&mut self.wrote, bytes);
        overwrite(&mut self.file, at, bytes);
        Ok(())
    }

    fn sync(&mut self) -> Result<(), Failed> {
        self.spare_calls -= 1;
        if let Err(failed) = burn(&mut self.fuse, &mut self.faults) {
            push(&mut self.notes, Note::FailedSync);
            return Err(failed);
        }
        push(&mut self.notes, Note::Sync);
        settle(&mut self.synced, &self.file, &self.ranges, self.low);
        self.ranges.clear();
        self.low = self.file.len();
        self.high = self.file.len();
        Ok(())
    }
}

impl ReadDisk for MemDisk {
    fn len(&mut self) -> Result<u64, Failed> {
        burn(&mut self.fuse, &mut self.faults)?;
        Ok(self.file.len() as u64)
    }

    fn read(&mut self, at: u64, buf: &mut [u8]) -> Result<(), Failed> {
        burn(&mut self.fuse, &mut self.faults)?;
        let at = at as usize;
        buf.copy_from_slice(&self.file[at..at + buf.len()]);
        Ok(())
    }

    fn cut(&mut self, len: u64) -> Result<(), Failed> {
        let len = len as usize;
        self.spare_calls -= 1;
        self.low = self.low.min(len);
        if let Err(failed) = burn(&mut self.fuse, &mut self.faults) {
            push(&mut self.notes, Note::FailedCut { len });
            return Err(failed);
        }
        push(&mut self.notes, Note::Cut { len });
        self.file.truncate(len);
        Ok(())
    }
}

impl CrashDisk for MemDisk {
    ghost always_tells = { refl };

    fn arm(&mut self, calls: u64) {
        if self.fuse != Some(0) {
            self.fuse = Some(calls);
        }
    }

    fn crash(&mut self, choice: u8) -> Result<(), Memory> {
        let file = self.left_by(choice)?;
        let synced = Vec::from_slice(self.alloc, &file)?;
        self.notes.reserve(1)?;
        push(&mut self.notes, Note::Crash { choice });
        self.low = file.len();
        self.high = file.len();
        self.file = file;
        self.synced = synced;
        self.ranges.clear();
        self.fuse = None;
        self.spare_calls = 0;
        self.spare_bytes = 0;
        Ok(())
    }
}
