//! A disk that is a file in the current folder.
ghost use Rattle.std.specs.Prelude.{◌≡◌, ◌-◌, ◌^◌, ℕ, [], false, None, is_err};
ghost use Rattle.rm_disk.specs.Cause.{HasCause};

use crate::file::fault::{Fault, named};
use crate::{Disk, ReadDisk};
use rm_base::{Failed, Memory};
use std::fs::{File, Files, OpenOptions, TryLockError};
use std::os::unix::fs::FileExt;

/// The name of the file.
pub const NAME: &str = "wsrm.journal";

/// The file `wsrm.journal` in the current folder, made or found at the first call. It is locked for as long as it is
/// open; where another process has it locked, each call fails and nothing is written.
#[derive(Drop)]
pub struct FileDisk<R: Files> {
    files: R,
    file: Option<R::File>,
    faults: u64,
    last: Option<Fault>,
}

impl<R: Files<File = File>> FileDisk<R> {
    /// A disk on these files. It makes no call yet.
    pub fn new(files: R) -> Self
        ensures { result.faults ≡ 0 }
    {
        FileDisk {
            files,
            file: None,
            faults: 0,
            last: None,
        }
    }

    /// What failed last, where a call failed.
    pub fn last_fault(&self) -> Option<&Fault> {
        self.last.as_ref()
    }
}

// The file, opened at the first call.
fn opened<'a, R: Files<File = File>>(
    files: &R,
    place: &'a mut Option<File>,
) -> Result<&'a mut File, Fault> {
    if place.is_none() {
        *place = Some(found_or_made(files)?);
    }
    match place {
        Some(file) => Ok(file),
        None => unreachable!(),
    }
}

// Opens the file, makes it where there is none, locks it, and sees to it that its name is on the disk.
fn found_or_made<R: Files<File = File>>(files: &R) -> Result<File, Fault> {
    let open = OpenOptions::new()
        .read(true)
        .write(true)
        .create(true)
        .open(files, NAME);
    let file = named("open", open)?;
    match file.try_lock() {
        Ok(()) => {}
        Err(TryLockError::WouldBlock) => return Err(Fault::Held),
        Err(TryLockError::Error(error)) => {
            return Err(Fault::Refused {
                call: "lock",
                error,
            });
        }
    }
    let folder = named("open its folder", File::open(files, "."))?;
    named("sync its folder", folder.sync_all())?;
    Ok(file)
}

// Counts a call that failed, and keeps why.
pub(crate) fn counted<T: Drop>(
    faults: &mut u64,
    last: &mut Option<Fault>,
    outcome: Result<T, Fault>,
) -> Result<T, Failed>
    ensures { HasCause faults.old faults.new (is_err result) }
{
    match outcome {
        Ok(value) => Ok(value),
        Err(fault) => {
            *faults = faults.saturating_add(1);
            *last = Some(fault);
            Err(Failed)
        }
    }
}

fn try_len<R: Files<File = File>>(files: &R, place: &mut Option<File>) -> Result<u64, Fault> {
    let metadata = named("stat", opened(files, place)?.metadata())?;
    Ok(metadata.len())
}

fn try_read<R: Files<File = File>>(
    files: &R,
    place: &mut Option<File>,
    at: u64,
    buf: &mut [u8],
) -> Result<(), Fault> {
    named("read", opened(files, place)?.read_exact_at(buf, at))
}

fn try_write<R: Files<File = File>>(
    files: &R,
    place: &mut Option<File>,
    at: u64,
    bytes: &[u8],
) -> Result<(), Fault> {
    named("write", opened(files, place)?.write_all_at(bytes, at))
}

fn try_cut<R: Files<File = File>>(
    files: &R,
    place: &mut Option<File>,
    len: u64,
) -> Result<(), Fault> {
    named("cut", opened(files, place)?.set_len(len))
}

fn try_sync<R: Files<File = File>>(files: &R, place: &mut Option<File>) -> Result<(), Fault> {
    named("sync", opened(files, place)?.sync_data())
}

impl<R: Files<File = File>> Disk for FileDisk<R> {
    ghost use Rattle.rm_disk.specs.Spare.{Spare};
    ghost use Rattle.rm_disk.specs.Told.{Told};

    ghost tells = { false };

    ghost told = { λ d. record { past = []; fuse = None; faults = d.faults } };

    ghost spare = { λ _. record { calls = 2 ^ 64 - 1; bytes = 2 ^ 64 - 1 } };

    fn reserve(&mut self, _calls: u64, _bytes: u64) -> Result<(), Memory> {
        Ok(())
    }

    fn write_at(&mut self, at: u64, bytes: &[u8]) -> Result<(), Failed> {
        let outcome = try_write(&self.files, &mut self.file, at, bytes);
        counted(&mut self.faults, &mut self.last, outcome)
    }

    fn sync(&mut self) -> Result<(), Failed> {
        let outcome = try_sync(&self.files, &mut self.file);
        counted(&mut self.faults, &mut self.last, outcome)
    }
}

impl<R: Files<File = File>> ReadDisk for FileDisk<R> {
    fn len(&mut self) -> Result<u64, Failed> {
        let outcome = try_len(&self.files, &mut self.file);
        counted(&mut self.faults, &mut self.last, outcome)
    }

    fn read(&mut self, at: u64, buf: &mut [u8]) -> Result<(), Failed> {
        let outcome = try_read(&self.files, &mut self.file, at, buf);
        counted(&mut self.faults, &mut self.last, outcome)
    }

    fn cut(&mut self, len: u64) -> Result<(), Failed> {
        let outcome = try_cut(&self.files, &mut self.file, len);
        counted(&mut self.faults, &mut self.last, outcome)
    }
}
