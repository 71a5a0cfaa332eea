//! The file of a node, as it stands, for one who changes nothing.
ghost use Rattle.std.specs.Prelude.{◌≡◌, ◌-◌, ◌^◌, ℕ, [], false, None, is_err};

use crate::file::fault::{Fault, named};
use crate::file::file::{NAME, counted};
use crate::{Disk, ReadDisk};
use rm_base::{Failed, Memory};
use std::fs::{File, Files};
use std::io::ErrorKind;
use std::os::unix::fs::FileExt;

/// The file `wsrm.journal` in the current folder, opened at the first call for reading alone and without its lock, so
/// that it is read beside a process that has it. Where there is no such file, it reads as an empty one. A call that
/// would change it fails, and a sync does nothing.
#[derive(Drop)]
pub struct FileReader<R: Files> {
    files: R,
    file: Option<R::File>,
    faults: u64,
    last: Option<Fault>,
}

impl<R: Files<File = File>> FileReader<R> {
    /// A reader of these files. It makes no call yet.
    pub fn new(files: R) -> Self
        ensures { result.faults ≡ 0 }
    {
        FileReader {
            files,
            file: None,
            faults: 0,
            last: None,
        }
    }

    /// What failed last, where a call failed.
    pub fn last_fault(&self) -> Option<&Fault> {
        self.last.as_ref()
    }
}

// The file, opened at the first call that finds one.
fn found<'a, R: Files<File = File>>(
    files: &R,
    place: &'a mut Option<File>,
) -> Result<Option<&'a mut File>, Fault> {
    if place.is_none() {
        match File::open(files, NAME) {
            Ok(file) => *place = Some(file),
            Err(error) => {
                if error.kind() == ErrorKind::NotFound {
                    return Ok(None);
                }
                return Err(Fault::Refused {
                    call: "open",
                    error,
                });
            }
        }
    }
    Ok(place.as_mut())
}

fn try_len<R: Files<File = File>>(files: &R, place: &mut Option<File>) -> Result<u64, Fault> {
    match found(files, place)? {
        Some(file) => {
            let metadata = named("stat", file.metadata())?;
            Ok(metadata.len())
        }
        None => Ok(0),
    }
}

fn try_read<R: Files<File = File>>(
    files: &R,
    place: &mut Option<File>,
    at: u64,
    buf: &mut [u8],
) -> Result<(), Fault> {
    match found(files, place)? {
        Some(file) => named("read", file.read_exact_at(buf, at)),
        None if buf.is_empty() => Ok(()),
        None => Err(Fault::Missing),
    }
}

impl<R: Files<File = File>> Disk for FileReader<R> {
    ghost use Rattle.rm_disk.specs.Spare.{Spare};
    ghost use Rattle.rm_disk.specs.Told.{Told};

    ghost tells = { false };

    ghost told = { λ d. record { past = []; fuse = None; faults = d.faults } };

    ghost spare = { λ _. record { calls = 2 ^ 64 - 1; bytes = 2 ^ 64 - 1 } };

    fn reserve(&mut self, _calls: u64, _bytes: u64) -> Result<(), Memory> {
        Ok(())
    }

    fn write_at(&mut self, _at: u64, _bytes: &[u8]) -> Result<(), Failed> {
        counted(&mut self.faults, &mut self.last, Err(Fault::ReadAlone))
    }

    fn sync(&mut self) -> Result<(), Failed> {
        Ok(())
    }
}

impl<R: Files<File = File>> ReadDisk for FileReader<R> {
    fn len(&mut self) -> Result<u64, Failed> {
        let outcome = try_len(&self.files, &mut self.file);
        counted(&mut self.faults, &mut self.last, outcome)
    }

    fn read(&mut self, at: u64, buf: &mut [u8]) -> Result<(), Failed> {
        let outcome = try_read(&self.files, &mut self.file, at, buf);
        counted(&mut self.faults, &mut self.last, outcome)
    }

    fn cut(&mut self, _len: u64) -> Result<(), Failed> {
        counted(&mut self.faults, &mut self.last, Err(Fault::ReadAlone))
    }
}
