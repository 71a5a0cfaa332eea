//! A disk in memory that tells nothing of what is on it, so that a test owes no proof of what it does with it.
ghost use Rattle.std.specs.Prelude.{◌≡◌, [], false, None, is_err};
ghost use Rattle.rm_disk.specs.Cause.{HasCause};
ghost use Rattle.rm_disk.specs.MemDisk.{faults_of, past_of, spare_of};
ghost use Rattle.rm_disk.specs.Spare.{Spends};

use rm_base::{Failed, Memory};
use rm_disk::{CrashDisk, Disk, MemDisk, ReadDisk};
use std::alloc::Global;

/// A disk, and how many device calls are left up to the first that fails, where one is to.
#[derive(Drop)]
pub(crate) struct Device {
    disk: MemDisk,
    left: Option<u64>,
}

impl Device {
    pub(crate) fn new(alloc: Global) -> Self {
        Device {
            disk: MemDisk::new(alloc),
            left: None,
        }
    }

    /// From now on the device call of this number fails, counted from 1, and so does each after it, until a crash.
    pub(crate) fn arm(&mut self, calls: u64) {
        self.left = Some(calls);
    }

    /// The machine stops and starts again. The choices go up to 3.
    pub(crate) fn crash(&mut self, choice: u8) -> Result<(), Memory> {
        self.left = None;
        self.disk.crash(choice.min(3))
    }

    /// Another byte stands so many bytes before the end from now on.
    pub(crate) fn turn(&mut self, back: u64, byte: u8) -> Result<(), Memory> {
        self.reserve(1, 1)?;
        let Ok(len) = self.len() else {
            return Ok(());
        };
        let _ = self.write_at(len.saturating_sub(back), &[byte]);
        Ok(())
    }

    // One device call is made now: where it is the one that fails, the disk is told so.
    fn count(&mut self)
        ensures past { past_of self.new.disk ≡ past_of self.old.disk }
        ensures faults { faults_of self.new.disk ≡ faults_of self.old.disk }
        ensures spare { spare_of self.new.disk ≡ spare_of self.old.disk }
    {
        let Some(left) = self.left else {
            return;
        };
        if left <= 1 {
            self.disk.arm(1);
        }
        self.left = Some(left.saturating_sub(1));
    }

    // A call that asks for bytes that aren't there fails.
    fn refused(&mut self) -> Result<(), Failed>
        ensures cause { HasCause (faults_of self.old.disk) (faults_of self.new.disk) (is_err result) }
        ensures spare { Spends 0 0 (spare_of self.old.disk) (spare_of self.new.disk) }
    {
        self.disk.arm(1);
        self.disk.read(0, &mut [])
    }
}

impl Disk for Device {
    ghost use Rattle.rm_disk.specs.MemDisk.{faults_of, spare_of};

    ghost tells = { false };

    ghost told = { λ d. record { past = []; fuse = None; faults = faults_of d.disk } };

    ghost spare = { λ d. spare_of d.disk };

    fn reserve(&mut self, calls: u64, bytes: u64) -> Result<(), Memory> {
        self.disk.reserve(calls, bytes)
    }

    fn write_at(&mut self, at: u64, bytes: &[u8]) -> Result<(), Failed> {
        let len = self.disk.len()?;
        if at > len {
            return self.refused();
        }
        self.count();
        self.disk.write_at(at, bytes)
    }

    fn sync(&mut self) -> Result<(), Failed> {
        self.count();
        self.disk.sync()
    }
}

impl ReadDisk for Device {
    fn len(&mut self) -> Result<u64, Failed> {
        self.count();
        self.disk.len()
    }

    fn read(&mut self, at: u64, buf: &mut [u8]) -> Result<(), Failed> {
        let len = self.disk.len()?;
        if at > len || buf.len() as u64 > len - at {
            return self.refused();
        }
        self.count();
        self.disk.read(at, buf)
    }

    fn cut(&mut self, len: u64) -> Result<(), Failed> {
        let present = self.disk.len()?;
        if len > present {
            return self.refused();
        }
        self.count();
        self.disk.cut(len)
    }
}
