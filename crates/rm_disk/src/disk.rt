//! The traits of a disk, and of one that can be told to fail and to crash.

ghost use Rattle.std.specs.Prelude.{◌≡◌, ◌+◌, ◌≤◌, ℕ, ◌∷◌, Bool, List, Option, length, slice_range, IsTrue, is_ok};
ghost use Rattle.std.specs.Prelude.{is_err, IsOk, IfOk, OnOk, OnErr, None, if◌then◌else◌};
ghost use Rattle.rm_disk.specs.Call.{Call, Wrote, WriteFailed, CutTo, CutFailed, Synced, SyncFailed, Crashed, seen_of};
ghost use Rattle.rm_disk.specs.Fuse.{Burns, armed};
ghost use Rattle.rm_disk.specs.Told.{Told};
ghost use Rattle.rm_disk.specs.Spare.{Spare, Covers, Spends};
ghost use Rattle.rm_disk.specs.Cause.{HasCause};

use rm_base::{Failed, Memory};

/// A file on a disk: bytes that are read and written in place, and that a crash may lose until they are synced.
/// `write_at` and `sync`, and `len`, `read` and `cut` of `ReadDisk`, are the device calls; none of them takes memory.
pub trait Disk {
    /// Whether contracts see what is on the disk. A disk tells for good or never.
    ghost tells: { Bool };

    /// What it tells: its calls, its fuse, and how often a device call has failed.
    ghost told: { Self → Told };

    /// For how many device calls and bytes there is room.
    ghost spare: { Self → Spare };

    /// Makes room for so many calls that change the disk, and so many bytes written by them. It is no device call.
    /// - `covers`, `enough`: no device call that is covered takes memory; Ok comes where there is room already.
    fn reserve(&mut self, calls: u64, bytes: u64) -> Result<(), Memory>
        ensures covers { OnOk result (Covers (spare self.new) calls bytes) }
        ensures spare { Spends 0 0 (spare self.old) (spare self.new) }
        ensures enough { Covers (spare self.old) calls bytes → IsOk result }
        ensures past { IsTrue tells → (told self.new).past ≡ (told self.old).past }
        ensures fuse { IsTrue tells → (told self.new).fuse ≡ (told self.old).fuse }
        ensures faults { (told self.new).faults ≡ (told self.old).faults };

    /// Writes over what is there, and past the end.
    /// - `past`: `write_at`, `cut` and `sync` are one call more in the list of calls, or one that failed.
    fn write_at(&mut self, at: u64, bytes: &[u8]) -> Result<(), Failed>
        requires within { IsTrue tells → at ≤ length (seen_of (told self.old).past) }
        requires room { Covers (spare self.old) 1 (length bytes.now) }
        ensures past { IsTrue tells → (told self.new).past
            ≡ (if is_ok result then Wrote at bytes.now else WriteFailed at (length bytes.now)) ∷ (told self.old).past }
        ensures fuse { IsTrue tells → Burns 1 (told self.old).fuse (told self.new).fuse (is_ok result) }
        ensures cause { HasCause (told self.old).faults (told self.new).faults (is_err result) }
        ensures spare { Spends 1 (length bytes.now) (spare self.old) (spare self.new) };

    /// After it a crash leaves what a read gives.
    fn sync(&mut self) -> Result<(), Failed>
        requires { Covers (spare self.old) 1 0 }
        ensures past { IsTrue tells →
            (told self.new).past ≡ (if is_ok result then Synced else SyncFailed) ∷ (told self.old).past }
        ensures fuse { IsTrue tells → Burns 1 (told self.old).fuse (told self.new).fuse (is_ok result) }
        ensures cause { HasCause (told self.old).faults (told self.new).faults (is_err result) }
        ensures spare { Spends 1 0 (spare self.old) (spare self.new) };
}

/// A disk that is read, asked for its length and cut besides.
pub trait ReadDisk: Disk {
    /// The number of bytes.
    /// - `fuse`: on a disk that tells, each device call fails exactly where the fuse says.
    /// - `cause`: on any disk, a device call fails only where the count of faults rose, and the count stays where it
    ///   doesn't.
    fn len(&mut self) -> Result<u64, Failed>
        ensures gives { IsTrue Self.tells → IfOk result (λ len. len ≡ length (seen_of (Self.told self.old).past)) }
        ensures past { IsTrue Self.tells → (Self.told self.new).past ≡ (Self.told self.old).past }
        ensures fuse { IsTrue Self.tells → Burns 1 (Self.told self.old).fuse (Self.told self.new).fuse (is_ok result) }
        ensures cause { HasCause (Self.told self.old).faults (Self.told self.new).faults (is_err result) }
        ensures spare { Spends 0 0 (Self.spare self.old) (Self.spare self.new) };

    /// Fills the buffer with the bytes from a place on. After a failure the buffer holds anything.
    fn read(&mut self, at: u64, buf: &mut [u8]) -> Result<(), Failed>
        requires { IsTrue Self.tells → at + length buf.old ≤ length (seen_of (Self.told self.old).past) }
        ensures gives { IsTrue Self.tells → OnOk result (buf.new ≡ slice_range (seen_of (Self.told self.old).past) at
            (at + length buf.old)) }
        ensures past { IsTrue Self.tells → (Self.told self.new).past ≡ (Self.told self.old).past }
        ensures fuse { IsTrue Self.tells → Burns 1 (Self.told self.old).fuse (Self.told self.new).fuse (is_ok result) }
        ensures cause { HasCause (Self.told self.old).faults (Self.told self.new).faults (is_err result) }
        ensures spare { Spends 0 0 (Self.spare self.old) (Self.spare self.new) };

    /// Cuts the file to a length.
    fn cut(&mut self, len: u64) -> Result<(), Failed>
        requires within { IsTrue Self.tells → len ≤ length (seen_of (Self.told self.old).past) }
        requires room { Covers (Self.spare self.old) 1 0 }
        ensures past { IsTrue Self.tells →
            (Self.told self.new).past
            ≡ (if is_ok result then CutTo len else CutFailed len) ∷ (Self.told self.old).past }
        ensures fuse { IsTrue Self.tells → Burns 1 (Self.told self.old).fuse (Self.told self.new).fuse (is_ok result) }
        ensures cause { HasCause (Self.told self.old).faults (Self.told self.new).faults (is_err result) }
        ensures spare { Spends 1 0 (Self.spare self.old) (Self.spare self.new) };
}

/// A disk that can be told to fail and to crash, and always tells what is on it.
pub trait CrashDisk: ReadDisk {
    /// From now on the device call of this number fails, counted from 1, and so does each after it, until a crash.
    /// It takes the place of an earlier `arm`, unless a call has failed by that already.
    fn arm(&mut self, calls: u64)
        requires { 1 ≤ calls }
        ensures fuse { (Self.told self.new).fuse ≡ armed calls (Self.told self.old).fuse }
        ensures past { (Self.told self.new).past ≡ (Self.told self.old).past }
        ensures faults { (Self.told self.new).faults ≡ (Self.told self.old).faults }
        ensures spare { Self.spare self.new ≡ Self.spare self.old };

    /// The machine stops and starts again, and no call fails from then on until an `arm`. Of what wasn't synced
    /// choice 0 keeps nothing and choice 1 all. Choice 2 leaves the greatest length and ones in the places that
    /// may hold anything, choice 3 the smallest length and zeros there. What was spare may be gone.
    /// - `past`: where it wants memory nothing has changed.
    fn crash(&mut self, choice: u8) -> Result<(), Memory>
        requires { choice ≤ 3 }
        ensures past { (Self.told self.new).past
            ≡ (if is_ok result then Crashed choice ∷ (Self.told self.old).past else (Self.told self.old).past) }
        ensures fuse { (Self.told self.new).fuse ≡ (if is_ok result then None else (Self.told self.old).fuse) }
        ensures faults { (Self.told self.new).faults ≡ (Self.told self.old).faults };

    /// It tells.
    ghost always_tells: { IsTrue Self.tells };
}
