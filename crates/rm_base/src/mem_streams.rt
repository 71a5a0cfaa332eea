//! Sources, sinks and connections over memory, of which chosen calls fail.
ghost use Rattle.std.specs.Prelude.{◌≡◌, ◌≢◌, ℕ, ◌≤◌, ◌+◌, ◌<◌, List, Bool, true, false, [], length, drop, take, min};
ghost use Rattle.std.specs.Prelude.{Some, None, Err, Ok, ◌==◌, IsTrue, ◌↔◌, OnErr, MatchResult, IfOk, is_ok, is_err};
ghost use Rattle.std.specs.Io.{ReadsAtMost, WritesAtMost};
ghost use Rattle.std.specs.Io.KnownBytes.{ReadConsumes, WriteAppends};
ghost use Rattle.rm_base.specs.Count.{Rose, raised_by};
ghost use Rattle.rm_base.specs.NumberSet.{has_number};
ghost use Rattle.rm_base.specs.Outside.{Lasts, reading_told, writing_told, talking_told};
ghost use Rattle.rm_base.specs.Outside.{is_to_fail, after_call, moved_by, after_read, after_write, after_send};

use crate::blob::Blob;
use crate::failures::Failed;
use crate::items::Numbers;
use crate::outside::{Connection, Sink, SinkError, Source};
use std::alloc::Global;
use std::marker::Model;

/// A source over bytes in memory, of which chosen calls fail.
#[derive(Debug, Drop)]
pub struct MemSource {
    bytes: Blob,
    at: usize,
    fail_at: Numbers,
    calls: u64,
    faults: u64,
    taken: u64,
}

impl Model for MemSource {
    ghost use Rattle.std.specs.Prelude.{◌≤◌, length, drop};
    ghost use Rattle.rm_base.specs.Outside.{Reading};

    ghost Value = { Reading };

    ghost view = { λ s. record {
      left = drop s.at s.bytes;
      fail_at = s.fail_at;
      calls = s.calls;
      faults = s.faults;
      taken = s.taken;
    } };

    ghost invariant = { λ s. s.at ≤ length s.bytes };
}

impl MemSource {
    /// A source that has these bytes left, and whose calls with these numbers fail, counted from 1. Reads and writes of
    /// a connection are counted together.
    pub fn new(bytes: Blob, fail_at: Numbers) -> Self
        ensures { result ≡ record { left = bytes; fail_at = fail_at; calls = 0; faults = 0; taken = 0 } }
    {
        MemSource {
            bytes,
            at: 0,
            fail_at,
            calls: 0,
            faults: 0,
            taken: 0,
        }
    }

    // Counts a call, and a fault where the call is one of those that fail.
    fn count_call(&mut self) -> Result<(), Failed>
        ensures fails { is_err result ≡ is_to_fail self.old.fail_at self.old.calls }
        ensures after { self.new ≡ after_call self.old }
        ensures never_falls { self.old.faults ≤ self.new.faults }
        ensures failed { OnErr result (Rose self.old.faults self.new.faults) }
        ensures sound { (length self.old.fail_at == 0) ≡ true → self.new.faults ≡ self.old.faults }
    {
        self.calls = self.calls.saturating_add(1);
        if is_among(self.fail_at.as_slice(), self.calls) {
            self.faults = self.faults.saturating_add(1);
            return Err(Failed);
        }
        Ok(())
    }
}

impl Source for MemSource {
    ghost told = { reading_told };

    /// Moves as many of the bytes that are left as there is room for.
    fn read(&mut self, buf: &mut [u8]) -> Result<usize, Failed>
        ensures bound { ReadsAtMost result buf.new }
        ensures moved { ReadConsumes (Some self.old.left) (Some self.new.left) result buf.new }
        ensures counted { MatchResult result (λ n. self.new.taken ≡ raised_by self.old.taken n)
            (λ _. self.new.taken ≡ self.old.taken) }
        ensures lasts { Lasts (reading_told self.old) (reading_told self.new) }
        ensures failed { OnErr result (Rose self.old.faults self.new.faults) }
        ensures fails { is_err result ≡ is_to_fail self.old.fail_at self.old.calls }
        ensures count { IfOk result (λ n. n ≡ moved_by self.old (length buf.new)) }
        ensures after { self.new ≡ after_read self.old (length buf.new) }
    {
        self.calls = self.calls.saturating_add(1);
        if is_among(self.fail_at.as_slice(), self.calls) {
            self.faults = self.faults.saturating_add(1);
            return Err(Failed);
        }
        let count = copy_front(self.bytes.as_slice().split_at(self.at).1, buf);
        self.at += count;
        self.taken = self.taken.saturating_add(count as u64);
        Ok(count)
    }
}

// Whether the number is one of these.
fn is_among(numbers: &[u64], number: u64) -> bool
    ensures { result ≡ has_number numbers.now number }
{
    numbers.contains(&number)
}

// Copies as many of the first bytes as there is room for, and answers how many.
fn copy_front(from: &[u8], to: &mut [u8]) -> usize
    ensures count { result ≡ min (length from.now) (length to.new) }
    ensures front { take result to.new ≡ take result from.now }
{
    let count = from.len().min(to.len());
    to[..count].copy_from_slice(&from[..count]);
    count
}

/// A sink over memory, of which chosen calls fail.
#[derive(Debug, Drop)]
pub struct MemSink {
    written: Blob,
    fail_at: Numbers,
    calls: u64,
    faults: u64,
}

impl Model for MemSink {
    ghost use Rattle.rm_base.specs.Outside.{Writing};

    ghost Value = { Writing };

    ghost view = { λ s. record { written = s.written; fail_at = s.fail_at; calls = s.calls; faults = s.faults } };
}

impl MemSink {
    /// An empty sink, whose calls with these numbers fail, counted from 1.
    pub fn new(alloc: Global, fail_at: Numbers) -> Self
        ensures { result ≡ record { written = []; fail_at = fail_at; calls = 0; faults = 0 } }
    {
        MemSink {
            written: Blob::new(alloc),
            fail_at,
            calls: 0,
            faults: 0,
        }
    }

    /// All bytes that were written.
    pub fn as_slice(&self) -> &[u8]
        ensures { result.now ≡ self.now.written }
    {
        self.written.as_slice()
    }
}

impl Sink for MemSink {
    ghost told = { writing_told };

    /// Takes the whole piece.
    fn write(&mut self, bytes: &[u8]) -> Result<usize, SinkError>
        ensures bound { WritesAtMost result bytes.now }
        ensures moved { WriteAppends (Some self.old.written) (Some self.new.written) result bytes.now }
        ensures lasts { Lasts (writing_told self.old) (writing_told self.new) }
        ensures failed { result ≡ Err SinkError.Failed → Rose self.old.faults self.new.faults }
        ensures nothing { result ≡ Ok 0 → 0 < length bytes.now → Rose self.old.faults self.new.faults }
        ensures memory { true ≡ false → result ≢ Err SinkError.Memory }
        ensures fails { (result ≡ Err SinkError.Failed) ↔ (is_to_fail self.old.fail_at self.old.calls ≡ true) }
        ensures whole { IfOk result (λ n. n ≡ length bytes.now) }
        ensures after { self.new ≡ after_write self.old bytes.now (is_ok result) }
    {
        self.calls = self.calls.saturating_add(1);
        if is_among(self.fail_at.as_slice(), self.calls) {
            self.faults = self.faults.saturating_add(1);
            return Err(SinkError::Failed);
        }
        match self.written.push_all(bytes) {
            Ok(()) => Ok(bytes.len()),
            Err(_) => Err(SinkError::Memory),
        }
    }
}

/// A connection over memory: a source over the bytes that come in, and a sink for those that go out. Its reads and
/// writes are numbered together.
#[derive(Debug, Drop)]
pub struct MemConn {
    source: MemSource,
    written: Blob,
}

impl Model for MemConn {
    ghost use Rattle.rm_base.specs.Outside.{Talking};

    ghost Value = { Talking };

    ghost view = { λ c. record { reading = c.source; written = c.written } };
}

impl MemConn {
    /// A connection on which these bytes come in, and whose calls with these numbers fail, counted from 1.
    pub fn new(alloc: Global, input: Blob, fail_at: Numbers) -> Self
        ensures { result ≡ record {
          reading = record { left = input; fail_at = fail_at; calls = 0; faults = 0; taken = 0 };
          written = [];
        } }
    {
        MemConn {
            source: MemSource::new(input, fail_at),
            written: Blob::new(alloc),
        }
    }

    /// All bytes that were written.
    pub fn written(&self) -> &[u8]
        ensures { result.now ≡ self.now.written }
    {
        self.written.as_slice()
    }
}

impl Source for MemConn {
    ghost told = { talking_told };

    /// Moves as many of the bytes that are left as there is room for.
    fn read(&mut self, buf: &mut [u8]) -> Result<usize, Failed>
        ensures bound { ReadsAtMost result buf.new }
        ensures moved { ReadConsumes (Some self.old.reading.left) (Some self.new.reading.left) result buf.new }
        ensures keeps { Some self.new.written ≡ Some self.old.written }
        ensures counted { MatchResult result (λ n. self.new.reading.taken ≡ raised_by self.old.reading.taken n)
            (λ _. self.new.reading.taken ≡ self.old.reading.taken) }
        ensures lasts { Lasts (talking_told self.old) (talking_told self.new) }
        ensures failed { OnErr result (Rose self.old.reading.faults self.new.reading.faults) }
        ensures fails { is_err result ≡ is_to_fail self.old.reading.fail_at self.old.reading.calls }
        ensures count { IfOk result (λ n. n ≡ moved_by self.old.reading (length buf.new)) }
        ensures after { self.new ≡ record self.old { reading = after_read self.old.reading (length buf.new) } }
    {
        self.source.read(buf)
    }
}

impl Sink for MemConn {
    ghost told = { talking_told };

    /// Takes the whole piece.
    fn write(&mut self, bytes: &[u8]) -> Result<usize, SinkError>
        ensures bound { WritesAtMost result bytes.now }
        ensures moved { WriteAppends (Some self.old.written) (Some self.new.written) result bytes.now }
        ensures keeps { Some self.new.reading.left ≡ Some self.old.reading.left }
        ensures keeps_taken { self.new.reading.taken ≡ self.old.reading.taken }
        ensures lasts { Lasts (talking_told self.old) (talking_told self.new) }
        ensures failed { result ≡ Err SinkError.Failed → Rose self.old.reading.faults self.new.reading.faults }
        ensures nothing { result ≡ Ok 0 → 0 < length bytes.now → Rose self.old.reading.faults self.new.reading.faults }
        ensures memory { true ≡ false → result ≢ Err SinkError.Memory }
        ensures fails { (result ≡ Err SinkError.Failed)
            ↔ (is_to_fail self.old.reading.fail_at self.old.reading.calls ≡ true) }
        ensures whole { IfOk result (λ n. n ≡ length bytes.now) }
        ensures after { self.new ≡ after_send self.old bytes.now (is_ok result) }
    {
        if let Err(Failed) = self.source.count_call() {
            return Err(SinkError::Failed);
        }
        match self.written.push_all(bytes) {
            Ok(()) => Ok(bytes.len()),
            Err(_) => Err(SinkError::Memory),
        }
    }
}

impl Connection for MemConn {
    ghost use Rattle.std.specs.Prelude.{refl};

    ghost one = { λ c. refl };
}
