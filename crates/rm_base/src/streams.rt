//! Sources and sinks over readers and writers of std.
ghost use Rattle.std.specs.Prelude.{◌≡◌, ◌≢◌, ℕ, ◌≤◌, ◌+◌, ◌<◌, List, Bool, true, false, [], length, Some, None, Err};
ghost use Rattle.std.specs.Prelude.{Ok, IsTrue, OnErr, MatchResult, IfOk, is_err};
ghost use Rattle.std.specs.Io.{ReadsAtMost, WritesAtMost};
ghost use Rattle.std.specs.Io.KnownBytes.{ReadConsumes, WriteAppends};
ghost use Rattle.rm_base.specs.Count.{Rose, raised_by};
ghost use Rattle.rm_base.specs.Outside.{Lasts, reader_told, writer_told, counted_if, is_write_fault};

use crate::failures::Failed;
use crate::outside::{Sink, SinkError, Source};
use std::io::{Read, Write};
use std::marker::Model;

/// A source over a reader of std, as standard input. It tells no content.
#[derive(Drop)]
pub struct StdSource<R> {
    reader: R,
    faults: u64,
    taken: u64,
}

impl<R> Model for StdSource<R> {
    ghost use Rattle.rm_base.specs.Outside.{Reader};

    ghost Value = { Reader R };

    ghost view = { λ s. record { reader = s.reader; faults = s.faults; taken = s.taken } };
}

impl<R> StdSource<R> {
    /// A source that reads from this reader.
    pub fn new(reader: R) -> Self
        ensures { result ≡ record { reader = reader; faults = 0; taken = 0 } }
    {
        StdSource {
            reader,
            faults: 0,
            taken: 0,
        }
    }
}

impl<R: Read> Source for StdSource<R> {
    ghost told = { reader_told };

    fn read(&mut self, buf: &mut [u8]) -> Result<usize, Failed>
        ensures bound { ReadsAtMost result buf.new }
        ensures counted { MatchResult result (λ n. self.new.taken ≡ raised_by self.old.taken n)
            (λ _. self.new.taken ≡ self.old.taken) }
        ensures lasts { Lasts (reader_told self.old) (reader_told self.new) }
        ensures failed { OnErr result (Rose self.old.faults self.new.faults) }
        ensures faults { self.new.faults ≡ counted_if (is_err result) self.old.faults }
        ensures reads { ReadConsumes (R.remaining self.old.reader) (R.remaining self.new.reader) result buf.new }
    {
        match self.reader.read(buf) {
            Ok(count) => {
                self.taken = self.taken.saturating_add(count as u64);
                Ok(count)
            }
            Err(_) => {
                self.faults = self.faults.saturating_add(1);
                Err(Failed)
            }
        }
    }
}

/// A sink over a writer of std, as standard output. It tells no content, and never answers Memory.
#[derive(Drop)]
pub struct StdSink<W> {
    writer: W,
    faults: u64,
}

impl<W> Model for StdSink<W> {
    ghost use Rattle.rm_base.specs.Outside.{Writer};

    ghost Value = { Writer W };

    ghost view = { λ s. record { writer = s.writer; faults = s.faults } };
}

impl<W> StdSink<W> {
    /// A sink that writes to this writer.
    pub fn new(writer: W) -> Self
        ensures { result ≡ record { writer = writer; faults = 0 } }
    {
        StdSink { writer, faults: 0 }
    }
}

impl<W: Write> Sink for StdSink<W> {
    ghost told = { writer_told };

    ghost wants_memory = { false };

    fn write(&mut self, bytes: &[u8]) -> Result<usize, SinkError>
        ensures bound { WritesAtMost result bytes.now }
        ensures lasts { Lasts (writer_told self.old) (writer_told self.new) }
        ensures failed { result ≡ Err SinkError.Failed → Rose self.old.faults self.new.faults }
        ensures nothing { result ≡ Ok 0 → 0 < length bytes.now → Rose self.old.faults self.new.faults }
        ensures never_memory { result ≢ Err SinkError.Memory }
        ensures faults { self.new.faults ≡ counted_if (is_write_fault result bytes.now) self.old.faults }
        ensures writes { WriteAppends (W.contents self.old.writer) (W.contents self.new.writer) result bytes.now }
    {
        match self.writer.write(bytes) {
            Ok(count) => {
                if count == 0 && !bytes.is_empty() {
                    self.faults = self.faults.saturating_add(1);
                }
                Ok(count)
            }
            Err(_) => {
                self.faults = self.faults.saturating_add(1);
                Err(SinkError::Failed)
            }
        }
    }
}
