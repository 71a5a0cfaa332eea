//! The traits through which a program reaches the outside: sources, sinks, connections and clocks.
ghost use Rattle.std.specs.Prelude.{◌≡◌, ◌≢◌, ℕ, ◌≤◌, ◌<◌, Bool, true, false, length, OnErr, MatchResult, Option};
ghost use Rattle.std.specs.Prelude.{Err, Ok, Some, IfSome};
ghost use Rattle.std.specs.Io.{ReadsAtMost, WritesAtMost};
ghost use Rattle.std.specs.Io.KnownBytes.{ReadConsumes, WriteAppends};
ghost use Rattle.rm_base.specs.Count.{Rose, raised_by};
ghost use Rattle.rm_base.specs.Limits.{now_max};
ghost use Rattle.rm_base.specs.Outside.{Stream, Lasts};

use crate::failures::{Failed, Memory};
use thiserror::Error;

/// Where bytes come from: standard input, a connection, or memory.
pub trait Source {
    /// What it tells; what it holds only where it is a sink too.
    ghost told: { Self → Stream };

    /// Moves bytes into the buffer and answers their number: 0 at the end, or where the buffer is empty.
    /// - `keeps`: what a connection holds as a sink stays.
    /// - `lasts`: the count of faults never falls, and a source that tells that it is sound never fails.
    /// - Failed: only where the count of faults rose in this call; nothing was moved (`failed`, `moved`).
    fn read(&mut self, buf: &mut [u8]) -> Result<usize, Failed>
        ensures bound { ReadsAtMost result buf.new }
        ensures moved { ReadConsumes (told self.old).left (told self.new).left result buf.new }
        ensures keeps { (told self.new).held ≡ (told self.old).held }
        ensures counted { MatchResult result (λ n. (told self.new).taken ≡ raised_by (told self.old).taken n)
            (λ _. (told self.new).taken ≡ (told self.old).taken) }
        ensures failed { OnErr result (Rose (told self.old).faults (told self.new).faults) }
        ensures lasts { Lasts (told self.old) (told self.new) };
}

/// Why a sink took nothing.
#[derive(Clone, Copy, Debug, PartialEq, Eq, Error)]
pub enum SinkError {
    #[error("out of memory")]
    Memory,
    #[error("a write failed")]
    Failed,
}

/// Where bytes go: standard output, a connection, or memory.
pub trait Sink {
    /// What it tells; what it has left and what was taken only where it is a source too.
    ghost told: { Self → Stream };

    /// Its calls may want memory.
    ghost wants_memory: { Bool } = { true };

    /// Takes the first bytes of a piece, and answers how many. An `Err` takes none.
    /// - `keeps`: what a connection has left as a source stays.
    /// - `lasts`: the count of faults never falls, and a sink that tells that it is sound never fails.
    /// - Failed: only where the count of faults rose in this call; nothing was moved (`failed`, `moved`).
    /// - Memory: only of a sink whose calls may want it; nothing was moved (`memory`, `moved`).
    fn write(&mut self, bytes: &[u8]) -> Result<usize, SinkError>
        ensures bound { WritesAtMost result bytes.now }
        ensures moved { WriteAppends (told self.old).held (told self.new).held result bytes.now }
        ensures keeps { (told self.new).left ≡ (told self.old).left }
        ensures keeps_taken { (told self.new).taken ≡ (told self.old).taken }
        ensures failed { result ≡ Err SinkError.Failed → Rose (told self.old).faults (told self.new).faults }
        ensures nothing { result ≡ Ok 0 → 0 < length bytes.now → Rose (told self.old).faults (told self.new).faults }
        ensures memory { wants_memory ≡ false → result ≢ Err SinkError.Memory }
        ensures lasts { Lasts (told self.old) (told self.new) };
}

/// A source and a sink in one: a connection. What both sides tell is one.
pub trait Connection: Source + Sink {
    ghost one: { (c : Self) → Self.Sink.told c ≡ Self.Source.told c };
}

/// What tells the time.
pub trait Clock {
    /// The moment that it answers next, and from then on, where it tells that.
    ghost next: { Self → Option ℕ };

    /// The moment, in milliseconds since 1970 UTC.
    /// - `within`: the moment is at most 200000000000000.
    /// - `told`, `still`: where the clock tells a moment, that is the answer, and it stands there then.
    fn now(&mut self) -> u64
        ensures within { result ≤ now_max }
        ensures told { IfSome (next self.old) (λ moment. result ≡ moment) }
        ensures still { IfSome (next self.old) (λ moment. next self.new ≡ Some moment) };
}
