//! What the records say of a sequence, as calls test it.
ghost use Rattle.std.specs.Prelude.{◌≡◌, ◌<◌, ◌≤◌, ◌++◌, [], length};
ghost use Rattle.std.specs.Option.{option_map};
ghost use Rattle.rm_protocol.specs.Calls.{is_open as is_open_in, may_end as may_end_in};
ghost use Rattle.record_batch.specs.Sequences.Destinations.{is_over};
ghost use Rattle.record_batch.specs.Sequences.Makers.{maker};
ghost use Rattle.record_batch.specs.Sequences.Sources.{phase};
ghost use Rattle.node_laws.specs.Answers.Answers.{cause_seen};
ghost use Rattle.node_calls.specs.Causes.{side_cause};

use node_laws::answers::Cause;
use node_tables::{Maker, Tables};
use rm_sides::source::OutPhase;
use std::alloc::Global;
use tables_ahead::Known;

/// Why a call for an outgoing sequence is refused, by how the sequence came to be.
pub(crate) fn side_refusal(tables: &Tables, seq: u32) -> Option<Cause>
    ensures { option_map cause_seen result ≡ side_cause (maker tables.now.records seq) }
{
    match tables.maker(seq) {
        Some(Maker::Asked { .. }) => None,
        Some(Maker::Taken { .. }) => None,
        Some(Maker::Offered { .. }) => Some(Cause::WrongSide),
        Some(Maker::Granted { .. }) => Some(Cause::WrongSide),
        None => Some(Cause::NoSequence),
    }
}

/// The phase of an outgoing sequence.
pub(crate) fn phase(alloc: Global, tables: &Tables, seq: u32) -> OutPhase
    ensures { result ≡ phase tables.now.records seq }
{
    let ahead = Known::new(alloc, tables);
    ahead.phase(seq)
}

/// Whether messages are accepted in a phase.
pub(crate) fn is_open(phase: OutPhase) -> bool
    ensures { result ≡ is_open_in phase }
{
    match phase {
        OutPhase::Open => true,
        OutPhase::Closing | OutPhase::Closed => false,
        OutPhase::Creating | OutPhase::Ending | OutPhase::Ended | OutPhase::Failed => false,
    }
}

/// Whether a sequence is ended from a phase.
pub(crate) fn may_end(phase: OutPhase) -> bool
    ensures { result ≡ may_end_in phase }
{
    match phase {
        OutPhase::Open | OutPhase::Closing | OutPhase::Closed => true,
        OutPhase::Creating => false,
        OutPhase::Ending | OutPhase::Ended | OutPhase::Failed => false,
    }
}

/// Whether an incoming sequence is no longer open at a moment.
pub(crate) fn is_over(alloc: Global, tables: &Tables, seq: u32, now: u64) -> bool
    ensures { result ≡ is_over tables.now.records seq now }
{
    let ahead = Known::new(alloc, tables);
    ahead.is_over(seq, now)
}
