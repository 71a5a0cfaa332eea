//! Whether a key waits, as the tables tell it.
ghost use Rattle.std.specs.Prelude.{◌≡◌};
ghost use Rattle.rm_protocol.specs.Waiting.{is_requesting as is_requesting_in, is_waiting, waits_in as waits_in_of};
ghost use Rattle.record_batch.specs.Sequences.Sources.{is_sending as is_sending_in};

use node_tables::Tables;
use node_tables::laws::an_outgoing_sequence_is_as_recorded;
use rm_sides::source::{OutPhase, Outgoing};
use timers::slots::Key;

fn is_requesting(phase: OutPhase) -> bool
    ensures { result ≡ is_requesting_in phase }
{
    match phase {
        OutPhase::Creating | OutPhase::Closing | OutPhase::Ending => true,
        OutPhase::Open | OutPhase::Closed | OutPhase::Ended | OutPhase::Failed => false,
    }
}

fn is_sending(phase: OutPhase) -> bool
    ensures { result ≡ is_sending_in phase }
{
    match phase {
        OutPhase::Open | OutPhase::Closing => true,
        OutPhase::Creating | OutPhase::Closed => false,
        OutPhase::Ending | OutPhase::Ended | OutPhase::Failed => false,
    }
}

fn waits_in(outgoing: &Outgoing, number: u64) -> bool
    ensures { result ≡ waits_in_of outgoing.now.facts number }
{
    if number == 0 {
        return is_requesting(outgoing.phase());
    }
    if !is_sending(outgoing.phase()) {
        return false;
    }
    if number > outgoing.accepted_len() {
        return false;
    }
    !outgoing.acked().has(number)
}

/// Whether a key waits by the records.
pub(crate) fn waits(tables: &Tables, key: Key) -> bool
    ensures { result ≡ is_waiting tables.now.records key }
{
    an_outgoing_sequence_is_as_recorded();
    match tables.outgoing(key.seq) {
        Some(outgoing) => waits_in(outgoing, key.number),
        None => false,
    }
}
