//! All keys that wait by the records, at a mount.
ghost use Rattle.std.specs.Prelude.{◌≡◌, ◌≤◌, ◌+◌, ◌-◌, [], length};
ghost use Rattle.timers.specs.Keys.Keyed.{keys_in};
ghost use Rattle.node_waits.specs.Keys.Filled.{AllBefore, Filled, NoneWaits, own_waiting};
ghost use Rattle.node_waits.specs.Keys.Settled.{count_of as count_of_made};
ghost use Rattle.rm_base.specs.Limits.{most_keys};
ghost use Rattle.rm_base.specs.Message.{max_number};
ghost use Rattle.rm_protocol.specs.Waiting.{key as key_of, waiting_keys};
ghost use Rattle.record_batch.specs.Sequences.Makers.{maker};

use crate::keys::waiting::waits;
use node_tables::Tables;
use node_tables::laws::an_outgoing_sequence_is_as_recorded;
use timers::keys::KeyTimers;
use timers::slots::Key;

/// How many keys a sequence has: its request and its messages.
fn count_of(tables: &Tables, seq: u32) -> u64
    ensures is { result ≡ count_of_made tables.now.records seq (maker tables.now.records seq) }
{
    an_outgoing_sequence_is_as_recorded();
    match tables.outgoing(seq) {
        Some(outgoing) => outgoing.accepted_len() + 1,
        None => 0,
    }
}

/// A key begins to wait, behind all others, where it waits by the records.
fn begin_waiting(timers: &mut KeyTimers, tables: &Tables, seq: u32, number: u64)
    requires before { AllBefore (keys_in timers.old.cells) (key_of seq number) }
    requires few { length (keys_in timers.old.cells) + length (own_waiting tables.now.records seq number 1)
        ≤ most_keys }
    ensures filled { Filled timers.old timers.new (own_waiting tables.now.records seq number 1) }
    ensures before { AllBefore (keys_in timers.new.cells) (key_of seq (number + 1)) }
{
    let key = Key { seq, number };
    if waits(tables, key) {
        timers.begin_last(key);
    }
}

/// How many of the first messages of a sequence are gone: the keys of these don't wait.
fn gone_of(tables: &Tables, seq: u32) -> u64
    ensures silent { NoneWaits tables.now.records seq result }
    ensures few { result ≤ max_number }
{
    an_outgoing_sequence_is_as_recorded();
    match tables.outgoing(seq) {
        Some(outgoing) => {
            let _count = outgoing.accepted_len();
            outgoing.dropped()
        }
        None => 0,
    }
}

/// Of the keys of one sequence, from a number on, those that wait by the records begin to wait, behind all others.
fn fill_from(timers: &mut KeyTimers, tables: &Tables, seq: u32, from: u64, count: u64)
    requires before { AllBefore (keys_in timers.old.cells) (key_of seq from) }
    requires few { length (keys_in timers.old.cells) + length (own_waiting tables.now.records seq from (count - from))
        ≤ most_keys }
    ensures filled { Filled timers.old timers.new (own_waiting tables.now.records seq from (count - from)) }
    ensures before { AllBefore (keys_in timers.new.cells) (key_of (seq + 1) 0) }
{
    for number in from..count {
        begin_waiting(timers, tables, seq, number);
    }
}

/// Of the keys of one sequence, so many, those that wait by the records begin to wait, behind all others. The messages
/// that are gone are passed over.
fn fill_one(timers: &mut KeyTimers, tables: &Tables, seq: u32, gone: u64, count: u64)
    requires silent { NoneWaits tables.now.records seq gone }
    requires gone { gone ≤ max_number }
    requires before { AllBefore (keys_in timers.old.cells) (key_of seq 0) }
    requires few { length (keys_in timers.old.cells) + length (own_waiting tables.now.records seq 0 count) ≤ most_keys }
    ensures filled { Filled timers.old timers.new (own_waiting tables.now.records seq 0 count) }
    ensures before { AllBefore (keys_in timers.new.cells) (key_of (seq + 1) 0) }
{
    if count == 0 {
        return;
    }
    begin_waiting(timers, tables, seq, 0);
    fill_from(timers, tables, seq, gone + 1, count);
}

/// All keys that wait by the records begin to wait, by sequence and number. There is room for each: a node has at most
/// 256 sequences, and at most 4096 messages that are not acknowledged.
pub fn fill(timers: &mut KeyTimers, tables: &Tables)
    requires empty { timers.old.cells ≡ [] }
    requires few { length (waiting_keys tables.now.records) ≤ most_keys }
    ensures filled { Filled timers.old timers.new (waiting_keys tables.now.records) }
{
    for before in 0..tables.len() {
        let seq = before + 1;
        fill_one(
            timers,
            tables,
            seq,
            gone_of(tables, seq),
            count_of(tables, seq),
        );
    }
}
