//! What left a node goes on the wire.
ghost use Rattle.std.specs.Prelude.{◌≡◌, IfOk, OnErr, OnOk};
ghost use Rattle.rm_replay.specs.Actor.Outcomes.{packets_in};
ghost use Rattle.rm_node.specs.Packets.{reply_packet};
ghost use Rattle.rm_replay.specs.Happening.{IsPutInPart, with_all};

use crate::actor::Came;
use rm_base::wire::Wire;
use rm_base::{Blob, Memory};
use rm_node::Out;
use rm_script::report::Outcome;

/// Puts packets for a node on the wire, one after the other.
fn put_all<W: Wire>(wire: &mut W, to: u8, outs: &[Out]) -> Result<(), Memory>
    ensures ok { OnOk result (W.packets wire.new ≡ with_all (W.packets wire.old) to outs.now) }
    ensures err { OnErr result (IsPutInPart (W.packets wire.old) to outs.now (W.packets wire.new)) }
{
    for out in outs {
        wire.put(to, out.bytes.as_slice())?;
    }
    Ok(())
}

/// Puts the reply on the wire, where there is one.
fn put_reply<W: Wire>(wire: &mut W, to: u8, reply: &Option<Blob>) -> Result<(), Memory>
    ensures ok { OnOk result (W.packets wire.new ≡ with_all (W.packets wire.old) to (reply_packet reply.now)) }
    ensures err { OnErr result (W.packets wire.new ≡ W.packets wire.old) }
{
    match reply {
        None => Ok(()),
        Some(bytes) => {
            wire.put(to, bytes.as_slice())?;
            Ok(())
        }
    }
}

/// Puts what left a node on the wire, the reply first, and answers how its call came out.
pub(crate) fn put_came<W: Wire>(wire: &mut W, to: u8, came: Came) -> Result<Outcome, Memory>
    ensures ok { OnOk result (W.packets wire.new ≡ with_all (W.packets wire.old) to (packets_in came)) }
    ensures outcome { IfOk result (λ outcome. outcome ≡ came.outcome) }
    ensures err { OnErr result (IsPutInPart (W.packets wire.old) to (packets_in came) (W.packets wire.new)) }
{
    put_reply(wire, to, &came.reply)?;
    put_all(wire, to, came.outs.as_slice())?;
    Ok(came.outcome)
}
