//! Answers put together.
ghost use Rattle.std.specs.Prelude.{◌≡◌, IfOk};
ghost use Rattle.std.specs.Option.{option_to_list};
ghost use Rattle.node_laws.specs.Answers.Answers.{seen};
ghost use Rattle.node_calls.specs.Comes.{done};

use node_laws::answers::{Answer, Outcome, no_moves};
use rm_base::Memory;
use rm_message::Message;
use std::alloc::Global;
use tables_ahead::Known;

/// The records ahead are added, and the message is said, where there is one.
pub(crate) fn added(
    alloc: Global,
    ahead: Known<'_>,
    message: Option<Message>,
) -> Result<Answer, Memory>
    ensures { IfOk result (λ a. seen a ≡ done ahead.entry.delta (option_to_list message)) }
{
    let mut outs = Vec::new(alloc);
    if let Some(message) = message {
        outs.push(message)?;
    }
    Ok(Answer {
        outcome: Outcome::Done,
        batch: ahead.into_batch(),
        outs,
        moves: no_moves(alloc),
    })
}
