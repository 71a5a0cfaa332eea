//! A request of the node's own for the messages that wait for it: WS-MakeConnection 1.1, section 3.2.
ghost use Rattle.std.specs.Prelude.{◌≡◌, IfOk};
ghost use Rattle.rm_protocol.specs.Polls.{poll as poll_of};
ghost use Rattle.node_laws.specs.Answers.Answers.{seen};
ghost use Rattle.node_calls.specs.Records.{IsServing};

use crate::answers::added;
use node_laws::answers::Answer;
use node_messages::make_request;
use node_tables::Tables;
use receive_replies::home;
use rm_base::{Memory, Uri};
use std::alloc::Global;
use tables_ahead::Known;

/// Asks the peer with an address for the messages that wait there.
pub(crate) fn poll(alloc: Global, tables: &Tables, to: Uri) -> Result<Answer, Memory>
    requires { IsServing tables.now.records }
    ensures { IfOk result (λ a. seen a ≡ poll_of tables.now.records to) }
{
    let ahead = Known::new(alloc, tables);
    let request = make_request(alloc, home(&ahead), to)?;
    added(alloc, ahead, Some(request))
}
