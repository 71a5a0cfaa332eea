//! One durable node, `Node`: a call of it becomes records on its disk and packets that are handed out.
//! `step` does a `Call`, which is something asked for or bytes that came. `calls` has a function a kind. In order:
//! - `say` works out the answer, by `receive` for bytes and by `node_calls` for the rest; `packets` encodes it;
//! - `act` writes it: `after` makes room (`make_ready`), appends the records as one batch (`write_down`), and then lets
//!   keys and messages begin and cease to wait (`go_on`).
//! Only then are the packets handed out, so no crash takes back what was said.
//! `node` has `make` and `mount`, `compact` writes the journal anew, and `kept` is what is not on the disk.
#![tactic(auto)]

mod act;
mod after;
mod begun;
pub mod call;
pub mod calls;
mod compact;
pub mod error;
mod fetch;
pub mod kept;
pub mod laws;
pub mod node;
pub mod packets;
mod receive;
mod say;
pub mod step;
mod wait;

pub use call::Call;
pub use calls::{Made, Sent};
pub use error::NodeError;
pub use kept::Kept;
pub use node::Node;
pub use packets::{Out, Outs};
pub use step::Reaction;
