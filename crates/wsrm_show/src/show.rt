//! What the node knows that a disk holds, which another process may be writing.
ghost use Rattle.std.specs.Prelude.{◌≡◌, false};

use node_store::MountError;
use rm_base::Blob;
use rm_disk::ReadDisk;
use rm_host::End;
use rm_host::show::node_text;
use rm_node::Node;
use std::alloc::Global;

// How often a disk is read that is written meanwhile.
const TURNS: u32 = 64;

/// The node that a disk holds: a line of it, and one for each of its sequences, as they stand at a moment.
pub fn show<D: ReadDisk>(alloc: Global, disk: &mut D, now: u64) -> Result<Blob, End>
    requires silent { D.tells ≡ false }
{
    let node = mounted(alloc, disk)?;
    Ok(node_text(alloc, &node, now)?)
}

// The node that a disk holds, which another process may be writing. An entry that is added between the look at the
// length and the end of the read leaves an open gate at the end of what is read, and a list that is written anew may be
// put where the one stood that is read. So what is no journal is read again, until it is none twice at one length.
fn mounted<D: ReadDisk>(alloc: Global, disk: &mut D) -> Result<Node, End>
    requires silent { D.tells ≡ false }
{
    let mut none_at = None;
    for _turn in 0..TURNS {
        match Node::mount(alloc, disk) {
            Ok(node) => return Ok(node),
            Err(MountError::NotAJournal) => {
                let len = disk.len();
                if none_at == Some(len) {
                    return Err(End::NotAJournal);
                }
                none_at = Some(len);
            }
            Err(error) => return Err(End::from(error)),
        }
    }
    Err(End::NotAJournal)
}
