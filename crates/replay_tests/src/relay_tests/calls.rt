//! `forward` and `trim` over a node, for a caller that plays no script: with memory in plenty each does what it is for.
//! Node 2 is found anew on its disk before each call.

use crate::relay_tests::stage::events_of;
use rm_base::wire::MemWire;
use rm_disk::MemDisk;
use rm_node::{Node, NodeError, Out};
use rm_relay::run::run_relay;
use rm_relay::{Stage3, forward, may_forward, trim};
use rm_script::ScriptError;
use std::alloc::Global;
use std::test::Fail;

// Node 2 received an item, which it may send on to node 3.
const RECEIVED: &[u8] =
    b"create 1\ndeliver 1\ndeliver 2\ncreate 2\ndeliver 3\ndeliver 4\nsend 1 1 <p>1</p>\ndeliver 5\n";

// It did so, and node 3 acknowledged the item.
const ACKNOWLEDGED: &[u8] =
    b"create 1\ndeliver 1\ndeliver 2\ncreate 2\ndeliver 3\ndeliver 4\nsend 1 1 <p>1</p>\ndeliver 5\n\
    forward\ndeliver 7\ndeliver 8\n";

// The disk of node 2 once a script was played.
fn disk_after(alloc: Global, script: &[u8]) -> Result<MemDisk, ScriptError> {
    let mut stage = Stage3 {
        one: MemDisk::new(alloc),
        two: MemDisk::new(alloc),
        three: MemDisk::new(alloc),
        wire: MemWire::new(alloc),
    };
    let events = events_of(alloc, script)?;
    run_relay(alloc, &mut stage, events)?;
    Ok(stage.two)
}

// What a call of node 2 comes to: how many packets went out, all of which went to node 3, or none where there is no
// item; and how many entries its journal has then.
type Called = (Option<usize>, u64);

fn go_to_node_3(outs: &[Out]) -> bool {
    match outs {
        [out] => out.address.as_slice() == b"http://node3.example/".as_slice(),
        _ => false,
    }
}

// The node is found on its disk, and forwards.
fn forwards(alloc: Global, disk: &mut MemDisk) -> Result<Called, NodeError> {
    let Ok(mut node) = Node::mount(alloc, disk) else {
        return Err(NodeError::Memory);
    };
    if !may_forward(node.tables()) {
        return Ok((Some(0), 0));
    }
    match forward(&mut node, disk)? {
        None => Ok((None, node.entries())),
        Some(outs) => {
            let count = if go_to_node_3(outs.as_slice()) { 1 } else { 0 };
            Ok((Some(count), node.entries()))
        }
    }
}

// The node is found on its disk, and trims: how many entries its journal has then.
fn trims(alloc: Global, disk: &mut MemDisk) -> Result<u64, NodeError> {
    let Ok(mut node) = Node::mount(alloc, disk) else {
        return Err(NodeError::Memory);
    };
    if !may_forward(node.tables()) {
        return Ok(0);
    }
    trim(&mut node, disk)?;
    Ok(node.entries())
}

#[test]
fn an_item_is_forwarded_once(rt: HostRuntime) -> Result<(), Fail> {
    let mut disk = disk_after(rt.alloc(), RECEIVED)?;
    let first = forwards(rt.alloc(), &mut disk);
    assert_eq!(rt; first, Ok((Some(1), 6)));
    let second = forwards(rt.alloc(), &mut disk);
    assert_eq!(rt; second, Ok((None, 6)));
    Ok(())
}

#[test]
fn what_is_acknowledged_is_trimmed_once(rt: HostRuntime) -> Result<(), Fail> {
    let mut disk = disk_after(rt.alloc(), ACKNOWLEDGED)?;
    let first = trims(rt.alloc(), &mut disk);
    assert_eq!(rt; first, Ok(8));
    let second = trims(rt.alloc(), &mut disk);
    assert_eq!(rt; second, Ok(8));
    Ok(())
}
