//! A crash inside `forward`. The run without one is that of the program `wsrm_relay`.

use crate::relay_tests::stage::play;
use std::test::Fail;

// Node 2's disk fails at the last device call of `forward`, and the crash keeps what was written.
const CRASH_IN_FORWARD: &[u8] = b"create 1\ndeliver 1\ndeliver 2\ncreate 2\ndeliver 3\ndeliver 4\n\
    send 1 1 <p>1</p>\ndeliver 5\narm 2 4\nforward\ncrash 2 1\nforward\ntick 2 0\n";

const FORWARDED_ONCE: &[u8] =
    b"1 ok 2 1 1 1\n2 ok 2 2 1 2\n3 ok 3 2 1 2\n4 ok 3 3 1 3\n5 ok 3 3 2 4\n\
    6 ok 3 4 2 4\n7 ok 4 4 2 5\n8 ok 4 5 2 6\n9 ok 4 5 2 6\n10 disk 4 5 2 6\n11 ok 4 6 2 6\n12 idle 4 6 2 6\n\
    13 ok 4 6 2 7\n\
    out 1 1 open accepted 1 acked -\nin 2 1 open dfg received 1-1 inbox 1 discarded 0\n\
    item 2 1 1 3c703e313c2f703e\nout 2 2 open accepted 1 acked -\n\
    in 3 1 open dfg received - inbox 0 discarded 0\n";

#[test]
fn a_crash_forwards_an_item_once(rt: HostRuntime) -> Result<(), Fail> {
    let played = play(rt.alloc(), CRASH_IN_FORWARD)?;
    assert_eq!(rt; played.report.as_slice(), FORWARDED_ONCE);
    Ok(())
}
