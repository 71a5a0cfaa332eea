//! Tests of `rm_script::soak`. What is generated is told by PCG's minimal generator in C (`pcg32_srandom_r` with a
//! number and 1) and the table of lines, worked out apart from this code: first lines, how many, how many bytes, and a
//! checksum.
use rm_base::Memory;
use rm_script::soak::{script, summary};
use std::alloc::Global;

// A checksum of bytes, and how many of them are LF.
fn sums(bytes: &[u8]) -> (u64, u64) {
    let mut sum = 0u64;
    let mut ends = 0u64;
    for byte in bytes {
        sum = (sum.wrapping_mul(31).wrapping_add(u64::from(*byte))) % 1000003;
        if *byte == b'\n' {
            ends = ends.saturating_add(1);
        }
    }
    (sum, ends)
}

#[derive(Clone, Copy)]
struct Want {
    number: u64,
    front: &'static [u8],
    len: usize,
    lines: u64,
    sum: u64,
}

fn is_generated(alloc: Global, want: &Want) -> Result<bool, Memory> {
    let script = script(alloc, want.number)?;
    let (sum, lines) = sums(script.as_slice());
    Ok(
        script.as_slice().starts_with(want.front)
            && script.len() == want.len
            && lines == want.lines
            && sum == want.sum,
    )
}

#[test]
fn scripts_of_numbers(rt: HostRuntime) {
    let zero = Want {
        number: 0,
        front: b"create 1\ndeliver 1\ndeliver 2\ndeliver 3\ntick 1 2000\nsend 1 1 <p>3</p>\nsend 1 1 <p>4</p>\n\
            deliver 5\nsend 1 1 <p>6</p>\ndeliver 5\nask 1 1\ntick 1 9000\narm 2 2\ndeliver 2\ncrash 2 1\n\
            send 1 1 <p>11</p>\ntick 1 12000\ncrash 1 1\n",
        len: 46838,
        lines: 3343,
        sum: 644914,
    };
    let one = Want {
        number: 1,
        front: b"create 1\ndeliver 1\ndeliver 2\nsend 1 1 <p>1</p>\nsend 1 1 <p>2</p>\ndeliver 4\nsend 1 1 <p>4</p>\n\
            deliver 3\ndeliver 8\ndeliver 3\n",
        len: 46385,
        lines: 3311,
        sum: 981995,
    };
    let last = Want {
        number: 1152921504606846975,
        front: b"create 1\ndeliver 1\ndeliver 2\ndeliver 1\ndeliver 2\ntick 1 3000\nsend 1 1 <p>4</p>\ncrash 1 2\n",
        len: 46989,
        lines: 3371,
        sum: 243037,
    };
    assert!(rt; is_generated(rt.alloc(), &zero) == Ok(true));
    assert!(rt; is_generated(rt.alloc(), &one) == Ok(true));
    assert!(rt; is_generated(rt.alloc(), &last) == Ok(true));
}

fn is_summary(alloc: Global, number: u64, report: &[u8], want: &[u8]) -> Result<bool, Memory> {
    Ok(summary(alloc, number, report)?.as_slice() == want)
}

#[test]
fn summaries_of_reports(rt: HostRuntime) {
    let report =
        b"1 ok 2 1 1\n2 no-packet 2 1 1\n3 disk 2 1 1\n4 refused NotOpen 2 1 1\n5 fault SequenceClosed 2 1 2\n\
        10 ok 4 2 2\nout 1 1 open accepted 3 acked 1-3\nin 2 1 open dfg received 1-3 inbox 3 discarded 0\n\
        item 2 1 1 3c703e313c2f703e\nitem 2 1 2 3c703e323c2f703e\n";
    let want = b"soak 7 lines 6 ok 2 other 4\nout 1 1 open accepted 3 acked 1-3\n\
        in 2 1 open dfg received 1-3 inbox 3 discarded 0\n";
    assert!(rt; is_summary(rt.alloc(), 7, report, want) == Ok(true));
    assert!(rt; is_summary(rt.alloc(), 0, b"", b"soak 0 lines 0 ok 0 other 0\n") == Ok(true));
    assert!(rt;
        is_summary(
            rt.alloc(),
            1,
            b"1 ok 1 1 0\ndown 1\ndown 2\n",
            b"soak 1 lines 1 ok 1 other 0\ndown 1\ndown 2\n"
        ) == Ok(true)
    );
}
