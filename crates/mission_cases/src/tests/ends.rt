// Where a text ends: lines without an end, too many and too few.
use crate::tests::case::Case::{Accepted, Refused};
use crate::tests::case::{Case, judge_whole};
use std::test::Fail;

// Whole texts.
static TEXTS: [Case; 18] = [
    // The empty text, and texts that end before the nodes.
    Refused(1, 1, b""),
    Refused(1, 1, b"\n"),
    Refused(1, 1, b"mission=1"),
    Refused(1, 2, b"mission=1\n"),
    Refused(1, 2, b"mission=1\ncounts=1"),
    Refused(1, 3, b"mission=1\ncounts=1\n"),
    Refused(1, 3, b"mission=1\ncounts=1\nabilities=0"),
    Refused(1, 4, b"mission=1\ncounts=1\nabilities=0\n"),
    Refused(1, 4, b"mission=1\ncounts=1\nabilities=0\nnodes=1"),
    Refused(1, 5, b"mission=1\ncounts=1\nabilities=0\nnodes=1\n"),
    Refused(2, 4, b"mission=1\ncounts=1\nabilities=0\nnodes=0\n"),
    // On one line 1 comes before 2; the lower line comes first.
    Refused(1, 2, b"mission=1\ncounts=33"),
    Refused(2, 2, b"mission=1\ncounts=33\n"),
    // A carriage return in every line.
    Refused(
        1,
        1,
        b"mission=1\r\ncounts=1\r\nabilities=0\r\nnodes=1\r\nnode=count key=0 least=0\r\n",
    ),
    // The highest keys, and the lowest numbers of counts and abilities.
    Accepted(b"mission=1\ncounts=32\nabilities=0\nnodes=1\nnode=count key=31 least=0\n"),
    Accepted(b"mission=1\ncounts=32\nabilities=32\nnodes=1\nnode=ability key=31 least=0 over=1\n"),
    Accepted(b"mission=1\ncounts=0\nabilities=1\nnodes=1\nnode=ability key=0 least=0 over=1\n"),
    Refused(
        6,
        5,
        b"mission=1\ncounts=31\nabilities=32\nnodes=1\nnode=count key=31 least=0\n",
    ),
];

// What follows the lines `mission=1`, `counts=1` and `abilities=0`.
static ENDS: [Case; 14] = [
    // No line end, and a carriage return.
    Refused(1, 5, b"nodes=1\nnode=count key=0 least=0"),
    Refused(1, 5, b"nodes=1\nnode=count key=0 least=0\r\n"),
    Refused(1, 5, b"nodes=1\nnode=count key=0 least=0\r"),
    Refused(6, 5, b"nodes=1\nnode=ability key=0 least=0 over=1\n"),
    // A line too many, and one too few.
    Refused(
        1,
        6,
        b"nodes=1\nnode=count key=0 least=0\nnode=count key=0 least=0\n",
    ),
    Refused(1, 6, b"nodes=1\nnode=count key=0 least=0\n\n"),
    Refused(1, 6, b"nodes=1\nnode=count key=0 least=0\n "),
    Refused(1, 6, b"nodes=1\nnode=count key=0 least=0\n\0"),
    Refused(1, 6, b"nodes=2\nnode=not\n"),
    Refused(1, 7, b"nodes=256\nnode=not\nnode=count key=0 least=0\n"),
    // The lower line comes first.
    Refused(2, 5, b"nodes=1\nnode=count key=32 least=0\n\n"),
    Refused(1, 5, b"nodes=1\nnode=count key=32 least=0"),
    // They come before what the tree has against an earlier line.
    Refused(1, 6, b"nodes=1\nnode=count key=1 least=0\n\n"),
    Refused(1, 6, b"nodes=2\nnode=par kids=1 need=2\n"),
];

#[test]
fn ends_have_their_verdicts(rt: HostRuntime) -> Result<(), Fail> {
    let tally = judge_whole(&rt, b"", &TEXTS, b"")?;
    assert_eq!(rt; tally, [3, 12, 2, 0, 0, 0, 1, 0]);
    let tally = judge_whole(&rt, b"mission=1\ncounts=1\nabilities=0\n", &ENDS, b"")?;
    assert_eq!(rt; tally, [0, 12, 1, 0, 0, 0, 1, 0]);
    Ok(())
}
