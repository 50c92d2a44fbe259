// The four lines before the nodes.
use crate::tests::case::Case::{Accepted, Refused};
use crate::tests::case::{Case, judge_whole};
use std::test::Fail;

// The lines before `node=count key=0 least=0`, which is the last.
static HEADS: [Case; 62] = [
    Accepted(b"mission=1\ncounts=1\nabilities=0\nnodes=1\n"),
    Accepted(b"mission=1\ncounts=32\nabilities=32\nnodes=1\n"),
    // The first line.
    Refused(1, 1, b"mission=2\ncounts=1\nabilities=0\nnodes=1\n"),
    Refused(1, 1, b"mission=01\ncounts=1\nabilities=0\nnodes=1\n"),
    Refused(1, 1, b"mission=11\ncounts=1\nabilities=0\nnodes=1\n"),
    Refused(1, 1, b"mission=\ncounts=1\nabilities=0\nnodes=1\n"),
    Refused(1, 1, b"mission\ncounts=1\nabilities=0\nnodes=1\n"),
    Refused(1, 1, b"Mission=1\ncounts=1\nabilities=0\nnodes=1\n"),
    Refused(1, 1, b" mission=1\ncounts=1\nabilities=0\nnodes=1\n"),
    Refused(1, 1, b"mission=1 \ncounts=1\nabilities=0\nnodes=1\n"),
    Refused(1, 1, b"\nmission=1\ncounts=1\nabilities=0\nnodes=1\n"),
    Refused(1, 1, b"\xffmission=1\ncounts=1\nabilities=0\nnodes=1\n"),
    Refused(1, 1, b"mission=1\r\ncounts=1\nabilities=0\nnodes=1\n"),
    // A line that is missing, swapped, empty or joined to another.
    Refused(1, 1, b"counts=1\nabilities=0\nnodes=1\n"),
    Refused(1, 2, b"mission=1\nabilities=0\nnodes=1\n"),
    Refused(1, 3, b"mission=1\ncounts=1\nnodes=1\n"),
    Refused(1, 4, b"mission=1\ncounts=1\nabilities=0\n"),
    Refused(1, 2, b"mission=1\nabilities=0\ncounts=1\nnodes=1\n"),
    Refused(1, 2, b"mission=1\n\ncounts=1\nabilities=0\nnodes=1\n"),
    Refused(1, 5, b"mission=1\ncounts=1\nabilities=0\nnodes=1\n\n"),
    Refused(1, 2, b"mission=1\ncounts=1 abilities=0\nnodes=1\n"),
    // The number of counts.
    Refused(6, 5, b"mission=1\ncounts=0\nabilities=1\nnodes=1\n"),
    Refused(2, 2, b"mission=1\ncounts=33\nabilities=0\nnodes=1\n"),
    Refused(2, 2, b"mission=1\ncounts=-1\nabilities=0\nnodes=1\n"),
    Refused(2, 2, b"mission=1\ncounts=257\nabilities=0\nnodes=1\n"),
    Refused(
        2,
        2,
        b"mission=1\ncounts=4294967297\nabilities=0\nnodes=1\n",
    ),
    Refused(
        2,
        2,
        b"mission=1\ncounts=18446744073709551617\nabilities=0\nnodes=1\n",
    ),
    Refused(
        2,
        2,
        b"mission=1\ncounts=1234567890123456789012345678901234567890\nabilities=0\nnodes=1\n",
    ),
    Refused(
        2,
        2,
        b"mission=1\ncounts=-1234567890123456789012345678901234567890\nabilities=0\nnodes=1\n",
    ),
    Refused(
        1,
        2,
        b"mission=1\ncounts=0000000000000000000000000000000000000001\nabilities=0\nnodes=1\n",
    ),
    Refused(1, 2, b"mission=1\ncounts=01\nabilities=0\nnodes=1\n"),
    Refused(1, 2, b"mission=1\ncounts=00\nabilities=0\nnodes=1\n"),
    Refused(1, 2, b"mission=1\ncounts=-0\nabilities=0\nnodes=1\n"),
    Refused(1, 2, b"mission=1\ncounts=-01\nabilities=0\nnodes=1\n"),
    Refused(1, 2, b"mission=1\ncounts=--1\nabilities=0\nnodes=1\n"),
    Refused(1, 2, b"mission=1\ncounts=+1\nabilities=0\nnodes=1\n"),
    Refused(1, 2, b"mission=1\ncounts=-\nabilities=0\nnodes=1\n"),
    Refused(1, 2, b"mission=1\ncounts=\nabilities=0\nnodes=1\n"),
    Refused(1, 2, b"mission=1\ncounts=1.0\nabilities=0\nnodes=1\n"),
    Refused(1, 2, b"mission=1\ncounts=none\nabilities=0\nnodes=1\n"),
    Refused(1, 2, b"mission=1\ncounts= 1\nabilities=0\nnodes=1\n"),
    Refused(1, 2, b"mission=1\ncounts=1 \nabilities=0\nnodes=1\n"),
    Refused(1, 2, b"mission=1\ncounts=1\t\nabilities=0\nnodes=1\n"),
    Refused(1, 2, b"mission=1\ncounts=1\0\nabilities=0\nnodes=1\n"),
    Refused(1, 2, b"mission=1\ncounts=\xb1\nabilities=0\nnodes=1\n"),
    Refused(1, 2, b"mission=1\ncount=1\nabilities=0\nnodes=1\n"),
    // The number of abilities.
    Refused(2, 3, b"mission=1\ncounts=1\nabilities=33\nnodes=1\n"),
    Refused(2, 3, b"mission=1\ncounts=1\nabilities=-1\nnodes=1\n"),
    Refused(1, 3, b"mission=1\ncounts=1\nabilities=00\nnodes=1\n"),
    Refused(1, 3, b"mission=1\ncounts=1\nAbilities=0\nnodes=1\n"),
    // The number of nodes.
    Refused(2, 4, b"mission=1\ncounts=1\nabilities=0\nnodes=0\n"),
    Refused(2, 4, b"mission=1\ncounts=1\nabilities=0\nnodes=257\n"),
    Refused(2, 4, b"mission=1\ncounts=1\nabilities=0\nnodes=-1\n"),
    Refused(1, 4, b"mission=1\ncounts=1\nabilities=0\nnodes=01\n"),
    Refused(1, 4, b"mission=1\ncounts=1\nabilities=0\nnodes=1 \n"),
    Refused(1, 4, b"mission=1\ncounts=1\nabilities=0\nnodes=1\r\n"),
    // On one line 1 comes before 2.
    Refused(1, 2, b"mission=1\ncounts=33 \nabilities=0\nnodes=1\n"),
    Refused(1, 4, b"mission=1\ncounts=1\nabilities=0\nnodes=257 x\n"),
    // The lower line comes first.
    Refused(1, 1, b"mission=2\ncounts=33\nabilities=0\nnodes=1\n"),
    Refused(2, 2, b"mission=1\ncounts=33\nabilities=x\nnodes=1\n"),
    Refused(1, 2, b"mission=1\ncounts=x\nabilities=33\nnodes=1\n"),
    // The text comes before the tree, also where a later line has 6.
    Refused(2, 3, b"mission=1\ncounts=0\nabilities=33\nnodes=1\n"),
];

#[test]
fn heads_have_their_verdicts(rt: HostRuntime) -> Result<(), Fail> {
    let tally = judge_whole(&rt, b"", &HEADS, b"node=count key=0 least=0\n")?;
    assert_eq!(rt; tally, [2, 45, 14, 0, 0, 0, 1, 0]);
    Ok(())
}
