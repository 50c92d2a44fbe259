// The numbers of node lines: their form and their ranges.
use crate::tests::case::Case::{Accepted, Refused};
use crate::tests::case::{Case, judge_nodes};
use std::test::Fail;

// Node lines, below one count and one ability.
static NUMBERS: [Case; 55] = [
    // Conditions.
    Accepted(b"node=count key=0 least=0\n"),
    Accepted(b"node=count key=0 least=-1\n"),
    Accepted(b"node=count key=0 least=1000000\n"),
    Accepted(b"node=count key=0 least=-1000000\n"),
    Accepted(b"node=ability key=0 least=10000 over=100\n"),
    Accepted(b"node=ability key=0 least=-10000 over=1\n"),
    Refused(2, 5, b"node=count key=0 least=1000001\n"),
    Refused(2, 5, b"node=count key=0 least=-1000001\n"),
    Refused(2, 5, b"node=count key=0 least=4294967296\n"),
    Refused(
        2,
        5,
        b"node=count key=0 least=1234567890123456789012345678901234567890\n",
    ),
    Refused(
        2,
        5,
        b"node=count key=0 least=-1234567890123456789012345678901234567890\n",
    ),
    Refused(2, 5, b"node=count key=32 least=0\n"),
    Refused(2, 5, b"node=count key=256 least=0\n"),
    Refused(2, 5, b"node=count key=-1 least=0\n"),
    Refused(2, 5, b"node=ability key=32 least=0 over=1\n"),
    Refused(2, 5, b"node=ability key=-1 least=0 over=1\n"),
    Refused(2, 5, b"node=ability key=0 least=10001 over=1\n"),
    Refused(2, 5, b"node=ability key=0 least=-10001 over=1\n"),
    Refused(2, 5, b"node=ability key=0 least=0 over=0\n"),
    Refused(2, 5, b"node=ability key=0 least=0 over=101\n"),
    Refused(2, 5, b"node=ability key=0 least=0 over=-1\n"),
    // Numbers that are not of the form.
    Refused(1, 5, b"node=count key=0 least=-0\n"),
    Refused(1, 5, b"node=count key=0 least=+1\n"),
    Refused(1, 5, b"node=count key=0 least=01\n"),
    Refused(1, 5, b"node=count key=0 least=-01\n"),
    Refused(1, 5, b"node=count key=0 least=\n"),
    Refused(1, 5, b"node=count key=0 least=-\n"),
    Refused(1, 5, b"node=count key=0 least=1,000\n"),
    Refused(1, 5, b"node=count key=0 least=0x1\n"),
    Refused(1, 5, b"node=count key=0 least=none\n"),
    Refused(1, 5, b"node=count key=none least=0\n"),
    Refused(1, 5, b"node=count key=00 least=0\n"),
    Refused(1, 5, b"node=ability key=0 least=1 over=none\n"),
    // Groups and decorators.
    Refused(2, 5, b"node=seq kids=0\n"),
    Refused(2, 5, b"node=seq kids=-1\n"),
    Refused(2, 5, b"node=seq kids=33\n"),
    Refused(2, 5, b"node=seq kids=257\n"),
    Refused(2, 5, b"node=fall kids=0\n"),
    Refused(2, 5, b"node=fall kids=33\n"),
    Refused(2, 5, b"node=mseq kids=0\n"),
    Refused(2, 5, b"node=mseq kids=33\n"),
    Refused(2, 5, b"node=mfall kids=0\n"),
    Refused(2, 5, b"node=mfall kids=33\n"),
    Refused(2, 5, b"node=par kids=0 need=1\n"),
    Refused(2, 5, b"node=par kids=33 need=1\n"),
    Refused(2, 5, b"node=par kids=1 need=0\n"),
    Refused(2, 5, b"node=par kids=1 need=33\n"),
    Refused(2, 5, b"node=par kids=1 need=-1\n"),
    Refused(2, 5, b"node=retry times=0\n"),
    Refused(2, 5, b"node=retry times=60001\n"),
    Refused(2, 5, b"node=retry times=65537\n"),
    Refused(2, 5, b"node=retry times=-1\n"),
    Refused(2, 5, b"node=repeat times=0\n"),
    Refused(2, 5, b"node=repeat times=60001\n"),
    Refused(2, 5, b"node=repeat times=-1\n"),
];

#[test]
fn numbers_have_their_verdicts(rt: HostRuntime) -> Result<(), Fail> {
    let tally = judge_nodes(&rt, b"", &NUMBERS)?;
    assert_eq!(rt; tally, [6, 12, 37, 0, 0, 0, 0, 0]);
    Ok(())
}
