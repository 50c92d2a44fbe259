// The forms of node lines: kinds, fields and spaces.
use crate::tests::case::Case::Refused;
use crate::tests::case::{Case, judge_nodes};
use std::test::Fail;

// Node lines, below one count and one ability.
static LINES: [Case; 56] = [
    // Spaces, tabs and bytes above 127.
    Refused(1, 5, b"node=count  key=0 least=0\n"),
    Refused(1, 5, b"node=count key=0  least=0\n"),
    Refused(1, 5, b"node=count key=0 least=0 \n"),
    Refused(1, 5, b" node=count key=0 least=0\n"),
    Refused(1, 5, b"node=count key= 0 least=0\n"),
    Refused(1, 5, b"node= count key=0 least=0\n"),
    Refused(1, 5, b"node=not \n"),
    Refused(1, 5, b"node=count\tkey=0 least=0\n"),
    Refused(1, 5, b"node=count key=0\tleast=0\n"),
    Refused(1, 5, b"node=count key=0 least=0\t\n"),
    Refused(1, 5, b"node=count\xa0key=0 least=0\n"),
    Refused(1, 5, b"node=count key=\xc2\xb2 least=0\n"),
    Refused(1, 5, b"node=count key=0 least=0\xff\n"),
    Refused(1, 5, b"node=count key=\xb0 least=0\n"),
    Refused(1, 5, b"nod\xe5=count key=0 least=0\n"),
    // Fields and kinds that are unknown, swapped, missing or too many.
    Refused(1, 5, b"\n"),
    Refused(1, 5, b"=\n"),
    Refused(1, 5, b"node\n"),
    Refused(1, 5, b"node=\n"),
    Refused(1, 5, b"node=select kids=1\n"),
    Refused(1, 5, b"node=Count key=0 least=0\n"),
    Refused(1, 5, b"Node=count key=0 least=0\n"),
    Refused(1, 5, b"kind=count key=0 least=0\n"),
    Refused(1, 5, b"key=0 node=count least=0\n"),
    Refused(1, 5, b"node=count least=0 key=0\n"),
    Refused(1, 5, b"node=count key=0 most=0\n"),
    Refused(1, 5, b"node=count key=0 leas=0\n"),
    Refused(1, 5, b"node=count key=0 leasts=0\n"),
    Refused(1, 5, b"node=count key=0\n"),
    Refused(1, 5, b"node=count least=0\n"),
    Refused(1, 5, b"node=count\n"),
    Refused(1, 5, b"node=count key=0 least\n"),
    Refused(1, 5, b"node=count key=0 least=0 over=1\n"),
    Refused(1, 5, b"node=count key=0 key=0 least=0\n"),
    Refused(1, 5, b"node=ability key=0 least=0\n"),
    Refused(1, 5, b"node=ability key=0 over=1 least=0\n"),
    Refused(1, 5, b"node=ability key=0 least=0 over=1 weight=1\n"),
    Refused(1, 5, b"node=not kids=1\n"),
    Refused(1, 5, b"node=nots\n"),
    Refused(1, 5, b"node=seq\n"),
    Refused(1, 5, b"node=seq kids=1 need=1\n"),
    Refused(1, 5, b"node=seq times=1\n"),
    Refused(1, 5, b"node=par kids=1\n"),
    Refused(1, 5, b"node=par need=1 kids=1\n"),
    Refused(1, 5, b"node=par kids=1 need=1 need=1\n"),
    Refused(1, 5, b"node=retry\n"),
    Refused(1, 5, b"node=retry kids=1\n"),
    Refused(1, 5, b"node=repeat times=1 times=1\n"),
    Refused(1, 5, b"node=seq kids=none\n"),
    // On one line 1 comes before 2, whichever field it is in.
    Refused(1, 5, b"node=count key=32 least=x\n"),
    Refused(1, 5, b"node=count key=x least=1000001\n"),
    Refused(1, 5, b"node=count key=32 least=0 \n"),
    Refused(1, 5, b"node=par kids=33\n"),
    Refused(1, 5, b"node=par kids=33 need=01\n"),
    Refused(1, 5, b"node=retry times=60001 kids=1\n"),
    Refused(1, 5, b"node=ability key=32 least=0 over=none\n"),
];

#[test]
fn lines_have_their_verdicts(rt: HostRuntime) -> Result<(), Fail> {
    let tally = judge_nodes(&rt, b"", &LINES)?;
    assert_eq!(rt; tally, [0, 56, 0, 0, 0, 0, 0, 0]);
    Ok(())
}
