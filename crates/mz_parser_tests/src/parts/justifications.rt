//! Justifications without a proof.
use crate::parts::texts::{Part, answered};
use mz_parser_samples::answer::Answer;

const ROWS: [(&[u8], Answer); 31] = [
    (b"", Answer::Until(0)),
    (b";", Answer::Until(0)),
    (b"by A ;", Answer::Until(2)),
    (b"by A, B;", Answer::Until(4)),
    (b"by A:1,2,B", Answer::Until(8)),
    (b"by A:def 1, 2, def 3, B:4", Answer::Until(14)),
    (b"by tarski_0:3", Answer::Until(4)),
    (b"by A from B", Answer::Until(2)),
    // numbers go on a reference that has some
    (b"by A, 1", Answer::Unexpected(37)),
    (b"by A:1, B, 2", Answer::Unexpected(42)),
    (b"by 1", Answer::Unexpected(34)),
    (b"by A:1, ;", Answer::Unexpected(39)),
    // only a name has a colon behind it
    (b"by x':1", Answer::Until(2)),
    (b"by verylongname:1", Answer::Until(2)),
    (b"by A:;", Answer::Unexpected(36)),
    (b"by A:def x", Answer::Unexpected(40)),
    (b"by A:sch 1", Answer::Unexpected(36)),
    (b"by", Answer::EndsEarly(33)),
    (b"by A:", Answer::EndsEarly(36)),
    (b"by A,", Answer::EndsEarly(36)),
    (b"by ;", Answer::Unexpected(34)),
    (b"from S;", Answer::Until(2)),
    (b"from A:sch 1", Answer::Until(5)),
    (b"from A:1", Answer::Unexpected(38)),
    (b"from A:sch x", Answer::Unexpected(42)),
    (b"from S(A, B:1, 2)", Answer::Until(11)),
    (b"from A:sch 1(B)", Answer::Until(8)),
    (b"from S, T", Answer::Until(2)),
    (b"from S()", Answer::Unexpected(38)),
    (b"from S(A", Answer::EndsEarly(39)),
    (b"from S(A:1, B, 2)", Answer::Unexpected(46)),
];

#[test]
fn justifications_without_a_proof(rt: HostRuntime) {
    let alloc = rt.alloc();
    for (text, answer) in &ROWS {
        assert!(rt; answered(&rt, alloc, Part::Simple, text) == *answer);
    }
}
