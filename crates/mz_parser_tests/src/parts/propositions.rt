//! Propositions.
use crate::parts::texts::{Part, answered};
use mz_parser_samples::answer::Answer;

const ROWS: [(&[u8], Answer); 17] = [
    (b"x = y;", Answer::Until(3)),
    (b"A: x = y;", Answer::Until(5)),
    (b"x in y by A", Answer::Until(3)),
    (b"not x = x", Answer::Until(4)),
    (b"P[x] & Q[y];", Answer::Until(9)),
    (b"A: for x holds x = x", Answer::Until(8)),
    (b"A: (x) = x", Answer::Until(7)),
    // a label and a formula both begin with an identifier
    (b"A", Answer::EndsEarly(32)),
    (b"A ;", Answer::Unexpected(33)),
    (b"A:", Answer::EndsEarly(33)),
    (b"A:y", Answer::EndsEarly(34)),
    (b"A: B: x = y", Answer::Unexpected(35)),
    (b"A: now", Answer::Unexpected(34)),
    (b"A: ;", Answer::Unexpected(34)),
    (b"and", Answer::Unexpected(31)),
    (b"1: x = x", Answer::Unexpected(31)),
    (b"", Answer::EndsEarly(31)),
];

#[test]
fn propositions(rt: HostRuntime) {
    let alloc = rt.alloc();
    for (text, answer) in &ROWS {
        assert!(rt; answered(&rt, alloc, Part::Proposition, text) == *answer);
    }
}
