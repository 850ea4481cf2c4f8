//! Reasonings.
use crate::reasonings::texts::answered;
use mz_parser_samples::answer::Answer;
use mz_pproof::forms::ProofForm;

const REASONINGS: [(&[u8], Answer); 16] = [
    (b"", Answer::Until(0)),
    (b"thus thesis;", Answer::Until(3)),
    (b"hence A: thesis by B;", Answer::Until(7)),
    (
        b"let x be set; assume x = x; take y; thus thesis; end",
        Answer::Until(16),
    ),
    (b"take x = y, z;", Answer::Until(7)),
    (
        b"assume that A: x = x and B: x = y; thus thesis;",
        Answer::Until(17),
    ),
    (b"given x being set such that x = x;", Answer::Until(10)),
    (b"let x such that x = x;", Answer::Until(8)),
    (
        b"per cases; suppose A: x = x; thus thesis; end; suppose not x = x; end;",
        Answer::Until(23),
    ),
    (
        b"then per cases by A; suppose thesis; end;",
        Answer::Until(11),
    ),
    (
        b"per cases; suppose thesis; end; thus thesis;",
        Answer::Until(8),
    ),
    (b"per cases;", Answer::EndsEarly(41)),
    (b"hereby thus thesis; end;", Answer::Until(6)),
    (b"hereby", Answer::EndsEarly(37)),
    (b"thus", Answer::EndsEarly(35)),
    (b"then per thesis", Answer::Unexpected(40)),
];

#[test]
fn reasonings(rt: HostRuntime) {
    let alloc = rt.alloc();
    for (text, answer) in &REASONINGS {
        assert!(rt; answered(&rt, alloc, ProofForm::Reasoning, text) == *answer);
    }
}
