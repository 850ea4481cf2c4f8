//! Statements and justifications.
use crate::reasonings::texts::answered;
use mz_parser_samples::answer::Answer;
use mz_pproof::forms::ProofForm;

const STATEMENTS: [(&[u8], Answer); 31] = [
    (b"x = y;", Answer::Until(4)),
    (b"then x = y by A;", Answer::Until(7)),
    (b"A: x = y;", Answer::Until(6)),
    (b"now end;", Answer::Until(3)),
    (b"A: now end;", Answer::Until(5)),
    (b"then now end;", Answer::Unexpected(36)),
    (b"then A: x = x;", Answer::Until(7)),
    (b"x = y by A .= z by B;", Answer::Until(10)),
    (b"x = y & x = y .= z;", Answer::Unexpected(45)),
    (b"x = y proof end .= z;", Answer::Unexpected(47)),
    (b"(x) = y .= z;", Answer::Until(8)),
    (b"x <> y .= z;", Answer::Unexpected(38)),
    (
        b"consider x being set such that x = x by A;",
        Answer::Until(12),
    ),
    (
        b"then consider x such that A: x = x and x = y;",
        Answer::Until(15),
    ),
    (b"reconsider x = y, z as set by A;", Answer::Until(11)),
    (b"set x = y, z = x;", Answer::Until(9)),
    (b"then set x = y;", Answer::Unexpected(36)),
    (b"deffunc F(set, set) = x;", Answer::Until(10)),
    (b"deffunc F() = x;", Answer::Until(7)),
    (b"defpred P[set] means x = x;", Answer::Until(10)),
    (b"set x y", Answer::Unexpected(37)),
    (
        b"thesis proof per cases; suppose thesis; end; thus thesis; end;",
        Answer::Unexpected(76),
    ),
    (b"thesis", Answer::EndsEarly(37)),
    (b"thesis proof", Answer::EndsEarly(43)),
    (b"x = y by A:1,2,B;", Answer::Until(12)),
    (b"x = y by tarski_0:3;", Answer::Until(8)),
    (b"x = y by x':1;", Answer::Unexpected(42)),
    (b"x = y by A:01;", Answer::Until(8)),
    (
        b"x = y by A:340282366920938463463374607431768211456;",
        Answer::Until(8),
    ),
    (b"A: consider x such that x = x;", Answer::Unexpected(34)),
    (b"x = y from S(A) .= z from A:sch 1;", Answer::Until(16)),
];

#[test]
fn statements(rt: HostRuntime) {
    let alloc = rt.alloc();
    for (text, answer) in &STATEMENTS {
        assert!(rt; answered(&rt, alloc, ProofForm::Statement, text) == *answer);
    }
}

const PROPOSITIONS: [(&[u8], Answer); 6] = [
    (b"x = y;", Answer::Until(3)),
    (b"A: x = y;", Answer::Until(5)),
    (b"x in y by A", Answer::Until(3)),
    (b"A ;", Answer::Unexpected(33)),
    (b"A:y", Answer::EndsEarly(34)),
    (b"A: now", Answer::Unexpected(34)),
];

#[test]
fn propositions(rt: HostRuntime) {
    let alloc = rt.alloc();
    for (text, answer) in &PROPOSITIONS {
        assert!(rt; answered(&rt, alloc, ProofForm::Proposition, text) == *answer);
    }
}

const JUSTIFICATIONS: [(&[u8], Answer); 6] = [
    (b"proof end", Answer::Until(2)),
    (b"proof thus thesis; end", Answer::Until(5)),
    (b"by A", Answer::Until(2)),
    (b"", Answer::Until(0)),
    (b"proof", Answer::EndsEarly(36)),
    (b"proof by A", Answer::Unexpected(37)),
];

#[test]
fn justifications(rt: HostRuntime) {
    let alloc = rt.alloc();
    for (text, answer) in &JUSTIFICATIONS {
        assert!(rt; answered(&rt, alloc, ProofForm::Justification, text) == *answer);
    }
}
