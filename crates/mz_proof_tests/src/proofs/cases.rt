//! Splits into cases.
use crate::proofs::outcomes::{Row, check_all};

const CASES: [Row; 17] = [
    // the disjunction of what is supposed is asked, before the blocks
    (
        "p proof per cases; suppose q; thus p; end; suppose not q; thus p; end; end;",
        "18 |- (not (and (not A.R2) A.R2)); 37 |- A.R1; 65 |- A.R1",
    ),
    // what is supposed is the statement just before in its block
    (
        "A: p or q; r proof per cases by A; suppose p; hence r; end; suppose q; hence r; end; end;",
        "10 |- (not (and (not A.R1) (not A.R2))); 30 (not (and (not A.R1) (not A.R2))) |- (not (and (not A.R1) (not A.R2))); 54 A.R1 |- A.R3; 79 A.R2 |- A.R3",
    ),
    // the disjunction groups to the left
    (
        "p proof per cases; suppose p; hence p; end; suppose q; thus p; end; suppose r; thus p; end; end;",
        "18 |- (not (and (and (not A.R1) (not A.R2)) (not A.R3))); 38 A.R1 |- A.R1; 62 |- A.R1; 86 |- A.R1",
    ),
    // several propositions are joined
    (
        "r proof per cases; suppose that A: p and q; hence r by A; end; suppose r; hence thesis; end; end;",
        "18 |- (not (and (not (and A.R1 A.R2)) (not A.R3))); 53 (and A.R1 A.R2), A.R1 |- A.R3; 87 A.R3 |- A.R3",
    ),
    // one case alone
    (
        "p proof per cases; suppose q; thus p; end; end;",
        "18 |- A.R2; 37 |- A.R1",
    ),
    // `then` puts the statement just before in front
    (
        "r proof p or q; then per cases; suppose p; hence r; end; suppose q; hence r; end; end;",
        "15 |- (not (and (not A.R1) (not A.R2))); 31 (not (and (not A.R1) (not A.R2))) |- (not (and (not A.R1) (not A.R2))); 51 A.R1 |- A.R3; 76 A.R2 |- A.R3",
    ),
    // it is wanted
    (
        "r proof then per cases by B; suppose r; hence r; end; end;",
        "9 41",
    ),
    // each block proves what is left
    (
        "p & q proof thus p; per cases; suppose r; thus q; end; suppose not r; thus thesis; end; end;",
        "19 |- A.R1; 30 |- (not (and (not A.R3) A.R3)); 49 |- A.R2; 82 |- A.R2",
    ),
    // a block in which something is left
    (
        "p proof per cases; suppose q; end; suppose not q; thus p; end; end;",
        "31 42",
    ),
    // a step that doesn't fit in a block
    (
        "p proof per cases; suppose q; thus p; end; suppose not q; thus q; end; end;",
        "59 41",
    ),
    // a block's thesis is whole again
    (
        "p & q proof per cases; suppose r; thus p; thus q; end; suppose not r; thus p & q; end; end;",
        "22 |- (not (and (not A.R3) A.R3)); 41 |- A.R1; 49 |- A.R2; 81 |- (and A.R1 A.R2)",
    ),
    // a block's labels end with it
    (
        "p proof per cases; suppose A: q; thus p; end; suppose not q; thus p by A; end; end;",
        "72 43",
    ),
    // a block's constants end with it, and their numbers are free
    (
        "p proof per cases; suppose q; consider a being object such that a = c; thus p; end; suppose not q; consider b being Elm of d such that b = e; b in d; thus p; end; end;",
        "18 |- (not (and (not A.R2) A.R2)); 70 |- (not (all (not (= b0 c1)))); 78 |- A.R1; 141 (A.M1 c2 c3), (HIDDEN.R1 c3 c2) |- (not (all (not (and (A.M1 c2 b0) (= b0 c3))))); 149 (A.M1 c2 c4), (HIDDEN.R1 c4 c2) |- (HIDDEN.R1 c4 c2); 157 |- A.R1",
    ),
    // the references come before the blocks
    ("p proof per cases by B; suppose v = v; end; end;", "22 43"),
    // what is supposed is read
    ("p proof per cases; suppose v = v; end; end;", "28 33"),
    // cases within cases
    (
        "p proof per cases; suppose q; per cases; suppose r; thus p; end; suppose not r; thus p; end; end; suppose not q; thus p; end; end;",
        "18 |- (not (and (not A.R2) A.R2)); 40 |- (not (and (not A.R3) A.R3)); 59 |- A.R1; 87 |- A.R1; 120 |- A.R1",
    ),
    // a thesis may be unfolded in a block
    (
        "u9 proof per cases; suppose q; thus p; thus q; end; suppose not q; thus u9; end; end;",
        "19 |- (not (and (not A.R2) A.R2)); 38 |- A.R1; 46 |- A.R2; 75 (not (and A.R1 A.R2)) |- A.R13",
    ),
];

#[test]
fn splits_into_cases(rt: HostRuntime) {
    check_all(&rt, rt.alloc(), &CASES);
}
