//! The statement just before.
use crate::proofs::outcomes::{Row, check_all};

const BEFORE: [Row; 18] = [
    // behind `let` alone there is none
    (
        "for a being object holds p proof let a be object; hence p; end;",
        "51 41",
    ),
    // behind `take` there is none
    (
        "ex a being object st a = c proof p; take c; hence thesis; end;",
        "45 41",
    ),
    // behind `set` there is none
    ("p; set z = c; then q;", "15 41"),
    // behind `reconsider` there is none
    ("p; reconsider z = c as set; then q;", "29 41"),
    // behind `assume` it is what is assumed
    (
        "p implies q proof assume p; then r; hence q; end;",
        "35 A.R1 |- A.R3; 44 A.R3 |- A.R2",
    ),
    // behind `thus` it is what was proved
    (
        "p & q proof thus p; hence q; end;",
        "19 |- A.R1; 28 A.R1 |- A.R2",
    ),
    // `thus` has labels, too
    (
        "p & q proof thus A: p; thus q by A; end;",
        "22 |- A.R1; 31 A.R1 |- A.R2",
    ),
    // behind a proof it is the statement that was proved
    (
        "p proof thus p; end; then q;",
        "15 |- A.R1; 28 A.R1 |- A.R2",
    ),
    // `then` before a proof wants one
    ("then p proof thus p; end;", "1 41"),
    // and does no more
    ("p; then q proof thus q; end;", "2 |- A.R1; 23 |- A.R2"),
    // the proof's first step has none
    ("p; then q proof hence q; end;", "17 41"),
    // nor has the first step of a `now`
    ("p; now then q; end;", "8 41"),
    // behind a `now` it is what that states
    ("now thus p; end; then q;", "11 |- A.R1; 24 A.R1 |- A.R2"),
    // behind `hereby` too
    (
        "p & q proof hereby thus p; end; hence q; end;",
        "26 |- A.R1; 40 A.R1 |- A.R2",
    ),
    // before `reconsider` it is a premise
    (
        "p; then reconsider z = d as non empty set;",
        "2 |- A.R1; 42 A.R1 |- (not (A.V1 c2))",
    ),
    // in front of `reconsider` it is wanted
    ("then reconsider z = v as set;", "1 41"),
    // in front of `consider` it is wanted
    ("then consider a being Elm of v such that p;", "1 41"),
    // behind a longer proof it is the statement as a whole
    (
        "r; p implies q proof assume p; thus q; end; then r;",
        "2 |- A.R3; 38 |- A.R2; 51 (not (and A.R1 (not A.R2))) |- A.R3",
    ),
];

#[test]
fn the_statement_just_before(rt: HostRuntime) {
    check_all(&rt, rt.alloc(), &BEFORE);
}
