//! Steps that unfold the thesis.
use crate::proofs::outcomes::{Row, check_all};

const UNFOLDED: [Row; 15] = [
    // without an unfolding, where that will do
    ("u1 proof thus u1; end;", "17 (not A.R6) |- A.R5"),
    // after one unfolding
    ("u9 proof thus p; thus q; end;", "16 |- A.R1; 24 |- A.R2"),
    // after eight
    ("u2 proof thus p; thus q; end;", "16 |- A.R1; 24 |- A.R2"),
    // with nine there is none
    ("u1 proof thus p; end;", "10 41"),
    // as few as will do
    (
        "u1 proof thus u9; end;",
        "17 (not (and A.R1 A.R2)) |- A.R13",
    ),
    // the first conjunct is unfolded in its place
    (
        "u9 & r proof thus p; thus q & r; end;",
        "20 |- A.R1; 32 |- (and A.R2 A.R3)",
    ),
    // and not a later one
    ("r & u9 proof thus r & p; end;", "14 41"),
    // until it is the first
    (
        "r & u9 proof thus r; thus p; thus q; end;",
        "20 |- A.R3; 28 |- A.R1; 36 |- A.R2",
    ),
    // an antecedent isn't unfolded
    ("u9 implies r proof assume p & q; end;", "20 41"),
    // nor a negated atom
    ("not u9 proof assume p & q; end;", "14 41"),
    // indirectly behind an unfolding
    (
        "u9 proof assume not (p & q); thus contradiction; end;",
        "48 |- (not true)",
    ),
    // a predicate with arguments: `let` and `assume` behind one unfolding
    (
        "d c= d proof let a be object; assume A: a in d; thus a in d by A; end;",
        "61 (HIDDEN.R1 c4 c2) |- (HIDDEN.R1 c4 c2)",
    ),
    // an equation by its right side
    (
        "d = sin c proof let a be object; thus a in d implies a = c; thus a = c implies a in d; end;",
        "59 |- (not (and (HIDDEN.R1 c4 c2) (not (= c4 c1)))); 86 |- (not (and (= c4 c1) (not (HIDDEN.R1 c4 c2))))",
    ),
    // by its left side, where the right one doesn't unfold
    (
        "sin c = d proof let a be object; thus thesis; end;",
        "45 |- (and (not (and (HIDDEN.R1 c4 c2) (not (= c4 c1)))) (not (and (= c4 c1) (not (HIDDEN.R1 c4 c2)))))",
    ),
    // by the right one, where both would
    (
        "sin c = sin d proof let a be object; thus a in sin c iff a = d; end;",
        "63 |- (and (not (and (HIDDEN.R1 c4 (A.O1 c1)) (not (= c4 c2)))) (not (and (= c4 c2) (not (HIDDEN.R1 c4 (A.O1 c1))))))",
    ),
];

#[test]
fn steps_that_unfold_the_thesis(rt: HostRuntime) {
    check_all(&rt, rt.alloc(), &UNFOLDED);
}
