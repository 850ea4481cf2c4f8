//! What is known in a block and behind it, and which fault comes first.
use crate::proofs::outcomes::{Row, check_all};

const BLOCKS: [Row; 23] = [
    // a label is known in inner blocks, a later one hides it there alone
    (
        "A: p; now thus q by A; A: r; thus r by A; end; q by A;",
        "5 |- A.R1; 18 A.R1 |- A.R2; 28 |- A.R3; 37 A.R3 |- A.R3; 50 A.R1 |- A.R2",
    ),
    // a label of a `now` isn't known behind it
    ("now A: p; end; q by A;", "21 43"),
    // a label of a proof isn't known behind it
    ("p proof A: q; thus p; end; r by A;", "33 43"),
    // a label within a proof is known in a proof in it
    (
        "p proof A: q; r proof thus r by A; end; thus p by B; end;",
        "51 43",
    ),
    // it is cited there
    (
        "p proof A: q; r proof thus r by A; end; thus p; end;",
        "13 |- A.R2; 30 A.R2 |- A.R3; 47 |- A.R1",
    ),
    // a constant's number is free behind its block
    (
        "for a being object holds a = a proof let a be object; thus a = a; end; for b being set holds b = c proof let b be set; thus b = c; end; consider a being object such that a = d; a = d;",
        "65 |- (= c4 c4); 130 |- (= c4 c1); 176 |- (not (all (not (= b0 c2)))); 183 |- (= c4 c2)",
    ),
    // behind the constant of a block around it the next one
    (
        "for a being object holds p proof let a be object; now let b be Elm of d; thus b = a; end; now let b be object; thus a = b; end; thus p; end;",
        "84 (A.M1 c2 c5), (HIDDEN.R1 c5 c2) |- (= c5 c4); 122 |- (= c4 c5); 135 |- A.R1",
    ),
    // its name isn't known behind the block
    ("now let a be object; end; a = a;", "27 33"),
    // a name of a block hides an outer one there alone
    (
        "now let c be set; thus c = c; end; c = c;",
        "29 |- (= c4 c4); 41 |- (= c1 c1)",
    ),
    // free reserved variables are constants in the proof alone
    (
        "X = X proof X = X; hence thesis; end; then p;",
        "18 |- (= c4 c4); 32 (= c4 c4) |- (= c4 c4); 45 (all (= b0 b0)) |- A.R1",
    ),
    // two of them
    (
        "X = Y implies Y = X proof assume X = Y; hence Y = X; end;",
        "52 (= c4 c5) |- (= c5 c4)",
    ),
    // what is known of one
    (
        "N = N proof thus thesis; end;",
        "24 (not (A.V1 c4)) |- (= c4 c4)",
    ),
    // another reserved variable in the proof is closed
    (
        "X = X proof x = X; thus thesis; end;",
        "18 |- (= c5 c4); 31 |- (= c4 c4)",
    ),
    // behind the proof it isn't known as a constant
    ("X = X proof thus thesis; end; set z = X;", "39 33"),
    // constants of the article's own level stay
    (
        "set z = c; set w = z; reconsider v = w as set; v = c;",
        "46 |- true; 53 (= c6 c5), (= c5 c4), (= c4 c1) |- (= c6 c1)",
    ),
    // a step that doesn't fit is refused before its justification
    ("p proof thus q by B; end;", "9 41"),
    // before its proof
    ("p proof thus q proof thus v = v; end; end;", "9 41"),
    // behind its reading
    ("p proof thus v = v; end;", "14 33"),
    // what is wrong in a proof comes before what is left of it
    ("p proof q by B; end;", "14 43"),
    // nested proofs have obligations in the order of the text
    (
        "p & q proof thus p proof r; hence thesis; end; hence q by TARSKI_0:1; end;",
        "27 |- A.R3; 41 A.R3 |- A.R1; 56 A.R1, (all true) |- A.R2",
    ),
    // the text of the built proof with two conjuncts
    (
        "for x,y being object st x in y holds y = y & x in y proof let x,y be object; assume A: x in y; thus y = y; thus thesis by A; end;",
        "106 |- (= c5 c5); 120 (HIDDEN.R1 c4 c5) |- (HIDDEN.R1 c4 c5)",
    ),
    // without its last step
    (
        "for x,y being object st x in y holds y = y & x in y proof let x,y be object; assume A: x in y; thus y = y; end;",
        "108 42",
    ),
    // a disjunction that is cited three times
    (
        "for x,y being object st x in y or y in x holds x = x proof let x,y be object; assume A: x in y or y in x; thus thesis by A,A,A; end;",
        "119 (not (and (not (HIDDEN.R1 c4 c5)) (not (HIDDEN.R1 c5 c4)))), (not (and (not (HIDDEN.R1 c4 c5)) (not (HIDDEN.R1 c5 c4)))), (not (and (not (HIDDEN.R1 c4 c5)) (not (HIDDEN.R1 c5 c4)))) |- (= c4 c4)",
    ),
];

#[test]
fn blocks_in_blocks(rt: HostRuntime) {
    check_all(&rt, rt.alloc(), &BLOCKS);
}
