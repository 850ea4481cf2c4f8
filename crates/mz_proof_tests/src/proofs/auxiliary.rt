//! Steps that leave the thesis.
use crate::proofs::outcomes::{Row, check_all};

const AUXILIARY: [Row; 35] = [
    // `consider` asks for the existential; its constant has the next number
    (
        "consider a being object such that A: a in d; a = a by A;",
        "44 |- (not (all (not (HIDDEN.R1 b0 c2)))); 52 (HIDDEN.R1 c4 c2) |- (= c4 c4)",
    ),
    // with the statement just before, which its condition is then
    (
        "p; then consider a being object such that a = c; then q;",
        "2 |- A.R1; 48 A.R1 |- (not (all (not (= b0 c1)))); 56 (= c4 c1) |- A.R2",
    ),
    // the type is part of the existential, and known of the constant
    (
        "consider a being Elm of d such that a = e; a in d;",
        "42 (A.M1 c2 c3), (HIDDEN.R1 c3 c2) |- (not (all (not (and (A.M1 c2 b0) (= b0 c3))))); 50 (A.M1 c2 c4), (HIDDEN.R1 c4 c2) |- (HIDDEN.R1 c4 c2)",
    ),
    // two constants and two conditions
    (
        "consider a,b being object such that a in d and B: b in a; then p by B;",
        "57 |- (not (all (all (not (and (HIDDEN.R1 b1 c2) (HIDDEN.R1 b0 b1)))))); 66 (and (HIDDEN.R1 c4 c2) (HIDDEN.R1 c5 c4)), (HIDDEN.R1 c5 c4) |- A.R1",
    ),
    // its labels aren't known in its justification
    ("consider a being object such that A: a in d by A;", "48 43"),
    // the thesis stays
    (
        "p proof consider a being object such that a = c; thus p; end;",
        "48 |- (not (all (not (= b0 c1)))); 56 |- A.R1",
    ),
    // `reconsider` asks for the guard: of `set` that is truth
    (
        "reconsider z = e as set; z = e;",
        "24 |- true; 31 (A.M1 c2 c3), (= c4 c3), (HIDDEN.R1 c3 c2) |- (= c4 c3)",
    ),
    // the constant has the type, and is equal to the term
    (
        "reconsider z = c as Elm of d; d has z;",
        "29 (not (HIDDEN.R1 c1 c2)) |- (A.M1 c2 c1); 38 (A.M1 c2 c4), (= c4 c1), (HIDDEN.R1 c4 c2) |- (A.R14 c2 c4)",
    ),
    // adjectives are part of the guard
    (
        "reconsider z = d as non empty set; z is non empty;",
        "34 |- (not (A.V1 c2)); 50 (not (A.V1 c4)), (= c4 c2) |- (not (A.V1 c4))",
    ),
    // without a term it is the constant of that name; behind it the name is the new one
    (
        "reconsider c as Elm of d; c in d;",
        "25 (not (HIDDEN.R1 c1 c2)) |- (A.M1 c2 c1); 33 (A.M1 c2 c4), (= c4 c1), (HIDDEN.R1 c4 c2) |- (HIDDEN.R1 c4 c2)",
    ),
    // several at one place, each with the statement just before
    (
        "p; then reconsider z = c, w = d as Elm of d by TARSKI_0:1;",
        "2 |- A.R1; 45 A.R1, (all true), (not (HIDDEN.R1 c1 c2)) |- (A.M1 c2 c1); 45 A.R1, (all true), (not (HIDDEN.R1 c2 c2)) |- (A.M1 c2 c2)",
    ),
    // the terms are read before there is any of the constants
    ("reconsider z = c, w = z as set;", "23 33"),
    // the terms are read before the type
    ("reconsider z = v as empty set;", "16 33"),
    // `set` asks nothing; its constant is equal to the term
    ("set z = c; z = c;", "17 (= c4 c1) |- (= c4 c1)"),
    // it has the first radix of the term's chain
    (
        "set z = e; z in d;",
        "18 (A.M1 c2 c4), (= c4 c3), (A.M1 c2 c3), (HIDDEN.R1 c4 c2), (HIDDEN.R1 c3 c2) |- (HIDDEN.R1 c4 c2)",
    ),
    // a list is taken one by one
    (
        "set z = c, w = z; w = c;",
        "24 (= c5 c4), (= c4 c1) |- (= c5 c1)",
    ),
    // a reserved variable isn't known in its term
    ("set z = X;", "9 33"),
    // in a condition of `consider` it is closed over
    (
        "consider a being object such that X = a;",
        "40 |- (not (all (not (all (= b0 b1)))))",
    ),
    // each neighbouring equation is asked at its own link
    (
        "c = d .= e;",
        "7 |- (= c1 c2); 11 (A.M1 c2 c3), (HIDDEN.R1 c3 c2) |- (= c2 c3)",
    ),
    // with its own references
    (
        "A: p; B: q; c = d by A .= c by B;",
        "5 |- A.R1; 11 |- A.R2; 19 A.R1 |- (= c1 c2); 29 A.R2 |- (= c2 c1)",
    ),
    // the first side is equal to the last
    (
        "A: c = d .= e .= c; p by A;",
        "10 |- (= c1 c2); 15 (A.M1 c2 c3), (HIDDEN.R1 c3 c2) |- (= c2 c3); 19 (A.M1 c2 c3), (HIDDEN.R1 c3 c2) |- (= c3 c1); 23 (= c1 c1) |- A.R1",
    ),
    // that is the statement just before
    (
        "c = d .= c; then p;",
        "7 |- (= c1 c2); 11 |- (= c2 c1); 19 (= c1 c1) |- A.R1",
    ),
    // `then` goes to the first link
    (
        "p; then c = d .= c;",
        "2 |- A.R1; 15 A.R1 |- (= c1 c2); 19 |- (= c2 c1)",
    ),
    // `thus` with links
    (
        "c = d proof thus c = c .= d; end;",
        "24 |- (= c1 c1); 28 |- (= c1 c2)",
    ),
    // what is stated has to fit, and not the first equation
    ("c = d proof thus c = d .= c; end;", "13 41"),
    // reserved variables of the first equation are constants for the others, and what is stated has all of them
    (
        "x = y .= c; then p;",
        "7 |- (= c4 c5); 11 |- (= c5 c1); 19 (all (all (= b1 c1))) |- A.R1",
    ),
    // one that only a later term has
    ("x = c .= y;", "10 33"),
    // they are read before what is stated is fitted
    ("c = d proof thus d = c .= v; end;", "27 33"),
    // a term that isn't read is told behind the references in front of it, and before those behind it
    ("c = d by B .= v;", "10 43"),
    ("c = d .= c by B .= v;", "15 43"),
    ("c = d .= v by B;", "10 33"),
    ("v = d by B .= c;", "1 33"),
    ("c = d proof thus d = c by B .= v; end;", "27 43"),
    ("A: p; c = d by A .= c by A .= v by B;", "31 33"),
    // where all terms are read, the step has to fit before its references are looked up
    ("c = d proof thus c = d by B .= c; end;", "13 41"),
];

#[test]
fn steps_that_leave_the_thesis(rt: HostRuntime) {
    check_all(&rt, rt.alloc(), &AUXILIARY);
}
