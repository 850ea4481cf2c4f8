//! The steps of a proof.
use crate::proofs::outcomes::{Row, check_all};

const STEPS: [Row; 57] = [
    // `thus` takes the first conjuncts
    ("p & q proof thus p; thus q; end;", "19 |- A.R1; 27 |- A.R2"),
    // they are grouped in any way
    (
        "p & (q & r) proof thus p & q; thus r; end;",
        "29 |- (and A.R1 A.R2); 37 |- A.R3",
    ),
    // what is left is grouped to the left
    (
        "p & (q & (r & p)) proof thus p; thus thesis; end;",
        "31 |- A.R1; 44 |- (and (and A.R2 A.R3) A.R1)",
    ),
    // double negations don't count
    (
        "p & q proof thus not not p; thus q; end;",
        "27 |- A.R1; 35 |- A.R2",
    ),
    // not from the middle
    ("p & q proof thus q; end;", "13 41"),
    // not more than there is
    ("p proof thus p & p; end;", "9 41"),
    // all conjuncts have to come
    ("p & q proof thus p; end;", "21 42"),
    // `thesis` is what is left
    (
        "p & q proof thus p; thus thesis; end;",
        "19 |- A.R1; 32 |- A.R2",
    ),
    // behind all of it truth is left, and may be said
    (
        "p proof thus p; thus thesis; end;",
        "15 |- A.R1; 28 |- true",
    ),
    // and nothing else
    ("p proof thus p; thus p; end;", "17 41"),
    // a proof without steps
    ("p proof end;", "9 42"),
    // of two truths neither
    ("not contradiction & not contradiction proof end;", "45 42"),
    // of truth it is one
    ("not contradiction proof end; then p;", "36 true |- A.R1"),
    // `assume` takes the first antecedents
    ("p implies q proof assume p; thus q; end;", "35 |- A.R2"),
    // one after another; `hence` has the last one as a premise
    (
        "p & q implies r proof assume A: p; assume q; hence r by A; end;",
        "54 A.R2, A.R1 |- A.R3",
    ),
    // together
    (
        "p & q implies r proof assume p & q; hence r; end;",
        "44 (and A.R1 A.R2) |- A.R3",
    ),
    // as a list, which is taken one by one; the statement just before is its conjunction
    (
        "p & q implies r proof assume that A: p and B: q; hence r by B; end;",
        "58 (and A.R1 A.R2), A.R2 |- A.R3",
    ),
    // not from the middle
    ("p & q implies r proof assume q; end;", "23 41"),
    // a list of which the second doesn't fit
    ("p & q implies r proof assume that p and r; end;", "23 41"),
    // what is left of the antecedents stays one
    (
        "p & q & r implies p proof assume p; thus q & r implies p; end;",
        "57 |- (not (and (and A.R2 A.R3) (not A.R1)))",
    ),
    // a disjunction assumes that its first part fails
    ("p or q proof assume not p; thus q; end;", "34 |- A.R2"),
    // indirectly: the negation of the whole thesis
    (
        "p proof assume not p; thus contradiction; end;",
        "41 |- (not true)",
    ),
    // of a conjunction that is its negation as a whole
    (
        "p & q proof assume not (p & q); thus thesis; end;",
        "44 |- (not true)",
    ),
    // and not that of a conjunct
    ("p & q proof assume not p; end;", "13 41"),
    // something else
    ("p proof assume q; end;", "9 41"),
    // a thesis that is a negation is taken as it is written
    (
        "not p proof assume p; thus contradiction; end;",
        "41 |- (not true)",
    ),
    // contradiction negates truth
    (
        "contradiction proof assume not contradiction; thus thesis; end;",
        "58 |- (not true)",
    ),
    // `let` puts a constant for the variable
    (
        "for a being object holds a = a proof let b be object; thus b = b; end;",
        "65 |- (= c4 c4)",
    ),
    // a wider type fits, and is all that is known then
    (
        "for a being non empty set holds a = a proof let a be set; thus thesis; end;",
        "70 |- (= c4 c4)",
    ),
    // the same type
    (
        "for a being non empty set holds a = a proof let a be non empty set; thus thesis; end;",
        "80 (not (A.V1 c4)) |- (= c4 c4)",
    ),
    // a narrower one doesn't fit
    (
        "for a being set holds a = a proof let a be non empty set; end;",
        "35 41",
    ),
    // no universal
    ("p proof let a be object; end;", "9 41"),
    // a type may speak of the variables before it
    (
        "for a being set, b being Elm of a holds b in a proof let a be set, b be Elm of a; thus b in a; end;",
        "94 (A.M1 c4 c5), (HIDDEN.R1 c5 c4) |- (HIDDEN.R1 c5 c4)",
    ),
    // two variables of one type
    (
        "for a,b being object holds a = b proof let a,b be object; thus a = b; end;",
        "69 |- (= c4 c5)",
    ),
    // a variable too many
    (
        "for a being object holds a = a proof let a,b be object; end;",
        "38 41",
    ),
    // without a type it has the type with which it was reserved
    (
        "for x holds x = c proof let x; thus x = c; end;",
        "42 |- (= c4 c1)",
    ),
    // one that isn't reserved
    ("for a being object holds a = a proof let a; end;", "42 33"),
    // `let` with a condition is `let` and then `assume`
    (
        "for a being object st a in d holds p proof let a be object such that A: a in d; thus p by A; end;",
        "88 (HIDDEN.R1 c4 c2) |- A.R1",
    ),
    // its condition is the statement just before
    (
        "for a being object st a in d holds p proof let a be object such that a in d; hence p; end;",
        "85 (HIDDEN.R1 c4 c2) |- A.R1",
    ),
    // a condition that doesn't fit
    (
        "for a being object st a in d holds p proof let a be object such that a = a; end;",
        "44 41",
    ),
    // the type is read before it is fitted
    ("p proof let a be empty set; end;", "18 34"),
    // `take` puts a term for the variable
    (
        "ex a being object st a = c proof take c; thus c = c; end;",
        "52 |- (= c1 c1)",
    ),
    // its type fits by what is known
    (
        "ex a being Elm of d st a = a proof take e; thus thesis; end;",
        "55 (A.M1 c2 c3), (HIDDEN.R1 c3 c2) |- (= c3 c3)",
    ),
    // it doesn't fit
    ("ex a being Elm of d st a = a proof take c; end;", "36 41"),
    // no existential
    ("p proof take c; end;", "9 41"),
    // a list is taken one by one
    (
        "ex a,b being object st a = b proof take c,d; thus thesis; end;",
        "57 |- (= c1 c2)",
    ),
    // the second type speaks of the first term
    (
        "ex a being set, b being Elm of a st b in a proof take d,e; thus e in d; end;",
        "71 (A.M1 c2 c3), (HIDDEN.R1 c3 c2) |- (HIDDEN.R1 c3 c2)",
    ),
    // of a named term the thesis has the term and not the name
    (
        "ex a being object st a = c proof take z = c; thus z = c; end;",
        "46 41",
    ),
    // the name is equal to the term
    (
        "ex a being object st a = c proof take z = c; z = c; hence thesis; end;",
        "51 (= c4 c1) |- (= c4 c1); 65 (= c4 c1), (= c4 c1) |- (= c1 c1)",
    ),
    // a reserved variable isn't known in a term of `take`
    ("ex a being object st a = c proof take x; end;", "39 33"),
    // `given` assumes the existential, and has a constant for it
    (
        "(ex a being object st a in d) implies p proof given a being object such that A: a in d; thus p by A; end;",
        "96 (HIDDEN.R1 c4 c2) |- A.R1",
    ),
    // its condition is the statement just before
    (
        "(ex a being object st a in d) implies p proof given a being object such that a in d; hence p; end;",
        "93 (HIDDEN.R1 c4 c2) |- A.R1",
    ),
    // with the types of the erased formula: `set` and `object` are alike
    (
        "(ex a being set st a in d) implies p proof given a being object such that a in d; hence p; end;",
        "90 (HIDDEN.R1 c4 c2) |- A.R1",
    ),
    // `Elm of d` is another
    (
        "(ex a being Elm of d st a in d) implies p proof given a being object such that a in d; end;",
        "49 41",
    ),
    // two constants and two conditions
    (
        "(ex a,b being object st a in b & b in d) implies p proof given a,b being object such that A: a in b and b in d; hence p by A; end;",
        "121 (and (HIDDEN.R1 c4 c5) (HIDDEN.R1 c5 c2)), (HIDDEN.R1 c4 c5) |- A.R1",
    ),
    // indirectly
    (
        "for a being object holds not a in d proof given a being object such that a in d; thus contradiction; end;",
        "100 |- (not true)",
    ),
    // a thesis that negates an existential
    (
        "not ex a being object st a in d proof given a being object such that a in d; thus contradiction; end;",
        "96 |- (not true)",
    ),
];

#[test]
fn steps_of_a_proof(rt: HostRuntime) {
    check_all(&rt, rt.alloc(), &STEPS);
}
