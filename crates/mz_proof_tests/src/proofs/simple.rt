//! Statements with justifications without a proof.
use crate::proofs::outcomes::{Row, check_all};

const SIMPLE: [Row; 39] = [
    // a statement is asked at the token behind it
    ("p;", "2 |- A.R1"),
    // an equation of constants of which nothing is known
    ("c = d;", "6 |- (= c1 c2)"),
    // what is cited is a premise; the place is the word `by`
    ("A: p; q by A;", "5 |- A.R1; 9 A.R1 |- A.R2"),
    // a reference as often as it is written, in its order
    (
        "A: p; B: q; r by B,A,B;",
        "5 |- A.R1; 11 |- A.R2; 15 A.R2, A.R1, A.R2 |- A.R3",
    ),
    // `then` puts the statement just before in front
    ("p; then q;", "2 |- A.R1; 10 A.R1 |- A.R2"),
    // in front of what is cited, too
    (
        "A: p; q; then r by A;",
        "5 |- A.R1; 8 |- A.R2; 17 A.R2, A.R1 |- A.R3",
    ),
    // a label that nothing has
    ("p by B;", "6 43"),
    // the first reference that cites nothing
    ("A: p; q by A,C,B;", "14 43"),
    // a statement's label isn't known in its own justification
    ("A: p by A;", "9 43"),
    // nor within its proof
    ("A: p proof thus p by A; end;", "22 43"),
    // the latest statement of a name
    (
        "A: p; A: q; r by A;",
        "5 |- A.R1; 11 |- A.R2; 15 A.R2 |- A.R3",
    ),
    // the earlier one is cited while the later one is justified
    ("A: p; A: q by A;", "5 |- A.R1; 12 A.R1 |- A.R2"),
    // a theorem that was let in: that every object is a set says nothing of an object
    ("p by TARSKI_0:1;", "3 (all true) |- A.R1"),
    // a number that no theorem has, and an article that wasn't let in
    ("p by TARSKI_0:9;", "6 43"),
    // the reference's place is that of its name
    ("p by TARSKI_0:1,TARSKI_A:1;", "17 43"),
    // what is known of the constants that occur, and the definiens of its parts
    (
        "e in d;",
        "7 (A.M1 c2 c3), (HIDDEN.R1 c3 c2) |- (HIDDEN.R1 c3 c2)",
    ),
    // leading quantifiers are opened; the guards of their constants stand last, what these add before
    (
        "for a being Elm of d, b being set holds a in b;",
        "47 (HIDDEN.R1 c4 c2), (A.M1 c2 c4) |- (HIDDEN.R1 c4 c5)",
    ),
    // a quantifier under a negation isn't opened
    (
        "not for a being object holds a in d;",
        "36 |- (not (all (HIDDEN.R1 b0 c2)))",
    ),
    // the negated definiens for the negated conclusion
    (
        "d c= d;",
        "7 (not (all (not (and (HIDDEN.R1 b0 c2) (not (HIDDEN.R1 b0 c2)))))) |- (A.R4 c2 c2)",
    ),
    // the definiens for a premise
    (
        "A: d c= d; p by A;",
        "10 (not (all (not (and (HIDDEN.R1 b0 c2) (not (HIDDEN.R1 b0 c2)))))) |- (A.R4 c2 c2); 14 (A.R4 c2 c2), (all (not (and (HIDDEN.R1 b0 c2) (not (HIDDEN.R1 b0 c2))))) |- A.R1",
    ),
    // once, and not for what was added
    (
        "A: u8; p by A;",
        "6 (not A.R13) |- A.R12; 10 A.R12, A.R13 |- A.R1",
    ),
    // for each conjunct of a premise, a negated one too
    (
        "A: not u9 & u8; p by A;",
        "15 |- (and (not A.R13) A.R12); 19 (and (not A.R13) A.R12), (not (and A.R1 A.R2)), A.R13 |- A.R1",
    ),
    // `not (not u9 & u8)` is one part and no atom, so the first of these adds nothing
    (
        "A: not (u9 & u8); p by A;",
        "17 (and A.R1 A.R2), A.R13 |- (not (and A.R13 A.R12)); 21 (not (and A.R13 A.R12)) |- A.R1",
    ),
    // one constant stands for both bound variables of the theorem
    (
        "for x being object ex z being set st for a being object holds a in z iff a = x or a = x by TARSKI_0:3;",
        "89 (all (all (not (all (not (all (and (not (and (HIDDEN.R1 b0 b1) (and (not (= b0 b3)) (not (= b0 b2))))) (not (and (not (and (not (= b0 b3)) (not (= b0 b2)))) (not (HIDDEN.R1 b0 b1))))))))))) |- (not (all (not (all (and (not (and (HIDDEN.R1 b0 b1) (and (not (= b0 c4)) (not (= b0 c4))))) (not (and (not (and (not (= b0 c4)) (not (= b0 c4)))) (not (HIDDEN.R1 b0 b1)))))))))",
    ),
    // two statements, each for all objects: the constants of the first are free again in the second
    (
        "for x,y being object holds x = y; for x,y being object holds x in y;",
        "33 |- (= c4 c5); 68 |- (HIDDEN.R1 c4 c5)",
    ),
    // a conjunction is asked as one
    (
        "for x,y being object holds x = x & x = y;",
        "41 |- (and (= c4 c4) (= c4 c5))",
    ),
    // a statement with free reserved variables is asked and kept closed
    (
        "X = c; then p;",
        "6 |- (= c4 c1); 14 (all (= b0 c1)) |- A.R1",
    ),
    // in the order in which they stand
    (
        "Y = X; then p;",
        "6 |- (= c4 c5); 14 (all (all (= b1 b0))) |- A.R1",
    ),
    // as a closed statement: the guard of its variable stands last
    (
        "N c= N;",
        "7 (not (all (not (and (HIDDEN.R1 b0 c4) (not (HIDDEN.R1 b0 c4)))))), (not (A.V1 c4)) |- (A.R4 c4 c4)",
    ),
    // no statement just before at the start
    ("then p;", "1 41"),
    // that is refused before the statement is read
    ("set z = c; then v = c;", "12 41"),
    // the formula is read before its justification
    ("v = c by B;", "1 33"),
    // a symbol without a notation
    ("d is strict;", "6 31"),
    // a symbol with too few arguments
    ("d c=;", "3 32"),
    // a type that no registration covers
    ("d is empty set;", "6 34"),
    // an argument that doesn't fit, and one that does
    ("d has c;", "3 35"),
    // an argument fits by what is known of its constant
    (
        "d has e;",
        "8 (A.M1 c2 c3), (HIDDEN.R1 c3 c2) |- (A.R14 c2 c3)",
    ),
    // `thesis` outside a proof is unknown
    ("thesis;", "1 33"),
    // also in a `now`
    ("now thus thesis; end;", "10 33"),
];

#[test]
fn statements_and_what_justifies_them(rt: HostRuntime) {
    check_all(&rt, rt.alloc(), &SIMPLE);
}
