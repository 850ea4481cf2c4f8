//! What a `now` states.
use crate::proofs::outcomes::{Row, check_all};

const NOWS: [Row; 50] = [
    // a conjunct
    (
        "now thus p & q; end; then r;",
        "15 |- (and A.R1 A.R2); 28 (and A.R1 A.R2) |- A.R3",
    ),
    // conjuncts, grouped to the left, each as it is written
    (
        "now thus p; thus q & r; thus p; end; then q;",
        "11 |- A.R1; 23 |- (and A.R2 A.R3); 31 |- A.R1; 44 (and (and A.R1 (and A.R2 A.R3)) A.R1) |- A.R2",
    ),
    // an antecedent
    (
        "now assume p; thus q; end; then r;",
        "21 |- A.R2; 34 (not (and A.R1 (not A.R2))) |- A.R3",
    ),
    // antecedents of a list are one behind the other
    (
        "now assume that p and q; thus r; end; then p;",
        "32 |- A.R3; 45 (not (and A.R1 (and A.R2 (not A.R3)))) |- A.R1",
    ),
    // a quantifier
    (
        "now let a be object; thus a = c; end; then p;",
        "32 |- (= c4 c1); 45 (all (= b0 c1)) |- A.R1",
    ),
    // a quantifier with its type and a condition
    (
        "now let a be Elm of d such that a = e; thus a in d; end; then p;",
        "51 (A.M1 c2 c4), (HIDDEN.R1 c4 c2) |- (HIDDEN.R1 c4 c2); 64 (all (not (and (A.M1 c2 b0) (and (= b0 c3) (not (HIDDEN.R1 b0 c2)))))), (A.M1 c2 c3), (HIDDEN.R1 c3 c2) |- A.R1",
    ),
    // two variables, the later type speaks of the earlier one
    (
        "now let a be set, b be Elm of a; thus b in a; end; then p;",
        "45 (A.M1 c4 c5), (HIDDEN.R1 c5 c4) |- (HIDDEN.R1 c5 c4); 58 (all (all (not (and (A.M1 b1 b0) (not (HIDDEN.R1 b0 b1)))))) |- A.R1",
    ),
    // a conjunct before an antecedent stays outside
    (
        "now thus p; assume q; thus r; end; then q;",
        "11 |- A.R1; 29 |- A.R3; 42 (and A.R1 (not (and A.R2 (not A.R3)))) |- A.R2",
    ),
    // nothing: truth
    ("now end; then p;", "16 true |- A.R1"),
    // a quantifier over nothing
    ("now let a be object; end; then p;", "33 (all true) |- A.R1"),
    // with a type
    (
        "now let a be Elm of d; end; then p;",
        "35 (all (not (and (A.M1 c2 b0) (not true)))) |- A.R1",
    ),
    // an antecedent of nothing
    (
        "now assume p; end; then q;",
        "26 (not (and A.R1 (not true))) |- A.R2",
    ),
    // `given` is an antecedent
    (
        "now given a being object such that a in d; thus p; end; then q;",
        "50 |- A.R1; 63 (not (and (not (all (not (HIDDEN.R1 b0 c2)))) (not A.R1))) |- A.R2",
    ),
    // its condition is the statement just before
    (
        "now given a being object such that a in d; hence p; end; then q;",
        "51 (HIDDEN.R1 c4 c2) |- A.R1; 64 (not (and (not (all (not (HIDDEN.R1 b0 c2)))) (not A.R1))) |- A.R2",
    ),
    // a constant of `given` isn't stated
    (
        "now given a being object such that a in d; thus a in d by B; end;",
        "44 41",
    ),
    // nor one of `consider`
    (
        "now consider a being object such that a = c; thus a = c by B; end;",
        "46 41",
    ),
    // in no antecedent
    (
        "now consider a being object such that a = c; assume a in d; end;",
        "46 41",
    ),
    // in no type
    (
        "now consider a being set such that a = c; let b be Elm of a; end;",
        "43 41",
    ),
    // in no existential
    (
        "now consider a being set such that a = c; given b being object such that b in a; end;",
        "43 41",
    ),
    // it may help
    (
        "now consider a being object such that A: a = c; thus p by A; end; then q;",
        "47 |- (not (all (not (= b0 c1)))); 56 (= c4 c1) |- A.R1; 73 A.R1 |- A.R2",
    ),
    // what the steps say between doesn't count
    (
        "now let a be object; consider b being object such that b = a; b = b; thus p; end; then q;",
        "61 |- (not (all (not (= b0 c4)))); 68 |- (= c5 c5); 76 |- A.R1; 89 (all A.R1) |- A.R2",
    ),
    // a constant of `set` is replaced by its term
    (
        "now set z = c; thus z = d; end; then p;",
        "26 (= c4 c1) |- (= c4 c2); 39 (= c1 c2) |- A.R1",
    ),
    // also by a term with a variable of `let`
    (
        "now let a be object; set z = sin a; thus z = c; end; then p;",
        "47 (= c5 (A.O1 c4)) |- (= c5 c1); 60 (all (= (A.O1 b0) c1)) |- A.R1",
    ),
    // through another one
    (
        "now set z = c, w = z; thus w = d; end; then p;",
        "33 (= c5 c4), (= c4 c1) |- (= c5 c2); 46 (= c1 c2) |- A.R1",
    ),
    // one of `reconsider` too
    (
        "now reconsider z = c as Elm of d; thus z in d; end; then p;",
        "33 (not (HIDDEN.R1 c1 c2)) |- (A.M1 c2 c1); 46 (A.M1 c2 c4), (= c4 c1), (HIDDEN.R1 c4 c2) |- (HIDDEN.R1 c4 c2); 59 (HIDDEN.R1 c1 c2) |- A.R1",
    ),
    // in a type
    (
        "now reconsider z = c as set; let a be Elm of z; thus a = a; end; then p;",
        "28 |- true; 59 (A.M1 c4 c5), (= c4 c1), (HIDDEN.R1 c5 c4) |- (= c5 c5); 72 (all (not (and (A.M1 c1 b0) (not (= b0 b0))))) |- A.R1",
    ),
    // one that stands for a constant of `consider` isn't stated
    (
        "now consider a being object such that a = c; set z = a; thus z = c; end;",
        "57 41",
    ),
    // nor by `hereby`
    (
        "now consider a being object such that a = c; hereby thus a = c; end; end;",
        "46 41",
    ),
    // an inner `now` may state it
    (
        "now consider a being object such that a = c; now thus a = d; end; hence p; end; then q;",
        "44 |- (not (all (not (= b0 c1)))); 60 |- (= c4 c2); 74 (= c4 c2) |- A.R1; 87 A.R1 |- A.R2",
    ),
    // it may be defined
    (
        "now consider a being object such that a = c; set z = a; thus p; end; then q;",
        "44 |- (not (all (not (= b0 c1)))); 63 |- A.R1; 76 A.R1 |- A.R2",
    ),
    // an iterative equality that is stated
    (
        "now thus c = d .= c; end; then p;",
        "16 |- (= c1 c2); 20 |- (= c2 c1); 33 (= c1 c1) |- A.R1",
    ),
    // `hereby` in it is a conjunct
    (
        "now hereby thus p; end; thus q; end; then r;",
        "18 |- A.R1; 31 |- A.R2; 44 (and A.R1 A.R2) |- A.R3",
    ),
    // a `now` in it is none
    (
        "now now thus p; end; hence q; end; then r;",
        "15 |- A.R1; 29 A.R1 |- A.R2; 42 A.R2 |- A.R3",
    ),
    // reserved variables of what is assumed are closed
    (
        "now assume X = c; thus p; end; then q;",
        "25 |- A.R1; 38 (not (and (all (= b0 c1)) (not A.R1))) |- A.R2",
    ),
    // `take` is refused before it is read
    ("now take v; end;", "5 41"),
    // and in `hereby`
    ("p proof hereby take c; end; end;", "16 41"),
    // the cases too
    ("now per cases by B; suppose p; end; end;", "5 41"),
    // both stand in a proof within it
    (
        "now thus ex a being object st a = c proof take c; thus thesis; end; end; then p;",
        "62 |- (= c1 c1); 80 (not (all (not (= b0 c1)))) |- A.R1",
    ),
    // `thesis` is that of the proof around
    (
        "p & q proof thus p; now thus thesis; end; hence thesis; end;",
        "19 |- A.R1; 36 |- A.R2; 55 A.R2 |- A.R2",
    ),
    // it does nothing to that thesis
    ("p proof now thus p; end; end;", "26 42"),
    // its label is known behind it
    ("A: now thus p; end; q by A;", "14 |- A.R1; 23 A.R1 |- A.R2"),
    // and not in it
    ("A: now thus p by A; end;", "18 43"),
    // `hereby` proves what it states
    (
        "for a being object st p holds a = c proof hereby let a be object; assume A: p; thus a = c by A; end; end;",
        "91 A.R1 |- (= c4 c1)",
    ),
    // what it states has to fit
    ("p & q proof hereby thus q; end; end;", "13 41"),
    // what is wrong in it comes first
    ("p & q proof hereby thus q by B; end; end;", "30 43"),
    // `thesis` in it is what is left of the proof
    (
        "p & q proof thus p; hereby thus thesis; end; end;",
        "19 |- A.R1; 39 |- A.R2",
    ),
    // a variable without a type has the reserved one
    (
        "now let x; thus x = c; end; then p;",
        "22 |- (= c4 c1); 35 (all (= b0 c1)) |- A.R1",
    ),
    // and isn't known where none is reserved
    ("now let a; end;", "9 33"),
    // its types are read
    ("now let a be empty set; end;", "14 34"),
    // of a `now` whose steps are wrong the first is told
    ("now p by B; thus v = v; end;", "10 43"),
];

#[test]
fn what_a_now_states(rt: HostRuntime) {
    check_all(&rt, rt.alloc(), &NOWS);
}
