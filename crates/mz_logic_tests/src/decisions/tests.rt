//! Problems as texts: the premises, `|-` and the conclusion.
use crate::normal_forms::samples::problem;
use mz_base::limit::Limit;
use mz_by::by::{ByVerdict, by};
use mz_ground::clauses::Clauses;
use std::alloc::Global;
use std::mem::forget;
use std::process::Abort;

fn verdict(rt: &impl Abort, alloc: Global, text: &str) -> ByVerdict {
    let p = problem(alloc, text).expect(rt, "a sequent");
    let none = Clauses::new(alloc);
    let found = by(alloc, &p, &none).expect(rt, "memory");
    forget(p);
    forget(none);
    found
}

fn check(rt: &impl Abort, alloc: Global, text: &str, wanted: ByVerdict) {
    let found = verdict(rt, alloc, text);
    assert!(rt; found == wanted, "{text}");
}

const CLOSED: [&str; 26] = [
    // truth, and falsity among the premises
    "|- true",
    "(not true) |- (A.R1 c1)",
    // equality and congruence
    "|- (= c1 c1)",
    "(= c1 c2) |- (= c2 c1)",
    "(= c1 c2), (= c2 c3) |- (= c1 c3)",
    "(= c1 c2) |- (= (A.O1 c1) (A.O1 c2))",
    "(= (A.O1 c1) c1) |- (= (A.O1 (A.O1 (A.O1 c1))) c1)",
    "(A.R1 c1), (= c1 c2) |- (A.R1 c2)",
    "(not (A.R1 c1)), (= c1 c2) |- (not (A.R1 c2))",
    "(not (= c1 c2)), (= c1 c3) |- (not (= c3 c2))",
    // contradictory facts
    "(A.R1 c1) |- (A.R1 c1)",
    "(A.R1 c1), (not (A.R1 c1)) |- (A.R2 c2)",
    // cases
    "(or (A.R1 c1) (A.R1 c2)), (not (A.R1 c1)) |- (A.R1 c2)",
    // a universal at a term, twice negated within, without its variable, nested
    "(all (A.R1 b0)) |- (A.R1 c1)",
    "(all (not (not (A.R1 b0)))) |- (A.R1 c1)",
    "(all (A.R1 c1)) |- (A.R1 c1)",
    "(all (all (A.R4 b1 b0))) |- (A.R4 c1 c2)",
    "(all (implies (A.R1 b0) (A.R2 b0))), (A.R1 c1) |- (A.R2 c1)",
    "(A.R1 c1) |- (not (all (not (A.R1 b0))))",
    "(all (A.R1 b0)) |- (all (A.R1 b0))",
    // a negated universal that is listed as written, and in value
    "(all (not (all (A.R1 b0)))), (all (A.R1 b0)) |- (not true)",
    "(all (not (all (A.R4 b1 b0)))), (all (A.R4 c1 b0)) |- (not true)",
    "(all (not (all (A.R4 c1 b0)))), (all (A.R4 c2 b0)), (= c1 c2) |- (not true)",
    // both parts at one term; two values apart; one value
    "(A.R1 c1), (A.R2 c2), (= c1 c2), (all (not (and (A.R1 b0) (A.R2 b0)))) |- (not true)",
    "(not (= c1 c2)), (all (all (= b0 b1))) |- (not true)",
    // one constant for both variables of the premise, whose existential is refuted by the universal of the conclusion
    "(all (all (not (all (not (all (and (implies (A.R4 b0 b1) (or (= b0 b3) (= b0 b2))) (implies (or (= b0 b3) (= b0 b2)) (A.R4 b0 b1))))))))) |- (all (not (all (not (all (and (implies (A.R4 b0 b1) (or (= b0 b2) (= b0 b2))) (implies (or (= b0 b2) (= b0 b2)) (A.R4 b0 b1))))))))",
];

const OPEN: [(&str, u32); 15] = [
    ("|- (not true)", 1),
    ("|- (= c1 c2)", 1),
    ("(A.R1 c1) |- (A.R1 c2)", 1),
    ("(or (A.R1 c1) (A.R1 c2)) |- (A.R1 c2)", 1),
    ("(or (A.R1 c2) (A.R1 c1)) |- (A.R1 c2)", 2),
    ("|- (all (all (and (= b1 b1) (= b1 b0))))", 2),
    // no instance is refuted by the facts
    ("(all (A.R1 b0)) |- (A.R2 c1)", 1),
    ("(A.R1 c1) |- (all (A.R1 b0))", 1),
    // universals aren't chained
    (
        "(all (implies (A.R1 b0) (A.R2 b0))), (all (implies (A.R2 b0) (A.R3 b0))), (A.R1 c1) |- (A.R3 c1)",
        1,
    ),
    ("(all (A.R1 b0)), (all (not (A.R1 b0))) |- (not true)", 1),
    (
        "(not (all (not (A.R1 b0)))), (all (implies (A.R1 b0) (A.R2 b0))) |- (not (all (not (A.R2 b0))))",
        1,
    ),
    // a negated universal that isn't listed
    ("(all (not (all (A.R1 b0)))) |- (not true)", 1),
    (
        "(all (not (all (A.R4 c1 b0)))), (all (A.R4 c2 b0)) |- (not true)",
        1,
    ),
    // the parts hold at different terms; no two values are apart
    (
        "(A.R1 c1), (A.R2 c2), (all (not (and (A.R1 b0) (A.R2 b0)))) |- (not true)",
        1,
    ),
    ("(A.R1 c1), (all (all (= b0 b1))) |- (not true)", 1),
];

#[test]
fn problems_that_are_closed(rt: HostRuntime) {
    for text in CLOSED {
        check(&rt, rt.alloc(), text, ByVerdict::Closed);
    }
}

#[test]
fn problems_with_an_open_disjunct(rt: HostRuntime) {
    for (text, disjunct) in OPEN {
        check(&rt, rt.alloc(), text, ByVerdict::Open { disjunct });
    }
}

/// Ten disjunctions, with their comma.
const TEN: &str =
    "(or (A.R1 c1) (A.R1 c2)), (or (A.R1 c1) (A.R1 c2)), (or (A.R1 c1) (A.R1 c2)), (or (A.R1 c1) (A.R1 c2)), (or (A.R1 c1) (A.R1 c2)), (or (A.R1 c1) (A.R1 c2)), (or (A.R1 c1) (A.R1 c2)), (or (A.R1 c1) (A.R1 c2)), (or (A.R1 c1) (A.R1 c2)), (or (A.R1 c1) (A.R1 c2)), ";

/// What stands behind the ten disjunctions.
const BEHIND_TEN: [(&str, ByVerdict); 4] = [
    ("true |- (= c1 c1)", ByVerdict::Closed),
    ("true |- (not true)", ByVerdict::Open { disjunct: 1 }),
    (
        "(or (A.R1 c1) (A.R1 c2)) |- (= c1 c1)",
        ByVerdict::Over {
            limit: Limit::Disjuncts,
            number: 2048,
        },
    ),
    (
        "(or (A.R1 c1) (A.R1 c2)), (not true) |- (not true)",
        ByVerdict::Closed,
    ),
];

fn check_behind(rt: &impl Abort, alloc: Global, front: &str, rest: &str, wanted: ByVerdict) {
    let text = format!(in alloc; "{front}{rest}").expect(rt, "memory");
    let found = verdict(rt, alloc, &text);
    forget(text);
    assert!(rt; found == wanted, "{rest}");
}

/// Ten disjunctions have 1,024 disjuncts, eleven 2,048; falsity beside them leaves none.
#[test]
fn problems_with_many_disjuncts(rt: HostRuntime) {
    for (rest, wanted) in BEHIND_TEN {
        check_behind(&rt, rt.alloc(), TEN, rest, wanted);
    }
}

/// Four atoms of eight variables, negated, as the only premise behind the others.
const UNIVERSAL: &str =
    "(all (all (all (all (all (all (all (all (not (and (and (and (A.R4 b7 b6) (A.R4 b5 b4)) (A.R4 b3 b2)) (A.R4 b1 b0))))))))))) |- (not true)";

/// That the number is related to 1, and the comma.
fn add_pair(rt: &impl Abort, alloc: Global, front: String, number: u32) -> String {
    let text = format!(in alloc; "{front}(A.R4 c{number} c1), ").expect(rt, "memory");
    forget(front);
    text
}

/// The facts that 2, .., n + 1 are related to 1.
fn pairs(rt: &impl Abort, alloc: Global, n: u32) -> String {
    let mut text = String::new(alloc);
    for i in 0..n {
        text = add_pair(rt, alloc, text, i.saturating_add(2));
    }
    text
}

fn check_work(rt: &impl Abort, alloc: Global, n: u32, wanted: ByVerdict) {
    let front = pairs(rt, alloc, n);
    check_behind(rt, alloc, &front, UNIVERSAL, wanted);
    forget(front);
}

/// The work of the universal is the fourth power of the number of facts.
#[test]
fn work_of_a_universal(rt: HostRuntime) {
    let over = ByVerdict::Over {
        limit: Limit::Work,
        number: 10556001,
    };
    check_work(&rt, rt.alloc(), 56, ByVerdict::Closed);
    check_work(&rt, rt.alloc(), 57, over);
}
