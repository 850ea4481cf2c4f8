//! Small disjuncts with what is answered for a universal, worked out by hand from the rules.
use mz_classes::close_classes::close_classes;
use mz_ground::clauses::Clauses;
use mz_ground::ground::ground;
use mz_refute::answer::Answer;
use mz_refute::refuted::refuted;
use mz_samples::parts::disjunct;
use std::alloc::Global;
use std::mem::forget;
use std::process::Abort;

/// The answer for the last universal of the text's disjunct.
fn answer_for(rt: &impl Abort, alloc: Global, text: &str) -> Answer {
    let d = disjunct(alloc, text).expect(rt, "a disjunct");
    let clauses = Clauses::new(alloc);
    let g = ground(alloc, &d, clauses.as_slice()).expect(rt, "a ground part");
    let facts = close_classes(alloc, &g, &d, clauses.as_slice()).expect(rt, "memory");
    forget(g);
    let u = d.universals.items.last().expect(rt, "a universal");
    let answer = refuted(alloc, &facts, &d, u).expect(rt, "memory");
    forget(facts);
    forget(clauses);
    forget(d);
    answer
}

fn check(rt: &impl Abort, alloc: Global, text: &str, wanted: Answer) {
    let found = answer_for(rt, alloc, text);
    assert!(rt; found == wanted, "{text}");
}

const REFUTED: [&str; 23] = [
    // the complement of an atom, of a negated atom, in value
    "(not (A.R1 c1)) (all (A.R1 b0))",
    "(A.R1 c1) (all (not (A.R1 b0)))",
    "(not (A.R4 c2 (A.O1 c1))) (= c1 c2) (all (A.R4 b0 (A.O1 b0)))",
    // two values apart, in either order; one value
    "(not (= c1 c2)) (all (= b0 c2))",
    "(not (= c1 c2)) (all (= b0 c1))",
    "(not (= c1 c2)) (= c1 c3) (all (= b0 c3))",
    "(= (A.O1 c1) c1) (all (not (= b0 (A.O1 b0))))",
    // the negation of truth, without a fact
    "(all (not true))",
    // one part; the negations of both parts at one term
    "(not (A.R1 c1)) (all (and (A.R1 b0) (A.R2 b0)))",
    "(not (A.R2 c1)) (all (and (A.R1 b0) (A.R2 b0)))",
    "(A.R1 c1) (A.R2 c1) (all (not (and (A.R1 b0) (A.R2 b0))))",
    "(A.R1 c1) (A.R2 c2) (= c1 c2) (all (not (and (A.R1 b0) (A.R2 b0))))",
    // at two terms; a universal inside, left again; a variable of which nothing is said
    "(not (A.R4 c1 c2)) (all (all (A.R4 b1 b0)))",
    "(not (A.R4 c1 c2)) (A.R1 c1) (all (not (and (not (all (A.R4 b1 b0))) (A.R1 b0))))",
    "(not (A.R1 c1)) (all (all (A.R1 b1)))",
    // parts without a common variable, and parts that hang together
    "(A.R1 c1) (A.R2 c2) (all (all (not (and (A.R1 b1) (A.R2 b0)))))",
    "(A.R4 c1 c2) (A.R1 c2) (A.R2 c3) (all (all (not (and (and (A.R4 b1 b0) (A.R1 b0)) (not (all (not (and (A.R1 b1) (A.R2 b0)))))))))",
    // the universal is listed at a term, up to double negation, in value, with the same functor, twice nested
    "(all (A.R4 c1 b0)) (all (not (all (A.R4 b1 b0))))",
    "(all (not (not (A.R4 c1 b0)))) (all (not (all (A.R4 b1 b0))))",
    "(= c1 c2) (all (A.R4 c1 b0)) (all (not (all (A.R4 c2 b0))))",
    "(all (A.R1 (A.O1 b0))) (all (not (all (A.R1 (A.O1 b0)))))",
    "(all (all (A.R4 b1 b0))) (all (not (all (all (A.R4 b1 b0)))))",
    "(all (= c1 b0)) (all (not (all (= b1 b0))))",
];

const NOT_REFUTED: [&str; 20] = [
    // the atom is itself a fact, or nothing is known of it; without the equation
    "(A.R1 c1) (all (A.R1 b0))",
    "(not (A.R1 c1)) (all (not (A.R1 b0)))",
    "(not (A.R1 c1)) (all (A.R2 b0))",
    "(not (A.R4 c2 (A.O1 c1))) (all (A.R4 b0 (A.O1 b0)))",
    // the argument has no value
    "(not (A.R1 c1)) (all (A.R1 (A.O1 b0)))",
    // nothing is apart from 3; no term has the value of its image
    "(not (= c1 c2)) (all (= b0 c3))",
    "(= (A.O1 c1) c2) (all (not (= b0 (A.O1 b0))))",
    "(all true)",
    // neither part; both parts, but at different terms
    "(A.R1 c1) (A.R2 c1) (all (and (A.R1 b0) (A.R2 b0)))",
    "(A.R1 c1) (A.R2 c2) (all (not (and (A.R1 b0) (A.R2 b0))))",
    // one term for one variable
    "(not (A.R4 c1 c2)) (all (A.R4 b0 b0))",
    "(not (A.R4 c1 c2)) (A.R1 c2) (all (not (and (not (all (A.R4 b1 b0))) (A.R1 b0))))",
    // one of the parts without a common variable; parts that hang together
    "(A.R1 c1) (A.R1 c2) (A.R2 c3) (all (all (not (and (and (A.R1 b1) (A.R2 b0)) (A.R1 b0)))))",
    "(A.R4 c1 c2) (A.R1 c3) (A.R2 c3) (A.R1 c4) (all (all (not (and (A.R4 b1 b0) (A.R1 b0)))))",
    // another universal is listed: the sides exchanged, another value, another functor, the sign
    "(all (A.R4 b0 c1)) (all (not (all (A.R4 b1 b0))))",
    "(all (A.R4 c1 b0)) (all (not (all (A.R4 c2 b0))))",
    "(all (A.R1 (A.O2 b0))) (all (not (all (A.R1 (A.O1 b0)))))",
    "(all (all (A.R4 b0 b1))) (all (not (all (all (A.R4 b1 b0)))))",
    "(all (not (A.R1 b0))) (all (not (all (A.R1 b0))))",
    // listed, but not negated
    "(all (A.R2 b0)) (all (A.R1 b0))",
];

#[test]
fn universals_that_are_refuted(rt: HostRuntime) {
    for text in REFUTED {
        check(&rt, rt.alloc(), text, Answer::Yes);
    }
}

#[test]
fn universals_that_are_not_refuted(rt: HostRuntime) {
    for text in NOT_REFUTED {
        check(&rt, rt.alloc(), text, Answer::No);
    }
}

/// Ten facts.
const FACTS: &str =
    "(A.R1 c0) (A.R1 c1) (A.R1 c2) (A.R1 c3) (A.R1 c4) (A.R1 c5) (A.R1 c6) (A.R1 c7) (A.R1 c8) (A.R1 c9)";

/// Universals, each the negation of a conjunction, with their answers.
const WORKS: [(&str, Answer); 4] = [
    (
        "(all (not (and (and (and (and (and (and (A.R1 b0) (A.R1 b0)) (A.R1 b0)) (A.R1 b0)) (A.R1 b0)) (A.R1 b0)) (A.R1 b0))))",
        Answer::Yes,
    ),
    (
        "(all (and (not (and (and (and (and (and (and (A.R1 b0) (A.R1 b0)) (A.R1 b0)) (A.R1 b0)) (A.R1 b0)) (A.R1 b0)) (A.R1 b0))) true))",
        Answer::Over { work: 10_000_001 },
    ),
    (
        "(all (not (and (and (and (and (and (and (and (and (and (A.R1 b0) (A.R1 b0)) (A.R1 b0)) (A.R1 b0)) (A.R1 b0)) (A.R1 b0)) (A.R1 b0)) (A.R1 b0)) (A.R1 b0)) (A.R1 b0))))",
        Answer::Over {
            work: 1_000_000_000,
        },
    ),
    (
        "(all (not (and (and (and (and (and (and (and (and (A.R1 b0) (A.R1 b0)) (A.R1 b0)) (A.R1 b0)) (A.R1 b0)) (A.R1 b0)) (A.R1 b0)) (A.R1 b0)) (A.R2 b0))))",
        Answer::No,
    ),
];

fn check_work(rt: &impl Abort, alloc: Global, universal: &str, wanted: Answer) {
    let text = format!(in alloc; "{FACTS} {universal}").expect(rt, "memory");
    let found = answer_for(rt, alloc, &text);
    forget(text);
    assert!(rt; found == wanted, "{universal}");
}

/// Seven atoms have the greatest work that is allowed, and truth beside them adds one to it. A work stops at
/// 1,000,000,000, and is 0 where one factor is.
#[test]
fn work_of_a_universal(rt: HostRuntime) {
    for (universal, wanted) in WORKS {
        check_work(&rt, rt.alloc(), universal, wanted);
    }
}
