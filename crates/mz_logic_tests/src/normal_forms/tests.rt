//! Small problems with their disjuncts, worked out by hand.
use crate::normal_forms::samples::problem;
use mz_logic::texts::push_formula;
use mz_nf::disjuncts::disjuncts;
use mz_nf::nf_fault::NfFault;
use std::alloc::Global;
use std::mem::forget;
use std::process::Abort;

/// The problem's disjuncts: of each its literals, `/` and its universals, with `;` at its end.
fn found(rt: &impl Abort, alloc: Global, text: &str) -> Vec<u8> {
    let p = problem(alloc, text).expect(rt, "a sequent");
    let ds = disjuncts(alloc, &p).expect(rt, "disjuncts");
    forget(p);
    let mut out = Vec::new(alloc);
    for d in &ds.items {
        for l in &d.literals.items {
            let f = l.formula(alloc).expect(rt, "memory");
            push_formula(alloc, &mut out, &f).expect(rt, "memory");
            out.push(b' ').expect(rt, "memory");
        }
        out.push(b'/').expect(rt, "memory");
        for f in &d.universals.items {
            out.push(b' ').expect(rt, "memory");
            push_formula(alloc, &mut out, f).expect(rt, "memory");
        }
        out.push(b';').expect(rt, "memory");
    }
    out
}

/// Small problems, and what is obvious of them: their disjuncts.
const SMALL: [(&str, &str); 22] = [
    // Premises in order, and then the negated conclusion.
    ("A.R1, A.R2 |- A.R3", "A.R1 A.R2 (not A.R3) /;"),
    ("|- true", ""),
    ("|- (not true)", "/;"),
    // Double negations vanish at every depth.
    (
        "(not (not A.R1)), (not (not (not A.R2))) |- (not A.R3)",
        "A.R1 (not A.R2) A.R3 /;",
    ),
    // All pairs, the left one slowest; the negated left part before the negated right part.
    (
        "(not (and A.R1 A.R2)), (not (and A.R3 A.R4)) |- (not true)",
        "(not A.R1) (not A.R3) /;(not A.R1) (not A.R4) /;(not A.R2) (not A.R3) /;(not A.R2) (not A.R4) /;",
    ),
    (
        "(and (and A.R1 A.R2) (not (and A.R3 A.R4))) |- (not true)",
        "A.R1 A.R2 (not A.R3) /;A.R1 A.R2 (not A.R4) /;",
    ),
    ("A.R1 |- A.R1", "A.R1 (not A.R1) /;"),
    (
        "A.R1 |- (and A.R1 A.R1)",
        "A.R1 (not A.R1) /;A.R1 (not A.R1) /;",
    ),
    // Truth in a conjunction, and in a negated one.
    ("(and true A.R1) |- (and A.R1 true)", "A.R1 (not A.R1) /;"),
    ("(and A.R1 (not true)) |- A.R2", ""),
    // Negated universals in both parts of a conjunction, and in both of a negated one.
    (
        "(and (not (all (A.R5 b0))) (not (all (A.R5 b0)))) |- (not true)",
        "(not (A.R5 c1)) (not (A.R5 c2)) /;",
    ),
    (
        "|- (and (all (A.R5 b0)) (all (A.R5 b0)))",
        "(not (A.R5 c1)) /;(not (A.R5 c2)) /;",
    ),
    // The same constant in each disjunct that comes from it; none that the problem has.
    (
        "(and (not (all (A.R5 b0))) (not (and A.R1 A.R2))) |- (not true)",
        "(not (A.R5 c1)) (not A.R1) /;(not (A.R5 c1)) (not A.R2) /;",
    ),
    (
        "(A.R5 c1), (A.R5 c3) |- (and (all (A.R5 b0)) (all (A.R5 b0)))",
        "(A.R5 c1) (A.R5 c3) (not (A.R5 c2)) /;(A.R5 c1) (A.R5 c3) (not (A.R5 c4)) /;",
    ),
    (
        "(and (A.R5 c2) (not (all (A.R5 b0)))) |- (A.R6 c0 c2)",
        "(A.R5 c2) (not (A.R5 c1)) (not (A.R6 c0 c2)) /;",
    ),
    // A place takes its constant in each disjunct, also where that doesn't have it.
    (
        "(A.R5 c1), (not (and (not A.R1) (all (A.R5 b0)))) |- (all (A.R5 b0))",
        "(A.R5 c1) A.R1 (not (A.R5 c3)) /;(A.R5 c1) (not (A.R5 c2)) (not (A.R5 c3)) /;",
    ),
    // An outer one before those in its body.
    ("|- (all (all (A.R6 b1 b0)))", "(not (A.R6 c1 c2)) /;"),
    (
        "|- (and (all (all (A.R6 b1 b0))) (all (A.R5 b0)))",
        "(not (A.R6 c1 c2)) /;(not (A.R5 c3)) /;",
    ),
    // A part without disjuncts takes its constant.
    (
        "(not (and (not (and (not (all (A.R5 b0))) (not true))) (not A.R2))) |- (all (A.R5 b0))",
        "A.R2 (not (A.R5 c2)) /;",
    ),
    (
        "(not (and (not (and (not true) (not (all (A.R5 b0))))) (not A.R2))) |- (all (A.R5 b0))",
        "A.R2 (not (A.R5 c2)) /;",
    ),
    // A universal is listed as it is written.
    (
        "(not (not (all (not (not (A.R5 b0)))))) |- A.R2",
        "(not A.R2) / (all (not (not (A.R5 b0))));",
    ),
    (
        "(all (A.R5 b0)) |- (not (all (not (A.R5 b0))))",
        "/ (all (A.R5 b0)) (all (not (A.R5 b0)));",
    ),
];

#[test]
fn small_problems(rt: HostRuntime) {
    for (text, want) in &SMALL {
        let found = found(&rt, rt.alloc(), text);
        assert!(rt; found.as_slice() == want.as_bytes(), "at {text}");
    }
}

/// From `for x,y ex z st for a holds a in z iff a = x or a = y` to `ex z st for a holds a in z iff a = 1
/// or a = 1`, and from nothing to `1 = 1 & 1 = 2`.
#[test]
fn existence_of_a_pair(rt: HostRuntime) {
    for (text, want) in [
        (
            "(all (all (not (all (not (all (and (not (and (A.R6 b0 b1) (and (not (= b0 b3)) (not (= b0 b2))))) (not (and (not (and (not (= b0 b3)) (not (= b0 b2)))) (not (A.R6 b0 b1))))))))))) |- (not (all (not (all (and (not (and (A.R6 b0 b1) (and (not (= b0 c1)) (not (= b0 c1))))) (not (and (not (and (not (= b0 c1)) (not (= b0 c1)))) (not (A.R6 b0 b1)))))))))",
            "/ (all (all (not (all (not (all (and (not (and (A.R6 b0 b1) (and (not (= b0 b3)) (not (= b0 b2))))) (not (and (not (and (not (= b0 b3)) (not (= b0 b2)))) (not (A.R6 b0 b1))))))))))) (all (not (all (and (not (and (A.R6 b0 b1) (and (not (= b0 c1)) (not (= b0 c1))))) (not (and (not (and (not (= b0 c1)) (not (= b0 c1)))) (not (A.R6 b0 b1))))))));",
        ),
        (
            "|- (and (= c1 c1) (= c1 c2))",
            "(not (= c1 c1)) /;(not (= c1 c2)) /;",
        ),
    ] {
        let found = found(&rt, rt.alloc(), text);
        assert!(rt; found.as_slice() == want.as_bytes(), "at {text}");
    }
}

/// From `1 in 2 or 2 in 1`, so many times, to `1 = 1`.
fn repeated(rt: &impl Abort, alloc: Global, times: u32) -> String {
    let mut text = String::new(alloc);
    for _ in 0..times {
        text.push_str("(or (A.R6 c1 c2) (A.R6 c2 c1)), ")
            .expect(rt, "memory");
    }
    text.push_str("|- (= c1 c1)").expect(rt, "memory");
    text
}

/// Each choice of one part of ten, the first varying slowest.
fn choices(rt: &impl Abort, alloc: Global) -> Vec<u8> {
    let mut text = Vec::new(alloc);
    for k in 0u32..1024 {
        for j in 0u32..10 {
            let part: &[u8] = if (k >> (9 - j)) % 2 == 0 {
                b"(A.R6 c1 c2) "
            } else {
                b"(A.R6 c2 c1) "
            };
            text.extend_from_slice(part).expect(rt, "memory");
        }
        text.extend_from_slice(b"(not (= c1 c1)) /;")
            .expect(rt, "memory");
    }
    text
}

#[test]
fn as_many_as_there_may_be(rt: HostRuntime) {
    let text = repeated(&rt, rt.alloc(), 10);
    let found = found(&rt, rt.alloc(), &text);
    assert!(rt; found.as_slice() == choices(&rt, rt.alloc()).as_slice());
}

#[test]
fn too_many(rt: HostRuntime) {
    let alloc = rt.alloc();
    for (times, want) in [
        (11, 2048),
        (29, 536_870_912),
        (30, 1_000_000_000),
        (100, 1_000_000_000),
    ] {
        let text = repeated(&rt, alloc, times);
        match disjuncts(alloc, &problem(alloc, &text).expect(&rt, "a sequent")) {
            Err(NfFault::TooManyDisjuncts { count }) => assert!(rt; count == want),
            _ => assert!(rt; false, "at {times}"),
        }
    }
}

/// A part with very many disjuncts beside falsity has none, and none of it is made.
#[test]
fn many_beside_none(rt: HostRuntime) {
    let mut text = String::new(rt.alloc());
    text.push_str("(or (and ").expect(&rt, "memory");
    for _ in 0..60 {
        text.push_str("(and ").expect(&rt, "memory");
    }
    text.push_str("true").expect(&rt, "memory");
    for _ in 0..60 {
        text.push_str(" (not (and A.R1 A.R2)))")
            .expect(&rt, "memory");
    }
    text.push_str(" (not true)) A.R2) |- A.R3")
        .expect(&rt, "memory");
    let found = found(&rt, rt.alloc(), &text);
    assert!(rt; found.as_slice() == b"A.R2 (not A.R3) /;".as_slice());
}
