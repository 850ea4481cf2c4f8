//! What is too large.
use crate::proofs::environment::environment;
use crate::proofs::outcomes::{AMPLE, Row, add, check, check_all, text_of};
use mz_environment::environment::Environment;
use std::alloc::Global;
use std::mem::forget;
use std::process::Abort;

const SIZES: [Row; 7] = [
    // `p iff p` has 11 nodes, and each further `p iff` doubles them and adds 9: thirteen times makes 81,911
    (
        "p iff (p iff (p iff (p iff (p iff (p iff (p iff (p iff (p iff (p iff (p iff (p iff (p iff p))))))))))));",
        "1 36",
    ),
    // twelve times makes 40,951
    (
        "p iff (p iff (p iff (p iff (p iff (p iff (p iff (p iff (p iff (p iff (p iff (p iff p))))))))))) by B;",
        "100 43",
    ),
    // the conjunction of two of them, in a list
    (
        "now assume that p iff (p iff (p iff (p iff (p iff (p iff (p iff (p iff (p iff (p iff (p iff (p iff p))))))))))) and p iff (p iff (p iff (p iff (p iff (p iff (p iff (p iff (p iff (p iff (p iff (p iff p))))))))))); end;",
        "5 36",
    ),
    // what a `now` states
    (
        "p; A: now thus p iff (p iff (p iff (p iff (p iff (p iff (p iff (p iff (p iff (p iff (p iff (p iff p))))))))))); thus p iff (p iff (p iff (p iff (p iff (p iff (p iff (p iff (p iff (p iff (p iff (p iff p))))))))))); end;",
        "4 36",
    ),
    // what `hereby` states
    (
        "p proof hereby thus p iff (p iff (p iff (p iff (p iff (p iff (p iff (p iff (p iff (p iff (p iff (p iff p))))))))))); thus p iff (p iff (p iff (p iff (p iff (p iff (p iff (p iff (p iff (p iff (p iff (p iff p))))))))))); end; end;",
        "9 36",
    ),
    // an existential, before its justification
    (
        "consider a being object such that p iff (p iff (p iff (p iff (p iff (p iff (p iff (p iff (p iff (p iff (p iff (p iff p))))))))))) and p iff (p iff (p iff (p iff (p iff (p iff (p iff (p iff (p iff (p iff (p iff (p iff p))))))))))) by B;",
        "1 36",
    ),
    // of `given` too
    (
        "now given a being object such that p iff (p iff (p iff (p iff (p iff (p iff (p iff (p iff (p iff (p iff (p iff (p iff p))))))))))) and p iff (p iff (p iff (p iff (p iff (p iff (p iff (p iff (p iff (p iff (p iff (p iff p))))))))))); end;",
        "5 36",
    ),
];

/// What the cases of a split suppose, together too large.
const CASES: [Row; 7] = [
    // that one of the cases holds, before what the first case leaves
    (
        "p proof per cases; suppose p iff (p iff (p iff (p iff (p iff (p iff (p iff (p iff (p iff (p iff (p iff (p iff p))))))))))); end; suppose p iff (p iff (p iff (p iff (p iff (p iff (p iff (p iff (p iff (p iff (p iff (p iff p))))))))))); thus p; end; end;",
        "9 36",
    ),
    // before what one case supposes together
    (
        "p proof per cases; suppose that p iff (p iff (p iff (p iff (p iff (p iff (p iff (p iff (p iff (p iff (p iff (p iff p))))))))))) and p iff (p iff (p iff (p iff (p iff (p iff (p iff (p iff (p iff (p iff (p iff (p iff p))))))))))); thus p; end; end;",
        "9 36",
    ),
    // and before the references
    (
        "p proof per cases by B; suppose p iff (p iff (p iff (p iff (p iff (p iff (p iff (p iff (p iff (p iff (p iff (p iff p))))))))))); thus p; end; suppose p iff (p iff (p iff (p iff (p iff (p iff (p iff (p iff (p iff (p iff (p iff (p iff p))))))))))); thus p; end; end;",
        "9 36",
    ),
    // where a supposition isn't read, the references come first
    (
        "p proof per cases by B; suppose p iff (p iff (p iff (p iff (p iff (p iff (p iff (p iff (p iff (p iff (p iff (p iff p))))))))))); thus p; end; suppose p iff (p iff (p iff (p iff (p iff (p iff (p iff (p iff (p iff (p iff (p iff (p iff p))))))))))); thus p; end; suppose v = v; end; end;",
        "22 43",
    ),
    // or what the first case leaves
    (
        "p proof per cases; suppose p iff (p iff (p iff (p iff (p iff (p iff (p iff (p iff (p iff (p iff (p iff (p iff p))))))))))); end; suppose p iff (p iff (p iff (p iff (p iff (p iff (p iff (p iff (p iff (p iff (p iff (p iff p))))))))))); thus p; end; suppose v = v; end; end;",
        "125 42",
    ),
    // or what one case supposes together
    (
        "p proof per cases; suppose that p iff (p iff (p iff (p iff (p iff (p iff (p iff (p iff (p iff (p iff (p iff (p iff p))))))))))) and p iff (p iff (p iff (p iff (p iff (p iff (p iff (p iff (p iff (p iff (p iff (p iff p))))))))))); thus p; end; suppose v = v; end; end;",
        "20 36",
    ),
    // one case alone keeps the limits
    (
        "p proof per cases by B; suppose p iff (p iff (p iff (p iff (p iff (p iff (p iff (p iff (p iff (p iff (p iff (p iff p))))))))))); thus p; end; end;",
        "22 43",
    ),
];

/// `ex a being object st a = a & .. & a = a proof take sin .. sin c; end;`, with a hundred conjuncts and so many functors.
fn taken(rt: &impl Abort, alloc: Global, functors: usize) -> Vec<u8> {
    let mut bytes = Vec::new(alloc);
    add(rt, &mut bytes, "ex a being object st a = a", 1);
    add(rt, &mut bytes, " & a = a", 99);
    add(rt, &mut bytes, " proof take ", 1);
    add(rt, &mut bytes, "sin ", functors);
    add(rt, &mut bytes, "c; end;", 1);
    bytes
}

fn check_taken(rt: &impl Abort, alloc: Global, env: &Environment, functors: usize, wanted: &str) {
    let bytes = taken(rt, alloc, functors);
    check(rt, alloc, env, AMPLE, text_of(rt, &bytes), wanted);
    forget(bytes);
}

/// The term has a node for each functor and one for `c`, and stands for each of 200 places of a variable.
#[test]
fn a_thesis_that_a_term_makes_too_large(rt: HostRuntime) {
    let env = environment(&rt, rt.alloc());
    check_taken(&rt, rt.alloc(), &env, 380, "826 36");
    check_taken(&rt, rt.alloc(), &env, 1, "838 42");
    forget(env);
}

#[test]
fn what_is_too_large(rt: HostRuntime) {
    check_all(&rt, rt.alloc(), &SIZES);
}

#[test]
fn cases_that_are_too_large(rt: HostRuntime) {
    check_all(&rt, rt.alloc(), &CASES);
}

/// `c = c .= sin .. sin c .= v;`, with so many functors.
fn check_sides(rt: &impl Abort, alloc: Global, env: &Environment, functors: usize, wanted: &str) {
    let mut bytes = Vec::new(alloc);
    add(rt, &mut bytes, "c = c .= ", 1);
    add(rt, &mut bytes, "sin ", functors);
    add(rt, &mut bytes, "c .= v;", 1);
    check(rt, alloc, env, AMPLE, text_of(rt, &bytes), wanted);
    forget(bytes);
}

/// A term of depth 512 makes an equation of depth 513, which is told before the side behind it, which isn't read.
#[test]
fn an_equation_that_is_too_large(rt: HostRuntime) {
    let env = environment(&rt, rt.alloc());
    check_sides(&rt, rt.alloc(), &env, 511, "1 36");
    check_sides(&rt, rt.alloc(), &env, 510, "2055 33");
    forget(env);
}
