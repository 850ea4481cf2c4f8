//! A chain of registrations: what is `one` is `two`, what is `two` is `three`, what is `three` is `four`, and each
//! value of the functor is `one`. They have no type in their premises.
use crate::normal_forms::samples::problem;
use mz_by::by::{ByVerdict, by_first};
use mz_ground::clauses::Clauses;
use mz_ground::ground::ground;
use mz_ground::layer_ends::LayerEnd;
use mz_item_samples::types::{ClauseRow, clauses};
use mz_nf::disjuncts::disjuncts;
use std::alloc::Global;
use std::mem::forget;
use std::process::Abort;

const FUNCTORIAL: ClauseRow = (1, "(A.O1 b0)", "", "(A.V1 (A.O1 b0))");

const ONE: ClauseRow = (1, "(A.V1 b0)", "(A.V1 b0)", "(A.V2 b0)");

const TWO: ClauseRow = (1, "(A.V2 b0)", "(A.V2 b0)", "(A.V3 b0)");

const THREE: ClauseRow = (1, "(A.V3 b0)", "(A.V3 b0)", "(A.V4 b0)");

const FOUR: ClauseRow = (1, "(A.V4 b0)", "(A.V4 b0)", "(A.V5 b0)");

/// The clauses of the rows, in their order.
fn clauses_of(rt: &impl Abort, alloc: Global, rows: &[ClauseRow]) -> Clauses {
    clauses(alloc, rows).expect(rt, "clauses")
}

/// That each value of the functor has the fourth attribute.
const PROBLEM: &str = "|- (all (A.V4 (A.O1 b0)))";

fn verdict(rt: &impl Abort, alloc: Global, rows: &[ClauseRow], count: usize) -> ByVerdict {
    let p = problem(alloc, PROBLEM).expect(rt, "a sequent");
    let clauses = clauses_of(rt, alloc, rows);
    let found = by_first(alloc, &p, &clauses, count).expect(rt, "memory");
    forget(p);
    forget(clauses);
    found
}

fn check(rt: &impl Abort, alloc: Global, rows: &[ClauseRow], count: usize, wanted: ByVerdict) {
    let found = verdict(rt, alloc, rows, count);
    assert!(rt; found == wanted, "{count}");
}

const OPEN: ByVerdict = ByVerdict::Open { disjunct: 1 };

const CLOSED: ByVerdict = ByVerdict::Closed;

#[test]
fn the_chain_is_closed_where_no_cluster_lacks(rt: HostRuntime) {
    let all = usize::MAX;
    check(&rt, rt.alloc(), &[ONE, TWO, THREE, FUNCTORIAL], all, CLOSED);
    check(&rt, rt.alloc(), &[THREE, TWO, ONE, FUNCTORIAL], all, CLOSED);
    check(&rt, rt.alloc(), &[ONE, THREE, FUNCTORIAL], all, OPEN);
    check(&rt, rt.alloc(), &[FUNCTORIAL], all, OPEN);
}

const FIVE: [ClauseRow; 5] = [FUNCTORIAL, THREE, ONE, TWO, FOUR];

/// How many of the five clauses count, and the verdict.
const FIRST: [(usize, ByVerdict); 6] = [
    (0, OPEN),
    (1, OPEN),
    (3, OPEN),
    (4, CLOSED),
    (5, CLOSED),
    (usize::MAX, CLOSED),
];

/// The chain is open as long as one of the four clauses that it needs is left out.
#[test]
fn the_first_clauses_count(rt: HostRuntime) {
    for (count, wanted) in FIRST {
        check(&rt, rt.alloc(), &FIVE, count, wanted);
    }
}

/// How many atoms stand at the end of each layer, where all three terms stand from the first on.
fn check_layers(rt: &impl Abort, ends: &[LayerEnd], wanted: &[usize]) {
    assert!(rt; ends.len() == wanted.len());
    for i in 0..wanted.len() {
        let wanted = LayerEnd {
            terms: 3,
            atoms: wanted[i],
            equations: 0,
        };
        assert!(rt; ends.get(i) == Some(&wanted), "{i}");
    }
}

/// The terms are the constant 0, the new constant and the functor's value there. Each layer has one atom more, until
/// the last adds the one of the conclusion.
#[test]
fn one_attribute_a_layer(rt: HostRuntime) {
    let alloc = rt.alloc();
    let p = problem(alloc, PROBLEM).expect(&rt, "a sequent");
    let split = disjuncts(alloc, &p).expect(&rt, "few disjuncts");
    forget(p);
    let chain = clauses_of(&rt, alloc, &[ONE, TWO, THREE, FUNCTORIAL]);
    let d = split.items.first().expect(&rt, "a disjunct");
    let g = ground(alloc, d, chain.as_slice()).expect(&rt, "a ground part");
    forget(chain);
    check_layers(&rt, g.ends.items.as_slice(), &[1, 2, 3, 4, 4]);
    forget(g);
    forget(split);
}
