//! Problems with their facts, classes and signed atoms, worked out by hand from the rules.
use crate::facts::problems::{Problem, is_as_told};
use mz_classes::classes::Classes;
use mz_classes::close_classes::close_classes;
use mz_classes::propagate::propagated_labels;
use mz_classes::roots::roots_of;
use mz_congruence::ground_graph::graph_of;
use mz_congruence::settle::settle;
use mz_ground::clauses::Clauses;
use mz_ground::fact_set::FactSet;
use mz_ground::ground::ground;
use mz_item_samples::types::{ClauseRow, clauses};
use mz_logic::disjunct::Disjunct;
use mz_samples::parts::disjunct;
use mz_samples::symbols::symbol;
use std::alloc::Global;
use std::mem::forget;
use std::process::Abort;

/// The facts of the disjunct under the clauses.
fn closed(rt: &impl Abort, alloc: Global, text: &str, cs: &[ClauseRow]) -> Classes {
    let d = disjunct(alloc, text).expect(rt, "a disjunct");
    let cs = clauses(alloc, cs).expect(rt, "clauses");
    let g = ground(alloc, &d, cs.as_slice()).expect(rt, "a ground part");
    let found = close_classes(alloc, &g, &d, cs.as_slice()).expect(rt, "memory");
    forget(d);
    forget(cs);
    forget(g);
    found
}

/// The atoms of the symbol with the sign are those with these numbers.
fn check_signed(rt: &impl Abort, f: &Classes, word: &str, positive: bool, wanted: &[u32]) {
    let sym = symbol(word).expect(rt, "a symbol");
    let same = f.signed(sym, positive).as_slice() == wanted;
    assert!(rt; same, "{word} {positive}");
}

/// The terms c0 to c4 have the numbers 0 to 4.
#[test]
fn classes_of_a_chain(rt: HostRuntime) {
    let f = closed(&rt, rt.alloc(), "(= c1 c2) (= c2 c3) (A.R1 c1 c4)", &[]);
    let count = f.ground().terms.len();
    assert!(&rt; count == 5);
    for (number, class) in [(0u32, 0), (1, 1), (2, 1), (3, 1), (4, 4)] {
        if (number as usize) < f.ground().terms.len() {
            assert!(&rt; f.class_of(number) == class, "{number}");
        }
    }
    let classes: [&[u32]; 6] = [&[0], &[1, 2, 3], &[], &[], &[4], &[]];
    for (class, wanted) in (0u32..6).zip(classes) {
        assert!(&rt; f.members(class).as_slice() == wanted, "{class}");
    }
    check_signed(&rt, &f, "A.R1", true, &[0]);
    check_signed(&rt, &f, "A.R1", false, &[]);
    forget(f);
}

/// The atoms of A.R2 at c1, c2 and c3, and of A.R3 at c1 and c2, have the numbers 0 to 4.
#[test]
fn atoms_by_sign(rt: HostRuntime) {
    let f = closed(
        &rt,
        rt.alloc(),
        "(A.R2 c1) (not (A.R3 c2)) (= c1 c2) (all (A.R2 c2)) (all (A.R2 c3)) (all (A.R3 c1))",
        &[],
    );
    check_signed(&rt, &f, "A.R2", true, &[0, 1]);
    check_signed(&rt, &f, "A.R2", false, &[]);
    check_signed(&rt, &f, "A.R3", true, &[]);
    check_signed(&rt, &f, "A.R3", false, &[3, 4]);
    check_signed(&rt, &f, "A.R4", true, &[]);
    forget(f);
}

const CASES: [Problem; 6] = [
    // congruence through two layers
    (
        "(= c1 c2) (A.R2 (A.O1 (A.O1 c1))) (all (A.R2 (A.O1 (A.O1 c2))))",
        &[],
        "(= (A.O1 c1) (A.O1 c2)) (= (A.O1 (A.O1 c1)) (A.O1 (A.O1 c2))) (A.R2 (A.O1 (A.O1 c2)))",
        "(= c1 (A.O1 c1)) (A.R2 (A.O1 c1)) (not (A.R2 (A.O1 (A.O1 c1))))",
        false,
    ),
    // a disequation has its sides exchanged, and isn't carried to equal terms
    (
        "(not (= c1 c2)) (= c2 c3) (all (= c1 c3))",
        &[],
        "(not (= c2 c1))",
        "(not (= c1 c3)) (= c1 c3)",
        false,
    ),
    // a rule with two premises, one of them a fact by congruence; and with one of them missing
    (
        "(A.R2 c1) (A.R3 c2) (= c1 c2) (A.R2 c3)",
        &[(1, "(A.R2 b0)", "(A.R2 b0) (A.R3 b0)", "(A.R5 b0)")],
        "(A.R3 c1) (A.R5 c1)",
        "(A.R5 c2) (A.R5 c3) (A.R3 c3)",
        false,
    ),
    // what a rule adds lets another one, which stands before it, add to it
    (
        "(A.R2 c1)",
        &[
            (1, "(A.R3 b0)", "(A.R3 b0)", "(A.R5 b0)"),
            (1, "(A.R2 b0)", "(A.R2 b0)", "(A.R3 b0)"),
        ],
        "(A.R3 c1) (A.R5 c1)",
        "(not (A.R2 c1)) (not (A.R5 c1))",
        false,
    ),
    // an equation that a rule adds makes terms equal
    (
        "(A.R2 c1) (A.R3 (A.O1 (A.O1 c1)))",
        &[(1, "(A.R2 b0)", "(A.R2 b0)", "(= (A.O1 b0) b0)")],
        "(= (A.O1 c1) c1) (= (A.O1 (A.O1 c1)) c1)",
        "(A.R3 c1) (= c0 c1)",
        false,
    ),
    // the facts of a contradictory disjunct are taken whole, and not everything is one
    (
        "(A.R2 c1) (not (A.R2 c2)) (= c1 c2) (all (A.R3 c1))",
        &[],
        "(A.R2 c2) (not (A.R2 c1)) (= c2 c1)",
        "(A.R3 c1) (not (A.R3 c1)) (not (= c1 c2))",
        true,
    ),
];

const JOINS: [&str; 2] = [
    "(= c1 c2) (= c3 c4) (= c4 c5) (= c2 c3) (all (A.R2 (A.O1 c1))) (all (A.R2 (A.O1 c5)))",
    "(= c2 c3) (= c4 c5) (= c3 c4) (= c1 c2) (all (A.R2 (A.O1 c1))) (all (A.R2 (A.O1 c5)))",
];

#[test]
fn facts_of_problems(rt: HostRuntime) {
    for p in &CASES {
        let f = closed(&rt, rt.alloc(), p.0, p.1);
        let told = is_as_told(rt.alloc(), &f, *p).expect(&rt, "literals");
        forget(f);
        assert!(&rt; told, "at {}", p.0);
    }
}

/// Whether the passes find nothing that the work list left.
#[tactic(auto, using(mz_classes::proofs::CloseLemmas::close_rules))]
fn is_complete(rt: &impl Abort, alloc: Global, d: &Disjunct, clauses: &Clauses) -> bool {
    let g = ground(alloc, d, clauses.as_slice()).expect(rt, "a ground part");
    let graph = graph_of(alloc, &g, d, clauses.as_slice()).expect(rt, "memory");
    let labels = propagated_labels(alloc, &graph.graph).expect(rt, "memory");
    let found = roots_of(alloc, labels.as_slice()).expect(rt, "memory");
    let mut all = roots_of(alloc, labels.as_slice()).expect(rt, "memory");
    settle(alloc, &graph.graph, all.as_mut_slice()).expect(rt, "memory");
    found.as_slice() == all.as_slice()
}

/// The work list alone finds all of the disjunct under the clauses.
fn check_complete(rt: &impl Abort, alloc: Global, text: &str, cs: &[ClauseRow]) {
    let d = disjunct(alloc, text).expect(rt, "a disjunct");
    let cs = clauses(alloc, cs).expect(rt, "clauses");
    let complete = is_complete(rt, alloc, &d, &cs);
    forget(d);
    forget(cs);
    assert!(rt; complete, "at {text}");
}

/// The facts of a graph are found by the work list alone: of each case above, and of two classes that are joined, both
/// with a term above one of their members, in both orders.
#[test]
fn the_work_list_finds_all(rt: HostRuntime) {
    for p in &CASES {
        check_complete(&rt, rt.alloc(), p.0, p.1);
    }
    for text in JOINS {
        check_complete(&rt, rt.alloc(), text, &[]);
    }
}
