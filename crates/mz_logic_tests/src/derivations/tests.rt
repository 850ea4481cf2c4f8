//! Derivations that are valid and derivations that aren't, for each rule.
use crate::derivations::texts::derivation;
use mz_deriv::check::check_derivation;
use mz_deriv::node::right_node;
use mz_logic::sequents::Sequents;
use mz_samples::forms::formulas;
use std::alloc::Global;
use std::process::Abort;

/// Whether the last node follows from its parents, and whether the whole derivation is valid, over the axioms
/// `x = x` and `x has R1`.
fn verdicts(rt: &impl Abort, alloc: Global, text: &str) -> (bool, bool) {
    let axioms = formulas(alloc, "(all (= b0 b0)) (all (A.R1 b0))").expect(rt, "axioms");
    let d = derivation(rt, alloc, text).copy(alloc).expect(rt, "memory");
    let mut parents = Sequents::new(alloc);
    for parent in &d.parents.items {
        let root = parent.conclusion.copy(alloc).expect(rt, "memory");
        parents.push(root).expect(rt, "memory");
    }
    let follows = right_node(&axioms, &d.rule, &d.conclusion, &parents);
    (follows, check_derivation(&axioms, &d))
}

#[test]
fn hypotheses_and_weakening(rt: HostRuntime) {
    let rows = [
        (
            "hypothesis: (A.R1 c1), (A.R1 c2) |- (A.R1 c1)",
            (true, true),
        ),
        ("hypothesis: (A.R1 c2) |- (A.R1 c1)", (false, false)),
        (
            "hypothesis: (A.R1 c1) |- (A.R1 c1)
            weaken: (A.R1 c1), (A.R1 c2) |- (A.R1 c1)",
            (true, true),
        ),
        (
            "hypothesis: (A.R1 c1), (A.R1 c2) |- (A.R1 c1)
            weaken: (A.R1 c1) |- (A.R1 c1)",
            (false, false),
        ),
        ("truth: |- true", (true, true)),
        ("truth: |- (not true)", (false, false)),
    ];
    for (text, wanted) in rows {
        assert!(rt; verdicts(&rt, rt.alloc(), text) == wanted, "{text}");
    }
}

#[test]
fn derivations_with_conjunctions(rt: HostRuntime) {
    let rows = [
        (
            "hypothesis: (A.R1 c1), (A.R1 c2) |- (A.R1 c1)
            hypothesis: (A.R1 c1), (A.R1 c2) |- (A.R1 c2)
            and in: (A.R1 c1), (A.R1 c2) |- (and (A.R1 c1) (A.R1 c2))",
            (true, true),
        ),
        (
            "hypothesis: (A.R1 c1), (A.R1 c2) |- (A.R1 c2)
            hypothesis: (A.R1 c1), (A.R1 c2) |- (A.R1 c1)
            and in: (A.R1 c1), (A.R1 c2) |- (and (A.R1 c1) (A.R1 c2))",
            (false, false),
        ),
        (
            "hypothesis: (and (A.R1 c1) (A.R1 c2)) |- (and (A.R1 c1) (A.R1 c2))
            and left: (and (A.R1 c1) (A.R1 c2)) |- (A.R1 c1)",
            (true, true),
        ),
        (
            "hypothesis: (and (A.R1 c1) (A.R1 c2)) |- (and (A.R1 c1) (A.R1 c2))
            and left: (and (A.R1 c1) (A.R1 c2)) |- (A.R1 c2)",
            (false, false),
        ),
        (
            "hypothesis: (and (A.R1 c1) (A.R1 c2)) |- (and (A.R1 c1) (A.R1 c2))
            and right: (and (A.R1 c1) (A.R1 c2)) |- (A.R1 c2)",
            (true, true),
        ),
        (
            "hypothesis: (and (A.R1 c1) (A.R1 c2)) |- (and (A.R1 c1) (A.R1 c2))
            and right: (and (A.R1 c1) (A.R1 c2)) |- (A.R1 c1)",
            (false, false),
        ),
    ];
    for (text, wanted) in rows {
        assert!(rt; verdicts(&rt, rt.alloc(), text) == wanted, "{text}");
    }
}

#[test]
fn derivations_with_negations(rt: HostRuntime) {
    let rows = [
        (
            "hypothesis: (not true), (A.R1 c1) |- (not true)
            not in: (A.R1 c1) |- (not (not true))",
            (true, true),
        ),
        (
            "hypothesis: (A.R1 c1), (not true) |- (not true)
            not in: (A.R1 c1) |- (not (not true))",
            (false, false),
        ),
        (
            "hypothesis: (A.R1 c1), (not (A.R1 c1)) |- (A.R1 c1)
            hypothesis: (A.R1 c1), (not (A.R1 c1)) |- (not (A.R1 c1))
            not out: (A.R1 c1), (not (A.R1 c1)) |- (A.R1 c2)",
            (true, true),
        ),
        (
            "hypothesis: (A.R1 c1), (not (A.R1 c2)) |- (A.R1 c1)
            hypothesis: (A.R1 c1), (not (A.R1 c2)) |- (not (A.R1 c2))
            not out: (A.R1 c1), (not (A.R1 c2)) |- (A.R1 c3)",
            (false, false),
        ),
        (
            "hypothesis: (not (A.R1 c1)), (not true) |- (not true)
            classical: (not true) |- (A.R1 c1)",
            (true, true),
        ),
        (
            "hypothesis: (A.R1 c1), (not true) |- (not true)
            classical: (not true) |- (A.R1 c1)",
            (false, false),
        ),
    ];
    for (text, wanted) in rows {
        assert!(rt; verdicts(&rt, rt.alloc(), text) == wanted, "{text}");
    }
}

#[test]
fn derivations_with_a_cut(rt: HostRuntime) {
    let rows = [
        (
            "truth: (A.R1 c2) |- true
            hypothesis: true, (A.R1 c2) |- (A.R1 c2)
            cut: (A.R1 c2) |- (A.R1 c2)",
            (true, true),
        ),
        (
            "truth: (A.R1 c2) |- true
            hypothesis: (A.R1 c2), true |- (A.R1 c2)
            cut: (A.R1 c2) |- (A.R1 c2)",
            (false, false),
        ),
    ];
    for (text, wanted) in rows {
        assert!(rt; verdicts(&rt, rt.alloc(), text) == wanted, "{text}");
    }
}

#[test]
fn derivations_with_quantifiers(rt: HostRuntime) {
    let rows = [
        (
            "reflexive: |- (= c1 c1)
            all in 1: |- (all (= b0 b0))",
            (true, true),
        ),
        (
            "reflexive: (= c1 c1) |- (= c1 c1)
            all in 1: (= c1 c1) |- (all (= b0 b0))",
            (false, false),
        ),
        (
            "reflexive: |- (= c1 c1)
            all in 1: |- (all (= b0 c1))",
            (false, false),
        ),
        (
            "hypothesis: (all (A.R1 b0)) |- (all (A.R1 b0))
            all out c1: (all (A.R1 b0)) |- (A.R1 c1)",
            (true, true),
        ),
        (
            "hypothesis: (all (A.R1 b0)) |- (all (A.R1 b0))
            all out b0: (all (A.R1 b0)) |- (A.R1 b0)",
            (false, false),
        ),
    ];
    for (text, wanted) in rows {
        assert!(rt; verdicts(&rt, rt.alloc(), text) == wanted, "{text}");
    }
}

#[test]
fn derivations_with_equations(rt: HostRuntime) {
    let rows = [
        ("reflexive: |- (= (A.O1 c1) (A.O1 c1))", (true, true)),
        ("reflexive: |- (= c1 c2)", (false, false)),
        ("reflexive: |- (= b0 b0)", (false, false)),
        (
            "hypothesis: (= c1 c2), (= c1 c1) |- (= c1 c2)
            hypothesis: (= c1 c2), (= c1 c1) |- (= c1 c1)
            replace: (= c1 c2), (= c1 c1) |- (= c2 c1)",
            (true, true),
        ),
        (
            "hypothesis: (= c1 c2), (A.R1 c2) |- (= c1 c2)
            hypothesis: (= c1 c2), (A.R1 c2) |- (A.R1 c2)
            replace: (= c1 c2), (A.R1 c2) |- (A.R1 c1)",
            (false, false),
        ),
    ];
    for (text, wanted) in rows {
        assert!(rt; verdicts(&rt, rt.alloc(), text) == wanted, "{text}");
    }
}

#[test]
fn axioms_and_instances(rt: HostRuntime) {
    let rows = [
        ("axiom 2: |- (all (A.R1 b0))", (true, true)),
        ("axiom 1: |- (all (A.R1 b0))", (false, false)),
        ("axiom 0: |- (all (= b0 b0))", (false, false)),
        (
            "hypothesis: (all (A.P1 b0)) |- (all (A.P1 b0))
            instance A.P1 (all (= b0 b1)): (all (all (= b0 b1))) |- (all (all (= b0 b1)))",
            (true, true),
        ),
        (
            "hypothesis: (all (A.P1 b0)) |- (all (A.P1 b0))
            instance A.P1 (all (= b0 b1)): (all (all (= b0 b0))) |- (all (all (= b0 b0)))",
            (false, false),
        ),
        (
            "hypothesis: (A.R1 (A.F1 c1)) |- (A.R1 (A.F1 c1))
            instance A.F1 (A.O1 b0): (A.R1 (A.O1 c1)) |- (A.R1 (A.O1 c1))",
            (true, true),
        ),
        (
            "hypothesis: (A.R1 (A.F1 c1)) |- (A.R1 (A.F1 c1))
            instance A.F1 (A.O1 b0): (A.R1 c1) |- (A.R1 c1)",
            (false, false),
        ),
    ];
    for (text, wanted) in rows {
        assert!(rt; verdicts(&rt, rt.alloc(), text) == wanted, "{text}");
    }
}

#[test]
fn derivations_with_a_wrong_node_within(rt: HostRuntime) {
    let rows = [
        (
            "truth: |- true
            truth: |- true
            truth: |- true
            weaken: |- true",
            (false, false),
        ),
        (
            "reflexive: |- (= c1 c2)
            weaken: (A.R1 c1) |- (= c1 c2)",
            (true, false),
        ),
        (
            "reflexive: |- (= c1 c2)
            weaken: (A.R1 c1) |- (= c1 c2)
            weaken: (A.R1 c1), (A.R1 c2) |- (= c1 c2)",
            (true, false),
        ),
    ];
    for (text, wanted) in rows {
        assert!(rt; verdicts(&rt, rt.alloc(), text) == wanted, "{text}");
    }
}
