//! Problems of simple justifications, worked out by hand from the rules.
use crate::theses::samples::{Given, PART, S, U, in_force, statement_of};
use mz_core::statements::Statements;
use mz_item_samples::types::{ConstantRow, SET};
use mz_logic::formula::Formula;
use mz_logic::texts::push_formula;
use mz_nf::problem::Problem;
use mz_problem::asked::asked;
use std::alloc::Global;
use std::mem::forget;
use std::process::Abort;

/// What is given, the statement, and its problem as a text, a blank behind each premise.
type Row = (&'static [S], S, &'static str);

fn statements(rt: &impl Abort, alloc: Global, ss: &[S]) -> Statements {
    let mut out = Statements::new(alloc);
    for s in ss {
        out.push(statement_of(rt, alloc, *s)).expect(rt, "memory");
    }
    out
}

fn problem(rt: &impl Abort, alloc: Global, g: &Given, ss: &[S], s: S) -> Problem {
    let ss = statements(rt, alloc, ss);
    let s = statement_of(rt, alloc, s);
    let clauses = g.clauses.as_slice();
    let p = asked(alloc, clauses, &g.constants, &g.unfoldings, &ss, &s).expect(rt, "memory");
    forget(ss);
    forget(s);
    p
}

fn with_formula(rt: &impl Abort, alloc: Global, front: Vec<u8>, f: &Formula) -> Vec<u8> {
    let mut out = front;
    push_formula(alloc, &mut out, f).expect(rt, "memory");
    out.push(b' ').expect(rt, "memory");
    out
}

/// The premises, `|-` and the conclusion, with a blank behind each.
fn problem_text(rt: &impl Abort, alloc: Global, p: Problem) -> Vec<u8> {
    let mut out = Vec::new(alloc);
    for f in &p.premises.items {
        out = with_formula(rt, alloc, out, f);
    }
    out.extend_from_slice(b"|- ").expect(rt, "memory");
    out = with_formula(rt, alloc, out, &p.conclusion);
    forget(p);
    out
}

fn check(rt: &impl Abort, alloc: Global, g: &Given, row: Row) {
    let (ss, s, wanted) = row;
    let p = problem(rt, alloc, g, ss, s);
    let found = problem_text(rt, alloc, p);
    let same = found.as_slice() == wanted.as_bytes();
    forget(found);
    assert!(rt; same, "{wanted}");
}

/// A part that is odd, a set, and a set that is equal to a value at the second.
const CONSTANTS: [ConstantRow; 3] = [(("A.M1", "A.V1"), ""), (SET, ""), (SET, "(A.O1 c1)")];

/// An atom that is a conjunction, and one of parts alone.
const UNFOLDINGS: [U; 2] = [
    (&[SET], "(A.R7 b0)", ("(and (A.R1 b0) (A.R2 b0))", &[])),
    (&[PART], "(A.R8 b0)", ("(A.R3 b0)", &[])),
];

const ROWS: [Row; 10] = [
    // what is given, in its order; nothing is known of the second constant
    (
        &[("(A.R1 c2)", &[]), ("(A.R2 c2)", &[])],
        ("(A.R3 c2)", &[]),
        "(A.R1 c2) (A.R2 c2) |- (A.R3 c2) ",
    ),
    // the guard of a constant
    (&[], ("(A.R1 c1)", &[]), "(A.M1 c1) (A.V1 c1) |- (A.R1 c1) "),
    // an equation, and what is known of the constant that occurs in it
    (
        &[],
        ("(A.R1 c3)", &[]),
        "(= c3 (A.O1 c1)) (A.M1 c1) (A.V1 c1) |- (A.R1 c3) ",
    ),
    // leading quantifiers are opened, with the guards of their constants at the end
    (
        &[("(A.R1 c2)", &[])],
        ("(all (A.R2 b0))", &[PART]),
        "(A.R1 c2) (A.M1 c4) |- (A.R2 c4) ",
    ),
    (
        &[],
        ("(all (all (A.R6 b1 b0)))", &[SET, ("(A.M2 b0)", "")]),
        "(A.M2 c4 c5) |- (A.R6 c4 c5) ",
    ),
    // not those under a negation
    (
        &[],
        ("(not (all (A.R2 b0)))", &[SET]),
        "|- (not (all (A.R2 b0))) ",
    ),
    // the definiens of a premise, behind what is known
    (
        &[("(A.R7 c1)", &[])],
        ("A.R9", &[]),
        "(A.R7 c1) (A.M1 c1) (A.V1 c1) (and (A.R1 c1) (A.R2 c1)) |- A.R9 ",
    ),
    // of a part, of a negated one, and of the negated conclusion
    (
        &[("(and A.R9 (not (A.R7 c2)))", &[])],
        ("A.R9", &[]),
        "(and A.R9 (not (A.R7 c2))) (not (and (A.R1 c2) (A.R2 c2))) |- A.R9 ",
    ),
    (
        &[],
        ("(A.R7 c2)", &[]),
        "(not (and (A.R1 c2) (A.R2 c2))) |- (A.R7 c2) ",
    ),
    // none where its guards don't fit; of a fresh constant where they do
    (
        &[("(A.R8 c2)", &[])],
        ("(all (A.R8 b0))", &[PART]),
        "(A.R8 c2) (not (A.R3 c4)) (A.M1 c4) |- (A.R8 c4) ",
    ),
];

#[test]
fn problems_of_statements(rt: HostRuntime) {
    let g = in_force(&rt, rt.alloc(), &[], &CONSTANTS, &UNFOLDINGS);
    for row in ROWS {
        check(&rt, rt.alloc(), &g, row);
    }
    forget(g);
}
