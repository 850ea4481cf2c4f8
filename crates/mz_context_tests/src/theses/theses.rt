//! Theses after steps, worked out by hand from the table of steps.
use crate::theses::samples::{Given, PART, S, U, in_force, statement_of};
use mz_core::statement::Statement;
use mz_item_samples::types::{ClauseRow, ConstantRow, SET, TypeRow, ty};
use mz_samples::forms::term;
use mz_thesis::apply::apply;
use mz_thesis::step::Step;
use std::alloc::Global;
use std::mem::forget;
use std::process::Abort;

/// A step as texts. The constant of `let` is the third.
#[derive(Clone, Copy)]
enum Move {
    Let(TypeRow),
    Assume(S),
    Thus(S),
    Take(&'static str),
}

/// A thesis, a step, and the thesis after it where it fits.
type Row = (S, Move, Option<S>);

/// A set and a part.
const CONSTANTS: [ConstantRow; 2] = [(SET, ""), (PART, "")];

fn step(rt: &impl Abort, alloc: Global, m: Move) -> Step {
    match m {
        Move::Let(t) => Step::Let {
            constant: 3,
            ty: ty(alloc, t).expect(rt, "a type"),
        },
        Move::Assume(s) => Step::Assume(statement_of(rt, alloc, s)),
        Move::Thus(s) => Step::Thus(statement_of(rt, alloc, s)),
        Move::Take(t) => Step::Take(term(alloc, t).expect(rt, "a term")),
    }
}

/// The thesis after the step.
fn after(rt: &impl Abort, alloc: Global, g: &Given, thesis: S, m: Move) -> Option<Statement> {
    let s = statement_of(rt, alloc, thesis);
    let step = step(rt, alloc, m);
    let clauses = g.clauses.as_slice();
    let found = apply(alloc, clauses, &g.constants, &g.unfoldings, &s, &step).ok();
    forget(s);
    forget(step);
    found
}

/// Whether the statement is this one.
fn is(rt: &impl Abort, alloc: Global, found: Statement, wanted: S) -> bool {
    let s = statement_of(rt, alloc, wanted);
    let same = found.equals(&s);
    forget(s);
    forget(found);
    same
}

fn leads(rt: &impl Abort, alloc: Global, g: &Given, row: Row) -> bool {
    let (thesis, m, wanted) = row;
    match (after(rt, alloc, g, thesis, m), wanted) {
        (Some(found), Some(wanted)) => is(rt, alloc, found, wanted),
        (None, None) => true,
        (Some(found), None) => {
            forget(found);
            false
        }
        (None, Some(_)) => false,
    }
}

fn check(rt: &impl Abort, alloc: Global, g: &Given, row: Row, number: usize) {
    let found = leads(rt, alloc, g, row);
    assert!(rt; found, "{number}");
}

fn check_all(rt: &impl Abort, alloc: Global, g: Given, rows: &[Row]) {
    for i in 0..rows.len() {
        check(rt, alloc, &g, rows[i], i);
    }
    forget(g);
}

const TRUE: S = ("true", &[]);

const FALSE: S = ("(not true)", &[]);

const A: S = ("A.R1", &[]);

const B: S = ("A.R2", &[]);

const C: S = ("A.R3", &[]);

/// That what is odd is `V1`.
const ODD: ClauseRow = (1, "(A.V2 b0)", "(A.V2 b0)", "(A.V1 b0)");

const LETS: [Row; 8] = [
    (
        ("(all (A.R5 b0))", &[SET]),
        Move::Let(SET),
        Some(("(A.R5 c3)", &[])),
    ),
    // a wider type fits, a narrower one doesn't
    (
        ("(all (A.R5 b0))", &[PART]),
        Move::Let(SET),
        Some(("(A.R5 c3)", &[])),
    ),
    (("(all (A.R5 b0))", &[SET]), Move::Let(PART), None),
    // an adjective that a registration adds
    (
        ("(all (A.R5 b0))", &[("HIDDEN.M2", "A.V2")]),
        Move::Let(("HIDDEN.M2", "A.V1")),
        Some(("(A.R5 c3)", &[])),
    ),
    (
        ("(all (A.R5 b0))", &[("HIDDEN.M2", "A.V1")]),
        Move::Let(("HIDDEN.M2", "A.V2")),
        None,
    ),
    // the type of the quantifier inside
    (
        ("(all (all (A.R6 b1 b0)))", &[SET, ("(A.M2 b0)", "")]),
        Move::Let(SET),
        Some(("(all (A.R6 c3 b0))", &[("(A.M2 c3)", "")])),
    ),
    // no universal
    (("(not (all (A.R5 b0)))", &[SET]), Move::Let(SET), None),
    (A, Move::Let(SET), None),
];

#[test]
fn theses_after_let(rt: HostRuntime) {
    let g = in_force(&rt, rt.alloc(), &[ODD], &CONSTANTS, &[]);
    check_all(&rt, rt.alloc(), g, &LETS);
}

const ASSUMPTIONS: [Row; 9] = [
    (
        ("(not (and A.R1 A.R2))", &[]),
        Move::Assume(A),
        Some(("(not A.R2)", &[])),
    ),
    (
        ("(not (and A.R1 (not A.R2)))", &[]),
        Move::Assume(A),
        Some(B),
    ),
    (
        ("(not (and A.R1 A.R2))", &[]),
        Move::Assume(("(and A.R1 A.R2)", &[])),
        Some(FALSE),
    ),
    (
        ("(not (and (and A.R1 A.R2) (not A.R3)))", &[]),
        Move::Assume(A),
        Some(("(not (and A.R2 (not A.R3)))", &[])),
    ),
    // the same up to double negations
    (
        ("(not (and A.R1 (not A.R2)))", &[]),
        Move::Assume(("(not (not A.R1))", &[])),
        Some(B),
    ),
    // indirectly
    (A, Move::Assume(("(not A.R1)", &[])), Some(FALSE)),
    (A, Move::Assume(B), None),
    // not from the middle, and not more than there is
    (("(not (and A.R1 (not A.R2)))", &[]), Move::Assume(B), None),
    (
        ("(not A.R1)", &[]),
        Move::Assume(("(and A.R1 A.R2)", &[])),
        None,
    ),
];

#[test]
fn theses_after_assume(rt: HostRuntime) {
    let g = in_force(&rt, rt.alloc(), &[], &CONSTANTS, &[]);
    check_all(&rt, rt.alloc(), g, &ASSUMPTIONS);
}

const CONCLUSIONS: [Row; 8] = [
    (A, Move::Thus(A), Some(TRUE)),
    (("(and A.R1 A.R2)", &[]), Move::Thus(A), Some(B)),
    (
        ("(and A.R1 A.R2)", &[]),
        Move::Thus(("(and A.R1 A.R2)", &[])),
        Some(TRUE),
    ),
    // the rest is grouped to the left
    (
        ("(and A.R1 (and A.R2 (and A.R3 A.R4)))", &[]),
        Move::Thus(A),
        Some(("(and (and A.R2 A.R3) A.R4)", &[])),
    ),
    (
        ("(and A.R1 (and A.R2 A.R3))", &[]),
        Move::Thus(("(and A.R1 A.R2)", &[])),
        Some(C),
    ),
    // not from the middle, and not more than there is
    (("(and A.R1 A.R2)", &[]), Move::Thus(B), None),
    (A, Move::Thus(("(and A.R1 A.R1)", &[])), None),
    // the types of quantifiers are part of what is said
    (
        ("(all (A.R5 b0))", &[PART]),
        Move::Thus(("(all (A.R5 b0))", &[("A.M3", "")])),
        None,
    ),
];

#[test]
fn theses_after_thus(rt: HostRuntime) {
    let g = in_force(&rt, rt.alloc(), &[], &CONSTANTS, &[]);
    check_all(&rt, rt.alloc(), g, &CONCLUSIONS);
}

const EXAMPLES: [Row; 6] = [
    (
        ("(not (all (not (A.R5 b0))))", &[SET]),
        Move::Take("c1"),
        Some(("(A.R5 c1)", &[])),
    ),
    (
        ("(not (all (A.R5 b0)))", &[SET]),
        Move::Take("c1"),
        Some(("(not (A.R5 c1))", &[])),
    ),
    (
        ("(not (all (not (A.R5 b0))))", &[PART]),
        Move::Take("c2"),
        Some(("(A.R5 c2)", &[])),
    ),
    // its type doesn't fit
    (
        ("(not (all (not (A.R5 b0))))", &[PART]),
        Move::Take("c1"),
        None,
    ),
    // no existential
    (("(all (A.R5 b0))", &[SET]), Move::Take("c1"), None),
    (A, Move::Take("c1"), None),
];

#[test]
fn theses_after_take(rt: HostRuntime) {
    let g = in_force(&rt, rt.alloc(), &[], &CONSTANTS, &[]);
    check_all(&rt, rt.alloc(), g, &EXAMPLES);
}

const AS_B: S = ("A.R2", &[]);

/// An atom of each number from 10 on is that of the next, and the last is a universal.
const CHAIN: [U; 9] = [
    (&[], "A.R10", ("A.R11", &[])),
    (&[], "A.R11", ("A.R12", &[])),
    (&[], "A.R12", ("A.R13", &[])),
    (&[], "A.R13", ("A.R14", &[])),
    (&[], "A.R14", ("A.R15", &[])),
    (&[], "A.R15", ("A.R16", &[])),
    (&[], "A.R16", ("A.R17", &[])),
    (&[], "A.R17", ("A.R18", &[])),
    (&[], "A.R18", ("(all (A.R5 b0))", &[SET])),
];

/// After 1, 8 and 9 unfoldings; of the first part alone.
const UNFOLDED: [Row; 5] = [
    (("A.R18", &[]), Move::Let(SET), Some(("(A.R5 c3)", &[]))),
    (("A.R11", &[]), Move::Let(SET), Some(("(A.R5 c3)", &[]))),
    (("A.R10", &[]), Move::Let(SET), None),
    (
        ("(and A.R17 A.R18)", &[]),
        Move::Thus(("A.R18", &[])),
        Some(("A.R18", &[])),
    ),
    (
        ("(and A.R1 A.R17)", &[]),
        Move::Thus(("(and A.R1 A.R18)", &[])),
        None,
    ),
];

#[test]
fn theses_after_unfoldings(rt: HostRuntime) {
    let g = in_force(&rt, rt.alloc(), &[], &CONSTANTS, &CHAIN);
    check_all(&rt, rt.alloc(), g, &UNFOLDED);
}

/// Two of one atom, of which the later is for parts, and one of a functor, with its value as the last locus.
const CHOICE: [U; 3] = [
    (&[SET], "(A.R7 b0)", A),
    (&[PART], "(A.R7 b0)", AS_B),
    (&[PART, SET], "(A.O1 b1)", ("(A.R6 b1 b0)", &[])),
];

const CHOSEN: [Row; 7] = [
    (("(A.R7 c1)", &[]), Move::Thus(A), Some(TRUE)),
    (("(A.R7 c2)", &[]), Move::Thus(B), Some(TRUE)),
    // the latest that fits, and no other
    (("(A.R7 c2)", &[]), Move::Thus(A), None),
    // as it is, before any unfolding
    (
        ("(A.R7 c2)", &[]),
        Move::Thus(("(A.R7 c2)", &[])),
        Some(TRUE),
    ),
    // the right side of an equation, else the left one
    (
        ("(= c1 (A.O1 c2))", &[]),
        Move::Thus(("(A.R6 c2 c1)", &[])),
        Some(TRUE),
    ),
    (
        ("(= (A.O1 c2) c1)", &[]),
        Move::Thus(("(A.R6 c2 c1)", &[])),
        Some(TRUE),
    ),
    // its argument doesn't fit
    (
        ("(= c2 (A.O1 c1))", &[]),
        Move::Thus(("(A.R6 c1 c2)", &[])),
        None,
    ),
];

#[test]
fn the_latest_unfolding_that_fits(rt: HostRuntime) {
    let g = in_force(&rt, rt.alloc(), &[], &CONSTANTS, &CHOICE);
    check_all(&rt, rt.alloc(), g, &CHOSEN);
}
