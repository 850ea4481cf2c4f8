//! Nodes and depths, counted by hand.
use crate::theses::samples::{S, statement_of};
use mz_item_samples::types::SET;
use mz_logic::kind::Kind;
use mz_logic::sym::Sym;
use mz_logic::term::{Term, Terms};
use mz_sizes::depth::statement_within;
use mz_sizes::keeps::term_keeps;
use mz_sizes::nodes::after_statement;
use std::alloc::Global;
use std::mem::forget;
use std::process::Abort;

/// A statement, its nodes and its depth.
type Row = (S, u32, u32);

const ROWS: [Row; 8] = [
    (("true", &[]), 1, 1),
    (("(= c1 b0)", &[]), 3, 2),
    (("(A.R6 c1 (A.O1 c1))", &[]), 4, 3),
    (("(not A.R1)", &[]), 2, 2),
    (("(and A.R1 (not A.R1))", &[]), 4, 3),
    (("(all (A.R5 b0))", &[SET]), 4, 3),
    (("(all (A.R5 b0))", &[("(A.M2 c1)", "(A.V2 c1)")]), 7, 3),
    (("(all A.R1)", &[("A.M1", "A.V1 (A.V2 (A.O1 c1))")]), 7, 4),
];

/// Whether the statement has exactly so many nodes and exactly the depth.
fn is_measured(rt: &impl Abort, alloc: Global, row: Row) -> bool {
    let (s, nodes, depth) = row;
    let s = statement_of(rt, alloc, s);
    let exact = after_statement(&s, nodes) == Some(0);
    let no_less = after_statement(&s, nodes.saturating_sub(1)).is_none();
    let within = statement_within(&s, depth);
    let no_lower = !statement_within(&s, depth.saturating_sub(1));
    forget(s);
    exact && no_less && within && no_lower
}

fn check(rt: &impl Abort, alloc: Global, row: Row, number: usize) {
    let found = is_measured(rt, alloc, row);
    assert!(rt; found, "{number}");
}

#[test]
fn nodes_and_depths(rt: HostRuntime) {
    for i in 0..ROWS.len() {
        check(&rt, rt.alloc(), ROWS[i], i);
    }
}

fn applied(args: Terms) -> Term {
    let sym = Sym {
        article: 0,
        kind: Kind::Functor,
        number: 1,
    };
    Term::apply(sym, args)
}

/// A functor of so many constants: one node more.
fn wide(rt: &impl Abort, alloc: Global, count: u32) -> Term {
    let mut args = Terms::new(alloc);
    for _ in 0..count {
        args.push(Term::constant(1)).expect(rt, "memory");
    }
    applied(args)
}

fn over(rt: &impl Abort, alloc: Global, t: Term) -> Term {
    let mut args = Terms::new(alloc);
    args.push(t).expect(rt, "memory");
    applied(args)
}

/// A constant under so many functors: the depth is one more.
fn deep(rt: &impl Abort, alloc: Global, count: u32) -> Term {
    let mut t = Term::constant(1);
    for _ in 0..count {
        t = over(rt, alloc, t);
    }
    t
}

fn check_kept(rt: &impl Abort, t: Term, wanted: bool) {
    let found = term_keeps(&t);
    forget(t);
    assert!(rt; found == wanted);
}

#[test]
fn limits_are_exact(rt: HostRuntime) {
    check_kept(&rt, wide(&rt, rt.alloc(), 65535), true);
    check_kept(&rt, wide(&rt, rt.alloc(), 65536), false);
    check_kept(&rt, deep(&rt, rt.alloc(), 511), true);
    check_kept(&rt, deep(&rt, rt.alloc(), 512), false);
}
