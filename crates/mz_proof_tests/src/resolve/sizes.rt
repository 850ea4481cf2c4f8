//! The limits on nodes and depth, met exactly and passed by one.
use crate::resolve::answers::{Call, answer};
use crate::resolve::environments::{environment, put_functor, sym_of, term_of};
use crate::resolve::small::{ITEMS, SYMBOLS, context};
use mz_context::context::Context;
use mz_environment::environment::Environment;
use mz_item_samples::types::OBJECT;
use mz_logic::term::{Term, Terms};
use std::alloc::Global;
use std::mem::forget;
use std::process::Abort;

/// The term again and again as both arguments of `*`, so often.
fn doubled(rt: &impl Abort, alloc: Global, text: &str, times: u32) -> Term {
    let product = sym_of(rt, "A.O2");
    let mut t = term_of(rt, alloc, text);
    for _k in 0..times {
        let copy = t.copy(alloc).expect(rt, "memory");
        let mut args = Terms::new(alloc);
        args.push(t).expect(rt, "memory");
        args.push(copy).expect(rt, "memory");
        t = Term::apply(product, args);
    }
    t
}

/// The term with so many `!` behind it.
fn marked(rt: &impl Abort, alloc: Global, text: &str, times: u32) -> Term {
    let mark = sym_of(rt, "A.O3");
    let mut t = term_of(rt, alloc, text);
    for _k in 0..times {
        let mut args = Terms::new(alloc);
        args.push(t).expect(rt, "memory");
        t = Term::apply(mark, args);
    }
    t
}

/// At the place of the small article, where `B(t)` has 32,767 nodes for a constant t and `N()` the depth 510.
fn context_with_large_terms(rt: &impl Abort, alloc: Global) -> Context {
    let mut ctx = context(rt, alloc);
    let body = doubled(rt, alloc, "b0", 14);
    put_functor(rt, alloc, &mut ctx, "B", &[OBJECT], body);
    let body = marked(rt, alloc, "c1", 509);
    put_functor(rt, alloc, &mut ctx, "N", &[], body);
    ctx
}

/// A text, and the refusal; nothing where it is read.
type Row = (Call, &'static str, &'static str);

/// Whether it is the refusal, or where none is wanted an application, an atom or a quantifier.
fn is_refusal(found: Vec<u8>, wanted: &str) -> bool {
    let same = if wanted.is_empty() {
        found.first() == Some(&b'(')
    } else {
        found.as_slice() == wanted.as_bytes()
    };
    forget(found);
    same
}

fn check(rt: &impl Abort, alloc: Global, env: &Environment, ctx: &mut Context, row: Row) {
    let (call, text, wanted) = row;
    let (found, _) = answer(rt, alloc, SYMBOLS, env, ctx, call, 0, 1000000, text);
    let same = is_refusal(found, wanted);
    assert!(rt; same, "{text}");
}

const NODES: [Row; 13] = [
    (Call::Term, "(B(c) * B(c)) !", ""),
    (Call::Term, "((B(c) * B(c)) !) !", "L31"),
    (Call::Term, "c * (((B(c) * B(c)) !) !)", "L36"),
    (Call::Term, "c * (B(c) * B(c))", "L31"),
    (Call::Term, "F(B(c))", ""),
    (Call::Term, "F(B(c) !)", "L31"),
    (Call::Term, "c * F(B(c) !)", "L35"),
    (Call::Term, "F(F(F(B(c))))", "L33"),
    (Call::Term, "H(B(c), B(c))", ""),
    (Call::Term, "c * H(B(c) !, B(c) !)", "L35"),
    (Call::Type, "Elm of B(c) * B(c)", ""),
    (Call::Type, "Elm of (B(c) * B(c)) !", "L31"),
    (Call::Type, "Elm of ((B(c) * B(c)) !) !", "L38"),
];

const NODES_OF_STATEMENTS: [Row; 11] = [
    (Call::Formula, "B(c) = B(c) !", ""),
    (Call::Formula, "B(c) ! = B(c) !", "L31"),
    (Call::Formula, "c = c & B(c) ! = B(c) !", "L39"),
    (Call::Formula, "c = c & B(c) = B(c)", "L31"),
    (Call::Formula, "not B(c) = B(c)", ""),
    (Call::Formula, "not B(c) = B(c) !", "L31"),
    (Call::Formula, "c = c or not B(c) ! = B(c)", "L40"),
    (Call::Formula, "for a being set holds B(c) = B(c)", "L31"),
    (
        Call::Formula,
        "c = c & (for a being set holds B(c) = B(c))",
        "L40",
    ),
    (Call::Sentence, "B(c) = B(c)", ""),
    // closed it has two nodes more
    (Call::Sentence, "B(x) = B(c)", "L31"),
];

const DEPTHS: [Row; 18] = [
    (Call::Term, "(N() !) !", ""),
    (Call::Term, "((N() !) !) !", "L31"),
    (Call::Term, "c * (((N() !) !) !)", "L36"),
    (Call::Type, "Elm of N() !", ""),
    (Call::Type, "Elm of (N() !) !", "L31"),
    (Call::Formula, "N() ! = c", ""),
    (Call::Formula, "(N() !) ! = c", "L31"),
    (Call::Formula, "not N() = c", ""),
    (Call::Formula, "not N() ! = c", "L31"),
    (Call::Formula, "c = c & N() = c", ""),
    (Call::Formula, "c = c & N() ! = c", "L31"),
    (Call::Formula, "c = c implies N() = c", "L31"),
    (Call::Formula, "for a being set holds N() = c", ""),
    (
        Call::Formula,
        "c = c & (for a being set holds N() ! = c)",
        "L40",
    ),
    (Call::Formula, "c is Elm of N() !", ""),
    (Call::Formula, "c is Elm of (N() !) !", "L36"),
    (Call::Sentence, "x = N()", ""),
    (Call::Sentence, "x = N() !", "L31"),
];

const ADJECTIVES: [Row; 15] = [
    // an atom of the depth 512 and one of 513, whose place is that of the formula
    (Call::Formula, "(N() !) is empty", ""),
    (Call::Formula, "(N() !) ! is empty", "L31"),
    (Call::Formula, "(N() !) is non empty", "L31"),
    (Call::Formula, "N() is non empty", ""),
    // a later adjective is read before the whole is tested
    (Call::Formula, "(N() !) ! is empty far", "S50"),
    (Call::Formula, "(N() !) ! is empty empty", "L31"),
    // the adjective alone has 65,536 nodes, and with its subject one more; then it has one more itself, and its own place
    (Call::Formula, "d is (B(c) * B(c)) big", "L31"),
    (Call::Formula, "d is ((B(c) * B(c)) !) big", "L36"),
    (Call::Formula, "d is non ((B(c) * B(c)) !) big", "L36"),
    (Call::Formula, "d is empty ((B(c) * B(c)) !) big", "L42"),
    (Call::Formula, "d is (B(c) * B(c)) big far", "S54"),
    (
        Call::Formula,
        "d is (B(c) * B(c)) big ((B(c) * B(c)) !) big",
        "L54",
    ),
    // 32,772 nodes, and 65,539
    (Call::Formula, "d is (B(c)) big empty", ""),
    (Call::Formula, "d is (B(c)) big (B(c)) big", "L31"),
    (Call::Formula, "c = c & d is (B(c)) big (B(c)) big", "L39"),
];

fn check_rows(rt: &impl Abort, alloc: Global, rows: &[Row]) {
    let env = environment(rt, alloc, &ITEMS);
    let mut ctx = context_with_large_terms(rt, alloc);
    for row in rows {
        check(rt, alloc, &env, &mut ctx, *row);
    }
    forget(env);
    forget(ctx);
}

#[test]
fn nodes(rt: HostRuntime) {
    check_rows(&rt, rt.alloc(), &NODES);
}

#[test]
fn nodes_of_statements(rt: HostRuntime) {
    check_rows(&rt, rt.alloc(), &NODES_OF_STATEMENTS);
}

#[test]
fn adjectives_of_a_term(rt: HostRuntime) {
    check_rows(&rt, rt.alloc(), &ADJECTIVES);
}

#[test]
fn depths(rt: HostRuntime) {
    check_rows(&rt, rt.alloc(), &DEPTHS);
}
