//! Texts beside what they are read to, worked out by hand.
use crate::terms::environment::{context, environment};
use crate::terms::texts::{is_term, refusal, term_of, type_of};
use mz_context::context::Context;
use mz_environment::environment::Environment;
use mz_logic::term::Term;
use std::alloc::Global;
use std::mem::forget;
use std::process::Abort;

/// Terms, and the texts of what they are read to.
const READ: [(&str, &str); 20] = [
    ("x", "c1"),
    ("(y)", "c2"),
    ("x + y", "(A.F1 c1 c2)"),
    ("x + y * x", "(A.F1 c1 (A.F2 c2 c1))"),
    ("x * y + x", "(A.F1 (A.F2 c1 c2) c1)"),
    ("x + y + x", "(A.F1 (A.F1 c1 c2) c1)"),
    ("x + (y + x)", "(A.F1 c1 (A.F1 c2 c1))"),
    ("(x) + (y)", "(A.F1 c1 c2)"),
    ("neg x", "(A.F4 c1)"),
    ("neg neg x", "(A.F4 (A.F4 c1))"),
    ("neg x + y", "(A.F1 (A.F4 c1) c2)"),
    ("x fac", "(A.F5 c1)"),
    ("one", "A.F3"),
    ("one + one", "(A.F1 A.F3 A.F3)"),
    ("neg one", "(A.F4 A.F3)"),
    ("lb x + y rb", "(A.F6 (A.F1 c1 c2))"),
    ("{x, one}", "(A.F7 c1 A.F3)"),
    ("the car of x", "(A.U1 c1)"),
    ("the car of the car of x + y", "(A.F1 (A.U1 (A.U1 c1)) c2)"),
    ("str (# neg x #)", "(A.A1 (A.F4 c1))"),
];

/// Terms that aren't read, with the refusal and its column.
const REFUSED: [(&str, &str, u64); 22] = [
    ("z", "unknown variable", 31),
    ("z + u", "unknown variable", 31),
    ("x + z", "unknown variable", 35),
    ("x fac fac", "no notation", 37),
    ("one one", "no notation", 31),
    ("x one", "no notation", 33),
    ("+ x", "no notation", 31),
    ("x + y neg", "no notation", 37),
    ("(x, y) + x", "no notation", 38),
    ("(x, z) + x", "unknown variable", 35),
    ("lb x, y rb", "no notation", 31),
    ("lb x rc", "unknown symbol", 31),
    ("lb z rc", "unknown variable", 34),
    ("{x}", "no notation", 31),
    ("[x]", "unknown symbol", 31),
    ("the cdr of x", "unknown symbol", 35),
    ("the cdr of z", "unknown variable", 42),
    ("F(x)", "unknown variable", 31),
    ("F(z)", "unknown variable", 33),
    ("it", "unknown variable", 31),
    ("$1", "unknown variable", 31),
    ("str (# x, y #)", "no notation", 31),
];

/// Types, the texts of their radices, and how many adjectives they have.
const TYPES: [(&str, &str, usize); 5] = [
    ("set", "HIDDEN.M2", 0),
    ("mod of x + y", "(A.M1 (A.F1 c1 c2))", 0),
    ("str", "A.G1", 0),
    ("odd set", "HIDDEN.M2", 1),
    ("odds", "HIDDEN.M2", 1),
];

const REFUSED_TYPES: [(&str, &str, u64); 9] = [
    ("mod", "no notation", 31),
    ("mod of z", "unknown variable", 38),
    ("odd mod of z", "unknown variable", 42),
    ("non odd set", "unregistered", 31),
    ("odd mod of x", "unregistered", 31),
    ("x near set", "unregistered", 31),
    ("z near set", "unknown variable", 31),
    ("near set", "no notation", 31),
    ("non far set", "unknown symbol", 35),
];

fn check_read(rt: &impl Abort, alloc: Global, env: &Environment, ctx: &Context, row: (&str, &str)) {
    let found = match term_of(rt, alloc, env, ctx, row.0) {
        Some(Ok(t)) => is_term(rt, alloc, t, row.1),
        _ => false,
    };
    assert!(rt; found, "{}", row.0);
}

fn check_refused(
    rt: &impl Abort,
    alloc: Global,
    env: &Environment,
    ctx: &Context,
    row: (&str, &str, u64),
) {
    let found = match term_of(rt, alloc, env, ctx, row.0) {
        Some(Err(r)) => {
            let (name, column) = refusal(r);
            name == row.1 && column == row.2
        }
        _ => false,
    };
    assert!(rt; found, "{}", row.0);
}

#[test]
fn terms_are_read(rt: HostRuntime) {
    let alloc = rt.alloc();
    let env = environment(&rt, alloc);
    let ctx = context(&rt, alloc);
    for row in &READ {
        check_read(&rt, alloc, &env, &ctx, *row);
    }
    forget(env);
    forget(ctx);
}

#[test]
fn terms_are_refused_at_the_first_fault(rt: HostRuntime) {
    let alloc = rt.alloc();
    let env = environment(&rt, alloc);
    let ctx = context(&rt, alloc);
    for row in &REFUSED {
        check_refused(&rt, alloc, &env, &ctx, *row);
    }
    forget(env);
    forget(ctx);
}

fn check_type(
    rt: &impl Abort,
    alloc: Global,
    env: &Environment,
    ctx: &mut Context,
    row: (&str, &str, usize),
) {
    let found = match type_of(rt, alloc, env, ctx, row.0) {
        Some(Ok(ty)) => {
            let count = ty.adjectives.items.len();
            forget(ty.adjectives);
            is_term(rt, alloc, Term::apply(ty.radix.sym, ty.radix.args), row.1) && count == row.2
        }
        _ => false,
    };
    assert!(rt; found, "{}", row.0);
}

fn check_refused_type(
    rt: &impl Abort,
    alloc: Global,
    env: &Environment,
    ctx: &mut Context,
    row: (&str, &str, u64),
) {
    let found = match type_of(rt, alloc, env, ctx, row.0) {
        Some(Err(r)) => {
            let (name, column) = refusal(r);
            name == row.1 && column == row.2
        }
        _ => false,
    };
    assert!(rt; found, "{}", row.0);
}

#[test]
fn types_are_read(rt: HostRuntime) {
    let alloc = rt.alloc();
    let env = environment(&rt, alloc);
    let mut ctx = context(&rt, alloc);
    for row in &TYPES {
        check_type(&rt, alloc, &env, &mut ctx, *row);
    }
    for row in &REFUSED_TYPES {
        check_refused_type(&rt, alloc, &env, &mut ctx, *row);
    }
    forget(env);
    forget(ctx);
}
