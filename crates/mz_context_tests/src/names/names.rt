//! What names stand for, worked out by hand.
use crate::names::samples::{context, define, stands_for, two_variables};
use mz_core::hidden::object_type;
use mz_core::statement::Statement;
use mz_item_samples::contexts::{VariableRow, put_reserved};
use mz_item_samples::statements::statement;
use mz_item_samples::types::{OBJECT, SET, TypeRow};
use mz_logic::term::Term;
use mz_names::names::{
    argument, functor_letter, is_only_reserved, labelled_as, private_functor, reserved_type,
};
use mz_names::quantifiers::{for_all, put_variables, there_are};
use std::alloc::Global;
use std::mem::forget;
use std::process::Abort;

const A: VariableRow = ("a", OBJECT);

const X: VariableRow = ("x", OBJECT);

const Y: VariableRow = ("y", OBJECT);

const X_SET: VariableRow = ("x", SET);

const X_ELEMENT: VariableRow = ("x", ("(A.M1 c1)", ""));

#[test]
fn the_latest_constant_in_force_counts(rt: HostRuntime) {
    let alloc = rt.alloc();
    let mut ctx = context(&rt, alloc, &[X, Y, X], &[]);
    assert!(rt; stands_for(&rt, 0, &ctx, b"x", 3));
    assert!(rt; stands_for(&rt, 0, &ctx, b"y", 2));
    assert!(rt; stands_for(&rt, 0, &ctx, b"z", 0));
    assert!(rt; stands_for(&rt, 0, &ctx, b"", 0));
    if ctx.constants.items.len() == 3 {
        ctx.release(3);
    }
    assert!(rt; stands_for(&rt, 0, &ctx, b"x", 1));
    forget(ctx);
}

#[test]
fn a_constant_below_the_least_number_is_found_and_not_used(rt: HostRuntime) {
    let alloc = rt.alloc();
    let ctx = context(&rt, alloc, &[X, Y], &[X_SET]);
    assert!(rt; stands_for(&rt, 2, &ctx, b"x", 0));
    assert!(rt; stands_for(&rt, 2, &ctx, b"y", 2));
    assert!(rt; !is_only_reserved(2, &ctx, b"x"));
    forget(ctx);
}

#[test]
fn the_latest_reserved_type_counts(rt: HostRuntime) {
    let alloc = rt.alloc();
    let mut ctx = context(&rt, alloc, &[A], &[X_SET, X]);
    assert!(rt; reserved_type(0, &ctx, b"x").is_some_and(|ty| ty.equals(&object_type(alloc))));
    assert!(rt; is_only_reserved(0, &ctx, b"x"));
    assert!(rt; reserved_type(0, &ctx, b"a").is_none());
    put_reserved(alloc, &mut ctx, &[X_ELEMENT]).expect(&rt, "a reserved variable");
    assert!(rt; reserved_type(0, &ctx, b"x").is_some());
    assert!(rt; reserved_type(2, &ctx, b"x").is_none());
    assert!(rt; !is_only_reserved(2, &ctx, b"x"));
    forget(ctx);
}

#[test]
fn other_names_are_found(rt: HostRuntime) {
    let alloc = rt.alloc();
    let mut ctx = context(&rt, alloc, &[], &[]);
    define(&rt, alloc, &mut ctx, b"F", Term::constant(1));
    define(&rt, alloc, &mut ctx, b"F", Term::constant(2));
    assert!(rt; private_functor(&ctx, b"F").is_some_and(|f| f.body.is_const(2)));
    assert!(rt; private_functor(&ctx, b"G").is_none());
    assert!(rt; functor_letter(&ctx, b"F").is_none());
    ctx.arguments.push(Term::constant(7)).expect(&rt, "memory");
    assert!(rt; argument(&ctx, 0).is_none());
    assert!(rt; argument(&ctx, 1).is_some_and(|t| t.is_const(7)));
    assert!(rt; argument(&ctx, 2).is_none());
    assert!(rt; labelled_as(&ctx, b"A").is_none());
    forget(ctx);
}

#[test]
fn variables_are_put_into_force(rt: HostRuntime) {
    let alloc = rt.alloc();
    let mut ctx = context(&rt, alloc, &[A], &[]);
    let vs = two_variables(&rt, alloc);
    put_variables(alloc, &mut ctx, vs.items.as_slice()).expect(&rt, "memory");
    assert!(rt; stands_for(&rt, 0, &ctx, b"y", 3));
    forget(vs);
    forget(ctx);
}

const TYPES: [TypeRow; 2] = [SET, ("(A.M1 b0)", "")];

/// For all x being set and y being `Elm of x` x = y.
fn closed(rt: &impl Abort, alloc: Global) -> Statement {
    statement(alloc, "(all (all (= b1 b0)))", &TYPES, OBJECT).expect(rt, "a statement")
}

fn opened() -> Statement {
    Statement::equation(Term::constant(2), Term::constant(3))
}

#[test]
fn variables_become_indices(rt: HostRuntime) {
    let alloc = rt.alloc();
    let vs = two_variables(&rt, alloc);
    let all = for_all(alloc, 2, vs.items.as_slice(), opened()).expect(&rt, "memory");
    assert!(rt; all.equals(&closed(&rt, alloc)));
    let denied = Statement::not(alloc, opened()).expect(&rt, "memory");
    let some = there_are(alloc, 2, &vs, denied).expect(&rt, "memory");
    let expected = Statement::not(alloc, closed(&rt, alloc)).expect(&rt, "memory");
    assert!(rt; some.equals(&expected));
    forget(vs);
    forget(all);
    forget(some);
    forget(expected);
}
