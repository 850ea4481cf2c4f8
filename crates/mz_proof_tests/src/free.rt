//! Sentences as texts, with their free reserved variables in the order of their first occurrence.
use mz_base::text::Text;
use mz_context::context::Context;
use mz_core::soft_type::SoftType;
use mz_free::free::free_variables;
use mz_item_samples::contexts::{VariableRow, put_constants, put_reserved, start};
use mz_item_samples::types::{OBJECT, SET, TypeRow, ty};
use mz_names::variable::Variables;
use mz_parser_samples::texts::SYMBOLS;
use mz_parser_samples::trees::expression_of;
use mz_pexpr::forms::{Expression, Form};
use std::alloc::Global;
use std::mem::forget;
use std::process::Abort;

/// A mode of the constant 1.
const OF_FIRST: TypeRow = ("(A.M1 c1)", "");

const CONSTANTS: [VariableRow; 1] = [("c", OBJECT)];

const RESERVED: [VariableRow; 6] = [
    ("x", OBJECT),
    ("y", OBJECT),
    ("z", OBJECT),
    ("c", OBJECT),
    ("w", OF_FIRST),
    ("y", SET),
];

/// The constant `c` is in force. Reserved are `x`, `y` and `z`, `c`, and `w` with a type that has the constant; `y` was
/// reserved with another type before.
fn context(rt: &impl Abort, alloc: Global) -> Context {
    let mut ctx = start(alloc, 1);
    put_constants(alloc, &mut ctx, &CONSTANTS).expect(rt, "constants");
    put_reserved(alloc, &mut ctx, &RESERVED).expect(rt, "reserved variables");
    ctx
}

/// The tree of the text.
fn parsed(rt: &impl Abort, alloc: Global, text: &str) -> Expression {
    expression_of(alloc, SYMBOLS, text.as_bytes(), Form::Formula).expect(rt, "a formula")
}

/// The free variables of the text, where constants count from the number on.
fn found(rt: &impl Abort, alloc: Global, ctx: &Context, least: u32, text: &str) -> Variables {
    match parsed(rt, alloc, text) {
        Expression::Formula(f) => {
            let vs = free_variables(alloc, least, ctx, &f.node).expect(rt, "memory");
            forget(f);
            vs
        }
        other => {
            forget(other);
            Variables::new(alloc)
        }
    }
}

fn with_name(rt: &impl Abort, front: Vec<u8>, name: &Text) -> Vec<u8> {
    let mut out = front;
    out.extend_from_slice(name.as_slice()).expect(rt, "memory");
    out.push(b' ').expect(rt, "memory");
    out
}

/// The names, a blank behind each.
fn names_text(rt: &impl Abort, alloc: Global, vs: Variables) -> Vec<u8> {
    let mut out = Vec::new(alloc);
    for v in &vs.items {
        out = with_name(rt, out, &v.name);
    }
    forget(vs);
    out
}

/// The least number of a constant that may be used, a formula, and its free variables.
type Row = (u32, &'static str, &'static str);

fn check(rt: &impl Abort, alloc: Global, ctx: &Context, row: Row) {
    let (least, text, wanted) = row;
    let vs = found(rt, alloc, ctx, least, text);
    let names = names_text(rt, alloc, vs);
    let same = names.as_slice() == wanted.as_bytes();
    forget(names);
    assert!(rt; same, "{text}");
}

const ROWS: [Row; 20] = [
    (0, "x = y;", "x y "),
    (0, "y = x;", "y x "),
    (0, "z = z & z = x;", "z x "),
    (0, "thesis;", ""),
    // a constant comes first, and an unknown name is none
    (0, "c = x;", "x "),
    (0, "v = x;", "x "),
    // bound within, and free beside it
    (0, "for x holds x = y;", "y "),
    (0, "ex x st x = y;", "y "),
    (0, "(for x holds x = x) & x = z;", "x z "),
    (0, "x = y & (for x holds x = z);", "x y z "),
    (0, "for x st x = y holds z = x;", "y z "),
    // types are read before what they bind
    (0, "for x being mod of y holds x = z;", "y z "),
    (0, "for x being mod of x holds x = x;", "x "),
    (
        0,
        "for y being mod of x, x being mod of y holds x = z;",
        "x z ",
    ),
    (0, "for x,y being mod of z holds x = y;", "z "),
    // in terms, predicates and adjectives
    (0, "(z + y) * x = z;", "z y x "),
    (0, "z less y or x is odd;", "z y x "),
    (0, "x is odd mod of y;", "x y "),
    // a type with a constant that may not be used
    (1, "w = x;", "w x "),
    (2, "w = x;", "x "),
];

#[test]
fn free_variables_in_order(rt: HostRuntime) {
    let ctx = context(&rt, rt.alloc());
    for row in ROWS {
        check(&rt, rt.alloc(), &ctx, row);
    }
    forget(ctx);
}

/// Whether the type is that of the only variable.
fn is_typed(vs: &Variables, ty: &SoftType) -> bool {
    match vs.items.as_slice() {
        [v] => v.ty.equals(ty),
        _ => false,
    }
}

fn check_type(rt: &impl Abort, alloc: Global, ctx: &Context, text: &str, t: TypeRow) {
    let vs = found(rt, alloc, ctx, 0, text);
    let ty = ty(alloc, t).expect(rt, "a type");
    let same = is_typed(&vs, &ty);
    forget(vs);
    forget(ty);
    assert!(rt; same, "{text}");
}

/// A variable has the type with which it was reserved last.
#[test]
fn the_latest_type(rt: HostRuntime) {
    let ctx = context(&rt, rt.alloc());
    check_type(&rt, rt.alloc(), &ctx, "x = x;", OBJECT);
    check_type(&rt, rt.alloc(), &ctx, "y = y;", SET);
    check_type(&rt, rt.alloc(), &ctx, "w = w;", OF_FIRST);
    forget(ctx);
}
