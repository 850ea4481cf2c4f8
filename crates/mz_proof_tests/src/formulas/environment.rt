//! A small environment and a small context. What a test is done with is forgotten, not dropped.
use mz_axioms::built_in::built_in;
use mz_base::name::Name;
use mz_context::context::Context;
use mz_core::statement::Statement;
use mz_env::accommodate::accommodate;
use mz_environment::environment::Environment;
use mz_item_samples::contexts::{VariableRow, put_constants, put_reserved, start};
use mz_item_samples::environments::put_items;
use mz_item_samples::items::ItemRow;
use mz_item_samples::types::{OBJECT, SET};
use mz_lex::head::head;
use std::alloc::Global;
use std::mem::forget;
use std::process::Abort;

/// Two functors, a mode, two attributes and a predicate.
pub const SYMBOLS: &[u8] = b"O+\nO*\nMElm\nVempty\nVbig\nR##\n";

/// `+` of two objects, which is a set; the mode `Elm of` a set; the attributes `empty` of sets and `big` of a set before it
/// and a set; the predicate `##` of a set and an element of it. There is a set that isn't empty.
const ITEMS: [ItemRow; 6] = [
    ItemRow::Functor("A.O1", ("+", &[OBJECT, OBJECT], &[0], &[1]), SET, "true"),
    ItemRow::Mode("A.M1", ("Elm", &[SET], &[], &[0]), OBJECT, "true"),
    ItemRow::Attribute("A.V1", ("empty", &[SET], &[], &[0]), "true"),
    ItemRow::Attribute("A.V2", ("big", &[SET, SET], &[0], &[1]), "true"),
    ItemRow::Predicate(
        "A.R1",
        ("##", &[SET, ("(A.M1 b0)", "")], &[0], &[1]),
        "true",
    ),
    ItemRow::Existential(&[], "(not A.V1)", SET),
];

fn number_of_a(rt: &impl Abort) -> u64 {
    Name::read(b"A").expect(rt, "a name").number()
}

/// HIDDEN's items, and these.
pub fn environment(rt: &impl Abort, alloc: Global) -> Environment {
    let exports = built_in(alloc).expect(rt, "memory");
    let none = head(alloc, b"environ begin").expect(rt, "a head");
    let mut env = accommodate(alloc, &none, &exports).expect(rt, "an environment");
    put_items(alloc, &mut env, number_of_a(rt), &ITEMS).expect(rt, "items");
    forget(exports);
    forget(none);
    env
}

const CONSTANTS: [VariableRow; 2] = [("c", OBJECT), ("d", SET)];

const RESERVED: [VariableRow; 4] = [("x", OBJECT), ("y", OBJECT), ("X", SET), ("Y", SET)];

/// The constants `c` and `d`, an object and a set, are in force; reserved are `x` and `y` for objects, `X` and `Y` for sets.
/// `thesis` is truth.
pub fn context(rt: &impl Abort, alloc: Global) -> Context {
    let mut ctx = start(alloc, number_of_a(rt));
    put_constants(alloc, &mut ctx, &CONSTANTS).expect(rt, "constants");
    put_reserved(alloc, &mut ctx, &RESERVED).expect(rt, "reserved variables");
    ctx.thesis = Some(Statement::truth());
    ctx
}
