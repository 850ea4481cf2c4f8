//! A small article, at a place of which the tables' texts stand.
use crate::resolve::answers::Symbols;
use crate::resolve::environments::{Private, put_functors, put_predicates, term_of};
use mz_context::context::Context;
use mz_core::statement::Statement;
use mz_item_samples::contexts::{
    LetterRow, VariableRow, put_constants, put_letters, put_reserved, start,
};
use mz_item_samples::items::{ItemRow, MeaningRow, PatternRow};
use mz_item_samples::types::{OBJECT, SET, TypeRow};
use mz_logic::kind::Kind;
use std::alloc::Global;
use std::mem::{forget, replace};
use std::process::Abort;

/// `*` binds more closely than the other functors. `@`, `lb`, `sep` and `far` have no notation.
pub const SYMBOLS: Symbols =
    b"Klb\nLrb\nMElm\nO+\nO* 66\nO!\nO^\nO@\nR##\nRsep\nVempty\nVfull\nVbig\nVnear\nVfar\n";

/// An element of the locus before it.
const ELEMENT: TypeRow = ("(A.M1 b0)", "");

const SUM_AGAIN: PatternRow = ("+", &[SET, ELEMENT], &[0], &[1]);

/// The functors `+`, `*`, `!` and `^`, the mode `Elm of` a set; a set and an element of it make an element of it by `+`; the
/// attributes, where `near` is one of elements, whose set is hidden; the predicate `##` of a set and an element of it; `full`
/// stands for `non empty`; there is a set that isn't empty.
pub const ITEMS: [ItemRow; 12] = [
    ItemRow::Functor("A.O1", ("+", &[OBJECT, OBJECT], &[0], &[1]), SET, "true"),
    ItemRow::Functor("A.O2", ("*", &[SET, SET], &[0], &[1]), SET, "true"),
    ItemRow::Functor("A.O3", ("!", &[OBJECT], &[0], &[]), SET, "true"),
    ItemRow::Functor("A.O4", ("^", &[SET, ELEMENT], &[0], &[1]), SET, "true"),
    ItemRow::Mode("A.M1", ("Elm", &[SET], &[], &[0]), OBJECT, "true"),
    ItemRow::FunctorAgain("(A.O1 b1 b0)", SUM_AGAIN, SET, ("(A.M1 b1)", "")),
    ItemRow::Attribute("A.V1", ("empty", &[SET], &[], &[0]), "true"),
    ItemRow::Attribute("A.V2", ("big", &[SET, SET], &[0], &[1]), "true"),
    ItemRow::Attribute("A.V3", ("near", &[SET, ELEMENT], &[], &[1]), "true"),
    ItemRow::Predicate("A.R1", ("##", &[SET, ELEMENT], &[0], &[1]), "true"),
    ItemRow::Notation((
        Kind::Attribute,
        ("full", &[SET], &[], &[0]),
        MeaningRow::Literal("(not (A.V1 b0))"),
    )),
    ItemRow::Existential(&[], "(not A.V1)", SET),
];

/// An element of the constant 2.
const OF_D: TypeRow = ("(A.M1 c2)", "");

const CONSTANTS: [VariableRow; 3] = [("c", OBJECT), ("d", SET), ("e", OF_D)];

const RESERVED: [VariableRow; 4] = [("x", OBJECT), ("y", OBJECT), ("X", SET), ("w", OF_D)];

/// Of the two `F` the later one counts.
const FUNCTORS: [Private; 4] = [
    ("F", &[SET], "c1"),
    ("F", &[OBJECT], "(A.O1 b0 b0)"),
    ("G", &[SET, OF_D], "(A.O1 b1 c1)"),
    ("J", &[OF_D], "b0"),
];

const PREDICATES: [Private; 2] = [("P", &[OF_D], "(A.V1 b0)"), ("Q", &[], "(not (A.V1 c2))")];

const LETTERS: [LetterRow; 2] = [
    ("H", "A.F1", &[OBJECT, OBJECT], Some(SET)),
    ("R", "A.P1", &[OBJECT], None),
];

/// The constants `c`, an object, `d`, a set, and `e`, an element of `d`, are in force. `it` is `c`, `$1` is `d`, and `thesis`
/// that `c` is `d`.
pub fn context(rt: &impl Abort, alloc: Global) -> Context {
    let mut ctx = start(alloc, 1);
    put_constants(alloc, &mut ctx, &CONSTANTS).expect(rt, "constants");
    put_reserved(alloc, &mut ctx, &RESERVED).expect(rt, "reserved variables");
    put_functors(rt, alloc, &mut ctx, &FUNCTORS);
    put_predicates(rt, alloc, &mut ctx, &PREDICATES);
    put_letters(alloc, &mut ctx, &LETTERS).expect(rt, "letters");
    put_standing(rt, alloc, &mut ctx);
    ctx
}

/// What `it`, `$1` and `thesis` stand for.
fn put_standing(rt: &impl Abort, alloc: Global, ctx: &mut Context) {
    let it = term_of(rt, alloc, "c1");
    forget(replace(&mut ctx.it, Some(it)));
    let argument = term_of(rt, alloc, "c2");
    ctx.arguments.push(argument).expect(rt, "memory");
    let left = term_of(rt, alloc, "c1");
    let thesis = Statement::equation(left, term_of(rt, alloc, "c2"));
    forget(replace(&mut ctx.thesis, Some(thesis)));
}
