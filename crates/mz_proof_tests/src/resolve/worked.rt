//! Small articles that were worked out by hand: what is covered by a registration, functors of two priorities, a predicate
//! that is defined twice, and elements of structures.
use crate::resolve::answers::{Call, Row, Symbols, check};
use crate::resolve::environments::{environment, term_of};
use mz_context::context::Context;
use mz_environment::environment::Environment;
use mz_item_samples::contexts::{put_constants, start};
use mz_item_samples::items::{ItemRow, MeaningRow, NotationRow, PatternRow};
use mz_item_samples::types::{OBJECT, SET, TypeRow};
use mz_logic::kind::Kind;
use std::alloc::Global;
use std::mem::{forget, replace};
use std::process::Abort;

const EMPTY: ItemRow = ItemRow::Attribute("A.V1", ("empty", &[SET], &[], &[0]), "true");

/// There is a set that isn't empty.
const NON_EMPTY: ItemRow = ItemRow::Existential(&[], "(not A.V1)", SET);

const JOIN: ItemRow = ItemRow::Functor("A.O1", ("\\/", &[SET, SET], &[0], &[1]), SET, "true");

const MEET: ItemRow = ItemRow::Functor("A.O2", ("/\\", &[SET, SET], &[0], &[1]), SET, "true");

const RELATION: PatternRow = ("##", &[OBJECT, OBJECT], &[0], &[1]);

const ONE: ItemRow = ItemRow::Predicate("P8.R1", RELATION, "true");

const OTHER: ItemRow = ItemRow::Predicate("Q8.R1", RELATION, "true");

const JOINED: &str = "for X,Y,Z being set holds X \\/ Y /\\ Z = Z";

const RELATED: &str = "for x being object holds not x ## x";

/// The symbols and items of an article, and a text behind them.
type Worked = (Symbols, &'static [ItemRow], Call, Row);

const WORKED: [Worked; 8] = [
    (
        b"Vempty\n",
        &[EMPTY],
        Call::Type,
        (0, "non empty set", "U31", 0),
    ),
    (
        b"Vempty\n",
        &[EMPTY, NON_EMPTY],
        Call::Type,
        (0, "non empty set", "HIDDEN.M2 (not A.V1)", 2),
    ),
    (
        b"Vempty\n",
        &[EMPTY],
        Call::Formula,
        (0, "for X being non empty set holds X = X", "U43", 0),
    ),
    (
        b"Vempty\n",
        &[EMPTY, NON_EMPTY],
        Call::Formula,
        (
            0,
            "for X being non empty set holds X = X",
            "(all (not (and (not (A.V1 b0)) (not (= b0 b0)))))",
            6,
        ),
    ),
    // the head of a run is the last of its symbols of least priority
    (
        b"O\\/\nO/\\\n",
        &[JOIN, MEET],
        Call::Formula,
        (
            0,
            JOINED,
            "(all (all (all (= (A.O2 (A.O1 b2 b1) b0) b0))))",
            13,
        ),
    ),
    (
        b"O\\/\nO/\\ 66\n",
        &[JOIN, MEET],
        Call::Formula,
        (
            0,
            JOINED,
            "(all (all (all (= (A.O1 b2 (A.O2 b1 b0)) b0))))",
            13,
        ),
    ),
    // the latest notation that takes the arguments
    (
        b"R##\n",
        &[ONE, OTHER],
        Call::Formula,
        (0, RELATED, "(all (not (Q8.R1 b0 b0)))", 6),
    ),
    (
        b"R##\n",
        &[OTHER, ONE],
        Call::Formula,
        (0, RELATED, "(all (not (P8.R1 b0 b0)))", 6),
    ),
];

/// The text is read so where no constant is in force.
fn check_alone(rt: &impl Abort, alloc: Global, worked: Worked) {
    let (symbols, items, call, row) = worked;
    let env = environment(rt, alloc, items);
    let mut ctx = start(alloc, 1);
    check(rt, alloc, symbols, &env, &mut ctx, call, row);
    forget(env);
    forget(ctx);
}

#[test]
fn worked(rt: HostRuntime) {
    for worked in &WORKED {
        check_alone(&rt, rt.alloc(), *worked);
    }
}

const MAG: TypeRow = ("A.G1", "");

/// Two elements of a structure that isn't written.
const PRODUCT: PatternRow = (
    "**",
    &[MAG, ("(A.M1 b0)", ""), ("(A.M1 b1)", "")],
    &[1],
    &[2],
);

/// `cdr` has no notation.
const SYMBOLS: Symbols = b"GMag\nUcar\nUcdr\nMElm\nMIn\nO**\n";

/// The notations of the structure and of its selector.
const NOTATIONS: &[NotationRow] = &[
    (
        Kind::Structure,
        ("Mag", &[], &[], &[]),
        MeaningRow::Type(MAG),
    ),
    (
        Kind::Selector,
        ("car", &[MAG], &[], &[0]),
        MeaningRow::Term("(A.U1 b0)"),
    ),
];

/// The structure `Mag` with the selector `car`, whose field is a set, the modes `Elm of` a structure and `In of` a set, and
/// `**` of two elements of a structure.
const ITEMS: [ItemRow; 4] = [
    ItemRow::Structure(("A.G1", "A.V1", "A.A1"), &[], &[("A.U1", SET)], NOTATIONS),
    ItemRow::Mode("A.M1", ("Elm", &[MAG], &[], &[0]), OBJECT, "true"),
    ItemRow::Mode("A.M2", ("In", &[SET], &[], &[0]), OBJECT, "true"),
    ItemRow::Functor("A.O1", PRODUCT, SET, "true"),
];

/// Where no structure is known, and `s` is one.
const OUTSIDE: [(Call, Row); 5] = [
    (
        Call::Formula,
        (
            0,
            "for S being Mag for x,y being Elm of S holds x ** y = x ** y",
            "(all (not (and (A.G1 b0) (not (all (not (and (A.M1 b1 b0) (not (all (not (and (A.M1 b2 b0) (not (= (A.O1 b2 b1 b0) (A.O1 b2 b1 b0))))))))))))))",
            17,
        ),
    ),
    (
        Call::Formula,
        (
            0,
            "for S,T being Mag for x being Elm of S for y being Elm of T holds x ** y = x ** y",
            "A99",
            0,
        ),
    ),
    (Call::FieldType, (0, "In of the car", "V37", 0)),
    (Call::FieldType, (0, "In of the cdr", "V37", 0)),
    (
        Call::FieldType,
        (0, "In of the car of s", "(A.M2 (A.U1 c1))", 3),
    ),
];

/// In a field of `Mag`, of which `s` is one.
const INSIDE: [(Call, Row); 6] = [
    (Call::FieldType, (0, "In of the car", "(A.M2 (A.U1 c1))", 3)),
    (
        Call::FieldType,
        (0, "In of the car of s", "(A.M2 (A.U1 c1))", 3),
    ),
    (Call::FieldType, (0, "Elm of s", "(A.M1 c1)", 2)),
    (Call::FieldType, (0, "Elm of the car", "A31", 0)),
    (Call::FieldType, (0, "In of the cdr", "S41", 0)),
    (Call::FieldType, (0, "In of the car of z", "V48", 0)),
];

fn check_rows(
    rt: &impl Abort,
    alloc: Global,
    env: &Environment,
    ctx: &mut Context,
    rows: &[(Call, Row)],
) {
    for (call, row) in rows {
        check(rt, alloc, SYMBOLS, env, ctx, *call, *row);
    }
}

#[test]
fn structures(rt: HostRuntime) {
    let env = environment(&rt, rt.alloc(), &ITEMS);
    let mut ctx = start(rt.alloc(), 1);
    put_constants(rt.alloc(), &mut ctx, &[("s", MAG)]).expect(&rt, "constants");
    check_rows(&rt, rt.alloc(), &env, &mut ctx, &OUTSIDE);
    let subject = term_of(&rt, rt.alloc(), "c1");
    forget(replace(&mut ctx.subject, Some(subject)));
    check_rows(&rt, rt.alloc(), &env, &mut ctx, &INSIDE);
    forget(env);
    forget(ctx);
}
