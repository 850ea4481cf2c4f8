//! A small environment, and a context of it.
use mz_context::context::Context;
use mz_core::hidden::set_type;
use mz_core::registration::ExistentialRegistration;
use mz_core::soft_types::SoftTypes;
use mz_environment::environment::Environment;
use mz_item_samples::contexts::{VariableRow, put_constants, start};
use mz_item_samples::items::{MeaningRow, NotationRow, notation};
use mz_item_samples::types::{OBJECT, SET, TypeRow, adjectives};
use mz_logic::kind::Kind;
use std::alloc::Global;
use std::process::Abort;

const ONE: &[TypeRow] = &[OBJECT];

const TWO: &[TypeRow] = &[OBJECT, OBJECT];

const NOTATIONS: [NotationRow; 15] = [
    (
        Kind::Functor,
        ("+", TWO, &[0], &[1]),
        MeaningRow::Term("(A.F1 b1 b0)"),
    ),
    (
        Kind::Functor,
        ("*", TWO, &[0], &[1]),
        MeaningRow::Term("(A.F2 b1 b0)"),
    ),
    (
        Kind::Functor,
        ("one", &[], &[], &[]),
        MeaningRow::Term("A.F3"),
    ),
    (
        Kind::Functor,
        ("neg", ONE, &[], &[0]),
        MeaningRow::Term("(A.F4 b0)"),
    ),
    (
        Kind::Functor,
        ("fac", ONE, &[0], &[]),
        MeaningRow::Term("(A.F5 b0)"),
    ),
    (
        Kind::Functor,
        ("lb rb", ONE, &[], &[0]),
        MeaningRow::Term("(A.F6 b0)"),
    ),
    (
        Kind::Functor,
        ("{ }", TWO, &[], &[0, 1]),
        MeaningRow::Term("(A.F7 b1 b0)"),
    ),
    (
        Kind::Selector,
        ("car", ONE, &[], &[0]),
        MeaningRow::Term("(A.U1 b0)"),
    ),
    (
        Kind::Aggregate,
        ("str", ONE, &[], &[0]),
        MeaningRow::Term("(A.A1 b0)"),
    ),
    (
        Kind::Attribute,
        ("odd", ONE, &[], &[0]),
        MeaningRow::Literal("(A.V1 b0)"),
    ),
    (
        Kind::Attribute,
        ("near", TWO, &[0], &[1]),
        MeaningRow::Literal("(A.V2 b1 b0)"),
    ),
    (Kind::Mode, ("set", &[], &[], &[]), MeaningRow::Type(SET)),
    (
        Kind::Mode,
        ("mod", ONE, &[], &[0]),
        MeaningRow::Type(("(A.M1 b0)", "")),
    ),
    (
        Kind::Mode,
        ("odds", &[], &[], &[]),
        MeaningRow::Type(("HIDDEN.M2", "A.V1")),
    ),
    (
        Kind::Structure,
        ("str", &[], &[], &[]),
        MeaningRow::Type(("A.G1", "")),
    ),
];

/// The notations, and a registration of `odd set`.
pub fn environment(rt: &impl Abort, alloc: Global) -> Environment {
    let mut env = Environment::new(alloc);
    for n in &NOTATIONS {
        let n = notation(alloc, *n).expect(rt, "a notation");
        env.notations.push(n).expect(rt, "memory");
    }
    env.registrations
        .push(ExistentialRegistration {
            loci: SoftTypes::new(alloc),
            adjectives: adjectives(alloc, "A.V1").expect(rt, "adjectives"),
            ty: set_type(alloc),
        })
        .expect(rt, "memory");
    env
}

const CONSTANTS: [VariableRow; 2] = [("x", OBJECT), ("y", OBJECT)];

/// The constants `x` and `y`, of `object`, are in force.
pub fn context(rt: &impl Abort, alloc: Global) -> Context {
    let mut ctx = start(alloc, 1);
    put_constants(alloc, &mut ctx, &CONSTANTS).expect(rt, "constants");
    ctx
}
