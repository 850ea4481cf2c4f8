//! The environment and the context of the small proofs, and the tokens of their texts. What a test is done with is forgotten,
//! not dropped.
use mz_axioms::built_in::built_in;
use mz_base::name::Name;
use mz_base::token::Tokens;
use mz_context::context::Context;
use mz_core::outcome::Export;
use mz_core::statement::Statement;
use mz_environment::environment::Environment;
use mz_environment::numbering::Numbering;
use mz_item_samples::contexts::{VariableRow, put_constants, put_reserved, start};
use mz_item_samples::environments::put_items;
use mz_item_samples::items::{ItemRow, MeaningRow};
use mz_item_samples::statements::statement;
use mz_item_samples::types::{OBJECT, SET};
use mz_logic::kind::Kind;
use mz_parser_samples::texts::tokens_below;
use std::alloc::Global;
use std::mem::forget;
use std::process::Abort;

const SYMBOLS: &[u8] =
    b"Rp\nRq\nRr\nRc=\nRu1\nRu2\nRu3\nRu4\nRu5\nRu6\nRu7\nRu8\nRu9\nRhas\nMElm\nVempty\nOsin\n";

fn name(rt: &impl Abort, word: &str) -> Name {
    Name::read(word.as_bytes()).expect(rt, "a name")
}

/// The tokens of the text behind `begin`, from the sixth on. It stands on the second line, from column 1 on.
pub fn tokens_of(rt: &impl Abort, alloc: Global, text: &str) -> Tokens {
    tokens_below(alloc, SYMBOLS, text.as_bytes()).expect(rt, "tokens")
}

/// The statement of a text, whose quantifiers are of objects.
pub fn statement_of(rt: &impl Abort, alloc: Global, text: &str) -> Statement {
    statement(alloc, text, &[], OBJECT).expect(rt, "a statement")
}

/// The singleton of b1 is b0.
const SINGLETON: &str =
    "(all (and (implies (HIDDEN.R1 b0 b1) (= b0 b2)) (implies (= b0 b2) (HIDDEN.R1 b0 b1))))";

/// Each element of b1 is one of b0.
const PART: &str = "(all (implies (HIDDEN.R1 b0 b2) (HIDDEN.R1 b0 b1)))";

/// The predicates `p`, `q` and `r` without arguments, which unfold to nothing, nor does `X has a` for an element of X;
/// `X c= Y`; `u1` to `u9`, each of which means the next one, and the last one `p & q`; `Elm of X`, `empty`, `sin a`; a set
/// that isn't empty exists.
const ITEMS: [ItemRow; 18] = [
    ItemRow::Primitive((
        Kind::Predicate,
        ("p", &[], &[], &[]),
        MeaningRow::Literal("A.R1"),
    )),
    ItemRow::Primitive((
        Kind::Predicate,
        ("q", &[], &[], &[]),
        MeaningRow::Literal("A.R2"),
    )),
    ItemRow::Primitive((
        Kind::Predicate,
        ("r", &[], &[], &[]),
        MeaningRow::Literal("A.R3"),
    )),
    ItemRow::Predicate("A.R4", ("c=", &[SET, SET], &[0], &[1]), PART),
    ItemRow::Predicate("A.R5", ("u1", &[], &[], &[]), "A.R6"),
    ItemRow::Predicate("A.R6", ("u2", &[], &[], &[]), "A.R7"),
    ItemRow::Predicate("A.R7", ("u3", &[], &[], &[]), "A.R8"),
    ItemRow::Predicate("A.R8", ("u4", &[], &[], &[]), "A.R9"),
    ItemRow::Predicate("A.R9", ("u5", &[], &[], &[]), "A.R10"),
    ItemRow::Predicate("A.R10", ("u6", &[], &[], &[]), "A.R11"),
    ItemRow::Predicate("A.R11", ("u7", &[], &[], &[]), "A.R12"),
    ItemRow::Predicate("A.R12", ("u8", &[], &[], &[]), "A.R13"),
    ItemRow::Predicate("A.R13", ("u9", &[], &[], &[]), "(and A.R1 A.R2)"),
    ItemRow::Primitive((
        Kind::Predicate,
        ("has", &[SET, ("(A.M1 b0)", "")], &[0], &[1]),
        MeaningRow::Literal("(A.R14 b1 b0)"),
    )),
    ItemRow::Mode(
        "A.M1",
        ("Elm", &[SET], &[], &[0]),
        OBJECT,
        "(HIDDEN.R1 b0 b1)",
    ),
    ItemRow::Primitive((
        Kind::Attribute,
        ("empty", &[SET], &[], &[0]),
        MeaningRow::Literal("(A.V1 b0)"),
    )),
    ItemRow::Functor("A.O1", ("sin", &[OBJECT], &[], &[0]), SET, SINGLETON),
    ItemRow::Existential(&[], "(not A.V1)", SET),
];

fn with_export(rt: &impl Abort, alloc: Global, env: &mut Environment, export: &Export) {
    let mut at = Numbering::of_article(export.name.number());
    for item in &export.items.items {
        env.add(alloc, &mut at, item).expect(rt, "memory");
    }
}

/// HIDDEN and TARSKI_0.
fn with_built_in(rt: &impl Abort, alloc: Global, env: &mut Environment) {
    let exports = built_in(alloc).expect(rt, "memory");
    match exports.as_slice() {
        [hidden, tarski, ..] => {
            with_export(rt, alloc, env, hidden);
            with_export(rt, alloc, env, tarski);
        }
        _ => rt.abort(),
    }
    forget(exports);
}

/// What HIDDEN and TARSKI_0 state, and the items of the article `A`.
pub fn environment(rt: &impl Abort, alloc: Global) -> Environment {
    let mut env = Environment::new(alloc);
    with_built_in(rt, alloc, &mut env);
    put_items(alloc, &mut env, name(rt, "A").number(), &ITEMS).expect(rt, "items");
    env
}

const CONSTANTS: [VariableRow; 3] = [("c", OBJECT), ("d", SET), ("e", ("(A.M1 c2)", ""))];

const RESERVED: [VariableRow; 5] = [
    ("x", OBJECT),
    ("y", OBJECT),
    ("X", SET),
    ("Y", SET),
    ("N", ("HIDDEN.M2", "(not A.V1)")),
];

/// The constants `c`, an object, `d`, a set, and `e`, an element of `d`, are in force; reserved are `x` and `y` for objects,
/// `X` and `Y` for sets, `N` for a set that isn't empty. No `thesis` is known.
pub fn context(rt: &impl Abort, alloc: Global) -> Context {
    let mut ctx = start(alloc, name(rt, "A").number());
    put_constants(alloc, &mut ctx, &CONSTANTS).expect(rt, "constants");
    put_reserved(alloc, &mut ctx, &RESERVED).expect(rt, "reserved variables");
    ctx
}
