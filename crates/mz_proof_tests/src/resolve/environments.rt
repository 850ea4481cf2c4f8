//! Environments of small articles and contexts in them, from rows.
use mz_base::text::Text;
use mz_context::context::Context;
use mz_context::private::{PrivateFunctor, PrivatePredicate};
use mz_core::soft_types::SoftTypes;
use mz_environment::environment::Environment;
use mz_item_samples::environments::put_items;
use mz_item_samples::items::{ItemRow, MeaningRow};
use mz_item_samples::statements::statement;
use mz_item_samples::types::{OBJECT, SET, TypeRow, types};
use mz_logic::kind::Kind;
use mz_logic::sym::Sym;
use mz_logic::term::Term;
use mz_samples::forms::term;
use mz_samples::symbols::symbol;
use std::alloc::Global;
use std::process::Abort;

fn text_of(rt: &impl Abort, alloc: Global, word: &str) -> Text {
    Text::from_slice(alloc, word.as_bytes()).expect(rt, "memory")
}

/// The symbol of the word.
pub fn sym_of(rt: &impl Abort, word: &str) -> Sym {
    symbol(word).expect(rt, "a symbol")
}

/// The term of the text.
pub fn term_of(rt: &impl Abort, alloc: Global, text: &str) -> Term {
    term(alloc, text).expect(rt, "a term")
}

fn types_of(rt: &impl Abort, alloc: Global, ts: &[TypeRow]) -> SoftTypes {
    types(alloc, ts).expect(rt, "types")
}

const TWO: &[TypeRow] = &[OBJECT, OBJECT];

/// The notations of HIDDEN.
const HIDDEN: [ItemRow; 5] = [
    ItemRow::Notation((
        Kind::Mode,
        ("object", &[], &[], &[]),
        MeaningRow::Type(OBJECT),
    )),
    ItemRow::Notation((Kind::Mode, ("set", &[], &[], &[]), MeaningRow::Type(SET))),
    ItemRow::Notation((
        Kind::Predicate,
        ("=", TWO, &[0], &[1]),
        MeaningRow::Literal("(= b1 b0)"),
    )),
    ItemRow::Notation((
        Kind::Predicate,
        ("<>", TWO, &[0], &[1]),
        MeaningRow::Literal("(not (= b1 b0))"),
    )),
    ItemRow::Notation((
        Kind::Predicate,
        ("in", TWO, &[0], &[1]),
        MeaningRow::Literal("(HIDDEN.R1 b1 b0)"),
    )),
];

/// The environment with the notations of HIDDEN and the items of the rows.
pub fn environment(rt: &impl Abort, alloc: Global, rows: &[ItemRow]) -> Environment {
    let mut env = Environment::new(alloc);
    put_items(alloc, &mut env, 1, &HIDDEN).expect(rt, "items");
    put_items(alloc, &mut env, 1, rows).expect(rt, "items");
    env
}

/// Something private: its name, the types of its places, and its body, a term or a literal.
pub type Private = (&'static str, &'static [TypeRow], &'static str);

/// Puts a private functor with this body into force.
pub fn put_functor(
    rt: &impl Abort,
    alloc: Global,
    ctx: &mut Context,
    word: &str,
    places: &[TypeRow],
    body: Term,
) {
    let name = text_of(rt, alloc, word);
    let places = types_of(rt, alloc, places);
    let pushed = ctx.functors.push(PrivateFunctor { name, places, body });
    pushed.expect(rt, "memory");
}

/// Puts private functors into force; their bodies are terms.
pub fn put_functors(rt: &impl Abort, alloc: Global, ctx: &mut Context, rows: &[Private]) {
    for (word, places, body) in rows {
        let body = term_of(rt, alloc, body);
        put_functor(rt, alloc, ctx, word, places, body);
    }
}

/// Puts private predicates into force; their bodies are literals.
pub fn put_predicates(rt: &impl Abort, alloc: Global, ctx: &mut Context, rows: &[Private]) {
    for (word, places, body) in rows {
        let name = text_of(rt, alloc, word);
        let places = types_of(rt, alloc, places);
        let body = statement(alloc, body, &[], OBJECT).expect(rt, "a statement");
        let pushed = ctx.predicates.push(PrivatePredicate { name, places, body });
        pushed.expect(rt, "memory");
    }
}
