//! Texts, parsed and read.
use mz_context::context::Context;
use mz_core::soft_type::SoftType;
use mz_environment::environment::Environment;
use mz_logic::term::Term;
use mz_logic::texts::term_text;
use mz_names::refusal::Refusal;
use mz_parser_samples::trees::expression_of;
use mz_pexpr::forms::{Expression, Form};
use mz_terms::terms::read_term;
use mz_terms::types::read_type;
use std::alloc::Global;
use std::mem::forget;
use std::process::Abort;

/// `*` binds more closely than `+`.
const SYMBOLS: &[u8] =
    b"Gstr\nKlb\nLrb\nLrc\nMmod\nModds\nO+\nO* 66\nOone\nOneg\nOfac\nUcar\nUcdr\nVodd\nVnear\nVfar\n";

/// The tree of the text, whose first byte stands in column 31.
fn parsed(rt: &impl Abort, alloc: Global, text: &str, form: Form) -> Expression {
    expression_of(alloc, SYMBOLS, text.as_bytes(), form).expect(rt, "a tree")
}

/// What the text is read to as a term.
pub fn term_of(
    rt: &impl Abort,
    alloc: Global,
    env: &Environment,
    ctx: &Context,
    text: &str,
) -> Option<Result<Term, Refusal>> {
    match parsed(rt, alloc, text, Form::Term) {
        Expression::Term(tree) => {
            let o = read_term(alloc, env, ctx, 0, &tree.node).expect(rt, "memory");
            forget(tree);
            Some(o)
        }
        other => {
            forget(other);
            None
        }
    }
}

/// What the text is read to as a type.
pub fn type_of(
    rt: &impl Abort,
    alloc: Global,
    env: &Environment,
    ctx: &mut Context,
    text: &str,
) -> Option<Result<SoftType, Refusal>> {
    match parsed(rt, alloc, text, Form::TypeForm) {
        Expression::TypeForm(tree) => {
            let o = read_type(alloc, env, ctx, 0, &tree.node).expect(rt, "memory");
            forget(tree);
            Some(o)
        }
        other => {
            forget(other);
            None
        }
    }
}

/// Whether the term is that of the text.
pub fn is_term(rt: &impl Abort, alloc: Global, t: Term, wanted: &str) -> bool {
    let text = term_text(alloc, &t).expect(rt, "memory");
    let same = text.as_slice() == wanted.as_bytes();
    forget(t);
    forget(text);
    same
}

/// The refusal's name, and the column of its place.
pub fn refusal(r: Refusal) -> (&'static str, u64) {
    match r {
        Refusal::UnknownSymbol(place) => ("unknown symbol", place.column),
        Refusal::NoNotation(place) => ("no notation", place.column),
        Refusal::UnknownVariable(place) => ("unknown variable", place.column),
        Refusal::Unregistered(place) => ("unregistered", place.column),
        Refusal::UnfitArgument(place) => ("unfit argument", place.column),
        Refusal::TooLarge(place) => ("too large", place.column),
    }
}
