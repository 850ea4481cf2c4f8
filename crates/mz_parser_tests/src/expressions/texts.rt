//! What the parser of expressions answers to a text.
use mz_base::place::Place;
use mz_base::token::{MarkedToken, Tokens};
use mz_parser_samples::answer::{Answer, are_same, refused};
use mz_parser_samples::texts;
use mz_parser_samples::texts::SYMBOLS;
use mz_pexpr::forms::{Expression, Form};
use mz_pexpr::marked_tokens::marked_tokens;
use mz_pexpr::parse::expression;
use mz_pterm::parse::ParseFault;
use mz_tree_copies::tree::Copied;
use mz_tree_spelling::tree::Spell;
use std::alloc::Global;
use std::process::Abort;

/// Whether the tree and its copy are spelled by these tokens, the first of which stands at this place.
fn is_spelled<T: Copied + Spell>(
    rt: &impl Abort,
    alloc: Global,
    tree: &T,
    place: Place,
    tokens: &[MarkedToken],
) -> bool {
    let Some((first, _)) = tokens.split_first() else {
        return false;
    };
    let copy = tree.copy(alloc).expect(rt, "memory");
    let mut spelled = Vec::new(alloc);
    tree.spell(alloc, &mut spelled).expect(rt, "memory");
    let mut copied = Vec::new(alloc);
    copy.spell(alloc, &mut copied).expect(rt, "memory");
    first.token.place == place && are_same(&spelled, tokens) && are_same(&copied, tokens)
}

/// Whether the expression has this form and is spelled by these tokens.
fn is_read(
    rt: &impl Abort,
    alloc: Global,
    form: Form,
    tree: &Expression,
    tokens: &[MarkedToken],
) -> bool {
    match tree {
        Expression::Formula(tree) => {
            form == Form::Formula && is_spelled(rt, alloc, tree, tree.first_place(), tokens)
        }
        Expression::Term(tree) => {
            form == Form::Term && is_spelled(rt, alloc, tree, tree.first_place(), tokens)
        }
        Expression::Terms(tree) => {
            form == Form::Terms && is_spelled(rt, alloc, tree, tree.first_place(), tokens)
        }
        Expression::TypeForm(tree) => {
            form == Form::TypeForm && is_spelled(rt, alloc, tree, tree.first_place(), tokens)
        }
        Expression::Adjectives(tree) => {
            form == Form::Adjectives && is_spelled(rt, alloc, tree, tree.first_place(), tokens)
        }
        Expression::Declarations(tree) => {
            form == Form::Declarations && is_spelled(rt, alloc, tree, tree.first_place(), tokens)
        }
    }
}

/// What a parse of this form from a token on answered.
pub fn answer_of(
    rt: &impl Abort,
    alloc: Global,
    form: Form,
    tokens: &[MarkedToken],
    from: usize,
    found: Result<(Expression, usize), ParseFault>,
) -> Answer {
    match found {
        Ok((tree, until)) => {
            if until < from || until > tokens.len() {
                return Answer::Misspelled;
            }
            if is_read(rt, alloc, form, &tree, &tokens[from..until]) {
                Answer::Until(until - from)
            } else {
                Answer::Misspelled
            }
        }
        Err(fault) => refused(&fault),
    }
}

/// What the parser answers to these tokens, from the one with this number on.
pub fn parsed(rt: &impl Abort, alloc: Global, form: Form, tokens: &Tokens, from: usize) -> Answer {
    let all = marked_tokens(alloc, tokens).expect(rt, "memory");
    if tokens.items.len() < from {
        return Answer::TooFew;
    }
    let found = expression(alloc, tokens, from, form);
    answer_of(rt, alloc, form, &all, from, found)
}

/// The tokens of an article.
pub fn article_tokens(rt: &impl Abort, alloc: Global, article: &[u8]) -> Tokens {
    texts::article_tokens(alloc, SYMBOLS, article).expect(rt, "tokens")
}

/// A piece of a text, which stands there so many times in a row.
pub type Piece = (&'static [u8], usize);

/// The tokens of an article with this text behind its `begin`, the sixth of which is the first of the text. Its first byte
/// stands in column 31.
pub fn tokens_behind_begin(rt: &impl Abort, alloc: Global, text: &[Piece]) -> Tokens {
    let mut bytes = Vec::new(alloc);
    for (piece, times) in text {
        for _ in 0..*times {
            bytes.extend_from_slice(piece).expect(rt, "memory");
        }
    }
    texts::tokens_behind_begin(alloc, bytes.as_slice()).expect(rt, "tokens")
}

/// What the parser answers to a text behind `begin`.
pub fn answered(rt: &impl Abort, alloc: Global, form: Form, text: &[Piece]) -> Answer {
    let tokens = tokens_behind_begin(rt, alloc, text);
    parsed(rt, alloc, form, &tokens, 5)
}

/// Fails at the first text that has another answer.
pub fn check(rt: &impl Abort, alloc: Global, form: Form, rows: &[(&'static [u8], Answer)]) {
    for (number, (text, answer)) in rows.iter().enumerate() {
        let found = answered(rt, alloc, form, &[(*text, 1)]);
        assert!(rt; (number, found) == (number, *answer));
    }
}
