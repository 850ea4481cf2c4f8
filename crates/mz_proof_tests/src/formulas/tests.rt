//! Texts, and what they are read to.
use crate::formulas::environment::{SYMBOLS, context, environment};
use mz_context::context::Context;
use mz_core::statement::Statement;
use mz_environment::environment::Environment;
use mz_formulas::formulas::read_formula;
use mz_formulas::sentence::{Sentence, read_sentence};
use mz_item_samples::refusals::refusal_text;
use mz_item_samples::texts::statement_text;
use mz_parser_samples::trees::expression_of;
use mz_pexpr::forms::{Expression, Form};
use mz_tree::expressions::FormulaTree;
use std::alloc::Global;
use std::mem::forget;
use std::process::Abort;

fn parsed(rt: &impl Abort, alloc: Global, text: &str) -> FormulaTree {
    let tree = expression_of(alloc, SYMBOLS, text.as_bytes(), Form::Formula);
    match tree.expect(rt, "a formula") {
        Expression::Formula(f) => f,
        other => {
            forget(other);
            rt.abort()
        }
    }
}

fn text_of(rt: &impl Abort, alloc: Global, s: Statement) -> Vec<u8> {
    let text = statement_text(alloc, &s).expect(rt, "memory");
    forget(s);
    text
}

fn formula_read(
    rt: &impl Abort,
    alloc: Global,
    env: &Environment,
    ctx: Context,
    text: &str,
) -> (Context, Vec<u8>) {
    let tree = parsed(rt, alloc, text);
    let mut ctx = ctx;
    let o = read_formula(alloc, env, &mut ctx, 0, &tree.node).expect(rt, "memory");
    forget(tree);
    let text = match o {
        Ok(s) => text_of(rt, alloc, s),
        Err(r) => refusal_text(alloc, r).expect(rt, "memory"),
    };
    (ctx, text)
}

/// The text of the sentence for all.
fn text_of_sentence(rt: &impl Abort, alloc: Global, s: Sentence) -> Vec<u8> {
    let text = statement_text(alloc, &s.closed).expect(rt, "memory");
    forget(s);
    text
}

fn sentence_read(
    rt: &impl Abort,
    alloc: Global,
    env: &Environment,
    ctx: Context,
    text: &str,
) -> (Context, Vec<u8>) {
    let tree = parsed(rt, alloc, text);
    let mut ctx = ctx;
    let o = read_sentence(alloc, env, &mut ctx, 0, &tree.node).expect(rt, "memory");
    forget(tree);
    let text = match o {
        Ok(s) => text_of_sentence(rt, alloc, s),
        Err(r) => refusal_text(alloc, r).expect(rt, "memory"),
    };
    (ctx, text)
}

/// A text, and the text of what it is read to.
type Row = (&'static str, &'static str);

fn check_formula(
    rt: &impl Abort,
    alloc: Global,
    env: &Environment,
    ctx: Context,
    row: Row,
) -> Context {
    let (text, wanted) = row;
    let (ctx, found) = formula_read(rt, alloc, env, ctx, text);
    let same = found.as_slice() == wanted.as_bytes() && ctx.constants.items.len() == 2;
    forget(found);
    assert!(rt; same, "{text}");
    ctx
}

fn check_sentence(
    rt: &impl Abort,
    alloc: Global,
    env: &Environment,
    ctx: Context,
    row: Row,
) -> Context {
    let (text, wanted) = row;
    let (ctx, found) = sentence_read(rt, alloc, env, ctx, text);
    let same = found.as_slice() == wanted.as_bytes() && ctx.constants.items.len() == 2;
    forget(found);
    assert!(rt; same, "{text}");
    ctx
}

const FORMULAS: [Row; 35] = [
    // atoms
    ("c = d;", "(= c1 c2)"),
    ("c <> d;", "(not (= c1 c2))"),
    ("not c <> d;", "(= c1 c2)"),
    ("c in d;", "(HIDDEN.R1 c1 c2)"),
    (
        "for e being Elm of d holds d ## e;",
        "(all (not (and (A.M1 c2 b0) (not (A.R1 c2 b0)))))",
    ),
    ("d ## c;", "A33"),
    ("c + c in d;", "(HIDDEN.R1 (A.O1 c1 c1) c2)"),
    ("x = d;", "V31"),
    ("c + z = y;", "V35"),
    ("d ##;", "N33"),
    ("c = d, c;", "N33"),
    ("P[c];", "V31"),
    ("P[z];", "V33"),
    ("d is empty;", "(A.V1 c2)"),
    ("d is non empty;", "(not (A.V1 c2))"),
    (
        "d is non empty d big;",
        "(and (not (A.V1 c2)) (A.V2 c2 c2))",
    ),
    ("c is empty;", "(A.V1 c1)"),
    ("c is set;", "true"),
    ("c is Elm of d;", "(A.M1 c2 c1)"),
    ("c is non empty set;", "(not (A.V1 c1))"),
    ("c is empty set;", "U36"),
    // connectives
    (
        "c = c & d = d & c = d;",
        "(and (and (= c1 c1) (= c2 c2)) (= c1 c2))",
    ),
    (
        "c = c or d = d;",
        "(not (and (not (= c1 c1)) (not (= c2 c2))))",
    ),
    (
        "not c = c or d = d;",
        "(not (and (= c1 c1) (not (= c2 c2))))",
    ),
    (
        "c = c implies d = d;",
        "(not (and (= c1 c1) (not (= c2 c2))))",
    ),
    (
        "c = c iff d = d;",
        "(and (not (and (= c1 c1) (not (= c2 c2)))) (not (and (= c2 c2) (not (= c1 c1)))))",
    ),
    ("not contradiction;", "true"),
    ("thesis & contradiction;", "(and true (not true))"),
    // quantifiers
    ("for a being set holds a = c;", "(all (= b0 c1))"),
    (
        "for a,b being Elm of d holds a = b;",
        "(all (not (and (A.M1 c2 b0) (not (all (not (and (A.M1 c2 b0) (not (= b1 b0)))))))))",
    ),
    (
        "for a being set,b being Elm of a holds b = a;",
        "(all (all (not (and (A.M1 b1 b0) (not (= b0 b1))))))",
    ),
    ("for a being set,b being Elm of b holds b = a;", "V62"),
    (
        "for x st x = c ex c being set st c = x;",
        "(all (not (and (= b0 c1) (all (not (= b0 b1))))))",
    ),
    ("ex a being set st not a = c;", "(not (all (= b0 c1)))"),
    ("for z holds z = z;", "V35"),
];

const SENTENCES: [Row; 6] = [
    ("X = c;", "(all (= b0 c1))"),
    (
        "Y = X & x = Y;",
        "(all (all (all (and (= b2 b1) (= b0 b2)))))",
    ),
    ("for X holds X = x;", "(all (all (= b0 b1)))"),
    ("ex x st x = y;", "(all (not (all (not (= b0 b1)))))"),
    ("X ## x;", "A33"),
    ("c = d;", "(= c1 c2)"),
];

#[test]
fn formulas_are_read_by_the_rules(rt: HostRuntime) {
    let env = environment(&rt, rt.alloc());
    let mut ctx = context(&rt, rt.alloc());
    for row in &FORMULAS {
        ctx = check_formula(&rt, rt.alloc(), &env, ctx, *row);
    }
    forget(env);
    forget(ctx);
}

#[test]
fn sentences_are_closed_over_reserved_variables(rt: HostRuntime) {
    let env = environment(&rt, rt.alloc());
    let mut ctx = context(&rt, rt.alloc());
    for row in &SENTENCES {
        ctx = check_sentence(&rt, rt.alloc(), &env, ctx, *row);
    }
    forget(env);
    forget(ctx);
}
