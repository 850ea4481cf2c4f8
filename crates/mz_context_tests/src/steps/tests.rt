//! Parts of a `now` and steps with what becomes of them, worked out by hand from the rules. What a question is done with
//! is forgotten, not dropped.
use crate::steps::samples::{
    P, conjuncts, part, parts, statement_of, term_of, variable, variables,
};
use mz_context::context::Context;
use mz_core::erasure::erase;
use mz_core::statement::Statement;
use mz_environment::unfoldings::Unfoldings;
use mz_ground::clauses::Clauses;
use mz_item_samples::contexts::in_force;
use mz_item_samples::types::{ConstantRow, SET, TypeRow};
use mz_logic::formula::Formula;
use mz_now::hidden::{brings_hidden, defined};
use mz_now::now_part::{NowPart, NowParts};
use mz_now::stated::stated_by;
use mz_samples::forms::formula;
use mz_steps::block::{Block, Effect};
use mz_steps::effects::effect;
use mz_steps::read_step::ReadStep;
use std::alloc::Global;
use std::mem::forget;
use std::process::Abort;

const MODE: TypeRow = ("A.M1", "");

fn is_text(rt: &impl Abort, alloc: Global, s: Statement, wanted: &str) -> bool {
    let f: Formula = erase(alloc, &s).expect(rt, "memory");
    let g = formula(alloc, wanted).expect(rt, "a formula");
    let same = f.equals(&g);
    forget(s);
    forget(f);
    forget(g);
    same
}

/// The parts of a `now`, and what they state.
const STATED: [(&[P], &str); 10] = [
    (&[], "true"),
    (&[('c', 0, SET, "(A.R1 c1)")], "(A.R1 c1)"),
    (
        &[
            ('c', 0, SET, "(A.R1 c1)"),
            ('c', 0, SET, "(A.R2 c1)"),
            ('c', 0, SET, "(A.R3 c1)"),
        ],
        "(and (and (A.R1 c1) (A.R2 c1)) (A.R3 c1))",
    ),
    (
        &[('a', 0, SET, "(A.R1 c1)")],
        "(not (and (A.R1 c1) (not true)))",
    ),
    (
        &[('a', 0, SET, "(A.R1 c1)"), ('c', 0, SET, "(not (A.R2 c1))")],
        "(not (and (A.R1 c1) (A.R2 c1)))",
    ),
    (&[('q', 2, SET, "")], "(all true)"),
    (
        &[('q', 2, SET, ""), ('c', 0, SET, "(A.R1 c1 c2)")],
        "(all (A.R1 c1 b0))",
    ),
    (
        &[('q', 2, MODE, ""), ('c', 0, SET, "(A.R1 c2)")],
        "(all (not (and (A.M1 b0) (not (A.R1 b0)))))",
    ),
    (
        &[
            ('d', 2, SET, "(A.O1 c1)"),
            ('c', 0, SET, "(A.R1 c2)"),
            ('d', 3, SET, "(A.O2 c2)"),
            ('c', 0, SET, "(A.R2 c3)"),
        ],
        "(and (A.R1 (A.O1 c1)) (A.R2 (A.O2 (A.O1 c1))))",
    ),
    (
        &[
            ('q', 2, SET, ""),
            ('a', 0, SET, "(A.R1 c2)"),
            ('h', 3, SET, ""),
            ('q', 4, SET, ""),
            ('c', 0, SET, "(A.R2 c2 c4)"),
        ],
        "(all (not (and (A.R1 b0) (not (all (A.R2 b1 b0))))))",
    ),
];

fn check_stated(rt: &impl Abort, alloc: Global, ps: &[P], wanted: &str) {
    let ps = parts(rt, alloc, ps);
    let stated = stated_by(alloc, &ps).expect(rt, "memory");
    forget(ps);
    let same = match stated {
        Some(s) => is_text(rt, alloc, s, wanted),
        None => false,
    };
    assert!(rt; same, "{wanted}");
}

#[test]
fn a_now_states_its_steps(rt: HostRuntime) {
    for (ps, wanted) in &STATED {
        check_stated(&rt, rt.alloc(), ps, wanted);
    }
}

/// Each of c2 to c16 has the one before it twice, so that c16 is a term of 65,535 nodes.
const TWICE: [P; 15] = [
    ('d', 2, SET, "(A.O1 c1 c1)"),
    ('d', 3, SET, "(A.O1 c2 c2)"),
    ('d', 4, SET, "(A.O1 c3 c3)"),
    ('d', 5, SET, "(A.O1 c4 c4)"),
    ('d', 6, SET, "(A.O1 c5 c5)"),
    ('d', 7, SET, "(A.O1 c6 c6)"),
    ('d', 8, SET, "(A.O1 c7 c7)"),
    ('d', 9, SET, "(A.O1 c8 c8)"),
    ('d', 10, SET, "(A.O1 c9 c9)"),
    ('d', 11, SET, "(A.O1 c10 c10)"),
    ('d', 12, SET, "(A.O1 c11 c11)"),
    ('d', 13, SET, "(A.O1 c12 c12)"),
    ('d', 14, SET, "(A.O1 c13 c13)"),
    ('d', 15, SET, "(A.O1 c14 c14)"),
    ('d', 16, SET, "(A.O1 c15 c15)"),
];

/// A conjunct behind these, and whether what is stated keeps the limit on nodes.
const LARGE: [(P, bool); 2] = [
    (('c', 0, SET, "(A.R1 c16)"), true),
    (('c', 0, SET, "(A.R1 (A.O2 c16))"), false),
];

/// How many conjuncts, and whether they keep the limit on depth.
const MANY: [(usize, bool); 2] = [(512, true), (513, false)];

fn is_kept(rt: &impl Abort, alloc: Global, ps: NowParts) -> bool {
    let stated = stated_by(alloc, &ps).expect(rt, "memory");
    forget(ps);
    match stated {
        Some(s) => {
            forget(s);
            true
        }
        None => false,
    }
}

fn check_large(rt: &impl Abort, alloc: Global, p: P, wanted: bool) {
    let text = p.3;
    let mut ps = parts(rt, alloc, &TWICE);
    ps.push(part(rt, alloc, p)).expect(rt, "memory");
    let kept = is_kept(rt, alloc, ps);
    assert!(rt; kept == wanted, "{text}");
}

fn check_many(rt: &impl Abort, alloc: Global, count: usize, wanted: bool) {
    let ps = conjuncts(rt, alloc, count);
    let kept = is_kept(rt, alloc, ps);
    assert!(rt; kept == wanted, "{count}");
}

#[test]
fn what_is_stated_keeps_the_limits(rt: HostRuntime) {
    for (p, wanted) in &LARGE {
        check_large(&rt, rt.alloc(), *p, *wanted);
    }
    for (count, wanted) in &MANY {
        check_many(&rt, rt.alloc(), *count, *wanted);
    }
}

/// c2 and c3 are hidden, c4 stands for a term of c1.
const BEFORE: [P; 3] = [
    ('h', 2, SET, ""),
    ('h', 3, SET, ""),
    ('d', 4, SET, "(A.O1 c1)"),
];

/// A further part, and whether it brings a hidden constant.
const BROUGHT: [(P, bool); 8] = [
    (('c', 0, SET, "(A.R1 c1)"), false),
    (('c', 0, SET, "(A.R1 c2)"), true),
    (('c', 0, SET, "(A.R1 c3)"), true),
    (('c', 0, SET, "(A.R1 c4)"), false),
    (('a', 0, SET, "(A.R1 (A.O2 c3))"), true),
    (('q', 5, ("(A.M2 c2)", ""), ""), true),
    (('q', 5, MODE, ""), false),
    (('d', 5, SET, "(A.O1 c2)"), false),
];

fn check_brought(rt: &impl Abort, alloc: Global, p: P, wanted: bool) {
    let text = p.3;
    let ps = parts(rt, alloc, &BEFORE);
    let p = part(rt, alloc, p);
    let brings = brings_hidden(ps.items.as_slice(), &p);
    forget(ps);
    forget(p);
    assert!(rt; brings == wanted, "{text}");
}

#[test]
fn a_hidden_constant_is_found(rt: HostRuntime) {
    for (p, wanted) in &BROUGHT {
        check_brought(&rt, rt.alloc(), *p, *wanted);
    }
}

/// A term that a constant is equal to, and whether the constant is hidden by that.
const EQUAL: [(&str, bool); 3] = [
    ("(A.O1 c1)", false),
    ("(A.O1 (A.O2 c1 c3))", true),
    ("c4", false),
];

fn check_equal(rt: &impl Abort, alloc: Global, text: &str, wanted: bool) {
    let ps = parts(rt, alloc, &BEFORE);
    let t = term_of(rt, alloc, text);
    let p = defined(alloc, ps.items.as_slice(), 5, &t).expect(rt, "memory");
    let hidden = matches!(&p, NowPart::Hidden { .. });
    forget(ps);
    forget(t);
    forget(p);
    assert!(rt; hidden == wanted, "{text}");
}

#[test]
fn a_term_with_a_hidden_constant_hides(rt: HostRuntime) {
    for (text, wanted) in &EQUAL {
        check_equal(&rt, rt.alloc(), text, *wanted);
    }
}

const IN_FORCE: [ConstantRow; 1] = [(MODE, "")];

fn context_of(rt: &impl Abort, alloc: Global, thesis: &str) -> Context {
    let mut ctx = in_force(alloc, 0, &IN_FORCE).expect(rt, "constants");
    ctx.thesis = Some(statement_of(rt, alloc, thesis));
    ctx
}

/// What the step does: `=` where it leaves everything, `+` where a `now` states more, the text of what is left of a thesis,
/// or nothing where it doesn't fit.
fn does(
    rt: &impl Abort,
    alloc: Global,
    ctx: Context,
    block: Block,
    step: ReadStep,
    wanted: &str,
) -> bool {
    let cs = Clauses::new(alloc);
    let us = Unfoldings::new(alloc);
    let e = effect(alloc, cs.as_slice(), &us, &ctx, &block, &step);
    forget(cs);
    forget(us);
    forget(ctx);
    forget(block);
    forget(step);
    match e {
        Ok(Effect::Unchanged) => wanted == "=",
        Ok(Effect::Says(ps)) => {
            forget(ps);
            wanted == "+"
        }
        Ok(Effect::Leaves(s)) => is_text(rt, alloc, s, wanted),
        Err(_) => wanted.is_empty(),
    }
}

/// A step: its letter and its text. The letters: `l` let, `a` assume, `g` given, `t` thus, `e` take, `c` consider, `s` a
/// statement.
fn step(rt: &impl Abort, alloc: Global, letter: char, text: &str) -> ReadStep {
    match letter {
        'l' => ReadStep::Let(variable(rt, alloc, SET)),
        'a' => ReadStep::Assume(statement_of(rt, alloc, text)),
        'g' => {
            let vs = variables(rt, alloc, SET);
            ReadStep::Given(vs, statement_of(rt, alloc, text))
        }
        't' => ReadStep::Thus(statement_of(rt, alloc, text)),
        'e' => ReadStep::Take(term_of(rt, alloc, text)),
        'c' => {
            let vs = variables(rt, alloc, SET);
            ReadStep::Consider(vs, statement_of(rt, alloc, text))
        }
        _ => ReadStep::State(statement_of(rt, alloc, text)),
    }
}

/// A thesis, a step, and what it does.
const IN_PROOF: [(&str, char, &str, &str); 9] = [
    ("(all (A.R1 b0))", 'l', "", "(A.R1 c2)"),
    ("(A.R1 c1)", 'l', "", ""),
    (
        "(not (and (A.R1 c1) (A.R2 c1)))",
        'a',
        "(A.R1 c1)",
        "(not (A.R2 c1))",
    ),
    (
        "(not (and (not (all (not (A.R1 b0)))) (A.R2 c1)))",
        'g',
        "(A.R1 c2)",
        "(not (A.R2 c1))",
    ),
    ("(and (A.R1 c1) (A.R2 c1))", 't', "(A.R1 c1)", "(A.R2 c1)"),
    ("(and (A.R1 c1) (A.R2 c1))", 't', "(A.R2 c1)", ""),
    ("(not (all (not (A.R1 b0))))", 'e', "c1", "(A.R1 c1)"),
    ("(A.R1 c1)", 'c', "(A.R2 c2)", "="),
    ("(A.R1 c1)", 's', "(A.R2 c1)", "="),
];

fn check_in_proof(
    rt: &impl Abort,
    alloc: Global,
    thesis: &str,
    letter: char,
    text: &str,
    wanted: &str,
) {
    let ctx = context_of(rt, alloc, thesis);
    let step = step(rt, alloc, letter, text);
    let right = does(rt, alloc, ctx, Block::Proof, step, wanted);
    assert!(rt; right, "{thesis}");
}

#[test]
fn a_step_changes_the_thesis(rt: HostRuntime) {
    for (thesis, letter, text, wanted) in &IN_PROOF {
        check_in_proof(&rt, rt.alloc(), thesis, *letter, text, wanted);
    }
}

/// A step in a `now` in which c1 is hidden, and what it does.
const IN_NOW: [(char, &str, &str); 8] = [
    ('l', "", "+"),
    ('a', "(A.R1 c2)", "+"),
    ('t', "(A.R1 c2)", "+"),
    ('t', "(A.R1 c1)", ""),
    ('g', "(A.R1 c1 c2)", ""),
    ('e', "c2", ""),
    ('c', "(A.R1 c1 c2)", "+"),
    ('s', "(A.R1 c1)", "+"),
];

fn check_in_now(rt: &impl Abort, alloc: Global, letter: char, text: &str, wanted: &str) {
    let ctx = context_of(rt, alloc, "true");
    let hidden: NowParts = parts(rt, alloc, &[('h', 1, SET, "")]);
    let step = step(rt, alloc, letter, text);
    let right = does(rt, alloc, ctx, Block::Now(hidden), step, wanted);
    assert!(rt; right, "{text}");
}

#[test]
fn a_step_of_a_now_states_something(rt: HostRuntime) {
    for (letter, text, wanted) in &IN_NOW {
        check_in_now(&rt, rt.alloc(), *letter, text, wanted);
    }
}
