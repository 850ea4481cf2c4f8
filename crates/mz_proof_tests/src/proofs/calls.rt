//! The calls on a proof's steps and on a justification.
use crate::proofs::environment::{context, environment, statement_of, tokens_of};
use crate::proofs::outcomes::{AMPLE, NOTHING_ABOVE, left_of, outcome_text};
use mz_base::place::Place;
use mz_base::token::Tokens;
use mz_context::context::Context;
use mz_environment::environment::Environment;
use mz_formulas::sentence::Sentence;
use mz_justified::proof_fault::ProofFault;
use mz_justified::walker::{Opening, Walker};
use mz_names::variable::Variables;
use mz_obligations::obligation::Obligations;
use mz_pproof::forms::{ProofForm, ProofTree};
use mz_pproof::parse::proof;
use mz_proof::proving::Proving;
use mz_tree_proof::reasoning::{JustTree, Steps};
use mz_walk::prove_steps::ProveSteps;
use std::alloc::Global;
use std::mem::forget;
use std::process::Abort;

/// The statement just before, or nothing; the thesis; the text; and what it gives.
type Row = (&'static str, &'static str, &'static str, &'static str);

fn steps(rt: &impl Abort, alloc: Global, tokens: &Tokens) -> Steps {
    assert!(rt; tokens.items.len() >= 5);
    let (tree, _) = proof(alloc, tokens, 5, ProofForm::Reasoning).expect(rt, "steps");
    match tree {
        ProofTree::Reasoning(steps) => steps,
        _ => rt.abort(),
    }
}

fn justification(rt: &impl Abort, alloc: Global, tokens: &Tokens) -> JustTree {
    assert!(rt; tokens.items.len() >= 5);
    let (tree, _) = proof(alloc, tokens, 5, ProofForm::Justification).expect(rt, "one");
    match tree {
        ProofTree::Justification(tree) => tree,
        _ => rt.abort(),
    }
}

/// The context, where the statement was just before, if it isn't empty.
fn behind(rt: &impl Abort, alloc: Global, text: &str) -> Context {
    let mut ctx = context(rt, alloc);
    if !text.is_empty() {
        ctx.previous = Some(statement_of(rt, alloc, text));
    }
    ctx
}

fn walk_steps(
    rt: &impl Abort,
    alloc: Global,
    env: &Environment,
    ctx: &mut Context,
    row: Row,
    os: &mut Obligations,
) -> Result<(), ProofFault> {
    let tokens = tokens_of(rt, alloc, row.2);
    let thesis = statement_of(rt, alloc, row.1);
    let tree = steps(rt, alloc, &tokens);
    let mut left = left_of(alloc, AMPLE);
    let end = tokens.end;
    let walker = Walker {
        alloc,
        env,
        at: NOTHING_ABOVE,
    };
    let done = Proving::skeleton(walker, ctx, &thesis, &tree, end, &mut left, os);
    forget(tokens);
    forget(thesis);
    forget(tree);
    forget(left);
    done
}

fn check_steps(rt: &impl Abort, alloc: Global, env: &Environment, row: Row) {
    let mut ctx = behind(rt, alloc, row.0);
    let mut os = Obligations::new(alloc);
    let done = walk_steps(rt, alloc, env, &mut ctx, row, &mut os);
    let found = outcome_text(rt, alloc, done, &os);
    forget(os);
    forget(ctx);
    let right = found.as_slice() == row.3.as_bytes();
    forget(found);
    assert!(rt; right, "{}", row.2);
}

const STEPS: [Row; 7] = [
    (
        "",
        "(and A.R1 A.R2)",
        "thus p; thus q;",
        "7 |- A.R1; 15 |- A.R2",
    ),
    // the place behind the steps
    ("", "(and A.R1 A.R2)", "thus p;", "8 42"),
    ("", "true", "", ""),
    ("", "A.R1", "", "1 42"),
    (
        "",
        "(all (= b0 b0))",
        "let a be object; B: p; thus thesis by B;",
        "22 |- A.R1; 36 A.R1 |- (= c4 c4)",
    ),
    // the statement just before isn't one within
    ("A.R1", "A.R1", "hence p;", "1 41"),
    (
        "A.R1",
        "(not (and A.R2 (not A.R2)))",
        "assume q; hence q;",
        "18 A.R2 |- A.R2",
    ),
];

#[test]
fn steps_from_a_thesis_to_truth(rt: HostRuntime) {
    let env = environment(&rt, rt.alloc());
    for row in STEPS {
        check_steps(&rt, rt.alloc(), &env, row);
    }
    forget(env);
}

fn sentence(rt: &impl Abort, alloc: Global, text: &str) -> Sentence {
    Sentence {
        variables: Variables::new(alloc),
        inner: statement_of(rt, alloc, text),
        closed: statement_of(rt, alloc, text),
    }
}

/// The justification of a statement that begins in column 7 and ends at the start of the text. It is linked where there is a
/// statement just before.
fn walk_justification(
    rt: &impl Abort,
    alloc: Global,
    env: &Environment,
    ctx: &mut Context,
    row: Row,
    linked: bool,
    os: &mut Obligations,
) -> Result<(), ProofFault> {
    let tokens = tokens_of(rt, alloc, row.2);
    let x = sentence(rt, alloc, row.1);
    let tree = justification(rt, alloc, &tokens);
    let mut left = left_of(alloc, AMPLE);
    let first = Place { line: 1, column: 7 };
    let behind = tokens.end;
    let walker = Walker {
        alloc,
        env,
        at: NOTHING_ABOVE,
    };
    let done = Proving::justify(
        walker,
        ctx,
        Opening { first, linked },
        behind,
        &tree,
        &x,
        &mut left,
        os,
    );
    forget(tokens);
    forget(x);
    forget(tree);
    forget(left);
    done
}

fn check_justification(rt: &impl Abort, alloc: Global, env: &Environment, linked: bool, row: Row) {
    let mut ctx = behind(rt, alloc, row.0);
    let mut os = Obligations::new(alloc);
    let done = walk_justification(rt, alloc, env, &mut ctx, row, linked, &mut os);
    let found = outcome_text(rt, alloc, done, &os);
    forget(os);
    forget(ctx);
    let right = found.as_slice() == row.3.as_bytes();
    forget(found);
    assert!(rt; right, "{}", row.2);
}

const JUSTIFICATIONS: [(bool, Row); 9] = [
    (false, ("", "A.R1", "by TARSKI_0:1", "1 (all true) |- A.R1")),
    // the place behind the statement
    (false, ("", "A.R1", "", "1 |- A.R1")),
    (false, ("", "A.R1", "proof thus p; end", "13 |- A.R1")),
    // linked, and not
    (true, ("A.R2", "A.R1", "", "1 A.R2 |- A.R1")),
    (false, ("A.R2", "A.R1", "", "1 |- A.R1")),
    // linked to nothing: the place where the step begins
    (true, ("", "A.R1", "by B", "7 41")),
    (true, ("A.R2", "A.R1", "by B", "4 43")),
    (false, ("", "A.R1", "proof end", "7 42")),
    (false, ("", "A.R1", "from S", "6 43")),
];

#[test]
fn justifications_of_a_sentence(rt: HostRuntime) {
    let env = environment(&rt, rt.alloc());
    for (linked, row) in JUSTIFICATIONS {
        check_justification(&rt, rt.alloc(), &env, linked, row);
    }
    forget(env);
}
