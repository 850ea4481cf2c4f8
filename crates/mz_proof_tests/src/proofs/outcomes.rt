//! What the statements of a text give, as a text.
use crate::proofs::environment::{context, environment, tokens_of};
use mz_base::place::Place;
use mz_base::token::Tokens;
use mz_context::context::Context;
use mz_core::items::Items;
use mz_core::outcome::Left;
use mz_environment::environment::Environment;
use mz_justified::proof_fault::{ProofFault, ProofRefusal};
use mz_justified::walker::Walker;
use mz_logic::texts::push_formula;
use mz_names::refusal::Refusal;
use mz_nf::problem::Problem;
use mz_obligations::obligation::{Duty, Extent, Obligations, SchemeVerdict};
use mz_pproof::forms::{ProofForm, ProofTree};
use mz_pproof::parse::proof;
use mz_proof::proving::Proving;
use mz_tree_proof::reasoning::StatementTree;
use mz_walk::prove_steps::ProveSteps;
use std::alloc::Global;
use std::mem::forget;
use std::process::Abort;

/// A text, and what it gives: its obligations with their columns, `; ` between them, or the column and the code of its
/// first fault.
pub type Row = (&'static str, &'static str);

/// The code of a fault.
fn refusal_code(r: Refusal) -> (u32, Place) {
    match r {
        Refusal::UnknownSymbol(p) => (31, p),
        Refusal::NoNotation(p) => (32, p),
        Refusal::UnknownVariable(p) => (33, p),
        Refusal::Unregistered(p) => (34, p),
        Refusal::UnfitArgument(p) => (35, p),
        Refusal::TooLarge(p) => (36, p),
    }
}

fn code(r: ProofRefusal) -> (u32, Place) {
    match r {
        ProofRefusal::StepNoFit(p) => (41, p),
        ProofRefusal::ThesisLeft(p) => (42, p),
        ProofRefusal::UnknownLabel(p) => (43, p),
        ProofRefusal::Resolve(r) => refusal_code(r),
        ProofRefusal::TooManyObligations(p) => (44, p),
        ProofRefusal::NotBuilt(p) => (10, p),
    }
}

fn fault_text(rt: &impl Abort, alloc: Global, fault: ProofFault) -> Vec<u8> {
    let text = match fault {
        ProofFault::Refused(r) => {
            let (code, place) = code(r);
            let column = place.column;
            format!(in alloc; "{column} {code}").expect(rt, "memory")
        }
        ProofFault::Memory => rt.abort(),
    };
    text.into_bytes()
}

fn push_text(rt: &impl Abort, out: &mut Vec<u8>, text: &str) {
    out.extend_from_slice(text.as_bytes()).expect(rt, "memory");
}

fn push_problem(rt: &impl Abort, alloc: Global, out: &mut Vec<u8>, p: &Problem) {
    for i in 0..p.premises.items.len() {
        push_text(rt, out, if i == 0 { " " } else { ", " });
        push_formula(alloc, out, &p.premises.items[i]).expect(rt, "memory");
    }
    push_text(rt, out, " |- ");
    push_formula(alloc, out, &p.conclusion).expect(rt, "memory");
}

fn push_verdict(rt: &impl Abort, alloc: Global, out: &mut Vec<u8>, verdict: SchemeVerdict) {
    let text = match verdict {
        SchemeVerdict::Fits => format!(in alloc; " from fits"),
        SchemeVerdict::NoFit => format!(in alloc; " from no fit"),
        SchemeVerdict::PremiseCount(n) => format!(in alloc; " from count {n}"),
        SchemeVerdict::PremiseNoFit(n) => format!(in alloc; " from premise {n}"),
    };
    push_text(rt, out, text.expect(rt, "memory").as_str());
}

fn obligations_text(rt: &impl Abort, alloc: Global, os: &Obligations) -> Vec<u8> {
    let mut out = Vec::new(alloc);
    for o in &os.items {
        if !out.is_empty() {
            push_text(rt, &mut out, "; ");
        }
        let column = o.place.column;
        let column = format!(in alloc; "{column}").expect(rt, "memory");
        push_text(rt, &mut out, column.as_str());
        match &o.duty {
            Duty::By(p) => push_problem(rt, alloc, &mut out, p),
            Duty::From(verdict) => push_verdict(rt, alloc, &mut out, *verdict),
        }
    }
    out
}

/// The obligations, or the fault.
pub fn outcome_text(
    rt: &impl Abort,
    alloc: Global,
    done: Result<(), ProofFault>,
    os: &Obligations,
) -> Vec<u8> {
    match done {
        Ok(()) => obligations_text(rt, alloc, os),
        Err(fault) => fault_text(rt, alloc, fault),
    }
}

fn as_statement(rt: &impl Abort, tree: ProofTree) -> StatementTree {
    match tree {
        ProofTree::Statement(s) => s,
        _ => rt.abort(),
    }
}

/// Where nothing stood above.
pub const NOTHING_ABOVE: Extent = Extent {
    clauses: 0,
    unfoldings: 0,
    theorems: 0,
    schemes: 0,
};

/// The place of the token behind the next statement, which is walked over.
fn walk_one(
    rt: &impl Abort,
    alloc: Global,
    env: &Environment,
    ctx: &mut Context,
    tokens: &Tokens,
    at: usize,
    left: &mut Left,
    os: &mut Obligations,
) -> Result<usize, ProofFault> {
    assert!(rt; at <= tokens.items.len());
    let (tree, behind) = proof(alloc, tokens, at, ProofForm::Statement).expect(rt, "a statement");
    let tree = as_statement(rt, tree);
    let walker = Walker {
        alloc,
        env,
        at: NOTHING_ABOVE,
    };
    let done = Proving::statement(walker, ctx, &tree, left, os);
    forget(tree);
    match done {
        Ok(()) => Ok(behind),
        Err(fault) => Err(fault),
    }
}

fn walk(
    rt: &impl Abort,
    alloc: Global,
    env: &Environment,
    tokens: &Tokens,
    left: &mut Left,
    os: &mut Obligations,
) -> Result<(), ProofFault> {
    let mut ctx = context(rt, alloc);
    let mut at = 5;
    let count = tokens.items.len();
    let mut done = Ok(());
    for _ in 0..count {
        if at >= count {
            break;
        }
        match walk_one(rt, alloc, env, &mut ctx, tokens, at, left, os) {
            Ok(behind) => at = behind,
            Err(fault) => {
                done = Err(fault);
                break;
            }
        }
    }
    forget(ctx);
    done
}

/// What an article has left.
pub fn left_of(alloc: Global, limits: Limits) -> Left {
    let (nodes, obligations) = limits;
    let made = Items::new(alloc);
    Left {
        nodes,
        obligations,
        made,
    }
}

/// The nodes and the obligations that an article has left.
pub type Limits = (u64, u32);

/// Those of an article that has made nothing.
pub const AMPLE: Limits = (1000000, 20000);

/// What a text gives where an article has so much left.
pub fn given(
    rt: &impl Abort,
    alloc: Global,
    env: &Environment,
    limits: Limits,
    text: &str,
) -> Vec<u8> {
    let tokens = tokens_of(rt, alloc, text);
    let mut left = left_of(alloc, limits);
    let mut os = Obligations::new(alloc);
    let done = walk(rt, alloc, env, &tokens, &mut left, &mut os);
    let found = outcome_text(rt, alloc, done, &os);
    forget(tokens);
    forget(left);
    forget(os);
    found
}

/// Checks what a text gives where so many nodes and obligations are left.
pub fn check(
    rt: &impl Abort,
    alloc: Global,
    env: &Environment,
    limits: Limits,
    text: &str,
    wanted: &str,
) {
    let found = given(rt, alloc, env, limits, text);
    let same = found.as_slice() == wanted.as_bytes();
    forget(found);
    assert!(rt; same, "{text}");
}

/// Checks rows where an article has made nothing.
pub fn check_all(rt: &impl Abort, alloc: Global, rows: &[Row]) {
    let env = environment(rt, alloc);
    for (text, wanted) in rows {
        check(rt, alloc, &env, AMPLE, text, wanted);
    }
    forget(env);
}

/// Puts the words so many times behind the bytes.
pub fn add(rt: &impl Abort, bytes: &mut Vec<u8>, words: &str, times: usize) {
    for _ in 0..times {
        bytes
            .extend_from_slice(words.as_bytes())
            .expect(rt, "memory");
    }
}

/// The text of the bytes.
pub fn text_of<'a>(rt: &impl Abort, bytes: &'a Vec<u8>) -> &'a str {
    str::from_utf8(bytes.as_slice()).ok().expect(rt, "a text")
}
