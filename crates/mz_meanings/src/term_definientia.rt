//! Definientia of terms, with cases or without.
ghost use Rattle.std.specs.Prelude.{◌≡◌, ◌∷◌, ◌++◌, [], map, OnOk};
ghost use Rattle.mz_cited.specs.Cited.{members, tree_of};
ghost use Rattle.mz_meanings.specs.Each.{EachRead};
ghost use Rattle.mz_meanings.specs.Definientia.{term_under, term_shape, OtherwiseRead, TermCaseRead, TermsRead};
ghost use Rattle.mz_parts.specs.Propositions.{all_read};
ghost use Rattle.mz_resolve.specs.Answers.{OnRead};
ghost use Rattle.mz_resolve.specs.Calls.{TermRead};
ghost use Rattle.mz_tree_heading.specs.declared.meaning.CasesTree.TheVariants as tree;

use mz_context::context::Context;
use mz_core::outcome::Left;
use mz_core::statement::Statement;
use mz_core::term_definiens::{TermCase, TermCases, TermDefiniens};
use mz_environment::environment::Environment;
use mz_logic::term::Term;
use mz_resolve::calls::{formula, term};
use mz_resolve::resolve_fault::ResolveFault;
use mz_tree::chain::Next;
use mz_tree::expressions::TermTree;
use mz_tree::lists::Separated;
use mz_tree::word::Comma;
use mz_tree_heading::meaning::{CaseTree, CasesTree, OtherwiseTree};
use std::alloc::{AllocError, Global};

/// Puts a case behind the others.
fn put_case(out: &mut TermCases, definiens: Term, condition: Statement) -> Result<(), AllocError>
    ensures { OnOk result (out.new ≡ out.old ++ term_under definiens condition ∷ []) }
{
    out.push(TermCase {
        condition,
        definiens,
    })
}

/// Reads a case, and puts it behind the others. The context is as before.
#[tactic(auto, using(crate::proofs::EachLemmas::kept_rules))]
fn read_case(
    alloc: Global,
    env: &Environment,
    ctx: &mut Context,
    least: u32,
    t: &CaseTree<TermTree>,
    out: &mut TermCases,
    left: &mut Left,
) -> Result<(), ResolveFault>
    ensures reads { OnRead result (λ o. EachRead (TermCaseRead env.now ctx.old least) left.old (t.now ∷ []) out.old (all_read o out.new) left.new) }
    ensures same { OnOk result (ctx.new ≡ ctx.old) }
{
    match term(alloc, env, ctx, least, &t.body, left) {
        Err(fault) => Err(fault),
        Ok(definiens) => match formula(alloc, env, ctx, least, &t.condition, left) {
            Err(fault) => Err(fault),
            Ok(condition) => {
                put_case(out, definiens, condition)?;
                Ok(())
            }
        },
    }
}

/// Reads cases one after another, and puts them behind the others. The context is as before.
#[tactic(auto, using(crate::proofs::EachLemmas::each_rules))]
fn read_each(
    alloc: Global,
    env: &Environment,
    ctx: &mut Context,
    least: u32,
    ts: &[Next<Comma, CaseTree<TermTree>>],
    out: &mut TermCases,
    left: &mut Left,
) -> Result<(), ResolveFault>
    ensures reads { OnRead result (λ o. EachRead (TermCaseRead env.now ctx.old least) left.old (map tree_of ts.now) out.old (all_read o out.new) left.new) }
    ensures same { OnOk result (ctx.new ≡ ctx.old) }
{
    let mut rest = ts;
    while let Some((t, others)) = rest.split_first() {
        match read_case(alloc, env, ctx, least, &t.tree, out, left) {
            Ok(()) => rest = others,
            Err(fault) => return Err(fault),
        }
    }
    Ok(())
}

/// Reads all cases, and puts them behind the others. The context is as before.
#[tactic(auto, using(crate::proofs::EachLemmas::kept_rules))]
fn read_all(
    alloc: Global,
    env: &Environment,
    ctx: &mut Context,
    least: u32,
    ts: &Separated<CaseTree<TermTree>>,
    out: &mut TermCases,
    left: &mut Left,
) -> Result<(), ResolveFault>
    ensures reads { OnRead result (λ o. EachRead (TermCaseRead env.now ctx.old least) left.old (members ts.now) out.old (all_read o out.new) left.new) }
    ensures same { OnOk result (ctx.new ≡ ctx.old) }
{
    match read_case(alloc, env, ctx, least, &ts.first, out, left) {
        Ok(()) => read_each(alloc, env, ctx, least, ts.more.items.as_slice(), out, left),
        Err(fault) => Err(fault),
    }
}

/// Reads cases. The context is as before.
#[tactic(auto, using(crate::proofs::EachLemmas::whole_rules))]
fn read_cases(
    alloc: Global,
    env: &Environment,
    ctx: &mut Context,
    least: u32,
    ts: &Separated<CaseTree<TermTree>>,
    left: &mut Left,
) -> Result<TermCases, ResolveFault>
    ensures reads { OnRead result (λ o. EachRead (TermCaseRead env.now ctx.old least) left.old (members ts.now) [] o left.new) }
    ensures same { OnOk result (ctx.new ≡ ctx.old) }
{
    let mut out = TermCases::new(alloc);
    match read_all(alloc, env, ctx, least, ts, &mut out, left) {
        Ok(()) => Ok(out),
        Err(fault) => Err(fault),
    }
}

/// Reads the definiens of `otherwise` behind the cases, where there is one.
fn read_otherwise(
    alloc: Global,
    env: &Environment,
    ctx: &Context,
    least: u32,
    ks: TermCases,
    t: &Option<OtherwiseTree<TermTree>>,
    left: &mut Left,
) -> Result<TermDefiniens, ResolveFault>
    ensures { OnRead result (λ o. OtherwiseRead term_shape (TermRead env.now ctx.now least) ks left.old t.now o left.new) }
{
    match t {
        None => Ok(TermDefiniens::Cases(ks)),
        Some(t) => match term(alloc, env, ctx, least, &t.body, left) {
            Err(fault) => Err(fault),
            Ok(d) => Ok(TermDefiniens::CasesOtherwise(ks, d)),
        },
    }
}

/// Reads a definiens alone.
fn read_alone(
    alloc: Global,
    env: &Environment,
    ctx: &Context,
    least: u32,
    u: &TermTree,
    left: &mut Left,
) -> Result<TermDefiniens, ResolveFault>
    ensures { OnRead result (λ o. TermsRead env.now ctx.now least left.old (tree.Plain u.now) o left.new) }
{
    match term(alloc, env, ctx, least, u, left) {
        Err(fault) => Err(fault),
        Ok(d) => Ok(TermDefiniens::Plain(d)),
    }
}

/// Reads cases and what stands behind `otherwise`. The context is as before.
#[tactic(auto, using(crate::proofs::EachLemmas::kept_rules))]
fn read_by_cases(
    alloc: Global,
    env: &Environment,
    ctx: &mut Context,
    least: u32,
    ts: &Separated<CaseTree<TermTree>>,
    t: &Option<OtherwiseTree<TermTree>>,
    left: &mut Left,
) -> Result<TermDefiniens, ResolveFault>
    ensures reads { OnRead result (λ o. TermsRead env.now ctx.old least left.old (tree.Cases ts.now t.now) o left.new) }
    ensures same { OnOk result (ctx.new ≡ ctx.old) }
{
    match read_cases(alloc, env, ctx, least, ts, left) {
        Err(fault) => Err(fault),
        Ok(ks) => read_otherwise(alloc, env, ctx, least, ks, t, left),
    }
}

/// Reads a definiens of terms, of no given type. No constant below `least` may be used. The context is as before.
///
/// # Errors
/// The first refusal of a term or a condition, in the order of the text; or there was no memory.
pub fn read_terms(
    alloc: Global,
    env: &Environment,
    ctx: &mut Context,
    least: u32,
    t: &CasesTree<TermTree>,
    left: &mut Left,
) -> Result<TermDefiniens, ResolveFault>
    ensures reads { OnRead result (λ o. TermsRead env.now ctx.old least left.old t.now o left.new) }
    ensures same { OnOk result (ctx.new ≡ ctx.old) }
{
    match t {
        CasesTree::Plain(u) => read_alone(alloc, env, ctx, least, u, left),
        CasesTree::Cases { cases, otherwise } => {
            read_by_cases(alloc, env, ctx, least, cases, otherwise, left)
        }
    }
}
