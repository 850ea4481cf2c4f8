//! Definientia of formulas, with cases or without.
ghost use Rattle.std.specs.Prelude.{◌≡◌, ◌∷◌, ◌++◌, [], map, OnOk};
ghost use Rattle.mz_cited.specs.Cited.{members, tree_of};
ghost use Rattle.mz_meanings.specs.Each.{EachRead};
ghost use Rattle.mz_meanings.specs.Definientia.{formula_under, formula_shape, OtherwiseRead, body_context, FormulaCaseRead, FormulasRead};
ghost use Rattle.mz_parts.specs.Propositions.{all_read};
ghost use Rattle.mz_tree_heading.specs.declared.meaning.CasesTree.TheVariants as tree;
ghost use Rattle.mz_resolve.specs.Answers.{OnRead};
ghost use Rattle.mz_resolve.specs.Calls.{FormulaRead};

use crate::it::read_with_it;
use mz_context::context::Context;
use mz_core::formula_definiens::{FormulaCase, FormulaCases, FormulaDefiniens};
use mz_core::outcome::Left;
use mz_core::soft_type::SoftType;
use mz_core::statement::Statement;
use mz_environment::environment::Environment;
use mz_resolve::calls::formula;
use mz_resolve::resolve_fault::ResolveFault;
use mz_tree::chain::Next;
use mz_tree::expressions::FormulaTree;
use mz_tree::lists::Separated;
use mz_tree::word::Comma;
use mz_tree_heading::meaning::{CaseTree, CasesTree, OtherwiseTree};
use std::alloc::{AllocError, Global};

/// Reads a formula in which `it` is of the type, where there is one. The context is as before.
#[tactic(auto, using(crate::proofs::EachLemmas::kept_rules))]
fn read_body(
    alloc: Global,
    env: &Environment,
    ctx: &mut Context,
    least: u32,
    it: &Option<SoftType>,
    f: &FormulaTree,
    left: &mut Left,
) -> Result<Statement, ResolveFault>
    ensures reads { OnRead result (λ o. FormulaRead env.now (body_context ctx.old it.now) least left.old f.now o left.new) }
    ensures same { OnOk result (ctx.new ≡ ctx.old) }
{
    match it {
        None => formula(alloc, env, ctx, least, f, left),
        Some(ty) => read_with_it(alloc, env, ctx, least, ty, f, left),
    }
}

/// Puts a case behind the others.
fn put_case(
    out: &mut FormulaCases,
    definiens: Statement,
    condition: Statement,
) -> Result<(), AllocError>
    ensures { OnOk result (out.new ≡ out.old ++ formula_under definiens condition ∷ []) }
{
    out.push(FormulaCase {
        condition,
        definiens,
    })
}

/// Reads a case, and puts it behind the others. The context is as before.
#[tactic(auto, using(crate::proofs::EachLemmas::kept_rules))]
fn read_case(
    alloc: Global,
    env: &Environment,
    ctx: &mut Context,
    least: u32,
    it: &Option<SoftType>,
    t: &CaseTree<FormulaTree>,
    out: &mut FormulaCases,
    left: &mut Left,
) -> Result<(), ResolveFault>
    ensures reads { OnRead result (λ o. EachRead (FormulaCaseRead env.now ctx.old least it.now) left.old (t.now ∷ []) out.old (all_read o out.new) left.new) }
    ensures same { OnOk result (ctx.new ≡ ctx.old) }
{
    match read_body(alloc, env, ctx, least, it, &t.body, left) {
        Err(fault) => Err(fault),
        Ok(definiens) => match formula(alloc, env, ctx, least, &t.condition, left) {
            Err(fault) => Err(fault),
            Ok(condition) => {
                put_case(out, definiens, condition)?;
                Ok(())
            }
        },
    }
}

/// Reads cases one after another, and puts them behind the others. The context is as before.
#[tactic(auto, using(crate::proofs::EachLemmas::each_rules))]
fn read_each(
    alloc: Global,
    env: &Environment,
    ctx: &mut Context,
    least: u32,
    it: &Option<SoftType>,
    ts: &[Next<Comma, CaseTree<FormulaTree>>],
    out: &mut FormulaCases,
    left: &mut Left,
) -> Result<(), ResolveFault>
    ensures reads { OnRead result (λ o. EachRead (FormulaCaseRead env.now ctx.old least it.now) left.old (map tree_of ts.now) out.old (all_read o out.new) left.new) }
    ensures same { OnOk result (ctx.new ≡ ctx.old) }
{
    let mut rest = ts;
    while let Some((t, others)) = rest.split_first() {
        match read_case(alloc, env, ctx, least, it, &t.tree, out, left) {
            Ok(()) => rest = others,
            Err(fault) => return Err(fault),
        }
    }
    Ok(())
}

/// Reads all cases, and puts them behind the others. The context is as before.
#[tactic(auto, using(crate::proofs::EachLemmas::kept_rules))]
fn read_all(
    alloc: Global,
    env: &Environment,
    ctx: &mut Context,
    least: u32,
    it: &Option<SoftType>,
    ts: &Separated<CaseTree<FormulaTree>>,
    out: &mut FormulaCases,
    left: &mut Left,
) -> Result<(), ResolveFault>
    ensures reads { OnRead result (λ o. EachRead (FormulaCaseRead env.now ctx.old least it.now) left.old (members ts.now) out.old (all_read o out.new) left.new) }
    ensures same { OnOk result (ctx.new ≡ ctx.old) }
{
    match read_case(alloc, env, ctx, least, it, &ts.first, out, left) {
        Ok(()) => read_each(
            alloc,
            env,
            ctx,
            least,
            it,
            ts.more.items.as_slice(),
            out,
            left,
        ),
        Err(fault) => Err(fault),
    }
}

/// Reads cases. The context is as before.
#[tactic(auto, using(crate::proofs::EachLemmas::whole_rules))]
fn read_cases(
    alloc: Global,
    env: &Environment,
    ctx: &mut Context,
    least: u32,
    it: &Option<SoftType>,
    ts: &Separated<CaseTree<FormulaTree>>,
    left: &mut Left,
) -> Result<FormulaCases, ResolveFault>
    ensures reads { OnRead result (λ o. EachRead (FormulaCaseRead env.now ctx.old least it.now) left.old (members ts.now) [] o left.new) }
    ensures same { OnOk result (ctx.new ≡ ctx.old) }
{
    let mut out = FormulaCases::new(alloc);
    match read_all(alloc, env, ctx, least, it, ts, &mut out, left) {
        Ok(()) => Ok(out),
        Err(fault) => Err(fault),
    }
}

/// Reads the definiens of `otherwise` behind the cases, where there is one. The context is as before.
fn read_otherwise(
    alloc: Global,
    env: &Environment,
    ctx: &mut Context,
    least: u32,
    it: &Option<SoftType>,
    ks: FormulaCases,
    t: &Option<OtherwiseTree<FormulaTree>>,
    left: &mut Left,
) -> Result<FormulaDefiniens, ResolveFault>
    ensures reads { OnRead result (λ o. OtherwiseRead formula_shape (FormulaRead env.now (body_context ctx.old it.now) least) ks left.old t.now o left.new) }
    ensures same { OnOk result (ctx.new ≡ ctx.old) }
{
    match t {
        None => Ok(FormulaDefiniens::Cases(ks)),
        Some(t) => match read_body(alloc, env, ctx, least, it, &t.body, left) {
            Err(fault) => Err(fault),
            Ok(d) => Ok(FormulaDefiniens::CasesOtherwise(ks, d)),
        },
    }
}

/// Reads a definiens alone. The context is as before.
fn read_alone(
    alloc: Global,
    env: &Environment,
    ctx: &mut Context,
    least: u32,
    it: &Option<SoftType>,
    f: &FormulaTree,
    left: &mut Left,
) -> Result<FormulaDefiniens, ResolveFault>
    ensures reads { OnRead result (λ o. FormulasRead env.now ctx.old least it.now left.old (tree.Plain f.now) o left.new) }
    ensures same { OnOk result (ctx.new ≡ ctx.old) }
{
    match read_body(alloc, env, ctx, least, it, f, left) {
        Err(fault) => Err(fault),
        Ok(d) => Ok(FormulaDefiniens::Plain(d)),
    }
}

/// Reads cases and what stands behind `otherwise`. The context is as before.
#[tactic(auto, using(crate::proofs::EachLemmas::kept_rules))]
fn read_by_cases(
    alloc: Global,
    env: &Environment,
    ctx: &mut Context,
    least: u32,
    it: &Option<SoftType>,
    ts: &Separated<CaseTree<FormulaTree>>,
    t: &Option<OtherwiseTree<FormulaTree>>,
    left: &mut Left,
) -> Result<FormulaDefiniens, ResolveFault>
    ensures reads { OnRead result (λ o. FormulasRead env.now ctx.old least it.now left.old (tree.Cases ts.now t.now) o left.new) }
    ensures same { OnOk result (ctx.new ≡ ctx.old) }
{
    match read_cases(alloc, env, ctx, least, it, ts, left) {
        Err(fault) => Err(fault),
        Ok(ks) => read_otherwise(alloc, env, ctx, least, it, ks, t, left),
    }
}

/// Reads a definiens of formulas, in which `it` is of the type where there is one; it isn't known in the conditions of cases. No constant
/// below `least` may be used. The context is as before.
///
/// # Errors
/// The first refusal of a formula, in the order of the text; or there was no memory.
pub fn read_formulas(
    alloc: Global,
    env: &Environment,
    ctx: &mut Context,
    least: u32,
    it: &Option<SoftType>,
    t: &CasesTree<FormulaTree>,
    left: &mut Left,
) -> Result<FormulaDefiniens, ResolveFault>
    ensures reads { OnRead result (λ o. FormulasRead env.now ctx.old least it.now left.old t.now o left.new) }
    ensures same { OnOk result (ctx.new ≡ ctx.old) }
{
    match t {
        CasesTree::Plain(f) => read_alone(alloc, env, ctx, least, it, f, left),
        CasesTree::Cases { cases, otherwise } => {
            read_by_cases(alloc, env, ctx, least, it, cases, otherwise, left)
        }
    }
}
