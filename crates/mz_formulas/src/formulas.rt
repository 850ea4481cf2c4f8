//! What formulas are read to, or the first refusal in the order of the reading.
ghost use Rattle.std.specs.Prelude.{◌≡◌, List, ◌∷◌, map, Result, Ok, IfOk};
ghost use Rattle.mz_core.specs.Statement.{Statement};
ghost use Rattle.mz_names.specs.declared.refusal.Refusal.{Refusal};
ghost use Rattle.mz_choice.specs.Fresh.{Grown};
ghost use Rattle.mz_tree.specs.Trees.{UnitData, ConjunctionData};
ghost use Rattle.mz_tree.specs.Views.{formula_of, disjunction_of, conjunction_of, unit_of, quantified_of, declared_of};
ghost use Rattle.mz_formulas.specs.Declarations.{declared_tree};
ghost use Rattle.mz_formulas.specs.Formulas.{declared_in, bound_by, ReadsFormula, ReadsDisjunction, ReadsDisjuncts, ReadsConjunction, ReadsConjuncts, ReadsUnit, ReadsQuantified, ReadsBody};

use crate::atoms::{read_is_adjectives, read_is_type, read_predicate, read_private};
use crate::declared::read_declared;
use mz_base::place::Place;
use mz_choice::fresh::{keep, next_number};
use mz_context::context::Context;
use mz_core::statement::Statement;
use mz_environment::environment::Environment;
use mz_joined::bound::{for_all_within, there_are_within};
use mz_joined::joined::{conjoined, denied, disjoined, equated, implied, thesis_at, under};
use mz_names::refusal::Refusal;
use mz_names::variable::Variable;
use mz_tree::chain::Next;
use mz_tree::nodes::{
    ConjunctionNode, DeclarationsNode, DisjunctionNode, FormulaNode, QuantifiedNode, UnitNode,
};
use mz_tree::places::first_place_of_disjunction;
use std::alloc::{AllocError, Global};

#[tactic(auto, using(crate::proofs::QuantifiedLemmas::declared_rules))]
fn declared_in(node: &QuantifiedNode) -> &DeclarationsNode
    ensures { declared_in (quantified_of node.now) ≡ declared_of result.now.first ∷ map declared_tree result.now.more.items }
{
    match node {
        QuantifiedNode::For(_, ds, _, _) => ds,
        QuantifiedNode::ForSuch(_, ds, _, _, _, _) => ds,
        QuantifiedNode::ForFurther(_, ds, _) => ds,
        QuantifiedNode::ForSuchFurther(_, ds, _, _, _) => ds,
        QuantifiedNode::Exists(_, ds, _, _) => ds,
    }
}

/// The variables, which are the constants from n on, bound by the quantifier.
#[tactic(auto, using(crate::proofs::QuantifiedLemmas::bound_rules))]
fn quantifier(
    alloc: Global,
    node: &QuantifiedNode,
    n: u32,
    vs: &[Variable],
    s: Statement,
) -> Result<Result<Statement, Refusal>, AllocError>
    ensures { IfOk result (λ o. o ≡ bound_by (quantified_of node.now) n vs.now (Ok s)) }
{
    match node {
        QuantifiedNode::For(p, _, _, _) => for_all_within(alloc, *p, n, vs, s),
        QuantifiedNode::ForSuch(p, _, _, _, _, _) => for_all_within(alloc, *p, n, vs, s),
        QuantifiedNode::ForFurther(p, _, _) => for_all_within(alloc, *p, n, vs, s),
        QuantifiedNode::ForSuchFurther(p, _, _, _, _) => for_all_within(alloc, *p, n, vs, s),
        QuantifiedNode::Exists(p, _, _, _) => there_are_within(alloc, *p, n, vs, s),
    }
}

/// The statement that the formula is read to. The context is as before.
///
/// Refusals: the first in the order of the text; `TooLarge` at the first token of a formula, the innermost first.
#[cycle(formulas)]
#[tactic(auto, using(crate::proofs::FormulaLemmas::formula_rules))]
pub fn read_formula(
    alloc: Global,
    env: &Environment,
    ctx: &mut Context,
    least: u32,
    node: &FormulaNode,
) -> Result<Result<Statement, Refusal>, AllocError>
    ensures reads { IfOk result (λ o. ReadsFormula env.now least ctx.old (formula_of node.now) o) }
    ensures same { ctx.new ≡ ctx.old }
{
    match node {
        FormulaNode::Plain(d) => {
            let o = read_disjunction(alloc, env, ctx, least, d)?;
            Ok(o)
        }
        FormulaNode::Implies(d, _, f) => match read_disjunction(alloc, env, ctx, least, d)? {
            Err(r) => Ok(Err(r)),
            Ok(s) => {
                let left = Box::new(alloc, s)?;
                let p = read_disjunction(alloc, env, ctx, least, f)?;
                let first = first_place_of_disjunction(d);
                let o = implied(alloc, first, Box::into_inner(left), p)?;
                Ok(o)
            }
        },
        FormulaNode::Iff(d, _, f) => match read_disjunction(alloc, env, ctx, least, d)? {
            Err(r) => Ok(Err(r)),
            Ok(s) => {
                let left = Box::new(alloc, s)?;
                let p = read_disjunction(alloc, env, ctx, least, f)?;
                let first = first_place_of_disjunction(d);
                let o = equated(alloc, first, Box::into_inner(left), p)?;
                Ok(o)
            }
        },
    }
}

/// Conjunctions with `or` between them.
#[cycle(formulas)]
#[tactic(auto, using(crate::proofs::ChainLemmas::disjunction_rules))]
fn read_disjunction(
    alloc: Global,
    env: &Environment,
    ctx: &mut Context,
    least: u32,
    node: &DisjunctionNode,
) -> Result<Result<Statement, Refusal>, AllocError>
    ensures reads { IfOk result (λ o. ReadsDisjunction env.now least ctx.old (disjunction_of node.now) o) }
    ensures same { ctx.new ≡ ctx.old }
{
    let first = node.first.first_place();
    let mut so_far = read_conjunction(alloc, env, ctx, least, &node.first)?;
    for next in &node.more {
        match so_far {
            Err(r) => return Ok(Err(r)),
            Ok(s) => so_far = or_conjunction(alloc, env, ctx, least, first, &next.tree, s)?,
        }
    }
    Ok(so_far)
}

/// One disjunct more, joined to what was read so far.
#[cycle(formulas)]
#[tactic(auto, using(crate::proofs::ChainLemmas::join_rules))]
fn or_conjunction(
    alloc: Global,
    env: &Environment,
    ctx: &mut Context,
    least: u32,
    first: Place,
    node: &ConjunctionNode,
    s: Statement,
) -> Result<Result<Statement, Refusal>, AllocError>
    ensures reads { IfOk result (λ q. (ks : List ConjunctionData) (o : Result Statement Refusal) → ReadsDisjuncts env.now least first ctx.old ks q o → ReadsDisjuncts env.now least first ctx.old (conjunction_of node.now ∷ ks) (Ok s) o) }
    ensures same { ctx.new ≡ ctx.old }
{
    let so_far = Box::new(alloc, s)?;
    let p = read_conjunction(alloc, env, ctx, least, node)?;
    let o = disjoined(alloc, first, Box::into_inner(so_far), p)?;
    Ok(o)
}

/// Units with `&` between them.
#[cycle(formulas)]
#[tactic(auto, using(crate::proofs::ChainLemmas::conjunction_rules))]
fn read_conjunction(
    alloc: Global,
    env: &Environment,
    ctx: &mut Context,
    least: u32,
    node: &ConjunctionNode,
) -> Result<Result<Statement, Refusal>, AllocError>
    ensures reads { IfOk result (λ o. ReadsConjunction env.now least ctx.old (conjunction_of node.now) o) }
    ensures same { ctx.new ≡ ctx.old }
{
    let first = node.first.first_place();
    let mut so_far = read_unit(alloc, env, ctx, least, &node.first)?;
    for next in &node.more {
        match so_far {
            Err(r) => return Ok(Err(r)),
            Ok(s) => so_far = and_unit(alloc, env, ctx, least, first, &next.tree, s)?,
        }
    }
    Ok(so_far)
}

/// One conjunct more, joined to what was read so far.
#[cycle(formulas)]
#[tactic(auto, using(crate::proofs::ChainLemmas::join_rules))]
fn and_unit(
    alloc: Global,
    env: &Environment,
    ctx: &mut Context,
    least: u32,
    first: Place,
    node: &UnitNode,
    s: Statement,
) -> Result<Result<Statement, Refusal>, AllocError>
    ensures reads { IfOk result (λ q. (us : List UnitData) (o : Result Statement Refusal) → ReadsConjuncts env.now least first ctx.old us q o → ReadsConjuncts env.now least first ctx.old (unit_of node.now ∷ us) (Ok s) o) }
    ensures same { ctx.new ≡ ctx.old }
{
    let so_far = Box::new(alloc, s)?;
    let p = read_unit(alloc, env, ctx, least, node)?;
    let o = conjoined(alloc, first, Box::into_inner(so_far), p)?;
    Ok(o)
}

/// A formula without chains.
#[cycle(formulas)]
#[tactic(auto, using(crate::proofs::FormulaLemmas::unit_rules))]
fn read_unit(
    alloc: Global,
    env: &Environment,
    ctx: &mut Context,
    least: u32,
    node: &UnitNode,
) -> Result<Result<Statement, Refusal>, AllocError>
    ensures reads { IfOk result (λ o. ReadsUnit env.now least ctx.old (unit_of node.now) o) }
    ensures same { ctx.new ≡ ctx.old }
{
    match node {
        UnitNode::Not(p, u) => {
            let q = read_unit(alloc, env, ctx, least, u)?;
            Ok(denied(alloc, *p, q)?)
        }
        UnitNode::Contradiction(_) => {
            let s = Statement::not(alloc, Statement::truth())?;
            Ok(Ok(s))
        }
        UnitNode::Thesis(p) => Ok(thesis_at(alloc, *p, &ctx.thesis)?),
        UnitNode::Quantified(q) => Ok(read_quantified(alloc, env, ctx, least, q)?),
        UnitNode::Group(_, f, _) => Ok(read_formula(alloc, env, ctx, least, f)?),
        UnitNode::Private(w, _, _) => Ok(read_private(alloc, env, ctx, least, w, None)?),
        UnitNode::PrivateWith(w, _, ts, _) => {
            let o = read_private(alloc, env, ctx, least, w, Some(ts))?;
            Ok(o)
        }
        UnitNode::Predicate(w) => Ok(read_predicate(alloc, env, ctx, least, None, w, None)?),
        UnitNode::PredicateRight(w, us) => {
            let o = read_predicate(alloc, env, ctx, least, None, w, Some(us))?;
            Ok(o)
        }
        UnitNode::PredicateLeft(ts, w) => {
            let o = read_predicate(alloc, env, ctx, least, Some(ts), w, None)?;
            Ok(o)
        }
        UnitNode::PredicateBoth(ts, w, us) => {
            let o = read_predicate(alloc, env, ctx, least, Some(ts), w, Some(us))?;
            Ok(o)
        }
        UnitNode::IsType(t, _, ty) => {
            let o = read_is_type(alloc, env, ctx, least, t, ty)?;
            Ok(o)
        }
        UnitNode::IsAdjectives(t, _, a, xs) => {
            let o = read_is_adjectives(alloc, env, ctx, least, t, a, xs.as_slice())?;
            Ok(o)
        }
    }
}

/// A quantified formula.
#[cycle(formulas)]
#[tactic(auto, using(crate::proofs::QuantifiedLemmas::scope_rules))]
fn read_quantified(
    alloc: Global,
    env: &Environment,
    ctx: &mut Context,
    least: u32,
    node: &QuantifiedNode,
) -> Result<Result<Statement, Refusal>, AllocError>
    ensures reads { IfOk result (λ o. ReadsQuantified env.now least ctx.old (quantified_of node.now) o) }
    ensures same { ctx.new ≡ ctx.old }
{
    let count = ctx.constants.items.len();
    match read_scope(alloc, env, ctx, least, node) {
        Ok(o) => {
            keep(ctx, count);
            Ok(o)
        }
        Err(e) => {
            keep(ctx, count);
            Err(e)
        }
    }
}

/// A quantified formula, whose variables stay in force.
#[cycle(formulas)]
#[tactic(auto, using(crate::proofs::QuantifiedLemmas::quantified_rules))]
fn read_scope(
    alloc: Global,
    env: &Environment,
    ctx: &mut Context,
    least: u32,
    node: &QuantifiedNode,
) -> Result<Result<Statement, Refusal>, AllocError>
    ensures reads { IfOk result (λ o. ReadsQuantified env.now least ctx.old (quantified_of node.now) o) }
    ensures grown { Grown ctx.old ctx.new }
{
    let n = next_number(ctx)?;
    match read_declared(alloc, env, ctx, least, declared_in(node))? {
        Err(r) => Ok(Err(r)),
        Ok(vs) => match read_body(alloc, env, ctx, least, node)? {
            Err(r) => Ok(Err(r)),
            Ok(s) => {
                let o = quantifier(alloc, node, n, vs.items.as_slice(), s)?;
                Ok(o)
            }
        },
    }
}

/// What stands behind a quantifier's declarations.
#[cycle(formulas)]
#[tactic(auto, using(crate::proofs::QuantifiedLemmas::body_rules))]
fn read_body(
    alloc: Global,
    env: &Environment,
    ctx: &mut Context,
    least: u32,
    node: &QuantifiedNode,
) -> Result<Result<Statement, Refusal>, AllocError>
    ensures reads { IfOk result (λ o. ReadsBody env.now least ctx.old (quantified_of node.now) o) }
    ensures same { ctx.new ≡ ctx.old }
{
    match node {
        QuantifiedNode::For(_, _, _, f) => {
            let o = read_formula(alloc, env, ctx, least, f)?;
            Ok(o)
        }
        QuantifiedNode::Exists(_, _, _, f) => {
            let o = read_formula(alloc, env, ctx, least, f)?;
            Ok(o)
        }
        QuantifiedNode::ForFurther(_, _, q) => {
            let o = read_quantified(alloc, env, ctx, least, q)?;
            Ok(o)
        }
        QuantifiedNode::ForSuch(_, _, _, f, _, g) => {
            match read_formula(alloc, env, ctx, least, f)? {
                Err(r) => Ok(Err(r)),
                Ok(s) => {
                    let condition = Box::new(alloc, s)?;
                    let p = read_formula(alloc, env, ctx, least, g)?;
                    let o = under(alloc, Box::into_inner(condition), p)?;
                    Ok(o)
                }
            }
        }
        QuantifiedNode::ForSuchFurther(_, _, _, f, q) => {
            match read_formula(alloc, env, ctx, least, f)? {
                Err(r) => Ok(Err(r)),
                Ok(s) => {
                    let condition = Box::new(alloc, s)?;
                    let p = read_quantified(alloc, env, ctx, least, q)?;
                    let o = under(alloc, Box::into_inner(condition), p)?;
                    Ok(o)
                }
            }
        }
    }
}
