//! The splitting of a formula and of a problem.
ghost use Rattle.std.specs.Prelude.{◌≡◌, ℕ, IfOk};
ghost use Rattle.mz_logic.specs.Term.{Const};
ghost use Rattle.mz_logic.specs.Formula.{And};
ghost use Rattle.mz_logic.specs.Substitution.{body_at};
ghost use Rattle.mz_nf.specs.Constants.{has};
ghost use Rattle.mz_nf.specs.Splits.{Splits, SplitsAll, AreDisjuncts};
ghost use Rattle.mz_nf.specs.Takes.{Takes};

use crate::constants::{constants_of, following, least_unused};
use crate::count::has_no_pair;
use crate::problem::Problem;
use crate::product::{combined, product};
use crate::single::{nothing_said, of_atom, of_equation, of_truth, of_universal};
use mz_logic::disjuncts::Disjuncts;
use mz_logic::formula::{Formula, FormulaNode};
use mz_logic::formulas::Formulas;
use mz_logic::substitution::body_at;
use mz_logic::term::Term;
use std::alloc::{AllocError, Global};
use std::collections::HashSet;

/// Disjuncts, and the number from which further constants are taken.
#[derive(Drop)]
pub struct Splitting {
    pub disjuncts: Disjuncts,
    pub next: u32,
}

/// The disjuncts of a problem that has some.
#[tactic(auto, using(crate::proofs::SplitLemmas::problem_rules))]
pub fn split_problem(alloc: Global, p: &Problem) -> Result<Disjuncts, AllocError>
    ensures { IfOk result (λ ds. AreDisjuncts p.now ds) }
{
    let used = constants_of(alloc, p)?;
    let premises = split_all(alloc, &used, &p.premises)?;
    let conclusion = split(alloc, &used, false, true, &p.conclusion, premises.next)?;
    let disjuncts = product(alloc, premises.disjuncts, &conclusion.disjuncts)?;
    Ok(disjuncts)
}

/// The disjuncts of the formulas as one conjunction, constants from 1 on.
#[tactic(auto, using(crate::proofs::SplitLemmas::list_rules))]
fn split_all(alloc: Global, used: &HashSet<u32>, fs: &Formulas) -> Result<Splitting, AllocError>
    ensures { IfOk result (λ s. SplitsAll (has used.now) fs.now 1 s.disjuncts s.next) }
{
    let mut disjuncts = nothing_said(alloc)?;
    let mut next = 1;
    for f in &fs.items {
        let part = split(alloc, used, true, true, f, next)?;
        let more = product(alloc, disjuncts, &part.disjuncts)?;
        disjuncts = more;
        next = part.next;
    }
    Ok(Splitting { disjuncts, next })
}

/// The disjuncts of the formula, or where `positive` is false of its negation, constants from `next` on. With
/// `counted` it is known that there are some, so that none are counted again.
#[cycle(split)]
#[tactic(auto, using(crate::proofs::SplitLemmas::split_rules))]
fn split(
    alloc: Global,
    used: &HashSet<u32>,
    positive: bool,
    counted: bool,
    f: &Formula,
    next: u32,
) -> Result<Splitting, AllocError>
    ensures { IfOk result (λ s. Splits (has used.now) positive f.now next s.disjuncts s.next) }
{
    match &f.node {
        FormulaNode::Truth => {
            let disjuncts = of_truth(alloc, positive)?;
            Ok(Splitting { disjuncts, next })
        }
        FormulaNode::Eq(t, u) => {
            let disjuncts = of_equation(alloc, positive, t, u)?;
            Ok(Splitting { disjuncts, next })
        }
        FormulaNode::Atom(s, ts) => {
            let disjuncts = of_atom(alloc, positive, *s, ts)?;
            Ok(Splitting { disjuncts, next })
        }
        FormulaNode::Not(g) => split(alloc, used, !positive, counted, g, next),
        FormulaNode::And(g, h) => {
            let pair = split_conjunction(alloc, used, positive, counted, g, h, next)?;
            Ok(pair)
        }
        FormulaNode::All(b) => {
            if positive {
                let disjuncts = of_universal(alloc, f)?;
                Ok(Splitting { disjuncts, next })
            } else {
                let number = least_unused(used, next)?;
                let after = following(number)?;
                let at = at_constant(alloc, b, number)?;
                split(alloc, used, false, counted, &at, after)
            }
        }
    }
}

/// The disjuncts of the conjunction of both, or where `positive` is false of its negation, constants from
/// `next` on.
///
/// A conjunction without disjuncts is not split: only its constants are taken. So no more disjuncts
/// are made on the way than there are at the end. Where one has disjuncts, both of its parts have.
#[cycle(split)]
#[tactic(auto, using(crate::proofs::SplitLemmas::pair_rules))]
fn split_conjunction(
    alloc: Global,
    used: &HashSet<u32>,
    positive: bool,
    counted: bool,
    g: &Formula,
    h: &Formula,
    next: u32,
) -> Result<Splitting, AllocError>
    ensures { IfOk result (λ s. Splits (has used.now) positive (And g.now h.now) next s.disjuncts s.next) }
{
    if positive && !counted && has_no_pair(g, h) {
        let between = passed(used, true, g, next)?;
        let next = passed(used, true, h, between)?;
        let disjuncts = Disjuncts::new(alloc);
        return Ok(Splitting { disjuncts, next });
    }
    let left = split(alloc, used, positive, positive, g, next)?;
    let right = split(alloc, used, positive, positive, h, left.next)?;
    let disjuncts = combined(alloc, positive, left.disjuncts, &right.disjuncts)?;
    Ok(Splitting {
        disjuncts,
        next: right.next,
    })
}

/// The number from which constants are taken behind those of the formula.
#[tactic(auto, using(crate::proofs::SplitLemmas::takes_rules))]
fn passed(used: &HashSet<u32>, positive: bool, f: &Formula, next: u32) -> Result<u32, AllocError>
    ensures { IfOk result (λ m. Takes (has used.now) positive f.now next m) }
{
    match &f.node {
        FormulaNode::Truth => Ok(next),
        FormulaNode::Eq(_, _) => Ok(next),
        FormulaNode::Atom(_, _) => Ok(next),
        FormulaNode::Not(g) => passed(used, !positive, g, next),
        FormulaNode::And(g, h) => {
            let next = passed(used, positive, g, next)?;
            passed(used, positive, h, next)
        }
        FormulaNode::All(b) => {
            if positive {
                Ok(next)
            } else {
                let number = least_unused(used, next)?;
                let after = following(number)?;
                let end = passed(used, false, b, after)?;
                Ok(end)
            }
        }
    }
}

/// The body of a quantifier at a constant.
fn at_constant(alloc: Global, body: &Formula, number: u32) -> Result<Formula, AllocError>
    ensures { IfOk result (λ f. f ≡ body_at body.now (Const number)) }
{
    let constant = Term::constant(number);
    body_at(alloc, body, &constant)
}
