//! What a goal branches into.
ghost use Rattle.std.specs.Prelude.{◌≡◌, ◌++◌, ◌∷◌, [], true, false, None, map, length, IfOk, OnOk, ◌<◌};
ghost use Rattle.std.specs.List.{AllByRecursion};
ghost use Rattle.mz_logic.specs.Formula.{And};
ghost use Rattle.mz_match.specs.Literals.{IsLiteral};
ghost use Rattle.mz_search.specs.Goals.{Refute, known};
ghost use Rattle.mz_search.specs.States.{AreBranches, AreTaken, IsPart, IsPushed, state_of};

use crate::branch::{Branch, one_goal, only, two_goals, with_goal};
use crate::goal::goal_under;
use crate::hopeless::may_refute;
use mz_logic::formula::{Formula, FormulaNode};
use mz_logic::formulas::Formulas;
use mz_match::assignment::Assignment;
use mz_match::assignments::Assignments;
use mz_match::literals::match_literal;
use mz_match::table::Table;
use std::alloc::{AllocError, Global};

/// The branches of a goal: for a literal those that match it, for a conjunction its parts that may be refuted, else one.
#[tactic(auto, using(crate::proofs::BranchLemmas::branch_rules))]
pub fn branches<'a>(
    alloc: Global,
    table: &Table,
    values: &[usize],
    universals: &Formulas,
    scope: &[usize],
    positive: bool,
    f: &'a Formula,
    e: &Assignment,
) -> Result<Vec<Branch<'a>>, AllocError>
    requires { AllByRecursion (λ i. i < length e.now) scope.now }
    ensures { IfOk result (λ bs. AreBranches (known table.now values.now universals.now) (Refute scope.now positive f.now) e.now (map state_of bs.items)) }
{
    match (positive, &f.node) {
        (_, FormulaNode::Not(g)) => {
            let out = one_goal(alloc, scope, !positive, g, e)?;
            Ok(out)
        }
        (true, FormulaNode::And(g, h)) => {
            let out = either(alloc, table, values, universals, scope, g, h, e)?;
            Ok(out)
        }
        (false, FormulaNode::And(g, h)) => {
            let out = two_goals(alloc, scope, g, h, e)?;
            Ok(out)
        }
        (true, FormulaNode::All(b)) => {
            let out = body(alloc, scope, b, e)?;
            Ok(out)
        }
        _ => matched(alloc, table, values, universals, scope, positive, f, e),
    }
}

/// The body of a universal, under one more variable.
fn body<'a>(
    alloc: Global,
    scope: &[usize],
    b: &'a Formula,
    e: &Assignment,
) -> Result<Vec<Branch<'a>>, AllocError>
    ensures { IfOk result (λ bs. map state_of bs.items ≡ (Refute (length e.now ∷ scope.now) true b.now ∷ [], e.now ++ None ∷ []) ∷ []) }
{
    let goal = goal_under(alloc, e.slots.len(), scope, true, b)?;
    let assignment = e.push_variable(alloc)?;
    let branch = with_goal(alloc, goal, assignment)?;
    only(alloc, branch)
}

/// The parts of a conjunction that may be refuted.
#[tactic(auto, using(crate::proofs::BranchLemmas::branch_rules))]
fn either<'a>(
    alloc: Global,
    table: &Table,
    values: &[usize],
    universals: &Formulas,
    scope: &[usize],
    g: &'a Formula,
    h: &'a Formula,
    e: &Assignment,
) -> Result<Vec<Branch<'a>>, AllocError>
    requires { AllByRecursion (λ i. i < length e.now) scope.now }
    ensures { IfOk result (λ bs. AreBranches (known table.now values.now universals.now) (Refute scope.now true (And g.now h.now)) e.now (map state_of bs.items)) }
{
    let mut out = part(alloc, table, values, universals, scope, g, e)?;
    let mut second = part(alloc, table, values, universals, scope, h, e)?;
    out.append(&mut second)?;
    Ok(out)
}

/// A part of a conjunction, where it may be refuted.
#[tactic(auto, using(crate::proofs::BranchLemmas::part_rules))]
fn part<'a>(
    alloc: Global,
    table: &Table,
    values: &[usize],
    universals: &Formulas,
    scope: &[usize],
    f: &'a Formula,
    e: &Assignment,
) -> Result<Vec<Branch<'a>>, AllocError>
    ensures { IfOk result (λ bs. IsPart (known table.now values.now universals.now) (Refute scope.now true f.now) e.now (map state_of bs.items)) }
{
    let local = e.at_places(alloc, scope)?;
    let single = Assignments::single(alloc, local)?;
    if may_refute(alloc, table, values, universals, true, f, &single)? {
        let out = one_goal(alloc, scope, true, f, e)?;
        Ok(out)
    } else {
        Ok(Vec::new(alloc))
    }
}

/// The branches of a literal, without goals.
#[tactic(auto, using(crate::proofs::BranchLemmas::matched_rules))]
fn matched<'a>(
    alloc: Global,
    table: &Table,
    values: &[usize],
    universals: &Formulas,
    scope: &[usize],
    positive: bool,
    f: &Formula,
    e: &Assignment,
) -> Result<Vec<Branch<'a>>, AllocError>
    requires literal { IsLiteral positive f.now }
    requires within { AllByRecursion (λ i. i < length e.now) scope.now }
    ensures { IfOk result (λ bs. AreBranches (known table.now values.now universals.now) (Refute scope.now positive f.now) e.now (map state_of bs.items)) }
{
    let local = e.at_places(alloc, scope)?;
    let single = Assignments::single(alloc, local)?;
    let found = match_literal(alloc, table, values, universals, positive, f, &single)?;
    let out = taken_over(alloc, scope, e, &found)?;
    Ok(out)
}

/// The branches that take over the classes of one of the assignments.
fn taken_over<'a>(
    alloc: Global,
    scope: &[usize],
    e: &Assignment,
    found: &Assignments,
) -> Result<Vec<Branch<'a>>, AllocError>
    requires { AllByRecursion (λ i. i < length e.now) scope.now }
    ensures { IfOk result (λ bs. AreTaken scope.now e.now found.now (map state_of bs.items)) }
{
    let mut out = Vec::new(alloc);
    for l in &found.items {
        push_taken(alloc, &mut out, scope, e, l)?;
    }
    Ok(out)
}

#[tactic(auto, using(crate::proofs::BranchLemmas::taken_rules))]
fn push_taken<'a>(
    alloc: Global,
    out: &mut Vec<Branch<'a>>,
    scope: &[usize],
    e: &Assignment,
    l: &Assignment,
) -> Result<(), AllocError>
    requires { AllByRecursion (λ i. i < length e.now) scope.now }
    ensures { OnOk result (IsPushed scope.now e.now l.now (map state_of out.old.items) (map state_of out.new.items)) }
{
    let mut assignment = e.copy(alloc)?;
    if assignment.bind_all(scope, l) {
        let goals = Vec::new(alloc);
        out.push(Branch { goals, assignment })?;
        Ok(())
    } else {
        Ok(())
    }
}
