//! Groups of clauses, and the clauses of groups.
ghost use Rattle.std.specs.Prelude.{◌≡◌, ◌++◌, ◌∷◌, [], IfOk, OnOk, flat_map};
ghost use Rattle.mz_clauses.specs.Groups.{one_group, group_if_any, clause_if_triggered, group_clauses, groups_clauses};

use crate::clause_groups::{ClauseGroup, ClauseGroups};
use mz_ground::clause::Clause;
use mz_ground::clauses::Clauses;
use mz_ground::trigger::Trigger;
use mz_logic::literal::Literal;
use mz_logic::literals::Literals;
use std::alloc::{AllocError, Global};

/// One literal.
pub fn one_literal(alloc: Global, l: Literal) -> Result<Literals, AllocError>
    ensures { IfOk result (λ ls. ls ≡ l ∷ []) }
{
    let mut out = Literals::new(alloc);
    out.push(l)?;
    Ok(out)
}

/// One group.
pub fn one_group(
    alloc: Global,
    variables: u32,
    trigger: Trigger,
    premises: Literals,
    conclusions: Literals,
) -> Result<ClauseGroups, AllocError>
    ensures { IfOk result (λ gs. gs ≡ one_group variables trigger premises conclusions) }
{
    let mut out = ClauseGroups::new(alloc);
    out.push(ClauseGroup {
        variables,
        trigger,
        premises,
        conclusions,
    })?;
    Ok(out)
}

/// One group, where there is a trigger.
pub fn group_if_any(
    alloc: Global,
    variables: u32,
    trigger: Option<Trigger>,
    premises: Literals,
    conclusions: Literals,
) -> Result<ClauseGroups, AllocError>
    ensures { IfOk result (λ gs. gs ≡ group_if_any variables trigger premises conclusions) }
{
    match trigger {
        None => Ok(ClauseGroups::new(alloc)),
        Some(r) => one_group(alloc, variables, r, premises, conclusions),
    }
}

/// Puts the groups at the end.
pub fn push_groups(out: &mut ClauseGroups, gs: ClauseGroups) -> Result<(), AllocError>
    ensures { OnOk result (out.new ≡ out.old ++ gs) }
{
    for g in gs.items {
        out.push(g)?;
    }
    Ok(())
}

/// Puts the group's clause with the conclusion at the end, where its trigger has each variable.
#[tactic(auto, using(crate::proofs::GroupLemmas::clause_rules))]
fn push_clause(
    alloc: Global,
    out: &mut Clauses,
    g: &ClauseGroup,
    conclusion: &Literal,
) -> Result<(), AllocError>
    ensures { OnOk result (out.new ≡ out.old ++ clause_if_triggered g.now.variables g.now.trigger g.now.premises conclusion.now) }
{
    let trigger = g.trigger.copy(alloc)?;
    let premises = g.premises.copy(alloc)?;
    let conclusion = conclusion.copy(alloc)?;
    match Clause::new(g.variables, trigger, premises, conclusion) {
        None => Ok(()),
        Some(c) => {
            out.push(c)?;
            Ok(())
        }
    }
}

/// Puts the clauses of a group at the end.
fn push_group(alloc: Global, out: &mut Clauses, g: &ClauseGroup) -> Result<(), AllocError>
    ensures { OnOk result (out.new ≡ out.old ++ group_clauses g.now) }
{
    for c in &g.conclusions.items {
        push_clause(alloc, out, g, c)?;
    }
    Ok(())
}

/// Puts the clauses of groups at the end.
pub fn push_clauses(alloc: Global, out: &mut Clauses, gs: &ClauseGroups) -> Result<(), AllocError>
    ensures { OnOk result (out.new ≡ out.old ++ groups_clauses gs.now) }
{
    for g in &gs.items {
        push_group(alloc, out, g)?;
    }
    Ok(())
}
