//! Clauses of registrations.
ghost use Rattle.std.specs.Prelude.{◌≡◌, IfOk};
ghost use Rattle.mz_logic.specs.Term.{Bound};
ghost use Rattle.mz_core.specs.TypeShift.{shift_radix};
ghost use Rattle.mz_core.specs.Guard.{radix_literals};
ghost use Rattle.mz_clauses.specs.RegistrationClauses.{functorial_groups, conditional_atoms, conditional_groups, registered_equation_groups};

use crate::clause_groups::ClauseGroups;
use crate::definition_clauses::equation_groups;
use crate::groups::{group_if_any, one_group};
use crate::guards::{
    adjective_literals, adjectives_at_object, guard_at_object, guard_if_any, loci_guards, push_all,
    variable_count,
};
use crate::triggers::first_trigger;
use mz_core::adjectives::Adjectives;
use mz_core::guard::guard_literals;
use mz_core::registration::{
    ConditionalRegistration, EquationRegistration, FunctorialRegistration,
};
use mz_core::soft_type::SoftType;
use mz_core::type_shift::shift_type;
use mz_ground::trigger::Trigger;
use mz_logic::literals::Literals;
use mz_logic::term::Term;
use std::alloc::{AllocError, Global};

/// A functorial registration: where the guards of the loci hold and the term is of the type, it has the
/// adjectives.
pub fn functorial_groups(
    alloc: Global,
    r: &FunctorialRegistration,
) -> Result<ClauseGroups, AllocError>
    ensures { IfOk result (λ gs. gs ≡ functorial_groups r.now) }
{
    let variables = variable_count(&r.loci, 0)?;
    let trigger = Trigger::Term(r.term.copy(alloc)?);
    let mut premises = loci_guards(alloc, &r.loci, 0)?;
    push_all(&mut premises, guard_if_any(alloc, &r.ty, &r.term)?)?;
    let conclusions = adjective_literals(alloc, &r.adjectives, &r.term)?;
    one_group(alloc, variables, trigger, premises, conclusions)
}

/// The literal of the radix of a type that stands outside one variable, at this.
fn radix_at_object(alloc: Global, ty: &SoftType) -> Result<Literals, AllocError>
    ensures { IfOk result (λ ls. ls ≡ radix_literals (shift_radix 0 1 ty.now.radix) (Bound 0)) }
{
    let inner = shift_type(alloc, ty, 0, 1)?;
    let radix = inner.radix.copy(alloc)?;
    let bare = SoftType {
        adjectives: Adjectives::new(alloc),
        radix,
    };
    guard_literals(alloc, &bare, &Term::bound(0))
}

/// The atoms that may be the trigger of a conditional registration.
fn conditional_atoms(alloc: Global, r: &ConditionalRegistration) -> Result<Literals, AllocError>
    ensures { IfOk result (λ ls. ls ≡ conditional_atoms r.now) }
{
    let mut out = radix_at_object(alloc, &r.ty)?;
    push_all(&mut out, adjectives_at_object(alloc, &r.from)?)?;
    push_all(&mut out, adjectives_at_object(alloc, &r.to)?)?;
    Ok(out)
}

/// A conditional registration: where the guards of the loci hold, an object of the type that has the first
/// adjectives has the others. The trigger is the first of the radix' atom, the first adjectives' and the others' that
/// has all variables.
pub fn conditional_groups(
    alloc: Global,
    r: &ConditionalRegistration,
) -> Result<ClauseGroups, AllocError>
    ensures { IfOk result (λ gs. gs ≡ conditional_groups r.now) }
{
    let variables = variable_count(&r.loci, 1)?;
    let atoms = conditional_atoms(alloc, r)?;
    let trigger = first_trigger(alloc, variables, &atoms)?;
    let mut premises = loci_guards(alloc, &r.loci, 1)?;
    push_all(&mut premises, guard_at_object(alloc, &r.ty)?)?;
    push_all(&mut premises, adjectives_at_object(alloc, &r.from)?)?;
    let conclusions = adjectives_at_object(alloc, &r.to)?;
    group_if_any(alloc, variables, trigger, premises, conclusions)
}

/// A reduction or an identification: where the guards of the loci hold, the terms are equal.
pub fn registered_equation_groups(
    alloc: Global,
    r: &EquationRegistration,
) -> Result<ClauseGroups, AllocError>
    ensures { IfOk result (λ gs. gs ≡ registered_equation_groups r.now) }
{
    equation_groups(alloc, &r.loci, &r.left, &r.right)
}
