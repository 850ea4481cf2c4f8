//! Clauses of definitions and redefinitions.
ghost use Rattle.std.specs.Prelude.{◌≡◌, IfOk};
ghost use Rattle.mz_clauses.specs.DefinitionClauses.{functor_type_groups, new_functor_type_groups, mode_parent_groups, new_mode_parent_groups, equation_groups, equality_groups};

use crate::clause_groups::ClauseGroups;
use crate::groups::{group_if_any, one_group, one_literal};
use crate::guards::{guard_at_object, loci_guards, push_all, variable_count};
use crate::triggers::radix_trigger;
use mz_core::guard::guard_literals;
use mz_core::soft_type::SoftType;
use mz_core::soft_types::SoftTypes;
use mz_core::term_definiens::TermDefiniens;
use mz_core::type_shift::shift_type;
use mz_ground::trigger::Trigger;
use mz_logic::literal::Literal;
use mz_logic::term::Term;
use std::alloc::{AllocError, Global};

/// The type of a functor: where the guards of the loci hold, the term is of the type.
pub fn functor_type_groups(
    alloc: Global,
    loci: &SoftTypes,
    t: &Term,
    ty: &SoftType,
) -> Result<ClauseGroups, AllocError>
    ensures { IfOk result (λ gs. gs ≡ functor_type_groups loci.now t.now ty.now) }
{
    let variables = variable_count(loci, 0)?;
    let trigger = Trigger::Term(t.copy(alloc)?);
    let premises = loci_guards(alloc, loci, 0)?;
    let conclusions = guard_literals(alloc, ty, t)?;
    one_group(alloc, variables, trigger, premises, conclusions)
}

/// The same of the new type of a redefinition, if there is one.
pub fn new_functor_type_groups(
    alloc: Global,
    loci: &SoftTypes,
    t: &Term,
    ty: &Option<SoftType>,
) -> Result<ClauseGroups, AllocError>
    ensures { IfOk result (λ gs. gs ≡ new_functor_type_groups loci.now t.now ty.now) }
{
    match ty {
        None => Ok(ClauseGroups::new(alloc)),
        Some(ty) => functor_type_groups(alloc, loci, t, ty),
    }
}

/// The parent of a mode: where the guards of the loci hold, an object of the mode is of the type.
pub fn mode_parent_groups(
    alloc: Global,
    loci: &SoftTypes,
    mode: &SoftType,
    ty: &SoftType,
) -> Result<ClauseGroups, AllocError>
    ensures { IfOk result (λ gs. gs ≡ mode_parent_groups loci.now mode.now ty.now) }
{
    let variables = variable_count(loci, 1)?;
    let inner = shift_type(alloc, mode, 0, 1)?;
    let trigger = radix_trigger(alloc, &inner.radix, &Term::bound(0))?;
    let mut premises = loci_guards(alloc, loci, 1)?;
    push_all(&mut premises, guard_at_object(alloc, mode)?)?;
    let conclusions = guard_at_object(alloc, ty)?;
    group_if_any(alloc, variables, trigger, premises, conclusions)
}

/// The same of the new type of a redefinition, if there is one.
pub fn new_mode_parent_groups(
    alloc: Global,
    loci: &SoftTypes,
    mode: &SoftType,
    ty: &Option<SoftType>,
) -> Result<ClauseGroups, AllocError>
    ensures { IfOk result (λ gs. gs ≡ new_mode_parent_groups loci.now mode.now ty.now) }
{
    match ty {
        None => Ok(ClauseGroups::new(alloc)),
        Some(ty) => mode_parent_groups(alloc, loci, mode, ty),
    }
}

/// Two terms that are equal where the guards of the loci hold.
pub fn equation_groups(
    alloc: Global,
    loci: &SoftTypes,
    t: &Term,
    u: &Term,
) -> Result<ClauseGroups, AllocError>
    ensures { IfOk result (λ gs. gs ≡ equation_groups loci.now t.now u.now) }
{
    let variables = variable_count(loci, 0)?;
    let trigger = Trigger::Term(t.copy(alloc)?);
    let premises = loci_guards(alloc, loci, 0)?;
    let left = t.copy(alloc)?;
    let right = u.copy(alloc)?;
    let conclusions = one_literal(
        alloc,
        Literal::Eq {
            positive: true,
            left,
            right,
        },
    )?;
    one_group(alloc, variables, trigger, premises, conclusions)
}

/// The equality of a definition by `equals` without cases.
pub fn equality_groups(
    alloc: Global,
    loci: &SoftTypes,
    t: &Term,
    d: &TermDefiniens,
) -> Result<ClauseGroups, AllocError>
    ensures { IfOk result (λ gs. gs ≡ equality_groups loci.now t.now d.now) }
{
    match d {
        TermDefiniens::Plain(u) => equation_groups(alloc, loci, t, u),
        TermDefiniens::Cases(_) => Ok(ClauseGroups::new(alloc)),
        TermDefiniens::CasesOtherwise(_, _) => Ok(ClauseGroups::new(alloc)),
    }
}
