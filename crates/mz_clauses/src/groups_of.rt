//! The groups of clauses that an item gives.
ghost use Rattle.std.specs.Prelude.{◌≡◌, ◌++◌, IfOk};
ghost use Rattle.mz_items.specs.Loci.{term_on, mode_on};
ghost use Rattle.mz_clauses.specs.DefinitionClauses.{functor_type_groups, mode_parent_groups, equality_groups};
ghost use Rattle.mz_clauses.specs.StructureClauses.{part_groups, aggregate_groups};
ghost use Rattle.mz_clauses.specs.Clauses.{groups_of, letter_groups};

use crate::clause_groups::ClauseGroups;
use crate::definition_clauses::{
    equality_groups, functor_type_groups, mode_parent_groups, new_functor_type_groups,
    new_mode_parent_groups,
};
use crate::groups::push_groups;
use crate::property_clauses::property_groups;
use crate::registration_clauses::{
    conditional_groups, functorial_groups, registered_equation_groups,
};
use crate::structure_clauses::{aggregate_groups, part_groups, strict_groups};
use mz_core::definition::EqualsDefinition;
use mz_core::item::Item;
use mz_core::scheme::SchemeLetter;
use mz_core::soft_type::SoftType;
use mz_core::soft_types::SoftTypes;
use mz_core::structure::Structure;
use mz_items::loci::{mode_on, term_on};
use mz_logic::sym::Sym;
use std::alloc::{AllocError, Global};

fn functor_groups(
    alloc: Global,
    loci: &SoftTypes,
    s: Sym,
    ty: &SoftType,
) -> Result<ClauseGroups, AllocError>
    ensures { IfOk result (λ gs. gs ≡ functor_type_groups loci.now (term_on loci.now s) ty.now) }
{
    let t = term_on(alloc, loci, s)?;
    functor_type_groups(alloc, loci, &t, ty)
}

fn mode_groups(
    alloc: Global,
    loci: &SoftTypes,
    s: Sym,
    ty: &SoftType,
) -> Result<ClauseGroups, AllocError>
    ensures { IfOk result (λ gs. gs ≡ mode_parent_groups loci.now (mode_on loci.now s) ty.now) }
{
    let mode = mode_on(alloc, loci, s)?;
    mode_parent_groups(alloc, loci, &mode, ty)
}

fn structure_groups(alloc: Global, s: &Structure) -> Result<ClauseGroups, AllocError>
    ensures { IfOk result (λ gs. gs ≡ part_groups s.now ++ aggregate_groups s.now) }
{
    let mut out = part_groups(alloc, s)?;
    push_groups(&mut out, aggregate_groups(alloc, s)?)?;
    Ok(out)
}

fn equals_groups(alloc: Global, d: &EqualsDefinition) -> Result<ClauseGroups, AllocError>
    ensures { IfOk result (λ gs. gs ≡ equality_groups d.now.pattern.loci (term_on d.now.pattern.loci d.now.sym) d.now.definiens) }
{
    let t = term_on(alloc, &d.pattern.loci, d.sym)?;
    equality_groups(alloc, &d.pattern.loci, &t, &d.definiens)
}

/// The groups of an item's typing clauses.
pub fn typing_groups(alloc: Global, item: &Item) -> Result<ClauseGroups, AllocError>
    ensures { IfOk result (λ gs. gs ≡ (groups_of item.now).typing) }
{
    match item {
        Item::FunctorMeans(d) => functor_groups(alloc, &d.pattern.loci, d.sym, &d.ty),
        Item::FunctorEquals(d) => functor_groups(alloc, &d.pattern.loci, d.sym, &d.ty),
        Item::ModeMeans(d) => mode_groups(alloc, &d.pattern.loci, d.sym, &d.ty),
        Item::RedefinedFunctor(d) => {
            new_functor_type_groups(alloc, &d.pattern.loci, &d.term, &d.ty)
        }
        Item::RedefinedMode(d) => new_mode_parent_groups(alloc, &d.pattern.loci, &d.mode, &d.ty),
        Item::Conditional(r) => conditional_groups(alloc, r),
        Item::Functorial(r) => functorial_groups(alloc, r),
        Item::Structure(s) => structure_groups(alloc, s),
        Item::Choice(c) => functor_groups(alloc, &c.loci, c.sym, &c.ty),
        _ => Ok(ClauseGroups::new(alloc)),
    }
}

/// The groups of an item's further clauses.
pub fn further_groups(alloc: Global, item: &Item) -> Result<ClauseGroups, AllocError>
    ensures { IfOk result (λ gs. gs ≡ (groups_of item.now).further) }
{
    match item {
        Item::Property(p) => property_groups(alloc, &p.loci, &p.form),
        Item::Reduction(r) => registered_equation_groups(alloc, r),
        Item::Identification(r) => registered_equation_groups(alloc, r),
        Item::Structure(s) => strict_groups(alloc, s),
        _ => Ok(ClauseGroups::new(alloc)),
    }
}

/// The groups of an item's equality clauses.
pub fn item_equality_groups(alloc: Global, item: &Item) -> Result<ClauseGroups, AllocError>
    ensures { IfOk result (λ gs. gs ≡ (groups_of item.now).equalities) }
{
    match item {
        Item::FunctorEquals(d) => equals_groups(alloc, d),
        _ => Ok(ClauseGroups::new(alloc)),
    }
}

/// The groups of a scheme's letter: its type, under its places, for a functor letter.
pub fn letter_groups(alloc: Global, l: &SchemeLetter) -> Result<ClauseGroups, AllocError>
    ensures { IfOk result (λ gs. gs ≡ letter_groups l.now) }
{
    match l {
        SchemeLetter::OfFunctor(s, places, ty) => functor_groups(alloc, places, *s, ty),
        SchemeLetter::OfPredicate(_, _) => Ok(ClauseGroups::new(alloc)),
    }
}
