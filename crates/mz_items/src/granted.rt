//! What an item grants.
ghost use Rattle.std.specs.Prelude.{◌≡◌, [], ◌∷◌, IfOk, map};
ghost use Rattle.mz_items.specs.Loci.{over};
ghost use Rattle.mz_items.specs.DefinitionRows.{functor_type, functor_meaning, equal_functor_type, equal_functor_meaning, mode_result_type, mode_meaning};
ghost use Rattle.mz_items.specs.StructureRows.{structure_grants};
ghost use Rattle.mz_items.specs.Items.{granted_statements, grants};

use crate::definition_theses::{
    attribute_meaning, equal_functor_meaning, equal_functor_type, functor_meaning, functor_type,
    mode_meaning, mode_result_type, predicate_meaning,
};
use crate::forms::one;
use crate::quantified::over;
use crate::scheme_rows::axiom_scheme_grant;
use crate::set_term_rows::{choice_grant, set_term_grant};
use crate::structure_rows::structure_grants;
use mz_core::definition::{EqualsDefinition, MeansDefinition};
use mz_core::item::Item;
use mz_core::soft_types::SoftTypes;
use mz_core::statement::Statement;
use mz_core::statements::Statements;
use mz_core::structure::Structure;
use mz_core::typed_sequent::erase_all;
use mz_logic::formulas::Formulas;
use std::alloc::{AllocError, Global};

fn one_over(alloc: Global, loci: &SoftTypes, s: Statement) -> Result<Statements, AllocError>
    ensures { IfOk result (λ ss. ss ≡ map (over loci.now) (s ∷ [])) }
{
    let s = over(alloc, loci, s)?;
    one(alloc, s)
}

fn functor_grants(alloc: Global, d: &MeansDefinition) -> Result<Statements, AllocError>
    ensures { IfOk result (λ ss. ss ≡ map (over d.now.pattern.loci) (functor_type d.now ∷ functor_meaning d.now ∷ [])) }
{
    let mut out = Statements::new(alloc);
    let s = functor_type(alloc, d)?;
    out.push(over(alloc, &d.pattern.loci, s)?)?;
    let s = functor_meaning(alloc, d)?;
    out.push(over(alloc, &d.pattern.loci, s)?)?;
    Ok(out)
}

fn equal_functor_grants(alloc: Global, d: &EqualsDefinition) -> Result<Statements, AllocError>
    ensures { IfOk result (λ ss. ss ≡ map (over d.now.pattern.loci) (equal_functor_type d.now ∷ equal_functor_meaning d.now ∷ [])) }
{
    let mut out = Statements::new(alloc);
    let s = equal_functor_type(alloc, d)?;
    out.push(over(alloc, &d.pattern.loci, s)?)?;
    let s = equal_functor_meaning(alloc, d)?;
    out.push(over(alloc, &d.pattern.loci, s)?)?;
    Ok(out)
}

fn mode_grants(alloc: Global, d: &MeansDefinition) -> Result<Statements, AllocError>
    ensures { IfOk result (λ ss. ss ≡ map (over d.now.pattern.loci) (mode_result_type d.now ∷ mode_meaning d.now ∷ [])) }
{
    let mut out = Statements::new(alloc);
    let s = mode_result_type(alloc, d)?;
    out.push(over(alloc, &d.pattern.loci, s)?)?;
    let s = mode_meaning(alloc, d)?;
    out.push(over(alloc, &d.pattern.loci, s)?)?;
    Ok(out)
}

fn all_over(alloc: Global, loci: &SoftTypes, ss: &Statements) -> Result<Statements, AllocError>
    ensures { IfOk result (λ rs. rs ≡ map (over loci.now) ss.now) }
{
    let mut out = Vec::new(alloc);
    for s in &ss.items {
        out.push(over(alloc, loci, s.copy(alloc)?)?)?;
    }
    Ok(Statements { items: out })
}

fn structure_grants_over(alloc: Global, s: &Structure) -> Result<Statements, AllocError>
    ensures { IfOk result (λ ss. ss ≡ map (over s.now.loci) (structure_grants s.now)) }
{
    let ss = structure_grants(alloc, s)?;
    all_over(alloc, &s.loci, &ss)
}

/// What an item grants, as statements, each for all loci of the item.
pub fn granted_statements(alloc: Global, item: &Item) -> Result<Statements, AllocError>
    ensures { IfOk result (λ ss. ss ≡ granted_statements item.now) }
{
    match item {
        Item::Axiom(s) => {
            let s = s.copy(alloc)?;
            one(alloc, s)
        }
        Item::AxiomScheme(s) => {
            let s = axiom_scheme_grant(alloc, s)?;
            one(alloc, s)
        }
        Item::FunctorMeans(d) => functor_grants(alloc, d),
        Item::FunctorEquals(d) => equal_functor_grants(alloc, d),
        Item::Predicate(d) => {
            let s = predicate_meaning(alloc, d)?;
            one_over(alloc, &d.pattern.loci, s)
        }
        Item::Attribute(d) => {
            let s = attribute_meaning(alloc, d)?;
            one_over(alloc, &d.pattern.loci, s)
        }
        Item::ModeMeans(d) => mode_grants(alloc, d),
        Item::Structure(s) => structure_grants_over(alloc, s),
        Item::SetTerm(s) => {
            let t = set_term_grant(alloc, s)?;
            one_over(alloc, &s.loci, t)
        }
        Item::Choice(c) => {
            let t = choice_grant(alloc, c)?;
            one_over(alloc, &c.loci, t)
        }
        _ => Ok(Statements::new(alloc)),
    }
}

/// The formulas that an item grants: the erasures of its statements, by the table in `docs/PROOFS.md`.
/// Indices, depths or numbers of loci or fields above 4,294,967,295 are as no memory.
#[tactic(auto, unfolding(crate::specs::Items::grants))]
pub fn grants(alloc: Global, item: &Item) -> Result<Formulas, AllocError>
    ensures { IfOk result (λ fs. fs ≡ grants item.now) }
{
    let ss = granted_statements(alloc, item)?;
    erase_all(alloc, &ss)
}
