//! What an item owes.
ghost use Rattle.std.specs.Prelude.{◌≡◌, ◌++◌, ◌∷◌, [], IfOk, OnOk, flat_map};
ghost use Rattle.mz_core.specs.TypedSequent.{typed_sequent};
ghost use Rattle.mz_items.specs.Loci.{over};
ghost use Rattle.mz_items.specs.PropertyRows.{property_statement};
ghost use Rattle.mz_items.specs.Items.{owed_if_any, owed_condition, owed_conditions, owed_statements, owes};

use crate::condition::Condition;
use crate::property_rows::property_statement;
use crate::quantified::over;
use crate::scheme_rows::scheme_sequent;
use crate::theses::thesis_of;
use mz_core::item::Item;
use mz_core::property::Property;
use mz_core::soft_types::SoftTypes;
use mz_core::statement::Statement;
use mz_core::statements::Statements;
use mz_core::typed_sequent::TypedSequent;
use mz_core::typed_sequents::TypedSequents;
use mz_logic::sequents::Sequents;
use std::alloc::{AllocError, Global};

fn push_owed(
    alloc: Global,
    out: &mut TypedSequents,
    loci: &SoftTypes,
    thesis: Option<Statement>,
) -> Result<(), AllocError>
    ensures { OnOk result (out.new ≡ out.old ++ owed_if_any loci.now thesis) }
{
    match thesis {
        None => Ok(()),
        Some(s) => {
            let conclusion = over(alloc, loci, s)?;
            out.push(TypedSequent {
                premises: Statements::new(alloc),
                conclusion,
            })?;
            Ok(())
        }
    }
}

fn push_conditions(
    alloc: Global,
    out: &mut TypedSequents,
    loci: &SoftTypes,
    item: &Item,
    cs: &[Condition],
) -> Result<(), AllocError>
    ensures { OnOk result (out.new ≡ out.old ++ flat_map (owed_condition loci.now item.now) cs.now) }
{
    match cs {
        [] => Ok(()),
        [c, others @ ..] => {
            let thesis = thesis_of(alloc, item, *c)?;
            push_owed(alloc, out, loci, thesis)?;
            push_conditions(alloc, out, loci, item, others)
        }
    }
}

fn owed_conditions(
    alloc: Global,
    loci: &SoftTypes,
    item: &Item,
) -> Result<TypedSequents, AllocError>
    ensures { IfOk result (λ ss. ss ≡ owed_conditions loci.now item.now) }
{
    let cs = [
        Condition::Existence,
        Condition::Uniqueness,
        Condition::Coherence,
        Condition::Compatibility,
        Condition::Consistency,
        Condition::Reducibility,
    ];
    let mut out = TypedSequents::new(alloc);
    push_conditions(alloc, &mut out, loci, item, &cs)?;
    Ok(out)
}

fn one(alloc: Global, s: TypedSequent) -> Result<TypedSequents, AllocError>
    ensures { IfOk result (λ ss. ss ≡ s ∷ []) }
{
    let mut out = TypedSequents::new(alloc);
    out.push(s)?;
    Ok(out)
}

fn alone(alloc: Global, s: Statement) -> Result<TypedSequents, AllocError>
    ensures { IfOk result (λ ss. ss ≡ typed_sequent [] s ∷ []) }
{
    one(
        alloc,
        TypedSequent {
            premises: Statements::new(alloc),
            conclusion: s,
        },
    )
}

fn property_owes(alloc: Global, p: &Property) -> Result<TypedSequents, AllocError>
    ensures { IfOk result (λ ss. ss ≡ typed_sequent [] (over p.now.loci (property_statement p.now.loci p.now.form)) ∷ []) }
{
    let s = property_statement(alloc, &p.loci, &p.form)?;
    let s = over(alloc, &p.loci, s)?;
    alone(alloc, s)
}

/// What an item owes, as sequents of statements: what its conditions state, for all loci, in the order of the
/// conditions' numbers; a theorem, a scheme or a property owes what it states.
pub fn owed_statements(alloc: Global, item: &Item) -> Result<TypedSequents, AllocError>
    ensures { IfOk result (λ ss. ss ≡ owed_statements item.now) }
{
    match item {
        Item::Axiom(_) => Ok(TypedSequents::new(alloc)),
        Item::AxiomScheme(_) => Ok(TypedSequents::new(alloc)),
        Item::Primitive(_) => Ok(TypedSequents::new(alloc)),
        Item::Theorem(s) => {
            let s = s.copy(alloc)?;
            alone(alloc, s)
        }
        Item::Scheme(s) => {
            let s = scheme_sequent(alloc, s)?;
            one(alloc, s)
        }
        Item::FunctorMeans(d) => owed_conditions(alloc, &d.pattern.loci, item),
        Item::FunctorEquals(d) => owed_conditions(alloc, &d.pattern.loci, item),
        Item::Predicate(d) => owed_conditions(alloc, &d.pattern.loci, item),
        Item::Attribute(d) => owed_conditions(alloc, &d.pattern.loci, item),
        Item::ModeMeans(d) => owed_conditions(alloc, &d.pattern.loci, item),
        Item::Abbreviation(_) => Ok(TypedSequents::new(alloc)),
        Item::Notation(_) => Ok(TypedSequents::new(alloc)),
        Item::RedefinedFunctor(d) => owed_conditions(alloc, &d.pattern.loci, item),
        Item::RedefinedMode(d) => owed_conditions(alloc, &d.pattern.loci, item),
        Item::RedefinedPredicate(d) => owed_conditions(alloc, &d.pattern.loci, item),
        Item::RedefinedAttribute(d) => owed_conditions(alloc, &d.pattern.loci, item),
        Item::Property(p) => property_owes(alloc, p),
        Item::Existential(r) => owed_conditions(alloc, &r.loci, item),
        Item::Conditional(r) => owed_conditions(alloc, &r.loci, item),
        Item::Functorial(r) => owed_conditions(alloc, &r.loci, item),
        Item::Reduction(r) => owed_conditions(alloc, &r.loci, item),
        Item::Identification(r) => owed_conditions(alloc, &r.loci, item),
        Item::Structure(_) => Ok(TypedSequents::new(alloc)),
        Item::SetTerm(s) => owed_conditions(alloc, &s.loci, item),
        Item::Choice(c) => owed_conditions(alloc, &c.loci, item),
    }
}

/// The sequents that an item owes: the erasures of its statements, by the table in `docs/PROOFS.md`.
/// Indices, depths or numbers of loci above 4,294,967,295 are as no memory.
#[tactic(auto, unfolding(crate::specs::Items::owes))]
pub fn owes(alloc: Global, item: &Item) -> Result<Sequents, AllocError>
    ensures { IfOk result (λ ss. ss ≡ owes item.now) }
{
    let ss = owed_statements(alloc, item)?;
    ss.erased(alloc)
}
