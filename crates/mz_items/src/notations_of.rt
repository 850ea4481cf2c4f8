//! The notations of an item.
ghost use Rattle.std.specs.Prelude.{◌≡◌, ◌∷◌, [], IfOk};
ghost use Rattle.mz_core.specs.declared.notation.Meaning.TheVariants.{OfTerm, OfLiteral, OfType};
ghost use Rattle.mz_items.specs.Exports.{notation_of, notations_of};

use crate::loci::{attribute_on, mode_on, predicate_on, term_on};
use mz_core::item::Item;
use mz_core::notation::{Meaning, Notation};
use mz_core::notations::Notations;
use mz_core::pattern::Pattern;
use std::alloc::{AllocError, Global};

/// One notation: the pattern with what it reads to.
fn one(alloc: Global, p: &Pattern, meaning: Meaning) -> Result<Notations, AllocError>
    ensures { IfOk result (λ ns. ns ≡ notation_of p.now meaning ∷ []) }
{
    let meaning = Box::new(alloc, meaning)?;
    let pattern = p.copy(alloc)?;
    let meaning = Box::into_inner(meaning);
    let mut out = Notations::new(alloc);
    out.push(Notation { pattern, meaning })?;
    Ok(out)
}

fn copied(alloc: Global, n: &Notation) -> Result<Notations, AllocError>
    ensures { IfOk result (λ ns. ns ≡ n.now ∷ []) }
{
    let mut out = Notations::new(alloc);
    out.push(n.copy(alloc)?)?;
    Ok(out)
}

/// The notations of an item: each pattern with what it reads to, for a definition its own symbol on the loci.
pub fn notations_of(alloc: Global, item: &Item) -> Result<Notations, AllocError>
    ensures { IfOk result (λ ns. ns ≡ notations_of item.now) }
{
    match item {
        Item::Primitive(n) => copied(alloc, n),
        Item::FunctorMeans(d) => {
            let t = term_on(alloc, &d.pattern.loci, d.sym)?;
            one(alloc, &d.pattern, Meaning::OfTerm(t))
        }
        Item::FunctorEquals(d) => {
            let t = term_on(alloc, &d.pattern.loci, d.sym)?;
            one(alloc, &d.pattern, Meaning::OfTerm(t))
        }
        Item::Predicate(d) => {
            let l = predicate_on(alloc, &d.pattern.loci, d.sym)?;
            one(alloc, &d.pattern, Meaning::OfLiteral(l))
        }
        Item::Attribute(d) => {
            let l = attribute_on(alloc, &d.pattern.loci, d.subject, d.sym)?;
            one(alloc, &d.pattern, Meaning::OfLiteral(l))
        }
        Item::ModeMeans(d) => {
            let ty = mode_on(alloc, &d.pattern.loci, d.sym)?;
            one(alloc, &d.pattern, Meaning::OfType(ty))
        }
        Item::Abbreviation(n) => copied(alloc, n),
        Item::Notation(n) => copied(alloc, n),
        Item::RedefinedFunctor(d) => {
            let t = d.term.copy(alloc)?;
            one(alloc, &d.pattern, Meaning::OfTerm(t))
        }
        Item::RedefinedMode(d) => {
            let ty = d.mode.copy(alloc)?;
            one(alloc, &d.pattern, Meaning::OfType(ty))
        }
        Item::RedefinedPredicate(d) => {
            let l = d.literal.copy(alloc)?;
            one(alloc, &d.pattern, Meaning::OfLiteral(l))
        }
        Item::RedefinedAttribute(d) => {
            let l = d.literal.copy(alloc)?;
            one(alloc, &d.pattern, Meaning::OfLiteral(l))
        }
        Item::Structure(s) => s.notations.copy(alloc),
        _ => Ok(Notations::new(alloc)),
    }
}
