//! The exports of the built-in articles.
ghost use Rattle.std.specs.Prelude.{◌≡◌, map, IfOk};
ghost use Rattle.mz_core.specs.declared.item.Item.TheVariants as item;
ghost use Rattle.mz_axioms.specs.BuiltIn.{hidden_notations, hidden, tarski_0_items, tarski_0, tarski_a, built_in_exports};

use crate::axioms::{extensionality, objects_are_sets, pairs, regularity, unions};
use crate::exports::Exports;
use crate::notations::hidden_notations;
use crate::replacement::replacement;
use crate::universes::universes;
use mz_base::name::Name;
use mz_base::names::Names;
use mz_core::item::Item;
use mz_core::items::Items;
use mz_core::notations::Notations;
use mz_core::outcome::Export;
use std::alloc::{AllocError, Global};
use std::sync::Arc;

fn as_items(alloc: Global, notations: Notations) -> Result<Items, AllocError>
    ensures { IfOk result (λ items. items ≡ map item.Primitive notations) }
{
    let mut out = Items::new(alloc);
    for n in notations.into_items() {
        out.push(Item::Primitive(n))?;
    }
    Ok(out)
}

#[tactic(auto, using(crate::proofs::BuiltInLemmas::name_rules))]
fn hidden(alloc: Global) -> Result<Export, AllocError>
    ensures { IfOk result (λ e. e ≡ hidden) }
{
    let notations = hidden_notations(alloc)?;
    let items = as_items(alloc, notations)?;
    let notations = hidden_notations(alloc)?;
    Ok(Export {
        name: Name::hidden(),
        dependencies: Names::new(alloc),
        items,
        notations,
    })
}

fn tarski_0_items(alloc: Global) -> Result<Items, AllocError>
    ensures { IfOk result (λ items. items ≡ tarski_0_items) }
{
    let mut out = Items::new(alloc);
    out.push(Item::Axiom(objects_are_sets(alloc)?))?;
    out.push(Item::Axiom(extensionality(alloc)?))?;
    out.push(Item::Axiom(pairs(alloc)?))?;
    out.push(Item::Axiom(unions(alloc)?))?;
    out.push(Item::Axiom(regularity(alloc)?))?;
    out.push(Item::AxiomScheme(replacement(alloc)?))?;
    Ok(out)
}

#[tactic(auto, using(crate::proofs::BuiltInLemmas::name_rules))]
fn tarski_0(alloc: Global) -> Result<Export, AllocError>
    ensures { IfOk result (λ e. e ≡ tarski_0) }
{
    let items = tarski_0_items(alloc)?;
    Ok(Export {
        name: Name::tarski_0(),
        dependencies: Names::new(alloc),
        items,
        notations: Notations::new(alloc),
    })
}

#[tactic(auto, using(crate::proofs::BuiltInLemmas::name_rules))]
fn tarski_a(alloc: Global) -> Result<Export, AllocError>
    ensures { IfOk result (λ e. e ≡ tarski_a) }
{
    let mut items = Items::new(alloc);
    items.push(Item::Axiom(universes(alloc)?))?;
    Ok(Export {
        name: Name::tarski_a(),
        dependencies: Names::new(alloc),
        items,
        notations: Notations::new(alloc),
    })
}

/// The exports of HIDDEN, TARSKI_0 and TARSKI_A, in this order, which is that of names. They depend on no
/// article.
pub fn built_in(alloc: Global) -> Result<Exports, AllocError>
    ensures { IfOk result (λ es. es ≡ built_in_exports) }
{
    let mut out = Exports::new(alloc)?;
    out.push(Arc::new(alloc, hidden(alloc)?)?)?;
    out.push(Arc::new(alloc, tarski_0(alloc)?)?)?;
    out.push(Arc::new(alloc, tarski_a(alloc)?)?)?;
    Ok(out)
}
