//! What an accepted article gives to others.
ghost use Rattle.std.specs.Prelude.{◌≡◌, ◌++◌, ◌∷◌, [], IfOk, OnOk, flat_map};
ghost use Rattle.mz_items.specs.Exports.{notations_of};
ghost use Rattle.mz_article.specs.Outcome.{export_of, outcome_by, rejected};

use mz_base::head::Head;
use mz_base::name::Name;
use mz_core::fault::{Fault, Faults};
use mz_core::item::Item;
use mz_core::items::Items;
use mz_core::notations::Notations;
use mz_core::outcome::{Export, Outcome};
use mz_corpus::directives::dependencies_of;
use mz_items::notations_of::notations_of;
use std::alloc::{AllocError, Global};

fn append(out: &mut Notations, more: Notations) -> Result<(), AllocError>
    ensures { OnOk result (out.new ≡ out.old ++ more) }
{
    let mut rest = more;
    out.items.append(&mut rest.items)?;
    Ok(())
}

/// The notations of the items, in their order.
fn push_notations(alloc: Global, items: &[Item], out: &mut Notations) -> Result<(), AllocError>
    ensures { OnOk result (out.new ≡ out.old ++ flat_map notations_of items.now) }
{
    for item in items {
        let ns = notations_of(alloc, item)?;
        append(out, ns)?;
    }
    Ok(())
}

fn all_notations(alloc: Global, items: &Items) -> Result<Notations, AllocError>
    ensures { IfOk result (λ ns. ns ≡ flat_map notations_of items.now) }
{
    let mut out = Notations::new(alloc);
    push_notations(alloc, items.items.as_slice(), &mut out)?;
    Ok(out)
}

/// What an article with these directives and items gives to others.
fn export_of(alloc: Global, name: Name, head: &Head, items: Items) -> Result<Export, AllocError>
    ensures { IfOk result (λ e. e ≡ export_of name head.now items) }
{
    let dependencies = dependencies_of(alloc, head.items.as_slice())?;
    let notations = all_notations(alloc, &items)?;
    Ok(Export {
        name,
        dependencies,
        items,
        notations,
    })
}

/// Accepted with the export of the items where there is no fault; else rejected with all faults.
pub fn outcome_by(
    alloc: Global,
    name: Name,
    head: &Head,
    items: Items,
    faults: Faults,
) -> Result<Outcome, AllocError>
    ensures { IfOk result (λ o. o ≡ outcome_by (export_of name head.now items) faults) }
{
    if faults.items.is_empty() {
        let export = export_of(alloc, name, head, items)?;
        return Ok(Outcome::Accepted(export));
    }
    Ok(Outcome::Rejected(faults))
}

/// Rejected with this one fault.
pub fn rejected(alloc: Global, fault: Fault) -> Result<Outcome, AllocError>
    ensures { IfOk result (λ o. o ≡ rejected fault) }
{
    let mut one = Faults::new(alloc);
    one.push(fault)?;
    Ok(Outcome::Rejected(one))
}
