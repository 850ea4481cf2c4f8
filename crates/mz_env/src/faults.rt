//! The faults of names in directives.
ghost use Rattle.std.specs.Prelude.{◌≡◌, ℕ, IfOk, map, Option, None, Some};
ghost use Rattle.std.specs.List.{list_all};
ghost use Rattle.mz_items.specs.Exports.{notations_of};
ghost use Rattle.mz_env.specs.Symbols.{notation_in};
ghost use Rattle.mz_env.specs.LetIn.{first_missing, missing_at, exported, constructors_known, requirement_known, fault_of};
ghost use Rattle.mz_env.specs.Visits.{export_named};

use crate::articles::Articles;
use crate::directed::Directed;
use crate::env_fault::EnvFault;
use crate::symbols::notation_in;
use crate::visits::export_named;
use mz_axioms::exports::Exports;
use mz_base::head::DirectiveKind;
use mz_base::name::Name;
use mz_base::place::Place;
use mz_core::item::Item;
use mz_core::items::Items;
use mz_core::notations::Notations;
use mz_items::notations_of::notations_of;
use std::alloc::{AllocError, Global};

/// Whether the constructors that the notations name are let in.
fn notations_in(articles: &Articles, xs: &Notations) -> bool
    ensures { result ≡ list_all (notation_in articles.now) xs.now }
{
    for x in &xs.items {
        if !notation_in(articles, x) {
            return false;
        }
    }
    true
}

fn item_known(alloc: Global, articles: &Articles, item: &Item) -> Result<bool, AllocError>
    ensures { IfOk result (λ b. b ≡ list_all (notation_in articles.now) (notations_of item.now)) }
{
    let xs = notations_of(alloc, item)?;
    Ok(notations_in(articles, &xs))
}

/// The number, from 1, of the first item a notation of which names a constructor that isn't let in.
#[tactic(auto, using(crate::proofs::FaultLemmas::missing_rules))]
fn first_missing(
    alloc: Global,
    articles: &Articles,
    items: &Items,
) -> Result<Option<u64>, AllocError>
    ensures { IfOk result (λ n. n ≡ first_missing articles.now 0 items.now) }
{
    let mut above: u64 = 0;
    for item in &items.items {
        let known = item_known(alloc, articles, item)?;
        let number = above.checked_add(1).ok_or(AllocError)?;
        if !known {
            return Ok(Some(number));
        }
        above = number;
    }
    Ok(None)
}

fn missing_at(place: Place, number: Option<u64>) -> Option<EnvFault>
    ensures { result ≡ missing_at place number }
{
    match number {
        None => None,
        Some(item) => Some(EnvFault::MissingConstructor { place, item }),
    }
}

/// Whether there is an export of the name.
#[tactic(auto, using(crate::proofs::FaultLemmas::exported_rules))]
fn exported(exports: &Exports, n: &Name, place: Place) -> Option<EnvFault>
    ensures { result ≡ exported place (export_named exports.now n.now.number) }
{
    match export_named(exports.as_slice(), n.number) {
        None => Some(EnvFault::NotExported { place }),
        Some(_) => None,
    }
}

#[tactic(auto, using(crate::proofs::FaultLemmas::known_rules))]
fn constructors_known(
    alloc: Global,
    exports: &Exports,
    articles: &Articles,
    n: &Name,
    place: Place,
) -> Result<Option<EnvFault>, AllocError>
    ensures { IfOk result (λ f. f ≡ constructors_known articles.now place (export_named exports.now n.now.number)) }
{
    match export_named(exports.as_slice(), n.number) {
        None => Ok(Some(EnvFault::NotExported { place })),
        Some(e) => {
            let number = first_missing(alloc, articles, &e.items)?;
            let fault = missing_at(place, number);
            Ok(fault)
        }
    }
}

/// HIDDEN alone is a requirement.
#[tactic(auto, using(crate::proofs::FaultLemmas::requirement_rules))]
fn requirement_known(n: &Name, place: Place) -> Option<EnvFault>
    ensures { result ≡ requirement_known place n.now }
{
    let hidden = Name::hidden();
    if n.number == hidden.number {
        None
    } else {
        Some(EnvFault::UnknownRequirement { place })
    }
}

/// The fault of a name in a directive, if it has one.
pub fn fault_of(
    alloc: Global,
    exports: &Exports,
    articles: &Articles,
    d: &Directed,
) -> Result<Option<EnvFault>, AllocError>
    ensures { IfOk result (λ f. f ≡ fault_of exports.now articles.now d.now.kind d.now.name d.now.place) }
{
    match d.kind {
        DirectiveKind::Vocabularies => Ok(None),
        DirectiveKind::Notations => constructors_known(alloc, exports, articles, &d.name, d.place),
        DirectiveKind::Constructors => Ok(exported(exports, &d.name, d.place)),
        DirectiveKind::Registrations => Ok(exported(exports, &d.name, d.place)),
        DirectiveKind::Definitions => Ok(exported(exports, &d.name, d.place)),
        DirectiveKind::Theorems => Ok(exported(exports, &d.name, d.place)),
        DirectiveKind::Schemes => Ok(exported(exports, &d.name, d.place)),
        DirectiveKind::Requirements => Ok(requirement_known(&d.name, d.place)),
        DirectiveKind::Equalities => Ok(exported(exports, &d.name, d.place)),
        DirectiveKind::Expansions => Ok(exported(exports, &d.name, d.place)),
    }
}
