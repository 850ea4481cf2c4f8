//! What the directives let in of an item, and of articles.
ghost use Rattle.std.specs.Prelude.{◌≡◌, IfOk, OnOk};
ghost use Rattle.mz_environment.specs.Cited.{at_start};
ghost use Rattle.mz_environment.specs.Environment.{joined};
ghost use Rattle.mz_env.specs.Shares.{notations_share, constructors_share, registrations_share, definitions_share, expansions_share, equalities_share, theorems_share, schemes_share, share, shares, shares_of, wholes};

use crate::articles::Articles;
use crate::registrations::{is_registration, registration_in};
use mz_axioms::exports::Exports;
use mz_base::head::DirectiveKind;
use mz_clauses::clauses_of::{equality_clauses, further_clauses, typing_clauses};
use mz_core::item::Item;
use mz_core::items::Items;
use mz_core::outcome::Export;
use mz_environment::cited::{schemes_cited, statements_cited};
use mz_environment::environment::Environment;
use mz_environment::join::join;
use mz_environment::notation_table::notation_table;
use mz_environment::numbering::Numbering;
use mz_environment::rows_of::{functor_rows, mode_rows};
use mz_environment::shares::{existentials_of, sethoods_of, structures_of};
use mz_environment::unfoldings_of::unfoldings_of;
use mz_items::notations_of::notations_of;
use std::alloc::{AllocError, Global};

/// The notations of an item.
fn notations_share(alloc: Global, item: &Item) -> Result<Environment, AllocError>
    ensures { IfOk result (λ e. e ≡ notations_share item.now) }
{
    let notations = notation_table(alloc, notations_of(alloc, item)?)?;
    let mut out = Environment::new(alloc);
    out.notations = notations;
    Ok(out)
}

/// What an item other than a registration gives to the types of terms.
fn constructors_share(alloc: Global, item: &Item) -> Result<Environment, AllocError>
    ensures { IfOk result (λ e. e ≡ constructors_share item.now) }
{
    let functors = functor_rows(alloc, item)?;
    let modes = mode_rows(alloc, item)?;
    let structures = structures_of(alloc, item)?;
    let sethoods = sethoods_of(alloc, item)?;
    let typing = typing_clauses(alloc, item)?;
    let further = further_clauses(alloc, item)?;
    let mut out = Environment::new(alloc);
    out.functors = functors;
    out.modes = modes;
    out.structures = structures;
    out.sethoods = sethoods;
    out.typing = typing;
    out.further = further;
    Ok(out)
}

/// What a registration gives.
fn registrations_share(alloc: Global, item: &Item) -> Result<Environment, AllocError>
    ensures { IfOk result (λ e. e ≡ registrations_share item.now) }
{
    let typing = typing_clauses(alloc, item)?;
    let further = further_clauses(alloc, item)?;
    let registrations = existentials_of(alloc, item)?;
    let mut out = Environment::new(alloc);
    out.typing = typing;
    out.further = further;
    out.registrations = registrations;
    Ok(out)
}

/// The unfolding of an item, for steps and for `by`, and its equality clauses.
fn definitions_share(alloc: Global, item: &Item) -> Result<Environment, AllocError>
    ensures { IfOk result (λ e. e ≡ definitions_share item.now) }
{
    let equalities = equality_clauses(alloc, item)?;
    let steps = unfoldings_of(alloc, item)?;
    let expansions = unfoldings_of(alloc, item)?;
    let mut out = Environment::new(alloc);
    out.equalities = equalities;
    out.steps = steps;
    out.expansions = expansions;
    Ok(out)
}

/// The unfolding of an item, for `by`.
fn expansions_share(alloc: Global, item: &Item) -> Result<Environment, AllocError>
    ensures { IfOk result (λ e. e ≡ expansions_share item.now) }
{
    let expansions = unfoldings_of(alloc, item)?;
    let mut out = Environment::new(alloc);
    out.expansions = expansions;
    Ok(out)
}

/// The equality clauses of an item.
fn equalities_share(alloc: Global, item: &Item) -> Result<Environment, AllocError>
    ensures { IfOk result (λ e. e ≡ equalities_share item.now) }
{
    let equalities = equality_clauses(alloc, item)?;
    let mut out = Environment::new(alloc);
    out.equalities = equalities;
    Ok(out)
}

/// The theorem and the definitional theorem of an item.
fn theorems_share(alloc: Global, at: Numbering, item: &Item) -> Result<Environment, AllocError>
    ensures { IfOk result (λ e. e ≡ theorems_share at item.now) }
{
    let theorems = statements_cited(alloc, at, item)?;
    let mut out = Environment::new(alloc);
    out.theorems = theorems;
    Ok(out)
}

/// The scheme of an item.
fn schemes_share(alloc: Global, at: Numbering, item: &Item) -> Result<Environment, AllocError>
    ensures { IfOk result (λ e. e ≡ schemes_share at item.now) }
{
    let schemes = schemes_cited(alloc, at, item)?;
    let mut out = Environment::new(alloc);
    out.schemes = schemes;
    Ok(out)
}

/// What a directive of the kind lets in of an item that stands so in its article, where the constructors of these
/// articles are let in.
fn share(
    alloc: Global,
    articles: &Articles,
    kind: DirectiveKind,
    at: Numbering,
    item: &Item,
) -> Result<Environment, AllocError>
    ensures { IfOk result (λ e. e ≡ share articles.now kind at item.now) }
{
    match kind {
        DirectiveKind::Vocabularies => Ok(Environment::new(alloc)),
        DirectiveKind::Notations => notations_share(alloc, item),
        DirectiveKind::Constructors => {
            if is_registration(item) {
                Ok(Environment::new(alloc))
            } else {
                constructors_share(alloc, item)
            }
        }
        DirectiveKind::Registrations => {
            if is_registration(item) {
                if registration_in(articles, item) {
                    registrations_share(alloc, item)
                } else {
                    Ok(Environment::new(alloc))
                }
            } else {
                Ok(Environment::new(alloc))
            }
        }
        DirectiveKind::Definitions => definitions_share(alloc, item),
        DirectiveKind::Theorems => theorems_share(alloc, at, item),
        DirectiveKind::Schemes => schemes_share(alloc, at, item),
        DirectiveKind::Requirements => Ok(Environment::new(alloc)),
        DirectiveKind::Equalities => equalities_share(alloc, item),
        DirectiveKind::Expansions => expansions_share(alloc, item),
    }
}

/// Adds what a directive lets in of an item.
fn add_share(
    alloc: Global,
    out: &mut Environment,
    articles: &Articles,
    kind: DirectiveKind,
    at: Numbering,
    item: &Item,
) -> Result<(), AllocError>
    ensures { OnOk result (out.new ≡ joined out.old (share articles.now kind at item.now)) }
{
    let part = share(alloc, articles, kind, at, item)?;
    join(alloc, out, &part)
}

/// Adds what a directive lets in of items, in their order.
#[tactic(auto, using(crate::proofs::ShareLemmas::share_rules))]
fn add_shares(
    alloc: Global,
    out: &mut Environment,
    articles: &Articles,
    kind: DirectiveKind,
    start: Numbering,
    items: &Items,
) -> Result<(), AllocError>
    ensures { OnOk result (out.new ≡ joined out.old (shares articles.now kind start items.now)) }
{
    let mut at = start;
    for item in &items.items {
        add_share(alloc, out, articles, kind, at, item)?;
        at = at.after(item)?;
    }
    Ok(())
}

/// Adds what a directive lets in of an article.
fn add_export(
    alloc: Global,
    out: &mut Environment,
    articles: &Articles,
    kind: DirectiveKind,
    e: &Export,
) -> Result<(), AllocError>
    ensures { OnOk result (out.new ≡ joined out.old (shares articles.now kind (at_start e.now.name.number) e.now.items)) }
{
    let at = Numbering::of_article(e.name.number);
    add_shares(alloc, out, articles, kind, at, &e.items)
}

/// Adds what a directive lets in of articles, in their order.
#[tactic(auto, using(crate::proofs::ShareLemmas::article_rules))]
pub fn add_exports(
    alloc: Global,
    out: &mut Environment,
    articles: &Articles,
    kind: DirectiveKind,
    es: &Exports,
) -> Result<(), AllocError>
    ensures { OnOk result (out.new ≡ joined out.old (shares_of articles.now kind es.now)) }
{
    for i in 0..es.len() {
        add_export(alloc, out, articles, kind, es.get(i))?;
    }
    Ok(())
}

/// Adds all that items give, in their order.
#[tactic(auto, using(crate::proofs::ShareLemmas::whole_rules))]
fn add_wholes(
    alloc: Global,
    out: &mut Environment,
    start: Numbering,
    items: &Items,
) -> Result<(), AllocError>
    ensures { OnOk result (out.new ≡ joined out.old (wholes start items.now)) }
{
    let mut at = start;
    for item in &items.items {
        out.add(alloc, &mut at, item)?;
    }
    Ok(())
}

/// Adds all that an article gives.
pub fn add_whole(alloc: Global, out: &mut Environment, e: &Export) -> Result<(), AllocError>
    ensures { OnOk result (out.new ≡ joined out.old (wholes (at_start e.now.name.number) e.now.items)) }
{
    let at = Numbering::of_article(e.name.number);
    add_wholes(alloc, out, at, &e.items)
}
