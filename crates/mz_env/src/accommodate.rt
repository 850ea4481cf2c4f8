//! What an environment part lets in.
ghost use Rattle.std.specs.Prelude.{◌≡◌, ◌∷◌, [], IfOk, OnOk, MatchOption, map, None};
ghost use Rattle.mz_environment.specs.Environment.{joined};
ghost use Rattle.mz_axioms.specs.Names.{hidden_name};
ghost use Rattle.mz_env.specs.LetIn.{alone, Reaches, LetIn, Answers};
ghost use Rattle.mz_env.specs.Shares.{whole_of};
ghost use Rattle.mz_env.specs.Visits.{export_named};
ghost use Rattle.mz_env.specs.Walking.{GivesBehind, told};

use crate::articles::Articles;
use crate::directed::Directed;
use crate::directed_names::{DirectedNames, constructor_names, directed_names};
use crate::env_fault::EnvFault;
use crate::faults::fault_of;
use crate::shares::{add_exports, add_whole};
use crate::visits::{export_named, visit};
use mz_axioms::exports::Exports;
use mz_base::head::{DirectiveKind, Head};
use mz_base::name::Name;
use mz_base::names::Names;
use mz_environment::environment::Environment;
use std::alloc::{AllocError, Global};

/// One name in a list.
fn one_name(alloc: Global, n: &Name) -> Result<Names, AllocError>
    ensures { IfOk result (λ ns. ns ≡ n.now ∷ []) }
{
    let mut out = Names::new(alloc);
    out.push(*n)?;
    Ok(out)
}

/// One article.
fn one_article(alloc: Global, n: &Name) -> Result<Articles, AllocError>
    ensures { IfOk result (λ a. a ≡ n.now ∷ []) }
{
    let mut out = Articles::new(alloc);
    out.push(alloc, *n)?;
    Ok(out)
}

/// HIDDEN alone.
#[tactic(auto, using(crate::proofs::WalkLemmas::hidden_rules))]
fn only_hidden(alloc: Global) -> Result<Articles, AllocError>
    ensures { IfOk result (λ ns. ns ≡ hidden_name ∷ []) }
{
    let hidden = Name::hidden();
    let out = one_article(alloc, &hidden)?;
    Ok(out)
}

/// The export of the name, if there is one.
#[tactic(auto, using(crate::proofs::WalkLemmas::alone_rules))]
fn alone(alloc: Global, exports: &Exports, n: &Name) -> Result<Exports, AllocError>
    ensures { IfOk result (λ es. es ≡ alone (export_named exports.now n.now.number)) }
{
    match export_named(exports.as_slice(), n.number) {
        None => {
            let out = Exports::new(alloc)?;
            Ok(out)
        }
        Some(e) => {
            let mut out = Exports::new(alloc)?;
            out.push(e.clone()?)?;
            Ok(out)
        }
    }
}

/// The exports of which a name in a directive lets something in.
fn reached(
    alloc: Global,
    exports: &Exports,
    d: &Directed,
    begun: &mut Articles,
) -> Result<Exports, AllocError>
    ensures { IfOk result (λ es. Reaches exports.now begun.old d.now.kind d.now.name begun.new es) }
{
    match d.kind {
        DirectiveKind::Vocabularies => Exports::new(alloc),
        DirectiveKind::Requirements => Exports::new(alloc),
        DirectiveKind::Constructors => {
            let names = one_name(alloc, &d.name)?;
            let es = visit(alloc, exports, &names, begun, exports.len())?;
            Ok(es)
        }
        DirectiveKind::Notations => alone(alloc, exports, &d.name),
        DirectiveKind::Registrations => alone(alloc, exports, &d.name),
        DirectiveKind::Definitions => alone(alloc, exports, &d.name),
        DirectiveKind::Theorems => alone(alloc, exports, &d.name),
        DirectiveKind::Schemes => alone(alloc, exports, &d.name),
        DirectiveKind::Equalities => alone(alloc, exports, &d.name),
        DirectiveKind::Expansions => alone(alloc, exports, &d.name),
    }
}

/// Lets in what the names let in, in their order, behind what is there, up to the first fault, which is the answer.
#[tactic(auto, using(crate::proofs::WalkLemmas::walk_rules))]
fn walk(
    alloc: Global,
    exports: &Exports,
    articles: &Articles,
    ds: &DirectedNames,
    begun: &mut Articles,
    env: &mut Environment,
) -> Result<Option<EnvFault>, AllocError>
    ensures { IfOk result (λ f. GivesBehind exports.now articles.now begun.old ds.now env.old (told f env.new)) }
{
    for d in &ds.items {
        let fault = fault_of(alloc, exports, articles, d)?;
        match fault {
            Some(f) => return Ok(Some(f)),
            None => {}
        }
        let es = reached(alloc, exports, d, begun)?;
        add_exports(alloc, env, articles, d.kind, &es)?;
    }
    Ok(None)
}

/// Adds all that HIDDEN gives.
#[tactic(auto, using(crate::proofs::WalkLemmas::hidden_rules))]
fn add_hidden(alloc: Global, exports: &Exports, env: &mut Environment) -> Result<(), AllocError>
    ensures { OnOk result (env.new ≡ joined env.old (whole_of (export_named exports.now hidden_name.number))) }
{
    let hidden = Name::hidden();
    match export_named(exports.as_slice(), hidden.number) {
        None => Ok(()),
        Some(e) => add_whole(alloc, env, e),
    }
}

/// Lets in HIDDEN's items and what the names let in, up to the first fault.
#[tactic(auto, using(crate::proofs::WalkLemmas::fill_rules))]
fn fill(
    alloc: Global,
    exports: &Exports,
    articles: &Articles,
    ds: &DirectedNames,
    env: &mut Environment,
) -> Result<Option<EnvFault>, AllocError>
    ensures { IfOk result (λ f. GivesBehind exports.now articles.now (hidden_name ∷ []) ds.now (joined env.old (whole_of (export_named exports.now hidden_name.number))) (told f env.new)) }
{
    add_hidden(alloc, exports, env)?;
    let mut begun = only_hidden(alloc)?;
    walk(alloc, exports, articles, ds, &mut begun, env)
}

/// HIDDEN's items and what the names let in, or the first fault.
#[tactic(auto, using(crate::proofs::WalkLemmas::filled_rules))]
fn filled(
    alloc: Global,
    exports: &Exports,
    articles: &Articles,
    ds: &DirectedNames,
) -> Result<Result<Environment, EnvFault>, AllocError>
    ensures { IfOk result (λ o. GivesBehind exports.now articles.now (hidden_name ∷ []) ds.now (whole_of (export_named exports.now hidden_name.number)) o) }
{
    let mut env = Environment::new(alloc);
    match fill(alloc, exports, articles, ds, &mut env) {
        Err(e) => Err(e),
        Ok(None) => Ok(Ok(env)),
        Ok(Some(f)) => Ok(Err(f)),
    }
}

/// What is let in, or the first fault.
#[tactic(auto, using(crate::proofs::WalkLemmas::outcome_rules))]
fn outcome(
    alloc: Global,
    head: &Head,
    exports: &Exports,
) -> Result<Result<Environment, EnvFault>, AllocError>
    ensures { IfOk result (λ o. LetIn head.now exports.now o) }
{
    let ds = directed_names(alloc, head)?;
    let names = constructor_names(alloc, &ds)?;
    let mut articles = only_hidden(alloc)?;
    let visited = visit(alloc, exports, &names, &mut articles, exports.len())?;
    filled(alloc, exports, &articles, &ds)
}

/// The environment that the environment part of an article lets in, from the exports of the articles on which it
/// depends and the built-in ones (`docs/PROOFS.md`).
///
/// # Errors
/// `MissingConstructor`, `UnknownRequirement` and `NotExported` exactly where that is the first fault in the order of the
/// text, with the place of the name; `Memory` for want of memory.
#[tactic(auto, using(crate::proofs::WalkLemmas::answer_rules))]
pub fn accommodate(alloc: Global, head: &Head, exports: &Exports) -> Result<Environment, EnvFault>
    ensures { Answers head.now exports.now result }
{
    match outcome(alloc, head, exports) {
        Ok(told) => told,
        Err(e) => Err(EnvFault::Memory(e)),
    }
}
