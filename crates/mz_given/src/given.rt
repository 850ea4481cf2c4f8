//! What a justification without a proof gives.
ghost use Rattle.std.specs.Prelude.{◌≡◌, IfOk};
ghost use Rattle.mz_cited.specs.Cited.{cites};
ghost use Rattle.mz_given.specs.Given.{premise_references, by_scheme, cited_in, given_in};
ghost use Rattle.mz_given.specs.Schemes.{scheme_place, scheme_cited};

use crate::schemes::{scheme_cited, scheme_place};
use mz_base::place::Place;
use mz_cited::cited::cite;
use mz_context::context::Context;
use mz_core::scheme::Scheme;
use mz_core::statements::Statements;
use mz_environment::environment::Environment;
use mz_steps::premises::given;
use mz_tree_proof::references::{PremisesTree, SimpleTree};
use std::alloc::{AllocError, Global};

/// What a justification gives: statements, or a scheme and the statements that are cited for its premises.
#[derive(Drop)]
pub enum Given {
    ByStatements(Statements),
    ByScheme(Scheme, Statements),
}

fn cited_for_premises(
    alloc: Global,
    env: &Environment,
    ctx: &Context,
    premises: &Option<PremisesTree>,
) -> Result<Result<Statements, Place>, AllocError>
    ensures { IfOk result (λ o. o ≡ cites env.now ctx.now (premise_references premises.now)) }
{
    match premises {
        None => Ok(Ok(Statements::new(alloc))),
        Some(ps) => cite(alloc, env, ctx, &ps.references),
    }
}

fn with_premises(
    alloc: Global,
    env: &Environment,
    ctx: &Context,
    place: Place,
    scheme: Option<Scheme>,
    premises: &Option<PremisesTree>,
) -> Result<Result<Given, Place>, AllocError>
    ensures { IfOk result (λ o. o ≡ by_scheme place scheme (cites env.now ctx.now (premise_references premises.now))) }
{
    match scheme {
        None => Ok(Err(place)),
        Some(scheme) => match cited_for_premises(alloc, env, ctx, premises)? {
            Ok(ss) => Ok(Ok(Given::ByScheme(scheme, ss))),
            Err(p) => Ok(Err(p)),
        },
    }
}

/// What the justification cites: statements, or a scheme and statements for its premises; or the place of the first reference that
/// cites nothing.
pub fn cited_in(
    alloc: Global,
    env: &Environment,
    ctx: &Context,
    tree: &SimpleTree,
) -> Result<Result<Given, Place>, AllocError>
    ensures { IfOk result (λ o. o ≡ cited_in env.now ctx.now tree.now) }
{
    match tree {
        SimpleTree::Nothing => Ok(Ok(Given::ByStatements(Statements::new(alloc)))),
        SimpleTree::By { references, .. } => match cite(alloc, env, ctx, references)? {
            Ok(ss) => Ok(Ok(Given::ByStatements(ss))),
            Err(p) => Ok(Err(p)),
        },
        SimpleTree::From {
            scheme,
            premises,
            ..
        } => {
            let x = scheme_cited(alloc, env, ctx, scheme)?;
            with_premises(alloc, env, ctx, scheme_place(scheme), x, premises)
        }
    }
}

/// What the justification gives: where it is linked by `then` or `hence`, the statement just before in front of the cited ones; it does
/// nothing for a scheme. None where it is linked and there is no statement just before.
pub fn given_in(
    alloc: Global,
    linked: bool,
    ctx: &Context,
    cited: Given,
) -> Result<Option<Given>, AllocError>
    ensures { IfOk result (λ o. o ≡ given_in linked ctx.now cited) }
{
    match cited {
        Given::ByStatements(ss) => match given(alloc, linked, ctx, ss)? {
            Some(all) => Ok(Some(Given::ByStatements(all))),
            None => Ok(None),
        },
        Given::ByScheme(scheme, ss) => {
            if linked && ctx.previous.is_none() {
                Ok(None)
            } else {
                Ok(Some(Given::ByScheme(scheme, ss)))
            }
        }
    }
}
