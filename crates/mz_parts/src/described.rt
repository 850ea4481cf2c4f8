//! What `given` and `consider` introduce: variables, and propositions about them.
ghost use Rattle.std.specs.Prelude.{◌≡◌, IfOk};
ghost use Rattle.mz_choice.specs.Fresh.{Grown};
ghost use Rattle.mz_joined.specs.Bound.{there_are_within};
ghost use Rattle.mz_resolve.specs.Answers.{OnRead};
ghost use Rattle.mz_parts.specs.Described.{with_existential, described_by, DescriptionRead};

use crate::declarations::read_declarations;
use crate::joined::join;
use crate::propositions::read_propositions;
use mz_base::place::Place;
use mz_choice::fresh::{keep, next_number};
use mz_context::context::Context;
use mz_context::labelled::LabelledStatements;
use mz_core::outcome::Left;
use mz_core::statement::Statement;
use mz_environment::environment::Environment;
use mz_joined::bound::there_are_within;
use mz_names::refusal::Refusal;
use mz_names::variable::Variables;
use mz_resolve::resolve_fault::ResolveFault;
use mz_tree::expressions::DeclarationsTree;
use mz_tree_proof::propositions::PropositionsTree;
use std::alloc::{AllocError, Global};

/// What `given` and `consider` introduce: the variables, the propositions, each closed over its own free reserved variables,
/// and their conjunction. In the propositions the variables are constants, the first one with the number of the next constant.
#[derive(Drop)]
pub struct Description {
    pub variables: Variables,
    pub propositions: LabelledStatements,
    pub statement: Statement,
}

/// That there are such objects. `TooLarge` at the place.
fn existential(
    alloc: Global,
    first: Place,
    n: u32,
    vs: &Variables,
    s: &Statement,
) -> Result<Result<Statement, Refusal>, AllocError>
    ensures { IfOk result (λ o. o ≡ there_are_within first n vs.now s.now) }
{
    let s = s.copy(alloc)?;
    there_are_within(alloc, first, n, vs.items.as_slice(), s)
}

fn with_existential(
    alloc: Global,
    first: Place,
    n: u32,
    vs: Variables,
    ps: LabelledStatements,
    s: Statement,
) -> Result<Result<Description, Refusal>, AllocError>
    ensures { IfOk result (λ o. o ≡ with_existential vs ps s (there_are_within first n vs s)) }
{
    match existential(alloc, first, n, &vs, &s)? {
        Err(r) => Ok(Err(r)),
        Ok(_there) => Ok(Ok(Description {
            variables: vs,
            propositions: ps,
            statement: s,
        })),
    }
}

fn described_by(
    alloc: Global,
    first: Place,
    n: u32,
    vs: Variables,
    ps: LabelledStatements,
) -> Result<Result<Description, Refusal>, AllocError>
    ensures { IfOk result (λ o. o ≡ described_by first n vs ps) }
{
    match join(alloc, first, &ps)? {
        Err(r) => Ok(Err(r)),
        Ok(s) => with_existential(alloc, first, n, vs, ps, s),
    }
}

/// What is introduced, with the variables left in force.
#[tactic(auto, using(crate::proofs::DescriptionLemmas::inside_rules))]
fn describe_inside(
    alloc: Global,
    env: &Environment,
    ctx: &mut Context,
    least: u32,
    first: Place,
    ds: &DeclarationsTree,
    ps: &PropositionsTree,
    left: &mut Left,
) -> Result<Description, ResolveFault>
    ensures reads { OnRead result (λ o. DescriptionRead env.now ctx.old least left.old first ds.now ps.now o left.new) }
    ensures grown { Grown ctx.old ctx.new }
{
    let n = next_number(ctx)?;
    let vs = match read_declarations(alloc, env, ctx, least, ds, left) {
        Ok(vs) => vs,
        Err(f) => return Err(f),
    };
    let qs = match read_propositions(alloc, env, ctx, least, ps, left) {
        Ok(qs) => qs,
        Err(f) => return Err(f),
    };
    match described_by(alloc, first, n, vs, qs)? {
        Err(r) => Err(ResolveFault::Refused(r)),
        Ok(d) => Ok(d),
    }
}

/// What `given` and `consider` introduce, where `first` is the place of the step's first token: the declarations are read, and
/// then, with the variables in force, the propositions. The context is as before.
///
/// Refusals: those of the declarations and of the sentences; `TooLarge` at the step's first token where the conjunction of the
/// propositions, or that there are such objects, is beyond the limits.
#[tactic(auto, using(crate::proofs::DescriptionLemmas::outside_rules))]
pub fn describe(
    alloc: Global,
    env: &Environment,
    ctx: &mut Context,
    least: u32,
    first: Place,
    ds: &DeclarationsTree,
    ps: &PropositionsTree,
    left: &mut Left,
) -> Result<Description, ResolveFault>
    ensures reads { OnRead result (λ o. DescriptionRead env.now ctx.old least left.old first ds.now ps.now o left.new) }
    ensures same { ctx.new ≡ ctx.old }
{
    let count = ctx.constants.items.len();
    match describe_inside(alloc, env, ctx, least, first, ds, ps, left) {
        Ok(d) => {
            keep(ctx, count);
            Ok(d)
        }
        Err(f) => {
            keep(ctx, count);
            Err(f)
        }
    }
}
