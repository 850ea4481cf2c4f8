//! The heading of a scheme: its letters, its conclusion and its premises.
ghost use Rattle.std.specs.Prelude.{◌≡◌, IfOk};
ghost use Rattle.mz_context.specs.Context.{next};
ghost use Rattle.mz_parts.specs.Propositions.{PropositionsRead};
ghost use Rattle.mz_resolve.specs.Answers.{OnRead};
ghost use Rattle.mz_cited.specs.Cited.{members};
ghost use Rattle.mz_resolve.specs.Calls.{SentenceRead};
ghost use Rattle.mz_taken.specs.Answers.{OnTaken, Leads};
ghost use Rattle.mz_scheme_items.specs.Answers.{LeadsBy};
ghost use Rattle.mz_scheme_items.specs.Parameters.{scope, TakesParameters};
ghost use Rattle.mz_scheme_items.specs.StatesScheme.{premises_in, TakesHeading};
ghost use Rattle.mz_scheme.specs.Heading.{heading_in};

use crate::parameters::take_parameters;
use mz_context::context::Context;
use mz_context::labelled::LabelledStatements;
use mz_core::outcome::Left;
use mz_environment::environment::Environment;
use mz_formulas::sentence::Sentence;
use mz_parts::propositions::read_propositions;
use mz_resolve::calls::sentence;
use mz_resolve::resolve_fault::ResolveFault;
use mz_taken::item_fault::{ItemFault, of_reading};
use mz_tree_item::schemes::{ProvidedTree, SchemeTree};
use std::alloc::{AllocError, Global};

/// What is read of a scheme besides its letters: its conclusion, and its premises under their labels.
#[derive(Drop)]
pub struct ReadHeading {
    pub conclusion: Sentence,
    pub premises: LabelledStatements,
}

/// The number of the next constant.
fn next(ctx: &Context) -> Result<u32, AllocError>
    ensures { IfOk result (λ n. n ≡ next ctx.now) }
{
    u32::try_from(ctx.next()).map_err(|_| AllocError)
}

/// Its letters.
fn take_letters(
    alloc: Global,
    env: &Environment,
    ctx: &mut Context,
    least: u32,
    tree: &SchemeTree,
    left: &mut Left,
) -> Result<(), ItemFault>
    ensures { OnTaken result (Leads (TakesParameters env.now least (scope ctx.old left.old) (members tree.now.parameters)) (scope ctx.new left.new)) }
{
    take_parameters(alloc, env, ctx, least, &tree.parameters, left)
}

/// Its conclusion.
fn read_conclusion(
    alloc: Global,
    env: &Environment,
    ctx: &mut Context,
    least: u32,
    tree: &SchemeTree,
    left: &mut Left,
) -> Result<Sentence, ResolveFault>
    ensures reads { OnRead result (λ o. SentenceRead env.now ctx.old least left.old tree.now.formula o left.new) }
    ensures same { ctx.new ≡ ctx.old }
{
    sentence(alloc, env, ctx, least, &tree.formula, left)
}

/// Premises, all in the same context.
fn read_provided(
    alloc: Global,
    env: &Environment,
    ctx: &mut Context,
    least: u32,
    provided: &Option<ProvidedTree>,
    left: &mut Left,
) -> Result<LabelledStatements, ResolveFault>
    ensures reads { OnRead result (λ o. PropositionsRead env.now ctx.old least left.old (premises_in provided.now) o left.new) }
    ensures same { ctx.new ≡ ctx.old }
{
    match provided {
        None => Ok(LabelledStatements::new(alloc)),
        Some(p) => read_propositions(alloc, env, ctx, least, &p.propositions, left),
    }
}

/// Its premises.
fn read_premises(
    alloc: Global,
    env: &Environment,
    ctx: &mut Context,
    least: u32,
    tree: &SchemeTree,
    left: &mut Left,
) -> Result<LabelledStatements, ResolveFault>
    ensures reads { OnRead result (λ o. PropositionsRead env.now ctx.old least left.old (premises_in tree.now.provided) o left.new) }
    ensures same { ctx.new ≡ ctx.old }
{
    read_provided(alloc, env, ctx, least, &tree.provided, left)
}

/// Reads the heading of a scheme in a context in which no letters are in force: behind it the scheme's letters are. No constant of the
/// article's own level may be used in it.
///
/// # Errors
/// The first refusal of its letters' types, of its conclusion and of its premises, in this order; or there was no memory.
pub fn take_heading(
    alloc: Global,
    env: &Environment,
    ctx: &mut Context,
    tree: &SchemeTree,
    left: &mut Left,
) -> Result<ReadHeading, ItemFault>
    ensures { OnTaken result (LeadsBy (TakesHeading env.now ctx.old left.old tree.now) (heading_in ctx.new left.new)) }
{
    let least = next(ctx)?;
    match take_letters(alloc, env, ctx, least, tree, left) {
        Err(f) => Err(f),
        Ok(()) => match read_conclusion(alloc, env, ctx, least, tree, left) {
            Err(f) => Err(of_reading(f)),
            Ok(conclusion) => match read_premises(alloc, env, ctx, least, tree, left) {
                Err(f) => Err(of_reading(f)),
                Ok(premises) => Ok(ReadHeading {
                    conclusion,
                    premises,
                }),
            },
        },
    }
}
