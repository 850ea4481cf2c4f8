//! The types of results, and what is read behind them.
ghost use Rattle.std.specs.Prelude.{◌≡◌, OnOk};
ghost use Rattle.mz_meanings.specs.Results.{ResultRead, MeansRead, EqualsRead};
ghost use Rattle.mz_resolve.specs.Answers.{OnRead};

use crate::formula_definientia::read_formulas;
use crate::it::some_type;
use crate::read_meaning::{ReadEquals, ReadMeans};
use crate::term_definientia::read_terms;
use mz_context::context::Context;
use mz_core::hidden::set_type;
use mz_core::outcome::Left;
use mz_core::soft_type::SoftType;
use mz_environment::environment::Environment;
use mz_resolve::calls::type_of;
use mz_resolve::resolve_fault::ResolveFault;
use mz_tree::expressions::{FormulaTree, TermTree};
use mz_tree_heading::heading::ResultTree;
use mz_tree_heading::meaning::CasesTree;
use std::alloc::Global;

/// The type behind `->`, or `set`. The context is as before.
fn read_result(
    alloc: Global,
    env: &Environment,
    ctx: &mut Context,
    least: u32,
    t: &Option<ResultTree>,
    left: &mut Left,
) -> Result<SoftType, ResolveFault>
    ensures reads { OnRead result (λ o. ResultRead env.now ctx.old least left.old t.now o left.new) }
    ensures same { ctx.new ≡ ctx.old }
{
    match t {
        Some(t) => type_of(alloc, env, ctx, least, &t.ty, left),
        None => Ok(set_type(alloc)),
    }
}

/// The type of a result, and the definiens behind `means`. The context is as before.
///
/// # Errors
/// The refusal of the type, or of the definiens; or there was no memory.
#[tactic(auto, using(crate::proofs::ResultLemmas::means_rules))]
pub fn means_there(
    alloc: Global,
    env: &Environment,
    ctx: &mut Context,
    least: u32,
    t: &Option<ResultTree>,
    f: &CasesTree<FormulaTree>,
    left: &mut Left,
) -> Result<ReadMeans, ResolveFault>
    ensures reads { OnRead result (λ o. MeansRead env.now ctx.old least left.old t.now f.now o left.new) }
    ensures same { OnOk result (ctx.new ≡ ctx.old) }
{
    match read_result(alloc, env, ctx, least, t, left) {
        Err(fault) => Err(fault),
        Ok(ty) => {
            let it = some_type(alloc, &ty)?;
            match read_formulas(alloc, env, ctx, least, &it, f, left) {
                Err(fault) => Err(fault),
                Ok(definiens) => Ok(ReadMeans { ty, definiens }),
            }
        }
    }
}

/// The type of a result, and the definiens behind `equals`. The context is as before.
///
/// # Errors
/// The refusal of the type, or of the definiens; or there was no memory.
#[tactic(auto, using(crate::proofs::ResultLemmas::equals_rules))]
pub fn equals_there(
    alloc: Global,
    env: &Environment,
    ctx: &mut Context,
    least: u32,
    t: &Option<ResultTree>,
    u: &CasesTree<TermTree>,
    left: &mut Left,
) -> Result<ReadEquals, ResolveFault>
    ensures reads { OnRead result (λ o. EqualsRead env.now ctx.old least left.old t.now u.now o left.new) }
    ensures same { OnOk result (ctx.new ≡ ctx.old) }
{
    match read_result(alloc, env, ctx, least, t, left) {
        Err(fault) => Err(fault),
        Ok(ty) => match read_terms(alloc, env, ctx, least, u, left) {
            Err(fault) => Err(fault),
            Ok(definiens) => Ok(ReadEquals { ty, definiens }),
        },
    }
}
