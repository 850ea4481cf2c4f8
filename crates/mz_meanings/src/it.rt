//! What `it` stands for.
ghost use Rattle.std.specs.Prelude.{◌≡◌, Some, IfOk, OnOk};
ghost use Rattle.mz_meanings.specs.It.{it_constant, with_it, without_it};
ghost use Rattle.mz_resolve.specs.Answers.{OnRead};
ghost use Rattle.mz_resolve.specs.Calls.{FormulaRead};

use mz_base::text::Text;
use mz_context::constants::Constant;
use mz_context::context::Context;
use mz_core::outcome::Left;
use mz_core::soft_type::SoftType;
use mz_core::statement::Statement;
use mz_environment::environment::Environment;
use mz_logic::term::Term;
use mz_resolve::calls::formula;
use mz_resolve::resolve_fault::ResolveFault;
use mz_tree::expressions::FormulaTree;
use std::alloc::{AllocError, Global};

fn it_constant(alloc: Global, ty: &SoftType) -> Result<Constant, AllocError>
    ensures { IfOk result (λ k. k ≡ it_constant ty.now) }
{
    let ty = ty.copy(alloc)?;
    Ok(Constant {
        name: Text::new(alloc),
        ty,
        equal: None,
    })
}

/// Makes `it` known, as a constant of the type. What it stood for before.
fn put_it(alloc: Global, ctx: &mut Context, ty: &SoftType) -> Result<Option<Term>, AllocError>
    ensures known { OnOk result (ctx.new ≡ with_it ctx.old ty.now) }
    ensures before { IfOk result (λ i. i ≡ ctx.old.it) }
{
    let k = it_constant(alloc, ty)?;
    let number = ctx.add(k)?;
    let before = ctx.it.take();
    ctx.it = Some(Term::constant(number));
    Ok(before)
}

/// Leaves so many places of constants, and `it` as it was before.
fn end_it(ctx: &mut Context, places: usize, before: Option<Term>)
    ensures { ctx.new ≡ without_it ctx.old places before }
{
    ctx.constants.items.truncate(places);
    ctx.it = before;
}

/// Reads a formula in which `it` is of the type. The context is as before.
///
/// # Errors
/// The refusal of the formula; or there was no memory.
#[tactic(auto, using(crate::proofs::ItLemmas::told_back))]
pub fn read_with_it(
    alloc: Global,
    env: &Environment,
    ctx: &mut Context,
    least: u32,
    ty: &SoftType,
    f: &FormulaTree,
    left: &mut Left,
) -> Result<Statement, ResolveFault>
    ensures reads { OnRead result (λ o. FormulaRead env.now (with_it ctx.old ty.now) least left.old f.now o left.new) }
    ensures same { OnOk result (ctx.new ≡ ctx.old) }
{
    let places = ctx.constants.items.len();
    let before = put_it(alloc, ctx, ty)?;
    let answer = formula(alloc, env, ctx, least, f, left);
    end_it(ctx, places, before);
    answer
}

/// A type for `it`.
pub fn some_type(alloc: Global, ty: &SoftType) -> Result<Option<SoftType>, AllocError>
    ensures { IfOk result (λ o. o ≡ Some ty.now) }
{
    let ty = ty.copy(alloc)?;
    Ok(Some(ty))
}
