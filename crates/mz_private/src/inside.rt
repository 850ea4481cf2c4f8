//! The context in which a body is read.
ghost use Rattle.std.specs.Prelude.{◌≡◌, length, map, IfOk, OnOk};
ghost use Rattle.mz_context.specs.Context.{next};
ghost use Rattle.mz_names.specs.Closing.{with_variables};
ghost use Rattle.mz_choice.specs.Fresh.{keeping};
ghost use Rattle.mz_private.specs.Private.{place_of, constants_of, inside};

use mz_base::text::Text;
use mz_choice::fresh::{keep, next_number};
use mz_context::context::Context;
use mz_core::soft_type::SoftType;
use mz_core::soft_types::SoftTypes;
use mz_formulas::declared::put_each;
use mz_logic::term::{Term, Terms};
use mz_names::variable::{Variable, Variables};
use std::alloc::{AllocError, Global};
use std::mem;

fn place_of(alloc: Global, ty: &SoftType) -> Result<Variable, AllocError>
    ensures { IfOk result (λ v. v ≡ place_of ty.now) }
{
    let ty = ty.copy(alloc)?;
    Ok(Variable {
        name: Text::new(alloc),
        ty,
    })
}

fn places_of(alloc: Global, tys: &[SoftType]) -> Result<Variables, AllocError>
    ensures { IfOk result (λ vs. vs ≡ map place_of tys.now) }
{
    let mut out = Variables::new(alloc);
    for ty in tys {
        out.push(place_of(alloc, ty)?)?;
    }
    Ok(out)
}

/// The constants of the places, the first of which has the number.
#[tactic(auto, using(crate::proofs::InsideLemmas::constant_rules))]
fn constants_of(alloc: Global, first: u32, tys: &[SoftType]) -> Result<Terms, AllocError>
    ensures { IfOk result (λ ts. ts ≡ constants_of first tys.now) }
{
    let mut out = Terms::new(alloc);
    let mut number = first;
    let mut rest = tys;
    while let Some((_ty, others)) = rest.split_first() {
        out.push(Term::constant(number))?;
        number = number.checked_add(1).ok_or(AllocError)?;
        rest = others;
    }
    Ok(out)
}

fn put_places(alloc: Global, ctx: &mut Context, tys: &[SoftType]) -> Result<(), AllocError>
    ensures { OnOk result (ctx.new ≡ with_variables ctx.old (map place_of tys.now)) }
{
    let vs = places_of(alloc, tys)?;
    put_each(alloc, ctx, vs.items.as_slice())
}

/// Puts constants of the types into force, for which `$1`, `$2` and so on stand from now on; gives what these stood for before.
#[tactic(auto, using(crate::proofs::InsideLemmas::enter_rules))]
pub fn enter(alloc: Global, ctx: &mut Context, tys: &SoftTypes) -> Result<Terms, AllocError>
    ensures inside { OnOk result (ctx.new ≡ inside ctx.old tys.now) }
    ensures before { IfOk result (λ ts. ts ≡ ctx.old.arguments) }
{
    let first = next_number(ctx)?;
    let arguments = constants_of(alloc, first, tys.items.as_slice())?;
    put_places(alloc, ctx, tys.items.as_slice())?;
    let before = mem::replace(&mut ctx.arguments, arguments);
    Ok(before)
}

/// How many places the list of constants has.
pub fn constant_count(ctx: &Context) -> usize
    ensures { result ≡ length ctx.now.constants }
{
    ctx.constants.items.len()
}

/// Keeps so many of the constants; `$1`, `$2` and so on stand for these terms again.
pub fn leave(ctx: &mut Context, count: usize, before: Terms)
    ensures { ctx.new ≡ record (keeping count ctx.old) { arguments = before } }
{
    keep(ctx, count);
    ctx.arguments = before;
}
