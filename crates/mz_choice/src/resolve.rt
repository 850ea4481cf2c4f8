//! What an applied symbol reads to, or why it reads to nothing.
ghost use Rattle.std.specs.Prelude.{◌≡◌, ◌↔◌, IfOk, IsTrue, map};
ghost use Rattle.std.specs.Arc.{arc_value};
ghost use Rattle.std.specs.List.{list_any};
ghost use Rattle.mz_types.specs.Known.{typing};
ghost use Rattle.mz_choice.specs.Choice.{is_of_symbol, is_candidate};
ghost use Rattle.mz_choice.specs.Cover.{IsCovered};
ghost use Rattle.mz_choice.specs.Resolution.{Resolves};

use crate::choice::{Applied, Wanted, chosen_by, is_candidate, is_of_symbol};
use crate::cover::is_covered_by;
use mz_context::context::Context;
use mz_core::notation::{Meaning, Notation};
use mz_core::soft_type::SoftType;
use mz_environment::environment::Environment;
use mz_ground::clause::Clause;
pub use mz_types::known::typing;
use std::alloc::{AllocError, Global};
use std::sync::Arc;

/// What an applied symbol reads to; or why it reads to nothing: the symbol has no notation; it has some, and none with
/// these numbers of arguments; there are such, and none of them passes.
#[derive(Drop)]
pub enum Resolution {
    ReadsTo(Meaning),
    UnknownSymbol,
    NoNotation,
    UnfitArgument,
}

#[tactic(auto, using(crate::proofs::ResolveLemmas::has_rules))]
fn has_symbol(a: &Applied, xs: &[Arc<Notation>]) -> bool
    ensures { result ≡ list_any (is_of_symbol a.now) (map arc_value xs.now) }
{
    let mut rest = xs;
    while let Some((x, others)) = rest.split_first() {
        if is_of_symbol(a, x) {
            return true;
        }
        rest = others;
    }
    false
}

#[tactic(auto, using(crate::proofs::ResolveLemmas::has_rules))]
fn has_candidate(a: &Applied, xs: &[Arc<Notation>]) -> bool
    ensures { result ≡ list_any (is_candidate a.now) (map arc_value xs.now) }
{
    let mut rest = xs;
    while let Some((x, others)) = rest.split_first() {
        if is_candidate(a, x) {
            return true;
        }
        rest = others;
    }
    false
}

/// What the applied symbol reads to by typing clauses, or why it reads to nothing.
#[tactic(auto, using(crate::proofs::ResolveLemmas::resolve_rules))]
pub fn resolve_by(
    alloc: Global,
    clauses: &[Clause],
    env: &Environment,
    ctx: &Context,
    w: &Wanted,
    a: &Applied,
) -> Result<Resolution, AllocError>
    ensures { IfOk result (λ o. Resolves clauses.now env.now ctx.now w.now a.now o) }
{
    let xs = env.notations.of(&a.symbol);
    match chosen_by(alloc, clauses, env, ctx, w, a)? {
        Some(m) => Ok(Resolution::ReadsTo(m)),
        None => {
            if has_candidate(a, xs) {
                return Ok(Resolution::UnfitArgument);
            }
            if has_symbol(a, xs) {
                return Ok(Resolution::NoNotation);
            }
            Ok(Resolution::UnknownSymbol)
        }
    }
}

/// What the applied symbol reads to in the context of the environment, or why it reads to nothing: the arguments fix the
/// loci and fit them, of the notations of the symbol with these numbers of arguments the latest that passes.
pub fn resolve(
    alloc: Global,
    env: &Environment,
    ctx: &Context,
    w: &Wanted,
    a: &Applied,
) -> Result<Resolution, AllocError>
    ensures { IfOk result (λ o. Resolves (typing env.now ctx.now) env.now ctx.now w.now a.now o) }
{
    match typing(alloc, env, ctx)? {
        Some(clauses) => {
            let o = resolve_by(alloc, clauses.as_slice(), env, ctx, w, a)?;
            Ok(o)
        }
        None => {
            let o = resolve_by(alloc, env.typing.as_slice(), env, ctx, w, a)?;
            Ok(o)
        }
    }
}

/// Whether the type's adjectives are covered in the context of the environment. The context is as before.
pub fn is_covered(
    alloc: Global,
    env: &Environment,
    ctx: &mut Context,
    ty: &SoftType,
) -> Result<bool, AllocError>
    ensures covered { IfOk result (λ b. IsTrue b ↔ IsCovered (typing env.now ctx.old) env.now ctx.old ty.now) }
    ensures same { ctx.new ≡ ctx.old }
{
    match typing(alloc, env, ctx)? {
        Some(clauses) => {
            let b = is_covered_by(alloc, clauses.as_slice(), env, ctx, ty)?;
            Ok(b)
        }
        None => {
            let b = is_covered_by(alloc, env.typing.as_slice(), env, ctx, ty)?;
            Ok(b)
        }
    }
}
