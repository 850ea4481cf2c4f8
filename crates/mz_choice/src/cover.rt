//! Whether a type's adjectives are covered.
ghost use Rattle.std.specs.Prelude.{◌≡◌, ◌↔◌, ◌++◌, ◌∷◌, [], length, map, reverse, IfOk, IsTrue, OnOk};
ghost use Rattle.std.specs.Arc.{arc_value};
ghost use Rattle.mz_logic.specs.Term.{Const};
ghost use Rattle.mz_context.specs.Context.{next};
ghost use Rattle.mz_core.specs.Guard.{adjective_literal};
ghost use Rattle.mz_fits.specs.Fits.{AllFit, type_at};
ghost use Rattle.mz_choice.specs.Fresh.{with_fresh, Grown};
ghost use Rattle.mz_choice.specs.Cover.{FitFresh, bare, with_loci, loci_constants, over_constants, IsRegisteredChain, registered_type, MemberMatches, Covers, SomeCovers, CoversByChain, HasCover, IsCovered};

use crate::fresh::{fresh, keep, next_number};
use mz_clauses::guards::adjective_literals;
use mz_context::context::Context;
use mz_core::abstraction::terms_over;
use mz_core::adjectives::Adjectives;
use mz_core::radix::Radix;
use mz_core::registration::ExistentialRegistration;
use mz_core::soft_type::SoftType;
use mz_environment::environment::Environment;
use mz_fits::fits::{all_fit, type_at};
use mz_fits::fixed::Fixed;
use mz_fits::matches::{accepted, all_match};
use mz_ground::clause::Clause;
use mz_logic::term::{Term, Terms};
use mz_types::chain::chain_by;
use mz_types::radices::Radixes;
use mz_types::row_types::reversed;
use std::alloc::{AllocError, Global};
use std::sync::Arc;

/// Whether the adjectives fit the constant with the number.
#[tactic(auto, using(crate::proofs::CoverLemmas::told_all))]
fn adjectives_fit(
    alloc: Global,
    clauses: &[Clause],
    ctx: &Context,
    n: u32,
    xs: &Adjectives,
) -> Result<bool, AllocError>
    ensures { IfOk result (λ b. IsTrue b ↔ AllFit clauses.now ctx.now.constants (map (adjective_literal (Const n)) xs.now)) }
{
    let ls = adjective_literals(alloc, xs, &Term::constant(n))?;
    let fit = all_fit(alloc, clauses, &ctx.constants, ls.items.as_slice())?;
    Ok(fit)
}

/// Whether the adjectives fit a fresh constant of the type. The context is as before.
#[tactic(auto, using(crate::proofs::CoverLemmas::fresh_rules))]
fn fit_fresh(
    alloc: Global,
    clauses: &[Clause],
    ctx: &mut Context,
    ty: SoftType,
    xs: &Adjectives,
) -> Result<bool, AllocError>
    ensures fits { IfOk result (λ b. IsTrue b ↔ FitFresh clauses.now ctx.old ty xs.now) }
    ensures same { ctx.new ≡ ctx.old }
{
    let count = ctx.constants.items.len();
    let n = ctx.add(fresh(alloc, ty))?;
    match adjectives_fit(alloc, clauses, ctx, n, xs) {
        Ok(fit) => {
            keep(ctx, count);
            Ok(fit)
        }
        Err(e) => {
            keep(ctx, count);
            Err(e)
        }
    }
}

/// Terms with so many loci for the constants from n on.
#[tactic(auto, using(crate::proofs::CoverLemmas::over_rules))]
fn over_constants(alloc: Global, n: u32, count: usize, ts: &Terms) -> Result<Terms, AllocError>
    ensures { IfOk result (λ us. us ≡ over_constants n count ts.now) }
{
    let mut out = ts.copy(alloc)?;
    let mut c = n;
    let mut left = count;
    while left > 0 {
        out = terms_over(alloc, &out, c, 0)?;
        c = c.checked_add(1).ok_or(AllocError)?;
        left -= 1;
    }
    Ok(out)
}

/// Puts a fresh constant for a locus into force; gives the constants, the innermost first.
#[tactic(auto, using(crate::proofs::CoverLemmas::locus_rules))]
fn add_locus(
    alloc: Global,
    ctx: &mut Context,
    before: Terms,
    ty: &SoftType,
) -> Result<Terms, AllocError>
    ensures context { OnOk result (ctx.new ≡ with_fresh ctx.old (type_at before ty.now)) }
    ensures constants { IfOk result (λ ts. ts ≡ Const (next ctx.old) ∷ before) }
    ensures grown { Grown ctx.old ctx.new }
{
    let at = type_at(alloc, &before, ty)?;
    let n = ctx.add(fresh(alloc, at))?;
    let mut out = before;
    out.items.insert(0, Term::constant(n))?;
    Ok(out)
}

/// Puts a fresh constant for each locus into force; gives the constants, the innermost first.
#[tactic(auto, using(crate::proofs::CoverLemmas::loci_rules))]
fn add_loci(
    alloc: Global,
    ctx: &mut Context,
    before: Terms,
    loci: &[SoftType],
) -> Result<Terms, AllocError>
    ensures context { OnOk result (ctx.new ≡ with_loci ctx.old before loci.now) }
    ensures constants { IfOk result (λ ts. ts ≡ loci_constants (next ctx.old) before loci.now) }
    ensures grown { Grown ctx.old ctx.new }
{
    let mut inside = before;
    let mut rest = loci;
    while let Some((ty, others)) = rest.split_first() {
        inside = add_locus(alloc, ctx, inside, ty)?;
        rest = others;
    }
    Ok(inside)
}

/// The chain of a registration's type, its loci being the constants from the next one on, which stay in force.
#[tactic(auto, using(crate::proofs::CoverLemmas::chain_rules))]
fn chain_in(
    alloc: Global,
    clauses: &[Clause],
    env: &Environment,
    ctx: &mut Context,
    r: &ExistentialRegistration,
) -> Result<Radixes, AllocError>
    ensures chain { IfOk result (λ ms. IsRegisteredChain clauses.now env.now ctx.old r.now ms) }
    ensures grown { Grown ctx.old ctx.new }
{
    let loci = add_loci(alloc, ctx, Terms::new(alloc), r.loci.items.as_slice())?;
    let at = type_at(alloc, &loci, &r.ty)?;
    let n = ctx.add(fresh(alloc, at))?;
    let ms = chain_by(alloc, clauses, env, ctx, &Term::constant(n))?;
    Ok(ms)
}

/// The chain of a registration's type, its loci being the constants from the next one on. The context is as before.
#[tactic(auto, using(crate::proofs::CoverLemmas::left_rules))]
fn registered_chain(
    alloc: Global,
    clauses: &[Clause],
    env: &Environment,
    ctx: &mut Context,
    r: &ExistentialRegistration,
) -> Result<Radixes, AllocError>
    ensures chain { IfOk result (λ ms. IsRegisteredChain clauses.now env.now ctx.old r.now ms) }
    ensures same { ctx.new ≡ ctx.old }
{
    let count = ctx.constants.items.len();
    match chain_in(alloc, clauses, env, ctx, r) {
        Ok(ms) => {
            keep(ctx, count);
            Ok(ms)
        }
        Err(e) => {
            keep(ctx, count);
            Err(e)
        }
    }
}

fn both(alloc: Global, xs: &Adjectives, ys: &Adjectives) -> Result<Adjectives, AllocError>
    ensures { IfOk result (λ zs. zs ≡ xs.now ++ ys.now) }
{
    let mut out = xs.copy(alloc)?;
    let mut rest = ys.copy(alloc)?;
    out.items.append(&mut rest.items)?;
    Ok(out)
}

/// The type with the registered adjectives, at values for the loci.
fn registered_at(
    alloc: Global,
    r: &ExistentialRegistration,
    values: Terms,
) -> Result<SoftType, AllocError>
    ensures { IfOk result (λ ty. ty ≡ type_at (reverse values) (registered_type r.now)) }
{
    let adjectives = both(alloc, &r.ty.adjectives, &r.adjectives)?;
    let radix = r.ty.radix.copy(alloc)?;
    let ty = SoftType { adjectives, radix };
    let at = type_at(alloc, &reversed(values), &ty)?;
    Ok(at)
}

/// The values of the registration's loci by which a member of the chain of its type matches the type's radix.
#[tactic(auto, using(crate::proofs::CoverLemmas::member_rules))]
fn member_matches(
    alloc: Global,
    clauses: &[Clause],
    ctx: &Context,
    ty: &SoftType,
    r: &ExistentialRegistration,
    m: &Radix,
) -> Result<Option<Terms>, AllocError>
    ensures { IfOk result (λ o. MemberMatches clauses.now ctx.now ty.now r.now m.now o) }
{
    let count = r.loci.items.len();
    let next = next_number(ctx)?;
    let formals = over_constants(alloc, next, count, &m.args)?;
    let none = Fixed::none(alloc, count)?;
    let us = formals.items.as_slice();
    let ts = ty.radix.args.items.as_slice();
    match all_match(alloc, clauses, &ctx.constants, count, none, us, ts)? {
        None => Ok(None),
        Some(fixed) => {
            let values = accepted(alloc, clauses, &ctx.constants, &r.loci, &fixed)?;
            Ok(values)
        }
    }
}

/// Whether the registration covers the type by a member of the chain of its type. The context is as before.
#[tactic(auto, using(crate::proofs::CoverLemmas::covers_rules))]
fn covers_by(
    alloc: Global,
    clauses: &[Clause],
    ctx: &mut Context,
    ty: &SoftType,
    r: &ExistentialRegistration,
    m: &Radix,
) -> Result<bool, AllocError>
    ensures covers { IfOk result (λ b. IsTrue b ↔ Covers clauses.now ctx.old ty.now r.now m.now) }
    ensures same { ctx.new ≡ ctx.old }
{
    if !m.sym.is(ty.radix.sym) {
        return Ok(false);
    }
    match member_matches(alloc, clauses, ctx, ty, r, m)? {
        None => Ok(false),
        Some(values) => {
            let at = registered_at(alloc, r, values)?;
            let fit = fit_fresh(alloc, clauses, ctx, at, &ty.adjectives)?;
            Ok(fit)
        }
    }
}

/// Whether it does by some of these members.
#[tactic(auto, using(crate::proofs::CoverLemmas::some_rules))]
fn some_covers(
    alloc: Global,
    clauses: &[Clause],
    ctx: &mut Context,
    ty: &SoftType,
    r: &ExistentialRegistration,
    members: &[Radix],
) -> Result<bool, AllocError>
    ensures covers { IfOk result (λ b. IsTrue b ↔ SomeCovers clauses.now ctx.old ty.now r.now members.now) }
    ensures same { ctx.new ≡ ctx.old }
{
    match members.split_first() {
        None => Ok(false),
        Some((m, others)) => {
            let here = covers_by(alloc, clauses, ctx, ty, r, m)?;
            if here {
                return Ok(true);
            }
            let covered = some_covers(alloc, clauses, ctx, ty, r, others)?;
            Ok(covered)
        }
    }
}

/// Whether it does by some member of the chain of its type.
#[tactic(auto, using(crate::proofs::CoverLemmas::by_chain_rules))]
fn covers_by_chain(
    alloc: Global,
    clauses: &[Clause],
    env: &Environment,
    ctx: &mut Context,
    ty: &SoftType,
    r: &ExistentialRegistration,
) -> Result<bool, AllocError>
    ensures covers { IfOk result (λ b. IsTrue b ↔ CoversByChain clauses.now env.now ctx.old ty.now r.now) }
    ensures same { ctx.new ≡ ctx.old }
{
    let ms = registered_chain(alloc, clauses, env, ctx, r)?;
    let covered = some_covers(alloc, clauses, ctx, ty, r, ms.items.as_slice())?;
    Ok(covered)
}

/// Whether some of these registrations does.
#[tactic(auto, using(crate::proofs::CoverLemmas::has_rules))]
fn has_cover(
    alloc: Global,
    clauses: &[Clause],
    env: &Environment,
    ctx: &mut Context,
    ty: &SoftType,
    rs: &[Arc<ExistentialRegistration>],
) -> Result<bool, AllocError>
    ensures covers { IfOk result (λ b. IsTrue b ↔ HasCover clauses.now env.now ctx.old ty.now (map arc_value rs.now)) }
    ensures same { ctx.new ≡ ctx.old }
{
    let mut rest = rs;
    while let Some((r, others)) = rest.split_first() {
        let here = covers_by_chain(alloc, clauses, env, ctx, ty, r)?;
        if here {
            return Ok(true);
        }
        rest = others;
    }
    Ok(false)
}

fn bare(alloc: Global, ty: &SoftType) -> Result<SoftType, AllocError>
    ensures { IfOk result (λ t. t ≡ bare ty.now) }
{
    let radix = ty.radix.copy(alloc)?;
    Ok(SoftType {
        adjectives: Adjectives::new(alloc),
        radix,
    })
}

/// Whether the type has no adjectives, or they fit from the guard of its radix, or a registration that is let in covers
/// it. The context is as before.
#[tactic(auto, using(crate::proofs::CoverLemmas::covered_rules))]
pub fn is_covered_by(
    alloc: Global,
    clauses: &[Clause],
    env: &Environment,
    ctx: &mut Context,
    ty: &SoftType,
) -> Result<bool, AllocError>
    ensures covered { IfOk result (λ b. IsTrue b ↔ IsCovered clauses.now env.now ctx.old ty.now) }
    ensures same { ctx.new ≡ ctx.old }
{
    let xs = ty.adjectives.items.as_slice();
    let count = xs.len();
    if count == 0 {
        return Ok(true);
    }
    let alone = bare(alloc, ty)?;
    let fit = fit_fresh(alloc, clauses, ctx, alone, &ty.adjectives)?;
    if fit {
        return Ok(true);
    }
    let rs = env.registrations.as_slice();
    let covered = has_cover(alloc, clauses, env, ctx, ty, rs)?;
    Ok(covered)
}
