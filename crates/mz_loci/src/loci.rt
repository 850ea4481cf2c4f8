//! Loci, and what was read with them as it stands under them.
ghost use Rattle.std.specs.Prelude.{◌≡◌, ◌++◌, ◌∷◌, [], IfOk, OnOk};
ghost use Rattle.mz_core.specs.Abstraction.{type_over, statement_over};
ghost use Rattle.mz_loci.specs.Loci.{loci_from, type_of_locus, type_over_loci, statement_over_loci, types_behind, locus_types, locus_constants, statement_at_loci, behind_loci};

use mz_context::constants::Constant;
use mz_context::context::Context;
use mz_core::abstraction::{statement_over, type_over};
use mz_core::hidden::object_type;
use mz_core::soft_type::SoftType;
use mz_core::soft_types::SoftTypes;
use mz_core::statement::Statement;
use mz_core::type_substitution::substitute_statement;
use mz_logic::beyond::Beyond;
use mz_logic::term::{Term, Terms};
use std::alloc::{AllocError, Global};

/// The loci of a block at whose word the next constant had the number: the constants that came into force since.
pub fn loci_from(ks: &[Option<Constant>], least: u32) -> &[Option<Constant>]
    ensures { result.now ≡ loci_from least ks.now }
{
    let places = (least as usize).saturating_sub(1);
    if places > ks.len() {
        return &[];
    }
    &ks[places..]
}

fn type_of_locus(alloc: Global, k: &Option<Constant>) -> Result<SoftType, AllocError>
    ensures { IfOk result (λ t. t ≡ type_of_locus k.now) }
{
    match k {
        Some(k) => k.ty.copy(alloc),
        None => Ok(object_type(alloc)),
    }
}

fn make_index(alloc: Global, ty: &mut SoftType, c: u32) -> Result<(), AllocError>
    ensures { OnOk result (ty.new ≡ type_over c 0 ty.old) }
{
    let over = type_over(alloc, ty, c, 0)?;
    *ty = over;
    Ok(())
}

fn make_indices(alloc: Global, ty: &mut SoftType, least: u32, count: u32) -> Result<(), AllocError>
    ensures { OnOk result (ty.new ≡ type_over_loci least count ty.old) }
{
    for k in 0..count {
        let c = least.checked_add(k).ok_or(AllocError)?;
        make_index(alloc, ty, c)?;
    }
    Ok(())
}

/// A type that was read with so many loci, the constants from `least` on, as it stands under them.
pub fn type_over_loci(
    alloc: Global,
    ty: &SoftType,
    least: u32,
    count: u32,
) -> Result<SoftType, AllocError>
    ensures { IfOk result (λ t. t ≡ type_over_loci least count ty.now) }
{
    let mut out = ty.copy(alloc)?;
    make_indices(alloc, &mut out, least, count)?;
    Ok(out)
}

fn abstract_statement(alloc: Global, s: &mut Statement, c: u32) -> Result<(), AllocError>
    ensures { OnOk result (s.new ≡ statement_over c 0 s.old) }
{
    let over = statement_over(alloc, s, c, 0)?;
    *s = over;
    Ok(())
}

fn abstract_each(alloc: Global, s: &mut Statement, least: u32, count: u32) -> Result<(), AllocError>
    ensures { OnOk result (s.new ≡ statement_over_loci least count s.old) }
{
    for k in 0..count {
        let c = least.checked_add(k).ok_or(AllocError)?;
        abstract_statement(alloc, s, c)?;
    }
    Ok(())
}

/// A statement that was read with so many loci, the constants from `least` on, as it stands under them.
pub fn statement_over_loci(
    alloc: Global,
    s: &Statement,
    least: u32,
    count: u32,
) -> Result<Statement, AllocError>
    ensures { IfOk result (λ t. t ≡ statement_over_loci least count s.now) }
{
    let mut out = s.copy(alloc)?;
    abstract_each(alloc, &mut out, least, count)?;
    Ok(out)
}

fn push_type(
    alloc: Global,
    out: &mut SoftTypes,
    k: &Option<Constant>,
    least: u32,
    before: u32,
) -> Result<(), AllocError>
    ensures { OnOk result (out.new ≡ out.old ++ type_over_loci least before (type_of_locus k.now) ∷ []) }
{
    let mut ty = type_of_locus(alloc, k)?;
    make_indices(alloc, &mut ty, least, before)?;
    out.push(ty)
}

/// The types of loci, the constants from `least` on, each under those before it.
pub fn locus_types(
    alloc: Global,
    ks: &[Option<Constant>],
    least: u32,
) -> Result<SoftTypes, AllocError>
    ensures { IfOk result (λ tys. tys ≡ locus_types least ks.now) }
{
    let mut out = SoftTypes::new(alloc);
    let mut before = 0;
    let mut rest = ks;
    while let Some((k, others)) = rest.split_first() {
        push_type(alloc, &mut out, k, least, before)?;
        before = before.checked_add(1).ok_or(AllocError)?;
        rest = others;
    }
    Ok(out)
}

/// So many loci, the constants from `least` on, the last one first.
fn locus_constants(alloc: Global, least: u32, count: u32) -> Result<Terms, AllocError>
    ensures { IfOk result (λ ts. ts ≡ locus_constants least count) }
{
    let mut out = Terms::new(alloc);
    let mut k = count;
    while k > 0 {
        k -= 1;
        let c = least.checked_add(k).ok_or(AllocError)?;
        out.push(Term::constant(c))?;
    }
    Ok(out)
}

/// A statement under so many loci, where these are the constants from `least` on.
pub fn statement_at_loci(
    alloc: Global,
    s: &Statement,
    least: u32,
    count: u32,
) -> Result<Statement, AllocError>
    ensures { IfOk result (λ t. t ≡ statement_at_loci least count s.now) }
{
    let values = locus_constants(alloc, least, count)?;
    substitute_statement(alloc, s, 0, &values, Beyond::Lowered)
}

/// Takes the loci of a block, at whose word the next constant had the number, out of force. There is no statement just before.
pub fn end_loci(ctx: &mut Context, least: u32)
    ensures { ctx.new ≡ behind_loci ctx.old least }
{
    let places = (least as usize).saturating_sub(1);
    ctx.constants.items.truncate(places);
    ctx.previous = None;
}
