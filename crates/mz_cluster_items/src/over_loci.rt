//! Terms and adjectives that were read with loci, as they stand under them.
ghost use Rattle.std.specs.Prelude.{◌≡◌, map, IfOk, OnOk};
ghost use Rattle.mz_logic.specs.Abstraction.{term_over};
ghost use Rattle.mz_cluster_items.specs.OverLoci.{term_over_loci, adjective_over_loci, adjectives_over_loci, type_if_any_over_loci};

use mz_core::abstraction::term_over;
use mz_core::adjective::Adjective;
use mz_core::adjectives::Adjectives;
use mz_core::soft_type::SoftType;
use mz_loci::loci::type_over_loci;
use mz_logic::term::{Term, Terms};
use std::alloc::{AllocError, Global};

fn make_index(alloc: Global, t: &mut Term, c: u32) -> Result<(), AllocError>
    ensures { OnOk result (t.new ≡ term_over c 0 t.old) }
{
    let over = term_over(alloc, t, c, 0)?;
    *t = over;
    Ok(())
}

fn make_indices(alloc: Global, t: &mut Term, least: u32, count: u32) -> Result<(), AllocError>
    ensures { OnOk result (t.new ≡ term_over_loci least count t.old) }
{
    for k in 0..count {
        let c = least.checked_add(k).ok_or(AllocError)?;
        make_index(alloc, t, c)?;
    }
    Ok(())
}

/// A term that was read with so many loci, the constants from `least` on, as it stands under them.
pub fn term_over_loci(alloc: Global, t: &Term, least: u32, count: u32) -> Result<Term, AllocError>
    ensures { IfOk result (λ u. u ≡ term_over_loci least count t.now) }
{
    let mut out = t.copy(alloc)?;
    make_indices(alloc, &mut out, least, count)?;
    Ok(out)
}

fn terms_over_loci(alloc: Global, ts: &Terms, least: u32, count: u32) -> Result<Terms, AllocError>
    ensures { IfOk result (λ us. us ≡ map (term_over_loci least count) ts.now) }
{
    let mut out = Vec::new(alloc);
    for t in &ts.items {
        out.push(term_over_loci(alloc, t, least, count)?)?;
    }
    Ok(Terms { items: out })
}

fn adjective_over_loci(
    alloc: Global,
    a: &Adjective,
    least: u32,
    count: u32,
) -> Result<Adjective, AllocError>
    ensures { IfOk result (λ b. b ≡ adjective_over_loci least count a.now) }
{
    let args = terms_over_loci(alloc, &a.args, least, count)?;
    Ok(Adjective {
        positive: a.positive,
        sym: a.sym,
        args,
    })
}

/// The same of each adjective.
pub fn adjectives_over_loci(
    alloc: Global,
    xs: &Adjectives,
    least: u32,
    count: u32,
) -> Result<Adjectives, AllocError>
    ensures { IfOk result (λ ys. ys ≡ adjectives_over_loci least count xs.now) }
{
    let mut out = Vec::new(alloc);
    for a in &xs.items {
        out.push(adjective_over_loci(alloc, a, least, count)?)?;
    }
    Ok(Adjectives { items: out })
}

/// The same of a type, where there is one.
pub fn type_if_any_over_loci(
    alloc: Global,
    ty: &Option<SoftType>,
    least: u32,
    count: u32,
) -> Result<Option<SoftType>, AllocError>
    ensures { IfOk result (λ o. o ≡ type_if_any_over_loci least count ty.now) }
{
    match ty {
        None => Ok(None),
        Some(ty) => {
            let ty = type_over_loci(alloc, ty, least, count)?;
            Ok(Some(ty))
        }
    }
}
