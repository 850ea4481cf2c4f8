//! Disjuncts of two parts.
ghost use Rattle.std.specs.Prelude.{◌≡◌, ◌++◌, map, IfOk, OnOk, if◌then◌else◌};
ghost use Rattle.mz_nf.specs.Disjunct.{joined, pairs};

use mz_logic::disjunct::Disjunct;
use mz_logic::disjuncts::Disjuncts;
use mz_logic::formulas::Formulas;
use mz_logic::literals::Literals;
use std::alloc::{AllocError, Global};

/// Each of the first joined with each of the second, the first varying slowest. A single disjunct of the second is
/// put behind each of the first in its place, so that no literal of the first is copied.
pub fn product(alloc: Global, ds: Disjuncts, es: &Disjuncts) -> Result<Disjuncts, AllocError>
    ensures { IfOk result (λ fs. fs ≡ pairs ds es.now) }
{
    if es.len() == 1 {
        appended_to_each(alloc, ds, es.get(0))
    } else {
        all_pairs(alloc, &ds, es)
    }
}

#[tactic(auto, using(crate::proofs::PairLemmas::pair_rules))]
fn all_pairs(alloc: Global, ds: &Disjuncts, es: &Disjuncts) -> Result<Disjuncts, AllocError>
    ensures { IfOk result (λ fs. fs ≡ pairs ds.now es.now) }
{
    let mut out = Disjuncts::new(alloc);
    for d in &ds.items {
        add_joined(alloc, &mut out, d, es)?;
    }
    Ok(out)
}

/// Each disjunct with what the other one says behind it.
fn appended_to_each(alloc: Global, ds: Disjuncts, e: &Disjunct) -> Result<Disjuncts, AllocError>
    ensures { IfOk result (λ fs. fs ≡ map (λ d. joined d e.now) ds) }
{
    let mut out = Disjuncts::new(alloc);
    for d in ds.items {
        out.push(appended(alloc, d, e)?)?;
    }
    Ok(out)
}

fn appended(alloc: Global, d: Disjunct, e: &Disjunct) -> Result<Disjunct, AllocError>
    ensures { IfOk result (λ f. f ≡ joined d e.now) }
{
    let Disjunct {
        literals,
        universals,
    } = d;
    let literals = with_literals(alloc, literals, &e.literals)?;
    let universals = with_formulas(alloc, universals, &e.universals)?;
    Ok(Disjunct {
        literals,
        universals,
    })
}

/// Those of a conjunction, from those of its parts, or where `positive` is false of its negation, from
/// those of its negated parts.
pub fn combined(
    alloc: Global,
    positive: bool,
    ds: Disjuncts,
    es: &Disjuncts,
) -> Result<Disjuncts, AllocError>
    ensures { IfOk result (λ fs. fs ≡ (if positive then pairs ds es.now else ds ++ es.now)) }
{
    if positive {
        product(alloc, ds, es)
    } else {
        both(alloc, ds, es)
    }
}

/// Those of the first, and then those of the second.
fn both(alloc: Global, ds: Disjuncts, es: &Disjuncts) -> Result<Disjuncts, AllocError>
    ensures { IfOk result (λ fs. fs ≡ ds ++ es.now) }
{
    let mut out = ds;
    for e in &es.items {
        out.push(e.copy(alloc)?)?;
    }
    Ok(out)
}

fn add_joined(
    alloc: Global,
    out: &mut Disjuncts,
    d: &Disjunct,
    es: &Disjuncts,
) -> Result<(), AllocError>
    ensures { OnOk result (out.new ≡ out.old ++ map (joined d.now) es.now) }
{
    for e in &es.items {
        out.push(joined(alloc, d, e)?)?;
    }
    Ok(())
}

fn joined(alloc: Global, d: &Disjunct, e: &Disjunct) -> Result<Disjunct, AllocError>
    ensures { IfOk result (λ f. f ≡ joined d.now e.now) }
{
    let literals = joined_literals(alloc, &d.literals, &e.literals)?;
    let universals = joined_formulas(alloc, &d.universals, &e.universals)?;
    Ok(Disjunct {
        literals,
        universals,
    })
}

fn joined_literals(alloc: Global, ls: &Literals, ms: &Literals) -> Result<Literals, AllocError>
    ensures { IfOk result (λ ns. ns ≡ ls.now ++ ms.now) }
{
    let copied = ls.copy(alloc)?;
    with_literals(alloc, copied, ms)
}

fn with_literals(alloc: Global, ls: Literals, ms: &Literals) -> Result<Literals, AllocError>
    ensures { IfOk result (λ ns. ns ≡ ls ++ ms.now) }
{
    let mut out = ls;
    for m in &ms.items {
        out.push(m.copy(alloc)?)?;
    }
    Ok(out)
}

fn joined_formulas(alloc: Global, fs: &Formulas, gs: &Formulas) -> Result<Formulas, AllocError>
    ensures { IfOk result (λ hs. hs ≡ fs.now ++ gs.now) }
{
    let copied = fs.copy(alloc)?;
    with_formulas(alloc, copied, gs)
}

fn with_formulas(alloc: Global, fs: Formulas, gs: &Formulas) -> Result<Formulas, AllocError>
    ensures { IfOk result (λ hs. hs ≡ fs ++ gs.now) }
{
    let mut out = fs;
    for g in &gs.items {
        out.push(g.copy(alloc)?)?;
    }
    Ok(out)
}
