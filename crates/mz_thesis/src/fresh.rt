//! Fresh constants.
ghost use Rattle.std.specs.Prelude.{◌≡◌, ◌↔◌, IfOk, IsTrue};
ghost use Rattle.mz_logic.specs.Term.{Const};
ghost use Rattle.mz_context.specs.Context.{numbers};
ghost use Rattle.mz_thesis.specs.Rows.{with_fresh, FitsFresh};

use mz_base::text::Text;
use mz_context::constants::{Constant, Constants};
use mz_core::guard::guard_literals;
use mz_core::soft_type::SoftType;
use mz_fits::fits::all_fit;
use mz_ground::clause::Clause;
use mz_logic::term::Term;
use std::alloc::{AllocError, Global};

fn term_copy(alloc: Global, t: &Option<Term>) -> Result<Option<Term>, AllocError>
    ensures { IfOk result (λ o. o ≡ t.now) }
{
    match t {
        Some(t) => {
            let t = t.copy(alloc)?;
            Ok(Some(t))
        }
        None => Ok(None),
    }
}

fn constant_copy(alloc: Global, k: &Constant) -> Result<Constant, AllocError>
    ensures { IfOk result (λ c. c ≡ k.now) }
{
    let name = k.name.copy(alloc)?;
    let ty = k.ty.copy(alloc)?;
    let equal = term_copy(alloc, &k.equal)?;
    Ok(Constant { name, ty, equal })
}

fn place_copy(alloc: Global, k: &Option<Constant>) -> Result<Option<Constant>, AllocError>
    ensures { IfOk result (λ o. o ≡ k.now) }
{
    match k {
        Some(k) => {
            let k = constant_copy(alloc, k)?;
            Ok(Some(k))
        }
        None => Ok(None),
    }
}

/// Equal constants.
pub fn constants_copy(alloc: Global, ks: &Constants) -> Result<Constants, AllocError>
    ensures { IfOk result (λ cs. cs ≡ ks.now) }
{
    let mut out = Vec::new(alloc);
    for k in &ks.items {
        out.push(place_copy(alloc, k)?)?;
    }
    Ok(Constants { items: out })
}

fn with_fresh(alloc: Global, ks: &Constants, ty: &SoftType) -> Result<Constants, AllocError>
    ensures { IfOk result (λ cs. cs ≡ with_fresh ks.now ty.now) }
{
    let ty = ty.copy(alloc)?;
    let mut out = constants_copy(alloc, ks)?;
    out.push(Constant {
        name: Text::new(alloc),
        ty,
        equal: None,
    })?;
    Ok(out)
}

/// The next number as a constant. More than 4,294,967,295 are as no memory.
pub fn next(ks: &Constants) -> Result<Term, AllocError>
    ensures { IfOk result (λ t. t ≡ Const (numbers ks.now)) }
{
    let count = ks.items.len();
    if count >= 4294967295 {
        return Err(AllocError);
    }
    Ok(Term::constant(count as u32 + 1))
}

/// Whether the second type fits a fresh constant of the first one.
#[tactic(auto, using(crate::proofs::RowLemmas::fresh_rules))]
pub fn fits_fresh(
    alloc: Global,
    clauses: &[Clause],
    constants: &Constants,
    known: &SoftType,
    ty: &SoftType,
) -> Result<bool, AllocError>
    ensures { IfOk result (λ b. IsTrue b ↔ FitsFresh clauses.now constants.now known.now ty.now) }
{
    let fresh = next(constants)?;
    let guard = guard_literals(alloc, ty, &fresh)?;
    let count = guard.items.len();
    if count == 0 {
        return Ok(true);
    }
    let constants = with_fresh(alloc, constants, known)?;
    let fit = all_fit(alloc, clauses, &constants, guard.items.as_slice())?;
    Ok(fit)
}
