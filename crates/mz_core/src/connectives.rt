//! Formulas under a guard, and typed quantifiers, which drop double negations.
ghost use Rattle.std.specs.Prelude.{◌≡◌, IfOk};
ghost use Rattle.mz_core.specs.Connectives.{where_guard, for_guard, for_type};

use crate::guard::guard_inside;
use crate::soft_type::SoftType;
use mz_logic::conjunction::{implies, join_to};
use mz_logic::formula::Formula;
use mz_logic::formulas::Formulas;
use std::alloc::{AllocError, Global};

/// `f` under the antecedent that joins the guard, where that has literals.
pub fn where_guard(alloc: Global, guard: &Formulas, f: Formula) -> Result<Formula, AllocError>
    ensures { IfOk result (λ g. g ≡ where_guard guard.now f) }
{
    match guard.items.as_slice() {
        [] => Ok(f),
        [g, others @ ..] => {
            let g = join_to(alloc, g, others)?;
            implies(alloc, g, f)
        }
    }
}

/// `f` for all objects with the guard.
pub fn for_guard(alloc: Global, guard: &Formulas, f: Formula) -> Result<Formula, AllocError>
    ensures { IfOk result (λ h. h ≡ for_guard guard.now f) }
{
    let f = where_guard(alloc, guard, f)?;
    Formula::all(alloc, f)
}

/// `for x being T holds f`, where T stands outside the quantifier.
pub fn for_type(alloc: Global, ty: &SoftType, f: Formula) -> Result<Formula, AllocError>
    ensures { IfOk result (λ g. g ≡ for_type ty.now f) }
{
    let guard = guard_inside(alloc, ty)?;
    for_guard(alloc, &guard, f)
}
