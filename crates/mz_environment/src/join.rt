//! One environment behind another.
ghost use Rattle.std.specs.Prelude.{◌≡◌, ◌++◌, OnOk};
ghost use Rattle.mz_environment.specs.Environment.{joined};

use crate::environment::Environment;
use crate::syms::Syms;
use mz_ground::clauses::Clauses;
use std::alloc::{AllocError, Global};

/// Puts these at the end.
pub fn push_syms(out: &mut Syms, more: &Syms) -> Result<(), AllocError>
    ensures { OnOk result (out.new ≡ out.old ++ more.now) }
{
    for x in &more.items {
        out.push(*x)?;
    }
    Ok(())
}

/// Puts equal clauses at the end.
pub fn push_clauses(alloc: Global, out: &mut Clauses, more: &Clauses) -> Result<(), AllocError>
    ensures { OnOk result (out.new ≡ out.old ++ more.now) }
{
    for x in &more.items {
        let c = x.copy(alloc)?;
        out.push(c)?;
    }
    Ok(())
}

/// Puts an environment behind another, list by list. They share all entries but clauses and symbols.
pub fn join(alloc: Global, out: &mut Environment, more: &Environment) -> Result<(), AllocError>
    ensures { OnOk result (out.new ≡ joined out.old more.now) }
{
    out.functors.append(&more.functors)?;
    out.modes.append(&more.modes)?;
    out.structures.append(&more.structures)?;
    push_syms(&mut out.sethoods, &more.sethoods)?;
    out.notations.append(&more.notations)?;
    push_clauses(alloc, &mut out.typing, &more.typing)?;
    push_clauses(alloc, &mut out.further, &more.further)?;
    push_clauses(alloc, &mut out.equalities, &more.equalities)?;
    out.steps.append(&more.steps)?;
    out.expansions.append(&more.expansions)?;
    out.registrations.append(&more.registrations)?;
    out.theorems.append(&more.theorems)?;
    out.schemes.append(&more.schemes)
}
