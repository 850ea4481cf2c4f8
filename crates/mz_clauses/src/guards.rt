//! Guards of loci and of further variables, as literals.
ghost use Rattle.std.specs.Prelude.{◌≡◌, ◌+◌, ◌++◌, IfOk, OnOk, map, length};
ghost use Rattle.mz_logic.specs.Term.{Bound};
ghost use Rattle.mz_core.specs.TypeShift.{shift_type};
ghost use Rattle.mz_core.specs.Guard.{guard_literals};
ghost use Rattle.mz_clauses.specs.Guards.{loci_guards, guard_at_object, guard_if_any, adjective_literals, adjectives_at_object};

use mz_core::adjectives::Adjectives;
use mz_core::guard::{adjective_literal, guard_literals};
use mz_core::soft_type::SoftType;
use mz_core::soft_types::SoftTypes;
use mz_core::type_shift::{shift_adjectives, shift_type};
use mz_items::loci::count_of;
use mz_logic::literals::Literals;
use mz_logic::term::Term;
use std::alloc::{AllocError, Global};

/// How many variables the loci and `by` further ones are, where a `u32` has the number; else it is as no memory.
pub fn variable_count(loci: &SoftTypes, by: u32) -> Result<u32, AllocError>
    ensures { IfOk result (λ n. n ≡ length loci.now + by) }
{
    let count = count_of(loci.items.len())?;
    let count = count.checked_add(by).ok_or(AllocError)?;
    Ok(count)
}

/// Puts the literals at the end.
pub fn push_all(out: &mut Literals, ls: Literals) -> Result<(), AllocError>
    ensures { OnOk result (out.new ≡ out.old ++ ls) }
{
    for literal in ls.items {
        out.push(literal)?;
    }
    Ok(())
}

/// The guard of a type that stands outside `by` variables, at one of these.
fn guard_at_variable(
    alloc: Global,
    ty: &SoftType,
    by: u32,
    index: u32,
) -> Result<Literals, AllocError>
    ensures { IfOk result (λ ls. ls ≡ guard_literals (shift_type 0 by ty.now) (Bound index)) }
{
    let ty = shift_type(alloc, ty, 0, by)?;
    guard_literals(alloc, &ty, &Term::bound(index))
}

/// The guards of the loci in their order, under `by` further variables. More than 4,294,967,295 variables are as
/// no memory.
#[tactic(auto, using(crate::proofs::GuardLemmas::guard_rules))]
pub fn loci_guards(alloc: Global, loci: &SoftTypes, by: u32) -> Result<Literals, AllocError>
    ensures { IfOk result (λ ls. ls ≡ loci_guards by loci.now) }
{
    let mut out = Literals::new(alloc);
    let mut above = variable_count(loci, by)?;
    for ty in &loci.items {
        let ls = guard_at_variable(alloc, ty, above, above - 1)?;
        push_all(&mut out, ls)?;
        above -= 1;
    }
    Ok(out)
}

/// The guard of a type that stands outside one variable, at this.
pub fn guard_at_object(alloc: Global, ty: &SoftType) -> Result<Literals, AllocError>
    ensures { IfOk result (λ ls. ls ≡ guard_at_object ty.now) }
{
    guard_at_variable(alloc, ty, 1, 0)
}

/// The guard of the type at a term, where there is a type.
pub fn guard_if_any(alloc: Global, ty: &Option<SoftType>, t: &Term) -> Result<Literals, AllocError>
    ensures { IfOk result (λ ls. ls ≡ guard_if_any ty.now t.now) }
{
    match ty {
        None => Ok(Literals::new(alloc)),
        Some(ty) => guard_literals(alloc, ty, t),
    }
}

/// The literals of adjectives at a term.
pub fn adjective_literals(alloc: Global, xs: &Adjectives, t: &Term) -> Result<Literals, AllocError>
    ensures { IfOk result (λ ls. ls ≡ adjective_literals xs.now t.now) }
{
    let mut out = Vec::new(alloc);
    for x in &xs.items {
        out.push(adjective_literal(alloc, x, t)?)?;
    }
    Ok(Literals { items: out })
}

/// The literals of adjectives that stand outside one variable, at this.
pub fn adjectives_at_object(alloc: Global, xs: &Adjectives) -> Result<Literals, AllocError>
    ensures { IfOk result (λ ls. ls ≡ adjectives_at_object xs.now) }
{
    let xs = shift_adjectives(alloc, xs, 0, 1)?;
    adjective_literals(alloc, &xs, &Term::bound(0))
}
