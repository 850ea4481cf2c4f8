//! Private functors and predicates, beside letters of their names.
ghost use Rattle.std.specs.Prelude.{◌≡◌, IfOk};
ghost use Rattle.std.specs.List.{filter};
ghost use Rattle.mz_letters.specs.Letters.{is_other_functor, is_other_predicate};

use mz_context::private::{PrivateFunctor, PrivateFunctors, PrivatePredicate, PrivatePredicates};
use std::alloc::{AllocError, Global};

fn functor_copy(alloc: Global, f: &PrivateFunctor) -> Result<PrivateFunctor, AllocError>
    ensures { IfOk result (λ g. g ≡ f.now) }
{
    let name = f.name.copy(alloc)?;
    let places = f.places.copy(alloc)?;
    let body = f.body.copy(alloc)?;
    Ok(PrivateFunctor { name, places, body })
}

fn predicate_copy(alloc: Global, p: &PrivatePredicate) -> Result<PrivatePredicate, AllocError>
    ensures { IfOk result (λ q. q ≡ p.now) }
{
    let name = p.name.copy(alloc)?;
    let places = p.places.copy(alloc)?;
    let body = p.body.copy(alloc)?;
    Ok(PrivatePredicate { name, places, body })
}

/// Equal functors.
pub fn functors_copy(alloc: Global, fs: &PrivateFunctors) -> Result<PrivateFunctors, AllocError>
    ensures { IfOk result (λ gs. gs ≡ fs.now) }
{
    let mut out = PrivateFunctors::new(alloc);
    for f in &fs.items {
        out.push(functor_copy(alloc, f)?)?;
    }
    Ok(out)
}

/// Equal predicates.
pub fn predicates_copy(
    alloc: Global,
    ps: &PrivatePredicates,
) -> Result<PrivatePredicates, AllocError>
    ensures { IfOk result (λ qs. qs ≡ ps.now) }
{
    let mut out = PrivatePredicates::new(alloc);
    for p in &ps.items {
        out.push(predicate_copy(alloc, p)?)?;
    }
    Ok(out)
}

fn is_other_functor(f: &PrivateFunctor, name: &[u8]) -> bool
    ensures { result ≡ is_other_functor name.now f.now }
{
    f.name.as_slice() != name
}

fn is_other_predicate(p: &PrivatePredicate, name: &[u8]) -> bool
    ensures { result ≡ is_other_predicate name.now p.now }
{
    p.name.as_slice() != name
}

/// The functors with other names.
pub fn functors_but(
    alloc: Global,
    fs: &PrivateFunctors,
    name: &[u8],
) -> Result<PrivateFunctors, AllocError>
    ensures { IfOk result (λ gs. gs ≡ filter (is_other_functor name.now) fs.now) }
{
    let mut out = PrivateFunctors::new(alloc);
    for f in &fs.items {
        if is_other_functor(f, name) {
            out.push(functor_copy(alloc, f)?)?;
        }
    }
    Ok(out)
}

/// The predicates with other names.
pub fn predicates_but(
    alloc: Global,
    ps: &PrivatePredicates,
    name: &[u8],
) -> Result<PrivatePredicates, AllocError>
    ensures { IfOk result (λ qs. qs ≡ filter (is_other_predicate name.now) ps.now) }
{
    let mut out = PrivatePredicates::new(alloc);
    for p in &ps.items {
        if is_other_predicate(p, name) {
            out.push(predicate_copy(alloc, p)?)?;
        }
    }
    Ok(out)
}
