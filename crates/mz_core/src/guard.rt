//! What a type says of a term.
ghost use Rattle.std.specs.Prelude.{◌≡◌, ◌++◌, ◌∷◌, [], IfOk, map};
ghost use Rattle.mz_logic.specs.Literal.{literal_formula};
ghost use Rattle.mz_core.specs.Guard.{radix_literals, adjective_literal, guard_literals, guard};
ghost use Rattle.mz_core.specs.Connectives.{guard_inside};

use crate::adjective::Adjective;
use crate::hidden::is_of_any_object;
use crate::radix::Radix;
use crate::soft_type::SoftType;
use crate::type_shift::shift_type;
use mz_logic::formulas::Formulas;
use mz_logic::literal::Literal;
use mz_logic::literals::Literals;
use mz_logic::term::{Term, Terms};
use std::alloc::{AllocError, Global};

/// The arguments with one more at the end.
pub fn with_last(alloc: Global, args: &Terms, t: &Term) -> Result<Terms, AllocError>
    ensures { IfOk result (λ ts. ts ≡ args.now ++ t.now ∷ []) }
{
    let mut ts = args.copy(alloc)?;
    let t = t.copy(alloc)?;
    ts.push(t)?;
    Ok(ts)
}

fn radix_literals(alloc: Global, r: &Radix, t: &Term) -> Result<Literals, AllocError>
    ensures { IfOk result (λ ls. ls ≡ radix_literals r.now t.now) }
{
    let mut ls = Literals::new(alloc);
    if is_of_any_object(r.sym) {
        return Ok(ls);
    }
    let args = with_last(alloc, &r.args, t)?;
    ls.push(Literal::Atom {
        positive: true,
        sym: r.sym,
        args,
    })?;
    Ok(ls)
}

/// The literal of an adjective, which has the term as its last argument.
pub fn adjective_literal(alloc: Global, a: &Adjective, t: &Term) -> Result<Literal, AllocError>
    ensures { IfOk result (λ l. l ≡ adjective_literal t.now a.now) }
{
    let args = with_last(alloc, &a.args, t)?;
    Ok(Literal::Atom {
        positive: a.positive,
        sym: a.sym,
        args,
    })
}

/// The guard of the type at a term: the literal of its radix, which `object` and `set` don't have, then
/// that of each adjective. The term is the last argument of each.
pub fn guard_literals(alloc: Global, ty: &SoftType, at: &Term) -> Result<Literals, AllocError>
    ensures { IfOk result (λ ls. ls ≡ guard_literals ty.now at.now) }
{
    let mut ls = radix_literals(alloc, &ty.radix, at)?;
    for a in &ty.adjectives.items {
        ls.push(adjective_literal(alloc, a, at)?)?;
    }
    Ok(ls)
}

fn literal_formulas(alloc: Global, ls: &Literals) -> Result<Formulas, AllocError>
    ensures { IfOk result (λ fs. fs ≡ map literal_formula ls.now) }
{
    let mut out = Vec::new(alloc);
    for l in &ls.items {
        out.push(l.formula(alloc)?)?;
    }
    Ok(Formulas { items: out })
}

/// The literals of the guard as formulas.
pub fn guard(alloc: Global, ty: &SoftType, at: &Term) -> Result<Formulas, AllocError>
    ensures { IfOk result (λ fs. fs ≡ guard ty.now at.now) }
{
    let ls = guard_literals(alloc, ty, at)?;
    literal_formulas(alloc, &ls)
}

/// The guard of a type that stands outside a quantifier, at the quantifier's object.
pub fn guard_inside(alloc: Global, ty: &SoftType) -> Result<Formulas, AllocError>
    ensures { IfOk result (λ fs. fs ≡ guard_inside ty.now) }
{
    let ty = shift_type(alloc, ty, 0, 1)?;
    guard(alloc, &ty, &Term::bound(0))
}
