//! What fits by typing clauses.
ghost use Rattle.std.specs.Prelude.{◌≡◌, ◌↔◌, [], ◌∷◌, IfOk, IsTrue};
ghost use Rattle.mz_ground.specs.Ground.{IsGroundWithinLimits};
ghost use Rattle.mz_fits.specs.Fits.{question, IsFactWithin, LiteralFits, AllFit, TypeFits, AreEqualBy, type_at, LociFit};

use mz_classes::close_classes::close_classes;
use mz_context::constants::Constants;
use mz_context::gather::gathered;
use mz_core::guard::guard_literals;
use mz_core::soft_type::SoftType;
use mz_core::type_substitution::substitute_type;
use mz_ground::clause::Clause;
use mz_ground::fact_set::FactSet;
use mz_ground::ground::ground;
use mz_ground::ground_fault::GroundFault;
use mz_ground::ground_part::Ground;
use mz_logic::beyond::Beyond;
use mz_logic::disjunct::Disjunct;
use mz_logic::formula::Formula;
use mz_logic::formulas::Formulas;
use mz_logic::literal::Literal;
use mz_logic::term::{Term, Terms};
use std::alloc::{AllocError, Global};

/// The disjunct on which it is decided whether the literal fits.
fn question(alloc: Global, constants: &Constants, l: &Literal) -> Result<Disjunct, AllocError>
    ensures { IfOk result (λ d. d ≡ question constants.now l.now) }
{
    let literals = gathered(alloc, constants, l)?;
    let body = l.formula(alloc)?;
    let mut universals = Formulas::new(alloc);
    universals.push(Formula::all(alloc, body)?)?;
    Ok(Disjunct {
        literals,
        universals,
    })
}

#[tactic(auto, using(crate::proofs::LimitLemmas::told_fact))]
fn is_fact(
    alloc: Global,
    d: &Disjunct,
    clauses: &[Clause],
    g: &Ground,
    l: &Literal,
) -> Result<bool, AllocError>
    requires { IsGroundWithinLimits d.now clauses.now g.now }
    ensures { IfOk result (λ b. IsTrue b ↔ IsFactWithin d.now clauses.now l.now) }
{
    let facts = close_classes(alloc, g, d, clauses)?;
    Ok(facts.holds(l))
}

#[tactic(auto, using(crate::proofs::LimitLemmas::fault_rules))]
fn is_fact_within(
    alloc: Global,
    d: &Disjunct,
    clauses: &[Clause],
    l: &Literal,
) -> Result<bool, AllocError>
    ensures { IfOk result (λ b. IsTrue b ↔ IsFactWithin d.now clauses.now l.now) }
{
    match ground(alloc, d, clauses) {
        Ok(g) => {
            let holds = is_fact(alloc, d, clauses, &g, l)?;
            Ok(holds)
        }
        Err(GroundFault::TooManyTerms) => Ok(false),
        Err(GroundFault::TooManyAtoms) => Ok(false),
        Err(GroundFault::Memory) => Err(AllocError),
    }
}

/// Whether the literal is among the facts of what is known of the constants that occur in it, and of those that occur in
/// that, closed under the clauses. A ground part over its limits counts as not fitting.
pub fn literal_fits(
    alloc: Global,
    clauses: &[Clause],
    constants: &Constants,
    l: &Literal,
) -> Result<bool, AllocError>
    ensures { IfOk result (λ b. IsTrue b ↔ LiteralFits clauses.now constants.now l.now) }
{
    let d = question(alloc, constants, l)?;
    let fits = is_fact_within(alloc, &d, clauses, l)?;
    Ok(fits)
}

/// Whether each of the literals fits.
#[tactic(auto, using(crate::proofs::FitLemmas::each_rules))]
pub fn all_fit(
    alloc: Global,
    clauses: &[Clause],
    constants: &Constants,
    ls: &[Literal],
) -> Result<bool, AllocError>
    ensures { IfOk result (λ b. IsTrue b ↔ AllFit clauses.now constants.now ls.now) }
{
    let mut rest = ls;
    while let Some((l, others)) = rest.split_first() {
        if !literal_fits(alloc, clauses, constants, l)? {
            return Ok(false);
        }
        rest = others;
    }
    Ok(true)
}

/// Whether each literal of the type's guard at the term fits.
#[tactic(auto, using(crate::proofs::FitLemmas::told_fits))]
pub fn type_fits(
    alloc: Global,
    clauses: &[Clause],
    constants: &Constants,
    t: &Term,
    ty: &SoftType,
) -> Result<bool, AllocError>
    ensures { IfOk result (λ b. IsTrue b ↔ TypeFits clauses.now constants.now t.now ty.now) }
{
    let guard = guard_literals(alloc, ty, t)?;
    let fit = all_fit(alloc, clauses, constants, guard.items.as_slice())?;
    Ok(fit)
}

/// Whether the terms are the same, or equal by the facts.
#[tactic(auto, using(crate::proofs::FitLemmas::equal_rules))]
pub fn are_equal(
    alloc: Global,
    clauses: &[Clause],
    constants: &Constants,
    t: &Term,
    u: &Term,
) -> Result<bool, AllocError>
    ensures { IfOk result (λ b. IsTrue b ↔ AreEqualBy clauses.now constants.now t.now u.now) }
{
    if t.equals(u) {
        return Ok(true);
    }
    let left = t.copy(alloc)?;
    let right = u.copy(alloc)?;
    let equation = Literal::Eq {
        positive: true,
        left,
        right,
    };
    let fits = literal_fits(alloc, clauses, constants, &equation)?;
    Ok(fits)
}

/// A type that stands under others, at values for these, the innermost first.
pub fn type_at(alloc: Global, values: &Terms, ty: &SoftType) -> Result<SoftType, AllocError>
    ensures { IfOk result (λ at. at ≡ type_at values.now ty.now) }
{
    substitute_type(alloc, ty, 0, values, Beyond::Lowered)
}

fn with_first(alloc: Global, t: &Term, ts: Terms) -> Result<Terms, AllocError>
    ensures { IfOk result (λ us. us ≡ t.now ∷ ts) }
{
    let mut out = ts;
    let t = t.copy(alloc)?;
    out.items.insert(0, t)?;
    Ok(out)
}

/// Whether the value fits the type of a locus at the values of the loci before it, the innermost first.
#[tactic(auto, using(crate::proofs::FitLemmas::told_value))]
fn value_fits(
    alloc: Global,
    clauses: &[Clause],
    constants: &Constants,
    before: &Terms,
    ty: &SoftType,
    value: &Term,
) -> Result<bool, AllocError>
    ensures { IfOk result (λ b. IsTrue b ↔ TypeFits clauses.now constants.now value.now (type_at before.now ty.now)) }
{
    let at = type_at(alloc, before, ty)?;
    let fits = type_fits(alloc, clauses, constants, value, &at)?;
    Ok(fits)
}

/// Whether the values, in the order of the loci, fit the types of these, each at the values before it.
#[tactic(auto, using(crate::proofs::FitLemmas::loci_rules))]
pub fn loci_fit(
    alloc: Global,
    clauses: &[Clause],
    constants: &Constants,
    loci: &[SoftType],
    values: &[Term],
) -> Result<bool, AllocError>
    ensures { IfOk result (λ b. IsTrue b ↔ LociFit clauses.now constants.now [] loci.now values.now) }
{
    let mut before = Terms::new(alloc);
    let mut tys = loci;
    let mut ts = values;
    while let Some((ty, other_tys)) = tys.split_first() {
        let Some((t, other_ts)) = ts.split_first() else {
            return Ok(false);
        };
        if !value_fits(alloc, clauses, constants, &before, ty, t)? {
            return Ok(false);
        }
        before = with_first(alloc, t, before)?;
        tys = other_tys;
        ts = other_ts;
    }
    Ok(ts.len() == 0)
}
