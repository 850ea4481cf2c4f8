//! The disjuncts of truth, of a literal and of a universal.
ghost use Rattle.std.specs.Prelude.{◌≡◌, [], ◌∷◌, IfOk, if◌then◌else◌};
ghost use Rattle.mz_logic.specs.declared.literal.Literal.TheVariants.{Eq, Atom};
ghost use Rattle.mz_nf.specs.Disjunct.{empty, of_literal, of_universal};

use mz_logic::disjunct::Disjunct;
use mz_logic::disjuncts::Disjuncts;
use mz_logic::formula::Formula;
use mz_logic::formulas::Formulas;
use mz_logic::literal::Literal;
use mz_logic::literals::Literals;
use mz_logic::sym::Sym;
use mz_logic::term::{Term, Terms};
use std::alloc::{AllocError, Global};

/// One empty disjunct for truth; none, where `positive` is false, for its negation.
pub fn of_truth(alloc: Global, positive: bool) -> Result<Disjuncts, AllocError>
    ensures { IfOk result (λ ds. ds ≡ (if positive then empty ∷ [] else [])) }
{
    if positive {
        nothing_said(alloc)
    } else {
        Ok(Disjuncts::new(alloc))
    }
}

/// One empty disjunct.
pub fn nothing_said(alloc: Global) -> Result<Disjuncts, AllocError>
    ensures { IfOk result (λ ds. ds ≡ empty ∷ []) }
{
    let literals = Literals::new(alloc);
    let universals = Formulas::new(alloc);
    only(
        alloc,
        Disjunct {
            literals,
            universals,
        },
    )
}

/// The disjunct of an equation, or where `positive` is false of its negation.
pub fn of_equation(
    alloc: Global,
    positive: bool,
    left: &Term,
    right: &Term,
) -> Result<Disjuncts, AllocError>
    ensures { IfOk result (λ ds. ds ≡ of_literal (Eq positive left.now right.now) ∷ []) }
{
    let left = left.copy(alloc)?;
    let right = right.copy(alloc)?;
    of_literal(
        alloc,
        Literal::Eq {
            positive,
            left,
            right,
        },
    )
}

/// The disjunct of an atom, or where `positive` is false of its negation.
pub fn of_atom(
    alloc: Global,
    positive: bool,
    sym: Sym,
    args: &Terms,
) -> Result<Disjuncts, AllocError>
    ensures { IfOk result (λ ds. ds ≡ of_literal (Atom positive sym args.now) ∷ []) }
{
    let args = args.copy(alloc)?;
    of_literal(
        alloc,
        Literal::Atom {
            positive,
            sym,
            args,
        },
    )
}

/// The disjunct of a universal, as it is written.
pub fn of_universal(alloc: Global, f: &Formula) -> Result<Disjuncts, AllocError>
    ensures { IfOk result (λ ds. ds ≡ of_universal f.now ∷ []) }
{
    let mut universals = Formulas::new(alloc);
    universals.push(f.copy(alloc)?)?;
    let literals = Literals::new(alloc);
    only(
        alloc,
        Disjunct {
            literals,
            universals,
        },
    )
}

fn of_literal(alloc: Global, l: Literal) -> Result<Disjuncts, AllocError>
    ensures { IfOk result (λ ds. ds ≡ of_literal l ∷ []) }
{
    let mut literals = Literals::new(alloc);
    literals.push(l)?;
    let universals = Formulas::new(alloc);
    only(
        alloc,
        Disjunct {
            literals,
            universals,
        },
    )
}

fn only(alloc: Global, d: Disjunct) -> Result<Disjuncts, AllocError>
    ensures { IfOk result (λ ds. ds ≡ d ∷ []) }
{
    let mut out = Disjuncts::new(alloc);
    out.push(d)?;
    Ok(out)
}
