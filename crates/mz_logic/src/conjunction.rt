//! Conjunctions of lists and implications.
ghost use Rattle.std.specs.Prelude.{◌≡◌, IfOk};
ghost use Rattle.mz_logic.specs.Negation.{negated};
ghost use Rattle.mz_logic.specs.Connectives.{joined_to, joined, implies};

use crate::formula::{Formula, FormulaNode};
use crate::formulas::Formulas;
use std::alloc::{AllocError, Global};

/// The negation of a formula that is given up, without a double one.
pub fn negation(alloc: Global, f: Formula) -> Result<Formula, AllocError>
    ensures { IfOk result (λ g. g ≡ negated f) }
{
    let binders = f.binders;
    match f.into_node() {
        FormulaNode::Not(g) => Ok(Box::into_inner(g)),
        node => Formula::not(alloc, Formula { node, binders }),
    }
}

/// `f implies g`.
pub fn implies(alloc: Global, f: Formula, g: Formula) -> Result<Formula, AllocError>
    ensures { IfOk result (λ h. h ≡ implies f g) }
{
    let g = negation(alloc, g)?;
    let h = Formula::and(alloc, f, g)?;
    Formula::not(alloc, h)
}

/// The conjunction, grouped to the left; truth of no formulas.
pub fn join(alloc: Global, fs: &Formulas) -> Result<Formula, AllocError>
    ensures { IfOk result (λ f. f ≡ joined fs.now) }
{
    match fs.items.as_slice() {
        [] => Ok(Formula::truth()),
        [f, others @ ..] => join_to(alloc, f, others),
    }
}

/// The conjunction of `f` and then the others, grouped to the left.
pub fn join_to(alloc: Global, f: &Formula, others: &[Formula]) -> Result<Formula, AllocError>
    ensures { IfOk result (λ g. g ≡ joined_to f.now others.now) }
{
    let mut all = f.copy(alloc)?;
    for g in others {
        let g = g.copy(alloc)?;
        all = Formula::and(alloc, all, g)?;
    }
    Ok(all)
}
