//! Negations.
ghost use Rattle.std.specs.Prelude.{◌≡◌, IfOk};
ghost use Rattle.mz_logic.specs.Negation.{negated};

use crate::formula::{Formula, FormulaNode};
use std::alloc::{AllocError, Global};

/// The negation of a formula, without a double one.
pub fn negated(alloc: Global, f: &Formula) -> Result<Formula, AllocError>
    ensures { IfOk result (λ g. g ≡ negated f.now) }
{
    match &f.node {
        FormulaNode::Not(g) => g.copy(alloc),
        _ => {
            let f = f.copy(alloc)?;
            Formula::not(alloc, f)
        }
    }
}
