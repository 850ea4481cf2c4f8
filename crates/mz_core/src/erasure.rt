//! Statements without types.
ghost use Rattle.std.specs.Prelude.{◌≡◌, IfOk};
ghost use Rattle.mz_core.specs.Erasure.{erase};

use crate::connectives::for_type;
use crate::statement::{Statement, StatementNode};
use mz_logic::conjunction::negation;
use mz_logic::formula::Formula;
use std::alloc::{AllocError, Global};

/// The statement as a formula: the guard of each quantifier's type is put before what it says, and a
/// double negation is dropped. More nested quantifiers or higher indices than 4,294,967,295 are as no
/// memory.
pub fn erase(alloc: Global, s: &Statement) -> Result<Formula, AllocError>
    ensures { IfOk result (λ f. f ≡ erase s.now) }
{
    match &s.node {
        StatementNode::Truth => Ok(Formula::truth()),
        StatementNode::Eq(t, u) => {
            let t = t.copy(alloc)?;
            let u = u.copy(alloc)?;
            Ok(Formula::equation(t, u))
        }
        StatementNode::Atom(s, ts) => {
            let ts = ts.copy(alloc)?;
            Ok(Formula::atom(*s, ts))
        }
        StatementNode::Not(s) => {
            let f = erase(alloc, s)?;
            negation(alloc, f)
        }
        StatementNode::And(s, t) => {
            let f = erase(alloc, s)?;
            let g = erase(alloc, t)?;
            Formula::and(alloc, f, g)
        }
        StatementNode::For(ty, s) => {
            let f = erase(alloc, s)?;
            for_type(alloc, ty, f)
        }
    }
}
