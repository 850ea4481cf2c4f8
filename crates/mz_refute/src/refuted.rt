//! Whether facts refute a universal.
ghost use Rattle.std.specs.Prelude.{List, IfOk};
ghost use Rattle.mz_ground.specs.declared.clause.Clause.{Clause};
ghost use Rattle.mz_ground.specs.FactSet.{HasFacts};
ghost use Rattle.mz_refute.specs.Answered.{IsAnswer};

use crate::answer::Answer;
use crate::fact_index::FactIndex;
use mz_ground::fact_set::FactSet;
use mz_logic::disjunct::Disjunct;
use mz_logic::formula::Formula;
use std::alloc::{AllocError, Global};

/// Whether the facts of a disjunct under some clauses refute a universal, or its work where that passes the limit
/// (`docs/PROOFS.md`). For several universals a `FactIndex` is made once.
pub fn refuted<F: FactSet>(
    alloc: Global,
    f: &F,
    d: &Disjunct,
    universal: &Formula,
) -> Result<Answer, AllocError>
    ensures { IfOk result (λ a. (cs : List Clause) → HasFacts d.now cs (F.view f.now) → IsAnswer d.now cs universal.now a) }
{
    let index = FactIndex::new(alloc, f)?;
    let r = index.refuted(alloc, d, universal)?;
    Ok(r)
}
