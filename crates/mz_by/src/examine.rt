//! The universals of a disjunct, one after another.
ghost use Rattle.std.specs.Prelude.{◌≡◌, IfOk, List};
ghost use Rattle.mz_logic.specs.declared.disjunct.Disjunct.{Disjunct};
ghost use Rattle.mz_ground.specs.declared.clause.Clause.{Clause};
ghost use Rattle.mz_ground.specs.FactSet.{HasFacts};
ghost use Rattle.mz_refute.specs.FactIndex.{IsFactIndex};
ghost use Rattle.mz_by.specs.Examination.{IsExamination};

use mz_ground::fact_set::FactSet;
use mz_logic::disjunct::Disjunct;
use mz_refute::answer::Answer;
use mz_refute::fact_index::FactIndex;
use std::alloc::{AllocError, Global};

/// What the facts of a disjunct say of its universals.
#[derive(Clone, Copy, Debug, PartialEq, Eq)]
pub enum Examination {
    /// One is refuted, with work within the limit.
    Refuted,
    /// None is refuted, and this is the first work that passes the limit.
    Over { work: u64 },
    /// None is refuted, and no work passes the limit.
    Open,
}

/// Whether some universal of the disjunct is refuted, and else the first work that passes the limit.
/// The rows of the facts are made once for all of them.
pub fn examine<F: FactSet>(
    alloc: Global,
    facts: &F,
    d: &Disjunct,
) -> Result<Examination, AllocError>
    ensures { IfOk result (λ e. (cs : List Clause) → HasFacts d.now cs (F.view facts.now) → IsExamination d.now cs d.now.universals e) }
{
    let index = FactIndex::new(alloc, facts)?;
    let e = examine_by(alloc, &index, d)?;
    Ok(e)
}

fn examine_by(alloc: Global, index: &FactIndex, d: &Disjunct) -> Result<Examination, AllocError>
    ensures { IfOk result (λ e. (cs : List Clause) → IsFactIndex d.now cs index.now → IsExamination d.now cs d.now.universals e) }
{
    let mut first = None;
    for u in &d.universals.items {
        match index.refuted(alloc, d, u)? {
            Answer::Yes => return Ok(Examination::Refuted),
            Answer::No => {}
            Answer::Over { work } => first = first.or(Some(work)),
        }
    }
    match first {
        Some(work) => Ok(Examination::Over { work }),
        None => Ok(Examination::Open),
    }
}
