//! The facts of a disjunct as rows by their heads.
ghost use Rattle.std.specs.Prelude.{◌≡◌, ℕ, Bool, List, IfOk, length};
ghost use Rattle.mz_logic.specs.declared.disjunct.Disjunct.{Disjunct};
ghost use Rattle.mz_ground.specs.declared.clause.Clause.{Clause};
ghost use Rattle.mz_ground.specs.FactSet.{HasFacts};
ghost use Rattle.mz_refute.specs.Answered.{IsAnswer};
ghost use Rattle.mz_refute.specs.FactIndex.{IsFactIndex, AreClasses, AreSigns, AreDisequal};

use crate::answer::Answer;
use crate::build::table_of;
use crate::distinct::distinct;
use crate::work::answer;
use mz_ground::fact_set::FactSet;
use mz_logic::disjunct::Disjunct;
use mz_logic::formula::Formula;
use mz_match::table::Table;
use std::alloc::{AllocError, Global};

/// The facts of a disjunct, made into rows once for all of its universals.
#[derive(Drop)]
pub struct FactIndex {
    table: Table,
    /// The numbers of the ground terms' classes, each once.
    values: Vec<usize>,
    /// How many ground terms there are.
    terms: usize,
}

impl FactIndex {
    /// The index of facts.
    pub fn new<F: FactSet>(alloc: Global, f: &F) -> Result<FactIndex, AllocError>
        ensures { IfOk result (λ x. (d : Disjunct) (cs : List Clause) → HasFacts d cs (F.view f.now) → IsFactIndex d cs x) }
    {
        let classes = classes(alloc, f)?;
        let positive = signs(alloc, f, true)?;
        let negative = signs(alloc, f, false)?;
        let disequal = disequal(alloc, f)?;
        let table = table_of(
            alloc,
            f.ground(),
            classes.as_slice(),
            positive.as_slice(),
            negative.as_slice(),
            disequal.as_slice(),
        )?;
        let values = distinct(alloc, classes.as_slice())?;
        Ok(FactIndex {
            table,
            values,
            terms: classes.len(),
        })
    }

    /// Whether the facts refute a universal of the disjunct, or its work where that passes the limit
    /// (`docs/PROOFS.md`).
    pub fn refuted(
        &self,
        alloc: Global,
        d: &Disjunct,
        universal: &Formula,
    ) -> Result<Answer, AllocError>
        ensures { IfOk result (λ a. (cs : List Clause) → IsFactIndex d.now cs self.now → IsAnswer d.now cs universal.now a) }
    {
        let r = answer(
            alloc,
            &self.table,
            self.terms,
            self.values.as_slice(),
            &d.universals,
            universal,
        )?;
        Ok(r)
    }
}

/// The number of the class of each term of the facts, by the term's number.
pub fn classes<F: FactSet>(alloc: Global, f: &F) -> Result<Vec<usize>, AllocError>
    ensures { IfOk result (λ v. AreClasses (F.view f.now) v.items) }
{
    let mut out = Vec::new(alloc);
    for i in 0..f.ground().terms.len() {
        out.push(f.class_at(i))?;
    }
    Ok(out)
}

/// Whether each atom, by its number, is a fact with the sign.
pub fn signs<F: FactSet>(alloc: Global, f: &F, positive: bool) -> Result<Vec<bool>, AllocError>
    ensures { IfOk result (λ v. AreSigns (F.view f.now) positive v.items) }
{
    let mut out = Vec::new(alloc);
    for k in 0..f.ground().atoms.len() {
        out.push(f.is_signed(k, positive))?;
    }
    Ok(out)
}

/// Whether the negation of each equation, by its number, is a fact.
pub fn disequal<F: FactSet>(alloc: Global, f: &F) -> Result<Vec<bool>, AllocError>
    ensures { IfOk result (λ v. AreDisequal (F.view f.now) v.items) }
{
    let mut out = Vec::new(alloc);
    for k in 0..f.ground().equations.len() {
        out.push(f.is_disequal(k))?;
    }
    Ok(out)
}
