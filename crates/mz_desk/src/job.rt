//! What a worker takes from the desk, and what it brings back.
ghost use Rattle.std.specs.Prelude.{◌≡◌, IfOk, IfErr};
ghost use Rattle.mz_desk.specs.Job.{IsOutcomeOf};
ghost use Rattle.mz_desk.specs.Found.{IsFound, outcome_from};

use mz_axioms::checker::{Checker, Semantics};
use mz_axioms::exports::Exports;
use mz_base::name::Name;
use mz_base::text::Text;
use mz_base::vocabularies::Vocabularies;
use mz_core::fault::Faults;
use mz_core::outcome::{Export, Outcome};
use mz_core::verdict::Counts;
use mz_rows::counts::counts_of;
use mz_rows::standing::RowState;
use std::alloc::{AllocError, Global};
use std::marker::{Model, PhantomData};
use std::sync::{Arc, Wait};
use std::thread::Threads;

/// A claimed row, with all that its check reads: its article's name and text, the vocabularies that its text
/// names and that there are, and the exports of its dependencies with the built-in ones, both in the order of
/// names.
#[derive(Drop)]
pub struct Job {
    pub(crate) row: u32,
    pub(crate) worker: u32,
    pub(crate) name: Name,
    pub(crate) text: Arc<Text>,
    pub(crate) vocabularies: Vocabularies,
    pub(crate) exports: Exports,
}

impl Model for Job {
    ghost use Rattle.std.specs.Arc.{arc_value};
    ghost use Rattle.mz_desk.specs.Job.{Job as JobValue};
    ghost use Rattle.mz_desk.specs.Difference.{AreRising, AreTexts, number_of_export};
    ghost use Rattle.std.specs.Coded.{codes};
    ghost use Rattle.mz_core.specs.contracts.outcome.Export as export_contract;

    ghost Value = { JobValue };

    ghost coded = { Prim.hlevel (codes, export_contract.the_row.coded) };

    ghost view = { λ j. record { row = j.row; worker = j.worker; name = j.name; text = arc_value j.text; vocabularies = j.vocabularies; exports = j.exports } };

    ghost invariant = { λ j. AreTexts j.vocabularies × AreRising number_of_export j.exports };
}

/// What a check found. The export of an accepted article is there twice, for its row and for the library, so
/// that its publication takes no memory.
#[derive(Drop)]
pub enum Found {
    Accepted {
        export: Arc<Export>,
        shared: Arc<Export>,
        counts: Counts,
    },
    Rejected(Faults),
}

/// A job with the outcome that the checker `C` gives for it.
#[derive(Drop)]
pub struct Done<C: Semantics> {
    pub(crate) job: Job,
    pub(crate) found: Found,
    of: PhantomData<C>,
}

impl<C: Semantics> Model for Done<C> {
    ghost use Rattle.mz_desk.specs.Job.{Done as DoneValue, IsOutcomeOf};
    ghost use Rattle.mz_desk.specs.Found.{IsFound, outcome_from};
    ghost use Rattle.std.specs.Coded.{codes};
    ghost use Rattle.mz_core.specs.contracts.outcome.Export as export_contract;

    ghost Value = { DoneValue };

    ghost coded = { Prim.hlevel (codes, export_contract.the_row.coded) };

    ghost view = { λ d. record { job = d.job; outcome = outcome_from d.found } };

    ghost invariant = { λ d. IsOutcomeOf C.is_outcome d.job (outcome_from d.found) × IsFound d.found };
}

/// Why a result isn't published.
#[derive(Clone, Copy, Debug, PartialEq, Eq)]
pub enum Why {
    /// The row of the job's name isn't claimed by its worker; none where there is no such row.
    NotClaimed(Option<RowState>),
    /// The text isn't the desk's own.
    Text,
    /// The vocabulary of this name isn't; an absent one is as none.
    Vocabulary { name: Name },
    /// The export of this name isn't; an absent one is as none.
    Export { name: Name },
}

/// A result that isn't published.
#[derive(Drop)]
pub struct Strayed<C: Semantics> {
    pub done: Done<C>,
    pub why: Why,
}

/// An outcome, with what its publication needs.
fn stored(alloc: Global, outcome: Outcome) -> Result<Found, AllocError>
    ensures outcome { IfOk result (λ f. outcome_from f ≡ outcome) }
    ensures found { IfOk result (λ f. IsFound f) }
{
    match outcome {
        Outcome::Rejected(faults) => Ok(Found::Rejected(faults)),
        Outcome::Accepted(export) => {
            let counts = counts_of(&export.items)?;
            let export = Arc::new(alloc, export)?;
            let shared = Arc::try_clone(&export)?;
            Ok(Found::Accepted {
                export,
                shared,
                counts,
            })
        }
    }
}

impl Job {
    /// The number of the row.
    pub fn row(&self) -> u32
        ensures { result ≡ self.now.row }
    {
        self.row
    }

    /// The number of the worker.
    pub fn worker(&self) -> u32
        ensures { result ≡ self.now.worker }
    {
        self.worker
    }

    /// The name of the article.
    pub fn name(&self) -> Name
        ensures { result ≡ self.now.name }
    {
        self.name
    }

    /// The article's bytes.
    pub fn text(&self) -> &[u8]
        ensures { result.now ≡ self.now.text }
    {
        self.text.as_slice()
    }

    /// The vocabularies that the text names and that there are, in the order of names.
    pub fn vocabularies(&self) -> &Vocabularies
        ensures { result.now ≡ self.now.vocabularies }
    {
        &self.vocabularies
    }

    /// The exports from which the article is checked, in the order of names.
    pub fn exports(&self) -> &Exports
        ensures { result.now ≡ self.now.exports }
    {
        &self.exports
    }

    /// What the checker finds for the job.
    fn outcome<C: Checker, R: Threads + Wait + Sync>(
        &self,
        rt: &R,
        alloc: Global,
        checker: &C,
    ) -> Result<Found, AllocError>
        ensures outcome { IfOk result (λ f. IsOutcomeOf C.is_outcome self.now (outcome_from f)) }
        ensures found { IfOk result (λ f. IsFound f) }
    {
        let bytes = self.text.as_slice();
        let outcome = checker.check(
            rt,
            alloc,
            self.name,
            &self.vocabularies,
            &self.exports,
            bytes,
        )?;
        stored(alloc, outcome)
    }

    /// The job with its outcome, or the job where memory is wanting.
    pub fn check<C: Checker, R: Threads + Wait + Sync>(
        self,
        rt: &R,
        alloc: Global,
        checker: &C,
    ) -> Result<Done<C>, (Job, AllocError)>
        ensures ok { IfOk result (λ d. d.job ≡ self) }
        ensures err { IfErr result (λ e. e.0 ≡ self) }
    {
        match self.outcome(rt, alloc, checker) {
            Ok(found) => Ok(Done {
                job: self,
                found,
                of: PhantomData,
            }),
            Err(e) => Err((self, e)),
        }
    }
}

impl<C: Semantics> Done<C> {
    /// What each result keeps: its outcome is the one that the checker gives for its job.
    pub fn law(&self)
        ensures { IsOutcomeOf C.is_outcome self.now.job self.now.outcome }
    {
        let _found = &self.found;
    }

    /// The job.
    pub fn job(&self) -> &Job
        ensures { result.now ≡ self.now.job }
    {
        &self.job
    }

    /// What was found.
    pub fn found(&self) -> &Found
        ensures { outcome_from result.now ≡ self.now.outcome }
    {
        &self.found
    }
}
