//! What checks articles.
ghost use Rattle.std.specs.Prelude.{ℕ, List, IfOk};
ghost use Rattle.std.specs.Thread.{IsSync};
ghost use Rattle.mz_base.specs.NamedText.{NamedText};
ghost use Rattle.mz_base.specs.declared.name.Name.{Name};
ghost use Rattle.mz_core.specs.declared.outcome.Export.{Export};
ghost use Rattle.mz_core.specs.declared.outcome.Outcome.{Outcome};
ghost use Rattle.mz_axioms.specs.Checker.{OutcomeRelation, HasOneOutcome, AnswersName, KeepsSound};

use crate::exports::Exports;
use mz_base::name::Name;
use mz_base::vocabularies::Vocabularies;
use mz_core::outcome::Outcome;
use std::alloc::{AllocError, Global};
use std::sync::Wait;
use std::thread::Threads;

/// What a checker means: which outcome an article has, and what holds of accepted ones. It has no function,
/// so that a proof can cite its laws.
pub trait Semantics {
    /// The relation between an article's name, its vocabularies, the exports of others, its bytes, and its
    /// outcome.
    ghost is_outcome: { OutcomeRelation };

    /// An article has one outcome at most.
    ghost one_outcome: { HasOneOutcome is_outcome };

    /// The export of an accepted outcome has the name that was handed in.
    ghost answers_name: { AnswersName is_outcome };

    /// An accepted outcome from exports of a sound library that has no export of that name keeps the
    /// library sound when it is added.
    ghost keeps_sound: { KeepsSound is_outcome };
}

/// What checks an article.
pub trait Checker: Semantics + Send + Sync {
    /// The outcome of the article. Threads that it starts are to be ended when it returns. In a trait's method the
    /// bound of its own type parameter is no fact, so `Sync` is said once more as a premise; each `R` with the bound meets it.
    ///
    /// # Errors
    /// `AllocError` where memory is wanting.
    fn check<R: Threads + Wait + Sync>(
        &self,
        rt: &R,
        alloc: Global,
        name: Name,
        vocabularies: &Vocabularies,
        exports: &Exports,
        bytes: &[u8],
    ) -> Result<Outcome, AllocError>
        requires { IsSync R.row }
        ensures { IfOk result (λ o. Self.is_outcome name vocabularies.now exports.now bytes.now o) };
}
