//! The checker of articles.
use mz_article::check::check_article;
use mz_axioms::checker::{Checker, Semantics};
use mz_axioms::exports::Exports;
use mz_base::name::Name;
use mz_base::vocabularies::Vocabularies;
use mz_core::outcome::Outcome;
use mz_define::define_items::DefineItems;
use mz_register::register_items::RegisterItems;
use mz_structure::struct_items::StructItems;
use std::alloc::{AllocError, Global};
use std::marker::PhantomData;
use std::sync::Wait;
use std::thread::Threads;

/// Checks articles by `check_article`, their blocks of definitions and of notations by `D`, of registrations by `T` and their structures by
/// `S`.
#[derive(Clone, Copy, Debug)]
pub struct ArticleChecker<D, T, S> {
    kinds: PhantomData<(D, T, S)>,
}

impl<D, T, S> ArticleChecker<D, T, S> {
    /// The checker. It takes no memory.
    pub fn new() -> ArticleChecker<D, T, S> {
        ArticleChecker { kinds: PhantomData }
    }
}

impl<D, T, S> Semantics for ArticleChecker<D, T, S>
where
    D: DefineItems + Send + Sync,
    T: RegisterItems + Send + Sync,
    S: StructItems + Send + Sync,
{
    ghost use Rattle.mz_article.specs.Outcome.{IsOutcome};
    ghost use Rattle.mz_article_laws.proofs.OneOutcome.{one_outcome};
    ghost use Rattle.mz_accepted_laws.proofs.AcceptedProofs.{accepted_law, name_law};

    ghost is_outcome = { IsOutcome };

    ghost one_outcome = { one_outcome };

    ghost answers_name = { name_law };

    ghost keeps_sound = { accepted_law };
}

impl<D, T, S> Checker for ArticleChecker<D, T, S>
where
    D: DefineItems + Send + Sync,
    T: RegisterItems + Send + Sync,
    S: StructItems + Send + Sync,
{
    fn check<R: Threads + Wait + Sync>(
        &self,
        rt: &R,
        alloc: Global,
        name: Name,
        vocabularies: &Vocabularies,
        exports: &Exports,
        bytes: &[u8],
    ) -> Result<Outcome, AllocError> {
        check_article::<D, T, S>(rt, alloc, name, vocabularies, exports, bytes)
    }
}
